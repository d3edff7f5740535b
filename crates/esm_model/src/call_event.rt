// The event of a call to make, kept as the parts from which its text is written.
ghost use Rattle.std.specs.Prelude.{◌≡◌};
ghost use Rattle.esm_model.specs.EventText.{event_in};

use crate::record::Record;
use std::alloc::Global;
use std::marker::Model;

/// The event of a call to make. Contracts see its text, which is not written yet: the event holds the beginning, the
/// records, which it shares, and the end. Each record becomes one element of the text.
#[derive(Drop, Debug)]
pub struct Event {
    head: Vec<u8>,
    records: Vec<Record>,
    source: Vec<u8>,
    tail: Vec<u8>,
}

/// The parts from which an event's text is written: its beginning, the records of its elements, the source with which each
/// element ends, and its end.
#[derive(Clone, Copy)]
pub struct EventParts<'a> {
    pub head: &'a [u8],
    pub records: &'a [Record],
    pub source: &'a [u8],
    pub tail: &'a [u8],
}

impl Model for Event {
    ghost use Rattle.std.specs.Prelude.{ℕ, List};
    ghost use Rattle.esm_model.specs.EventText.{event_in};

    ghost Value = { List ℕ };

    ghost view = { λ e. event_in e.head.items e.records.items e.source.items e.tail.items };
}

impl Event {
    /// An event with this text and no elements of records. Takes no memory.
    pub fn of_text(alloc: Global, text: Vec<u8>) -> Event
        ensures { result ≡ text.items }
    {
        Event {
            head: text,
            records: Vec::new(alloc),
            source: Vec::new(alloc),
            tail: Vec::new(alloc),
        }
    }

    /// The event that begins with `head`, has an element for each record, separated by commas, and ends with `tail`. Each
    /// element ends with `source`. Takes no memory.
    pub fn of_records(head: Vec<u8>, records: Vec<Record>, source: Vec<u8>, tail: Vec<u8>) -> Event
        ensures { result ≡ event_in head.items records.items source.items tail.items }
    {
        Event {
            head,
            records,
            source,
            tail,
        }
    }

    /// The parts from which its text is written.
    pub fn parts(&self) -> EventParts<'_>
        ensures { self.now ≡ event_in result.head.now result.records.now result.source.now result.tail.now }
    {
        EventParts {
            head: self.head.as_slice(),
            records: self.records.as_slice(),
            source: self.source.as_slice(),
            tail: self.tail.as_slice(),
        }
    }
}
