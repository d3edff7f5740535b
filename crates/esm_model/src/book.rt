// What a book answers: jobs and pauses for the batchers, refusals, and the trouble that took the book down.
use crate::call_event::Event;
use crate::lane::LaneId;
use crate::memory::OutOfMemory;
use crate::text::{Places, Text};

/// The refusal of a call that takes devices by value: why it refused, and the devices, which it gives back.
#[derive(Drop, Debug)]
pub struct Refused<E, P> {
    pub why: E,
    pub back: P,
}

/// Why a book could not be opened.
#[derive(Clone, Copy, Debug, PartialEq, Eq)]
pub enum BookOpen {
    /// The position in the journal, counted from 0, of the first payload that no book could have written.
    BadPayload(u32),
    OutOfMemory,
}

/// A record that arrived with another text than the journal kept of it. Both texts are sequence numbers.
#[derive(Drop, Debug)]
pub struct Change {
    pub shard: u64,
    pub place: u32,
    pub kept: Text,
    pub given: Text,
}

/// Why a book is down: the first of these causes that one of its calls reported.
#[derive(Drop, Debug)]
pub enum Trouble {
    /// The journal's disk failed.
    Disk,
    /// The failure destination failed.
    Dest,
    /// A record of the input differs from what the journal kept of it.
    Changed(Change),
}

/// A call to make: the event to send to the function, and the lane and the batch that it is for. `closing` is the start of
/// the window, in milliseconds, where this is a window's final call; `places` is then empty.
#[derive(Drop, Debug)]
pub struct Job {
    pub lane: LaneId,
    pub places: Places,
    pub closing: Option<u64>,
    pub event: Event,
}

/// What a batcher does next.
#[derive(Drop, Debug)]
pub enum Next {
    /// Call the function.
    Call(Job),
    /// Ask again: this many records got their fate.
    Gave(u32),
    /// Pause until this moment, in milliseconds.
    Idle { until: u64 },
    /// Stop: all calls allowed were made.
    Spent,
    /// Stop: nothing is left.
    Finished,
}

/// Why a book refused a call.
#[derive(Clone, Copy, Debug, PartialEq, Eq)]
pub enum BookError {
    /// The journal's disk failed in this call.
    DiskFault,
    /// The failure destination failed in this call.
    DestFault,
    /// The book is down since an earlier call.
    Down,
    /// Out of memory; the book is unchanged.
    OutOfMemory,
}

/// Why a book did not accept records.
#[derive(Drop, Debug)]
pub enum CameError {
    /// A record differs from what the journal kept of it; no record of the list was accepted.
    StreamChanged(Change),
    /// The journal's disk failed in this call.
    DiskFault,
    /// The book is down since an earlier call.
    Down,
    /// Out of memory; the book is unchanged.
    OutOfMemory,
}

impl From<OutOfMemory> for BookOpen {
    ghost use Rattle.std.specs.Prelude.{◌≡◌};
    ghost use Rattle.esm_model.specs.declared.book.BookOpen.{BookOpen};

    ghost from_gives = { λ _ e. e ≡ BookOpen.OutOfMemory };

    fn from(_: OutOfMemory) -> Self {
        BookOpen::OutOfMemory
    }
}

impl From<OutOfMemory> for BookError {
    ghost use Rattle.std.specs.Prelude.{◌≡◌};
    ghost use Rattle.esm_model.specs.declared.book.BookError.{BookError};

    ghost from_gives = { λ _ e. e ≡ BookError.OutOfMemory };

    fn from(_: OutOfMemory) -> Self {
        BookError::OutOfMemory
    }
}

impl From<OutOfMemory> for CameError {
    ghost use Rattle.std.specs.Prelude.{◌≡◌};
    ghost use Rattle.esm_model.specs.declared.book.CameError.{CameError};

    ghost from_gives = { λ _ e. e ≡ CameError.OutOfMemory };

    fn from(_: OutOfMemory) -> Self {
        CameError::OutOfMemory
    }
}
