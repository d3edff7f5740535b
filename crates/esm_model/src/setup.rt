// What a book is opened with: its mapping, what its journal said at opening, and the state of its devices.
use crate::config::Config;
use crate::device::DeviceFound;
use crate::entry::{Entry, Fate};
use crate::item::Message;
use crate::record::Record;
use crate::text::{Bytes, Text};
use std::collections::LinkedList;

/// An entry of a shared history. A `Came` holds the records that it covers, in order, or the messages where the book is a
/// queue's; every other entry holds none. Only contracts use it: no value is made.
pub struct Told {
    pub entry: Entry,
    pub records: LinkedList<Record>,
    pub messages: LinkedList<Message>,
}

/// A fate found in the journal at opening, with the record's sequence number as the journal kept it.
pub struct FoundFate {
    pub shard: u64,
    pub place: u32,
    pub fate: Fate,
    pub text: Text,
}

/// Failed tries of a record without a fate, found in the journal at opening, with the record's sequence number as the
/// journal kept it.
pub struct FoundTries {
    pub shard: u64,
    pub place: u32,
    pub tries: u32,
    pub text: Text,
}

/// The state of a tumbling window, found in the journal at opening. `window` is the window's start in milliseconds.
pub struct FoundState {
    pub shard: u64,
    pub window: u64,
    pub text: Bytes,
}

/// The number of failed final calls of a tumbling window, found in the journal at opening. `window` is the window's start in
/// milliseconds.
pub struct FoundWindowTries {
    pub shard: u64,
    pub window: u64,
    pub tries: u32,
}

/// The deletion of a message, found in the journal at opening, with the message's id as the journal kept it.
pub struct FoundDeletion {
    pub place: u32,
    pub fate: Fate,
    pub text: Text,
}

/// What a book was opened with: its mapping, what its journal said, and the state of its devices. Only contracts use it: no
/// value is made.
pub struct Setup {
    pub config: Config,
    /// The number of calls allowed.
    pub calls: u32,
    /// The visibility timeout of a queue in milliseconds; 0 for a stream.
    pub visibility_ms: u64,
    pub fates: LinkedList<FoundFate>,
    pub tries: LinkedList<FoundTries>,
    pub states: LinkedList<FoundState>,
    pub window_tries: LinkedList<FoundWindowTries>,
    pub deletions: LinkedList<FoundDeletion>,
    /// The payloads of the journal, in order.
    pub payloads: LinkedList<Bytes>,
    /// The state of the journal's pair with its two disks.
    pub pair: DeviceFound,
    /// The lines found in the failure destination, as it sends them, and the destination's state.
    pub lines: LinkedList<Bytes>,
    pub dest: DeviceFound,
}
