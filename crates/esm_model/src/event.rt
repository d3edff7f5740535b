// What an event says of its tumbling window, and what a failure line says of records given up.
use crate::entry::WindowState;
use crate::sequence::Seq;

/// What an event says of its tumbling window: the state before the call, and whether it is the window's final call.
#[derive(Drop, Debug)]
pub struct WindowCall {
    pub shard: u64,
    pub state: WindowState,
    pub closing: bool,
}

/// The answer that a failure line reports: its status, and whether it had the function error header.
#[derive(Clone, Copy, Debug, PartialEq, Eq)]
pub struct Response {
    pub status: u16,
    pub error: bool,
}

/// What a failure line says of the records that were given up: their shard, the first one's place, sequence number and
/// arrival, the last one's sequence number and arrival, and their count. `expired` says that they expired, and otherwise
/// they are exhausted. `calls` counts the calls whose batch had the first record, and `response` is the answer of the last
/// of these. Arrivals and `moment`, when they got their fate, are in milliseconds since 1970.
#[derive(Drop, Debug)]
pub struct Failure {
    pub shard: u64,
    pub place: u32,
    pub first: Seq,
    pub last: Seq,
    pub first_arrival: u64,
    pub last_arrival: u64,
    pub count: u32,
    pub expired: bool,
    pub calls: u32,
    pub response: Option<Response>,
    pub moment: u64,
}
