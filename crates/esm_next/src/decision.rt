// What is decided for a batcher of a stream: a call, an expiry, a pause or an end.
use esm_model::{Job, LaneId, Places, Text};

/// What is decided for a batcher.
#[derive(Drop, Debug)]
pub enum Decision {
    /// A call begins: of a batch, or the final one of a tumbling window.
    Call(Job),
    /// Records at the front of the lane are older than the maximum record age; the line is for the failure destination, if
    /// one is set.
    Expire {
        lane: LaneId,
        places: Places,
        line: Option<Text>,
    },
    /// Nothing is to be done before this moment, in milliseconds.
    Idle {
        until: u64,
    },
    /// All calls allowed were made.
    Spent,
    /// Nothing is left to do.
    Finished,
}
