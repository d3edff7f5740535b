// The entries of a book's history, and what they hold: fates of records, replies and window states.
ghost use Rattle.std.specs.Prelude.{◌≡◌};

use crate::lane::LaneId;
use crate::text::{Bytes, Places, Text};
use std::marker::Model;
use std::snapshot::Snapshot;

/// The fate of a record. A record without one is open, and none gets a second.
#[derive(Clone, Copy, Debug, PartialEq, Eq)]
pub enum Fate {
    /// A function's answer counts it as done.
    Succeeded,
    /// It does not pass the filter.
    Filtered,
    /// It was older than the maximum record age.
    Expired,
    /// It failed more often than the retry attempts allow.
    Exhausted,
}

/// The result of a function call.
#[derive(Drop, Debug)]
pub enum Reply {
    /// A whole response; `error` says whether it has the header `X-Amz-Function-Error`.
    Answered {
        status: u16,
        error: bool,
        body: Bytes,
    },
    /// Bytes were read, but they are no response.
    Garbled {
        bytes: Bytes,
    },
    /// The connection failed.
    Lost,
}

/// A reply in a history. Contracts see the whole reply; the program does not keep its bytes, so a history takes no memory
/// for the answers of functions.
#[derive(Drop)]
pub struct PastReply {
    reply: Snapshot<Reply>,
}

impl Model for PastReply {
    ghost use Rattle.esm_model.specs.declared.entry.Reply.{Reply};

    ghost Value = { Reply };

    ghost view = { λ past. past.reply.value };
}

impl PastReply {
    /// The reply as a history holds it. Takes no memory.
    pub fn of(reply: &Reply) -> PastReply
        ensures { result ≡ reply.now }
    {
        PastReply {
            reply: Snapshot::of(reply),
        }
    }
}

/// The state of a tumbling window: the window's start in milliseconds, and the state as the JSON text that a function
/// returned.
#[derive(Drop, Debug)]
pub struct WindowState {
    pub window: u64,
    pub text: Bytes,
}

/// One step of a book's history. Moments are in milliseconds since 1970; places count a shard's records from 0.
#[derive(Drop)]
pub enum Entry {
    /// Records arrived: `count` of them, at the places from `first` on.
    Came {
        shard: u64,
        first: u32,
        count: u32,
        moment: u64,
    },
    /// A call began. `closing` is the start of the window where this is its final call, which has no places.
    Began {
        lane: LaneId,
        places: Places,
        closing: Option<u64>,
        moment: u64,
    },
    /// The lane's call ended with this reply.
    Ended {
        lane: LaneId,
        reply: PastReply,
        moment: u64,
    },
    /// Records got their fate. `by` is the lane, or `None` where they were filtered at their arrival. `line` is the failure
    /// line, and `state` what the call left to its window.
    Gave {
        by: Option<LaneId>,
        shard: u64,
        places: Places,
        fate: Fate,
        line: Option<Text>,
        state: Option<WindowState>,
        moment: u64,
    },
    /// A failed try was counted for these places, or for the final call of the window `closing`; `tries` is the number after
    /// it.
    Tried {
        lane: LaneId,
        places: Places,
        closing: Option<u64>,
        tries: u32,
        moment: u64,
    },
    /// A tumbling window was closed, after its final call.
    Closed {
        lane: LaneId,
        window: u64,
        moment: u64,
    },
    /// A replay called these records, which had been given up, and they succeeded.
    Replayed {
        shard: u64,
        places: Places,
        moment: u64,
    },
    /// The input ended: no record arrives after this.
    Shut {
        moment: u64,
    },
}
