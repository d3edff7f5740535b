// An entry that a stream's ledger owes, with its payload for the journal and its line for the failure destination.
use esm_model::{Bytes, Fate, LaneId, Places, Reply, Text, Verdict, WindowState};

/// An entry that is to be added, with what a ledger needs for it besides. The records of a `Came` are kept apart.
#[derive(Drop)]
pub(crate) enum Act {
    Came {
        shard: u64,
        first: u32,
        count: u32,
        moment: u64,
    },
    /// A call of the function begins: of these places, or a final call of the window `closing` with none.
    Began {
        lane: LaneId,
        places: Places,
        closing: Option<u64>,
        moment: u64,
    },
    Ended {
        lane: LaneId,
        reply: Reply,
        verdict: Verdict,
        moment: u64,
    },
    /// Records get another fate than `Expired`; `copy` is a copy of the state.
    Gave {
        by: Option<LaneId>,
        shard: u64,
        places: Places,
        fate: Fate,
        line: Option<Text>,
        state: Option<WindowState>,
        copy: Option<WindowState>,
        moment: u64,
    },
    Expired {
        lane: LaneId,
        places: Places,
        line: Option<Text>,
        moment: u64,
    },
    Tried {
        lane: LaneId,
        places: Places,
        closing: Option<u64>,
        tries: u32,
        moment: u64,
    },
    Closed {
        lane: LaneId,
        window: u64,
        moment: u64,
    },
}

/// An act, and the payload of its entry in the journal.
#[derive(Drop)]
pub(crate) struct Owed {
    pub act: Act,
    pub payload: Option<Bytes>,
}
