// The entries that a call of a queue's book owes: the first one, and the deletion after it.
use esm_model::{Fate, LaneId, Places, Reply};

/// The first entry that a call owes.
#[derive(Drop, Debug)]
pub enum First {
    /// Messages come: `count` of them, from the place `from` on.
    Came {
        from: u32,
        count: u32,
        moment: u64,
    },
    /// A call of the function begins.
    Began {
        lane: LaneId,
        places: Places,
        moment: u64,
    },
    /// The lane's call ends.
    Ended {
        lane: LaneId,
        reply: Reply,
        moment: u64,
    },
}

/// The deletion that a call owes after that, with its payload.
#[derive(Drop, Debug)]
pub(crate) struct Gift {
    pub by: Option<LaneId>,
    pub places: Places,
    pub fate: Fate,
    pub moment: u64,
    pub payload: Vec<u8>,
}
