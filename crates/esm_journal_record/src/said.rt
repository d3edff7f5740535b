// What one payload of a mapping's journal says: fates, deletions, window states, failed tries and replays.
use crate::kept_text::KeptTexts;
use esm_model::{Fate, Places, WindowState};

/// What one payload of a mapping's journal says. Moments and the starts of windows are in milliseconds since 1970;
/// places count a shard's records, or a queue's messages, from 0, and rise strictly. Of each record its sequence
/// number is kept, of each message its id.
#[derive(Drop, Debug)]
pub enum Said {
    /// Records of a shard got this fate. If they succeeded in a tumbling window, `state` is its new state.
    Fates {
        shard: u64,
        fate: Fate,
        moment: u64,
        state: Option<WindowState>,
        places: Places,
        texts: KeptTexts,
    },
    /// A tumbling window was closed.
    Closed {
        shard: u64,
        window: u64,
        moment: u64,
    },
    /// Messages of a queue were deleted: they succeeded, did not pass the filter, or were moved away.
    Deleted {
        fate: Fate,
        moment: u64,
        places: Places,
        texts: KeptTexts,
    },
    /// A tumbling window has this state. Only a compaction writes this kind.
    State {
        shard: u64,
        moment: u64,
        state: WindowState,
    },
    /// Records have failed `tries` times.
    Tried {
        shard: u64,
        moment: u64,
        tries: u32,
        places: Places,
        texts: KeptTexts,
    },
    /// The final call of a tumbling window has failed `tries` times.
    WindowTried {
        shard: u64,
        window: u64,
        moment: u64,
        tries: u32,
    },
    /// Records that had failed for good were replayed: called again, and counted as succeeded.
    Replayed {
        shard: u64,
        moment: u64,
        places: Places,
        texts: KeptTexts,
    },
}
