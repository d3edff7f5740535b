//! How far a stream's book has come, for whoever watches its run. No contract speaks of these numbers.
ghost use Rattle.std.specs.Prelude.{◌<◌};
ghost use Rattle.esm_ledger.specs.Ledger.{Keeps};

use crate::ledger::Ledger;
use esm_model::{LaneId, Progress};

impl Ledger {
    /// How many records came, and how many of them have a fate, over all shards. Leaves the number in calls at 0.
    pub fn progress(&self) -> Progress {
        let mut progress = Progress {
            came: 0,
            settled: 0,
            in_calls: 0,
        };
        for kept in self.shards.as_slice() {
            let came = u64::from(kept.progress.len());
            let in_front = u64::from(kept.progress.checkpoint());
            let behind = u64::from(kept.progress.spread());
            progress.came = progress.came.saturating_add(came);
            progress.settled = progress
                .settled
                .saturating_add(in_front.saturating_add(behind));
        }
        progress
    }

    /// How many records are in the lane's running call; 0 if none runs or a final one does.
    pub fn called_count(&self, lane: LaneId) -> u32
        requires kept { Keeps self.now }
        requires known { lane.lane < self.now.config.factor }
    {
        match self.kept(lane.shard) {
            None => 0,
            Some(kept) => kept.lanes.state(lane.lane).running_count(),
        }
    }
}
