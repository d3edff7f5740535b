//! How far a stream's book has come, for whoever watches its run. No contract speaks of these numbers.
ghost use Rattle.esm_ledger.specs.Ledger.{Keeps};

use crate::stream_core::StreamCore;
use esm_ledger::Ledger;
use esm_model::{MAX_LANES, Progress};

/// How many records are in the batcher's running call; 0 if none runs.
fn called_by(ledger: &Ledger, batcher: u32) -> u32
    requires kept { Keeps ledger.now }
{
    match ledger.lane_of_batcher(batcher) {
        None => 0,
        Some(lane) => ledger.called_count(lane),
    }
}

/// How many records are in the running calls.
fn in_calls(ledger: &Ledger) -> u64
    requires kept { Keeps ledger.now }
{
    let mut count: u64 = 0;
    for batcher in 0..MAX_LANES as u32 {
        count = count.saturating_add(u64::from(called_by(ledger, batcher)));
    }
    count
}

impl StreamCore {
    /// How far the book has come. Once nothing is decided any more, no record is counted in calls. Takes no memory.
    pub fn progress(&self) -> Progress {
        let counted = self.ledger.progress();
        if !self.standing.is_whole() {
            return counted;
        }
        Progress {
            came: counted.came,
            settled: counted.settled,
            in_calls: in_calls(&self.ledger),
        }
    }
}
