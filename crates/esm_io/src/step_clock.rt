// A clock that stands still unless a pause advances it, for runs in memory.
ghost use Rattle.std.specs.Prelude.{true};

use crate::clock::Clock;
use std::sync::atomic::{AtomicU64, Ordering};

/// A clock that stands still: `now` returns its moment, and `pause` advances it.
#[derive(Drop)]
pub struct StepClock {
    moment: AtomicU64,
}

impl StepClock {
    /// Makes a clock that stands at this moment, in milliseconds since 1970.
    pub fn new(moment: u64) -> Self {
        StepClock {
            moment: AtomicU64::new(moment),
        }
    }
}

impl Clock for StepClock {
    ghost gave = { λ moment. true };

    fn now(&self) -> u64 {
        self.moment.load(Ordering::SeqCst)
    }

    fn pause(&self, until: u64) -> u64 {
        self.moment.fetch_max(until, Ordering::SeqCst).max(until)
    }
}
