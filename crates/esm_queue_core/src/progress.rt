//! How far a queue's book has come, for whoever watches its run. No contract speaks of these numbers.
use crate::queue_core::QueueCore;
use esm_model::Progress;

impl QueueCore {
    /// How many messages came, and how many of them are deleted. Leaves the number in calls at 0. Takes no memory.
    pub fn progress(&self) -> Progress {
        Progress {
            came: u64::from(self.queue.len()),
            settled: u64::from(self.deleted),
            in_calls: 0,
        }
    }
}
