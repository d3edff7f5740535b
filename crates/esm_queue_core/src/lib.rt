//! The decisions of a queue's book, without its devices: which entry may come next, and what a batcher does next.
//! A core holds the history, the queue, and the entries that were decided and are not yet added, for all batchers.
//! Pure: values in, values out. No device, clock or thread.
#![tactic(auto)]

pub mod coming;
mod decisions;
pub mod ending;
mod gather;
pub mod gift;
pub mod laws;
pub mod next;
pub mod owed;
mod paying;
mod progress;
mod queue_core;
mod standing;
pub mod worked;

pub use decisions::{Opened, QueueAnswer, QueueCall, QueueEntry};
pub use queue_core::QueueCore;
