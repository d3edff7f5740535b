//! The vocabulary of queues, in addition to that of streams: the state of a queue, which of its messages are hidden and
//! which eligible, what a receipt does, and which histories of a queue's mapping are legal. Definitions and laws; no device,
//! clock or thread.
#![tactic(auto)]

pub mod history_laws;
pub mod queue_book_laws;
pub mod queue_laws;
pub mod stored;
pub mod worked;

pub use stored::{MAX_COUNT, Stored};
