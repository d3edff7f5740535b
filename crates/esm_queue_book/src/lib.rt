//! The durable book of a queue: messages come, batches are called, and each deletion is written to the journal. Each call is
//! one legal step of the history, and a crash at any moment leaves only the payloads of whole entries.
//! `esm_queue_core` makes the decisions, and `esm_book` writes them. No clock and no thread.
#![tactic(auto)]

mod carrying;
pub mod crossing;
mod kept;
mod lasting;
pub mod moments;
mod opening;
mod pooled;
mod queue_book;

pub use queue_book::{QueueBook, QueueParts};
