//! The durable book of a stream: records come, batches are called, and each fate, state and failed try is written to the
//! journal, after its failure line, if it has one, was delivered to the destination. Each call is one legal step of the
//! history, and a crash at any moment leaves only the payloads of whole entries.
//! `esm_stream_core` makes the decisions, and `esm_book` writes them. No clock and no thread.
#![tactic(auto)]

mod carrying;
mod coming;
pub mod crossing;
mod kept;
mod lasting;
pub mod moments;
mod opening;
mod pooled;
mod stream_book;

pub use stream_book::{Book, Parts};
