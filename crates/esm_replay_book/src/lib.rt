//! The durable book of a replay: records arrive, those that failure lines name are called again, and what succeeds is
//! written to the journal. Its history is a run of the replay, and a crash at any moment leaves only payloads of whole
//! entries. `esm_replay_core` makes its decisions, and `esm_book` writes them. No clock and no thread.
#![tactic(auto)]

mod carrying;
mod opening;
mod replay_book;
mod serving;

pub use opening::ReplayOpen;
pub use replay_book::{Replay, ReplayParts};
