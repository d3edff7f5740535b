//! Records that come to a stream's book: which of them are the next of each shard, which the filter refuses, and whether
//! one differs from what the journal kept of it.
//! Pure: values in, values out. No device, clock or thread.
#![tactic(auto)]

mod apart;
mod change;
mod group;
mod judging;
pub mod laws;
mod parts;

pub use change::first_change;
pub use parts::{ShardRecords, by_shard};
