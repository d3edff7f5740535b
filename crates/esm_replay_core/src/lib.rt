//! The decisions of a replay, without its devices: which records may arrive, which call begins next, and what its end
//! adds. A core holds the history, the records that arrived, the pieces that wait, and the entries that were decided and
//! are not yet added. Values in, values out: no device, clock or thread.
#![tactic(auto)]

mod changes;
mod choosing;
mod counts;
mod decisions;
mod ending;
mod owed;
mod pieces;
mod replay_core;
mod tally;

pub use decisions::{Opened, ReplayAnswer, ReplayCall, ReplayEntry, ReplayNext};
pub use replay_core::ReplayCore;
