//! The vocabulary of replays, in addition to that of streams: which records the failure lines name, which histories are runs
//! of a replay, and what its report says. Definitions and laws; no device, clock or thread.
#![tactic(auto)]

pub mod laws;
pub mod range;
pub mod worked;

pub use range::Range;
