//! The vocabulary of redrives, in addition to that of queues: which messages are due, which are known to be moved, the line
//! of a dead letter, and which histories of a redrive are legal. Definitions and laws; no device, clock or thread.
#![tactic(auto)]

pub mod laws;
pub mod worked;
