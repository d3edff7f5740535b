//! The life of a queue's mapping: laws over lists of its runs and redrives, and of what was written in place of its
//! journal's content between them. Each law is the contract of a function that does nothing.
//! Pure: no device, clock or thread.
#![tactic(auto)]

pub mod history;
pub mod life;
