//! What the end of a call requires: the verdict on it, and the entries that it requires, complete but for their moment.
//! Reads a ledger and changes nothing of it. No device, clock or thread.
#![tactic(auto)]

mod dues;
mod judging;
mod line;
mod outcome;

pub use outcome::{Due, Outcome, outcome_of};
