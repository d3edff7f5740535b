//! A caller over another one that keeps the replies to its calls, which the history of a run does not hold, until the run's
//! end.
//! It knows the replies to its calls, and neither books nor histories.
//! Each of its calls is one call of the caller below. If it is not told to keep replies, it takes no memory.
#![tactic(auto)]

mod call;
mod keeping;
pub mod laws;
mod recorder;
mod recorders;

pub use recorder::Recorder;
pub use recorders::{record, take_apart};

#[cfg(test)]
mod tests;
