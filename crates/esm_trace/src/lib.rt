//! The text of a run's history: a line for each entry, oldest first. The text determines the history.
//! It knows entries and replies, and neither books nor devices.
//! Pure: values in, bytes out. No device, clock or thread.
#![tactic(auto)]

mod batchers;
mod entry;
mod kinds;
pub mod laws;
mod members;
mod replies;
mod trace;
pub mod worked;

pub use batchers::Batchers;
pub use entry::push_entry;
pub use replies::in_order;
pub use trace::push_trace;

#[cfg(test)]
mod tests;
