//! The queue of a mapping: its messages in order of arrival, which of them a receiver gets, how long they stay hidden,
//! and which of a message group wait for an earlier one.
//! Pure values; no device, clock or thread.
#![tactic(auto)]

mod copying;
mod fifo;
mod groups;
mod links;
mod marking;
pub mod moment_tree;
mod names;
mod queue;
mod timeline;

pub use marking::moment_after;
pub use queue::Queue;
