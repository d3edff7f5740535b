//! The parts of a redrive: the line of a dead letter, the ids of a dead-letter file, and a queue that finds the next due
//! message. Values in, values out: no device, clock or thread.
#![tactic(auto)]

mod dead_file;
pub mod laws;
mod letter;
mod limited;

pub use dead_file::{DeadFileError, DeadIds, dead_ids, dead_message};
pub use letter::{dead_line, has_texts};
pub use limited::{LimitedQueue, MAX_RECEIVES};
