//! What a replay reads of the failure file, and what waits to be called again: the records that each line names, the
//! pieces of named records, the next call, and what the end of a call leaves. Values in, values out: no device, clock or
//! thread.
#![tactic(auto)]

mod batch;
mod batch_records;
mod failure;
mod first;
pub mod laws;
mod named;
mod parts;
mod piece;
mod ranges;
mod rows;
mod waiting;

pub use batch::Batch;
pub use batch_records::{BatchRecords, names_of};
pub use failure::read_failure;
pub use first::first_waiting;
pub use named::{names, names_near};
pub use parts::Parts;
pub use ranges::Ranges;
pub use rows::Named;
pub use waiting::Waiting;
