//! The decisions of a stream's book over every valid configuration: which entries records that come, a batcher that asks and
//! the end of a call add to its history. Each decision is made at once and then owed entry by entry, for a layer over
//! devices to write. One value holds the ledger, what is coming and what is owed.
//! Pure: values in, values out. No device, clock or thread.
#![tactic(auto)]

mod adding;
mod arriving;
mod calling;
mod decisions;
mod ending;
mod finishing;
mod fitting;
mod owed;
mod payload;
mod progress;
mod reading;
mod standing;
mod stream_core;

pub use decisions::{Opened, StreamAnswer, StreamCall, StreamEntry};
pub use standing::Standing;
pub use stream_core::StreamCore;
