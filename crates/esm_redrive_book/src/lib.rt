//! The durable book of a redrive: messages arrive, batches are called, and a message that was received as often as it may
//! be is moved. Its line is in the dead-letter file before its deletion is in the journal. Each call is one legal step of
//! the history, and a crash at any moment leaves only payloads of whole entries. `esm_redrive_core` makes its decisions,
//! and `esm_book` writes them. No clock and no thread.
#![tactic(auto)]

mod carrying;
pub mod laws;
pub mod moments;
mod open_error;
mod opening;
mod redrive_book;

pub use open_error::{RedriveOpen, RedriveRefused};
pub use opening::open_redrive;
pub use redrive_book::{Redrive, RedriveParts};
