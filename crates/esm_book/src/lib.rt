//! The layer of a book over its devices: what a core decided is delivered and appended entry by entry, and a crash at any
//! moment leaves only the payloads of whole entries. It knows disks and a destination, but not what an entry means.
#![tactic(auto)]

pub mod crossing;
mod decisions;
mod durable;
mod error;
pub mod laws;
mod nowhere;
mod writing;

pub use decisions::Decisions;
pub use durable::{Durable, Parts};
pub use error::{CallError, Refusal};
pub use nowhere::Nowhere;
