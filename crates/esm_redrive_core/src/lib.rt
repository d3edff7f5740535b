//! The decisions of a redrive, without its devices: which entry may come next, and what its batcher does. A message that
//! was received as often as it may be is moved, with its line, before any call. Values in, values out: no device, clock
//! or thread.
#![tactic(auto)]

mod arriving;
mod decisions;
mod giving;
pub mod laws;
mod notes;
mod owed;
mod paying;
mod redrive_core;

pub use decisions::{RedriveAnswer, RedriveCall, RedriveEntry, RedriveOpened};
pub use redrive_core::RedriveCore;
