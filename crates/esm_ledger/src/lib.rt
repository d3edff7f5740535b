//! What a stream's book keeps beside its history: one value a shard that says in constant or logarithmic time what the
//! history says of it, and adds one entry at a time.
//! It decides nothing. Adding an entry takes no memory. No device, clock or thread.
#![tactic(auto)]

mod adding;
mod arriving;
mod changing;
mod chunk;
mod chunks;
mod coming;
mod found;
mod ledger;
mod measure;
mod measuring;
mod preparing;
mod progress;
mod reading;
mod records;
mod shard;
pub mod shard_laws;
mod shard_steps;
mod slots;
mod told;
mod upcoming;

pub use arriving::{Arriving, Landing};
pub use coming::Coming;
pub use ledger::Ledger;
pub use measure::Measure;
pub use records::Records;
pub use shard::ShardLedger;
pub use told::{is_any_told, is_told};
