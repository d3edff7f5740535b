//! Lanes of open records: a lane holds pieces in order, and the records of a piece are called together. New records join a
//! last piece that is fresh; a failed batch is split off the front piece; places that got their fates are removed from the
//! front. Pure values; no device, clock or thread.
#![tactic(auto)]

mod lanes;
mod open;
mod queue;
mod run;
mod standing;

pub use lanes::Lanes;
pub use queue::Front;
pub use standing::Standing;
