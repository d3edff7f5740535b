//! Laws of one history of a stream, each as the contract of a function that does nothing: how many calls it can have, and
//! what its journal says afterwards. Pure: no device, clock or thread.
#![tactic(auto)]

pub mod completeness;
pub mod content;
