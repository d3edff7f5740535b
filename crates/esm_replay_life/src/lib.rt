//! The life of a mapping under replays: laws over lists of replays, however each ended or was stopped, and of what
//! happened between them, as contracts of functions that do nothing. No device, clock or thread.
#![tactic(auto)]

pub mod life;
