//! The life of a queue under redrives: what the journal's content says after one, and laws over lists of them, as
//! contracts of functions that do nothing. No device, clock or thread.
#![tactic(auto)]

pub mod content;
pub mod life;
