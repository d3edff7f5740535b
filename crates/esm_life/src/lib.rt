//! The life of a mapping: what holds of lists of runs, each law as the contract of a function that does nothing; what one
//! run leaves to the next; and that runs of the program are stages of such a life.
//! Pure: no device, clock or thread.
#![tactic(auto)]

mod laws;
pub mod life;
pub mod queues;
pub mod redrives;
pub mod replays;
pub mod streams;
