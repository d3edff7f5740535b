//! The run of a replay over the files of a folder: the input is read to its end, and then one caller calls again the
//! records that failure lines name, one call after the other. The contracts say what the run leaves and all that holds of
//! it.
#![tactic(auto)]

mod laws;
mod replay_run;
mod report;
mod run;

pub use replay_run::run_replay;
pub use report::{ReplayCounts, push_replay_line};
pub use run::{ReplayEnd, ReplayRun};
