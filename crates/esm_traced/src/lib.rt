//! The runs of the crates below with their callers recorded, so that the text of a run's history can be printed before its
//! report. The contract of each run is that of the run below, and speaks of the callers below the recorders.
//! It knows runs and traces, and neither mappings nor reports. If no trace is asked for, no reply is kept: all that a run by
//! many callers then takes in addition is the room for its recorders.
#![tactic(auto)]

mod front;
mod queue;
mod redrive;
mod replay;
mod room;
mod stream;
mod traced;

pub use queue::run_queue;
pub use redrive::{TracedRedrive, run_redrive};
pub use replay::{TracedReplay, run_replay};
pub use room::Room;
pub use stream::run_stream;
pub use traced::Traced;
