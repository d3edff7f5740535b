//! One run of a redrive over its devices: the lines of the dead-letter file are judged, the book is opened over the
//! files, the input is read, the caller is called, and the contracts say what the run leaves, in the terms of the
//! headline. It composes the book, the input and the serial run by their public contracts.
#![tactic(auto)]

mod book;
mod laws;
mod redrive_run;
mod report;
mod run;
pub mod stages;

pub use redrive_run::run_redrive;
pub use report::messages_text;
pub use run::{RedriveEnd, RedriveRun};
