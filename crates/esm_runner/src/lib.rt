//! One run of a mapping, of a stream's or of a queue's, over its devices: opens and judges the files, opens the book over
//! them, reads the input and runs the batchers. The headline states what a run leaves.
//! It composes the books, the input and the batchers by their public contracts.
#![tactic(auto)]

mod failure_file;
mod files;
mod number;
mod queue_laws;
mod queue_run;
mod queue_running;
mod run;
mod stream_laws;
mod stream_run;
mod stream_running;

pub use failure_file::{FailureFile, Plain};
pub use files::{Files, FilesError, FilesParts, open_files};
pub use number::{DEFAULT_BATCHERS, MAX_BATCHERS, batchers_of};
pub use queue_run::run_queue;
pub use run::{MappingEnd, MappingRun};
pub use stream_run::run_stream;
