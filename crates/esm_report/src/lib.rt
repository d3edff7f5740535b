//! The reports that runs print: what became of the records of each shard, or of the messages of a queue; how many calls were
//! made; and how the run ended. Each is a function of what the journal said, of the history and of the ending.
//! Pure: values in, bytes out. No device, clock or thread.
#![tactic(auto)]

mod deletions;
pub mod ending;
pub mod fates;
pub mod laws;
mod output;
mod queue_fates;
mod queue_output;
mod shard;
mod totals;
pub mod worked;

pub use ending::Ending;
pub use output::{last_line, push_calls_line, push_last_line, push_texts, report, stands_alone};
pub use queue_output::queue_report;
