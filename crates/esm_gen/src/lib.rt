//! A generated stream: the lines of its input, the mapping that reads them, and the key whose records its function fails;
//! and its run, over an input, disks, a clock and callers in memory, none of which fails.
//! It is a trial of the whole engine, and is the same each time.
#![tactic(auto)]

mod crossing;
mod disks;
mod function;
mod lines;
mod mapping;
mod report;
mod run;
#[cfg(test)]
mod tests;

pub use lines::generated_lines;
pub use mapping::{generated_mapping, poisoned_key};
pub use run::{CALLS, GeneratedRun, run_generated};
