//! Reads the words of the command line: which command they spell, and with which options.
//! Pure: the words come as a list, and nothing is printed.
//! `read` returns the command if the words spell one, and `BadWords` if they spell none.
#![tactic(auto)]

pub mod command;
mod commands;
pub mod laws;
mod number;
mod options;
pub mod table;
mod words;

pub use command::{Command, RunWords, Which, WordsError};
pub use number::whole_number;
pub use words::read;
