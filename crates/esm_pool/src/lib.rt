//! The run of any book that a reader and batchers share. The reader passes the input's items to the book, and the batchers
//! call, each as a thread, until nothing is left, all calls allowed were made, or the book is down.
#![tactic(auto)]

mod coming;
mod reader;
mod running;

pub use running::{Ran, RunEnd, run_book};
