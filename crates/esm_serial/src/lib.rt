//! The run, on one thread, of any book whose calls one caller makes: reads its input to the end, and then makes its calls
//! one after the other, until nothing is left, all calls allowed were made, or the book is down.
#![tactic(auto)]

mod calling;
mod reading;
mod running;
mod serial;

pub use running::{Ran, RunEnd, run_serial};
pub use serial::Serial;

#[cfg(test)]
mod tests;
