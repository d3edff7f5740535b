//! Reads the input of a run piece by piece: its records or messages from the mapping's starting position on, within the
//! limits of the engine, and why the reading ended. It reads a source and keeps no item; contracts define what it hands out
//! by the bytes that were read.
#![tactic(auto)]

mod counted;
mod ending;
mod input;
pub mod laws;
mod positions;
mod taking;

pub use ending::InputEnd;
pub use input::Input;
