//! The turn: a value that one thread at a time has out, with a history that no thread can rewrite.
//! Each thread has a seat, which knows what it has seen of the history and which entries are its own. The contracts say that
//! both hold, whatever the other threads do.
#![tactic(auto)]

mod part;
mod rule;
mod turn;

pub use part::Part;
pub use turn::{Held, Seat, Turn};

#[cfg(test)]
mod tests;
