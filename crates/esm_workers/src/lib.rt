//! The reader and the batchers of any book as threads, each with a seat at the book's turn. A batcher reads the clock, takes
//! the turn, notes the end of the call that it made, asks what is next, and gives the turn back; then it calls its function
//! or pauses. No thread calls a function, pauses or reads the input while it has the turn. When a show is due on the
//! terminal, whoever has the turn reads how far the book has come, and shows it after giving the turn back. After the run of
//! all of them, the book's entries are those of the seats, at moments that the clock gave, and the callers' logs are the
//! calls in its history.
#![tactic(auto)]

mod behind;
mod calling;
mod hand;
mod on_time;
mod pack;
mod reading;
mod running;
mod watching;
mod working;

pub use calling::call_all;
pub use on_time::OnTime;
pub use reading::Reading;
pub use running::{Ran, run_hands};
pub use watching::{show, watched};

#[cfg(test)]
mod tests;
