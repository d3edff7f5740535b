//! What a batcher of a stream does next: the first rule that holds, with the call's event or the failure line; and the cut
//! of a batch: how many of a lane's items the next call takes, and whether it may begin.
//! It reads a ledger and changes nothing. No device, clock or thread.
#![tactic(auto)]

mod batch;
mod decision;
mod event;
mod expiry;
mod lane;
mod next;
mod piece;
mod prefix;

pub use decision::Decision;
pub use next::decide_next;
pub use piece::{Cut, Limits, SizedItem, Why};
pub use prefix::cut;
