//! What the journal of a mapping says, without its disks: the meaning of a list of payloads, and the shorter list that
//! says the same.
//! Pure: values in, values out. No device, clock or thread.
#![tactic(auto)]

mod add;
mod compact;
mod error;
mod fate_row;
mod gather;
mod growing;
mod history;
mod judge;
pub mod kept;
pub mod laws;
mod lookup;
mod piece;
mod regroup;
mod table;

pub use compact::compacted;
pub use error::SaysError;
pub use esm_journal_record::KeptText;
pub use history::says;
pub use lookup::{Found, FoundTries, SaidState, SaidWindowTries, Says};
