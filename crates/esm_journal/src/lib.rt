//! Files of payloads that survive a crash: a journal in one file, or in a pair of files of which one is in use. A payload
//! counts once its gate byte is open. The gate is opened only once the payload is on the disk, so a crash at any moment
//! leaves only whole payloads.
#![tactic(auto)]

mod ahead;
pub mod crossing;
mod entry_reading;
pub mod error;
mod file_dest;
mod format;
mod found;
mod fresh;
mod head;
mod journal;
pub mod laws;
mod list;
mod log;
mod migrate;
mod old_pair;
mod pair;
mod pair_reading;
mod replace;
mod room;
mod through;

pub use error::{AppendError, InitError, OpenError};
pub use file_dest::FileDest;
pub use journal::Journal;
pub use migrate::Migrated;
pub use pair::Pair;
