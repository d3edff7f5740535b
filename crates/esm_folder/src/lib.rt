//! The commands that look after a folder's files. `init` makes the four files on empty disks, or writes nothing if one of
//! them has bytes; `show` reports what a mapping's journal says, and `failures` the failure lines; `compact` rewrites the
//! journal as a list that says the same, and `migrate` brings it to version 2.
//! Each is a function over disks that hands them back; what it prints is a function of how it ended.
#![tactic(auto)]

mod compacting;
mod disks;
mod ending;
mod files;
pub mod laws;
mod lengths;
mod listing;
mod making;
mod migrating;
mod opened;
mod showing;
mod summary;
mod telling;
mod text;

pub use compacting::compact;
pub use disks::Disks;
pub use ending::{FileEnded, JournalFile, PairEnded, UpkeepEnd};
pub use files::{InitEnd, Initialized, init};
pub use listing::failures;
pub use migrating::migrate;
pub use showing::show;
pub use summary::{ShardSummary, Summary};
pub use telling::upkeep_text;
pub use text::init_text;
