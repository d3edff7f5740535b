//! What the tests of several crates build: the texts, mappings, records and messages of the worked examples, the bytes of
//! files, and disks and pairs of journals in memory.
#![tactic(auto)]

mod devices;
mod items;
mod mappings;

pub use devices::{FRESH, NO_LINES, SPARE, blank, disk, fresh_pair};
pub use items::{message_of, record_of};
pub use mappings::{STREAM_MAPPING, queue_mapping, stream_mapping, text};
