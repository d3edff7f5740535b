//! The vocabulary of the engine: the types that every crate uses, and the definitions of legal histories, batches, rulings
//! and checkpoints that contracts cite.
//! Only pure values and small pure functions; no device, clock or thread.
#![tactic(auto)]

pub mod book;
pub mod book_laws;
pub mod call_event;
pub mod called;
pub mod config;
pub mod device;
pub mod entry;
pub mod event;
pub mod item;
mod json_value;
pub mod kept;
pub mod lane;
pub mod laws;
pub mod limits;
pub mod memory;
pub mod moment;
pub mod names;
pub mod part;
pub mod pooled;
pub mod progress;
pub mod received;
pub mod record;
pub mod sequence;
pub mod setup;
pub mod shared;
pub mod spelling;
pub mod text;
pub mod verdict;
pub mod worked;

pub use book::{BookError, BookOpen, CameError, Change, Job, Next, Refused, Trouble};
pub use call_event::{Event, EventParts};
pub use called::Called;
pub use config::{Config, Kind, Start};
pub use device::DeviceFound;
pub use entry::{Entry, Fate, PastReply, Reply, WindowState};
pub use event::{Failure, Response, WindowCall};
pub use item::{Item, LineKind, Message};
pub use json_value::{parse_json, parse_json_text};
pub use kept::Kept;
pub use lane::{LaneId, lane_of};
pub use limits::{
    MAX_BATCH, MAX_BODY, MAX_DATA, MAX_ENTRIES, MAX_EVENT, MAX_EXPIRED, MAX_FILTERS, MAX_HEAD,
    MAX_HEADER_LINES, MAX_INPUT, MAX_KEY, MAX_LANES, MAX_LINE, MAX_PATTERN, MAX_PAYLOAD,
    MAX_RECORDS, MAX_RESPONSE, MAX_RETRIES, MAX_SHARD, MAX_SHARDS, MAX_TRIES,
};
pub use memory::OutOfMemory;
pub use moment::MAX_MOMENT;
pub use names::{FileName, LimitName};
pub use part::Part;
pub use pooled::Pooled;
pub use progress::Progress;
pub use received::Received;
pub use record::Record;
pub use sequence::{Seq, SeqError, number_order};
pub use setup::{FoundDeletion, FoundFate, FoundState, FoundTries, FoundWindowTries, Setup, Told};
pub use shared::SharedBytes;
pub use text::{Bytes, Places, Text, Texts};
pub use verdict::{Answer, QueueReading, Reading, Rest, StateRead, Verdict};
