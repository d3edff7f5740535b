//! Presents DynamoDB streams as the streams that the engine runs: a line is turned into the line of a record, whose data
//! is the element of an event; an event gets these elements; a failure line gets `DDBStreamBatchInfo`; and the mapping of
//! such a stream is read. It has pure values, a caller and a destination over another, and the reading of a source; no
//! device and no clock of its own. Threads only turn lines side by side, and the lines are the same without them.
#![tactic(auto)]

mod attribute;
mod block;
mod caller;
mod change;
mod config;
pub mod crossing;
mod dest;
mod element;
mod elements;
mod error;
mod event;
mod failure_line;
mod input;
mod item_text;
pub mod laws;
mod lexeme;
mod number;
mod own_element;
mod own_event;
mod own_item;
mod own_line;
mod own_turned;
mod parallel;
mod piece;
mod quoted;
mod size;
mod source;
mod splitter;
#[cfg(test)]
mod tests;
mod text_pieces;
mod translator;
mod tree;
mod turned;

pub use caller::DdbCaller;
pub use config::read_config;
pub use dest::DdbDest;
pub use error::{DdbError, DdbField, DdbLine};
pub use event::ddb_event;
pub use failure_line::ddb_line;
pub use input::{InputTurned, TurnedInput, turn_input};
pub use source::Source;
pub use text_pieces::TextPieces;
pub use translator::{Translator, Turned, TurnedInPieces};
