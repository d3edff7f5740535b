//! Reads the input of a mapping, JSON lines that arrive in pieces of any size, into items, and reports the first bad line,
//! with its number and why it is refused. Pure values; no device and no clock. Threads only parse lines side by side, and
//! what is read is the same without them.
#![tactic(auto)]

mod block;
mod decimal;
mod encoded;
mod error;
mod fed_bytes;
mod fields;
mod item;
pub mod laws;
mod line;
pub mod line_blocks;
mod lines;
mod number;
mod numbers;
mod object;
mod order;
mod packed;
mod parse;
mod plain;
mod queue;
mod seen;
mod splitter;
mod stream;
mod usual;

pub use error::{BadLine, Field, LineError};
pub use item::Fed;
pub use lines::Lines;
pub use stream::shard_number;
