//! The filter criteria of a mapping: JSON patterns, of which a record or a message has to pass one. A pattern's text is read
//! once into a tree, by which records are judged. A record's data is read once, and only the parts that the patterns name
//! are kept of it. Pure values; no device, clock or thread.
#![tactic(auto)]

mod criteria;
mod document;
mod error;
mod found;
mod judge;
mod leaf;
mod names;
mod number;
mod operator;
mod own;
mod pattern;
mod read;
mod rules;
mod scalar;
mod work;

pub use criteria::Criteria;
pub use error::{FilterError, PatternError};
pub use work::Work;
