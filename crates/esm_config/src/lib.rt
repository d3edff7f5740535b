//! The fields of a mapping: which configuration a JSON object gives, which configuration an update leads to, and the text of
//! a configuration. The fields are judged in the order of a table, and the first that is refused is named. Pure: a JSON
//! value in, a configuration out; a configuration in, a text out.
#![tactic(auto)]

mod arn;
mod common;
mod criteria;
mod from_json;
mod function;
mod given;
mod judged;
mod laws;
mod listed;
mod member;
mod object;
mod owned;
mod param;
mod position;
mod rows;
mod source;
mod sources;
mod stream;
mod to_json;
mod update;
mod value;
mod values;

pub use from_json::{read, read_dynamo};
pub use laws::text_is_read;
pub use member::Member;
pub use object::{object_string, object_text};
pub use param::{ConfigError, Param};
pub use to_json::{config_string, settings, text};
pub use update::merge;
