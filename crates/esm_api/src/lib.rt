//! The HTTP API of event source mappings: a request is read from a link, judged by the first row of the table that holds,
//! applied to the registry and answered. `httparse` parses the head whenever a line has ended, `matchit` routes its path,
//! and `serde_json` reads the body.
#![tactic(auto)]

mod answer;
mod head;
mod host;
mod judge;
pub mod laws;
mod length;
mod plan;
mod receive;
mod refusal;
mod respond;
mod route;
mod serve;

pub use serve::{Served, serve_one};
