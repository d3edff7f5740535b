//! The registry of event source mappings: a list of mappings and a count of creations, kept in a journal with payloads of
//! its own. A command answers and changes what the Lambda API reference says; it takes effect whole or not at all.
#![tactic(auto)]

mod answers;
mod carrying;
pub mod change;
pub mod command;
mod counts;
pub mod mapping;
mod naming;
mod obeying;
mod opening;
mod payload;
mod places;
mod plan;
mod registry;
mod table;

pub use command::{Applied, Command, ErrorName, RegistryError, RegistryOpen};
pub use mapping::Mapping;
pub use registry::Registry;
