//! The top call: what the words of a command do to the world. It composes the crates below by their public contracts.
#![tactic(auto)]

mod asked;
mod built;
mod commands;
mod connections;
mod ddb;
mod ddb_callers;
mod ddb_ran;
mod first_caller;
mod generating;
mod initializing;
mod left;
mod opened;
mod output;
mod parting;
mod ran;
mod redrive;
mod redrive_ran;
mod refusal;
mod registry_file;
mod replay;
mod replay_ran;
mod reports;
mod serving;
mod table_failures;
mod tending;
mod top;
mod turned_text;
mod world;

pub use top::esm;
pub use world::{Ended, World};
