//! The life of a mapping over the words of command lines: what each command of the program leaves of it, and what commands
//! leave one after the other, by the clauses of `esm` alone. Each law is the contract of a function that does nothing, or of
//! a function that only calls `esm`.
//! Pure except for that call: no device, clock or thread of its own.
#![tactic(auto)]

pub mod commands;
pub mod ddb;
pub mod program;
pub mod queues;
pub mod streams;
