//! Worked examples of calls that need no device: mappings, filter patterns, window states, batches and queues. The crate
//! has only these tests, so each crate that they call is proved once.
#![tactic(auto)]

#[cfg(test)]
mod batch;
#[cfg(test)]
mod config;
#[cfg(test)]
mod filter;
#[cfg(test)]
mod queue;
#[cfg(test)]
mod table_stream;
#[cfg(test)]
mod window;
