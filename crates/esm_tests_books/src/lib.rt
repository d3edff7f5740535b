//! Worked examples over the durable books: messages and records arrive, batches are called, and the journal keeps their
//! fates over a restart. The crate has only these tests, so each crate that they call is proved once.
#![tactic(auto)]

#[cfg(test)]
mod queue_book;
#[cfg(test)]
mod replay_opening;
#[cfg(test)]
mod stream_lanes;
