//! The decisions on the reply to one call: how the reply for a stream or a queue is read, and the ruling on the batch. Pure
//! values; a call that allocates may return `OutOfMemory`.
#![tactic(auto)]

mod index;
mod positions;
mod queue;
mod reported;
mod ruling;
mod stream;

pub use esm_model::{Answer, QueueReading, Reading, Rest, StateRead, Verdict};
pub use queue::read_queue;
pub use ruling::judge;
pub use stream::{Call, read_stream};
