//! The texts that leave the engine: the event of a function call for a stream or a queue, and the failure line of a stream's
//! records that were given up; and how their parts are written: JSON texts, numbers and dates. Pure: values in, bytes out.
//! No device, clock or thread.
#![tactic(auto)]

pub mod bytes;
mod dates;
pub mod digits;
mod event;
mod failure;
pub mod json;
mod length;
mod message;
mod queue;
mod queue_length;
pub mod record;
mod window;
mod writing;

pub use esm_model::{Failure, Received, Response, WindowCall};
pub use event::{event_of, stream_event};
pub use failure::failure_text;
pub use length::{frame_bytes, stream_bytes};
pub use queue::queue_event;
pub use queue_length::queue_bytes;
pub use writing::write_event;
