//! Tumbling windows of a stream: the window of a record, and the state that a function's answer gives to its window. Pure
//! values; a call that allocates may return `OutOfMemory`.
#![tactic(auto)]

mod key;
mod marks;
mod part;
mod state;
mod window;

pub use esm_model::StateRead;
pub use state::read_state;
pub use window::window_of;
