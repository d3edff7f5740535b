//! Calls of functions over HTTP on loopback: the request's exact bytes, and the reply that the bytes read give, over any
//! link. The head is searched for as its bytes arrive, and parsed by `httparse` once an empty line has ended; the body is
//! decoded by `http1` as it arrives.
#![tactic(auto)]

mod body;
mod call;
mod crossing;
mod head;
mod http_caller;
mod program_caller;
mod request;

pub use call::{call_over, invoke};
pub use http_caller::HttpCaller;
pub use program_caller::ProgramCaller;
