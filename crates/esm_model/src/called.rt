// One call of a function in its caller's log.
use crate::entry::Reply;
use crate::text::{Bytes, Text};

/// A call of a function as its caller logs it: the function's name, the bytes that the caller sent for the event, and the
/// reply.
#[derive(Drop, Debug)]
pub struct Called {
    pub name: Text,
    pub event: Bytes,
    pub reply: Reply,
}
