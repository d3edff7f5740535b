// A message of a queue as a function call receives it, with its place and its receive count.
use crate::item::Message;

/// A message as a function call receives it: its place in the order of arrival, how often it was received, this time
/// included, and the moment of its first receive in milliseconds since 1970.
#[derive(Drop, Debug)]
pub struct Received {
    pub message: Message,
    pub place: u32,
    pub count: u32,
    pub first: u64,
}
