// The items of an input, one for each line: a record of a stream or a message of a queue.
use crate::record::Record;
use crate::text::Text;

/// A message of a queue. It has a `group` if and only if the queue is FIFO; `sent` is in milliseconds since 1970.
#[derive(Drop, Debug)]
pub struct Message {
    pub id: Text,
    pub group: Option<Text>,
    pub body: Text,
    pub sent: u64,
}

/// What the lines of an input are.
#[derive(Clone, Copy, Debug, PartialEq, Eq)]
pub enum LineKind {
    /// Records of a Kinesis stream.
    Stream,
    /// Messages of an SQS queue; those of a FIFO queue have a group.
    Queue { fifo: bool },
}

/// The item that one line contains.
#[derive(Drop, Debug)]
pub enum Item {
    /// A record of a stream.
    Stream(Record),
    /// A message of a queue.
    Queue(Message),
}
