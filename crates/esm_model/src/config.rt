// The configuration of an event source mapping, with the kind of its source and its starting position.
use crate::text::{Text, Texts};

/// The kind of source that a mapping reads.
#[derive(Clone, Copy, Debug, PartialEq, Eq)]
pub enum Kind {
    /// A Kinesis stream.
    Stream,
    /// A standard SQS queue.
    Standard,
    /// A FIFO SQS queue.
    Fifo,
}

/// Where a stream's mapping begins to read (`StartingPosition`).
#[derive(Clone, Copy, Debug, PartialEq, Eq)]
pub enum Start {
    /// At the first record.
    TrimHorizon,
    /// At the moment of the mapping's creation.
    Latest,
    /// At each shard's first record whose arrival is not before this moment, in milliseconds.
    At(u64),
}

/// An event source mapping, with the fields of the Lambda API reference
/// (`CreateEventSourceMapping`) in the units that the engine computes in.
#[derive(Drop, Debug)]
pub struct Config {
    pub source_arn: Text,
    /// The function's plain name.
    pub function: Text,
    pub function_arn: Text,
    /// The region and the account of the source.
    pub region: Text,
    pub account: Text,
    pub kind: Kind,
    pub batch_size: u32,
    /// The batching window in milliseconds.
    pub window_ms: u64,
    /// The parallelization factor: how many lanes each shard has.
    pub factor: u32,
    /// The retry attempts allowed; `None` for any number (-1).
    pub retries: Option<u32>,
    /// The maximum age of a record in milliseconds; `None` for any (-1).
    pub age_ms: Option<u64>,
    /// Whether a failed batch is halved.
    pub bisect: bool,
    /// Whether answers report item failures.
    pub item_failures: bool,
    /// The length of a tumbling window in milliseconds; 0 for no windows.
    pub tumbling_ms: u64,
    pub start: Start,
    /// The failure destination, if there is one.
    pub destination: Option<Text>,
    /// The filter patterns, each a JSON text. A record passes if one of them passes, or if there are none.
    pub filters: Texts,
    /// The maximum concurrency of a queue's mapping.
    pub concurrency: Option<u32>,
    pub enabled: bool,
}
