//! The bounds of the product, each once. Sources: the Lambda quotas (6 MB of an invocation), the Kinesis quotas (1 MB of
//! data, 256 characters of a key) and the SQS quotas (1 MiB of a body) as they are published; the others are this
//! product's own.

/// Bytes of an event's text.
pub const MAX_EVENT: usize = 6_291_456;

/// Bytes of a record's data, a message's body and a window's state, each.
pub const MAX_DATA: usize = 1_048_576;

/// Bytes of a line of the input, without its line feed.
pub const MAX_LINE: usize = 8_388_608;

/// Characters of a partition key, which has at least one.
pub const MAX_KEY: usize = 256;

/// Bytes of a payload of the journal, and of a failure line.
pub const MAX_PAYLOAD: usize = 16_777_216;

/// Bytes of the head of a response or a request.
pub const MAX_HEAD: usize = 16_384;

/// Header lines of a response or a request.
pub const MAX_HEADER_LINES: usize = 64;

/// Bytes of the body of a response.
pub const MAX_BODY: usize = 6_291_456;

/// Bytes of a response, from its first to the last of its body.
pub const MAX_RESPONSE: usize = 8_388_608;

/// The greatest number of a shard: twelve digits.
pub const MAX_SHARD: u64 = 999_999_999_999;

/// Shards of an input.
pub const MAX_SHARDS: usize = 16;

/// Shards of an input times the parallelization factor. A book has at most this many batchers.
pub const MAX_LANES: usize = 64;

/// Records or messages of an input.
pub const MAX_RECORDS: usize = 1_000_000;

/// Bytes of the data of all records, or of the bodies of all messages, of an input.
pub const MAX_INPUT: usize = 536_870_912;

/// Records of a batch, and of one list that a book is given.
pub const MAX_BATCH: usize = 10_000;

/// Places that expire in one entry.
pub const MAX_EXPIRED: usize = 10_000;

/// Retries of a mapping, where they are finite.
pub const MAX_RETRIES: u32 = 10_000;

/// The greatest number of failed tries; a greater one counts as this.
pub const MAX_TRIES: u32 = 10_001;

/// Filters of a mapping.
pub const MAX_FILTERS: usize = 10;

/// Characters of a filter pattern.
pub const MAX_PATTERN: usize = 4_096;

/// Entries of a history: a call that would exceed this is refused as out of memory.
pub const MAX_ENTRIES: usize = 1_099_511_627_776;
