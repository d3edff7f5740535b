/// What the cut needs to know of a record or a message: the bytes of its element in the event, the moment at which it came
/// to the mapping, its arrival, and the start of its tumbling window (the same for all if there are no windows). Moments are
/// in milliseconds since 1970.
#[derive(Clone, Copy, Debug, PartialEq, Eq)]
pub struct SizedItem {
    pub bytes: u32,
    pub came: u64,
    pub arrival: u64,
    pub window: u64,
}

/// What bounds a batch (Lambda Developer Guide, event source mappings, batching behavior).
#[derive(Clone, Copy, Debug, PartialEq, Eq)]
pub struct Limits {
    /// Items of a batch (`BatchSize`).
    pub count: u32,
    /// Bytes of the elements and the commas between them.
    pub payload: u32,
    /// The batching window in milliseconds (`MaximumBatchingWindowInSeconds`).
    pub window_ms: u64,
    /// The greatest age of an item in milliseconds (`MaximumRecordAgeInSeconds`); `None` for any.
    pub age_ms: Option<u64>,
    /// Whether nothing more comes.
    pub shut: bool,
}

/// Why a batch may begin, or until which moment it waits.
#[derive(Clone, Copy, Debug, PartialEq, Eq)]
pub enum Why {
    /// It has as many items as it may, or an item follows it.
    Full,
    /// Its batching window is over.
    Waited,
    /// Nothing more comes.
    Shut,
    /// It waits for more items until this moment.
    Waiting { until: u64 },
}

/// A batch: how many of the first items it has, and why it may begin or waits.
#[derive(Clone, Copy, Debug, PartialEq, Eq)]
pub struct Cut {
    pub count: u32,
    pub why: Why,
}
