// How far the run of a book has come, for whoever watches it.

/// How far a run has come. Nothing is promised of these numbers: they are for whoever watches.
#[derive(Clone, Copy, Debug, PartialEq, Eq)]
pub struct Progress {
    /// The records or messages that arrived.
    pub came: u64,
    /// Those of them that have their fate.
    pub settled: u64,
    /// Those of them that are in a running call.
    pub in_calls: u64,
}
