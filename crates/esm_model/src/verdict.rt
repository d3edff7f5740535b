// What a reply says of a batch, and the verdict: how many records succeeded, and what becomes of the rest.
use crate::text::Places;

/// What a reply says of a stream's batch.
#[derive(Clone, Copy, Debug, PartialEq, Eq)]
pub enum Reading {
    /// All of it succeeded.
    Whole,
    /// The call was not run (a status other than 200).
    NotRun,
    /// All of it failed.
    Failed,
    /// The records before this position succeeded.
    UpTo(u32),
}

/// The rest of a batch: the records that did not succeed, and what becomes of them.
#[derive(Clone, Copy, Debug, PartialEq, Eq)]
pub enum Rest {
    /// There are none: all succeeded.
    Nothing,
    /// They are called again and no try is counted.
    Again,
    /// They are called again, and one more try is counted.
    Counted,
    /// They are split: this many of the first ones become a piece of their own. After item failures these are all of them.
    Split(u32),
    /// They are given up.
    Exhausted,
}

/// The verdict on a batch: its first `succeeded` records succeeded, and the others are the rest.
#[derive(Clone, Copy, Debug, PartialEq, Eq)]
pub struct Verdict {
    pub succeeded: u32,
    pub rest: Rest,
}

/// The `state` of an answer: `Empty` where there is none; the span of its bytes, from `from` up to but not including `to`;
/// or `Bad` where it is no state that a window can have.
#[derive(Clone, Copy, Debug, PartialEq, Eq)]
pub enum StateRead {
    Empty,
    Span { from: usize, to: usize },
    Bad,
}

/// What a reply says of a batch and of its window's state.
#[derive(Clone, Copy, Debug, PartialEq, Eq)]
pub struct Answer {
    pub reading: Reading,
    pub state: StateRead,
}

/// What a reply says of a queue's batch. `failed` are positions in the batch, counted from 0 and rising; the other messages
/// succeeded.
#[derive(Drop, Debug)]
pub enum QueueReading {
    NotRun,
    Failed,
    Done { failed: Places },
}
