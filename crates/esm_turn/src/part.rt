// What one seat of a turn knows, and the terms on which a turn is made.
use esm_model::{Change, Setup, Told};
use std::collections::LinkedList;
use std::snapshot::Snapshot;

/// What one seat knows. Only contracts speak of it: no value of this type is made.
pub struct Part {
    pub setup: Setup,
    pub number: u64,
    /// The longest history that the seat has found or given back.
    pub seen: LinkedList<Told>,
    /// The entries that it added itself, in order.
    pub mine: LinkedList<Told>,
    /// Whether it has seen the mark true.
    pub mark: bool,
    /// The change that the value has, as the seat saw it last.
    pub change: Option<Change>,
    /// Whether it has the value out.
    pub holds: bool,
}

/// The terms on which a turn is made: the value, of which no copy is taken, and the number of seats.
pub struct Terms<T> {
    pub made: Snapshot<T>,
    pub seats: u64,
}
