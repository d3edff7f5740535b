// How far the core of a queue's book can still decide, after an owed entry is paid, discarded or left.
ghost use Rattle.std.specs.Prelude.{◌≡◌};
ghost use Rattle.esm_queue_core.specs.Standing.{standing_paid, standing_left, standing_shut};

use crate::owed::{First, Gift};

/// How far a core can still decide.
#[derive(Clone, Copy, Debug, PartialEq, Eq)]
pub(crate) enum Standing {
    /// The history is legal and settled, and is so with what is owed.
    Whole,
    /// Some of the owed entries were added: with the others the history is legal and settled.
    Paying,
    /// What the history requires was left: nothing more is decided.
    Left,
}

impl Standing {
    /// After an owed entry was added; `more` says that another is owed.
    pub(crate) fn paid(self, more: bool) -> Standing
        ensures { result ≡ standing_paid self more }
    {
        match self {
            Standing::Left => Standing::Left,
            Standing::Whole | Standing::Paying if more => Standing::Paying,
            Standing::Whole | Standing::Paying => Standing::Whole,
        }
    }

    /// After what was owed is discarded.
    pub(crate) fn forgotten(self) -> Standing
        ensures { result ≡ standing_left self }
    {
        match self {
            Standing::Whole => Standing::Whole,
            Standing::Paying | Standing::Left => Standing::Left,
        }
    }

    /// After the end of the input is noted: what is owed then is left.
    pub(crate) fn shut(self, first: &Option<First>, gift: &Option<Gift>) -> Standing
        ensures { result ≡ standing_shut self first.now gift.now }
    {
        match (first, gift) {
            (None, None) => self,
            _ => Standing::Left,
        }
    }
}
