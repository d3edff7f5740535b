// How far a stream's ledger can decide more, after an owed entry is paid, discarded or left.
ghost use Rattle.std.specs.Prelude.{◌≡◌};
ghost use Rattle.esm_stream_core.specs.Standing.{standing_paid, standing_forgotten, standing_shut, is_whole};

/// How far more can be decided.
#[derive(Clone, Copy, Debug, PartialEq, Eq)]
pub enum Standing {
    /// The history is legal and settled, and is so with what is owed.
    Whole,
    /// Some of the owed entries were added: with the others the history is legal and settled.
    Paying,
    /// What the history requires was left: nothing more is decided, and what is owed is no longer added.
    Left,
}

impl Standing {
    /// After an owed entry was added; `more` says that another is owed.
    pub(crate) fn paid(self, more: bool) -> Standing
        ensures { result ≡ standing_paid self more }
    {
        match self {
            Standing::Left => Standing::Left,
            Standing::Whole | Standing::Paying if more => Standing::Paying,
            Standing::Whole | Standing::Paying => Standing::Whole,
        }
    }

    /// After what was owed is discarded.
    pub(crate) fn forgotten(self) -> Standing
        ensures { result ≡ standing_forgotten self }
    {
        match self {
            Standing::Whole => Standing::Whole,
            Standing::Paying | Standing::Left => Standing::Left,
        }
    }

    /// After the end of the input; `none` says that nothing was owed.
    pub(crate) fn shut(self, none: bool) -> Standing
        ensures { result ≡ standing_shut self none }
    {
        match self {
            Standing::Whole if none => Standing::Whole,
            Standing::Whole | Standing::Paying | Standing::Left => Standing::Left,
        }
    }

    /// Whether more may be decided, once nothing is owed.
    pub fn is_whole(self) -> bool
        ensures { result ≡ is_whole self }
    {
        match self {
            Standing::Whole => true,
            Standing::Paying | Standing::Left => false,
        }
    }
}
