// Why a core refuses a call, which device failed, and why a call of a book was not carried out whole.
use esm_model::{Change, OutOfMemory};

/// Why a core did not take a call. The core is as before.
#[derive(Drop, Debug)]
pub enum Refusal {
    /// The call is refused for good, and no later one is made: what came differs from what the journal kept. The change is
    /// there twice, once to be returned and once to be kept.
    Changed { told: Change, kept: Change },
    OutOfMemory,
}

/// The device that failed.
#[derive(Clone, Copy, Debug, PartialEq, Eq)]
pub(crate) enum Fault {
    /// A disk of the journal.
    Disk,
    /// The destination.
    Dest,
}

/// How far the writing of what is owed came.
#[derive(Clone, Copy, Debug, PartialEq, Eq)]
pub(crate) enum Outcome {
    /// All is written.
    Written,
    /// A disk of the journal failed.
    DiskFault,
    /// The destination failed.
    DestFault,
    /// Nothing is written, and nothing is owed any more.
    OutOfMemory,
}

/// Why a call was not carried out whole.
#[derive(Drop, Debug)]
pub enum CallError {
    /// The journal's disk failed in this call.
    DiskFault,
    /// The destination failed in this call.
    DestFault,
    /// What came differs from what the journal kept; nothing of the call was taken.
    Changed(Change),
    /// An earlier call found trouble.
    Down,
    /// An allocation failed; nothing has changed, except that room may be reserved.
    OutOfMemory,
}

impl From<OutOfMemory> for Refusal {
    ghost use Rattle.std.specs.Prelude.{◌≡◌};
    ghost use Rattle.esm_book.specs.declared.error.Refusal.{Refusal};

    ghost from_gives = { λ _ e. e ≡ Refusal.OutOfMemory };

    fn from(_: OutOfMemory) -> Self {
        Refusal::OutOfMemory
    }
}
