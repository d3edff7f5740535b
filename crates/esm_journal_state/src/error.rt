// Why a list of journal payloads says nothing.
ghost use Rattle.std.specs.Prelude.{◌≡◌};
ghost use Rattle.esm_journal_state.specs.declared.error.SaysError.TheVariants as error;

use esm_model::OutOfMemory;

/// Why a list of payloads says nothing.
#[derive(Clone, Copy, Debug, PartialEq, Eq)]
pub enum SaysError {
    /// The payload with this index, counted from 0, is the first that is no payload of a mapping's journal, or that
    /// is bad for a book after those before it.
    BadPayload(u32),
    /// An allocation failed.
    OutOfMemory,
}

impl From<OutOfMemory> for SaysError {
    ghost from_gives = { λ _ e. e ≡ error.OutOfMemory };

    fn from(_: OutOfMemory) -> Self {
        SaysError::OutOfMemory
    }
}
