// Why a redrive could not be opened.
use esm_io::Disk;
use esm_journal::{Journal, Pair};
use esm_model::OutOfMemory;

/// Why a redrive could not be opened.
#[derive(Clone, Copy, Debug, PartialEq, Eq)]
pub enum RedriveOpen {
    /// The payload with this index, counted from 0, is the first of the journal that is bad for a book.
    BadPayload(u32),
    /// The payload with this index, counted from 0, is the first of the dead-letter file that is not a line of the
    /// queue's kind.
    BadLine(u32),
    OutOfMemory,
}

impl From<OutOfMemory> for RedriveOpen {
    ghost use Rattle.std.specs.Prelude.{◌≡◌};
    ghost use Rattle.esm_redrive_book.specs.declared.open_error.RedriveOpen.{RedriveOpen};

    ghost from_gives = { λ _ e. e ≡ RedriveOpen.OutOfMemory };

    fn from(_: OutOfMemory) -> Self {
        RedriveOpen::OutOfMemory
    }
}

/// Why a redrive could not be opened, with the journal and the dead-letter file as they were passed in.
#[derive(Drop)]
pub struct RedriveRefused<D: Disk> {
    pub why: RedriveOpen,
    pub pair: Pair<D>,
    pub dead: Journal<D>,
}
