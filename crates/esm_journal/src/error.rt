// The errors of a journal: why it was not made or opened, or why a payload was not added.
ghost use Rattle.std.specs.Prelude.{◌≡◌};
ghost use Rattle.esm_journal.specs.declared.error.OpenError.TheVariants as open_error;
ghost use Rattle.esm_journal.specs.declared.error.AppendError.TheVariants as append_error;
ghost use Rattle.esm_journal.specs.declared.error.InitError.TheVariants as init_error;

use esm_io::Failed;
use esm_model::OutOfMemory;
use std::alloc::{AllocError, AllocFailed};

/// Why a file was not made into a fresh journal.
#[derive(Clone, Copy, Debug, PartialEq, Eq)]
pub enum InitError {
    /// The disk is not empty: it has this many bytes.
    NotEmpty(u64),
    /// A call of the disk failed: its count of faults rose.
    DiskFault,
    OutOfMemory,
}

/// Why a journal could not be opened.
#[derive(Clone, Copy, Debug, PartialEq, Eq)]
pub enum OpenError {
    /// The file's first eight bytes, with 0 for each that is missing, are not the header.
    NotAJournal([u8; 8]),
    /// The place of the damage, in bytes from the start of the file.
    Damaged(u64),
    /// A call of the disk failed: its count of faults rose.
    DiskFault,
    OutOfMemory,
}

/// Why a payload was not added.
#[derive(Clone, Copy, Debug, PartialEq, Eq)]
pub enum AppendError {
    /// The payload has this many bytes, more than `MAX_PAYLOAD`. Nothing has changed.
    TooLong(u64),
    /// A call of the disk failed: its count of faults rose. The journal takes no further payload until it is opened again,
    /// and may then hold this one or not.
    DiskFault,
    /// Nothing has changed.
    OutOfMemory,
    /// An earlier call returned `DiskFault`. Nothing has changed.
    Down,
}

impl From<Failed> for OpenError {
    ghost from_gives = { λ _ e. e ≡ open_error.DiskFault };

    fn from(_: Failed) -> Self {
        OpenError::DiskFault
    }
}

impl From<AllocError> for OpenError {
    ghost from_gives = { λ _ e. e ≡ open_error.OutOfMemory };

    fn from(_: AllocError) -> Self {
        OpenError::OutOfMemory
    }
}

impl<T: Drop> From<AllocFailed<T>> for OpenError {
    ghost from_gives = { λ _ e. e ≡ open_error.OutOfMemory };

    fn from(_: AllocFailed<T>) -> Self {
        OpenError::OutOfMemory
    }
}

impl From<Failed> for InitError {
    ghost from_gives = { λ _ e. e ≡ init_error.DiskFault };

    fn from(_: Failed) -> Self {
        InitError::DiskFault
    }
}

impl From<OutOfMemory> for AppendError {
    ghost from_gives = { λ _ e. e ≡ append_error.OutOfMemory };

    fn from(_: OutOfMemory) -> Self {
        AppendError::OutOfMemory
    }
}
