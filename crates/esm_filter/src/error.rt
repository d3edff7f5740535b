// Why a text is no filter pattern, why filter criteria are refused, and why a document was not read.
use json::Invalid;
use std::alloc::{AllocError, AllocFailed};

/// Why a text is no filter pattern.
#[derive(Clone, Copy, Debug, PartialEq, Eq)]
pub enum PatternError {
    /// It does not read as JSON.
    NotJson,
    /// It is no JSON object.
    NotObject,
    /// An object or a list in it is empty.
    Empty,
    /// Something else in it does not follow the grammar.
    BadTest,
    /// It has more than 4,096 characters.
    TooLong,
}

/// Why filter criteria are refused.
#[derive(Clone, Copy, Debug, PartialEq, Eq)]
pub enum FilterError {
    /// The text with the index `filter`, counted from 0, is the first that is no pattern; `why` says why.
    BadPattern { filter: u32, why: PatternError },
    /// Out of memory.
    OutOfMemory,
}

/// Why a part of a pattern was not read.
#[derive(Clone, Copy, Debug, PartialEq, Eq)]
pub(crate) enum ReadError {
    Refused(PatternError),
    OutOfMemory,
}

impl From<AllocError> for ReadError {
    ghost use Rattle.std.specs.Prelude.{◌≡◌};
    ghost use Rattle.esm_filter.specs.declared.error.ReadError.{ReadError};

    ghost from_gives = { λ _ e. e ≡ ReadError.OutOfMemory };

    fn from(_: AllocError) -> Self {
        ReadError::OutOfMemory
    }
}

impl<T> From<AllocFailed<T>> for ReadError
where
    T: Drop,
{
    ghost use Rattle.std.specs.Prelude.{◌≡◌};
    ghost use Rattle.esm_filter.specs.declared.error.ReadError.{ReadError};

    ghost from_gives = { λ _ e. e ≡ ReadError.OutOfMemory };

    fn from(_: AllocFailed<T>) -> Self {
        ReadError::OutOfMemory
    }
}

/// Why a document was not read.
#[derive(Clone, Copy, Debug, PartialEq, Eq)]
pub(crate) enum DocumentError {
    NotJson,
    OutOfMemory,
}

impl From<Invalid> for DocumentError {
    ghost use Rattle.std.specs.Prelude.{◌≡◌};
    ghost use Rattle.esm_filter.specs.declared.error.DocumentError.{DocumentError};

    ghost from_gives = { λ _ e. e ≡ DocumentError.NotJson };

    fn from(_: Invalid) -> Self {
        DocumentError::NotJson
    }
}

impl From<AllocError> for DocumentError {
    ghost use Rattle.std.specs.Prelude.{◌≡◌};
    ghost use Rattle.esm_filter.specs.declared.error.DocumentError.{DocumentError};

    ghost from_gives = { λ _ e. e ≡ DocumentError.OutOfMemory };

    fn from(_: AllocError) -> Self {
        DocumentError::OutOfMemory
    }
}

impl<T> From<AllocFailed<T>> for DocumentError
where
    T: Drop,
{
    ghost use Rattle.std.specs.Prelude.{◌≡◌};
    ghost use Rattle.esm_filter.specs.declared.error.DocumentError.{DocumentError};

    ghost from_gives = { λ _ e. e ≡ DocumentError.OutOfMemory };

    fn from(_: AllocFailed<T>) -> Self {
        DocumentError::OutOfMemory
    }
}

impl From<AllocError> for FilterError {
    ghost use Rattle.std.specs.Prelude.{◌≡◌};
    ghost use Rattle.esm_filter.specs.declared.error.FilterError.{FilterError};

    ghost from_gives = { λ _ e. e ≡ FilterError.OutOfMemory };

    fn from(_: AllocError) -> Self {
        FilterError::OutOfMemory
    }
}

impl<T> From<AllocFailed<T>> for FilterError
where
    T: Drop,
{
    ghost use Rattle.std.specs.Prelude.{◌≡◌};
    ghost use Rattle.esm_filter.specs.declared.error.FilterError.{FilterError};

    ghost from_gives = { λ _ e. e ≡ FilterError.OutOfMemory };

    fn from(_: AllocFailed<T>) -> Self {
        FilterError::OutOfMemory
    }
}
