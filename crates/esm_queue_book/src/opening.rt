// Reads what a journal's payloads say of a queue, and the filter of its mapping.
ghost use Rattle.std.specs.Prelude.{◌≡◌, true, is_ok, IfOk, IfErr, OnOk, reverse};
ghost use Rattle.esm_filter.specs.Criteria.{JudgesMessages};
ghost use Rattle.esm_model.specs.Pattern.{read_patterns};
ghost use Rattle.esm_model.specs.QueueEvent.{IsQueueConfig};
ghost use Rattle.esm_model.specs.Valid.{is_stream};
ghost use Rattle.esm_journal_state.specs.Meaning.{history, are_good};
ghost use Rattle.esm_journal_state.specs.SaidLists.{IsInOrder};
ghost use Rattle.esm_journal_state.specs.Tells.{Tells};
ghost use Rattle.esm_queue_book.specs.Opening.{IsNotOpened};

use esm_filter::{Criteria, FilterError};
use esm_journal_state::{Says, SaysError, says};
use esm_model::{BookOpen, Bytes, Config, OutOfMemory};
use std::alloc::Global;

/// What the payloads say, the oldest first.
pub(crate) fn read_journal(alloc: Global, payloads: &[Bytes]) -> Result<Says, BookOpen>
    ensures told { IfOk result (λ said. Tells said (history (reverse payloads.now))) }
    ensures order { IfOk result (λ said. IsInOrder said) }
    ensures good { OnOk result (are_good (reverse payloads.now) ≡ true) }
    ensures bad { IfErr result (IsNotOpened payloads.now) }
{
    match says(alloc, payloads) {
        Ok(said) => Ok(said),
        Err(SaysError::BadPayload(index)) => Err(BookOpen::BadPayload(index)),
        Err(SaysError::OutOfMemory) => Err(BookOpen::OutOfMemory),
    }
}

/// The filter of a mapping, whose texts are patterns.
pub(crate) fn read_filters(alloc: Global, config: &Config) -> Result<Criteria, OutOfMemory>
    requires config { IsQueueConfig config.now }
    requires patterns { is_ok (read_patterns (is_stream config.now.kind) config.now.filters) ≡ true }
    ensures { IfOk result (λ criteria. JudgesMessages config.now.kind config.now.filters criteria) }
{
    match Criteria::read(alloc, config.kind, config.filters.as_slice()) {
        Ok(criteria) => Ok(criteria),
        Err(FilterError::BadPattern { .. }) => unreachable!(),
        Err(FilterError::OutOfMemory) => Err(OutOfMemory),
    }
}
