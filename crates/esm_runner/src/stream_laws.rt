// The laws from which the headline follows, in one function, and those of its disks.
ghost use Rattle.esm_io.specs.Meanings.{disk as meaning};
ghost use Rattle.esm_runner.specs.Laws.{AreLaws};
ghost use Rattle.esm_runner.specs.Runs.{CountsNow};

use esm_input::laws::handed_is_within;
use esm_io::Disk;
use esm_journal_record::laws::history_payloads_stay;
use esm_journal_state::laws::{checkpoint_is_kept, fates_are_kept};
use esm_model::laws::{
    answer_is_logged, calls_kept, checkpoint_is_longest, every_record_counted, fate_is_earned,
    no_repeat, one_fate, order_per_key,
};
use esm_record_bounds::laws::legal_may_be_said;
use esm_stream_book::moments::hand_is_timed;

/// States what holds of every history, of what its payloads say, of the moments of entries that were not added, and of every
/// input. Does nothing.
pub(crate) fn laws_hold()
    ensures { AreLaws }
{
    order_per_key();
    one_fate();
    fate_is_earned();
    answer_is_logged();
    calls_kept();
    no_repeat();
    every_record_counted();
    checkpoint_is_longest();
    history_payloads_stay();
    legal_may_be_said();
    fates_are_kept();
    checkpoint_is_kept();
    hand_is_timed();
    handed_is_within();
}

/// States that a crash since now leaves of an honest disk only what a crash now leaves, and that this may also be left since
/// an earlier moment. Does nothing.
pub(crate) fn disks_count_now<D: Disk>()
    ensures { CountsNow (meaning D.Disk) }
{}
