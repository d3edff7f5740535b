// The laws from which the headline of a queue follows, in one function.
ghost use Rattle.esm_runner.specs.QueueLaws.{AreLaws};

use esm_input::laws::handed_is_within;
use esm_journal_record::laws::read_again;
use esm_queue_book::moments::hand_is_timed;
use esm_queue_model::history_laws::{
    deleted_once, every_message_counted, legal_over_more, order_per_group, queue_calls_kept,
};

/// States what holds of every history of a queue, of every payload, of the moment of the entry in hand, and of every input.
/// Does nothing.
pub(crate) fn laws_hold()
    ensures { AreLaws }
{
    deleted_once();
    order_per_group();
    every_message_counted();
    legal_over_more();
    queue_calls_kept();
    read_again();
    hand_is_timed();
    handed_is_within();
}
