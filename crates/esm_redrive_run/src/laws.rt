// The laws from which the headline of a redrive follows, in one place, and those of the moments of its book.
ghost use Rattle.esm_io.specs.Meanings.{disk as meaning};
ghost use Rattle.esm_redrive_run.specs.Laws.{AreLaws, AreMomentLaws};
ghost use Rattle.esm_redrive_run.specs.Runs.{dead_file};

use esm_input::laws::handed_is_within;
use esm_io::Disk;
use esm_journal::FileDest;
use esm_queue_model::history_laws::queue_calls_kept;
use esm_redrive::laws::lines_go_on;
use esm_redrive_book::moments::{entries_have_moment, hand_is_timed, moments_stay};
use esm_redrive_life::content::deletions_are_recorded;
use esm_redrive_model::laws::{
    calls_are_few, each_has_one_end, leaves_moves_lined, line_of_due, moved_after_receives,
    moved_once, moved_where_lined, received_at_most, redrive_over_more, same_over_same_ids,
};

/// States what holds of every history of a redrive. Does nothing.
pub(crate) fn laws_hold()
    ensures { AreLaws }
{
    each_has_one_end();
    moved_once();
    moved_after_receives();
    received_at_most();
    calls_are_few();
    redrive_over_more();
    queue_calls_kept();
    same_over_same_ids();
    deletions_are_recorded();
    lines_go_on();
    leaves_moves_lined();
    moved_where_lined();
    line_of_due();
    handed_is_within();
    hand_is_timed();
}

/// States what holds of the moments of a book over a dead-letter file, while calls are made of it. Does nothing.
pub(crate) fn moments_hold<D: Disk>()
    ensures { AreMomentLaws (meaning D.Disk) (dead_file (meaning D.Disk)) }
{
    entries_have_moment();
    moments_stay::<D, FileDest<D>>();
}
