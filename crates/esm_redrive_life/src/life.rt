// Laws over the life of a queue under redrives: over redrives that end or are stopped at any moment, and ordinary runs
// and compactions between them. A life has its latest stage first.
ghost use Rattle.std.specs.Prelude.{◌≡◌, ◌∷◌, ◌++◌, ℕ, Bool, true, List, length, reverse};
ghost use Rattle.esm_model.specs.declared.entry.Entry.{Entry};
ghost use Rattle.esm_journal_state.specs.Compact.{SameSaid};
ghost use Rattle.esm_journal_state.specs.Meaning.{are_good, history};
ghost use Rattle.esm_queue_model.specs.QueueSetting.{QueueSetting};
ghost use Rattle.esm_queue_model.specs.QueueStep.{LegalQueue};
ghost use Rattle.esm_redrive.specs.DeadFile.{AreLetters};
ghost use Rattle.esm_redrive_model.specs.RedriveLaws.{EachOnce};
ghost use Rattle.esm_redrive_life.specs.Content.{HasValidMessages, IsOpenedOver, content_after};
ghost use Rattle.esm_redrive_life.specs.Life.{Redrive, Stage, Redriven, GoesOn, IsLife, IsWhole, content, dead_lines, lined_ids};
ghost use Rattle.esm_redrive_life.specs.Life.{DeletionStays, EachHasOneEnd, MovesAreLined, LinedAfterReceives, MovedAfterReceives, MovedWhereLined};

use crate::content::{content_stays_good, deletions_are_recorded};
use esm_journal_record::laws::read_again;
use esm_redrive::laws::lines_go_on;
use esm_redrive_model::laws::{
    adds_once, leaves_moves_lined, lined_after_receives, moved_where_lined, received_at_most,
};

/// A message's deletion remains: the content never has it deleted a second time, nor for another reason.
pub fn deletion_stays()
    ensures { (fifo : Bool) (later before : List Stage) → IsLife fifo (later ++ before) → DeletionStays later before }
{
    deletions_are_recorded();
}

/// Each message waits, or is exactly one of succeeded, filtered and moved.
pub fn each_has_one_end()
    ensures { (fifo : Bool) (life : List Stage) → IsLife fifo life → EachHasOneEnd life }
{
    deletions_are_recorded();
    leaves_moves_lined();
}

/// The dead-letter file has the line of each message that is moved according to the content.
pub fn moves_are_lined()
    ensures { (fifo : Bool) (life : List Stage) → IsLife fifo life → MovesAreLined fifo life }
{
    deletions_are_recorded();
    leaves_moves_lined();
    lines_go_on();
}

/// Each id is in at most one line of the dead-letter file.
pub fn each_id_once()
    ensures { (fifo : Bool) (life : List Stage) → IsLife fifo life → EachOnce (lined_ids fifo life) }
{
    adds_once();
    lines_go_on();
}

/// The dead-letter file remains good for the next redrive.
pub fn lines_stay_letters()
    ensures { (fifo : Bool) (life : List Stage) → IsLife fifo life → AreLetters fifo (dead_lines life) (length (dead_lines life)) }
{
    lines_go_on();
}

/// No payload of the content is ever bad for a book.
pub fn content_is_good()
    ensures { (fifo : Bool) (life : List Stage) → IsLife fifo life → are_good (reverse (content life)) ≡ true }
{
    content_stays_good();
}

/// A message whose line a redrive added was received in that redrive as often as it may be.
pub fn lined_when_received()
    ensures { (fifo : Bool) (r : Redrive) (before : List Stage) → IsLife fifo (Redriven r ∷ before) → LinedAfterReceives r }
{
    lined_after_receives();
    received_at_most();
}

/// A message is recorded as moved only if it was received in that redrive as often as it may be, or its line was already
/// there.
pub fn moved_when_received()
    ensures { (fifo : Bool) (r : Redrive) (before : List Stage) → IsLife fifo (Redriven r ∷ before) → MovedAfterReceives fifo r before }
{
    leaves_moves_lined();
    lined_after_receives();
    received_at_most();
}

/// After a redrive that ended without a failing file, a message that arrived is moved if and only if its line is in the
/// dead-letter file and it was not found deleted for another reason.
pub fn moved_by_line()
    ensures { (fifo : Bool) (r : Redrive) (before : List Stage) → IsLife fifo (Redriven r ∷ before) → IsWhole r → MovedWhereLined fifo r before }
{
    deletions_are_recorded();
    leaves_moves_lined();
    lines_go_on();
    moved_where_lined();
}

/// An ordinary run of the queue continues the content: further messages succeeded or were filtered.
pub fn ordinary_run_goes_on()
    ensures { (s : QueueSetting) (h : List Entry) (old : List (List ℕ)) → IsOpenedOver s old → HasValidMessages s → LegalQueue s h →
        are_good (reverse old) ≡ true → GoesOn (content_after s h old) old }
{
    read_again();
}

/// A list of good payloads that says the same as the content continues it, such as the one that a compaction writes.
pub fn compaction_goes_on()
    ensures { (list old : List (List ℕ)) → SameSaid (history (reverse list)) (history (reverse old)) → are_good (reverse list) ≡ true →
        GoesOn list old }
{}
