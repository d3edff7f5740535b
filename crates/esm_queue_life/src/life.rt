// What holds over the life of a queue's mapping: over runs and redrives that end or are stopped at any moment, and
// rewritings of the journal between them. The last stage is first.
ghost use Rattle.std.specs.Prelude.{◌≡◌, ◌∷◌, ◌++◌, Bool, true, List, Some, reverse};
ghost use Rattle.esm_journal_state.specs.Meaning.{are_good};
ghost use Rattle.esm_redrive_life.specs.Content.{DeletionsAreRecorded};
ghost use Rattle.esm_redrive_life.specs.Life.{Redrive};
ghost use Rattle.esm_queue_life.specs.Life.{Run, Stage, Ran, Redriven, content, run_of, IsLife, AreRewritten, DeletionStays};
ghost use Rattle.esm_queue_life.specs.Life.{EachDeletedOnce, EachIsEarned, EachRedriveIsEarned, IdsAreKept, NoneIsCalledAgain};
ghost use Rattle.esm_queue_life.specs.Life.{GroupsInOrder, GoesOnFrom};
ghost use Rattle.esm_queue_life.specs.UnderRedrives.{IsUnderRedrives, KeepsDeadLetters};

use esm_journal_record::laws::read_again;
use esm_redrive_life::life::{
    each_has_one_end, each_id_once, lines_stay_letters, moved_when_received, moves_are_lined,
};

/// A recorded deletion stays, with its fate and the id of its message, whatever stages follow.
pub fn deletion_stays()
    ensures { (fifo : Bool) (later before : List Stage) → IsLife fifo (later ++ before) → DeletionStays later before }
{
    read_again();
}

/// Each message is recorded as deleted by at most one payload, however many runs and redrives there are.
pub fn each_deleted_once()
    ensures { (fifo : Bool) (life : List Stage) → IsLife fifo life → EachDeletedOnce life }
{
    read_again();
}

/// Each deletion that is recorded after a run, and was not before it, was earned in it by the rule of its fate.
pub fn each_is_earned()
    ensures { (fifo : Bool) (r : Run) (before : List Stage) → IsLife fifo (Ran r ∷ before) → EachIsEarned r before }
{
    read_again();
}

/// So was each one that is recorded after a redrive.
pub fn each_redrive_is_earned()
    ensures { (fifo : Bool) (r : Redrive) (before : List Stage) → IsLife fifo (Redriven r ∷ before) → EachRedriveIsEarned fifo r before }
{
    read_again();
    moved_when_received();
}

/// The message at a place stays the same once its deletion is recorded: whichever run or redrive it comes in again, it has
/// that id.
pub fn ids_are_kept()
    ensures { (fifo : Bool) (stage : Stage) (r : Run) (before : List Stage) → IsLife fifo (stage ∷ before) → run_of stage ≡ Some r → IdsAreKept r before }
{}

/// No call of a run or of a redrive holds a message whose deletion was recorded when it began, or that it deleted before the
/// call.
pub fn none_is_called_again()
    ensures { (fifo : Bool) (stage : Stage) (r : Run) (before : List Stage) → IsLife fifo (stage ∷ before) → run_of stage ≡ Some r →
        NoneIsCalledAgain r before }
{}

/// Of a FIFO queue no two runs' calls break the order of a message group.
pub fn groups_in_order()
    ensures { (stage : Stage) (r : Run) (before : List Stage) → IsLife true (stage ∷ before) → run_of stage ≡ Some r → GroupsInOrder r before }
{}

/// After a run or a redrive the content says what it said, and then exactly the deletions that the journal kept of it.
pub fn deletions_are_recorded()
    ensures { (fifo : Bool) (stage : Stage) (r : Run) (before : List Stage) → IsLife fifo (stage ∷ before) → run_of stage ≡ Some r →
        DeletionsAreRecorded (content before) r.setting r.recorded }
{
    read_again();
}

/// What a run or a redrive finds deleted is what the one before it had deleted when its journal's last payload was written,
/// whatever rewritings are between them.
pub fn each_run_goes_on()
    ensures { (fifo : Bool) (later earlier : Stage) (next r : Run) (between before : List Stage) → IsLife fifo (later ∷ between ++ earlier ∷ before) →
        AreRewritten between → run_of later ≡ Some next → run_of earlier ≡ Some r → GoesOnFrom r next }
{
    read_again();
}

/// No payload of the content is ever bad for a book.
pub fn content_is_good()
    ensures { (fifo : Bool) (life : List Stage) → IsLife fifo life → are_good (reverse (content life)) ≡ true }
{
    read_again();
}

/// The laws over lists of redrives hold of each such life, with the same content and the same dead letters.
pub fn life_is_under_redrives()
    ensures { (fifo : Bool) (life : List Stage) → IsLife fifo life → IsUnderRedrives fifo life }
{
    read_again();
}

/// So each message has at most one end, the line of each moved one is in the dead-letter file, and each id is in at most one
/// line of it.
pub fn dead_letters_are_kept()
    ensures { (fifo : Bool) (life : List Stage) → IsLife fifo life → KeepsDeadLetters fifo life }
{
    read_again();
    each_has_one_end();
    moves_are_lined();
    each_id_once();
    lines_stay_letters();
}
