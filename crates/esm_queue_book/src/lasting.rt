// What the reader and a batcher know of a queue's shared history lasts, whatever the other seats of a turn add: each law is
// the contract of a function that does nothing.
ghost use Rattle.std.specs.Prelude.{◌≡◌, ◌+◌, ◌++◌, [], ℕ, List};
ghost use Rattle.esm_model.specs.declared.book.Job.{Job};
ghost use Rattle.esm_model.specs.declared.setup.Setup.{Setup};
ghost use Rattle.esm_model.specs.declared.setup.Told.{Told};
ghost use Rattle.esm_model.specs.Books.{entries_told};
ghost use Rattle.esm_model.specs.Entries.{is_shut};
ghost use Rattle.esm_model.specs.GoingOn.{OthersFollow};
ghost use Rattle.esm_model.specs.Coming.{StayAsTheyAre};
ghost use Rattle.esm_queue_model.specs.QueueBooks.{queue_author, queue_may_follow};
ghost use Rattle.esm_queue_book.specs.Batchers.{queue_calls_told, QueueRests, RunsQueueJob};
ghost use Rattle.esm_queue_book.specs.Left.{QueueFinished, QueueLeft, QueueSpent, queue_items};

use esm_queue_model::history_laws::queue_calls_kept_over;
use esm_queue_model::queue_book_laws::kept_queue_is_legal;

/// Before the first entry no item came, no batcher has called, and none runs a call.
pub fn queue_batchers_begin()
    ensures calls { (s : Setup) (sends : List ℕ → List ℕ) (k : ℕ) → queue_calls_told s sends [] k ≡ [] }
    ensures rests { (s : Setup) (k : ℕ) → QueueRests s [] k }
    ensures items { (n : ℕ) → queue_items [] n ≡ [] }
{}

/// If entries follow of which none is a batcher's, its calls are as before, with their event texts; if it rested it still
/// does, it still runs the call that it ran, and if it had finished it still has. Calls that were spent still are, whoever
/// adds the entries.
pub fn queue_batchers_last()
    ensures calls { (s : Setup) (sends : List ℕ → List ℕ) (h es : List Told) (k : ℕ) → OthersFollow queue_author queue_may_follow s (k + 1) h es →
        queue_calls_told s sends (h ++ es) k ≡ queue_calls_told s sends h k }
    ensures rests { (s : Setup) (h es : List Told) (k : ℕ) → OthersFollow queue_author queue_may_follow s (k + 1) h es →
        QueueRests s h k → QueueRests s (h ++ es) k }
    ensures runs { (s : Setup) (h es : List Told) (k : ℕ) (job : Job) → OthersFollow queue_author queue_may_follow s (k + 1) h es →
        RunsQueueJob s h k job → RunsQueueJob s (h ++ es) k job }
    ensures finished { (s : Setup) (h es : List Told) (k : ℕ) → OthersFollow queue_author queue_may_follow s (k + 1) h es →
        QueueFinished s h k → QueueFinished s (h ++ es) k }
    ensures spent { (s : Setup) (h es : List Told) (n : ℕ) → OthersFollow queue_author queue_may_follow s n h es → QueueSpent s h → QueueSpent s (h ++ es) }
{
    kept_queue_is_legal();
    queue_calls_kept_over();
}

/// If entries follow of which none is the reader's, no item comes and none is gone, and the input has ended if and only if
/// it had.
pub fn queue_items_last()
    ensures items { (s : Setup) (h es : List Told) → OthersFollow queue_author queue_may_follow s 0 h es →
        StayAsTheyAre (queue_items h) (queue_items (h ++ es)) }
    ensures shut { (s : Setup) (h es : List Told) → OthersFollow queue_author queue_may_follow s 0 h es →
        is_shut (entries_told (h ++ es)) ≡ is_shut (entries_told h) }
{}

/// If a batcher has finished, no message is left for it.
pub fn queue_over_or_left()
    ensures { (s : Setup) (h : List Told) (k : ℕ) → QueueFinished s h k → QueueLeft s h k → ⊥ }
{}
