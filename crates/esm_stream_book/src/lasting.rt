// What the reader and a batcher know of a stream's shared history lasts, whatever the other seats of a turn add: each law is
// the contract of a function that does nothing.
ghost use Rattle.std.specs.Prelude.{◌≡◌, ◌+◌, ◌++◌, [], ℕ, List};
ghost use Rattle.esm_model.specs.declared.book.Job.{Job};
ghost use Rattle.esm_model.specs.declared.setup.Setup.{Setup};
ghost use Rattle.esm_model.specs.declared.setup.Told.{Told};
ghost use Rattle.esm_model.specs.Books.{author, stream_may_follow, entries_told};
ghost use Rattle.esm_model.specs.Entries.{is_shut};
ghost use Rattle.esm_model.specs.Coming.{StayAsTheyAre};
ghost use Rattle.esm_model.specs.GoingOn.{OthersFollow};
ghost use Rattle.esm_stream_book.specs.Batchers.{calls_told, Rests, RunsJob};
ghost use Rattle.esm_stream_book.specs.Finishing.{HasFinished, HasLeft, AreSpent};
ghost use Rattle.esm_stream_book.specs.Items.{items_told};

use esm_model::book_laws::kept_is_legal;
use esm_model::laws::{calls_kept, calls_kept_over_more_records};

/// Before the first entry no batcher has called, none runs a call, and no item came.
pub fn batchers_begin()
    ensures calls { (s : Setup) (sends : List ℕ → List ℕ) (k : ℕ) → calls_told s sends [] k ≡ [] }
    ensures rests { (s : Setup) (k : ℕ) → Rests s [] k }
    ensures items { (n : ℕ) → items_told [] n ≡ [] }
{}

/// If entries follow of which none is a batcher's, its calls are as before, with their event texts; if it rested it still
/// does, it still runs the call that it ran, and if it had finished it still has. Calls that are spent stay spent, whoever
/// adds the entries.
pub fn batchers_last()
    ensures calls { (s : Setup) (sends : List ℕ → List ℕ) (h es : List Told) (k : ℕ) → OthersFollow author stream_may_follow s (k + 1) h es →
        calls_told s sends (h ++ es) k ≡ calls_told s sends h k }
    ensures rests { (s : Setup) (h es : List Told) (k : ℕ) → OthersFollow author stream_may_follow s (k + 1) h es → Rests s h k → Rests s (h ++ es) k }
    ensures runs { (s : Setup) (h es : List Told) (k : ℕ) (job : Job) → OthersFollow author stream_may_follow s (k + 1) h es →
        RunsJob s h k job → RunsJob s (h ++ es) k job }
    ensures finished { (s : Setup) (h es : List Told) (k : ℕ) → OthersFollow author stream_may_follow s (k + 1) h es →
        HasFinished s h k → HasFinished s (h ++ es) k }
    ensures spent { (s : Setup) (h es : List Told) (n : ℕ) → OthersFollow author stream_may_follow s n h es → AreSpent s h → AreSpent s (h ++ es) }
{
    kept_is_legal();
    calls_kept();
    calls_kept_over_more_records();
}

/// If entries follow of which none is the reader's, the items that came stay as they are, and the input has ended if and
/// only if it had.
pub fn items_last()
    ensures shut { (s : Setup) (h es : List Told) → OthersFollow author stream_may_follow s 0 h es →
        is_shut (entries_told (h ++ es)) ≡ is_shut (entries_told h) }
    ensures items { (s : Setup) (h es : List Told) → OthersFollow author stream_may_follow s 0 h es → StayAsTheyAre (items_told h) (items_told (h ++ es)) }
{}

/// If a batcher has finished, nothing is left for it.
pub fn finished_excludes()
    ensures { (s : Setup) (h : List Told) (k : ℕ) → HasFinished s h k → HasLeft s h k → ⊥ }
{}
