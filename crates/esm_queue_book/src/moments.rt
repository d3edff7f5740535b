// The moments of a queue's entries, also of the one that a failing disk kept from being added. Each law is the contract of a
// function that does nothing.
ghost use Rattle.std.specs.Prelude.{◌≡◌, ℕ, Bool, true, List, Option};
ghost use Rattle.esm_io.specs.Meanings.{disk};
ghost use Rattle.esm_journal.specs.Pair.{PairState};
ghost use Rattle.esm_model.specs.declared.book.Next.{Next};
ghost use Rattle.esm_model.specs.declared.book.Trouble.{Trouble};
ghost use Rattle.esm_model.specs.declared.config.Config.{Config};
ghost use Rattle.esm_model.specs.declared.entry.Entry.{Entry};
ghost use Rattle.esm_model.specs.declared.entry.Reply.{Reply};
ghost use Rattle.esm_model.specs.declared.item.Message.{Message};
ghost use Rattle.esm_model.specs.declared.lane.LaneId.{LaneId};
ghost use Rattle.esm_model.specs.Entries.{moment_of};
ghost use Rattle.esm_book.specs.State.{in_hand};
ghost use Rattle.esm_queue_model.specs.QueueSetting.{QueueSetting};
ghost use Rattle.esm_queue_core.specs.CoreView.{CoreView, moment_for};
ghost use Rattle.esm_queue_core.specs.Coming.{came_entries};
ghost use Rattle.esm_queue_core.specs.Ending.{ended_entries};
ghost use Rattle.esm_queue_core.specs.Next.{next_entries};
ghost use Rattle.esm_queue_book.specs.Books.{BookState};
ghost use Rattle.esm_queue_book.specs.Calls.{AddedAll, AddedSome, AddedOne};
ghost use Rattle.esm_queue_book.specs.Keeping.{MayFollowFront};
ghost use Rattle.esm_queue_book.specs.Moments.{AreTimed, HaveMoment, IsGivenBehind, IsTimed, IsTimedView};
ghost use Rattle.esm_queue_book.specs.Opening.{IsOpened};

use esm_io::Disk;

/// All that a call decides has one moment: the one that is handed in, or the last entry's if that is later.
pub fn entries_have_moment()
    ensures came { (v : CoreView) (items : List Message) (moment : ℕ) → HaveMoment (moment_for v.past moment) (came_entries v items moment) }
    ensures next { (next : Next) (m : ℕ) → HaveMoment m (next_entries next m) }
    ensures ended { (s : QueueSetting) (h : List Entry) (lane : LaneId) (reply : Reply) (m : ℕ) → HaveMoment m (ended_entries s h lane reply m) }
{}

/// A book that was just opened has no entry and owes none, so whatever a clock gave, it gave the moments of them all.
pub fn opened_is_timed<D: Disk>()
    ensures { (gave : ℕ → Bool) (config : Config) (calls visibility : ℕ) (pair : PairState D) (b : BookState D) →
        IsOpened config calls visibility pair b → IsTimedView gave b.core }
{}

/// If a clock gave the moments of a book's entries and of those that it owes, this still holds after a call whose moment the
/// clock gave: one that was carried out, one in which a disk failed, or one of which one entry was noted.
pub fn moments_stay<D: Disk>()
    ensures all { (gave : ℕ → Bool) (moment : ℕ) (messages : List Message) (es : List Entry) (old new : BookState D) → gave moment ≡ true →
        IsTimedView gave old.core →
        HaveMoment (moment_for old.core.past moment) es → AddedAll (disk D.Disk) messages old new es → IsTimedView gave new.core }
    ensures some { (gave : ℕ → Bool) (moment : ℕ) (messages : List Message) (es : List Entry) (old new : BookState D) → gave moment ≡ true →
        IsTimedView gave old.core →
        HaveMoment (moment_for old.core.past moment) es → AddedSome (disk D.Disk) messages old new es → IsTimedView gave new.core }
    ensures one { (gave : ℕ → Bool) (moment : ℕ) (e : Entry) (old new : BookState D) → gave moment ≡ true → IsTimedView gave old.core →
        moment_of e ≡ moment_for old.core.past moment → AddedOne old new e → IsTimedView gave new.core }
{}

/// Then a clock gave the moment of the entry in hand, if a disk failed. This entry may follow a prefix of the history, and
/// its moment is one given after that prefix.
pub fn hand_is_timed()
    ensures hand { (gave : ℕ → Bool) (v : CoreView) (trouble : Option Trouble) → IsTimedView gave v → AreTimed gave (in_hand trouble v.owed) }
    ensures front { (gave : ℕ → Bool) (s : QueueSetting) (h : List Entry) (e : Entry) (follows : MayFollowFront s h e) → IsTimed gave e →
        IsGivenBehind gave follows.before (moment_of e) }
{}
