// The moments of a stream's entries, also of those that a failing device kept from being added. Each law is the contract of
// a function that does nothing.
ghost use Rattle.std.specs.Prelude.{◌≡◌, ℕ, Bool, true, List, Option};
ghost use Rattle.esm_io.specs.Meanings.{disk, destination};
ghost use Rattle.esm_journal.specs.Pair.{PairState};
ghost use Rattle.esm_model.specs.declared.book.Trouble.{Trouble};
ghost use Rattle.esm_model.specs.declared.config.Config.{Config};
ghost use Rattle.esm_model.specs.declared.entry.Entry.{Entry};
ghost use Rattle.esm_model.specs.declared.entry.Reply.{Reply};
ghost use Rattle.esm_model.specs.Records.{Record};
ghost use Rattle.esm_model.specs.declared.lane.LaneId.{LaneId};
ghost use Rattle.esm_model.specs.Entries.{moment_of};
ghost use Rattle.esm_model.specs.Setting.{Setting};
ghost use Rattle.esm_book.specs.State.{in_hand, in_delivery};
ghost use Rattle.esm_stream_core.specs.CoreView.{CoreView, MayFollowFront};
ghost use Rattle.esm_stream_core.specs.Calls.{moment_for, came_entries, ended_entries};
ghost use Rattle.esm_stream_book.specs.Books.{BookState};
ghost use Rattle.esm_stream_book.specs.Calls.{AddedAll, AddedSome, AddedOne, next_entries_now};
ghost use Rattle.esm_stream_book.specs.Moments.{AreTimed, HaveMoment, IsGivenBehind, IsTimed, IsTimedView};
ghost use Rattle.esm_stream_book.specs.Opening.{IsOpened};

use esm_io::{Dest, Disk};

/// All that a call decides has one moment: the one that is handed in, or the last entry's if that is later.
pub fn entries_have_moment()
    ensures came { (v : CoreView) (items : List Record) (m : ℕ) → HaveMoment m (came_entries v items m) }
    ensures next { (v : CoreView) (batcher moment : ℕ) → HaveMoment (moment_for v.past moment) (next_entries_now v batcher moment) }
    ensures ended { (v : CoreView) (lane : LaneId) (reply : Reply) (m : ℕ) → HaveMoment m (ended_entries v lane reply m) }
{}

/// If a clock gave the moments of a book's entries and of those that it owes, this still holds after a call whose moment the
/// clock gave: one that was carried out, one in which a device failed, or one of which one entry was noted.
pub fn moments_stay<D: Disk, T: Dest>()
    ensures all { (gave : ℕ → Bool) (moment : ℕ) (s : Setting) (es : List Entry) (old new : BookState D T) → gave moment ≡ true → IsTimedView gave old.core →
        HaveMoment (moment_for old.core.past moment) es → AddedAll (disk D.Disk) (destination T.Dest) s old new es → IsTimedView gave new.core }
    ensures some { (gave : ℕ → Bool) (moment : ℕ) (s : Setting) (es : List Entry) (trouble : Trouble) (old new : BookState D T) → gave moment ≡ true →
        IsTimedView gave old.core →
        HaveMoment (moment_for old.core.past moment) es → AddedSome (disk D.Disk) (destination T.Dest) s old new es trouble → IsTimedView gave new.core }
    ensures one { (gave : ℕ → Bool) (moment : ℕ) (e : Entry) (old new : BookState D T) → gave moment ≡ true → IsTimedView gave old.core →
        moment_of e ≡ moment_for old.core.past moment → AddedOne old new e → IsTimedView gave new.core }
{}

/// A book that was just opened has no entry and owes none, so whatever a clock gave, it gave the moments of them all.
pub fn opened_is_timed<D: Disk, T: Dest>()
    ensures { (gave : ℕ → Bool) (config : Config) (calls : ℕ) (pair : PairState D) (dest : T) (b : BookState D T) → IsOpened config calls pair dest b →
        IsTimedView gave b.core }
{}

/// Then a clock gave the moment of the entry in hand, if a disk failed, and of the one whose line was being delivered, if
/// the destination failed. Each may follow a prefix of the history, and its moment is one given after that prefix.
pub fn hand_is_timed()
    ensures hand { (gave : ℕ → Bool) (v : CoreView) (trouble : Option Trouble) → IsTimedView gave v → AreTimed gave (in_hand trouble v.owed) }
    ensures tried { (gave : ℕ → Bool) (v : CoreView) (trouble : Option Trouble) → IsTimedView gave v → AreTimed gave (in_delivery trouble v.owed) }
    ensures front { (gave : ℕ → Bool) (s : Setting) (h : List Entry) (e : Entry) (follows : MayFollowFront s h e) → IsTimed gave e →
        IsGivenBehind gave follows.before (moment_of e) }
{}
