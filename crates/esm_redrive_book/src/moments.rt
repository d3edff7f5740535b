// Laws of the moments of a redrive's entries, including those that a failing device kept from being added, as contracts
// of functions that do nothing.
ghost use Rattle.std.specs.Prelude.{◌≡◌, ℕ, Bool, true, List, Option};
ghost use Rattle.esm_io.specs.Meanings.{disk, destination};
ghost use Rattle.esm_journal.specs.Pair.{PairState};
ghost use Rattle.esm_model.specs.declared.book.Trouble.{Trouble};
ghost use Rattle.esm_model.specs.declared.config.Config.{Config};
ghost use Rattle.esm_model.specs.declared.entry.Entry.{Entry};
ghost use Rattle.esm_model.specs.declared.entry.Reply.{Reply};
ghost use Rattle.esm_model.specs.declared.item.Message.{Message};
ghost use Rattle.esm_model.specs.Entries.{moment_of};
ghost use Rattle.esm_book.specs.State.{in_hand, in_delivery};
ghost use Rattle.esm_queue_core.specs.CoreView.{moment_for};
ghost use Rattle.esm_redrive_model.specs.RedriveSetting.{RedriveSetting};
ghost use Rattle.esm_redrive_core.specs.Adding.{came_entries, redrive_next_entries, ended_entries};
ghost use Rattle.esm_redrive_core.specs.RedriveView.{RedriveView};
ghost use Rattle.esm_redrive_book.specs.Books.{BookState};
ghost use Rattle.esm_redrive_book.specs.Calls.{AddedAll, AddedSome, AddedOne};
ghost use Rattle.esm_redrive_book.specs.Keeping.{FollowsFront};
ghost use Rattle.esm_redrive_book.specs.Moments.{AreTimed, HaveMoment, IsGivenBehind, IsTimed, IsTimedView};
ghost use Rattle.esm_redrive_book.specs.Opening.{IsOpened};

use esm_io::{Dest, Disk};

/// All that a call decides has one moment: the one that is passed in, or that of the last entry if it is later.
pub fn entries_have_moment()
    ensures came { (v : RedriveView) (items : List Message) (moment : ℕ) → HaveMoment (moment_for v.past moment) (came_entries v items moment) }
    ensures next { (s : RedriveSetting) (h : List Entry) (m : ℕ) → HaveMoment m (redrive_next_entries s h m) }
    ensures ended { (s : RedriveSetting) (h : List Entry) (reply : Reply) (m : ℕ) → HaveMoment m (ended_entries s h reply m) }
{}

/// A clock gave the moments of all entries of a redrive that was just opened, and of all that it owes: there are none.
pub fn opened_is_timed<D: Disk, T: Dest>()
    ensures { (gave : ℕ → Bool) (config : Config) (calls visibility max_receives : ℕ) (lines : List (List ℕ)) (pair : PairState D) (dest : T)
        (b : BookState D T) →
        IsOpened config calls visibility max_receives lines pair dest b → IsTimedView gave b.core }
{}

/// If a clock gave the moments of a redrive's entries and of those that it owes, this also holds after a call whose
/// moment the clock gave: after one that was carried out, one in which a device failed, and one of which one entry was
/// noted.
pub fn moments_stay<D: Disk, T: Dest>()
    ensures all { (gave : ℕ → Bool) (moment : ℕ) (messages : List Message) (es : List Entry) (old new : BookState D T) → gave moment ≡ true →
        IsTimedView gave old.core →
        HaveMoment (moment_for old.core.past moment) es → AddedAll (disk D.Disk) (destination T.Dest) messages old new es → IsTimedView gave new.core }
    ensures some { (gave : ℕ → Bool) (moment : ℕ) (messages : List Message) (es : List Entry) (trouble : Trouble) (old new : BookState D T) →
        gave moment ≡ true → IsTimedView gave old.core →
        HaveMoment (moment_for old.core.past moment) es → AddedSome (disk D.Disk) (destination T.Dest) messages old new es trouble → IsTimedView gave new.core }
    ensures one { (gave : ℕ → Bool) (moment : ℕ) (e : Entry) (old new : BookState D T) → gave moment ≡ true → IsTimedView gave old.core →
        moment_of e ≡ moment_for old.core.past moment → AddedOne old new e → IsTimedView gave new.core }
{}

/// Then the clock also gave the moment of the entry in hand, if a disk failed, and of the one whose line was being
/// delivered, if the dead-letter file failed. Each may follow a prefix of the history, and its moment is given after that
/// prefix.
pub fn hand_is_timed()
    ensures hand { (gave : ℕ → Bool) (v : RedriveView) (trouble : Option Trouble) → IsTimedView gave v → AreTimed gave (in_hand trouble v.owed) }
    ensures tried { (gave : ℕ → Bool) (v : RedriveView) (trouble : Option Trouble) → IsTimedView gave v → AreTimed gave (in_delivery trouble v.owed) }
    ensures front { (gave : ℕ → Bool) (s : RedriveSetting) (h : List Entry) (e : Entry) (follows : FollowsFront s h e) → IsTimed gave e →
        IsGivenBehind gave follows.before (moment_of e) }
{}
