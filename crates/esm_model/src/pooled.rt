// The trait of a book that a reader and batchers share. Items arrive and the input ends; a batcher asks what comes next and
// ends its call; once all batchers have ended, the book says whether something is left.
ghost use Rattle.std.specs.Prelude.{◌≡◌, ◌⊎◌, ◌<◌, ◌≤◌, ◌+◌, ◌++◌, ◌∷◌, [], ℕ, Bool, List, Some, true, false, length, All, IfOk, IfErr, OnOk, OnErr, IsErrOf};
ghost use Rattle.esm_model.specs.declared.book.BookError.TheVariants as why;
ghost use Rattle.esm_model.specs.declared.book.CameError.TheVariants as refusal;
ghost use Rattle.esm_model.specs.declared.book.Change.{Change};
ghost use Rattle.esm_model.specs.declared.book.Job.{Job};
ghost use Rattle.esm_model.specs.declared.book.Next.TheVariants as next;
ghost use Rattle.esm_model.specs.declared.called.Called.{Called};
ghost use Rattle.esm_model.specs.declared.limits.TheConstants.{MAX_BATCH, MAX_LANES};
ghost use Rattle.esm_model.specs.declared.setup.Setup.{Setup};
ghost use Rattle.esm_model.specs.declared.setup.Told.{Told};
ghost use Rattle.esm_model.specs.Books.{entries_told};
ghost use Rattle.esm_model.specs.Entries.{is_shut};
ghost use Rattle.esm_model.specs.Kept.{meaning, added};
ghost use Rattle.esm_model.specs.declared.item.Item.{Item};
ghost use Rattle.esm_model.specs.declared.item.LineKind.{LineKind};
ghost use Rattle.esm_model.specs.Items.{IsValidItem};
ghost use Rattle.esm_model.specs.Batching.{Answers, call_of};
ghost use Rattle.esm_model.specs.Coming.{Come, SomeCome, StayAsTheyAre, FitBehind};
ghost use Rattle.esm_model.specs.GoingOn.{GoesOn, AllAt, OthersFollow, change_told};

use crate::book::{BookError, CameError, Job, Next};
use crate::entry::Reply;
use crate::item::Item;
use crate::kept::Kept;
use crate::progress::Progress;
use std::alloc::Global;

/// A book that a reader and batchers share. Each has a seat at a turn: the reader has seat 0, and batcher `k` has seat `k +
/// 1`.
///
/// What contracts know of it is said of its setup and its history, and, for a batcher, of the batcher's number.
pub trait Pooled: Kept {
    // Of a batcher.

    // its calls that ended, oldest first, as its caller logs them; the function maps an event to the bytes that the caller
    // sends
    ghost calls: { Setup → (List ℕ → List ℕ) → List Told → ℕ → List Called };

    // it runs no call
    ghost rests: { Setup → List Told → ℕ → Type 0 };

    // it runs the call of this job
    ghost runs: { Setup → List Told → ℕ → Job → Type 0 };

    // the input has ended, and nothing is left for it
    ghost finished: { Setup → List Told → ℕ → Type 0 };

    // something is left for it
    ghost left: { Setup → List Told → ℕ → Type 0 };

    // Of the whole.

    // all calls allowed were made
    ghost spent: { Setup → List Told → Type 0 };

    // what the lines of its input are
    ghost kind: { Setup → LineKind };

    // the items of the shard that arrived, in their order; a queue is shard 0
    ghost items: { List Told → ℕ → List Item };

    // among the items of a list that is to arrive, the first that differs from what the journal kept of it differs by this
    // change
    ghost differs: { Setup → List Told → List Item → Change → Type 0 };

    // Of moments.

    // the moments at which it may be called
    ghost given: { ℕ → Bool };

    // each entry of its history has a moment that was given, and so has each entry that it decided but that a failed device
    // kept from being added
    ghost timed: { (ℕ → Bool) → Self → Type 0 };

    /// Adds the items that arrived, at the moment, in milliseconds. A list with an item that differs from what the journal
    /// kept of it is refused whole (`StreamChanged`). After an error other than `OutOfMemory` the book is down, and the
    /// first of the items may have been added.
    fn bring(&mut self, alloc: Global, list: Vec<Item>, moment: u64) -> Result<(), CameError>
        requires going { is_shut (entries_told (Self.history self.old)) ≡ false }
        requires few { length list.items ≤ MAX_BATCH }
        requires valid { All (IsValidItem (kind (Self.setup self.old))) list.items }
        requires within { FitBehind (items (Self.history self.old)) list.items }
        requires given { given moment ≡ true }
        // What is added.
        ensures goes_on { GoesOn (meaning Self.Kept) 0 self.old self.new }
        ensures moments { AllAt moment (Self.history self.old) (added (Self.history self.old) (Self.history self.new)) }
        ensures timed { (gave : ℕ → Bool) → gave moment ≡ true → timed gave self.old → timed gave self.new }
        ensures going { is_shut (entries_told (Self.history self.new)) ≡ false }
        ensures came { OnOk result (Come (items (Self.history self.old)) (items (Self.history self.new)) list.items) }
        ensures some { SomeCome (items (Self.history self.old)) (items (Self.history self.new)) list.items }
        // When each error is returned, and what it reports.
        ensures down { IfErr result (λ e. (e ≡ refusal.OutOfMemory) ⊎ (Self.mark self.new ≡ true)) }
        ensures changed { (change : Change) → IsErrOf result (refusal.StreamChanged change) →
            differs (Self.setup self.old) (Self.history self.old) list.items change }
        ensures tells { Self.change self.new ≡ change_told (Self.change self.old) result };

    /// Notes that the input ended, at the moment, in milliseconds, unless the book is down. Takes no memory.
    fn end_input(&mut self, moment: u64)
        requires going { is_shut (entries_told (Self.history self.old)) ≡ false }
        requires given { given moment ≡ true }
        ensures goes_on { GoesOn (meaning Self.Kept) 0 self.old self.new }
        ensures moments { AllAt moment (Self.history self.old) (added (Self.history self.old) (Self.history self.new)) }
        ensures timed { (gave : ℕ → Bool) → gave moment ≡ true → timed gave self.old → timed gave self.new }
        ensures same { StayAsTheyAre (items (Self.history self.old)) (items (Self.history self.new)) }
        ensures change { Self.change self.new ≡ Self.change self.old }
        ensures shut { Self.mark self.new ≡ false → is_shut (entries_told (Self.history self.new)) ≡ true };

    /// What the batcher does next at the moment, in milliseconds. Where the answer is a call, that call has begun. After an
    /// error other than `OutOfMemory` the book is down.
    fn ask(&mut self, alloc: Global, batcher: u32, moment: u64) -> Result<Next, BookError>
        requires number { batcher < MAX_LANES }
        requires rests { rests (Self.setup self.old) (Self.history self.old) batcher }
        requires given { given moment ≡ true }
        // What is added.
        ensures goes_on { GoesOn (meaning Self.Kept) (batcher + 1) self.old self.new }
        ensures moments { AllAt moment (Self.history self.old) (added (Self.history self.old) (Self.history self.new)) }
        ensures timed { (gave : ℕ → Bool) → gave moment ≡ true → timed gave self.old → timed gave self.new }
        ensures no_end { (sends : List ℕ → List ℕ) → calls (Self.setup self.old) sends (Self.history self.new) batcher
            ≡ calls (Self.setup self.old) sends (Self.history self.old) batcher }
        // What is answered.
        ensures answer { IfOk result (Answers Self.rests Self.runs (Self.setup self.old) (Self.history self.new) batcher) }
        ensures finished { IfOk result (λ answer. answer ≡ next.Finished → finished (Self.setup self.old) (Self.history self.new) batcher) }
        ensures spent { IfOk result (λ answer. answer ≡ next.Spent → spent (Self.setup self.old) (Self.history self.new)) }
        ensures rests { OnErr result (rests (Self.setup self.old) (Self.history self.new) batcher) }
        ensures down { IfErr result (λ e. (e ≡ why.OutOfMemory) ⊎ (Self.mark self.new ≡ true)) };

    /// Ends the batcher's running call with this reply, at the moment, in milliseconds, and returns how many records or
    /// messages got their fate. After an error other than `OutOfMemory` the book is down, and the end of the call is in its
    /// history all the same. After `OutOfMemory` the history is unchanged.
    fn end_call(
        &mut self,
        alloc: Global,
        batcher: u32,
        job: Job,
        reply: Reply,
        moment: u64,
    ) -> Result<u32, BookError>
        requires number { batcher < MAX_LANES }
        requires runs { runs (Self.setup self.old) (Self.history self.old) batcher job }
        requires given { given moment ≡ true }
        // What is added.
        ensures goes_on { GoesOn (meaning Self.Kept) (batcher + 1) self.old self.new }
        ensures moments { AllAt moment (Self.history self.old) (added (Self.history self.old) (Self.history self.new)) }
        ensures timed { (gave : ℕ → Bool) → gave moment ≡ true → timed gave self.old → timed gave self.new }
        ensures called { (IsErrOf result why.OutOfMemory → ⊥) → (sends : List ℕ → List ℕ) →
            calls (Self.setup self.old) sends (Self.history self.new) batcher ≡ calls (Self.setup self.old) sends (Self.history self.old) batcher
            ++ call_of (Self.setup self.old) sends job.event reply ∷ [] }
        ensures rests { (IsErrOf result why.OutOfMemory → ⊥) → rests (Self.setup self.old) (Self.history self.new) batcher }
        // When each error is returned, and what it leaves.
        ensures unchanged { IsErrOf result why.OutOfMemory → Self.history self.new ≡ Self.history self.old }
        ensures down { IfErr result (λ e. (e ≡ why.OutOfMemory) ⊎ (Self.mark self.new ≡ true)) };

    /// Whether all calls allowed were made. Takes no memory.
    fn is_spent(&self) -> bool
        ensures spent { result ≡ true → spent (Self.setup self.now) (Self.history self.now) }
        ensures going { result ≡ false → spent (Self.setup self.now) (Self.history self.now) → ⊥ };

    /// Whether nothing is left for the batchers with numbers below `batchers`, once the input has ended and none runs a
    /// call. `None` only where memory ran out.
    fn is_over(&self, batchers: u32) -> Option<bool>
        requires number { (0 < batchers) × (batchers ≤ MAX_LANES) }
        requires up { Self.mark self.now ≡ false }
        requires shut { is_shut (entries_told (Self.history self.now)) ≡ true }
        requires rests { (k : ℕ) → rests (Self.setup self.now) (Self.history self.now) k }
        ensures over { result ≡ Some true → (k : ℕ) → k < batchers → finished (Self.setup self.now) (Self.history self.now) k }
        ensures left { result ≡ Some false → (k : ℕ) × (k < batchers) × left (Self.setup self.now) (Self.history self.now) k };

    /// How far the book has come, for whoever watches the run. Nothing is promised of the numbers. Takes no memory.
    fn progress(&self) -> Progress;

    /// Before the first entry no item has arrived and no batcher has called. Does nothing.
    fn begins()
        ensures calls { (s : Setup) (sends : List ℕ → List ℕ) (k : ℕ) → calls s sends [] k ≡ [] }
        ensures rests { (s : Setup) (k : ℕ) → rests s [] k }
        ensures items { (n : ℕ) → items [] n ≡ [] };

    /// What the reader or a batcher has done and knows stays true, whatever the other seats add. Does nothing.
    fn stays()
        ensures calls { (s : Setup) (sends : List ℕ → List ℕ) (h es : List Told) (k : ℕ) → OthersFollow Self.author Self.may_follow s (k + 1) h es →
            calls s sends (h ++ es) k ≡ calls s sends h k }
        ensures rests { (s : Setup) (h es : List Told) (k : ℕ) → OthersFollow Self.author Self.may_follow s (k + 1) h es → rests s h k → rests s (h ++ es) k }
        ensures runs { (s : Setup) (h es : List Told) (k : ℕ) (job : Job) → OthersFollow Self.author Self.may_follow s (k + 1) h es →
            runs s h k job → runs s (h ++ es) k job }
        ensures finished { (s : Setup) (h es : List Told) (k : ℕ) → OthersFollow Self.author Self.may_follow s (k + 1) h es → finished s h k →
            finished s (h ++ es) k }
        ensures spent { (s : Setup) (h es : List Told) (n : ℕ) → OthersFollow Self.author Self.may_follow s n h es → spent s h → spent s (h ++ es) }
        ensures items { (s : Setup) (h es : List Told) → OthersFollow Self.author Self.may_follow s 0 h es → StayAsTheyAre (items h) (items (h ++ es)) }
        ensures shut { (s : Setup) (h es : List Told) → OthersFollow Self.author Self.may_follow s 0 h es →
            is_shut (entries_told (h ++ es)) ≡ is_shut (entries_told h) };

    /// Where a batcher has finished, nothing is left for it. Does nothing.
    fn excludes()
        ensures { (s : Setup) (h : List Told) (k : ℕ) → finished s h k → left s h k → ⊥ };
}
