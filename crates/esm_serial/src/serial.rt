// The trait of a book that is read first and then called for by one caller: items arrive and their input ends; then the
// caller asks what is next and ends its call, again and again.
ghost use Rattle.std.specs.Prelude.{◌≡◌, ◌⊎◌, ◌≤◌, ℕ, List, [], None, Ok, true, false, Bool, Option, length, All, IfOk, IfErr, OnOk, OnErr, IsErrOf};
ghost use Rattle.esm_model.specs.declared.book.BookError.TheVariants as why;
ghost use Rattle.esm_model.specs.declared.book.CameError.TheVariants as refusal;
ghost use Rattle.esm_model.specs.declared.book.Change.{Change};
ghost use Rattle.esm_model.specs.declared.book.Job.{Job};
ghost use Rattle.esm_model.specs.declared.book.Next.TheVariants as next;
ghost use Rattle.esm_model.specs.declared.called.Called.{Called};
ghost use Rattle.esm_model.specs.declared.limits.TheConstants.{MAX_BATCH};
ghost use Rattle.esm_model.specs.declared.item.Item.{Item};
ghost use Rattle.esm_model.specs.declared.item.LineKind.{LineKind};
ghost use Rattle.esm_model.specs.Items.{IsValidItem};
ghost use Rattle.esm_model.specs.Coming.{Come, SomeCome, StayAsTheyAre, FitBehind};
ghost use Rattle.esm_model.specs.GoingOn.{change_told};
ghost use Rattle.esm_serial.specs.Adding.{AddsNoCall, AddsCall, IsAnswered};

use esm_model::{BookError, CameError, Item, Job, Next, Reply};
use std::alloc::Global;

/// A book to which all items come before its first call, and whose calls one caller makes, one after the other.
pub trait Serial {
    // the book went from the first to the second, and these calls ended meanwhile (oldest first), as a caller logs them that
    // sends these bytes for an event; the clock gave each moment that was noted
    ghost since: { (ℕ → Bool) → (List ℕ → List ℕ) → Self → Self → List Called → Type 0 };

    // it is as it was opened: no item arrived, and no call began
    ghost fresh: { Self → Type 0 };

    // more items may come
    ghost going: { Self → Type 0 };

    // its input ended
    ghost shut: { Self → Type 0 };

    // no call runs
    ghost rests: { Self → Type 0 };

    // this is the job of the call that runs
    ghost runs: { Self → Job → Type 0 };

    // its input ended, and nothing is left
    ghost finished: { Self → Type 0 };

    // all calls allowed were made, and something is left
    ghost spent: { Self → Type 0 };

    // whether it is down: no method of it does any more work
    ghost down: { Self → Bool };

    // the change for which it is down, if it is down for one
    ghost change: { Self → Option Change };

    // the kind of lines of its input
    ghost kind: { Self → LineKind };

    // the function of its mapping
    ghost function: { Self → List ℕ };

    // the items of the shard that arrived, in their order; a queue is shard 0
    ghost items: { Self → ℕ → List Item };

    // an item of a list that is to come differs from what the journal kept of it, and this is the first such change
    ghost differs: { Self → List Item → Change → Type 0 };

    /// States what holds of a book as it was opened. Does nothing.
    fn begins(&self)
        requires fresh { fresh self.now }
        ensures since { (gave : ℕ → Bool) (sends : List ℕ → List ℕ) → since gave sends self.now self.now [] }
        ensures going { going self.now }
        ensures items { (n : ℕ) → items self.now n ≡ [] }
        ensures up { down self.now ≡ false }
        ensures change { change self.now ≡ None };

    /// Takes items that arrived at the moment, in milliseconds. If an item of the list differs from what the journal kept of
    /// it, the whole list is refused. After an error other than `OutOfMemory` the book is down; a prefix of the items may
    /// have been taken.
    fn bring(&mut self, alloc: Global, list: Vec<Item>, moment: u64) -> Result<(), CameError>
        requires going { going self.old }
        requires few { length list.items ≤ MAX_BATCH }
        requires valid { All (IsValidItem (kind self.old)) list.items }
        requires within { FitBehind (items self.old) list.items }
        // What is added.
        ensures since { AddsNoCall since moment self.old self.new }
        ensures going { going self.new }
        ensures came { OnOk result (Come (items self.old) (items self.new) list.items) }
        ensures some { SomeCome (items self.old) (items self.new) list.items }
        ensures kind { kind self.new ≡ kind self.old }
        ensures function { function self.new ≡ function self.old }
        // When an error is returned, and what it says.
        ensures up { OnOk result (down self.new ≡ false) }
        ensures down { IfErr result (λ e. (e ≡ refusal.OutOfMemory) ⊎ (down self.new ≡ true)) }
        ensures changed { (change : Change) → IsErrOf result (refusal.StreamChanged change) → differs self.old list.items change }
        ensures refused { (change : Change) → IsErrOf result (refusal.StreamChanged change) → StayAsTheyAre (items self.old) (items self.new) }
        ensures tells { change self.new ≡ change_told (change self.old) result };

    /// Notes that the input ended at the moment, in milliseconds, unless the book is down. Takes no memory.
    fn end_input(&mut self, moment: u64)
        requires going { going self.old }
        ensures since { AddsNoCall since moment self.old self.new }
        ensures rests { rests self.new }
        ensures shut { down self.new ≡ false → shut self.new }
        ensures down { down self.new ≡ down self.old }
        ensures items { StayAsTheyAre (items self.old) (items self.new) }
        ensures change { change self.new ≡ change self.old }
        ensures function { function self.new ≡ function self.old };

    /// Returns what the caller does next at the moment, in milliseconds; a call that is returned has begun. After an error
    /// other than `OutOfMemory` the book is down.
    fn ask(&mut self, alloc: Global, moment: u64) -> Result<Next, BookError>
        requires rests { rests self.old }
        // What is added.
        ensures since { AddsNoCall since moment self.old self.new }
        ensures items { StayAsTheyAre (items self.old) (items self.new) }
        ensures change { change self.new ≡ change self.old }
        ensures function { function self.new ≡ function self.old }
        ensures shut { shut self.old → shut self.new }
        // What is returned.
        ensures answer { IfOk result (IsAnswered rests runs self.new) }
        ensures finished { result ≡ Ok next.Finished → finished self.new }
        ensures spent { result ≡ Ok next.Spent → spent self.new }
        ensures rests { OnErr result (rests self.new) }
        ensures up { OnOk result (down self.new ≡ false) }
        ensures down { IfErr result (λ e. (e ≡ why.OutOfMemory) ⊎ (down self.new ≡ true)) };

    /// Notes that the call that runs ended with this reply at the moment, in milliseconds. After an error other than
    /// `OutOfMemory` the book is down, but the end is noted.
    fn end_call(
        &mut self,
        alloc: Global,
        job: Job,
        reply: Reply,
        moment: u64,
    ) -> Result<u32, BookError>
        requires runs { runs self.old job }
        // What is added.
        ensures called { (IsErrOf result why.OutOfMemory → ⊥) → AddsCall since moment self.old self.new (function self.old) job.event reply }
        ensures rests { (IsErrOf result why.OutOfMemory → ⊥) → rests self.new }
        ensures items { StayAsTheyAre (items self.old) (items self.new) }
        ensures change { change self.new ≡ change self.old }
        ensures function { function self.new ≡ function self.old }
        ensures shut { shut self.old → shut self.new }
        // When an error is returned, and what it leaves.
        ensures no_end { IsErrOf result why.OutOfMemory → AddsNoCall since moment self.old self.new }
        ensures runs { IsErrOf result why.OutOfMemory → runs self.new job }
        ensures down { IfErr result (λ e. (e ≡ why.OutOfMemory) ⊎ (down self.new ≡ true)) };
}
