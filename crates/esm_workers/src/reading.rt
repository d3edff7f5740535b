// The trait of a reader: it reads an input and passes its items to a book, at the reader's seat.
ghost use Rattle.std.specs.Prelude.{◌≡◌, [], ℕ, List, Bool, true, false, OnOk, OnErr, Option, None};
ghost use Rattle.std.specs.Thread.{IsSync};
ghost use Rattle.esm_model.specs.Books.{entries_told};
ghost use Rattle.esm_model.specs.Entries.{is_shut};
ghost use Rattle.esm_model.specs.declared.book.Change.{Change};
ghost use Rattle.esm_model.specs.declared.setup.Setup.{Setup};
ghost use Rattle.esm_model.specs.declared.setup.Told.{Told};
ghost use Rattle.esm_workers.specs.Seated.{IsSeated};

use esm_io::Clock;
use esm_model::{OutOfMemory, Pooled};
use esm_turn::{Seat, Turn};
use std::alloc::Global;
use std::sync::Wait;
use std::thread::Threads;

/// A reader: it reads an input, passes its items to a book at a turn, and notes the end of the input. This is the work of
/// seat 0.
pub trait Reading<T: Pooled> {
    // it may begin over a book of this setup
    ghost ready: { Setup → Self → Type 0 };

    // what it did over a book of this setup: the reader before and after, what its seat has seen, whether it has seen the
    // mark, the change as it saw it last, and whether memory ran out
    ghost read: { Setup → Self → Self → List Told → Bool → Option Change → Bool → Type 0 };

    /// Reads to the input's end, or until the book is down, all calls allowed were made while more is awaited of an input
    /// that does not show its bytes, or memory runs out. In any case it notes the end of the input, unless the book is down.
    /// `OutOfMemory` if an allocation failed.
    fn read_all<R: Threads + Wait + Sync, C: Clock>(
        &mut self,
        rt: &R,
        alloc: Global,
        turn: &Turn<T>,
        seat: &mut Seat<T>,
        clock: &C,
    ) -> Result<(), OutOfMemory>
        requires sync { IsSync R.row }
        requires ready { ready turn.now.setup self.old }
        requires seated { IsSeated T.author T.may_follow C.gave turn.now 0 seat.old }
        requires unused { seat.old.mine ≡ [] }
        requires told { seat.old.change ≡ None }
        requires given { (m : ℕ) → C.gave m ≡ true → T.given m ≡ true }
        ensures seated { IsSeated T.author T.may_follow C.gave turn.now 0 seat.new }
        ensures read { OnOk result (read turn.now.setup self.old self.new seat.new.seen seat.new.mark seat.new.change false) }
        ensures stopped { OnErr result (read turn.now.setup self.old self.new seat.new.seen seat.new.mark seat.new.change true) }
        ensures shut { seat.new.mark ≡ false → is_shut (entries_told seat.new.seen) ≡ true };
}
