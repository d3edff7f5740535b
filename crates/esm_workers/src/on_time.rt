// A book whose calls are made only at moments that a clock gave.
ghost use Rattle.std.specs.Prelude.{◌≡◌, ℕ, true};

use esm_io::Clock;
use esm_model::{BookError, CameError, Item, Job, Kept, Next, Pooled, Progress, Reply};
use std::alloc::Global;
use std::marker::{Model, PhantomData};
use std::snapshot::Snapshot;

/// A book that is called only at moments that a clock of the kind `C` gave. It does the same as the book itself, and
/// contracts see that book. Through whichever threads it went, the book that `into_book` returns is known to be timed: the
/// clock gave such a moment for each entry that it added, and for each entry that it could not add because a device failed.
#[derive(Drop)]
pub struct OnTime<B: Pooled, C: Clock> {
    book: B,
    // it has no clock, so it may move to another thread whenever the book may
    clock: PhantomData<Snapshot<C>>,
}

impl<B: Pooled, C: Clock> Model for OnTime<B, C> {
    ghost Value = { B };

    ghost coded = { B.code };

    ghost view = { λ a. a.book };

    ghost invariant = { λ a. B.timed C.gave a.book × ((m : ℕ) → C.gave m ≡ true → B.given m ≡ true) };
}

impl<B: Pooled, C: Clock> OnTime<B, C> {
    /// Takes this book, which from now on is called only at moments that a clock of the kind gave.
    pub fn new(book: B) -> OnTime<B, C>
        requires given { (m : ℕ) → C.gave m ≡ true → B.given m ≡ true }
        requires timed { B.timed C.gave book }
        ensures { result ≡ book }
    {
        OnTime {
            book,
            clock: PhantomData,
        }
    }

    /// Returns the book itself.
    pub fn into_book(self) -> B
        ensures book { result ≡ self }
        ensures timed { B.timed C.gave result }
    {
        let OnTime { book, clock: _ } = self;
        book
    }
}

impl<B: Pooled, C: Clock> Kept for OnTime<B, C> {
    ghost setup = { B.setup };

    ghost history = { B.history };

    ghost mark = { B.mark };

    ghost change = { B.change };

    ghost author = { B.author };

    ghost may_follow = { B.may_follow };

    fn entries(&self) -> u64 {
        self.book.entries()
    }

    fn marked(&self) -> bool {
        self.book.marked()
    }
}

impl<B: Pooled, C: Clock> Pooled for OnTime<B, C> {
    ghost calls = { B.calls };

    ghost rests = { B.rests };

    ghost runs = { B.runs };

    ghost finished = { B.finished };

    ghost left = { B.left };

    ghost spent = { B.spent };

    ghost kind = { B.kind };

    ghost items = { B.items };

    ghost differs = { B.differs };

    ghost given = { C.gave };

    ghost timed = { B.timed };

    fn bring(&mut self, alloc: Global, list: Vec<Item>, moment: u64) -> Result<(), CameError> {
        self.book.bring(alloc, list, moment)
    }

    fn end_input(&mut self, moment: u64) {
        self.book.end_input(moment);
    }

    fn ask(&mut self, alloc: Global, batcher: u32, moment: u64) -> Result<Next, BookError> {
        self.book.ask(alloc, batcher, moment)
    }

    fn end_call(
        &mut self,
        alloc: Global,
        batcher: u32,
        job: Job,
        reply: Reply,
        moment: u64,
    ) -> Result<u32, BookError> {
        self.book.end_call(alloc, batcher, job, reply, moment)
    }

    fn is_spent(&self) -> bool {
        self.book.is_spent()
    }

    fn is_over(&self, batchers: u32) -> Option<bool> {
        self.book.is_over(batchers)
    }

    fn progress(&self) -> Progress {
        self.book.progress()
    }

    fn begins() {
        B::begins();
    }

    fn stays() {
        B::stays();
    }

    fn excludes() {
        B::excludes();
    }
}
