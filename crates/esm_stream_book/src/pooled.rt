// A stream's book as its reader and its batchers share it.
use crate::coming::records_of;
use crate::lasting::{batchers_begin, batchers_last, finished_excludes, items_last};
use crate::stream_book::Book;
use esm_io::{Dest, Disk};
use esm_model::{BookError, CameError, Item, Job, Next, Pooled, Progress, Reply};
use std::alloc::Global;

impl<D: Disk, T: Dest> Pooled for Book<D, T> {
    ghost use Rattle.std.specs.Prelude.{true};
    ghost use Rattle.esm_stream_book.specs.Batchers.{calls_told, Rests, RunsJob};
    ghost use Rattle.esm_stream_book.specs.Finishing.{HasFinished, HasLeft, AreSpent};
    ghost use Rattle.esm_stream_book.specs.Items.{kind_told, items_told, DiffersTold};
    ghost use Rattle.esm_stream_book.specs.Moments.{IsTimedView};

    ghost calls = { calls_told };

    ghost rests = { Rests };

    ghost runs = { RunsJob };

    ghost finished = { HasFinished };

    ghost left = { HasLeft };

    ghost spent = { AreSpent };

    ghost kind = { kind_told };

    ghost items = { items_told };

    ghost differs = { DiffersTold };

    ghost given = { λ moment. true };

    ghost timed = { λ gave b. IsTimedView gave b.core };

    fn bring(&mut self, alloc: Global, list: Vec<Item>, moment: u64) -> Result<(), CameError> {
        let _before = self.trouble();
        let Ok(records) = records_of(alloc, list) else {
            return Err(CameError::OutOfMemory);
        };
        let answer = self.came(alloc, records, moment);
        let _after = self.trouble();
        answer
    }

    fn end_input(&mut self, moment: u64) {
        let _before = self.trouble();
        let _ended = self.shut(moment);
        let _after = self.trouble();
    }

    fn ask(&mut self, alloc: Global, batcher: u32, moment: u64) -> Result<Next, BookError> {
        let _before = self.trouble();
        let answer = self.next(alloc, batcher, moment);
        let _after = self.trouble();
        answer
    }

    fn end_call(
        &mut self,
        alloc: Global,
        batcher: u32,
        job: Job,
        reply: Reply,
        moment: u64,
    ) -> Result<u32, BookError> {
        let _before = self.trouble();
        let answer = self.done(alloc, job, reply, moment);
        let _after = self.trouble();
        answer
    }

    fn is_spent(&self) -> bool {
        let _trouble = self.trouble();
        Book::is_spent(self)
    }

    fn is_over(&self, batchers: u32) -> Option<bool> {
        let _trouble = self.trouble();
        Book::is_over(self, batchers)
    }

    fn progress(&self) -> Progress {
        self.durable.core().progress()
    }

    fn begins() {
        batchers_begin();
    }

    fn stays() {
        batchers_last();
        items_last();
    }

    fn excludes() {
        finished_excludes();
    }
}
