// A replay's book as its one caller uses it, one call after the other.
ghost use Rattle.std.specs.Prelude.{◌≡◌, All, IfOk};
ghost use Rattle.esm_model.specs.declared.item.Item.{Item};
ghost use Rattle.esm_replay_book.specs.Keeping.{IsSound};
ghost use Rattle.esm_replay_book.specs.Serving.{IsRecord, records_in_items, next_as};

use crate::replay_book::Replay;
use esm_io::Disk;
use esm_model::{BookError, CameError, Item, Job, Next, OutOfMemory, Record, Reply};
use esm_replay_core::ReplayNext;
use esm_serial::Serial;
use std::alloc::Global;

/// States what is true of the book, whoever made its calls. Does nothing.
fn know<D: Disk>(book: &Replay<D>)
    ensures { IsSound book.now }
{
    let _trouble = book.trouble();
}

/// The record of a stream's item.
fn record_of(item: Item) -> Record
    requires { IsRecord item }
    ensures { item ≡ Item.Stream result }
{
    match item {
        Item::Stream(found) => found,
        Item::Queue(_) => unreachable!(),
    }
}

/// The records of a stream's items.
fn records_of(alloc: Global, list: Vec<Item>) -> Result<Vec<Record>, OutOfMemory>
    requires { All IsRecord list.items }
    ensures { IfOk result (λ records. records.items ≡ records_in_items list.items) }
{
    let mut records = Vec::new(alloc);
    for item in list {
        records.push(record_of(item))?;
    }
    Ok(records)
}

/// What a caller does next, in the terms that all books share.
fn next_as(next: ReplayNext) -> Next
    ensures { result ≡ next_as next }
{
    match next {
        ReplayNext::Call(job) => Next::Call(job),
        ReplayNext::Spent => Next::Spent,
        ReplayNext::Finished => Next::Finished,
    }
}

impl<D: Disk> Serial for Replay<D> {
    ghost use Rattle.esm_replay_book.specs.Serving.{HasGoneOn, IsFresh, IsGoing, IsShut, DoesRest, RunsJob};
    ghost use Rattle.esm_replay_book.specs.Serving.{HasFinished, IsSpent, is_down, change_in, lines_in, function_in, items_in, Differs};

    ghost since = { HasGoneOn };

    ghost fresh = { IsFresh };

    ghost going = { IsGoing };

    ghost shut = { IsShut };

    ghost rests = { DoesRest };

    ghost runs = { RunsJob };

    ghost finished = { HasFinished };

    ghost spent = { IsSpent };

    ghost down = { λ b. is_down b };

    ghost change = { λ b. change_in b };

    ghost kind = { lines_in };

    ghost function = { function_in };

    ghost items = { items_in };

    ghost differs = { Differs };

    fn begins(&self) {}

    fn bring(&mut self, alloc: Global, list: Vec<Item>, moment: u64) -> Result<(), CameError> {
        let _ = moment;
        let Ok(records) = records_of(alloc, list) else {
            return Err(CameError::OutOfMemory);
        };
        let came = self.came(alloc, records);
        know(self);
        came
    }

    fn end_input(&mut self, moment: u64) {
        let _ = moment;
    }

    fn ask(&mut self, alloc: Global, moment: u64) -> Result<Next, BookError> {
        let answer = self.next(alloc, moment);
        know(self);
        match answer {
            Ok(next) => Ok(next_as(next)),
            Err(why) => Err(why),
        }
    }

    fn end_call(
        &mut self,
        alloc: Global,
        job: Job,
        reply: Reply,
        moment: u64,
    ) -> Result<u32, BookError> {
        let answer = self.done(alloc, job, reply, moment);
        know(self);
        answer
    }
}
