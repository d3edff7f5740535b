// A queue's book as its reader and its batchers share it at a turn.
ghost use Rattle.std.specs.Prelude.{◌≡◌, true, false, All, IfOk};
ghost use Rattle.esm_model.specs.Kept.{IsLegal};
ghost use Rattle.esm_model.specs.Valid.{is_stream};
ghost use Rattle.esm_model.specs.declared.setup.Setup.{Setup};
ghost use Rattle.esm_model.specs.declared.item.Item.{Item};
ghost use Rattle.esm_queue_model.specs.QueueBooks.{queue_may_follow};
ghost use Rattle.esm_queue_core.specs.Told.{told_of};
ghost use Rattle.esm_queue_book.specs.Coming.{IsMessage, messages_in_items};
ghost use Rattle.esm_queue_book.specs.Keeping.{IsSound, IsSetupOf};

use crate::lasting::{
    queue_batchers_begin, queue_batchers_last, queue_items_last, queue_over_or_left,
};
use crate::queue_book::QueueBook;
use esm_io::Disk;
use esm_model::{
    BookError, CameError, Item, Job, Message, Next, OutOfMemory, Pooled, Progress, Reply,
};
use std::alloc::Global;

/// What holds of the book's history, whoever made its calls. Does nothing.
fn know<D: Disk>(book: &QueueBook<D>)
    ensures sound { IsSound book.now }
    ensures legal { (setup : Setup) → IsSetupOf setup book.now → IsLegal (queue_may_follow setup) (told_of book.now.core) }
    ensures queue { is_stream book.now.core.setting.config.kind ≡ false }
{
    let _trouble = book.trouble();
    book.durable.core().keeps();
}

/// The message of a queue's item.
fn message_of(item: Item) -> Message
    requires { IsMessage item }
    ensures { item ≡ Item.Queue result }
{
    match item {
        Item::Stream(_) => unreachable!(),
        Item::Queue(found) => found,
    }
}

/// The messages of a queue's items.
fn messages_of(alloc: Global, list: Vec<Item>) -> Result<Vec<Message>, OutOfMemory>
    requires { All IsMessage list.items }
    ensures { IfOk result (λ messages. messages.items ≡ messages_in_items list.items) }
{
    let mut messages = Vec::new(alloc);
    for item in list {
        messages.push(message_of(item))?;
    }
    Ok(messages)
}

impl<D: Disk> Pooled for QueueBook<D> {
    ghost use Rattle.esm_queue_book.specs.Batchers.{queue_calls_told, QueueRests, RunsQueueJob};
    ghost use Rattle.esm_queue_book.specs.Left.{QueueFinished, QueueLeft, QueueSpent, queue_lines, queue_items};
    ghost use Rattle.esm_queue_book.specs.Coming.{QueueDiffers};
    ghost use Rattle.esm_queue_book.specs.Moments.{IsTimedView};

    ghost calls = { queue_calls_told };

    ghost rests = { QueueRests };

    ghost runs = { RunsQueueJob };

    ghost finished = { QueueFinished };

    ghost left = { QueueLeft };

    ghost spent = { QueueSpent };

    ghost kind = { queue_lines };

    ghost items = { queue_items };

    ghost differs = { QueueDiffers };

    ghost given = { λ _. true };

    ghost timed = { λ gave b. IsTimedView gave b.core };

    fn bring(&mut self, alloc: Global, list: Vec<Item>, moment: u64) -> Result<(), CameError> {
        know(self);
        let Ok(messages) = messages_of(alloc, list) else {
            return Err(CameError::OutOfMemory);
        };
        let came = self.came(alloc, messages, moment);
        know(self);
        came
    }

    fn end_input(&mut self, moment: u64) {
        know(self);
        let _ended = self.shut(moment);
        know(self);
    }

    fn ask(&mut self, alloc: Global, batcher: u32, moment: u64) -> Result<Next, BookError> {
        know(self);
        let answer = self.next(alloc, batcher, moment);
        know(self);
        answer
    }

    fn end_call(
        &mut self,
        alloc: Global,
        _batcher: u32,
        job: Job,
        reply: Reply,
        moment: u64,
    ) -> Result<u32, BookError> {
        know(self);
        let answer = self.done(alloc, job, reply, moment);
        know(self);
        answer
    }

    fn is_spent(&self) -> bool {
        QueueBook::is_spent(self)
    }

    fn is_over(&self, _batchers: u32) -> Option<bool> {
        know(self);
        Some(QueueBook::is_over(self))
    }

    fn progress(&self) -> Progress {
        let counted = self.durable.core().progress();
        Progress {
            came: counted.came,
            settled: counted.settled,
            in_calls: self.in_calls,
        }
    }

    fn begins() {
        queue_batchers_begin();
    }

    fn stays() {
        queue_batchers_last();
        queue_items_last();
    }

    fn excludes() {
        queue_over_or_left();
    }
}
