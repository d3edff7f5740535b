// A redrive's book as its one caller uses it.
ghost use Rattle.std.specs.Prelude.{◌≡◌, All, IfOk};
ghost use Rattle.esm_model.specs.declared.item.Item.{Item};
ghost use Rattle.esm_queue_book.specs.Coming.{IsMessage, messages_in_items};
ghost use Rattle.esm_redrive_core.specs.Ahead.{IsConsistent};
ghost use Rattle.esm_redrive_book.specs.Keeping.{IsSound};

use crate::laws::moments_hold;
use esm_io::Disk;
use esm_journal::FileDest;
use esm_model::{BookError, CameError, Item, Job, Message, Next, OutOfMemory, Reply};
use esm_redrive::laws::due_by_queue;
use esm_redrive_book::Redrive;
use esm_serial::Serial;
use std::alloc::Global;

/// The book of a redrive over a dead-letter file.
#[derive(Drop)]
pub(crate) struct SerialRedrive<D: Disk> {
    pub(crate) redrive: Redrive<D, FileDest<D>>,
}

/// States what is true of the book, whoever made its calls. Does nothing.
fn know<D: Disk>(book: &SerialRedrive<D>)
    ensures sound { IsSound book.now.redrive }
    ensures consistent { IsConsistent book.now.redrive.core }
{
    let _trouble = book.redrive.trouble();
}

/// The message of a queue's item.
fn message_of(item: Item) -> Message
    requires { IsMessage item }
    ensures { item ≡ Item.Queue result }
{
    match item {
        Item::Stream(_) => unreachable!(),
        Item::Queue(found) => found,
    }
}

/// The messages of a queue's items.
fn messages_of(alloc: Global, list: Vec<Item>) -> Result<Vec<Message>, OutOfMemory>
    requires { All IsMessage list.items }
    ensures { IfOk result (λ messages. messages.items ≡ messages_in_items list.items) }
{
    let mut messages = Vec::new(alloc);
    for item in list {
        messages.push(message_of(item))?;
    }
    Ok(messages)
}

impl<D: Disk> Serial for SerialRedrive<D> {
    ghost use Rattle.std.specs.Prelude.{is_some};
    ghost use Rattle.esm_model.specs.Kept.{change_of};
    ghost use Rattle.esm_redrive_run.specs.Book.{HasGoneOn, IsFresh, IsGoing, IsShut, DoesRest, RunsJob, HasFinished, IsSpent, lines_in, items_in, Differs};

    ghost since = { λ gave sends first now calls. HasGoneOn gave sends first.redrive now.redrive calls };

    ghost fresh = { λ b. IsFresh b.redrive };

    ghost going = { λ b. IsGoing b.redrive };

    ghost shut = { λ b. IsShut b.redrive };

    ghost rests = { λ b. DoesRest b.redrive };

    ghost runs = { λ b job. RunsJob b.redrive job };

    ghost finished = { λ b. HasFinished b.redrive };

    ghost spent = { λ b. IsSpent b.redrive };

    ghost down = { λ b. is_some b.redrive.trouble };

    ghost change = { λ b. change_of b.redrive.trouble };

    ghost kind = { λ b. lines_in b.redrive };

    ghost function = { λ b. b.redrive.core.setting.queue.config.function };

    ghost items = { λ b n. items_in b.redrive n };

    ghost differs = { λ b list change. Differs b.redrive list change };

    fn begins(&self) {}

    fn bring(&mut self, alloc: Global, list: Vec<Item>, moment: u64) -> Result<(), CameError> {
        moments_hold::<D>();
        know(self);
        let Ok(messages) = messages_of(alloc, list) else {
            return Err(CameError::OutOfMemory);
        };
        let came = self.redrive.came(alloc, messages, moment);
        know(self);
        came
    }

    fn end_input(&mut self, moment: u64) {
        moments_hold::<D>();
        know(self);
        let _ended = self.redrive.shut(moment);
        know(self);
    }

    fn ask(&mut self, alloc: Global, moment: u64) -> Result<Next, BookError> {
        moments_hold::<D>();
        due_by_queue();
        know(self);
        let answer = self.redrive.next(alloc, moment);
        know(self);
        answer
    }

    fn end_call(
        &mut self,
        alloc: Global,
        job: Job,
        reply: Reply,
        moment: u64,
    ) -> Result<u32, BookError> {
        moments_hold::<D>();
        know(self);
        let answer = self.redrive.done(alloc, job, reply, moment);
        know(self);
        answer
    }
}
