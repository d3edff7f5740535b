// The calls and answers of a queue's book, and how its core decides on them.
ghost use Rattle.esm_queue_core.specs.CoreView.{forgotten as forgotten_view};
ghost use Rattle.esm_queue_core.specs.Told.{history_of, owed_of, no_line, opened, MayAsk, Decides, Refuses, IsChange, Notes};

use crate::queue_core::QueueCore;
use esm_book::{Decisions, Refusal};
use esm_model::{Bytes, Config, FoundDeletion, Job, Message, Next, OutOfMemory, Reply, Told};
use std::alloc::Global;
use std::collections::LinkedList;

/// What a core was opened with. Only contracts speak of it: no value is made.
pub struct Opened {
    pub config: Config,
    pub calls: u32,
    pub visibility_ms: u64,
    pub deletions: LinkedList<FoundDeletion>,
}

/// An entry, with the messages that it covers, and what the journal has of it. Only contracts speak of it: no value is made.
pub struct QueueEntry {
    pub told: Told,
    pub payload: Option<Bytes>,
}

/// A call of a queue's book. Moments are in milliseconds since 1970.
#[derive(Drop)]
pub enum QueueCall {
    /// Messages come.
    Came(Vec<Message>, u64),
    /// The input ended.
    Shut(u64),
    /// The batcher with this number asks what it does next.
    Next(u32, u64),
    /// The job's call of the function ended with this reply.
    Done(Job, Reply, u64),
}

/// The answer to a call.
#[derive(Drop)]
pub enum QueueAnswer {
    Taken,
    Next(Next),
    /// How many messages are deleted.
    Deleted(u32),
}

impl Decisions for QueueCore {
    type Origin = Opened;

    type Entry = QueueEntry;

    type Call = QueueCall;

    type Answer = QueueAnswer;

    ghost origin = { opened };

    ghost history = { history_of };

    ghost owed = { owed_of };

    ghost payable = { λ v. Unit {0} };

    ghost payload = { λ e. e.payload };

    ghost line = { no_line };

    ghost may_ask = { MayAsk };

    ghost decides = { Decides };

    ghost refuses = { Refuses };

    ghost is_change = { IsChange };

    ghost notes = { Notes };

    ghost forgotten = { forgotten_view };

    fn decide(&mut self, alloc: Global, call: QueueCall) -> Result<QueueAnswer, Refusal> {
        match call {
            QueueCall::Came(items, moment) => {
                self.came(alloc, items, moment)?;
                Ok(QueueAnswer::Taken)
            }
            QueueCall::Shut(_) => Err(Refusal::OutOfMemory),
            QueueCall::Next(batcher, moment) => Ok(QueueAnswer::Next(self.next(
                alloc, batcher, moment,
            )?)),
            QueueCall::Done(job, reply, moment) => {
                let count = self.done(alloc, job, reply, moment)?;
                Ok(QueueAnswer::Deleted(count))
            }
        }
    }

    fn forget(&mut self) {
        self.forget();
    }

    fn owed_lengths(&self, alloc: Global) -> Result<Vec<u32>, OutOfMemory> {
        self.owed_lengths(alloc)
    }

    fn owed_line_bound(&self) -> Option<u64> {
        None
    }

    fn owed_count(&self) -> usize {
        self.owed_count()
    }

    fn first_payload(&self) -> Option<&[u8]> {
        self.first_payload()
    }

    fn first_line(&self) -> Option<&[u8]> {
        None
    }

    fn pay(&mut self) {
        self.pay();
    }

    fn note(&mut self, call: QueueCall) {
        match call {
            QueueCall::Came(_, _) | QueueCall::Next(_, _) => {}
            QueueCall::Shut(moment) => self.shut(moment),
            QueueCall::Done(job, reply, moment) => self.note_ended(job, reply, moment),
        }
    }
}
