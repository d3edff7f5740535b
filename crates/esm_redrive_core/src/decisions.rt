// The calls and answers of a redrive's book, and how its core decides on them.
ghost use Rattle.esm_redrive_core.specs.RedriveView.{forgotten as forgotten_view};
ghost use Rattle.esm_redrive_core.specs.Told.{history_of, owed_of, opened, MayAsk, Decides, Refuses, IsChange, Notes};

use crate::redrive_core::RedriveCore;
use esm_book::{Decisions, Refusal};
use esm_model::{
    Bytes, Config, FoundDeletion, Job, MAX_LINE, Message, Next, OutOfMemory, Reply, Told,
};
use std::alloc::Global;
use std::collections::LinkedList;

/// What a core was opened with. Only contracts use it: no value is made.
pub struct RedriveOpened {
    pub config: Config,
    pub calls: u32,
    pub visibility_ms: u64,
    pub max_receives: u32,
    pub deletions: LinkedList<FoundDeletion>,
    pub dead_ids: LinkedList<Bytes>,
}

/// An entry, with the messages that it covers, its payload in the journal, and its line in the dead-letter file. Only
/// contracts use it: no value is made.
pub struct RedriveEntry {
    pub told: Told,
    pub payload: Option<Bytes>,
    pub line: Option<Bytes>,
}

/// A call of a redrive's book. Moments are in milliseconds since 1970.
#[derive(Drop)]
pub enum RedriveCall {
    /// Messages arrive.
    Came(Vec<Message>, u64),
    /// The input ended.
    Shut(u64),
    /// The batcher asks what to do next.
    Next(u64),
    /// The job's call of the function ended with this reply.
    Done(Job, Reply, u64),
}

/// The answer of a call.
#[derive(Drop)]
pub enum RedriveAnswer {
    Taken,
    Next(Next),
    /// This many messages are deleted.
    Deleted(u32),
}

impl Decisions for RedriveCore {
    type Origin = RedriveOpened;

    type Entry = RedriveEntry;

    type Call = RedriveCall;

    type Answer = RedriveAnswer;

    ghost origin = { opened };

    ghost history = { history_of };

    ghost owed = { owed_of };

    ghost payable = { λ v. Unit {0} };

    ghost payload = { λ e. e.payload };

    ghost line = { λ e. e.line };

    ghost may_ask = { MayAsk };

    ghost decides = { Decides };

    ghost refuses = { Refuses };

    ghost is_change = { IsChange };

    ghost notes = { Notes };

    ghost forgotten = { forgotten_view };

    fn decide(&mut self, alloc: Global, call: RedriveCall) -> Result<RedriveAnswer, Refusal> {
        self.keeps();
        match call {
            RedriveCall::Came(items, moment) => {
                self.came(alloc, items, moment)?;
                Ok(RedriveAnswer::Taken)
            }
            RedriveCall::Shut(_) => Err(Refusal::OutOfMemory),
            RedriveCall::Next(moment) => Ok(RedriveAnswer::Next(self.next(alloc, moment)?)),
            RedriveCall::Done(job, reply, moment) => {
                let count = self.done(alloc, job, reply, moment)?;
                Ok(RedriveAnswer::Deleted(count))
            }
        }
    }

    fn forget(&mut self) {
        self.forget();
    }

    fn owed_lengths(&self, alloc: Global) -> Result<Vec<u32>, OutOfMemory> {
        self.owed_lengths(alloc)
    }

    /// A line is owed if a message is moved; it is at most `MAX_LINE` bytes long.
    fn owed_line_bound(&self) -> Option<u64> {
        if self.owes_line() {
            Some(MAX_LINE as u64)
        } else {
            None
        }
    }

    fn owed_count(&self) -> usize {
        self.owed_count()
    }

    fn first_payload(&self) -> Option<&[u8]> {
        self.first_payload()
    }

    fn first_line(&self) -> Option<&[u8]> {
        self.first_line()
    }

    fn pay(&mut self) {
        self.pay();
    }

    fn note(&mut self, call: RedriveCall) {
        match call {
            RedriveCall::Came(_, _) | RedriveCall::Next(_) => {}
            RedriveCall::Shut(moment) => self.shut(moment),
            RedriveCall::Done(job, reply, moment) => self.note_ended(job, reply, moment),
        }
    }
}
