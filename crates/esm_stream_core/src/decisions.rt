// The calls, answers and entries of a stream's book, and its core as what decides them.
ghost use Rattle.esm_stream_core.specs.CoreView.{forgotten as forgotten_view};
ghost use Rattle.esm_stream_core.specs.Told.{history_of, owed_of, opened, IsPayable, MayAsk, Decides, Refuses, IsChange, Notes};

use crate::stream_core::StreamCore;
use esm_book::{Decisions, Refusal};
use esm_model::{
    Bytes, Config, FoundFate, FoundState, FoundTries, FoundWindowTries, Job, Next, OutOfMemory,
    Record, Reply, Text, Told,
};
use std::alloc::Global;
use std::collections::LinkedList;

/// What a core was opened with. Only contracts speak of it: no value is made.
pub struct Opened {
    pub config: Config,
    pub calls: u32,
    pub fates: LinkedList<FoundFate>,
    pub tries: LinkedList<FoundTries>,
    pub states: LinkedList<FoundState>,
    pub window_tries: LinkedList<FoundWindowTries>,
}

/// An entry, with the records that it covers, and what the journal and the destination have of it. Only contracts speak of
/// it: no value is made.
pub struct StreamEntry {
    pub told: Told,
    pub payload: Option<Bytes>,
    pub line: Option<Text>,
}

/// A call of a stream's book. Moments are in milliseconds since 1970.
#[derive(Drop)]
pub enum StreamCall {
    /// Records come.
    Came(Vec<Record>, u64),
    /// The input ended.
    Shut(u64),
    /// The batcher with this number asks what it does next.
    Next(u32, u64),
    /// The job's call of the function ended with this reply.
    Done(Job, Reply, u64),
}

/// The answer to a call.
#[derive(Drop)]
pub enum StreamAnswer {
    Taken,
    Next(Next),
    /// How many records get a fate.
    Given(u32),
}

impl Decisions for StreamCore {
    type Origin = Opened;

    type Entry = StreamEntry;

    type Call = StreamCall;

    type Answer = StreamAnswer;

    ghost origin = { opened };

    ghost history = { history_of };

    ghost owed = { owed_of };

    ghost payable = { IsPayable };

    ghost payload = { λ e. e.payload };

    ghost line = { λ e. e.line };

    ghost may_ask = { MayAsk };

    ghost decides = { Decides };

    ghost refuses = { Refuses };

    ghost is_change = { IsChange };

    ghost notes = { Notes };

    ghost forgotten = { forgotten_view };

    fn decide(&mut self, alloc: Global, call: StreamCall) -> Result<StreamAnswer, Refusal> {
        match call {
            StreamCall::Came(items, moment) => {
                self.came(alloc, items, moment)?;
                Ok(StreamAnswer::Taken)
            }
            StreamCall::Shut(_) => Err(Refusal::OutOfMemory),
            StreamCall::Next(batcher, moment) => Ok(StreamAnswer::Next(self.next(
                alloc, batcher, moment,
            )?)),
            StreamCall::Done(job, reply, moment) => {
                let count = self.done(alloc, job, reply, moment)?;
                Ok(StreamAnswer::Given(count))
            }
        }
    }

    fn forget(&mut self) {
        self.forget();
    }

    fn owed_lengths(&self, alloc: Global) -> Result<Vec<u32>, OutOfMemory> {
        self.owed_lengths(alloc)
    }

    fn owed_line_bound(&self) -> Option<u64> {
        self.owed_line_bound()
    }

    fn owed_count(&self) -> usize {
        self.owed_count()
    }

    fn first_payload(&self) -> Option<&[u8]> {
        self.first_payload()
    }

    fn first_line(&self) -> Option<&[u8]> {
        self.first_line()
    }

    fn pay(&mut self) {
        self.pay();
    }

    fn note(&mut self, call: StreamCall) {
        match call {
            StreamCall::Came(_, _) | StreamCall::Next(_, _) => {}
            StreamCall::Shut(moment) => self.shut(moment),
            StreamCall::Done(job, reply, moment) => self.note_ended(job, reply, moment),
        }
    }
}
