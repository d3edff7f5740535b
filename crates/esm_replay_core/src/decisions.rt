// The calls and answers of a replay, and how its core decides on them.
ghost use Rattle.esm_replay_core.specs.View.{forgotten as forgotten_view};
ghost use Rattle.esm_replay_core.specs.Told.{history_of, owed_of, payload_in, no_line, IsPayable, MayAsk, Decides, Refuses, IsChange, Notes};

use crate::replay_core::ReplayCore;
use esm_book::{Decisions, Refusal};
use esm_journal_state::Says;
use esm_model::{Bytes, Config, Entry, Job, OutOfMemory, Record, Reply};
use esm_replay::Ranges;
use std::alloc::Global;

/// What a core was opened with. Only contracts use it: no value is made.
pub struct Opened {
    pub config: Config,
    pub calls: u32,
    pub said: Says,
    pub ranges: Ranges,
}

/// A record that arrived, or an entry with the payload that the journal has for it. Only contracts use it: no value is
/// made.
pub enum ReplayEntry {
    Came(Record),
    Added(Entry, Option<Bytes>),
}

/// A call of a replay. Moments are in milliseconds since 1970.
#[derive(Drop)]
pub enum ReplayCall {
    /// Records arrive.
    Came(Vec<Record>),
    /// The caller asks what to do next.
    Next(u64),
    /// The job's call of the function ended with this reply.
    Done(Job, Reply, u64),
}

/// What the caller of a replay is to do.
#[derive(Drop, Debug)]
pub enum ReplayNext {
    /// Call the function.
    Call(Job),
    /// Stop: all calls allowed were made, and something is left.
    Spent,
    /// Stop: nothing is left.
    Finished,
}

/// The answer of a call.
#[derive(Drop)]
pub enum ReplayAnswer {
    Taken,
    Next(ReplayNext),
    /// This many records are replayed.
    Replayed(u32),
}

impl Decisions for ReplayCore {
    type Origin = Opened;

    type Entry = ReplayEntry;

    type Call = ReplayCall;

    type Answer = ReplayAnswer;

    ghost origin = { λ v. v.opened };

    ghost history = { history_of };

    ghost owed = { owed_of };

    ghost payable = { IsPayable };

    ghost payload = { payload_in };

    ghost line = { no_line };

    ghost may_ask = { MayAsk };

    ghost decides = { Decides };

    ghost refuses = { Refuses };

    ghost is_change = { IsChange };

    ghost notes = { Notes };

    ghost forgotten = { forgotten_view };

    fn decide(&mut self, alloc: Global, call: ReplayCall) -> Result<ReplayAnswer, Refusal> {
        match call {
            ReplayCall::Came(items) => {
                self.came(alloc, items)?;
                Ok(ReplayAnswer::Taken)
            }
            ReplayCall::Next(moment) => Ok(ReplayAnswer::Next(self.next(alloc, moment)?)),
            ReplayCall::Done(job, reply, moment) => {
                let count = self.done(alloc, job, reply, moment)?;
                Ok(ReplayAnswer::Replayed(count))
            }
        }
    }

    fn forget(&mut self) {
        self.forget();
    }

    fn owed_lengths(&self, alloc: Global) -> Result<Vec<u32>, OutOfMemory> {
        self.owed_lengths(alloc)
    }

    fn owed_line_bound(&self) -> Option<u64> {
        None
    }

    fn owed_count(&self) -> usize {
        self.owed_count()
    }

    fn first_payload(&self) -> Option<&[u8]> {
        self.first_payload()
    }

    fn first_line(&self) -> Option<&[u8]> {
        None
    }

    fn pay(&mut self) {
        self.pay();
    }

    fn note(&mut self, call: ReplayCall) {
        let _ = call;
    }
}
