// The core of a stream's book: it decides on records that come, batchers that ask and replies, and notes the input's end.
ghost use Rattle.std.specs.Prelude.{◌≡◌, ℕ, ◌<◌, ◌≤◌, ◌^◌, ◌∷◌, [], Some, true, false, min, max, All, IfOk, IfErr, IfSome, IfNone, OnOk};
ghost use Rattle.std.specs.Prelude.{OnErr, length, take, reverse};
ghost use Rattle.std.specs.List.{filter_map};
ghost use Rattle.esm_model.specs.declared.limits.TheConstants.{MAX_BATCH, MAX_PAYLOAD};
ghost use Rattle.esm_model.specs.declared.entry.Entry.{Entry};
ghost use Rattle.esm_model.specs.Valid.{IsStreamConfig, IsValidRecord};
ghost use Rattle.esm_model.specs.declared.moment.TheConstants.{MAX_MOMENT};
ghost use Rattle.esm_model.specs.Books.{streams_told};
ghost use Rattle.esm_model.specs.Entries.{is_shut, last_moment, calls_begun};
ghost use Rattle.esm_filter.specs.Criteria.{JudgesRecords};
ghost use Rattle.esm_journal_record.specs.EntryPayload.{entry_payload};
ghost use Rattle.esm_shard_index.specs.LaneHistory.{HasFoundTries};
ghost use Rattle.esm_ledger.specs.Ledger.{opened_with, LegalOver};
ghost use Rattle.esm_ledger.specs.Reading.{checkpoint_of, spread_of};
ghost use Rattle.esm_record_bounds.specs.Bounds.{AreStatesWithin, AreWithinBounds};
ghost use Rattle.esm_book.specs.Decided.{IsRefused, lengths_of, IsLineWithin};
ghost use Rattle.esm_stream_core.specs.Quiet.{IsQuiet, IsWanting};
ghost use Rattle.esm_stream_core.specs.Standing.{can_pay};
ghost use Rattle.esm_stream_core.specs.CoreView.{new_view, full_setting, payloads_of, lines_of, LegalAhead, SettledAhead, HandFollows};
ghost use Rattle.esm_stream_core.specs.CoreView.{owing, paid, forgotten, noted, noted_shut};
ghost use Rattle.esm_stream_core.specs.Calls.{moment_for, coming_lists, came_entries, Differs, NoneDiffers, IsResting, IsNextOver};
ghost use Rattle.esm_stream_core.specs.Calls.{next_adds, IsRunningJob, ended_entries, given_by_end};
ghost use Rattle.esm_stream_core.specs.Told.{told_of};

use crate::adding::{add_next, push, shut};
use crate::finishing::is_over;
use crate::fitting::fit_places;
use crate::owed::Owed;
use crate::reading::{kept_in, lengths_in, line_bound, line_in};
use crate::standing::Standing;
use esm_book::Refusal;
use esm_filter::Criteria;
use esm_ingest::{by_shard, first_change};
use esm_journal_state::Says;
use esm_ledger::{Coming, Ledger};
use esm_model::{
    Change, Config, Entry, Job, MAX_MOMENT, Next, OutOfMemory, PastReply, Record, Reply,
};
use esm_next::{Decision, decide_next};
use esm_outcome::outcome_of;
use esm_shard_index::progress_laws::{progress_stays, progress_tells};
use std::alloc::Global;
use std::marker::Model;

/// The decisions of a stream's book, seen as what its history is judged over, the history, what is coming and owed, and how
/// far more can be decided.
///
/// Moments are in milliseconds since 1970. An entry has the moment that is handed in, or that of the last entry if that is
/// later, and at most 9999-12-31T23:59:59.999Z. Places count a shard's records from 0.
/// `OutOfMemory` is also the answer if the history would have 2^40 entries or more, if a shard's records and all those of
/// the list would be 2^32 or more, and to each decision of a core that was left: one in which a call of the function ended
/// without what that requires, whose input ended while entries were owed, or whose owed entries were discarded when some
/// were added.
#[derive(Drop)]
pub struct StreamCore {
    pub(crate) ledger: Ledger,
    pub(crate) criteria: Criteria,
    /// The records whose `Came` is owed, shard by shard, the next ones last.
    pub(crate) coming: Vec<Coming>,
    /// The owed entries, the next one last.
    pub(crate) owed: Vec<Owed>,
    pub(crate) standing: Standing,
}

impl Model for StreamCore {
    ghost use Rattle.esm_stream_core.specs.CoreView.{CoreView};

    ghost Value = { CoreView };

    ghost use Rattle.esm_stream_core.specs.Inside.{view_of, IsCore};

    ghost view = { view_of };

    ghost invariant = { IsCore };
}

/// The moment of the next entry: not before the last one, and at most `MAX_MOMENT`.
fn raised_to(last: u64, moment: u64) -> u64
    requires { last ≤ MAX_MOMENT }
    ensures value { result ≡ min (max moment last) MAX_MOMENT }
    ensures goes_on { last ≤ result }
    ensures in_time { result ≤ MAX_MOMENT }
{
    moment.max(last).min(MAX_MOMENT)
}

/// A copy of the change.
fn change_copy(alloc: Global, change: &Change) -> Result<Change, OutOfMemory>
    ensures { IfOk result (λ copy. copy ≡ change.now) }
{
    let kept = change.kept.copy(alloc)?;
    let given = change.given.copy(alloc)?;
    Ok(Change {
        shard: change.shard,
        place: change.place,
        kept,
        given,
    })
}

impl StreamCore {
    /// A core in which no record came, for `calls` calls in all, with what the journal said at opening.
    pub fn new(
        alloc: Global,
        config: Config,
        criteria: Criteria,
        calls: u32,
        found: Says,
    ) -> Result<StreamCore, OutOfMemory>
        requires config { IsStreamConfig config }
        requires criteria { JudgesRecords config.kind config.filters criteria }
        requires tries { (n : ℕ) → HasFoundTries (opened_with config calls found) n }
        requires states { AreStatesWithin found.states }
        ensures { IfOk result (λ core. core ≡ new_view (opened_with config calls found)) }
    {
        let ledger = Ledger::new(alloc, config, calls, found)?;
        Ok(StreamCore {
            ledger,
            criteria,
            coming: Vec::new(alloc),
            owed: Vec::new(alloc),
            standing: Standing::Whole,
        })
    }

    /// Decides on records that come: one `Came` for each shard of the list, in the order of first appearance; then, for each
    /// of them with records that fail the filter and have no found fate, their fate (Lambda Developer Guide, event filtering
    /// for Kinesis). A list with a record whose sequence number differs from the one that was kept of it, with a fate or
    /// with tries, is refused whole as `Changed`, which has the first such record. After a refusal the core is as before.
    pub fn came(&mut self, alloc: Global, items: Vec<Record>, moment: u64) -> Result<(), Refusal>
        requires settled { self.old.owed ≡ [] }
        requires going { is_shut self.old.past ≡ false }
        requires few { length items.items ≤ MAX_BATCH }
        requires valid { All IsValidRecord items.items }
        // what is owed
        ensures owes { OnOk result (self.new ≡ owing self.old (coming_lists self.old items.items)
            (came_entries self.old items.items (moment_for self.old.past moment))) }
        ensures same { OnOk result (NoneDiffers self.old items.items) }
        // what a refusal leaves
        ensures refused { IfErr result (IsRefused (Differs self.old items.items)) }
        ensures unchanged { OnErr result (self.new ≡ self.old) }
        // that it can be added
        ensures undone { OnOk result (forgotten self.new ≡ self.old) }
        ensures before { OnOk result (LegalOver self.old.setting self.old.past) }
        ensures legal { OnOk result (LegalAhead self.new) }
        ensures settled { OnOk result (SettledAhead self.new) }
        ensures payable { OnOk result (can_pay self.new.standing ≡ true) }
    {
        if !self.standing.is_whole() {
            return Err(Refusal::OutOfMemory);
        }
        if !fit_places(&self.ledger, items.as_slice()) {
            return Err(Refusal::OutOfMemory);
        }
        if let Some(told) = first_change(alloc, &self.ledger, items.as_slice())? {
            let kept = change_copy(alloc, &told)?;
            return Err(Refusal::Changed { told, kept });
        }
        let now = raised_to(self.ledger.last, moment);
        let parts = by_shard(alloc, &self.ledger, &self.criteria, items)?;
        self.owe_records(alloc, parts, now)?;
        Ok(())
    }

    /// Decides what the batcher does next, by the first rule that holds, and owes the call, or the expiry of records (Lambda
    /// Developer Guide, event source mappings for Kinesis: batching behavior, tumbling windows, error handling). No call of
    /// the batcher's lane may be running. After `OutOfMemory` the core is as before.
    pub fn next(&mut self, alloc: Global, batcher: u32, moment: u64) -> Result<Next, OutOfMemory>
        requires settled { self.old.owed ≡ [] }
        requires rests { IsResting self.old batcher }
        ensures answer { IfOk result (IsNextOver self.old batcher (moment_for self.old.past moment)) }
        ensures owes { IfOk result (λ next. self.new ≡ owing self.old [] (next_adds self.old batcher (moment_for self.old.past moment) next)) }
        ensures unchanged { OnErr result (self.new ≡ self.old) }
        ensures undone { OnOk result (forgotten self.new ≡ self.old) }
        ensures legal { OnOk result (LegalAhead self.new) }
        ensures settled { OnOk result (SettledAhead self.new) }
        ensures payable { OnOk result (can_pay self.new.standing ≡ true) }
    {
        if !self.standing.is_whole() {
            return Err(OutOfMemory);
        }
        let now = raised_to(self.ledger.last, moment);
        match decide_next(alloc, &self.ledger, batcher, now)? {
            Decision::Call(job) => {
                let places = job.places.copy(alloc)?;
                self.owe_call(alloc, job.lane, places, job.closing, now)?;
                Ok(Next::Call(job))
            }
            Decision::Expire { lane, places, line } => {
                let count = places.as_slice().len() as u32;
                self.owe_expiry(alloc, lane, places, line, now)?;
                Ok(Next::Gave(count))
            }
            Decision::Idle { until } => Ok(Next::Idle { until }),
            Decision::Spent => Ok(Next::Spent),
            Decision::Finished => Ok(Next::Finished),
        }
    }

    /// Decides what the end of the job requires: its `Ended`, and then the fates, tries, states and closed windows that
    /// follow from the reply. Returns how many records get a fate (Lambda Developer Guide, error handling for Kinesis).
    /// After `OutOfMemory` the core is as before, and the job and the reply are dropped.
    pub fn done(
        &mut self,
        alloc: Global,
        job: Job,
        reply: Reply,
        moment: u64,
    ) -> Result<u32, OutOfMemory>
        requires settled { self.old.owed ≡ [] }
        requires runs { IsRunningJob self.old.past job }
        ensures owes { OnOk result (self.new ≡ owing self.old [] (ended_entries self.old job.lane reply (moment_for self.old.past moment))) }
        ensures answer { IfOk result (λ count. count ≡ given_by_end self.old job.lane reply (moment_for self.old.past moment)) }
        ensures unchanged { OnErr result (self.new ≡ self.old) }
        ensures undone { OnOk result (forgotten self.new ≡ self.old) }
        ensures legal { OnOk result (LegalAhead self.new) }
        ensures settled { OnOk result (SettledAhead self.new) }
        ensures payable { OnOk result (can_pay self.new.standing ≡ true) }
    {
        if !self.standing.is_whole() {
            return Err(OutOfMemory);
        }
        let now = raised_to(self.ledger.last, moment);
        let outcome = outcome_of(alloc, &self.ledger, job.lane, &reply, now)?;
        let given = outcome.given;
        self.owe_end(alloc, job.lane, reply, outcome, now)?;
        Ok(given)
    }

    /// Discards what is owed. This rolls back a decision of which no entry was added; if some were added, nothing more is
    /// decided. Takes no memory.
    pub fn forget(&mut self)
        ensures { self.new ≡ forgotten self.old }
    {
        self.coming.clear();
        self.owed.clear();
        self.standing = self.standing.forgotten();
    }

    /// Adds the first owed entry to the history. Takes no memory, and cannot fail.
    pub fn pay(&mut self)
        requires owes { 0 < length self.old.owed }
        requires payable { can_pay self.old.standing ≡ true }
        ensures { self.new ≡ paid self.old }
    {
        let alloc = *self.ledger.history.allocator();
        let Some(owed) = self.owed.pop() else {
            unreachable!()
        };
        add_next(&mut self.ledger, alloc, &mut self.coming, owed.act);
        self.standing = self.standing.paid(!self.owed.as_slice().is_empty());
    }

    /// Notes the end of the job's call, when nothing that it requires is added any more. Takes no memory: the room was kept
    /// since the call began.
    pub fn note_ended(&mut self, job: Job, reply: Reply, moment: u64)
        requires runs { IsRunningJob self.old.past job }
        ensures { self.new ≡ noted self.old (Entry.Ended job.lane reply (moment_for self.old.past moment)) }
    {
        let now = raised_to(self.ledger.last, moment);
        let entry = Entry::Ended {
            lane: job.lane,
            reply: PastReply::of(&reply),
            moment: now,
        };
        progress_stays();
        push(&mut self.ledger, entry, now);
        self.standing = Standing::Left;
    }

    /// Notes that the input ended. What is owed then is left: it is no longer added. Takes no memory: there is always room
    /// for this entry.
    pub fn shut(&mut self, moment: u64)
        requires going { is_shut self.old.past ≡ false }
        ensures { self.new ≡ noted_shut self.old (Entry.Shut (moment_for self.old.past moment)) }
    {
        let now = raised_to(self.ledger.last, moment);
        progress_stays();
        let standing = self.standing.shut(self.owed.as_slice().is_empty());
        shut(&mut self.ledger, standing.is_whole(), now);
        self.standing = standing;
    }

    /// How many entries are owed. Takes no memory.
    pub fn owed_count(&self) -> usize
        ensures { result ≡ length self.now.owed }
    {
        self.owed.len()
    }

    /// The lengths in bytes of the owed payloads, in order.
    pub fn owed_lengths(&self, alloc: Global) -> Result<Vec<u32>, OutOfMemory>
        ensures { IfOk result (λ lengths. lengths.items ≡ lengths_of (payloads_of self.now self.now.owed)) }
    {
        let lengths = lengths_in(alloc, self.owed.as_slice())?;
        Ok(lengths)
    }

    /// The length of the owed line in bytes, if an owed entry has one; at most one has. Takes no memory.
    pub fn owed_line_bound(&self) -> Option<u64>
        ensures within { IfSome result (IsLineWithin (lines_of self.now.owed)) }
        ensures none { IfNone result (lines_of self.now.owed ≡ []) }
    {
        line_bound(self.owed.as_slice())
    }

    /// The payload of the first owed entry, if it has one. Takes no memory.
    pub fn first_payload(&self) -> Option<&[u8]>
        requires { 0 < length self.now.owed }
        ensures payload { IfSome result (λ bytes. payloads_of self.entry.now (take 1 self.entry.now.owed) ≡ bytes.now ∷ []) }
        ensures short { IfSome result (λ bytes. length bytes.now ≤ MAX_PAYLOAD) }
        ensures none { IfNone result (payloads_of self.entry.now (take 1 self.entry.now.owed) ≡ []) }
    {
        match self.owed.last() {
            None => None,
            Some(owed) => match &owed.payload {
                None => None,
                Some(payload) => Some(payload.as_slice()),
            },
        }
    }

    /// The line of the first owed entry, if it has one. Takes no memory.
    pub fn first_line(&self) -> Option<&[u8]>
        requires { 0 < length self.now.owed }
        ensures line { IfSome result (λ bytes. lines_of (take 1 self.entry.now.owed) ≡ bytes.now ∷ []) }
        ensures short { IfSome result (λ bytes. length bytes.now ≤ MAX_PAYLOAD) }
        ensures none { IfNone result (lines_of (take 1 self.entry.now.owed) ≡ []) }
    {
        match self.owed.last() {
            None => None,
            Some(owed) => line_in(&owed.act),
        }
    }

    /// Whether the input ended. Takes no memory.
    pub fn is_shut(&self) -> bool
        ensures { result ≡ is_shut self.now.past }
    {
        self.ledger.shut
    }

    /// Whether all calls allowed began. Takes no memory.
    pub fn is_spent(&self) -> bool
        ensures spent { result ≡ true → self.now.setting.calls ≤ calls_begun self.now.past }
        ensures going { result ≡ false → calls_begun self.now.past < self.now.setting.calls }
    {
        self.ledger.begun >= u64::from(self.ledger.calls)
    }

    /// Whether nothing is left for the batchers below the number: no record of their lanes is open, and no window of their
    /// shards is outstanding. `None` if nothing is decided any more. Takes no memory.
    pub fn is_over(&self, batchers: u32) -> Option<bool>
        requires settled { self.now.owed ≡ [] }
        ensures over { result ≡ Some true → (k : ℕ) → k < batchers → IsQuiet self.now.setting self.now.past k }
        ensures left { result ≡ Some false → (k : ℕ) × (k < batchers) × IsWanting self.now.setting self.now.past k }
    {
        if !self.standing.is_whole() {
            return None;
        }
        Some(is_over(&self.ledger, batchers))
    }

    /// How many of the shard's first records all have a fate; `None` if and only if the shard has not come. Takes no memory.
    pub fn checkpoint(&self, shard: u64) -> Option<u32>
        ensures { result ≡ checkpoint_of self.now.setting self.now.past shard }
    {
        progress_tells();
        match kept_in(&self.ledger, shard) {
            None => None,
            Some(kept) => Some(kept.progress.checkpoint()),
        }
    }

    /// How many of the shard's records past the checkpoint have a fate; `None` if and only if the shard has not come. Takes
    /// no memory.
    pub fn spread(&self, shard: u64) -> Option<u32>
        ensures { result ≡ spread_of self.now.setting self.now.past shard }
    {
        progress_tells();
        match kept_in(&self.ledger, shard) {
            None => None,
            Some(kept) => Some(kept.progress.spread()),
        }
    }

    /// What holds of every core, whoever made its calls. The records that came are those of its history. None is coming if
    /// nothing is owed, or if the first owed entry has a payload; that payload is one of records that came. The first owed
    /// entry may follow the history, or a prefix of it that only ends of calls and of the input follow. No moment is above
    /// `MAX_MOMENT`, and each record is valid and in the list of its shard. Does nothing.
    pub fn keeps(&self)
        ensures records { self.now.setting.streams ≡ streams_told (told_of self.now) }
        ensures rests { self.now.owed ≡ [] → self.now.coming ≡ [] }
        ensures first { payloads_of self.now (take 1 self.now.owed) ≡ filter_map (entry_payload self.now.setting) (take 1 self.now.owed) }
        ensures alone { 0 < length (payloads_of self.now (take 1 self.now.owed)) → self.now.coming ≡ [] }
        ensures hand { HandFollows self.now }
        ensures in_time { last_moment self.now.past ≤ MAX_MOMENT }
        ensures bounds { AreWithinBounds (full_setting self.now) }
    {
        let _ = &self.ledger;
    }

    /// The number of entries of the history. Takes no memory.
    pub fn entries(&self) -> u64
        ensures value { result ≡ length self.now.past }
        ensures few { result ≤ 2 ^ 40 }
    {
        self.ledger.history.len() as u64
    }

    /// The history, oldest entry first. Takes no memory.
    pub fn into_history(self) -> Vec<Entry>
        ensures { result.items ≡ reverse self.past }
    {
        self.ledger.into_history()
    }
}
