// The core of a replay: the records that arrived, the pieces that wait, the history, and what is owed.
ghost use Rattle.std.specs.Prelude.{◌≡◌, ◌+◌, ◌<◌, ◌≤◌, ◌^◌, ◌++◌, ◌∷◌, [], None, min, max};
ghost use Rattle.std.specs.Prelude.{IfOk, IfErr, IfSome, IfNone, OnOk, OnErr, All, Some, length, take, reverse, if◌then◌else◌};
ghost use Rattle.esm_model.specs.declared.limits.TheConstants.{MAX_PAYLOAD};
ghost use Rattle.esm_model.specs.declared.moment.TheConstants.{MAX_MOMENT};
ghost use Rattle.esm_model.specs.Valid.{IsValidRecord, IsStreamConfig};
ghost use Rattle.esm_book.specs.Decided.{written_of, lengths_of, IsRefused};
ghost use Rattle.esm_replay_model.specs.ReplaySetting.{replay_config};
ghost use Rattle.esm_replay_model.specs.ReplayReport.{named_count};
ghost use Rattle.esm_replay_model.specs.ReplayRun.{call_out, IsReplay};
ghost use Rattle.esm_model.specs.Entries.{last_moment};
ghost use Rattle.esm_replay_core.specs.View.{setting_of, new_view, moment_for, IsJobOut, RunAhead, SaidAhead, owing, paid, forgotten};
ghost use Rattle.esm_replay_core.specs.Deciding.{next_of, next_entries, done_entries, done_count};
ghost use Rattle.esm_replay.specs.Coming.{first_change, IsKeptChange};
ghost use Rattle.esm_replay_core.specs.Counts.{IsRecounted, HasCount};
ghost use Rattle.esm_replay_core.specs.Told.{owed_of, payload_in};

use crate::changes::{Looked, first_change, refuse};
use crate::choosing::choose;
use crate::counts::{count_one, make_counts};
use crate::decisions::ReplayNext;
use crate::ending::end_of;
use crate::owed::{
    Owed, entries_owed, first_owed, given_up, is_left, owing_replay, put, replay_owed, still_coming,
};
use crate::pieces::{clear, end_call, make_first, make_room};
use esm_book::Refusal;
use esm_journal_record::KeptTexts;
use esm_journal_state::Says;
use esm_model::{Config, Entry, Job, MAX_MOMENT, OutOfMemory, PastReply, Record, Refused, Reply};
use esm_replay::{Ranges, Waiting};
use std::alloc::Global;
use std::collections::BTreeMap;
use std::marker::Model;
use std::mem;

/// The decisions of a replay. Contracts see what it was opened with, the records that arrived, its history, and what was
/// decided and is not yet added.
///
/// Moments are in milliseconds since 1970. An entry has the moment that is passed in, or that of the last entry if it is
/// later, and at most 9999-12-31T23:59:59.999Z. If the end of a call was added without its `Replayed`, which was then
/// forgotten, every later `next` and `done` returns `OutOfMemory`.
#[derive(Drop)]
pub struct ReplayCore {
    /// With 0 retries and no windows.
    config: Config,
    calls: u32,
    said: Says,
    ranges: Ranges,
    /// The records that arrived, and then those whose arrival is owed.
    records: Vec<Record>,
    /// For each of them whether it is named.
    are_named: Vec<bool>,
    came: usize,
    /// How many of the records that arrived are of each shard.
    counts: BTreeMap<u64, u32>,
    /// How many of the records that arrived are named.
    named: u32,
    /// What waits; made when a call is first asked for.
    waiting: Option<Waiting>,
    /// The sequence numbers of the running call.
    names: KeptTexts,
    history: Vec<Entry>,
    /// The moment of the last entry.
    last: u64,
    begun: u64,
    owed: Owed,
}

impl Model for ReplayCore {
    ghost use Rattle.esm_replay_core.specs.View.{ReplayView};

    ghost Value = { ReplayView };

    ghost use Rattle.esm_replay_core.specs.Kept.{view_of, IsCore};

    ghost view = { view_of };

    ghost invariant = { IsCore };
}

fn raised_to(last: u64, moment: u64) -> u64
    requires { last ≤ MAX_MOMENT }
    ensures value { result ≡ min (max moment last) MAX_MOMENT }
    ensures goes_on { last ≤ result }
    ensures in_time { result ≤ MAX_MOMENT }
{
    moment.max(last).min(MAX_MOMENT)
}

/// The mapping as a replay follows it: without retries and windows.
fn replay_config(config: Config) -> Config
    ensures { result ≡ replay_config config }
{
    let mut config = config;
    config.retries = Some(0);
    config.tumbling_ms = 0;
    config
}

/// Makes counts for the records' shards, and appends the records, each with whether it is named. After `OutOfMemory` none
/// of them is appended.
fn take_in(
    counts: &mut BTreeMap<u64, u32>,
    records: &mut Vec<Record>,
    are_named: &mut Vec<bool>,
    items: Vec<Record>,
    named: Vec<bool>,
) -> Result<(), OutOfMemory>
    ensures same { IsRecounted counts.old counts.new }
    ensures there { OnOk result (All (HasCount counts.new) items.items) }
    ensures ok { OnOk result (records.new.items ≡ records.old.items ++ items.items) }
    ensures err { OnErr result (records.new.items ≡ records.old.items) }
    ensures named { OnOk result (are_named.new.items ≡ are_named.old.items ++ named.items) }
    ensures unnamed { OnErr result (are_named.new.items ≡ are_named.old.items) }
{
    let mut items = items;
    let mut named = named;
    make_counts(counts, items.as_slice())?;
    let count = are_named.len();
    are_named.append(&mut named)?;
    match records.append(&mut items) {
        Ok(()) => Ok(()),
        Err(_) => {
            are_named.truncate(count);
            Err(OutOfMemory)
        }
    }
}

fn one_if(passes: bool) -> u32
    ensures { result ≡ (if passes then 1 else 0) }
{
    if passes { 1 } else { 0 }
}

/// Replaces the sequence numbers of the running call.
fn put_names(place: &mut KeptTexts, names: KeptTexts)
    ensures { place.new ≡ names }
{
    *place = names;
}

impl ReplayCore {
    /// Makes a core in which no record has arrived, for `calls` calls in all. After `OutOfMemory` what the journal said
    /// is given back.
    pub fn new(
        alloc: Global,
        config: Config,
        calls: u32,
        said: Says,
        ranges: Ranges,
    ) -> Result<ReplayCore, Refused<OutOfMemory, Says>>
        requires { IsStreamConfig config }
        ensures opened { IfOk result (λ core. core ≡ new_view (record { config = replay_config config; calls = calls; said = said; ranges = ranges })) }
        ensures back { IfErr result (λ refused. refused.back ≡ said) }
    {
        let Ok(history) = Vec::with_capacity(alloc, 2) else {
            return Err(Refused {
                why: OutOfMemory,
                back: said,
            });
        };
        Ok(ReplayCore {
            config: replay_config(config),
            calls,
            said,
            ranges,
            records: Vec::new(alloc),
            are_named: Vec::new(alloc),
            came: 0,
            counts: BTreeMap::new(alloc),
            named: 0,
            waiting: None,
            names: KeptTexts::from_vec(Vec::new(alloc)),
            history,
            last: 0,
            begun: 0,
            owed: Owed::Nothing,
        })
    }

    /// Decides on records that arrive, before the first call began. If the journal kept another text of a record, the
    /// whole list is refused, and the refusal reports the first such record. After a refusal the core is as before.
    pub fn came(&mut self, alloc: Global, items: Vec<Record>) -> Result<(), Refusal>
        requires settled { owed_of self.old ≡ [] }
        requires early { self.old.past ≡ [] }
        requires valid { All IsValidRecord items.items }
        requires places { length self.old.records + length items.items < 2 ^ 32 }
        ensures same { OnOk result (first_change self.old.opened.said self.old.records items.items ≡ None) }
        ensures owes { OnOk result (self.new ≡ owing self.old items.items []) }
        ensures refused { IfErr result (IsRefused (λ change. (first_change self.old.opened.said self.old.records items.items ≡ Some change)
            × IsKeptChange self.old.opened.said change)) }
        ensures unchanged { OnErr result (self.new ≡ self.old) }
        ensures undone { OnOk result (forgotten self.new ≡ self.old) }
    {
        let looked = first_change(
            alloc,
            &self.said,
            &self.ranges,
            &self.counts,
            items.as_slice(),
        )?;
        let Looked { change, named } = looked;
        match refuse(alloc, change) {
            Ok(()) => {}
            Err(refusal) => return Err(refusal),
        }
        take_in(
            &mut self.counts,
            &mut self.records,
            &mut self.are_named,
            items,
            named,
        )?;
        clear(&mut self.waiting);
        put(&mut self.owed, still_coming(self.came, self.records.len()));
        Ok(())
    }

    /// Decides what the caller does next: `Finished` if and only if nothing waits; `Spent` if something waits and all
    /// calls allowed were made; otherwise a call, which is owed. No call is running. After `OutOfMemory` the core is as
    /// before. The first `next` after records arrived passes over all of them once; each further one takes time for its
    /// own records alone.
    pub fn next(&mut self, alloc: Global, moment: u64) -> Result<ReplayNext, OutOfMemory>
        requires settled { owed_of self.old ≡ [] }
        requires rests { (call_out self.old.past).places ≡ [] }
        ensures answer { IfOk result (λ next. next ≡ next_of (setting_of self.old) self.old.past) }
        ensures owes { IfOk result (λ next. self.new ≡ owing self.old [] (next_entries next (moment_for self.old.past moment))) }
        ensures run { OnOk result (RunAhead self.new) }
        ensures unchanged { OnErr result (self.new ≡ self.old) }
        ensures undone { OnOk result (forgotten self.new ≡ self.old) }
    {
        if is_left(&self.owed) {
            return Err(OutOfMemory);
        }
        make_first(
            alloc,
            &mut self.waiting,
            self.records.as_slice(),
            self.are_named.as_slice(),
        )?;
        let Some(waiting) = &self.waiting else {
            unreachable!()
        };
        let now = raised_to(self.last, moment);
        let chosen = choose(
            alloc,
            &self.config,
            self.calls,
            self.begun,
            waiting,
            self.records.as_slice(),
            now,
        )?;
        self.history.reserve(1)?;
        put(&mut self.owed, chosen.owed);
        Ok(chosen.next)
    }

    /// Decides what the end of the running call adds: its `Ended`, and a `Replayed` of the records that succeeded, if
    /// there are any. Returns their number. After `OutOfMemory` the core is as before.
    pub fn done(
        &mut self,
        alloc: Global,
        job: Job,
        reply: Reply,
        moment: u64,
    ) -> Result<u32, OutOfMemory>
        requires settled { owed_of self.old ≡ [] }
        requires out { IsJobOut self.old.past job }
        ensures count { IfOk result (λ n. n ≡ done_count (setting_of self.old) self.old.past reply) }
        ensures owes { OnOk result (self.new ≡ owing self.old []
            (done_entries (setting_of self.old) self.old.past job.lane reply (moment_for self.old.past moment))) }
        ensures run { OnOk result (RunAhead self.new) }
        ensures unchanged { OnErr result (self.new ≡ self.old) }
        ensures undone { OnOk result (forgotten self.new ≡ self.old) }
    {
        if is_left(&self.owed) {
            return Err(OutOfMemory);
        }
        let Some(waiting) = &self.waiting else {
            unreachable!()
        };
        let now = raised_to(self.last, moment);
        let ending = end_of(
            alloc,
            &self.config,
            waiting,
            self.names.as_slice(),
            &job,
            &reply,
            now,
        )?;
        make_room(&mut self.waiting, &mut self.history)?;
        let owed = Owed::Ended {
            lane: job.lane,
            reply: PastReply::of(&reply),
            moment: now,
            count: self.names.len() as u32,
            parts: ending.parts,
            replay: ending.replay,
        };
        put(&mut self.owed, owed);
        Ok(ending.succeeded)
    }

    /// Discards what is owed. Takes no memory.
    pub fn forget(&mut self)
        ensures { self.new ≡ forgotten self.old }
    {
        let owed = mem::replace(&mut self.owed, Owed::Nothing);
        self.records.truncate(self.came);
        self.are_named.truncate(self.came);
        put(&mut self.owed, given_up(owed));
    }

    /// States what is true of every core, whoever made its calls: its history, also with all that is owed after it, is a
    /// run of the replay over the records that arrived, which are valid; the journal accepts the payloads of all this;
    /// and no moment is past the greatest. Does nothing.
    pub fn keeps(&self)
        ensures run { IsReplay (setting_of self.now) self.now.past }
        ensures ahead { RunAhead self.now }
        ensures said { SaidAhead self.now }
        ensures valid { All IsValidRecord self.now.records }
        ensures early { 1 ≤ length self.now.coming → self.now.past ≡ [] }
        ensures in_time { last_moment self.now.past ≤ MAX_MOMENT }
    {
        let _ = &self.named;
    }

    /// Adds the first of what is owed. Takes no memory.
    pub fn pay(&mut self)
        requires { 0 < length (owed_of self.old) }
        ensures { self.new ≡ paid self.old }
    {
        match mem::replace(&mut self.owed, Owed::Nothing) {
            Owed::Nothing => unreachable!(),
            Owed::Left => unreachable!(),
            Owed::Coming => {
                let item = &self.records[self.came];
                let is_named = self.are_named[self.came];
                count_one(&mut self.counts, item.shard());
                self.named += one_if(is_named);
                self.came += 1;
                put(&mut self.owed, still_coming(self.came, self.records.len()));
            }
            Owed::Began {
                lane,
                places,
                names,
                moment,
            } => {
                self.history.push_reserved(Entry::Began {
                    lane,
                    places,
                    closing: None,
                    moment,
                });
                put_names(&mut self.names, names);
                self.last = moment;
                self.begun += 1;
            }
            Owed::Ended {
                lane,
                reply,
                moment,
                count,
                parts,
                replay,
            } => {
                self.history.push_reserved(Entry::Ended {
                    lane,
                    reply,
                    moment,
                });
                end_call(&mut self.waiting, count, parts);
                self.last = moment;
                put(&mut self.owed, owing_replay(replay));
            }
            Owed::Replayed(replay) => {
                self.history.push_reserved(Entry::Replayed {
                    shard: replay.shard,
                    places: replay.places,
                    moment: replay.moment,
                });
                self.last = replay.moment;
            }
        }
    }

    /// How many entries are owed; each arriving record counts as one. Takes no memory.
    pub fn owed_count(&self) -> usize
        ensures { result ≡ length (owed_of self.now) }
    {
        self.records.len() - self.came + entries_owed(&self.owed)
    }

    /// Returns the lengths in bytes of the owed payloads, in order.
    pub fn owed_lengths(&self, alloc: Global) -> Result<Vec<u32>, OutOfMemory>
        ensures { IfOk result (λ lengths. lengths.items ≡ lengths_of (written_of payload_in (owed_of self.now))) }
    {
        match replay_owed(&self.owed) {
            None => Ok(Vec::new(alloc)),
            Some(replay) => {
                let mut lengths = Vec::new(alloc);
                lengths.push(replay.payload.len() as u32)?;
                Ok(lengths)
            }
        }
    }

    /// Returns the payload of the first of what is owed, if it has one. Takes no memory.
    pub fn first_payload(&self) -> Option<&[u8]>
        requires { 0 < length (owed_of self.now) }
        ensures payload { IfSome result (λ bytes. written_of payload_in (take 1 (owed_of self.entry.now)) ≡ bytes.now ∷ []) }
        ensures short { IfSome result (λ bytes. length bytes.now ≤ MAX_PAYLOAD) }
        ensures none { IfNone result (written_of payload_in (take 1 (owed_of self.entry.now)) ≡ []) }
    {
        match first_owed(&self.owed) {
            None => None,
            Some(replay) => Some(replay.payload.as_slice()),
        }
    }

    /// The number of records that arrived and are named. Takes no memory.
    pub fn named(&self) -> u32
        ensures { result ≡ named_count (setting_of self.now) }
    {
        self.named
    }

    /// Returns the history, oldest entry first and without the arrivals of records, and what the journal said. Takes no
    /// memory.
    pub fn into_parts(self) -> (Vec<Entry>, Says)
        ensures history { result.0.items ≡ reverse self.past }
        ensures said { result.1 ≡ self.opened.said }
    {
        (self.history, self.said)
    }
}
