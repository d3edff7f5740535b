//! Prepares all that is kept of the next records of a shard.
ghost use Rattle.std.specs.Prelude.{◌≡◌, ℕ, ◌+◌, ◌≤◌, not, Some, length, is_some, slice_get, IfOk, OnOk};
ghost use Rattle.std.specs.List.{All};
ghost use Rattle.esm_model.specs.Records.{Record};
ghost use Rattle.esm_model.specs.Valid.{IsStreamConfig, IsValidRecord};
ghost use Rattle.esm_model.specs.Setting.{Setting, record_at};
ghost use Rattle.esm_model.specs.Entries.{holds, came_count, shards_that_came};
ghost use Rattle.esm_shard_index.specs.LaneHistory.{HasFoundTries};
ghost use Rattle.esm_shard_index.specs.Windows.{window_before};
ghost use Rattle.esm_ledger.specs.declared.shard.ShardLedger.{ShardLedger};
ghost use Rattle.esm_ledger.specs.Shard.{IsShard};
ghost use Rattle.esm_ledger.specs.Arriving.{AreArriving, IsEven, IsWithin, HasRoomFor};
ghost use Rattle.esm_ledger.specs.Ledger.{past_of, setting_of, IsAt, HasRoom, HasShardRoom, Keeps};
ghost use Rattle.esm_ledger.specs.Coming.{IsComing, TellsPassing};
ghost use Rattle.esm_ledger.specs.Prepared.{StaysElsewhere};
ghost use Rattle.esm_ledger.specs.Found.{TellsOf};
ghost use Rattle.esm_ledger.specs.Measuring.{last_window};

use crate::arriving::Arriving;
use crate::coming::Coming;
use crate::found::{Fated, ShardFound, found_records, found_windows};
use crate::ledger::Ledger;
use crate::measure::Measure;
use crate::shard::ShardLedger;
use esm_journal_state::Says;
use esm_model::{Config, OutOfMemory, Record};
use std::alloc::Global;

/// What is kept of records of the shard from the place `first` on. `before` is the window of the record before them, or 0.
fn arriving_of(
    alloc: Global,
    config: &Config,
    found: &Says,
    shard: u64,
    first: u32,
    before: u64,
    records: Vec<Record>,
    passing: &[bool],
) -> Result<Arriving, OutOfMemory>
    requires config { IsStreamConfig config.now }
    requires valid { All IsValidRecord records.items }
    requires few { first + length records.items ≤ u32.MAX }
    requires all { length passing.now ≡ length records.items }
    ensures records { IfOk result (λ a. a.records.items ≡ records.items) }
    ensures even { IfOk result IsEven }
    ensures within { IfOk result (λ a. (s : Setting) → TellsOf s config.now found.now → HasFoundTries s shard →
        All (IsWithin config.now.factor) a.landings.items) }
    ensures stand { IfOk result (λ a. (s : Setting) → TellsOf s config.now found.now → before ≡ window_before s shard first →
        ((k : ℕ) (r : Record) → slice_get records.items k ≡ Some r → record_at s shard (first + k) ≡ Some r) →
        TellsPassing s shard first records.items passing.now → AreArriving s shard first a) }
{
    let here = ShardFound::of(found, shard);
    let fated = found_records(
        alloc,
        &here,
        config.factor,
        first,
        records.as_slice(),
        passing,
    )?;
    let Fated { fates, landings } = fated;
    Arriving::new(alloc, config, before, records, fates, landings)
}

/// The window of the last record, or 0.
fn window_of_last(measures: &[Measure]) -> u64
    ensures { result ≡ last_window measures.now }
{
    let count = measures.len();
    if count == 0 {
        0
    } else {
        measures[count - 1].window
    }
}

impl Ledger {
    /// Prepares all that is kept of the next records of a shard: their lengths and windows, what was found of them at
    /// opening, where they go, and the memory that they need in the shard's tables. If the shard comes for the first time,
    /// the result has its new tables, for which `prepare_shards` makes room. `passing` says of each record whether it passes
    /// the filter, and may say either of one with a found fate. After `OutOfMemory` the records are gone, and nothing else
    /// has changed that contracts see.
    pub fn prepare_came(
        &mut self,
        alloc: Global,
        shard: u64,
        records: Vec<Record>,
        passing: &[bool],
    ) -> Result<Coming, OutOfMemory>
        requires kept { Keeps self.old }
        requires some { 1 ≤ length records.items }
        requires shard { All (λ (r : Record). r.shard ≡ shard) records.items }
        requires valid { All IsValidRecord records.items }
        requires few { came_count (past_of self.old) shard + length records.items ≤ u32.MAX }
        requires passing { TellsPassing (setting_of self.old) shard (came_count (past_of self.old) shard) records.items passing.now }
        ensures kept { Keeps self.new }
        ensures ok { IfOk result (λ coming. IsComing self.new coming) }
        ensures shard { IfOk result (λ coming. coming.shard ≡ shard) }
        ensures records { IfOk result (λ coming. coming.arriving.records.items ≡ records.items) }
        ensures past { past_of self.new ≡ past_of self.old }
        ensures setting { setting_of self.new ≡ setting_of self.old }
        ensures room { (n : ℕ) → HasRoom self.old n → HasRoom self.new n }
        ensures shards { (n : ℕ) → HasShardRoom self.old n → HasShardRoom self.new n }
        ensures elsewhere { StaysElsewhere self.old self.new shard }
    {
        let first = self.came_of(shard);
        let before = self.window_before(shard);
        let arriving = arriving_of(
            alloc,
            &self.config,
            &self.found,
            shard,
            first,
            before,
            records,
            passing,
        )?;
        self.prepare_known(alloc, shard, &arriving)?;
        let fresh = self.fresh_for(alloc, shard, &arriving)?;
        Ok(Coming {
            shard,
            fresh,
            arriving,
        })
    }

    /// The window of the shard's last record that came, or 0.
    fn window_before(&self, shard: u64) -> u64
        requires { Keeps self.now }
        ensures { result ≡ window_before (setting_of self.now) shard (came_count (past_of self.now) shard) }
    {
        match self.kept(shard) {
            None => 0,
            Some(kept) => window_of_last(kept.measures.as_slice()),
        }
    }

    /// Reserves memory for the records in the shard's tables, if the shard came.
    fn prepare_known(
        &mut self,
        alloc: Global,
        shard: u64,
        arriving: &Arriving,
    ) -> Result<(), OutOfMemory>
        requires kept { Keeps self.old }
        requires few { length arriving.now.landings.items ≤ u32.MAX }
        ensures kept { Keeps self.new }
        ensures ok { OnOk result ((y : ShardLedger) → IsAt self.new shard y → HasRoomFor y arriving.now) }
        ensures past { past_of self.new ≡ past_of self.old }
        ensures setting { setting_of self.new ≡ setting_of self.old }
        ensures room { (n : ℕ) → HasRoom self.old n → HasRoom self.new n }
        ensures shards { (n : ℕ) → HasShardRoom self.old n → HasShardRoom self.new n }
        ensures elsewhere { StaysElsewhere self.old self.new shard }
    {
        match self.find(shard) {
            None => Ok(()),
            Some(at) => self.shards[at].prepare_records(alloc, self.config.factor, arriving),
        }
    }

    /// The new tables of the shard, if it comes for the first time.
    fn fresh_for(
        &self,
        alloc: Global,
        shard: u64,
        arriving: &Arriving,
    ) -> Result<Option<ShardLedger>, OutOfMemory>
        requires kept { Keeps self.now }
        requires few { length arriving.now.landings.items ≤ u32.MAX }
        ensures named { IfOk result (λ fresh. is_some fresh ≡ not (holds (shards_that_came (past_of self.now)) shard)) }
        ensures fresh { IfOk result (λ fresh. (y : ShardLedger) → fresh ≡ Some y →
            (y.shard ≡ shard) × IsShard (setting_of self.now) (past_of self.now) y × HasRoomFor y arriving.now) }
    {
        match self.kept(shard) {
            None => {
                let fresh = self.first_of(alloc, shard, arriving)?;
                Ok(Some(fresh))
            }
            Some(_) => Ok(None),
        }
    }

    /// The new tables of a shard of which no record came, with memory for the records.
    fn first_of(
        &self,
        alloc: Global,
        shard: u64,
        arriving: &Arriving,
    ) -> Result<ShardLedger, OutOfMemory>
        requires kept { Keeps self.now }
        requires none { came_count (past_of self.now) shard ≡ 0 }
        requires few { length arriving.now.landings.items ≤ u32.MAX }
        ensures shard { IfOk result (λ y. y.shard ≡ shard) }
        ensures is { IfOk result (λ y. IsShard (setting_of self.now) (past_of self.now) y) }
        ensures room { IfOk result (λ y. HasRoomFor y arriving.now) }
    {
        let windows = found_windows(alloc, &self.found, shard)?;
        let mut fresh = ShardLedger::new(alloc, shard, self.config.factor, windows)?;
        fresh.prepare_records(alloc, self.config.factor, arriving)?;
        Ok(fresh)
    }
}
