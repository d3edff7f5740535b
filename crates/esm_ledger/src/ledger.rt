// The ledger of a stream's book: the history of entries, with tables from which it is read quickly.
ghost use Rattle.std.specs.Prelude.{◌≡◌, ℕ, ◌+◌, ◌<◌, ◌∷◌, [], true, false, length, reverse, OnOk, IfOk, IfSome, IfNone, Some, None};
ghost use Rattle.std.specs.Prelude.{slice_get, ◌++◌, vec_len, vec_capacity};
ghost use Rattle.esm_model.specs.declared.lane.LaneId.{LaneId};
ghost use Rattle.esm_model.specs.Valid.{IsStreamConfig};
ghost use Rattle.esm_model.specs.Entries.{came_count, is_shut, calls_begun};
ghost use Rattle.esm_shard_index.specs.LaneHistory.{HasFoundTries};
ghost use Rattle.esm_ledger.specs.Ledger.{past_of, setting_of, opened_with, IsAt, HasRoom, HasShardRoom, Rests, Keeps, HasSplits, HasState};
ghost use Rattle.esm_ledger.specs.Prepared.{StaysElsewhere, Stays};
ghost use Rattle.esm_shard_index.specs.WindowEntries.{has_entry};

use crate::shard::ShardLedger;
use esm_journal_state::Says;
use esm_model::{Config, Entry, LaneId, MAX_ENTRIES, OutOfMemory};
use std::alloc::Global;

/// A stream's book without its decisions: the history, and tables that say in constant or logarithmic time what the history
/// says. All memory is prepared first; then adding an entry takes none and cannot fail.
#[derive(Drop)]
pub struct Ledger {
    pub config: Config,
    /// The number of calls allowed.
    pub calls: u32,
    /// What the journal said at opening.
    pub found: Says,
    /// The oldest entry first.
    pub history: Vec<Entry>,
    /// The moment of the newest entry, in milliseconds.
    pub last: u64,
    pub shut: bool,
    /// The number of calls that began.
    pub begun: u64,
    /// The number of calls that run.
    pub unended: u32,
    /// In the order in which the shards came first.
    pub shards: Vec<ShardLedger>,
}

impl Ledger {
    /// A ledger without entries, with room for the end of the input.
    pub fn new(
        alloc: Global,
        config: Config,
        calls: u32,
        found: Says,
    ) -> Result<Ledger, OutOfMemory>
        requires config { IsStreamConfig config }
        requires found { (n : ℕ) → HasFoundTries (opened_with config calls found) n }
        ensures kept { IfOk result Keeps }
        ensures past { IfOk result (λ c. past_of c ≡ []) }
        ensures setting { IfOk result (λ c. setting_of c ≡ opened_with config calls found) }
    {
        let history = Vec::with_capacity(alloc, 1)?;
        Ok(Ledger {
            config,
            calls,
            found,
            history,
            last: 0,
            shut: false,
            begun: 0,
            unended: 0,
            shards: Vec::new(alloc),
        })
    }

    /// Makes room in the history for `count` more entries, besides the ends of the running calls and of the input, which
    /// have theirs. A call that begins counts as two. Returns `OutOfMemory` also if the history would reach `MAX_ENTRIES`.
    /// After `OutOfMemory` nothing has changed.
    pub fn prepare_entries(&mut self, count: usize) -> Result<(), OutOfMemory>
        requires kept { Keeps self.old }
        ensures kept { Keeps self.new }
        ensures ok { OnOk result (HasRoom self.new count) }
        ensures past { past_of self.new ≡ past_of self.old }
        ensures setting { setting_of self.new ≡ setting_of self.old }
        ensures shards { (n : ℕ) → HasShardRoom self.old n → HasShardRoom self.new n }
        ensures stays { Stays self.old self.new }
    {
        let spare = self.unended as usize + usize::from(!self.shut);
        if count >= MAX_ENTRIES || self.history.len() + spare + count >= MAX_ENTRIES {
            return Err(OutOfMemory);
        }
        self.history.reserve(spare + count)?;
        Ok(())
    }

    /// Makes room for `count` shards that come for the first time. After `OutOfMemory` nothing has changed.
    pub fn prepare_shards(&mut self, count: usize) -> Result<(), OutOfMemory>
        requires kept { Keeps self.old }
        ensures kept { Keeps self.new }
        ensures ok { OnOk result (HasShardRoom self.new count) }
        ensures past { past_of self.new ≡ past_of self.old }
        ensures setting { setting_of self.new ≡ setting_of self.old }
        ensures room { (n : ℕ) → HasRoom self.old n → HasRoom self.new n }
        ensures shards { (n : ℕ) → HasShardRoom self.old n → HasShardRoom self.new n }
        ensures stays { Stays self.old self.new }
    {
        self.shards.reserve(count)?;
        Ok(())
    }

    /// Prepares memory for the end of a call of the lane, however long after it begins. After `OutOfMemory` nothing has
    /// changed that contracts see.
    pub fn prepare_call(&mut self, alloc: Global, lane: LaneId) -> Result<(), OutOfMemory>
        requires kept { Keeps self.old }
        requires known { lane.lane < self.old.config.factor }
        ensures kept { Keeps self.new }
        ensures ok { OnOk result (HasSplits self.new lane) }
        ensures past { past_of self.new ≡ past_of self.old }
        ensures setting { setting_of self.new ≡ setting_of self.old }
        ensures room { (n : ℕ) → HasRoom self.old n → HasRoom self.new n }
        ensures shards { (n : ℕ) → HasShardRoom self.old n → HasShardRoom self.new n }
        ensures elsewhere { StaysElsewhere self.old self.new lane.shard }
        ensures splits { (other : LaneId) → HasSplits self.old other → HasSplits self.new other }
        ensures states { (n w : ℕ) → HasState self.old n w → HasState self.new n w }
    {
        match self.find(lane.shard) {
            None => Ok(()),
            Some(at) => self.shards[at].prepare_call(alloc, lane.lane),
        }
    }

    /// Prepares memory for a state of the window and for a failed try of its final call. After `OutOfMemory` nothing has
    /// changed that contracts see.
    pub fn prepare_window(&mut self, shard: u64, window: u64) -> Result<(), OutOfMemory>
        requires kept { Keeps self.old }
        ensures kept { Keeps self.new }
        ensures state { OnOk result (HasState self.new shard window) }
        ensures tries { OnOk result ((x : ShardLedger) → IsAt self.new shard x → has_entry x.windows.tries window ≡ true) }
        ensures past { past_of self.new ≡ past_of self.old }
        ensures setting { setting_of self.new ≡ setting_of self.old }
        ensures room { (n : ℕ) → HasRoom self.old n → HasRoom self.new n }
        ensures shards { (n : ℕ) → HasShardRoom self.old n → HasShardRoom self.new n }
        ensures elsewhere { StaysElsewhere self.old self.new shard }
        ensures splits { (other : LaneId) → HasSplits self.old other → HasSplits self.new other }
    {
        match self.find(shard) {
            None => Ok(()),
            Some(at) => self.shards[at].prepare_window(window),
        }
    }

    /// The index of the shard among those that came, if it came. There are 16 at most.
    pub(crate) fn find(&self, shard: u64) -> Option<usize>
        ensures at { IfSome result (λ i. (i < length self.now.shards.items)
            × ((x : ShardLedger) → slice_get self.now.shards.items i ≡ Some x → x.shard ≡ shard)) }
        ensures none { IfNone result ((x : ShardLedger) → IsAt self.now shard x → ⊥) }
    {
        self.shards
            .as_slice()
            .iter()
            .position(|kept| kept.shard == shard)
    }

    /// What is kept of the shard, if it came.
    pub(crate) fn kept(&self, shard: u64) -> Option<&ShardLedger>
        ensures at { IfSome result (λ x. IsAt self.now shard x.now) }
        ensures none { IfNone result ((x : ShardLedger) → IsAt self.now shard x → ⊥) }
    {
        match self.find(shard) {
            None => None,
            Some(at) => Some(&self.shards[at]),
        }
    }

    /// The number of records of the shard that came.
    pub fn came_of(&self, shard: u64) -> u32
        requires { Keeps self.now }
        ensures { result ≡ came_count (past_of self.now) shard }
    {
        match self.kept(shard) {
            None => 0,
            Some(kept) => kept.progress.len(),
        }
    }

    /// Appends an entry to the history, within its room.
    pub(crate) fn note(&mut self, entry: Entry, moment: u64)
        requires { vec_len self.old.history < vec_capacity self.old.history }
        ensures history { self.new.history.items ≡ self.old.history.items ++ entry ∷ [] }
        ensures len { vec_len self.new.history ≡ vec_len self.old.history + 1 }
        ensures capacity { vec_capacity self.new.history ≡ vec_capacity self.old.history }
        ensures others { self.new ≡ record self.old { history = self.new.history; last = moment } }
    {
        self.history.push_reserved(entry);
        self.last = moment;
    }

    /// Whether the input ended.
    pub fn is_shut(&self) -> bool
        requires { Rests self.now }
        ensures { result ≡ is_shut (past_of self.now) }
    {
        self.shut
    }

    /// The number of calls that began.
    pub fn calls_begun(&self) -> u64
        requires { Keeps self.now }
        ensures { result ≡ calls_begun (past_of self.now) }
    {
        self.begun
    }

    /// The entries, oldest first.
    pub fn into_history(self) -> Vec<Entry>
        ensures { result.items ≡ reverse (past_of self) }
    {
        self.history
    }
}
