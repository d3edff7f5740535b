// The ledger of one shard: its records, lanes, calls, fates and windows, kept up with each entry.
ghost use Rattle.std.specs.Prelude.{◌≡◌, ◌≢◌, ℕ, List, Option, ◌+◌, ◌<◌, ◌≤◌, ◌∷◌, ◌++◌, [], true, Some, None, length, OnOk, OnErr, IfOk, IfSome, IfNone};
ghost use Rattle.std.specs.List.{All};
ghost use Rattle.esm_model.specs.declared.limits.TheConstants.{MAX_LANES};
ghost use Rattle.esm_model.specs.declared.lane.LaneId.{LaneId};
ghost use Rattle.esm_model.specs.declared.entry.Entry.{Entry};
ghost use Rattle.esm_model.specs.declared.entry.Reply.{Reply};
ghost use Rattle.esm_model.specs.Setting.{Setting};
ghost use Rattle.esm_model.specs.Entries.{holds, came_count};
ghost use Rattle.esm_model.specs.FailureLine.{response_in};
ghost use Rattle.esm_model.specs.Tries.{verdict_after};
ghost use Rattle.esm_model.specs.Step.{Legal};
ghost use Rattle.esm_lanes.specs.Piece.{front_length};
ghost use Rattle.esm_shard_index.specs.LaneView.{lane_in, running_count};
ghost use Rattle.esm_shard_index.specs.LaneHistory.{HasFoundTries};
ghost use Rattle.esm_shard_index.specs.Callings.{StandOnce, calls_at};
ghost use Rattle.esm_shard_index.specs.WindowEntries.{has_entry};
ghost use Rattle.esm_shard_index.specs.Windows.{IsWindows};
ghost use Rattle.esm_ledger.specs.Shard.{IsShard, lane_id, closing_in, called_places, SameSplits};
ghost use Rattle.esm_ledger.specs.Arriving.{AreArriving, IsEven, IsWithin, HasRoomFor, FitsNumbers};

use crate::arriving::Arriving;
use crate::measure::Measure;
use crate::preparing::{reserve_lanes, reserve_records, reserve_tables};
use crate::records::Records;
use crate::shard_steps::{count_try, land, leave_windows, take_state};
use esm_model::{Fate, OutOfMemory, Response, Verdict, WindowState};
use esm_shard_index::{Arrivals, Callings, LaneTable, Progress, Running, Windows};
use std::alloc::Global;

/// What is kept of one shard: its records that came, of which those without a fate are held, and the tables that say what
/// the history says of them. Once the memory is prepared, adding an entry takes none.
#[derive(Drop)]
pub struct ShardLedger {
    pub shard: u64,
    pub records: Records,
    pub measures: Vec<Measure>,
    pub progress: Progress,
    pub arrivals: Arrivals,
    pub callings: Callings,
    pub windows: Windows,
    pub lanes: LaneTable,
}

impl ShardLedger {
    /// A shard of which no record came, with `lanes` lanes, 1 to 64, and the window states and tries that were found of it
    /// at opening.
    pub fn new(
        alloc: Global,
        shard: u64,
        lanes: u32,
        windows: Windows,
    ) -> Result<ShardLedger, OutOfMemory>
        requires some { 1 ≤ lanes }
        requires most { lanes ≤ MAX_LANES }
        ensures shard { IfOk result (λ c. c.shard ≡ shard) }
        ensures kept { IfOk result (λ c. (s : Setting) (h : List Entry) → HasFoundTries s shard → s.config.factor ≡ lanes → Legal s h → came_count h shard ≡ 0 →
            IsWindows s [] shard windows → IsShard s h c) }
    {
        Ok(ShardLedger {
            shard,
            records: Records::new(alloc),
            measures: Vec::new(alloc),
            progress: Progress::new(alloc),
            arrivals: Arrivals::new(alloc),
            callings: Callings::new(alloc),
            windows,
            lanes: LaneTable::new(alloc, lanes)?,
        })
    }

    /// Prepares memory for the end of a call of the lane, so that it needs none however long after it begins. After
    /// `OutOfMemory` nothing has changed.
    pub fn prepare_call(&mut self, alloc: Global, lane: u32) -> Result<(), OutOfMemory>
        requires known { lane < length self.old.lanes.lanes }
        ensures shard { self.new.shard ≡ self.old.shard }
        ensures records { self.new.records ≡ self.old.records }
        ensures ok { OnOk result (2 ≤ (lane_in self.new.lanes lane).kept.splits) }
        ensures kept { (s : Setting) (h : List Entry) → IsShard s h self.old → IsShard s h self.new }
        ensures others { (k : ℕ) → k ≢ lane → lane_in self.new.lanes k ≡ lane_in self.old.lanes k }
        ensures lanes { length self.new.lanes.lanes ≡ length self.old.lanes.lanes }
        ensures windows { self.new.windows ≡ self.old.windows }
        ensures err { OnErr result (self.new ≡ self.old) }
    {
        self.lanes.reserve(alloc, lane, 0, 2)
    }

    /// Prepares memory for a state of the window and for a failed try of its final call. After `OutOfMemory` nothing has
    /// changed that contracts see.
    pub fn prepare_window(&mut self, window: u64) -> Result<(), OutOfMemory>
        ensures shard { self.new.shard ≡ self.old.shard }
        ensures records { self.new.records ≡ self.old.records }
        ensures state { OnOk result (has_entry self.new.windows.states window ≡ true) }
        ensures tries { OnOk result (has_entry self.new.windows.tries window ≡ true) }
        ensures kept { (s : Setting) (h : List Entry) → IsShard s h self.old → IsShard s h self.new }
        ensures lanes { self.new.lanes ≡ self.old.lanes }
    {
        self.windows.prepare_window(window)
    }

    /// Prepares memory for records that are about to come. `lanes` is the number of lanes. After `OutOfMemory` nothing has
    /// changed that contracts see.
    pub fn prepare_records(
        &mut self,
        alloc: Global,
        lanes: u32,
        arriving: &Arriving,
    ) -> Result<(), OutOfMemory>
        requires lanes { lanes ≡ length self.old.lanes.lanes }
        requires few { length arriving.now.landings.items ≤ u32.MAX }
        ensures shard { self.new.shard ≡ self.old.shard }
        ensures records { self.new.records.items ≡ self.old.records.items }
        ensures records_room { self.old.records.room ≤ self.new.records.room }
        ensures ok { OnOk result (HasRoomFor self.new arriving.now) }
        ensures kept { (s : Setting) (h : List Entry) → IsShard s h self.old → IsShard s h self.new }
        ensures splits { (k : ℕ) → (lane_in self.old.lanes k).kept.splits ≤ (lane_in self.new.lanes k).kept.splits }
        ensures running { (k : ℕ) → (lane_in self.new.lanes k).state ≡ (lane_in self.old.lanes k).state }
        ensures size { length self.new.lanes.lanes ≡ length self.old.lanes.lanes }
    {
        reserve_records(&mut self.records, &mut self.measures, arriving)?;
        reserve_tables(
            &mut self.progress,
            &mut self.arrivals,
            &mut self.callings,
            &mut self.windows,
            arriving,
        )?;
        let landings = arriving.landings.as_slice();
        reserve_lanes(&mut self.lanes, alloc, lanes, landings)
    }

    /// A call of the lane begins: of these places, or a final call of the window `closing` with none. Takes no memory.
    pub fn began(&mut self, lane: u32, places: &[u32], closing: Option<u64>)
        requires known { lane < length self.old.lanes.lanes }
        requires came { (i : ℕ) → holds places.now i ≡ true → i < length self.old.callings.records }
        requires once { StandOnce places.now }
        requires few { (i : ℕ) → holds places.now i ≡ true → calls_at self.old.callings i < u32.MAX }
        requires short { length places.now ≤ u32.MAX }
        ensures shard { self.new.shard ≡ self.old.shard }
        ensures records { self.new.records ≡ self.old.records }
        ensures kept { (s : Setting) (h : List Entry) (m : ℕ) → HasFoundTries s self.old.shard →
            Legal s (Entry.Began (lane_id self.old.shard lane) places.now closing m ∷ h) →
            IsShard s h self.old → IsShard s (Entry.Began (lane_id self.old.shard lane) places.now closing m ∷ h) self.new }
        ensures splits { SameSplits self.old.lanes self.new.lanes }
        ensures windows { self.new.windows ≡ self.old.windows }
    {
        self.callings.began(places);
        let count = places.len() as u32;
        self.lanes.begin(lane, Running { count, closing });
    }

    /// The call of the lane ends at the moment, in milliseconds, with this answer and verdict. Uses prepared splits; takes
    /// no memory.
    pub fn ended(
        &mut self,
        alloc: Global,
        lane: u32,
        response: Option<Response>,
        verdict: Verdict,
        moment: u64,
    )
        requires known { lane < length self.old.lanes.lanes }
        requires within { running_count (lane_in self.old.lanes lane).state.running ≤ front_length (lane_in self.old.lanes lane).kept.pieces }
        requires reserved { 2 ≤ (lane_in self.old.lanes lane).kept.splits }
        requires few { (lane_in self.old.lanes lane).state.failures < u64.MAX }
        requires came { (i : ℕ) → holds (called_places (lane_in self.old.lanes lane)) i ≡ true → i < length self.old.callings.records }
        requires window { IfSome (closing_in (lane_in self.old.lanes lane).state.running) (λ w. has_entry self.old.windows.tries w ≡ true) }
        ensures shard { self.new.shard ≡ self.old.shard }
        ensures records { self.new.records ≡ self.old.records }
        ensures kept { (s : Setting) (h : List Entry) (reply : Reply) → HasFoundTries s self.old.shard →
            Legal s (Entry.Ended (lane_id self.old.shard lane) reply moment ∷ h) →
            verdict ≡ verdict_after s h (lane_id self.old.shard lane) reply → response ≡ response_in reply →
            IsShard s h self.old → IsShard s (Entry.Ended (lane_id self.old.shard lane) reply moment ∷ h) self.new }
        ensures others { (k : ℕ) → k ≢ lane → lane_in self.new.lanes k ≡ lane_in self.old.lanes k }
        ensures states { self.new.windows.states ≡ self.old.windows.states }
    {
        let state = self.lanes.state(lane);
        let places = self.lanes.called(lane);
        self.callings.ended(places, response);
        self.lanes.end(alloc, lane, verdict, moment);
        count_try(&mut self.windows, state.running, verdict.rest);
    }

    /// The records at the places succeed, are filtered or are exhausted, and their window may get a new state. Takes no
    /// memory.
    pub fn gave(&mut self, places: &[u32], fate: Fate, state: Option<WindowState>)
        requires came { (i : ℕ) → holds places.now i ≡ true → i < length self.old.progress.fated }
        requires measured { length self.old.measures.items ≡ length self.old.progress.fated }
        requires answered { fate ≢ Fate.Expired }
        requires prepared { IfSome state (λ x. has_entry self.old.windows.states x.window ≡ true) }
        ensures shard { self.new.shard ≡ self.old.shard }
        ensures records { self.new.records.items ≡ self.old.records.items }
        ensures records_room { self.old.records.room ≤ self.new.records.room }
        ensures kept { (s : Setting) (h : List Entry) (by : Option LaneId) (line : Option (List ℕ)) (m : ℕ) → HasFoundTries s self.old.shard →
            Legal s (Entry.Gave by self.old.shard places.now fate line state m ∷ h) →
            IsShard s h self.old → IsShard s (Entry.Gave by self.old.shard places.now fate line state m ∷ h) self.new }
        ensures lanes { self.new.lanes ≡ self.old.lanes }
        ensures states { IfNone state (self.new.windows.states ≡ self.old.windows.states) }
        ensures tries { self.new.windows.tries ≡ self.old.windows.tries }
    {
        self.progress.give(places, fate);
        self.records.let_go(places);
        leave_windows(&mut self.windows, self.measures.as_slice(), places);
        take_state(&mut self.windows, state);
    }

    /// The records at the places, the first of the lane's front piece, expire (Lambda Developer Guide,
    /// `MaximumRecordAgeInSeconds`). Takes no memory.
    pub fn expired(&mut self, lane: u32, places: &[u32])
        requires known { lane < length self.old.lanes.lanes }
        requires came { (i : ℕ) → holds places.now i ≡ true → i < length self.old.progress.fated }
        requires measured { length self.old.measures.items ≡ length self.old.progress.fated }
        requires within { length places.now ≤ front_length (lane_in self.old.lanes lane).kept.pieces }
        requires short { length places.now ≤ u32.MAX }
        ensures shard { self.new.shard ≡ self.old.shard }
        ensures records { self.new.records.items ≡ self.old.records.items }
        ensures records_room { self.old.records.room ≤ self.new.records.room }
        ensures kept { (s : Setting) (h : List Entry) (line : Option (List ℕ)) (m : ℕ) → HasFoundTries s self.old.shard →
            Legal s (Entry.Gave (Some (lane_id self.old.shard lane)) self.old.shard places.now Fate.Expired line None m ∷ h) →
            IsShard s h self.old →
            IsShard s (Entry.Gave (Some (lane_id self.old.shard lane)) self.old.shard places.now Fate.Expired line None m ∷ h) self.new }
        ensures splits { SameSplits self.old.lanes self.new.lanes }
        ensures states { self.new.windows.states ≡ self.old.windows.states }
        ensures tries { self.new.windows.tries ≡ self.old.windows.tries }
    {
        self.progress.give(places, Fate::Expired);
        self.records.let_go(places);
        leave_windows(&mut self.windows, self.measures.as_slice(), places);
        self.lanes.expire(lane, places.len() as u32);
    }

    /// The window was closed. Takes no memory.
    pub fn closed(&mut self, window: u64)
        ensures shard { self.new.shard ≡ self.old.shard }
        ensures records { self.new.records ≡ self.old.records }
        ensures kept { (s : Setting) (h : List Entry) (lane m : ℕ) → HasFoundTries s self.old.shard →
            Legal s (Entry.Closed (lane_id self.old.shard lane) window m ∷ h) →
            IsShard s h self.old → IsShard s (Entry.Closed (lane_id self.old.shard lane) window m ∷ h) self.new }
        ensures lanes { self.new.lanes ≡ self.old.lanes }
    {
        self.windows.closed(window);
    }

    /// Records came at the moment, in milliseconds. Uses the memory that is prepared for them; takes none.
    pub fn came(&mut self, alloc: Global, arriving: Arriving, moment: u64)
        requires room { HasRoomFor self.old arriving }
        requires even { IsEven arriving }
        requires few { FitsNumbers self.old arriving }
        requires within { All (IsWithin (length self.old.lanes.lanes)) arriving.landings.items }
        ensures shard { self.new.shard ≡ self.old.shard }
        ensures records { self.new.records.items ≡ self.old.records.items ++ arriving.records.items }
        ensures kept { (s : Setting) (h : List Entry) → HasFoundTries s self.old.shard →
            Legal s (Entry.Came self.old.shard (came_count h self.old.shard) (length arriving.records.items) moment ∷ h) →
            AreArriving s self.old.shard (came_count h self.old.shard) arriving → IsShard s h self.old →
            IsShard s (Entry.Came self.old.shard (came_count h self.old.shard) (length arriving.records.items) moment ∷ h) self.new }
        ensures splits { SameSplits self.old.lanes self.new.lanes }
        ensures running { (k : ℕ) → (lane_in self.new.lanes k).state ≡ (lane_in self.old.lanes k).state }
        ensures states { self.new.windows.states ≡ self.old.windows.states }
        ensures tries { self.new.windows.tries ≡ self.old.windows.tries }
    {
        let first = self.progress.len();
        let Arriving {
            records,
            mut measures,
            fates,
            landings,
            windows,
            last,
        } = arriving;
        let count = records.len();
        self.progress.came(fates.as_slice());
        self.arrivals.came(count as u32, moment);
        self.callings.came(count);
        self.windows.came(windows.as_slice(), last);
        land(&mut self.lanes, alloc, first, landings.as_slice());
        self.records.came(records, fates.as_slice());
        let _ = self.measures.append(&mut measures);
    }
}
