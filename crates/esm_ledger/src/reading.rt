//! Reads a ledger: each answer is the definition of its word. Nothing takes memory.
ghost use Rattle.std.specs.Prelude.{◌≡◌, ℕ, ◌<◌, ◌≤◌, ◌↔◌, [], Some, true, false, length, option_copied, IfSome, IsNone};
ghost use Rattle.esm_model.specs.Records.{Record};
ghost use Rattle.esm_model.specs.Setting.{record_at};
ghost use Rattle.esm_model.specs.EventText.{record_text};
ghost use Rattle.esm_model.specs.Entries.{came_count, came_moment, is_running, last_call, batch_of};
ghost use Rattle.esm_model.specs.Fates.{open_places, lacks_fate};
ghost use Rattle.esm_model.specs.Tries.{window_tries};
ghost use Rattle.esm_model.specs.Windows.{window_of, kept_state, is_outstanding};
ghost use Rattle.esm_model.specs.Batches.{delay_end};
ghost use Rattle.esm_model.specs.FailureLine.{calls_of, response_of};
ghost use Rattle.esm_shard_index.specs.LaneSteps.{IsGroupOf};
ghost use Rattle.esm_shard_index.specs.WindowsLaws.{closing_of};
ghost use Rattle.esm_ledger.specs.Shard.{closing_in, measure_at};
ghost use Rattle.esm_ledger.specs.Ledger.{past_of, setting_of, Keeps};
ghost use Rattle.esm_ledger.specs.Reading.{lane_of_batcher, IsLaneSettled, IsLeastDueWindow};

use crate::ledger::Ledger;
use crate::measure::Measure;
use esm_model::{Bytes, LaneId, Record, Response};
use esm_shard_index::{Front, Running};

impl Ledger {
    /// The lane that the batcher serves; `None` if its shard has not come.
    pub fn lane_of_batcher(&self, batcher: u32) -> Option<LaneId>
        requires { Keeps self.now }
        ensures { result ≡ lane_of_batcher (setting_of self.now) (past_of self.now) batcher }
    {
        let at = (batcher / self.config.factor) as usize;
        match self.shards.get(at) {
            None => None,
            Some(kept) => Some(LaneId {
                shard: kept.shard,
                lane: batcher % self.config.factor,
            }),
        }
    }

    /// The group of a lane that is settled: its places, whether its first record is fresh, and the tries of that record;
    /// `None` if and only if no record of the lane is open.
    pub fn front(&self, lane: LaneId) -> Option<Front<'_>>
        requires kept { Keeps self.now }
        requires known { lane.lane < self.now.config.factor }
        requires settled { IsLaneSettled (setting_of self.now) (past_of self.now) lane }
        ensures none { IsNone result ↔ (open_places (setting_of self.now) (past_of self.now) lane ≡ []) }
        ensures front { IfSome result (λ f. IsGroupOf (setting_of self.now) (past_of self.now) lane f.places.now f.fresh f.tries) }
    {
        match self.kept(lane.shard) {
            None => None,
            Some(kept) => kept.lanes.front(lane.lane),
        }
    }

    /// The number of open records of a lane that is settled.
    pub fn open_count(&self, lane: LaneId) -> u32
        requires kept { Keeps self.now }
        requires known { lane.lane < self.now.config.factor }
        requires settled { IsLaneSettled (setting_of self.now) (past_of self.now) lane }
        ensures { result ≡ length (open_places (setting_of self.now) (past_of self.now) lane) }
    {
        match self.kept(lane.shard) {
            None => 0,
            Some(kept) => kept.lanes.count(lane.lane),
        }
    }

    /// The moment at which the lane's delay runs out, in milliseconds; 0 if there is none.
    pub fn delay_end(&self, lane: LaneId) -> u64
        requires kept { Keeps self.now }
        requires known { lane.lane < self.now.config.factor }
        ensures { result ≡ delay_end (setting_of self.now) (past_of self.now) lane }
    {
        match self.kept(lane.shard) {
            None => 0,
            Some(kept) => kept.lanes.state(lane.lane).delay_end(),
        }
    }

    /// The places of the lane's running call, in order; a final call has none.
    pub fn called(&self, lane: LaneId) -> &[u32]
        requires kept { Keeps self.now }
        requires runs { is_running (past_of self.now) lane ≡ true }
        ensures { result.now ≡ batch_of (last_call (past_of self.now) lane) }
    {
        match self.kept(lane.shard) {
            None => &[],
            Some(kept) => kept.lanes.called(lane.lane),
        }
    }

    /// The window that the lane's running call closes, if it is a final one.
    pub fn closing(&self, lane: LaneId) -> Option<u64>
        requires kept { Keeps self.now }
        requires runs { is_running (past_of self.now) lane ≡ true }
        ensures { result ≡ closing_of (last_call (past_of self.now) lane) }
    {
        match self.kept(lane.shard) {
            None => None,
            Some(kept) => closing_window(kept.lanes.state(lane.lane).running),
        }
    }

    /// The shard's record at the place, if it came; it is held as long as it has no fate.
    pub fn record(&self, shard: u64, place: u32) -> Option<&Record>
        requires kept { Keeps self.now }
        requires open { lacks_fate (setting_of self.now) (past_of self.now) shard place ≡ true }
        ensures { option_copied result ≡ record_at (setting_of self.now) shard place }
    {
        match self.kept(shard) {
            None => None,
            Some(kept) => kept.records.get(place),
        }
    }

    /// The length in bytes of the record's element in an event.
    pub fn element_length(&self, shard: u64, place: u32) -> u32
        requires kept { Keeps self.now }
        ensures { (r : Record) → record_at (setting_of self.now) shard place ≡ Some r → result ≡ length (record_text self.now.config r) }
    {
        match self.kept(shard) {
            None => 0,
            Some(kept) => measure_of(&kept.measures, place).length,
        }
    }

    /// The start of the record's tumbling window, in milliseconds.
    pub fn window_of(&self, shard: u64, place: u32) -> u64
        requires kept { Keeps self.now }
        requires came { place < came_count (past_of self.now) shard }
        ensures { result ≡ window_of (setting_of self.now) shard place }
    {
        match self.kept(shard) {
            None => 0,
            Some(kept) => measure_of(&kept.measures, place).window,
        }
    }

    /// The moment at which the record came, in milliseconds.
    pub fn came_moment(&self, shard: u64, place: u32) -> u64
        requires kept { Keeps self.now }
        requires came { place < came_count (past_of self.now) shard }
        ensures { result ≡ came_moment (past_of self.now) shard place }
    {
        match self.kept(shard) {
            None => 0,
            Some(kept) => kept.arrivals.moment(place),
        }
    }

    /// The number of calls whose batch held the record.
    pub fn calls_of(&self, shard: u64, place: u32) -> u32
        requires kept { Keeps self.now }
        requires came { place < came_count (past_of self.now) shard }
        ensures { result ≡ calls_of (past_of self.now) shard place }
    {
        match self.kept(shard) {
            None => 0,
            Some(kept) => kept.callings.calls(place),
        }
    }

    /// The answer to the last of these calls that ended; `None` if it was lost or garbled, or none ended.
    pub fn response_of(&self, shard: u64, place: u32) -> Option<Response>
        requires kept { Keeps self.now }
        requires came { place < came_count (past_of self.now) shard }
        ensures { result ≡ response_of (past_of self.now) shard place }
    {
        match self.kept(shard) {
            None => None,
            Some(kept) => kept.callings.response(place),
        }
    }

    /// The JSON text of the window's state, if it has one, of a shard that came.
    pub fn state(&self, shard: u64, window: u64) -> Option<&Bytes>
        requires kept { Keeps self.now }
        requires came { 1 ≤ came_count (past_of self.now) shard }
        ensures { option_copied result ≡ kept_state (setting_of self.now) (past_of self.now) shard window }
    {
        match self.kept(shard) {
            None => None,
            Some(kept) => kept.windows.state(window),
        }
    }

    /// The number of failed tries of the window's final call, of a shard that came.
    pub fn window_tries(&self, shard: u64, window: u64) -> u32
        requires kept { Keeps self.now }
        requires came { 1 ≤ came_count (past_of self.now) shard }
        ensures { result ≡ window_tries (setting_of self.now) (past_of self.now) shard window }
    {
        match self.kept(shard) {
            None => 0,
            Some(kept) => kept.windows.tries(window),
        }
    }

    /// Whether a window of the shard is outstanding.
    pub fn has_outstanding(&self, shard: u64) -> bool
        requires { Keeps self.now }
        ensures none { result ≡ false → (w : ℕ) → is_outstanding (setting_of self.now) (past_of self.now) shard w ≡ false }
        ensures some { result ≡ true → (w : ℕ) × (is_outstanding (setting_of self.now) (past_of self.now) shard w ≡ true) }
    {
        if self.config.tumbling_ms == 0 {
            return false;
        }
        match self.kept(shard) {
            None => false,
            Some(kept) => kept.windows.has_outstanding(),
        }
    }

    /// The least window of the shard that is due, if one is.
    pub fn least_due(&self, shard: u64) -> Option<u64>
        requires kept { Keeps self.now }
        ensures { IsLeastDueWindow (setting_of self.now) (past_of self.now) shard result }
    {
        if self.config.tumbling_ms == 0 {
            return None;
        }
        match self.kept(shard) {
            None => None,
            Some(kept) => kept.windows.least_due(self.shut),
        }
    }
}

/// The window that the call closes, if it is a final one.
fn closing_window(running: Option<Running>) -> Option<u64>
    ensures { result ≡ closing_in running }
{
    match running {
        None => None,
        Some(running) => running.closing,
    }
}

/// What is kept of the record at the place beside it; zeros if it did not come.
fn measure_of(measures: &Vec<Measure>, place: u32) -> Measure
    ensures { result ≡ measure_at measures.now.items place }
{
    match measures.get(place as usize) {
        None => Measure {
            length: 0,
            window: 0,
        },
        Some(measure) => *measure,
    }
}
