//! What a kept lane says of a legal history. Each law is the contract of a function that does nothing. A history is written
//! newest entry first.
ghost use Rattle.std.specs.Prelude.{◌≡◌, ℕ, suc, ◌+◌, ◌≤◌, [], List, ◌∷◌, Some, if◌then◌else◌};
ghost use Rattle.esm_model.specs.declared.lane.LaneId.{LaneId};
ghost use Rattle.esm_model.specs.declared.entry.Entry.{Entry};
ghost use Rattle.esm_model.specs.Setting.{Setting, Stream, Extends, over};
ghost use Rattle.esm_model.specs.Entries.{came_count};
ghost use Rattle.esm_model.specs.Batches.{delay_end, delay_from};
ghost use Rattle.esm_model.specs.Owed.{debts, unsorted};
ghost use Rattle.esm_model.specs.Step.{Legal};
ghost use Rattle.esm_shard_index.specs.declared.lane_state.Running.{Running};
ghost use Rattle.esm_shard_index.specs.LaneView.{LaneView, empty_view, after_came, after_arrivals, after_reserved};
ghost use Rattle.esm_shard_index.specs.LaneHistory.{IsLane, HasFoundTries, arrives, arriving, standing_at};
ghost use Rattle.esm_shard_index.specs.LaneSteps.{after_entry, lane_told, IsGrouped, HasCallTries, IsBounded, ArrivalsFit};

/// A lane of a shard of which no record came is empty.
pub fn lane_begins()
    ensures { (s : Setting) (h : List Entry) (lane : LaneId) → Legal s h → came_count h lane.shard ≡ 0 → IsLane s h lane empty_view }
{}

/// One more entry of a legal history changes a lane as the calls of the table do, whatever the other lanes and shards do. An
/// entry that is neither of the lane nor a `Came` of its shard leaves it as it is.
pub fn lane_goes_on()
    ensures { (s : Setting) (h : List Entry) (e : Entry) (lane : LaneId) (v : LaneView) → HasFoundTries s lane.shard → Legal s (e ∷ h) →
        IsLane s h lane v → IsLane s (e ∷ h) lane (after_entry s h lane v e) }
{}

/// So a lane that is kept from the start is as the history says.
pub fn lane_is_told()
    ensures { (s : Setting) (h : List Entry) (lane : LaneId) → HasFoundTries s lane.shard → Legal s h → IsLane s h lane (lane_told s h lane) }
{}

/// If a lane owes nothing and the filter refuses no open record of its shard, its group is its front piece.
pub fn lane_is_grouped()
    ensures { (s : Setting) (h : List Entry) (lane : LaneId) (v : LaneView) → debts s h lane ≡ [] → unsorted s h lane.shard ≡ [] →
        IsLane s h lane v → IsGrouped s h lane v }
{}

/// The tries of a batch that runs are those of the front piece.
pub fn call_has_tries()
    ensures { (s : Setting) (h : List Entry) (lane : LaneId) (v : LaneView) (r : Running) → IsLane s h lane v → v.state.running ≡ Some r →
        1 ≤ r.count → HasCallTries s h lane v }
{}

/// The lane's delay is computed from what is kept of it.
pub fn lane_has_delay()
    ensures { (s : Setting) (h : List Entry) (lane : LaneId) (v : LaneView) → IsLane s h lane v →
        delay_end s h lane ≡ delay_from v.state.failures v.state.last_end }
{}

/// What is kept of a lane stays within what came and what was called.
pub fn lane_is_bounded()
    ensures { (s : Setting) (h : List Entry) (lane : LaneId) (v : LaneView) → Legal s h → IsLane s h lane v → IsBounded h lane v }
{}

/// The records of a `Came` may be taken one by one: each that arrives in the lane is added.
pub fn arrivals_are_added()
    ensures { (s : Setting) (lane : LaneId) (first count : ℕ) (v : LaneView) →
        let standing = standing_at s lane.shard in let before = after_arrivals standing
        (arriving s lane first count) v in let place = first + count in after_arrivals standing (arriving s lane first (suc count)) v
        ≡ (if arrives s lane place then after_came (standing place) place before else before) }
{}

/// `count` records that come fit if `count` arrivals are reserved.
pub fn arrivals_do_fit()
    ensures { (s : Setting) (lane : LaneId) (first count : ℕ) (v : LaneView) →
        ArrivalsFit s lane first count v (after_arrivals (standing_at s lane.shard) (arriving s lane first count) v) }
{}

/// A lane is still as the history says after memory was reserved for it.
pub fn reserve_keeps_lane()
    ensures { (s : Setting) (h : List Entry) (lane : LaneId) (adds splits : ℕ) (v : LaneView) → IsLane s h lane v →
        IsLane s h lane (after_reserved adds splits v) }
{}

/// Over longer lists of records, a lane is still as the history says.
pub fn lane_over_more_records()
    ensures { (s : Setting) (after : List Stream) (h : List Entry) (lane : LaneId) (v : LaneView) → Extends s.streams after → Legal s h →
        IsLane s h lane v → IsLane (over s after) h lane v }
{}

/// And an entry changes it in the same way.
pub fn entry_over_more_records()
    ensures { (s : Setting) (after : List Stream) (h : List Entry) (e : Entry) (lane : LaneId) (v : LaneView) → Extends s.streams after →
        Legal s (e ∷ h) → after_entry (over s after) h lane v e ≡ after_entry s h lane v e }
{}
