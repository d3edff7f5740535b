// What a lane does next, by the first rule that holds.
ghost use Rattle.std.specs.Prelude.{◌≡◌, ℕ, ◌&&◌, ◌≤◌, ◌<◌, Some, None, false, true, [], IfOk, IfSome, IfNone, slice_index};
ghost use Rattle.esm_model.specs.declared.moment.TheConstants.{MAX_MOMENT};
ghost use Rattle.esm_model.specs.declared.book.Next.TheVariants as next;
ghost use Rattle.esm_model.specs.Entries.{came_count, is_shut};
ghost use Rattle.esm_model.specs.Fates.{open_places};
ghost use Rattle.esm_model.specs.Moment.{moment_after};
ghost use Rattle.esm_model.specs.Windows.{is_due};
ghost use Rattle.esm_model.specs.Batches.{is_expired};
ghost use Rattle.esm_ledger.specs.Ledger.{past_of, setting_of, Keeps};
ghost use Rattle.esm_ledger.specs.Reading.{IsLaneSettled, IsLeastDueWindow};
ghost use Rattle.esm_next.specs.Following.{job_of, outstanding, is_nothing, due_windows, least, next_call, next_allowed};
ghost use Rattle.esm_next.specs.Deciding.{IsWithinBounds, answer_of, Gives, IsDecided};
ghost use Rattle.esm_next.specs.Gathering.{IsFrontOf};
ghost use Rattle.esm_next.specs.declared.decision.Decision.TheVariants as decision;

use crate::batch::decide_batch;
use crate::decision::Decision;
use crate::event::{job, window_call_of};
use crate::expiry::{expire, expired_count};
use esm_ledger::Ledger;
use esm_model::{LaneId, MAX_MOMENT, OutOfMemory};
use std::alloc::Global;

/// What a lane of a shard that came does next.
pub(crate) fn decide_lane(
    alloc: Global,
    ledger: &Ledger,
    lane: LaneId,
    now: u64,
) -> Result<Decision, OutOfMemory>
    requires kept { Keeps ledger.now }
    requires bounds { IsWithinBounds ledger.now }
    requires known { lane.lane < ledger.now.config.factor }
    requires came { 1 ≤ came_count (past_of ledger.now) lane.shard }
    requires settled { IsLaneSettled (setting_of ledger.now) (past_of ledger.now) lane }
    requires moment { now ≤ MAX_MOMENT }
    ensures { IfOk result (IsDecided (setting_of ledger.now) (past_of ledger.now) lane now) }
{
    match ledger.front(lane) {
        None => decide_empty(alloc, ledger, lane, now),
        Some(front) => decide_front(alloc, ledger, lane, front.places, front.fresh, now),
    }
}

/// Decides for a lane without open records.
fn decide_empty(
    alloc: Global,
    ledger: &Ledger,
    lane: LaneId,
    now: u64,
) -> Result<Decision, OutOfMemory>
    requires kept { Keeps ledger.now }
    requires bounds { IsWithinBounds ledger.now }
    requires known { lane.lane < ledger.now.config.factor }
    requires came { 1 ≤ came_count (past_of ledger.now) lane.shard }
    requires moment { now ≤ MAX_MOMENT }
    requires none { open_places (setting_of ledger.now) (past_of ledger.now) lane ≡ [] }
    ensures { IfOk result (IsDecided (setting_of ledger.now) (past_of ledger.now) lane now) }
{
    if is_over(ledger, lane.shard) {
        return Ok(Decision::Finished);
    }
    match ledger.least_due(lane.shard) {
        None => Ok(pause(now)),
        Some(window) => decide_due(alloc, ledger, lane, window, now),
    }
}

/// Whether the input ended and no window of the shard is outstanding.
fn is_over(ledger: &Ledger, shard: u64) -> bool
    requires kept { Keeps ledger.now }
    ensures { result ≡ (is_shut (past_of ledger.now) && is_nothing (outstanding (setting_of ledger.now) (past_of ledger.now) shard)) }
{
    if ledger.is_shut() {
        !ledger.has_outstanding(shard)
    } else {
        false
    }
}

/// A pause of 20 milliseconds.
pub(crate) fn pause(now: u64) -> Decision
    requires { now ≤ MAX_MOMENT }
    ensures { result ≡ decision.Idle (moment_after now 20) }
{
    Decision::Idle {
        until: (now + 20).min(MAX_MOMENT),
    }
}

/// Decides for a lane with open records, of which the first ones are these.
fn decide_front(
    alloc: Global,
    ledger: &Ledger,
    lane: LaneId,
    places: &[u32],
    fresh: bool,
    now: u64,
) -> Result<Decision, OutOfMemory>
    requires kept { Keeps ledger.now }
    requires bounds { IsWithinBounds ledger.now }
    requires known { lane.lane < ledger.now.config.factor }
    requires came { 1 ≤ came_count (past_of ledger.now) lane.shard }
    requires moment { now ≤ MAX_MOMENT }
    requires front { IsFrontOf (setting_of ledger.now) (past_of ledger.now) lane places.now fresh }
    ensures { IfOk result (IsDecided (setting_of ledger.now) (past_of ledger.now) lane now) }
{
    let count = expired_count(ledger, lane.shard, places, now);
    if count > 0 {
        return expire(alloc, ledger, lane, &places[..count], now);
    }
    decide_open(alloc, ledger, lane, places, fresh, now)
}

/// Decides for a lane with open records, of which the first is not expired.
fn decide_open(
    alloc: Global,
    ledger: &Ledger,
    lane: LaneId,
    places: &[u32],
    fresh: bool,
    now: u64,
) -> Result<Decision, OutOfMemory>
    requires kept { Keeps ledger.now }
    requires bounds { IsWithinBounds ledger.now }
    requires known { lane.lane < ledger.now.config.factor }
    requires came { 1 ≤ came_count (past_of ledger.now) lane.shard }
    requires front { IsFrontOf (setting_of ledger.now) (past_of ledger.now) lane places.now fresh }
    requires young { is_expired (setting_of ledger.now) lane.shard now (slice_index places.now 0) ≡ false }
    ensures answer { IfOk result (λ d. answer_of d ≡ next_allowed (setting_of ledger.now) (past_of ledger.now) lane now) }
    ensures gives { IfOk result (Gives (setting_of ledger.now) (past_of ledger.now) lane now) }
{
    match ledger.least_due(lane.shard) {
        Some(due) => decide_due(alloc, ledger, lane, due, now),
        None => decide_batched(alloc, ledger, lane, places, fresh, now),
    }
}

/// Decides for a lane of whose shard no window is due.
fn decide_batched(
    alloc: Global,
    ledger: &Ledger,
    lane: LaneId,
    places: &[u32],
    fresh: bool,
    now: u64,
) -> Result<Decision, OutOfMemory>
    requires kept { Keeps ledger.now }
    requires bounds { IsWithinBounds ledger.now }
    requires known { lane.lane < ledger.now.config.factor }
    requires front { IsFrontOf (setting_of ledger.now) (past_of ledger.now) lane places.now fresh }
    requires young { is_expired (setting_of ledger.now) lane.shard now (slice_index places.now 0) ≡ false }
    requires none { IsLeastDueWindow (setting_of ledger.now) (past_of ledger.now) lane.shard None }
    ensures answer { IfOk result (λ d. answer_of d ≡ next_allowed (setting_of ledger.now) (past_of ledger.now) lane now) }
    ensures gives { IfOk result (Gives (setting_of ledger.now) (past_of ledger.now) lane now) }
{
    match held_back(ledger, lane, now) {
        Some(held) => Ok(held),
        None => decide_batch(alloc, ledger, lane, places, fresh, now),
    }
}

/// Decides for a lane of whose shard this is the least window that is due.
fn decide_due(
    alloc: Global,
    ledger: &Ledger,
    lane: LaneId,
    window: u64,
    now: u64,
) -> Result<Decision, OutOfMemory>
    requires kept { Keeps ledger.now }
    requires bounds { IsWithinBounds ledger.now }
    requires known { lane.lane < ledger.now.config.factor }
    requires came { 1 ≤ came_count (past_of ledger.now) lane.shard }
    requires due { IsLeastDueWindow (setting_of ledger.now) (past_of ledger.now) lane.shard (Some window) }
    ensures answer { IfOk result (λ d. answer_of d ≡ next_allowed (setting_of ledger.now) (past_of ledger.now) lane now) }
    ensures gives { IfOk result (Gives (setting_of ledger.now) (past_of ledger.now) lane now) }
{
    match held_back(ledger, lane, now) {
        Some(held) => Ok(held),
        None => call_final(alloc, ledger, lane, window),
    }
}

/// What holds the lane back: all calls allowed were made, or its delay is not over. `None` if nothing does.
#[tactic(auto, using(crate::proofs::Lanes::spent_is, crate::proofs::Lanes::waits_is, crate::proofs::Lanes::free_is))]
fn held_back(ledger: &Ledger, lane: LaneId, now: u64) -> Option<Decision>
    requires kept { Keeps ledger.now }
    requires known { lane.lane < ledger.now.config.factor }
    ensures held { IfSome result (λ d. answer_of d ≡ next_allowed (setting_of ledger.now) (past_of ledger.now) lane now) }
    ensures gives { IfSome result (Gives (setting_of ledger.now) (past_of ledger.now) lane now) }
    ensures free { IfNone result (next_allowed (setting_of ledger.now) (past_of ledger.now) lane now
        ≡ next_call (setting_of ledger.now) (past_of ledger.now) lane now (least (due_windows (setting_of ledger.now) (past_of ledger.now) lane.shard))) }
{
    if ledger.calls_begun() >= u64::from(ledger.calls) {
        return Some(Decision::Spent);
    }
    let until = ledger.delay_end(lane);
    if now < until {
        return Some(Decision::Idle { until });
    }
    None
}

/// The call without records that closes the window.
fn call_final(
    alloc: Global,
    ledger: &Ledger,
    lane: LaneId,
    window: u64,
) -> Result<Decision, OutOfMemory>
    requires kept { Keeps ledger.now }
    requires bounds { IsWithinBounds ledger.now }
    requires came { 1 ≤ came_count (past_of ledger.now) lane.shard }
    requires due { is_due (setting_of ledger.now) (past_of ledger.now) lane.shard window ≡ true }
    ensures answer { IfOk result (λ d. answer_of d ≡ next.Call (job_of (setting_of ledger.now) (past_of ledger.now) lane [] (Some window))) }
    ensures gives { IfOk result (λ d. (m : ℕ) → Gives (setting_of ledger.now) (past_of ledger.now) lane m d) }
{
    let call = window_call_of(alloc, ledger, lane.shard, window, true)?;
    let job = job(alloc, ledger, lane, &[], Some(window), call.as_ref())?;
    Ok(Decision::Call(job))
}
