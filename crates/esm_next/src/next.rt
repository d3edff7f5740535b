// Decides what the batcher of a lane does next, by the first rule that holds.
ghost use Rattle.std.specs.Prelude.{◌≡◌, ◌≤◌, ◌++◌, Some, false, IfOk, if◌then◌else◌};
ghost use Rattle.esm_model.specs.declared.lane.LaneId.{LaneId};
ghost use Rattle.esm_model.specs.declared.moment.TheConstants.{MAX_MOMENT};
ghost use Rattle.esm_model.specs.Moment.{moment_after};
ghost use Rattle.esm_model.specs.Entries.{last_moment, is_running};
ghost use Rattle.esm_model.specs.Owed.{Settled};
ghost use Rattle.esm_ledger.specs.Ledger.{past_of, setting_of, Keeps, LegalOver};
ghost use Rattle.esm_ledger.specs.Reading.{lane_of_batcher};
ghost use Rattle.esm_next.specs.Following.{next_for, next_entries};
ghost use Rattle.esm_next.specs.declared.decision.Decision.TheVariants as decision;
ghost use Rattle.esm_next.specs.Deciding.{OverAll, IsWithinBounds, answer_of, decision_entries, NamesLane};

use crate::decision::Decision;
use crate::lane::{decide_lane, pause};
use esm_ledger::Ledger;
use esm_model::OutOfMemory;
use std::alloc::Global;

/// What the batcher does next, by the first rule that holds (Lambda Developer Guide, event source mappings for Kinesis:
/// batching behavior, tumbling windows, error handling). At the moment `now`, in milliseconds:
/// 1. Expired records at the front of the lane get their fate.
/// 2. If the input ended, no record of the lane is open and no window of its shard is outstanding, it is finished.
/// 3. If no record is open and no window is due, it pauses for 20 milliseconds.
/// 4. If all calls allowed were made, they are spent.
/// 5. After a failure the lane waits until its delay is over.
/// 6. A window that is due is closed by a call without records.
/// 7. A batch without failed tries waits until it is full or cut, the input ended, or its batching window is over.
/// 8. The batch is called.
/// Looks at no more places than the batch size and one more, or those that expire and one more. Returns `OutOfMemory` if
/// there is no memory for what is decided.
pub fn decide_next(
    alloc: Global,
    ledger: &Ledger,
    batcher: u32,
    now: u64,
) -> Result<Decision, OutOfMemory>
    requires kept { Keeps ledger.now }
    requires bounds { IsWithinBounds ledger.now }
    requires settled { OverAll ledger.now (λ s. Settled s (past_of ledger.now)) }
    requires rests { (lane : LaneId) → lane_of_batcher (setting_of ledger.now) (past_of ledger.now) batcher ≡ Some lane
        → is_running (past_of ledger.now) lane ≡ false }
    requires later { last_moment (past_of ledger.now) ≤ now }
    requires moment { now ≤ MAX_MOMENT }
    ensures answer { IfOk result (λ d. OverAll ledger.now (λ s.
        answer_of d ≡ next_for s (past_of ledger.now) batcher now)) }
    ensures entries { IfOk result (λ d. OverAll ledger.now (λ s.
        decision_entries d now ≡ next_entries s (past_of ledger.now) batcher now (answer_of d))) }
    ensures legal { IfOk result (λ d. LegalOver (setting_of ledger.now) (decision_entries d now ++ past_of ledger.now)) }
    ensures settled { IfOk result (λ d. OverAll ledger.now (λ s. Settled s (decision_entries d now ++ past_of ledger.now))) }
    ensures lane { IfOk result (NamesLane ledger.now.config.factor) }
{
    match ledger.lane_of_batcher(batcher) {
        None => Ok(rest(ledger.is_shut(), now)),
        Some(lane) => decide_lane(alloc, ledger, lane, now),
    }
}

/// What a batcher does while its lane's shard has not come.
fn rest(shut: bool, now: u64) -> Decision
    requires { now ≤ MAX_MOMENT }
    ensures { result ≡ (if shut then decision.Finished else decision.Idle (moment_after now 20)) }
{
    if shut { Decision::Finished } else { pause(now) }
}
