//! The line that the failure destination gets for records that are given up.
ghost use Rattle.std.specs.Prelude.{◌≡◌, ◌≤◌, ◌<◌, ◌∷◌, true, false, length, IfOk};
ghost use Rattle.esm_model.specs.declared.moment.TheConstants.{MAX_MOMENT};
ghost use Rattle.esm_model.specs.declared.limits.TheConstants.{MAX_SHARD};
ghost use Rattle.esm_model.specs.declared.entry.Entry.{Entry};
ghost use Rattle.esm_model.specs.declared.verdict.Rest.{Rest};
ghost use Rattle.esm_model.specs.ValidCall.{IsValidFailure};
ghost use Rattle.esm_model.specs.Entries.{came_count};
ghost use Rattle.esm_model.specs.Fates.{lacks_fate};
ghost use Rattle.esm_model.specs.FailureLine.{failure_line, failure_of, sequence_at, arrival_at, response_in};
ghost use Rattle.esm_model.specs.FailureText as text;
ghost use Rattle.esm_ledger.specs.Ledger.{past_of, setting_of, Keeps};
ghost use Rattle.esm_outcome.specs.Ending.{AreValidRecords};
ghost use Rattle.esm_outcome.specs.Parts.{IsRest};

use esm_event::failure_text;
use esm_ledger::Ledger;
use esm_model::{Failure, LaneId, OutOfMemory, Reply, Response, Rest, Seq, Text};
use std::alloc::Global;

/// The line for the records of the lane's running call that did not succeed; `None` unless they are given up and a
/// destination is set. `now` is the moment of the end, in milliseconds.
pub fn line_of(
    alloc: Global,
    ledger: &Ledger,
    lane: LaneId,
    rest: Rest,
    left: &[u32],
    reply: &Reply,
    now: u64,
) -> Result<Option<Text>, OutOfMemory>
    requires kept { Keeps ledger.now }
    requires valid { AreValidRecords (setting_of ledger.now) }
    requires rest { IsRest ledger.now lane left.now }
    requires moment { now ≤ MAX_MOMENT }
    ensures { IfOk result (λ line. rest ≡ Rest.Exhausted → 1 ≤ length left.now →
        line ≡ failure_line (setting_of ledger.now) (Entry.Ended lane reply.now now ∷ past_of ledger.now) lane.shard left.now false now) }
{
    match rest {
        Rest::Exhausted => give_up_line(alloc, ledger, lane, left, reply, now),
        _ => Ok(None),
    }
}

fn give_up_line(
    alloc: Global,
    ledger: &Ledger,
    lane: LaneId,
    left: &[u32],
    reply: &Reply,
    now: u64,
) -> Result<Option<Text>, OutOfMemory>
    requires kept { Keeps ledger.now }
    requires valid { AreValidRecords (setting_of ledger.now) }
    requires rest { IsRest ledger.now lane left.now }
    requires moment { now ≤ MAX_MOMENT }
    ensures { IfOk result (λ line. 1 ≤ length left.now →
        line ≡ failure_line (setting_of ledger.now) (Entry.Ended lane reply.now now ∷ past_of ledger.now) lane.shard left.now false now) }
{
    if left.is_empty() {
        return Ok(None);
    }
    match &ledger.config.destination {
        None => Ok(None),
        Some(_) => Ok(Some(told_line(alloc, ledger, lane, left, reply, now)?)),
    }
}

fn told_line(
    alloc: Global,
    ledger: &Ledger,
    lane: LaneId,
    left: &[u32],
    reply: &Reply,
    now: u64,
) -> Result<Text, OutOfMemory>
    requires kept { Keeps ledger.now }
    requires valid { AreValidRecords (setting_of ledger.now) }
    requires rest { IsRest ledger.now lane left.now }
    requires some { 1 ≤ length left.now }
    requires moment { now ≤ MAX_MOMENT }
    ensures { IfOk result (λ line. line ≡ text.failure_text ledger.now.config
        (failure_of (setting_of ledger.now) (Entry.Ended lane reply.now now ∷ past_of ledger.now) lane.shard left.now false now)) }
{
    let failure = failure_of(alloc, ledger, lane, left, reply, now)?;
    failure_text(alloc, &ledger.config, &failure)
}

/// What the line says; the answer is that of the call that ends.
fn failure_of(
    alloc: Global,
    ledger: &Ledger,
    lane: LaneId,
    left: &[u32],
    reply: &Reply,
    now: u64,
) -> Result<Failure, OutOfMemory>
    requires kept { Keeps ledger.now }
    requires valid { AreValidRecords (setting_of ledger.now) }
    requires rest { IsRest ledger.now lane left.now }
    requires some { 1 ≤ length left.now }
    requires moment { now ≤ MAX_MOMENT }
    ensures failure { IfOk result (λ f. f ≡ failure_of (setting_of ledger.now)
        (Entry.Ended lane reply.now now ∷ past_of ledger.now) lane.shard left.now false now) }
    ensures valid { IfOk result IsValidFailure }
{
    let place = left[0];
    let first = edge_of(alloc, ledger, lane.shard, place)?;
    let last = edge_of(alloc, ledger, lane.shard, left[left.len() - 1])?;
    Ok(Failure {
        shard: lane.shard,
        place,
        first: first.seq,
        last: last.seq,
        first_arrival: first.arrival,
        last_arrival: last.arrival,
        count: left.len() as u32,
        expired: false,
        calls: ledger.calls_of(lane.shard, place),
        response: response_in(reply),
        moment: now,
    })
}

/// The first or the last record of those that are given up.
#[derive(Drop)]
struct Edge {
    seq: Seq,
    arrival: u64,
}

fn edge_of(alloc: Global, ledger: &Ledger, shard: u64, place: u32) -> Result<Edge, OutOfMemory>
    requires kept { Keeps ledger.now }
    requires valid { AreValidRecords (setting_of ledger.now) }
    requires came { place < came_count (past_of ledger.now) shard }
    requires open { lacks_fate (setting_of ledger.now) (past_of ledger.now) shard place ≡ true }
    ensures seq { IfOk result (λ e. e.seq ≡ sequence_at (setting_of ledger.now) shard place) }
    ensures arrival { IfOk result (λ e. e.arrival ≡ arrival_at (setting_of ledger.now) shard place) }
    ensures early { IfOk result (λ e. e.arrival ≤ MAX_MOMENT) }
    ensures named { shard ≤ MAX_SHARD }
{
    match ledger.record(shard, place) {
        None => unreachable!(),
        Some(record) => Ok(Edge {
            seq: record.sequence_copy(alloc)?,
            arrival: record.arrival(),
        }),
    }
}

/// The answer of a reply; `None` if it was lost or garbled.
fn response_in(reply: &Reply) -> Option<Response>
    ensures { result ≡ response_in reply.now }
{
    match reply {
        Reply::Answered {
            status,
            error,
            body: _,
        } => Some(Response {
            status: *status,
            error: *error,
        }),
        Reply::Garbled { bytes: _ } | Reply::Lost => None,
    }
}
