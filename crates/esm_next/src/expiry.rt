// Records at the front of a lane that are older than the maximum record age.
ghost use Rattle.std.specs.Prelude.{◌≡◌, ◌≤◌, ◌<◌, true, IfOk, length, take, take_while};
ghost use Rattle.std.specs.List.{All};
ghost use Rattle.esm_model.specs.declared.limits.TheConstants.{MAX_EXPIRED};
ghost use Rattle.esm_model.specs.declared.moment.TheConstants.{MAX_MOMENT};
ghost use Rattle.esm_model.specs.declared.book.Next.TheVariants as next;
ghost use Rattle.esm_model.specs.ValidCall.{IsValidFailure};
ghost use Rattle.esm_model.specs.Entries.{came_count};
ghost use Rattle.esm_model.specs.Fates.{lacks_fate};
ghost use Rattle.esm_model.specs.Batches as spec;
ghost use Rattle.esm_model.specs.FailureLine.{failure_line, failure_of, sequence_at, arrival_at};
ghost use Rattle.esm_model.specs.FailureText as text;
ghost use Rattle.esm_ledger.specs.Ledger.{past_of, setting_of, Keeps};
ghost use Rattle.esm_ledger.specs.Reading.{AreOpen};
ghost use Rattle.esm_next.specs.Following.{expiring};
ghost use Rattle.esm_next.specs.Deciding.{IsWithinBounds, answer_of, Gives};

use crate::decision::Decision;
use crate::event::copied;
use esm_event::failure_text;
use esm_ledger::Ledger;
use esm_model::{Failure, LaneId, MAX_EXPIRED, OutOfMemory, Record, Seq, Text};
use std::alloc::Global;

/// How many of the first places expire at the moment, at most 10,000. Looks at these places and one more.
pub(crate) fn expired_count(ledger: &Ledger, shard: u64, places: &[u32], now: u64) -> usize
    requires kept { Keeps ledger.now }
    requires open { AreOpen (setting_of ledger.now) (past_of ledger.now) shard places.now }
    ensures within { result ≤ length places.now }
    ensures few { result ≤ MAX_EXPIRED }
    ensures prefix { take result places.now ≡ take MAX_EXPIRED (take_while (spec.is_expired (setting_of ledger.now) shard now) places.now) }
{
    let mut count = 0;
    for place in places {
        if count == MAX_EXPIRED {
            return count;
        }
        if !is_expired(ledger, shard, *place, now) {
            return count;
        }
        count += 1;
    }
    count
}

fn is_expired(ledger: &Ledger, shard: u64, place: u32, now: u64) -> bool
    requires kept { Keeps ledger.now }
    requires open { lacks_fate (setting_of ledger.now) (past_of ledger.now) shard place ≡ true }
    ensures { result ≡ spec.is_expired (setting_of ledger.now) shard now place }
{
    match ledger.record(shard, place) {
        None => false,
        Some(record) => is_older(ledger.config.age_ms, record, now),
    }
}

fn is_older(age_ms: Option<u64>, item: &Record, now: u64) -> bool
    ensures { result ≡ spec.is_older age_ms item.now now }
{
    match age_ms {
        None => false,
        Some(age) => now.saturating_sub(item.arrival()) > age,
    }
}

/// Decides that these places of the lane expire.
pub(crate) fn expire(
    alloc: Global,
    ledger: &Ledger,
    lane: LaneId,
    places: &[u32],
    now: u64,
) -> Result<Decision, OutOfMemory>
    requires kept { Keeps ledger.now }
    requires bounds { IsWithinBounds ledger.now }
    requires came { All (λ p. p < came_count (past_of ledger.now) lane.shard) places.now }
    requires open { AreOpen (setting_of ledger.now) (past_of ledger.now) lane.shard places.now }
    requires some { 1 ≤ length places.now }
    requires few { length places.now ≤ MAX_EXPIRED }
    requires expired { places.now ≡ expiring (setting_of ledger.now) (past_of ledger.now) lane now }
    requires moment { now ≤ MAX_MOMENT }
    ensures answer { IfOk result (λ d. answer_of d ≡ next.Gave (length places.now)) }
    ensures gives { IfOk result (Gives (setting_of ledger.now) (past_of ledger.now) lane now) }
{
    let line = line(alloc, ledger, lane.shard, places, now)?;
    Ok(Decision::Expire {
        lane,
        places: copied(alloc, places)?,
        line,
    })
}

/// The line for the failure destination; `None` if none is set.
fn line(
    alloc: Global,
    ledger: &Ledger,
    shard: u64,
    places: &[u32],
    now: u64,
) -> Result<Option<Text>, OutOfMemory>
    requires kept { Keeps ledger.now }
    requires bounds { IsWithinBounds ledger.now }
    requires came { All (λ p. p < came_count (past_of ledger.now) shard) places.now }
    requires open { AreOpen (setting_of ledger.now) (past_of ledger.now) shard places.now }
    requires some { 1 ≤ length places.now }
    requires few { length places.now ≤ MAX_EXPIRED }
    requires moment { now ≤ MAX_MOMENT }
    ensures { IfOk result (λ line. line ≡ failure_line (setting_of ledger.now) (past_of ledger.now) shard places.now true now) }
{
    match &ledger.config.destination {
        None => Ok(None),
        Some(_) => Ok(Some(told_line(alloc, ledger, shard, places, now)?)),
    }
}

fn told_line(
    alloc: Global,
    ledger: &Ledger,
    shard: u64,
    places: &[u32],
    now: u64,
) -> Result<Text, OutOfMemory>
    requires kept { Keeps ledger.now }
    requires bounds { IsWithinBounds ledger.now }
    requires came { All (λ p. p < came_count (past_of ledger.now) shard) places.now }
    requires open { AreOpen (setting_of ledger.now) (past_of ledger.now) shard places.now }
    requires some { 1 ≤ length places.now }
    requires few { length places.now ≤ MAX_EXPIRED }
    requires moment { now ≤ MAX_MOMENT }
    ensures { IfOk result (λ line. line ≡ text.failure_text ledger.now.config
        (failure_of (setting_of ledger.now) (past_of ledger.now) shard places.now true now)) }
{
    let failure = failure(alloc, ledger, shard, places, now)?;
    failure_text(alloc, &ledger.config, &failure)
}

/// What the line says.
fn failure(
    alloc: Global,
    ledger: &Ledger,
    shard: u64,
    places: &[u32],
    now: u64,
) -> Result<Failure, OutOfMemory>
    requires kept { Keeps ledger.now }
    requires bounds { IsWithinBounds ledger.now }
    requires came { All (λ p. p < came_count (past_of ledger.now) shard) places.now }
    requires open { AreOpen (setting_of ledger.now) (past_of ledger.now) shard places.now }
    requires some { 1 ≤ length places.now }
    requires few { length places.now ≤ MAX_EXPIRED }
    requires moment { now ≤ MAX_MOMENT }
    ensures value { IfOk result (λ f. f ≡ failure_of (setting_of ledger.now) (past_of ledger.now) shard places.now true now) }
    ensures valid { IfOk result IsValidFailure }
{
    let place = places[0];
    let first = edge_of(alloc, ledger, shard, place)?;
    let last = edge_of(alloc, ledger, shard, places[places.len() - 1])?;
    Ok(Failure {
        shard,
        place,
        first: first.seq,
        last: last.seq,
        first_arrival: first.arrival,
        last_arrival: last.arrival,
        count: places.len() as u32,
        expired: true,
        calls: ledger.calls_of(shard, place),
        response: ledger.response_of(shard, place),
        moment: now,
    })
}

/// The first or the last of the records that expire.
#[derive(Drop)]
struct Edge {
    seq: Seq,
    arrival: u64,
}

#[tactic(auto, using(crate::proofs::Lines::sequence_there, crate::proofs::Lines::arrival_there, crate::proofs::Lines::arrival_early))]
fn edge_of(alloc: Global, ledger: &Ledger, shard: u64, place: u32) -> Result<Edge, OutOfMemory>
    requires kept { Keeps ledger.now }
    requires bounds { IsWithinBounds ledger.now }
    requires came { place < came_count (past_of ledger.now) shard }
    requires open { lacks_fate (setting_of ledger.now) (past_of ledger.now) shard place ≡ true }
    ensures seq { IfOk result (λ e. e.seq ≡ sequence_at (setting_of ledger.now) shard place) }
    ensures arrival { IfOk result (λ e. e.arrival ≡ arrival_at (setting_of ledger.now) shard place) }
    ensures early { IfOk result (λ e. e.arrival ≤ MAX_MOMENT) }
{
    match ledger.record(shard, place) {
        None => unreachable!(),
        Some(record) => Ok(Edge {
            seq: record.sequence_copy(alloc)?,
            arrival: record.arrival(),
        }),
    }
}

/// The record's arrival in milliseconds.
#[tactic(auto, using(crate::proofs::Lines::arrival_none, crate::proofs::Lines::arrival_there))]
pub(crate) fn arrival(ledger: &Ledger, shard: u64, place: u32) -> u64
    requires kept { Keeps ledger.now }
    requires open { lacks_fate (setting_of ledger.now) (past_of ledger.now) shard place ≡ true }
    ensures { result ≡ arrival_at (setting_of ledger.now) shard place }
{
    match ledger.record(shard, place) {
        None => 0,
        Some(record) => record.arrival(),
    }
}
