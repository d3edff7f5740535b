// The batch of a lane: how many of its group's first records the next call takes, and until when it waits for more.
ghost use Rattle.std.specs.Prelude.{◌≡◌, ◌≤◌, ◌<◌, true, false, IfOk, length, map, slice_index, None};
ghost use Rattle.std.specs.List.{All};
ghost use Rattle.std.specs.Option.{option_copied, ForSome};
ghost use Rattle.esm_model.specs.declared.limits.TheConstants.{MAX_EVENT};
ghost use Rattle.esm_model.specs.ValidCall.{IsValidWindowCall};
ghost use Rattle.esm_model.specs.Entries.{came_count};
ghost use Rattle.esm_model.specs.Fates.{lacks_fate};
ghost use Rattle.esm_model.specs.Batches.{is_expired};
ghost use Rattle.esm_next.specs.Cuts.{IsLongestPrefix, why_of};
ghost use Rattle.esm_ledger.specs.Ledger.{past_of, setting_of, Keeps};
ghost use Rattle.esm_ledger.specs.Reading.{AreOpen};
ghost use Rattle.esm_next.specs.Following.{next_batch};
ghost use Rattle.esm_next.specs.Deciding.{IsWithinBounds, answer_of, Gives};
ghost use Rattle.esm_next.specs.Gathering as spec;
ghost use Rattle.esm_next.specs.Gathering.{piece_of, limits_of, frame_of, element_bytes, IsFrontOf, wait_of};

use crate::decision::Decision;
use crate::event::{job, window_call_of};
use crate::expiry::arrival;
use crate::piece::{Cut, Limits, SizedItem, Why};
use crate::prefix::cut;
use esm_event::{frame_bytes, stream_bytes};
use esm_ledger::Ledger;
use esm_model::{LaneId, MAX_EVENT, OutOfMemory, WindowCall};
use std::alloc::Global;

/// Decides the call of the batch, or until when it waits. Looks at no more places than the batch size and one more.
pub(crate) fn decide_batch(
    alloc: Global,
    ledger: &Ledger,
    lane: LaneId,
    places: &[u32],
    fresh: bool,
    now: u64,
) -> Result<Decision, OutOfMemory>
    requires kept { Keeps ledger.now }
    requires bounds { IsWithinBounds ledger.now }
    requires front { IsFrontOf (setting_of ledger.now) (past_of ledger.now) lane places.now fresh }
    requires young { is_expired (setting_of ledger.now) lane.shard now (slice_index places.now 0) ≡ false }
    ensures answer { IfOk result (λ d. answer_of d ≡ next_batch (setting_of ledger.now) (past_of ledger.now) lane now) }
    ensures gives { IfOk result (Gives (setting_of ledger.now) (past_of ledger.now) lane now) }
{
    let first = places[0];
    let window = window_call_of(
        alloc,
        ledger,
        lane.shard,
        window_in(ledger, lane.shard, first),
        false,
    )?;
    let most = (ledger.config.batch_size as usize + 1).min(places.len());
    let front = &places[..most];
    let cut = cut_front(alloc, ledger, lane.shard, front, window.as_ref(), now)?;
    match waits_until(fresh, cut.why) {
        Some(until) => Ok(Decision::Idle { until }),
        None => {
            let batch = &front[..cut.count as usize];
            let job = job(alloc, ledger, lane, batch, None, window.as_ref())?;
            Ok(Decision::Call(job))
        }
    }
}

/// The start of the record's tumbling window; 0 if no windows are configured.
fn window_in(ledger: &Ledger, shard: u64, place: u32) -> u64
    requires kept { Keeps ledger.now }
    requires came { place < came_count (past_of ledger.now) shard }
    ensures { result ≡ spec.window_in (setting_of ledger.now) shard place }
{
    if ledger.config.tumbling_ms == 0 {
        0
    } else {
        ledger.window_of(shard, place)
    }
}

/// How many of these places the batch takes, and why it may begin. `window` is what its event says of its window.
fn cut_front(
    alloc: Global,
    ledger: &Ledger,
    shard: u64,
    front: &[u32],
    window: Option<&WindowCall>,
    now: u64,
) -> Result<Cut, OutOfMemory>
    requires kept { Keeps ledger.now }
    requires bounds { IsWithinBounds ledger.now }
    requires came { All (λ p. p < came_count (past_of ledger.now) shard) front.now }
    requires open { AreOpen (setting_of ledger.now) (past_of ledger.now) shard front.now }
    requires some { 1 ≤ length front.now }
    requires valid { ForSome (option_copied window) IsValidWindowCall }
    requires young { is_expired (setting_of ledger.now) shard now (slice_index front.now 0) ≡ false }
    ensures prefix { IfOk result (λ cut. IsLongestPrefix (limits_of (setting_of ledger.now) (past_of ledger.now) (option_copied window.entry)) now
        (map (piece_of (setting_of ledger.now) (past_of ledger.now) shard) front.now) cut.count) }
    ensures why { IfOk result (λ cut. cut.why ≡ why_of (limits_of (setting_of ledger.now) (past_of ledger.now) (option_copied window.entry)) now
        (map (piece_of (setting_of ledger.now) (past_of ledger.now) shard) front.now) cut.count) }
    ensures some { IfOk result (λ cut. 0 < cut.count) }
    ensures framed { IfOk result (λ _. frame_of (setting_of ledger.now) (option_copied window.entry) ≤ MAX_EVENT) }
{
    // The first record fits an event alone.
    let alone = first_bytes(ledger, shard, front[0]);
    let limits = limits(ledger, window);
    let pieces = pieces(alloc, ledger, shard, front)?;
    Ok(cut(pieces.as_slice(), &limits, now))
}

/// The length in bytes of the record's element in an event, without writing it; it fits an event alone.
fn first_bytes(ledger: &Ledger, shard: u64, place: u32) -> u32
    requires kept { Keeps ledger.now }
    requires bounds { IsWithinBounds ledger.now }
    requires open { lacks_fate (setting_of ledger.now) (past_of ledger.now) shard place ≡ true }
    ensures value { result ≡ element_bytes (setting_of ledger.now) shard place }
    ensures bound { result ≤ 2000000 }
{
    match ledger.record(shard, place) {
        None => 0,
        Some(record) => stream_bytes(&ledger.config, record),
    }
}

/// The limits of a batch. `window` is what its event says of its window.
fn limits(ledger: &Ledger, window: Option<&WindowCall>) -> Limits
    requires kept { Keeps ledger.now }
    requires valid { ForSome (option_copied window) IsValidWindowCall }
    ensures { result ≡ limits_of (setting_of ledger.now) (past_of ledger.now) (option_copied window.entry) }
{
    let frame = frame_bytes(&ledger.config, window);
    Limits {
        count: ledger.config.batch_size,
        payload: (MAX_EVENT as u32).saturating_sub(frame),
        window_ms: ledger.config.window_ms,
        age_ms: ledger.config.age_ms,
        shut: ledger.is_shut(),
    }
}

/// What the cut needs to know of the records at the places.
fn pieces(
    alloc: Global,
    ledger: &Ledger,
    shard: u64,
    places: &[u32],
) -> Result<Vec<SizedItem>, OutOfMemory>
    requires kept { Keeps ledger.now }
    requires came { All (λ p. p < came_count (past_of ledger.now) shard) places.now }
    requires open { AreOpen (setting_of ledger.now) (past_of ledger.now) shard places.now }
    ensures { IfOk result (λ v. v.items ≡ map (piece_of (setting_of ledger.now) (past_of ledger.now) shard) places.now) }
{
    let mut pieces = Vec::with_capacity(alloc, places.len())?;
    for place in places {
        pieces.push(piece(ledger, shard, *place))?;
    }
    Ok(pieces)
}

fn piece(ledger: &Ledger, shard: u64, place: u32) -> SizedItem
    requires kept { Keeps ledger.now }
    requires came { place < came_count (past_of ledger.now) shard }
    requires open { lacks_fate (setting_of ledger.now) (past_of ledger.now) shard place ≡ true }
    ensures { result ≡ piece_of (setting_of ledger.now) (past_of ledger.now) shard place }
{
    SizedItem {
        bytes: ledger.element_length(shard, place),
        came: ledger.came_moment(shard, place),
        arrival: arrival(ledger, shard, place),
        window: window_in(ledger, shard, place),
    }
}

/// Until when a fresh batch waits; one with failed tries does not wait.
fn waits_until(fresh: bool, why: Why) -> Option<u64>
    ensures { result ≡ wait_of fresh why }
{
    if !fresh {
        return None;
    }
    match why {
        Why::Waiting { until } => Some(until),
        _ => None,
    }
}
