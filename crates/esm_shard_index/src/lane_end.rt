//! What the end of a call does to the pieces of its lane.
ghost use Rattle.std.specs.Prelude.{◌≡◌, ◌<◌, ◌≤◌, ◌+◌, length, slice_set};
ghost use Rattle.esm_lanes.specs.Piece.{lane_at, front_length};
ghost use Rattle.esm_shard_index.specs.LaneView.{front_tries, set_apart, after_rest, after_batch};

use esm_lanes::Lanes;
use esm_model::{MAX_TRIES, Rest, Verdict};
use std::alloc::Global;

/// The tries of the front piece; 0 if there is none.
fn front_tries_of(lanes: &Lanes, lane: u32) -> u32
    requires { lane < length lanes.now }
    ensures { result ≡ front_tries (lane_at lanes.now lane).pieces }
{
    match lanes.front(lane) {
        None => 0,
        Some(front) => front.tries,
    }
}

/// Makes the first `first` places of the front piece a piece with `tries` tries; does nothing if `first` is 0. Uses a
/// reserved split.
fn split_off(lanes: &mut Lanes, alloc: Global, lane: u32, first: u32, tries: u32)
    requires known { lane < length lanes.old }
    requires within { first ≤ front_length (lane_at lanes.old lane).pieces }
    requires room { 1 ≤ (lane_at lanes.old lane).splits }
    ensures { lanes.new ≡ slice_set lanes.old lane (set_apart first tries (lane_at lanes.old lane)) }
{
    if first > 0 {
        let _ = lanes.split(alloc, lane, first, tries);
    }
}

/// Applies the ruling on the rest of a batch, which is the first `left` places of the front piece.
fn end_rest(lanes: &mut Lanes, alloc: Global, lane: u32, rest: Rest, left: u32)
    requires known { lane < length lanes.old }
    requires within { left ≤ front_length (lane_at lanes.old lane).pieces }
    requires room { 2 ≤ (lane_at lanes.old lane).splits }
    ensures { lanes.new ≡ slice_set lanes.old lane (after_rest rest left (lane_at lanes.old lane)) }
{
    match rest {
        Rest::Nothing | Rest::Again => {}
        Rest::Counted => {
            let tries = front_tries_of(lanes, lane);
            split_off(lanes, alloc, lane, left, tries.min(MAX_TRIES - 1) + 1);
        }
        Rest::Split(first) => {
            let tries = front_tries_of(lanes, lane);
            split_off(lanes, alloc, lane, left, tries);
            split_off(lanes, alloc, lane, first.min(left), tries);
        }
        Rest::Exhausted => lanes.shorten(lane, left),
    }
}

/// A call of the first `count` places of the front piece ends with this verdict.
pub fn end_batch(lanes: &mut Lanes, alloc: Global, lane: u32, verdict: Verdict, count: u32)
    requires known { lane < length lanes.old }
    requires within { count ≤ front_length (lane_at lanes.old lane).pieces }
    requires room { 2 ≤ (lane_at lanes.old lane).splits }
    ensures { lanes.new ≡ slice_set lanes.old lane (after_batch verdict count (lane_at lanes.old lane)) }
{
    let done = verdict.succeeded.min(count);
    lanes.shorten(lane, done);
    end_rest(lanes, alloc, lane, verdict.rest, count - done);
}
