// The lanes of a stream's book by number, each with its pieces of open places and its running call.
ghost use Rattle.std.specs.Prelude.{◌≡◌, ◌≢◌, ℕ, ◌<◌, ◌≤◌, ◌↔◌, [], length, take, OnOk, OnErr, IsOk, IfOk, IsNone, IfSome};
ghost use Rattle.esm_model.specs.declared.limits.TheConstants.{MAX_LANES, MAX_TRIES};
ghost use Rattle.esm_lanes.specs.Piece.{IsFront, open_places, front_length};
ghost use Rattle.esm_shard_index.specs.LaneView as spec;

use crate::lane_end::end_batch;
use crate::lane_state::{LaneState, Running};
use esm_lanes::{Front, Lanes};
use esm_model::{OutOfMemory, Verdict};
use std::alloc::Global;
use std::marker::Model;

/// The lanes of a stream's book by number: for each the pieces of its open places, the running call, and what its delay is
/// computed from.
///
/// A place leaves the pieces when its call ends, before the entry that gives it its fate. Each call takes constant
/// time, taken over many calls, and only `new` and `reserve` take memory.
#[derive(Drop, Debug)]
pub struct LaneTable {
    lanes: Lanes,
    states: Vec<LaneState>,
}

impl Model for LaneTable {
    ghost use Rattle.std.specs.Prelude.{◌≡◌, length};
    ghost use Rattle.std.specs.Vec.{vec_len};
    ghost use Rattle.esm_shard_index.specs.LaneView.{Table};

    ghost Value = { Table };

    ghost view = { λ t. record { lanes = t.lanes; states = t.states.items } };

    ghost invariant = { λ t. vec_len t.states ≡ length t.lanes };
}

impl LaneTable {
    /// `lanes` lanes, 1 to 64, without places.
    pub fn new(alloc: Global, lanes: u32) -> Result<LaneTable, OutOfMemory>
        requires some { 1 ≤ lanes }
        requires most { lanes ≤ MAX_LANES }
        ensures lanes { IfOk result (λ t. length t.lanes ≡ lanes) }
        ensures empty { IfOk result (λ t. (k : ℕ) → spec.lane_in t k ≡ spec.empty_view) }
    {
        let kept = Lanes::new(alloc, lanes)?;
        let mut states = Vec::new(alloc);
        for _made in 0..lanes {
            states.push(LaneState::IDLE)?;
        }
        Ok(LaneTable {
            lanes: kept,
            states,
        })
    }

    /// Reserves memory for the next `adds` arrivals in the lane and for the next `splits` splits of its front piece; the end
    /// of a call needs two. After `OutOfMemory` nothing has changed.
    pub fn reserve(
        &mut self,
        alloc: Global,
        lane: u32,
        adds: u32,
        splits: u32,
    ) -> Result<(), OutOfMemory>
        requires known { lane < length self.old.lanes }
        ensures ok { OnOk result (spec.lane_in self.new lane ≡ spec.after_reserved adds splits (spec.lane_in self.old lane)) }
        ensures others { (k : ℕ) → k ≢ lane → spec.lane_in self.new k ≡ spec.lane_in self.old k }
        ensures lanes { length self.new.lanes ≡ length self.old.lanes }
        ensures err { OnErr result (self.new ≡ self.old) }
        ensures succeeds { adds ≤ (spec.lane_in self.old lane).kept.adds → splits ≤ (spec.lane_in self.old lane).kept.splits → IsOk result }
    {
        self.lanes.reserve(alloc, lane, adds, splits)
    }

    /// One more record of the lane came, with the tries that were found of it at opening, 1 to 10,001, if there are any.
    /// Uses a reserved arrival; takes no memory.
    pub fn add(&mut self, alloc: Global, lane: u32, place: u32, tries: Option<u32>)
        requires known { lane < length self.old.lanes }
        requires few { length (open_places (spec.lane_in self.old lane).kept.pieces) < u32.MAX }
        requires reserved { 1 ≤ (spec.lane_in self.old lane).kept.adds }
        requires some { IfSome tries (λ t. 1 ≤ t) }
        requires most { IfSome tries (λ t. t ≤ MAX_TRIES) }
        ensures lane { spec.lane_in self.new lane ≡ spec.after_came (spec.standing_of tries) place (spec.lane_in self.old lane) }
        ensures others { (k : ℕ) → k ≢ lane → spec.lane_in self.new k ≡ spec.lane_in self.old k }
        ensures lanes { length self.new.lanes ≡ length self.old.lanes }
    {
        match tries {
            None => {
                let _ = self.lanes.add(alloc, lane, place);
            }
            Some(tries) => {
                let _ = self.lanes.add_tried(alloc, lane, place, tries);
            }
        }
    }

    /// A call of the lane begins: of the first places of its front piece, or a final call of none.
    pub fn begin(&mut self, lane: u32, running: Running)
        requires known { lane < length self.old.lanes }
        ensures lane { spec.lane_in self.new lane ≡ spec.after_began running (spec.lane_in self.old lane) }
        ensures others { (k : ℕ) → k ≢ lane → spec.lane_in self.new k ≡ spec.lane_in self.old k }
        ensures lanes { length self.new.lanes ≡ length self.old.lanes }
    {
        let state = self.states[lane as usize];
        self.states[lane as usize] = state.began(running);
    }

    /// The running call ends at this moment, in milliseconds, with this verdict: what succeeded or is given up leaves the
    /// lane, and what is tried again or halved is set apart (Lambda Developer Guide, error handling for Kinesis). Needs two
    /// reserved splits; takes no memory.
    pub fn end(&mut self, alloc: Global, lane: u32, verdict: Verdict, moment: u64)
        requires known { lane < length self.old.lanes }
        requires within { spec.running_count (spec.lane_in self.old lane).state.running ≤ front_length (spec.lane_in self.old lane).kept.pieces }
        requires reserved { 2 ≤ (spec.lane_in self.old lane).kept.splits }
        requires few { (spec.lane_in self.old lane).state.failures < u64.MAX }
        ensures lane { spec.lane_in self.new lane ≡ spec.after_ended verdict moment (spec.lane_in self.old lane) }
        ensures others { (k : ℕ) → k ≢ lane → spec.lane_in self.new k ≡ spec.lane_in self.old k }
        ensures lanes { length self.new.lanes ≡ length self.old.lanes }
    {
        let state = self.states[lane as usize];
        end_batch(&mut self.lanes, alloc, lane, verdict, state.running_count());
        self.states[lane as usize] = state.ended(verdict.rest, moment);
    }

    /// The first `count` records of the front piece expire (Lambda Developer Guide, `MaximumRecordAgeInSeconds`). Takes no
    /// memory.
    pub fn expire(&mut self, lane: u32, count: u32)
        requires known { lane < length self.old.lanes }
        requires within { count ≤ front_length (spec.lane_in self.old lane).kept.pieces }
        ensures lane { spec.lane_in self.new lane ≡ spec.after_expired count (spec.lane_in self.old lane) }
        ensures others { (k : ℕ) → k ≢ lane → spec.lane_in self.new k ≡ spec.lane_in self.old k }
        ensures lanes { length self.new.lanes ≡ length self.old.lanes }
    {
        self.lanes.shorten(lane, count);
    }

    /// The lane's front piece; `None` if and only if the lane has no place.
    pub fn front(&self, lane: u32) -> Option<Front<'_>>
        requires known { lane < length self.now.lanes }
        ensures none { IsNone result ↔ (open_places (spec.lane_in self.now lane).kept.pieces ≡ []) }
        ensures front { IfSome result (λ f. IsFront (spec.lane_in self.now lane).kept.pieces f.places.now f.fresh f.tries) }
        ensures few { IfSome result (λ f. length f.places.now ≤ u32.MAX) }
    {
        self.lanes.front(lane)
    }

    /// The number of the lane's places.
    pub fn count(&self, lane: u32) -> u32
        requires known { lane < length self.now.lanes }
        ensures { result ≡ length (open_places (spec.lane_in self.now lane).kept.pieces) }
    {
        self.lanes.count(lane)
    }

    /// The places of the running call, in order; none if no call runs or a final call does.
    pub fn called(&self, lane: u32) -> &[u32]
        requires known { lane < length self.now.lanes }
        requires within { spec.running_count (spec.lane_in self.now lane).state.running ≤ front_length (spec.lane_in self.now lane).kept.pieces }
        ensures { let v = spec.lane_in self.now lane in result.now ≡ take (spec.running_count v.state.running) (spec.front_places v.kept.pieces) }
    {
        let count = self.states[lane as usize].running_count();
        match self.lanes.front(lane) {
            None => &[],
            Some(front) => &front.places[..count as usize],
        }
    }

    /// The running call, and what the delay is computed from.
    pub fn state(&self, lane: u32) -> LaneState
        requires { lane < length self.now.lanes }
        ensures { result ≡ (spec.lane_in self.now lane).state }
    {
        self.states[lane as usize]
    }
}
