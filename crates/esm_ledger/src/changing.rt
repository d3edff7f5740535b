//! Applies an entry to the tables of its shard, if the ledger has that.
ghost use Rattle.std.specs.Prelude.{◌≡◌, ◌≢◌, ℕ, List, Option, ◌<◌, ◌∷◌, length, IfSome, IfNone, Some, None, ◌+◌, ◌++◌, vec_len, vec_capacity};
ghost use Rattle.esm_ledger.specs.Arriving.{IsEven};
ghost use Rattle.esm_ledger.specs.Coming.{CanTake, Takes, listed};
ghost use Rattle.esm_model.specs.declared.lane.LaneId.{LaneId};
ghost use Rattle.esm_model.specs.declared.entry.Entry.{Entry};
ghost use Rattle.esm_model.specs.declared.entry.Reply.{Reply};
ghost use Rattle.esm_model.specs.Tries.{verdict_after};
ghost use Rattle.esm_model.specs.FailureLine.{response_in};
ghost use Rattle.esm_model.specs.Step.{Legal};
ghost use Rattle.esm_ledger.specs.declared.shard.ShardLedger.{ShardLedger};
ghost use Rattle.esm_ledger.specs.ShardLaws.{CallFits, EndFits, GiftFits, ExpiryFits};
ghost use Rattle.esm_ledger.specs.Ledger.{past_of, setting_of, IsAt, Rests, Keeps, MayEnd, HasSplits, HasState, IsClosingPrepared};
ghost use Rattle.esm_ledger.specs.Adding.{IsChanged, AreShards, KeepsOthers, KeepsSplits, KeepsStates, KeepsClosings, EndsAt, RestsAt};

use crate::arriving::Arriving;
use crate::ledger::Ledger;
use crate::shard::ShardLedger;
use esm_model::{Fate, LaneId, Response, Rest, Verdict, WindowState};
use std::alloc::Global;

impl Ledger {
    /// Records come to their shard.
    pub(crate) fn shard_came(&mut self, alloc: Global, shard: u64, arriving: Arriving, moment: u64)
        requires some { (x : ShardLedger) × IsAt self.old shard x }
        requires even { IsEven arriving }
        requires fits { (x : ShardLedger) → IsAt self.old shard x → CanTake x arriving }
        ensures before { self.new ≡ record self.old { shards = self.new.shards } }
        ensures took { Takes self.old.shards.items self.new.shards.items shard moment arriving }
        ensures len { vec_len self.new.shards ≡ vec_len self.old.shards }
        ensures capacity { vec_capacity self.new.shards ≡ vec_capacity self.old.shards }
    {
        match self.find(shard) {
            None => let_go(arriving),
            Some(at) => self.shards[at].came(alloc, arriving, moment),
        }
    }

    /// A call of the lane begins.
    pub(crate) fn shard_began(&mut self, lane: LaneId, places: &[u32], closing: Option<u64>)
        requires kept { Keeps self.old }
        requires fits { (x : ShardLedger) → IsAt self.old lane.shard x → CallFits x lane.lane places.now }
        ensures before { self.new ≡ record self.old { shards = self.new.shards } }
        ensures changed { IsChanged self.old self.new KeepsSplits }
        ensures others { KeepsOthers self.old self.new lane.shard }
        ensures states { IsChanged self.old self.new KeepsStates }
        ensures goes_on { (m : ℕ) → Legal (setting_of self.old) (Entry.Began lane places.now closing m ∷ past_of self.old) →
            AreShards self.old self.new (Entry.Began lane places.now closing m ∷ past_of self.old) }
    {
        match self.find(lane.shard) {
            None => {}
            Some(at) => self.shards[at].began(lane.lane, places, closing),
        }
    }

    /// A call of the lane ends.
    pub(crate) fn shard_ended(
        &mut self,
        alloc: Global,
        lane: LaneId,
        response: Option<Response>,
        verdict: Verdict,
        moment: u64,
    )
        requires kept { Keeps self.old }
        requires fits { (x : ShardLedger) → IsAt self.old lane.shard x → EndFits x lane.lane }
        requires splits { HasSplits self.old lane }
        requires window { IsClosingPrepared self.old lane }
        ensures before { self.new ≡ record self.old { shards = self.new.shards } }
        ensures changed { IsChanged self.old self.new (EndsAt lane) }
        ensures others { KeepsOthers self.old self.new lane.shard }
        ensures goes_on { (reply : Reply) → Legal (setting_of self.old) (Entry.Ended lane reply moment ∷ past_of self.old) →
            verdict ≡ verdict_after (setting_of self.old) (past_of self.old) lane reply → response ≡ response_in reply →
            AreShards self.old self.new (Entry.Ended lane reply moment ∷ past_of self.old) }
    {
        match self.find(lane.shard) {
            None => {}
            Some(at) => self.shards[at].ended(alloc, lane.lane, response, verdict, moment),
        }
    }

    /// Records of the shard succeed, are filtered or are exhausted.
    pub(crate) fn shard_gave(
        &mut self,
        shard: u64,
        places: &[u32],
        fate: Fate,
        state: Option<WindowState>,
    )
        requires kept { Keeps self.old }
        requires fits { (x : ShardLedger) → IsAt self.old shard x → GiftFits x places.now }
        requires answered { fate ≢ Fate.Expired }
        requires state { IfSome state (λ x. HasState self.old shard x.window) }
        ensures before { self.new ≡ record self.old { shards = self.new.shards } }
        ensures changed { IsChanged self.old self.new KeepsSplits }
        ensures others { KeepsOthers self.old self.new shard }
        ensures states { IfNone state (IsChanged self.old self.new KeepsStates) }
        ensures closings { IsChanged self.old self.new KeepsClosings }
        ensures goes_on { (by : Option LaneId) (line : Option (List ℕ)) (m : ℕ) →
            Legal (setting_of self.old) (Entry.Gave by shard places.now fate line state m ∷ past_of self.old) →
            AreShards self.old self.new (Entry.Gave by shard places.now fate line state m ∷ past_of self.old) }
    {
        match self.find(shard) {
            None => {}
            Some(at) => self.shards[at].gave(places, fate, state),
        }
    }

    /// Records of the lane expire.
    pub(crate) fn shard_expired(&mut self, lane: LaneId, places: &[u32])
        requires kept { Keeps self.old }
        requires fits { (x : ShardLedger) → IsAt self.old lane.shard x → ExpiryFits x lane.lane places.now }
        ensures before { self.new ≡ record self.old { shards = self.new.shards } }
        ensures changed { IsChanged self.old self.new KeepsSplits }
        ensures others { KeepsOthers self.old self.new lane.shard }
        ensures states { IsChanged self.old self.new KeepsStates }
        ensures goes_on { (line : Option (List ℕ)) (m : ℕ) →
            Legal (setting_of self.old) (Entry.Gave (Some lane) lane.shard places.now Fate.Expired line None m ∷ past_of self.old) →
            AreShards self.old self.new (Entry.Gave (Some lane) lane.shard places.now Fate.Expired line None m ∷ past_of self.old) }
    {
        match self.find(lane.shard) {
            None => {}
            Some(at) => self.shards[at].expired(lane.lane, places),
        }
    }

    /// A window of the shard was closed.
    pub(crate) fn shard_closed(&mut self, lane: LaneId, window: u64)
        requires kept { Keeps self.old }
        ensures before { self.new ≡ record self.old { shards = self.new.shards } }
        ensures changed { IsChanged self.old self.new KeepsSplits }
        ensures others { KeepsOthers self.old self.new lane.shard }
        ensures goes_on { (m : ℕ) → Legal (setting_of self.old) (Entry.Closed lane window m ∷ past_of self.old) →
            AreShards self.old self.new (Entry.Closed lane window m ∷ past_of self.old) }
    {
        match self.find(lane.shard) {
            None => {}
            Some(at) => self.shards[at].closed(window),
        }
    }

    /// Ends the lane's call in the tables without a ruling, whatever the answer was.
    pub(crate) fn lane_rests(&mut self, alloc: Global, lane: LaneId, moment: u64)
        requires rests { Rests self.old }
        requires known { lane.lane < self.old.config.factor }
        requires ends { (x : ShardLedger) → IsAt self.old lane.shard x → MayEnd x lane.lane }
        requires splits { HasSplits self.old lane }
        ensures before { self.new ≡ record self.old { shards = self.new.shards } }
        ensures changed { IsChanged self.old self.new (RestsAt lane) }
    {
        match self.find(lane.shard) {
            None => {}
            Some(at) => {
                let verdict = Verdict {
                    succeeded: 0,
                    rest: Rest::Again,
                };
                self.shards[at].lanes.end(alloc, lane.lane, verdict, moment)
            }
        }
    }
}

fn let_go(_arriving: Arriving) {}

/// Appends the tables of a shard that comes for the first time, if it does, within the capacity.
pub fn push_fresh(shards: &mut Vec<ShardLedger>, fresh: Option<ShardLedger>)
    requires { IfSome fresh (λ _. vec_len shards.old < vec_capacity shards.old) }
    ensures items { shards.new.items ≡ shards.old.items ++ listed fresh }
    ensures len { vec_len shards.new ≡ vec_len shards.old + length (listed fresh) }
    ensures capacity { vec_capacity shards.new ≡ vec_capacity shards.old }
{
    if let Some(fresh) = fresh {
        shards.push_reserved(fresh);
    }
}
