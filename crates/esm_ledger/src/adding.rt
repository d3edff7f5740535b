//! Adds entries to a ledger. Within what is prepared, none of these calls takes memory.
ghost use Rattle.std.specs.Prelude.{◌≡◌, ◌≢◌, ℕ, Option, ◌+◌, ◌<◌, ◌∷◌, true, false, length, IfSome, Some, None};
ghost use Rattle.esm_model.specs.Entries.{came_count};
ghost use Rattle.esm_model.specs.Lane.{same_lane};
ghost use Rattle.esm_model.specs.declared.lane.LaneId.{LaneId};
ghost use Rattle.esm_model.specs.Tries.{verdict_after};
ghost use Rattle.esm_ledger.specs.Ledger.{past_of, setting_of, LegalOver, HasRoom, HasShardRoom, Keeps, HasSplits, HasState, IsClosingPrepared};
ghost use Rattle.esm_ledger.specs.Prepared.{StaysAt, StaysElsewhere, Stays};
ghost use Rattle.esm_model.specs.FailureLine.{response_in};
ghost use Rattle.esm_ledger.specs.Coming.{grown, IsComing};

use crate::changing::push_fresh;
use crate::coming::Coming;
use crate::ledger::Ledger;
use esm_model::{
    Entry, Fate, LaneId, PastReply, Places, Reply, Response, Text, Verdict, WindowState,
};
use std::alloc::Global;

impl Ledger {
    /// Records of a shard came, for which all is prepared.
    pub fn came(&mut self, alloc: Global, coming: Coming, moment: u64)
        requires kept { Keeps self.old }
        requires room { HasRoom self.old 1 }
        requires shards { IfSome coming.fresh (λ _. HasShardRoom self.old 1) }
        requires coming { IsComing self.old coming }
        requires legal { LegalOver (grown (setting_of self.old) coming.shard coming.arriving.records.items)
            (Entry.Came coming.shard (came_count (past_of self.old) coming.shard) (length coming.arriving.records.items) moment ∷ past_of self.old) }
        ensures kept { Keeps self.new }
        ensures past { past_of self.new ≡ Entry.Came coming.shard (came_count (past_of self.old) coming.shard)
            (length coming.arriving.records.items) moment ∷ past_of self.old }
        ensures setting { setting_of self.new ≡ grown (setting_of self.old) coming.shard coming.arriving.records.items }
        ensures room { (n : ℕ) → HasRoom self.old (n + 1) → HasRoom self.new n }
        // What is prepared for further entries stays; a shard that comes for the first time uses the room of one.
        ensures shards { (n : ℕ) → HasShardRoom self.old (n + 1) → HasShardRoom self.new n }
        ensures shards_known { coming.fresh ≡ None → (n : ℕ) → HasShardRoom self.old n → HasShardRoom self.new n }
        ensures elsewhere { StaysElsewhere self.old self.new coming.shard }
        ensures own { coming.fresh ≡ None → StaysAt self.old self.new coming.shard }
    {
        let Coming {
            shard,
            fresh,
            arriving,
        } = coming;
        let first = self.came_of(shard);
        let count = arriving.records.len() as u32;
        push_fresh(&mut self.shards, fresh);
        self.shard_came(alloc, shard, arriving, moment);
        self.note(
            Entry::Came {
                shard,
                first,
                count,
                moment,
            },
            moment,
        );
    }

    /// A call of the lane begins: of these places, or a final call of the window `closing` with none. Uses the room of two
    /// entries, one for its end.
    pub fn began(&mut self, lane: LaneId, places: Places, closing: Option<u64>, moment: u64)
        requires kept { Keeps self.old }
        requires room { HasRoom self.old 2 }
        requires splits { HasSplits self.old lane }
        requires legal { LegalOver (setting_of self.old) (Entry.Began lane places closing moment ∷ past_of self.old) }
        ensures kept { Keeps self.new }
        ensures past { past_of self.new ≡ Entry.Began lane places closing moment ∷ past_of self.old }
        ensures setting { setting_of self.new ≡ setting_of self.old }
        ensures room { (n : ℕ) → HasRoom self.old (n + 2) → HasRoom self.new n }
        ensures shards { (n : ℕ) → HasShardRoom self.old n → HasShardRoom self.new n }
        ensures elsewhere { StaysElsewhere self.old self.new lane.shard }
        ensures splits { (other : LaneId) → HasSplits self.old other → HasSplits self.new other }
        ensures states { (n w : ℕ) → HasState self.old n w → HasState self.new n w }
    {
        self.shard_began(lane, places.as_slice(), closing);
        self.begun += 1;
        self.unended += 1;
        self.note(
            Entry::Began {
                lane,
                places,
                closing,
                moment,
            },
            moment,
        );
    }

    /// The call of the lane ends with this verdict. Uses the room that is kept for its end.
    pub fn ended(
        &mut self,
        alloc: Global,
        lane: LaneId,
        reply: Reply,
        verdict: Verdict,
        moment: u64,
    )
        requires kept { Keeps self.old }
        requires legal { LegalOver (setting_of self.old) (Entry.Ended lane reply moment ∷ past_of self.old) }
        requires verdict { verdict ≡ verdict_after (setting_of self.old) (past_of self.old) lane reply }
        requires window { IsClosingPrepared self.old lane }
        ensures kept { Keeps self.new }
        ensures past { past_of self.new ≡ Entry.Ended lane reply moment ∷ past_of self.old }
        ensures setting { setting_of self.new ≡ setting_of self.old }
        ensures room { (n : ℕ) → HasRoom self.old n → HasRoom self.new n }
        ensures shards { (n : ℕ) → HasShardRoom self.old n → HasShardRoom self.new n }
        ensures elsewhere { StaysElsewhere self.old self.new lane.shard }
        ensures splits { (other : LaneId) → same_lane lane other ≡ false → HasSplits self.old other → HasSplits self.new other }
        ensures states { (n w : ℕ) → HasState self.old n w → HasState self.new n w }
    {
        let response = response_of(&reply);
        self.shard_ended(alloc, lane, response, verdict, moment);
        self.unended = self.unended.saturating_sub(1);
        self.note(
            Entry::Ended {
                lane,
                reply: PastReply::of(&reply),
                moment,
            },
            moment,
        );
    }

    /// Records succeed, are filtered or are exhausted. If their window gets a new state, `state` goes into the entry and
    /// `copy`, a copy of it, into the table of windows.
    pub fn gave(
        &mut self,
        by: Option<LaneId>,
        shard: u64,
        places: Places,
        fate: Fate,
        line: Option<Text>,
        state: Option<WindowState>,
        copy: Option<WindowState>,
        moment: u64,
    )
        requires kept { Keeps self.old }
        requires room { HasRoom self.old 1 }
        requires answered { fate ≢ Fate.Expired }
        requires copy { copy ≡ state }
        requires state { IfSome state (λ x. HasState self.old shard x.window) }
        requires legal { LegalOver (setting_of self.old) (Entry.Gave by shard places fate line state moment ∷ past_of self.old) }
        ensures kept { Keeps self.new }
        ensures past { past_of self.new ≡ Entry.Gave by shard places fate line state moment ∷ past_of self.old }
        ensures setting { setting_of self.new ≡ setting_of self.old }
        ensures room { (n : ℕ) → HasRoom self.old (n + 1) → HasRoom self.new n }
        ensures shards { (n : ℕ) → HasShardRoom self.old n → HasShardRoom self.new n }
        ensures elsewhere { StaysElsewhere self.old self.new shard }
        ensures splits { (other : LaneId) → HasSplits self.old other → HasSplits self.new other }
        ensures states { state ≡ None → (n w : ℕ) → HasState self.old n w → HasState self.new n w }
        ensures closings { (other : LaneId) → IsClosingPrepared self.old other → IsClosingPrepared self.new other }
    {
        self.shard_gave(shard, places.as_slice(), fate, copy);
        self.note(
            Entry::Gave {
                by,
                shard,
                places,
                fate,
                line,
                state,
                moment,
            },
            moment,
        );
    }

    /// Records of the lane expire.
    pub fn expired(&mut self, lane: LaneId, places: Places, line: Option<Text>, moment: u64)
        requires kept { Keeps self.old }
        requires room { HasRoom self.old 1 }
        requires known { lane.lane < self.old.config.factor }
        requires legal { LegalOver (setting_of self.old) (Entry.Gave (Some lane) lane.shard places Fate.Expired line None moment ∷ past_of self.old) }
        ensures kept { Keeps self.new }
        ensures past { past_of self.new ≡ Entry.Gave (Some lane) lane.shard places Fate.Expired line None moment ∷ past_of self.old }
        ensures setting { setting_of self.new ≡ setting_of self.old }
        ensures room { (n : ℕ) → HasRoom self.old (n + 1) → HasRoom self.new n }
        ensures shards { (n : ℕ) → HasShardRoom self.old n → HasShardRoom self.new n }
        ensures elsewhere { StaysElsewhere self.old self.new lane.shard }
        ensures splits { (other : LaneId) → HasSplits self.old other → HasSplits self.new other }
        ensures states { (n w : ℕ) → HasState self.old n w → HasState self.new n w }
    {
        self.shard_expired(lane, places.as_slice());
        let (by, shard, fate, state) = (Some(lane), lane.shard, Fate::Expired, None);
        self.note(
            Entry::Gave {
                by,
                shard,
                places,
                fate,
                line,
                state,
                moment,
            },
            moment,
        );
    }

    /// Adds a counted try: of the records at the places, or of the final call of the window `closing`.
    pub fn tried(
        &mut self,
        lane: LaneId,
        places: Places,
        closing: Option<u64>,
        tries: u32,
        moment: u64,
    )
        requires kept { Keeps self.old }
        requires room { HasRoom self.old 1 }
        requires legal { LegalOver (setting_of self.old) (Entry.Tried lane places closing tries moment ∷ past_of self.old) }
        ensures kept { Keeps self.new }
        ensures past { past_of self.new ≡ Entry.Tried lane places closing tries moment ∷ past_of self.old }
        ensures setting { setting_of self.new ≡ setting_of self.old }
        ensures room { (n : ℕ) → HasRoom self.old (n + 1) → HasRoom self.new n }
        ensures shards { (n : ℕ) → HasShardRoom self.old n → HasShardRoom self.new n }
        ensures stays { Stays self.old self.new }
    {
        self.note(
            Entry::Tried {
                lane,
                places,
                closing,
                tries,
                moment,
            },
            moment,
        );
    }

    /// A window was closed.
    pub fn closed(&mut self, lane: LaneId, window: u64, moment: u64)
        requires kept { Keeps self.old }
        requires room { HasRoom self.old 1 }
        requires legal { LegalOver (setting_of self.old) (Entry.Closed lane window moment ∷ past_of self.old) }
        ensures kept { Keeps self.new }
        ensures past { past_of self.new ≡ Entry.Closed lane window moment ∷ past_of self.old }
        ensures setting { setting_of self.new ≡ setting_of self.old }
        ensures room { (n : ℕ) → HasRoom self.old (n + 1) → HasRoom self.new n }
        ensures shards { (n : ℕ) → HasShardRoom self.old n → HasShardRoom self.new n }
        ensures elsewhere { StaysElsewhere self.old self.new lane.shard }
        ensures splits { (other : LaneId) → HasSplits self.old other → HasSplits self.new other }
    {
        self.shard_closed(lane, window);
        self.note(
            Entry::Closed {
                lane,
                window,
                moment,
            },
            moment,
        );
    }

    /// The input ended. Uses the room that is kept for this entry.
    pub fn ended_input(&mut self, moment: u64)
        requires kept { Keeps self.old }
        requires legal { LegalOver (setting_of self.old) (Entry.Shut moment ∷ past_of self.old) }
        ensures kept { Keeps self.new }
        ensures past { past_of self.new ≡ Entry.Shut moment ∷ past_of self.old }
        ensures setting { setting_of self.new ≡ setting_of self.old }
        ensures room { (n : ℕ) → HasRoom self.old n → HasRoom self.new n }
        ensures shards { (n : ℕ) → HasShardRoom self.old n → HasShardRoom self.new n }
        ensures stays { Stays self.old self.new }
    {
        self.shut = true;
        self.note(Entry::Shut { moment }, moment);
    }
}

/// The answer of a reply; `None` if it was lost or garbled.
fn response_of(reply: &Reply) -> Option<Response>
    ensures { result ≡ response_in reply.now }
{
    match reply {
        Reply::Answered {
            status,
            error,
            body: _,
        } => Some(Response {
            status: *status,
            error: *error,
        }),
        Reply::Garbled { bytes: _ } | Reply::Lost => None,
    }
}
