//! What a kept shard says of a legal history. Each law is the contract of a function that does nothing. A history is written
//! newest entry first.
ghost use Rattle.std.specs.Prelude.{◌≡◌, ℕ, ◌<◌, ◌+◌, List, ◌∷◌, Option, Some, length};
ghost use Rattle.esm_model.specs.declared.lane.LaneId.{LaneId};
ghost use Rattle.esm_model.specs.declared.entry.Entry.{Entry};
ghost use Rattle.esm_model.specs.declared.entry.Fate.{Fate};
ghost use Rattle.esm_model.specs.declared.entry.Reply.{Reply};
ghost use Rattle.esm_model.specs.declared.entry.WindowState.{WindowState};
ghost use Rattle.esm_model.specs.Setting.{Setting, Stream, Extends, over};
ghost use Rattle.esm_model.specs.Entries.{came_count};
ghost use Rattle.esm_model.specs.Step.{Legal};
ghost use Rattle.esm_shard_index.specs.LaneHistory.{HasFoundTries};
ghost use Rattle.esm_ledger.specs.declared.arriving.Arriving.{Arriving};
ghost use Rattle.esm_ledger.specs.declared.shard.ShardLedger.{ShardLedger};
ghost use Rattle.esm_ledger.specs.Shard.{IsShard, LeavesShard};
ghost use Rattle.esm_ledger.specs.Arriving.{IsEven, FitsNumbers};
ghost use Rattle.esm_ledger.specs.ShardLaws.{CallFits, EndFits, GiftFits, ExpiryFits, ShardTells};

/// An entry of another shard changes nothing of a shard, and neither do the note of a try and the end of the input.
pub fn shard_stays()
    ensures { (s : Setting) (h : List Entry) (e : Entry) (c : ShardLedger) → HasFoundTries s c.shard → LeavesShard c.shard e → Legal s (e ∷ h) →
        IsShard s h c → IsShard s (e ∷ h) c }
{}

/// Over longer lists of records, a shard is still as the history says.
pub fn shard_over_more_records()
    ensures { (s : Setting) (after : List Stream) (h : List Entry) (c : ShardLedger) → Extends s.streams after → Legal s h → IsShard s h c →
        IsShard (over s after) h c }
{}

/// A call that begins in a legal history may be added.
pub fn call_fits()
    ensures { (s : Setting) (h : List Entry) (lane : LaneId) (places : List ℕ) (closing : Option ℕ) (m : ℕ) (c : ShardLedger) →
        Legal s (Entry.Began lane places closing m ∷ h) → s.calls < 4294967296 → came_count h c.shard < 4294967296 → lane.shard ≡ c.shard →
        IsShard s h c → CallFits c lane.lane places }
{}

/// And so may its end.
pub fn end_fits()
    ensures { (s : Setting) (h : List Entry) (lane : LaneId) (reply : Reply) (m : ℕ) (c : ShardLedger) → Legal s (Entry.Ended lane reply m ∷ h) →
        s.calls < 4294967296 → lane.shard ≡ c.shard → IsShard s h c → EndFits c lane.lane }
{}

/// The places that get a fate in a legal history may get it in the shard's tables.
pub fn gift_fits()
    ensures { (s : Setting) (h : List Entry) (by : Option LaneId) (places : List ℕ) (f : Fate) (line : Option (List ℕ)) (state : Option WindowState)
        (m : ℕ) (c : ShardLedger) → Legal s (Entry.Gave by c.shard places f line state m ∷ h) → IsShard s h c → GiftFits c places }
{}

/// And those that expire are of the front piece of their lane.
pub fn expiry_fits()
    ensures { (s : Setting) (h : List Entry) (lane : LaneId) (places : List ℕ) (line : Option (List ℕ)) (state : Option WindowState) (m : ℕ)
        (c : ShardLedger) → Legal s (Entry.Gave (Some lane) c.shard places Fate.Expired line state m ∷ h) → came_count h c.shard < 4294967296 →
        lane.lane < s.config.factor → IsShard s h c → ExpiryFits c lane.lane places }
{}

/// Records may come if their number and the number of those that came fit 32 bits together.
pub fn arrivals_fit()
    ensures { (s : Setting) (h : List Entry) (a : Arriving) (c : ShardLedger) → Legal s h → IsEven a →
        came_count h c.shard + length a.records.items < 4294967296 → IsShard s h c → FitsNumbers c a }
{}

/// The checkpoint, the spread and the number of open records are those of the history.
pub fn shard_tells()
    ensures { (s : Setting) (h : List Entry) (c : ShardLedger) → IsShard s h c → ShardTells s h c }
{}
