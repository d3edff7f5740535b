//! How the kept calls of a shard's records follow the history. Each law is the contract of a function that does nothing. A
//! history is written newest entry first.
ghost use Rattle.std.specs.Prelude.{ℕ, List};
ghost use Rattle.esm_model.specs.declared.lane.LaneId.{LaneId};
ghost use Rattle.esm_model.specs.declared.entry.Entry.{Entry};
ghost use Rattle.esm_model.specs.Setting.{Setting};
ghost use Rattle.esm_shard_index.specs.Callings.{Called};
ghost use Rattle.esm_shard_index.specs.CallingsLaws.{CallingsBegin, CallingsCome, CallBegins, CallEnds, CallingsStay, BatchStandsOnce};

/// Before anything came no call held a record.
pub fn callings_begin()
    ensures { (n : ℕ) (c : Called) → CallingsBegin n c }
{}

/// No call held a record that comes.
pub fn callings_come()
    ensures { (h : List Entry) (n : ℕ) (c : Called) → CallingsCome h n c }
{}

/// A call that begins counts for each place of its batch.
pub fn call_begins()
    ensures { (h : List Entry) (lane : LaneId) (c : Called) → CallBegins h lane c }
{}

/// The answer to a call that ends is that of each place of its batch.
pub fn call_ends()
    ensures { (h : List Entry) (lane : LaneId) (c : Called) → CallEnds h lane c }
{}

/// No other entry changes the calls of a record.
pub fn callings_stay()
    ensures { (h : List Entry) (n : ℕ) (c : Called) → CallingsStay h n c }
{}

/// The batch of a call that begins in a legal history has each place once.
pub fn batch_stands_once()
    ensures { (s : Setting) (h : List Entry) → BatchStandsOnce s h }
{}
