//! How the kept moments of arrival follow the history. Each law is the contract of a function that does nothing. A history
//! is written newest entry first.
ghost use Rattle.std.specs.Prelude.{ℕ, List};
ghost use Rattle.esm_model.specs.declared.entry.Entry.{Entry};
ghost use Rattle.esm_shard_index.specs.Arrivals.{Coming};
ghost use Rattle.esm_shard_index.specs.ArrivalsLaws.{ArrivalsBegin, ArrivalsCome, ArrivalsStay};

/// Before anything came there is no moment.
pub fn arrivals_begin()
    ensures { (n : ℕ) (v : Coming) → ArrivalsBegin n v }
{}

/// Records that come have the moment of their entry.
pub fn arrivals_come()
    ensures { (h : List Entry) (n : ℕ) (v : Coming) → ArrivalsCome h n v }
{}

/// No other entry changes the moment of an arrival.
pub fn arrivals_stay()
    ensures { (h : List Entry) (n : ℕ) (v : Coming) → ArrivalsStay h n v }
{}
