//! What records that come leave of a legal history. Each law is the contract of a function that does nothing. A history is
//! written newest entry first; it is settled if it requires nothing more.
ghost use Rattle.std.specs.Prelude.{◌≡◌, ℕ, List, length};
ghost use Rattle.esm_model.specs.Records.{Record};
ghost use Rattle.esm_model.specs.declared.entry.Entry.{Entry};
ghost use Rattle.esm_model.specs.Setting.{Setting, records_of};
ghost use Rattle.esm_model.specs.Entries.{came_count};
ghost use Rattle.esm_ledger.specs.declared.ledger.Ledger.{Ledger};
ghost use Rattle.esm_ledger.specs.Ledger.{past_of, setting_of, Keeps};
ghost use Rattle.esm_ingest.specs.Sound.{MayArrive, PartsCome, ArrivalIsLegal, ArrivalIsSettled, RefusedAreUnsorted, PartsAreKept};

/// The records of a shard that came are all that a ledger has of it.
pub fn all_have_come()
    ensures { (c : Ledger) → Keeps c → (n : ℕ) → came_count (past_of c) n ≡ length (records_of (setting_of c) n) }
{}

/// If no record of the list differs, each part has the sequence numbers that were kept.
pub fn unchanged_is_kept()
    ensures { (s : Setting) (h : List Entry) (rs : List Record) (m : ℕ) → MayArrive s h rs m → PartsAreKept s h rs }
{}

/// The parts may come one after the other, over all lists of records that extend those so far.
pub fn parts_come()
    ensures { (s : Setting) (h : List Entry) (rs : List Record) (m : ℕ) → MayArrive s h rs m → PartsCome s h rs m }
{}

/// The refused places of a part are the shard's open records that do not pass the filter, once all records came.
pub fn refused_are_unsorted()
    ensures { (s : Setting) (h : List Entry) (rs : List Record) (m : ℕ) → MayArrive s h rs m → RefusedAreUnsorted s h rs m }
{}

/// All parts come, and then the refused places of each are filtered: each entry may follow the ones before.
pub fn arrival_is_legal()
    ensures { (s : Setting) (h : List Entry) (rs : List Record) (m : ℕ) → MayArrive s h rs m → ArrivalIsLegal s h rs m }
{}

/// Then nothing more is required.
pub fn arrival_is_settled()
    ensures { (s : Setting) (h : List Entry) (rs : List Record) (m : ℕ) → MayArrive s h rs m → ArrivalIsSettled s h rs m }
{}
