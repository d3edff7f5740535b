//! Laws of every legal history. Each is the contract of a function that does nothing. A history is a list with the newest
//! entry first.
ghost use Rattle.std.specs.Prelude.{ℕ, List, ◌++◌};
ghost use Rattle.esm_model.specs.declared.lane.LaneId.{LaneId};
ghost use Rattle.esm_model.specs.declared.entry.Entry.{Entry};
ghost use Rattle.esm_model.specs.Setting.{Setting, Stream, Extends, over};
ghost use Rattle.esm_model.specs.Step.{Legal};
ghost use Rattle.esm_model.specs.CallBound.{BoundOfThree};
ghost use Rattle.esm_model.specs.Earned.{FateIsEarned, LastEnd, IsLogged};
ghost use Rattle.esm_model.specs.Laws.{OrderPerKey, OneFate, NoRepeat, EveryRecordCounted, CheckpointKept, CheckpointIsLongest, HasComeBelow, BatchIsLongest, CallsKept, CallsKeptOver, CallsSinceKeptOver};

/// In a legal history no batch overtakes an earlier record of one of its keys: that record is in the batch too, or has its
/// fate.
pub fn order_per_key()
    ensures { (s : Setting) (h : List Entry) → Legal s h → OrderPerKey s h }
{}

/// A legal history gives each place at most one fate, and none where the journal had one.
pub fn one_fate()
    ensures { (s : Setting) (h : List Entry) → Legal s h → OneFate s h }
{}

/// In a legal history each fate is earned: by the end of a call, by the record's age, or by the filter.
pub fn fate_is_earned()
    ensures { (s : Setting) (h : List Entry) → Legal s h → FateIsEarned s h }
{}

/// The reply by which a fate is earned is in the log of the caller of the lane's batcher.
pub fn answer_is_logged()
    ensures { (s : Setting) (sends : List ℕ → List ℕ) (h : List Entry) (lane : LaneId) (end : LastEnd s h lane) → IsLogged sends end }
{}

/// A legal history never calls with a record that has a fate, whether found in the journal or given earlier.
pub fn no_repeat()
    ensures { (s : Setting) (h : List Entry) → Legal s h → NoRepeat s h }
{}

/// Each record of a shard that arrived is counted once: under its fate, or as open.
pub fn every_record_counted()
    ensures { (s : Setting) (h : List Entry) → EveryRecordCounted s h }
{}

/// A checkpoint never falls, whatever entries follow.
pub fn checkpoint_kept()
    ensures { (s : Setting) (later before : List Entry) → CheckpointKept s later before }
{}

/// The checkpoint is the length of the longest prefix of the shard's arrived records that all have a fate.
pub fn checkpoint_is_longest()
    ensures { (s : Setting) (h : List Entry) (n : ℕ) → CheckpointIsLongest s h n }
{}

/// In a legal history the records of a shard arrive in order: those that arrived are the ones at the places below their
/// count.
pub fn has_come_below()
    ensures { (s : Setting) (h : List Entry) (n i : ℕ) → Legal s h → HasComeBelow h n i }
{}

/// A batch is the longest prefix of its lane's group that meets the four limits: the batch size, the length of the event
/// text, one tumbling window, and no expired record.
pub fn batch_is_longest()
    ensures { (s : Setting) (h : List Entry) (lane : LaneId) (m : ℕ) → BatchIsLongest s h lane m }
{}

/// A history that is legal over some lists of records is legal over all lists that extend them.
pub fn legal_over_more_records()
    ensures { (s : Setting) (h : List Entry) (after : List Stream) → Extends s.streams after → Legal s h → Legal (over s after) h }
{}

/// The calls of a batcher, with their event texts, stay the same when entries are added to the history; only the calls that
/// end in these entries are added.
pub fn calls_kept()
    ensures { (s : Setting) (sends : List ℕ → List ℕ) (later before : List Entry) (batcher : ℕ) → CallsKept s sends later before batcher }
{}

/// In a legal history they stay the same when the lists of records are extended.
pub fn calls_kept_over_more_records()
    ensures { (s : Setting) (sends : List ℕ → List ℕ) (h : List Entry) (batcher : ℕ) (after : List Stream) → Extends s.streams after →
        Legal s h → CallsKeptOver s sends h batcher after }
{}

/// So do the calls that end in the entries added after a history.
pub fn calls_since_kept_over_more_records()
    ensures { (s : Setting) (sends : List ℕ → List ℕ) (later before : List Entry) (batcher : ℕ) (after : List Stream) → Extends s.streams after →
        Legal s (later ++ before) → CallsSinceKeptOver s sends later before batcher after }
{}

/// Three records with two retry attempts need at most fifteen calls, and one more for a reply that says that the call was
/// not run.
pub fn calls_for_three_records()
    ensures { BoundOfThree }
{}
