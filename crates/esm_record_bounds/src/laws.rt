//! Laws of every legal history whose records are within the bounds of a stream, each as the contract of a function that does
//! nothing. A history has its newest entry first.
ghost use Rattle.std.specs.Prelude.{◌≡◌, ◌≤◌, ℕ, [], ◌∷◌, Bool, List, length, filter_map, IfSome, Some};
ghost use Rattle.esm_model.specs.declared.limits.TheConstants.{MAX_PAYLOAD};
ghost use Rattle.esm_model.specs.declared.lane.LaneId.{LaneId};
ghost use Rattle.esm_model.specs.declared.entry.Reply.{Reply};
ghost use Rattle.esm_model.specs.declared.entry.Entry.{Entry};
ghost use Rattle.esm_model.specs.declared.entry.Entry.TheVariants.{Came, Ended};
ghost use Rattle.esm_model.specs.declared.setup.Setup.{Setup};
ghost use Rattle.esm_model.specs.declared.setup.Told.{Told};
ghost use Rattle.esm_model.specs.Setting.{Setting};
ghost use Rattle.esm_model.specs.Step.{Legal};
ghost use Rattle.esm_model.specs.Owed.{owed, unsorted};
ghost use Rattle.esm_model.specs.Kept.{IsLegal};
ghost use Rattle.esm_model.specs.Books.{entry_line, setting_told, stream_may_follow};
ghost use Rattle.esm_model.specs.FailureLine.{failure_line};
ghost use Rattle.esm_model.specs.Valid.{IsStreamConfig};
ghost use Rattle.esm_model.specs.Windows.{kept_state};
ghost use Rattle.esm_journal_record.specs.EntryPayload.{AllMayBeSaid, entry_said};
ghost use Rattle.esm_journal_record.specs.Payload.{payload_of};
ghost use Rattle.esm_record_bounds.specs.Bounds.{AreWithinBounds, AreCountedInFourBytes, AreStatesWithin, FiltersFew, IsStateWithin};

/// The records that the shared history of a stream's book holds are within the bounds, if the states found in its journal at
/// opening are.
pub fn told_within()
    ensures { (setup : Setup) (history : List Told) → AreStatesWithin setup.states → IsLegal (stream_may_follow setup) history →
        AreWithinBounds (setting_told setup history) }
{}

/// A state that a legal history keeps for a window is within its bounds: the window's start is at most the last moment, and
/// its text is no longer than a state may be (Lambda Developer Guide, tumbling windows).
pub fn states_within()
    ensures { (s : Setting) (h : List Entry) (n w : ℕ) (text : List ℕ) → AreWithinBounds s → Legal s h → kept_state s h n w ≡ Some text → IsStateWithin w text }
{}

/// Each journaled entry of a legal history has a payload that its journal accepts.
pub fn legal_may_be_said()
    ensures { (s : Setting) (h : List Entry) → AreWithinBounds s → Legal s h → AreCountedInFourBytes h → AllMayBeSaid s h }
{}

/// The payload of an entry of a legal history, if it has one, is not too long for a journal. The history does not bound the
/// number of records that are filtered at their arrival, so this is assumed: they are at most as many as a batch may have.
pub fn payload_within()
    ensures { (s : Setting) (h : List Entry) (e : Entry) → AreWithinBounds s → IsStreamConfig s.config → Legal s (e ∷ h) → AreCountedInFourBytes h →
        FiltersFew e → IfSome (entry_said s e) (λ said. length (payload_of said) ≤ MAX_PAYLOAD) }
{}

/// If no record of a shard was waiting to be filtered, then after the arrival of `count` records at most `count` are.
pub fn filtered_few()
    ensures { (s : Setting) (h : List Entry) (n first count m : ℕ) → unsorted s h n ≡ [] → length (unsorted s (Came n first count m ∷ h) n) ≤ count }
{}

/// Of the entries that the end of a call requires, at most one has a failure line.
pub fn one_line()
    ensures { (s : Setting) (h : List Entry) (lane : LaneId) (reply : Reply) (m : ℕ) →
        length (filter_map entry_line (owed s (Ended lane reply m ∷ h) lane)) ≤ 1 }
{}

/// A failure line of a stream's mapping is no longer than a destination accepts.
pub fn line_within()
    ensures { (s : Setting) (h : List Entry) (n : ℕ) (places : List ℕ) (expired : Bool) (m : ℕ) (line : List ℕ) → AreWithinBounds s →
        IsStreamConfig s.config → failure_line s h n places expired m ≡ Some line → length line ≤ MAX_PAYLOAD }
{}

/// Nor is the failure line of an entry of a legal history, if it has one, longer than a destination accepts.
pub fn lines_within()
    ensures { (s : Setting) (h : List Entry) (e : Entry) (line : List ℕ) → AreWithinBounds s → IsStreamConfig s.config → Legal s (e ∷ h) →
        entry_line e ≡ Some line → length line ≤ MAX_PAYLOAD }
{}
