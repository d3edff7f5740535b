//! Laws of every run of a replay over the records of a stream, and of these records, as contracts of functions that do
//! nothing. A history is written newest entry first.
ghost use Rattle.std.specs.Prelude.{◌≡◌, List, [], None};
ghost use Rattle.esm_model.specs.declared.entry.Entry.{Entry};
ghost use Rattle.esm_journal_record.specs.EntryPayload.{AllMayBeSaid};
ghost use Rattle.esm_record_bounds.specs.Bounds.{AreWithinBounds};
ghost use Rattle.esm_replay_model.specs.ReplaySetting.{ReplaySetting};
ghost use Rattle.esm_replay_model.specs.ReplayRun.{IsReplay};
ghost use Rattle.esm_model.specs.Records.{Record};
ghost use Rattle.esm_journal_state.specs.SaidLists.{SaidLists};
ghost use Rattle.esm_replay.specs.Coming.{first_change, NoneDiffers};
ghost use Rattle.esm_replay.specs.Saying.{HaveFewRecords};

/// Every `Replayed` of a run has a payload that the journal accepts.
pub fn replayed_may_be_said()
    ensures { (s : ReplaySetting) (h : List Entry) → AreWithinBounds s.base → HaveFewRecords s.base → IsReplay s h → AllMayBeSaid s.base h }
{}

/// If no record of a list differs from what was kept, none differs at its place of its shard.
pub fn unchanged_as_kept()
    ensures { (told : SaidLists) (rs : List Record) → first_change told [] rs ≡ None → NoneDiffers told rs }
{}
