// What holds over the life of a stream's mapping: over runs and replays that end or are stopped at any moment, and lists
// written in place of the journal's content between them. The newest stage comes first.
ghost use Rattle.std.specs.Prelude.{◌≡◌, ◌∷◌, ◌++◌, ℕ, true, List, reverse};
ghost use Rattle.esm_journal_state.specs.Meaning.{are_good};
ghost use Rattle.esm_model.specs.Valid.{HasStreamFields};
ghost use Rattle.esm_folder.specs.Upkeep.{AreCompacted};
ghost use Rattle.esm_history.specs.Content.{GoesOnFrom};
ghost use Rattle.esm_life.specs.Life.{AreBetween, Run, Stage, Ran, content, IsLife, SaysTheSame, FateStays, EachIsEarned};
ghost use Rattle.esm_life.specs.Life.{NoneIsCalledAgain, KeysInOrder, CheckpointStays, CheckpointIsRuns, EachFateOnce, EachReplayedOnce};
ghost use Rattle.esm_life.specs.Life.{NoneIsReplayedAgain, Replay, ReplaysStay};
ghost use Rattle.esm_life.specs.Tries.{TriesGoOn};
ghost use Rattle.esm_replay_life.specs.ReplayLife.{EachIsAnswered, ReplayRun};

use crate::laws::replay_laws_hold;

/// A run finds what the run before it knew when that run's last payload was written to the journal, whatever replays and
/// lists are between them.
pub fn each_run_goes_on()
    ensures { (r next : Run) (between before : List Stage) → IsLife (Ran next ∷ between ++ Ran r ∷ before) → AreBetween between →
        HasStreamFields r.setting.config → GoesOnFrom r.setting r.recorded next.setting }
{
    replay_laws_hold();
}

/// Wherever a run stopped, the next one finds the tries that it knew, if no lane is owed one; in any case it finds no more,
/// and at most one less.
pub fn each_run_finds_tries()
    ensures { (r next : Run) (between before : List Stage) → IsLife (Ran next ∷ between ++ Ran r ∷ before) → AreBetween between →
        HasStreamFields r.setting.config → TriesGoOn r.setting r.recorded next.setting }
{
    replay_laws_hold();
}

/// At most one payload says the fate of a record.
pub fn each_fate_once()
    ensures { (life : List Stage) → IsLife life → EachFateOnce life }
{
    replay_laws_hold();
}

/// Each record has at most one recorded fate, and it never changes.
pub fn fate_stays()
    ensures { (later before : List Stage) → IsLife (later ++ before) → FateStays later before }
{
    replay_laws_hold();
}

/// A fate that a run was the first to record was given in it, and was earned by what had happened in it before.
pub fn each_is_earned()
    ensures { (r : Run) (before : List Stage) → IsLife (Ran r ∷ before) → EachIsEarned r before }
{}

/// No call of a run holds a record that had a recorded fate when the run began, or was given one in it before the call.
pub fn none_is_called_again()
    ensures { (r : Run) (before : List Stage) → IsLife (Ran r ∷ before) → NoneIsCalledAgain r before }
{}

/// The calls of all runs together keep the order of each key: a call holds a record only if each earlier record of the key
/// had a recorded fate when the run began, was given one before the call, or is in the same batch.
pub fn keys_in_order()
    ensures { (r : Run) (before : List Stage) → IsLife (Ran r ∷ before) → KeysInOrder r before }
{}

/// The checkpoint by the content never falls from one stage to a later one.
pub fn recorded_checkpoint_stays()
    ensures { (later before : List Stage) → IsLife (later ++ before) → CheckpointStays later before }
{
    replay_laws_hold();
}

/// After a run, the checkpoint by the content is that of the history that its journal kept.
pub fn recorded_checkpoint_is_the_runs()
    ensures { (r : Run) (before : List Stage) → IsLife (Ran r ∷ before) → CheckpointIsRuns r before }
{}

/// Every payload of the content is one that a book could have written.
pub fn content_is_good()
    ensures { (life : List Stage) → IsLife life → are_good (reverse (content life)) ≡ true }
{
    replay_laws_hold();
}

/// At most one payload records a record as replayed, however many replays there are.
pub fn each_is_replayed_once()
    ensures { (life : List Stage) → IsLife life → EachReplayedOnce life }
{
    replay_laws_hold();
}

/// A record that is recorded as replayed stays so.
pub fn replays_stay()
    ensures { (later before : List Stage) → IsLife (later ++ before) → ReplaysStay later before }
{
    replay_laws_hold();
}

/// No call of a replay holds a record that was recorded as replayed when the replay began, or that it replayed before the
/// call.
pub fn none_is_replayed_again()
    ensures { (r : ReplayRun) (before : List Stage) → IsLife (Replay r ∷ before) → NoneIsReplayedAgain r before }
{
    replay_laws_hold();
}

/// Each payload that a replay left names exactly the records that an answer, which is in its caller's log, counts as
/// succeeded.
pub fn each_replay_is_answered()
    ensures { (r : ReplayRun) (before : List Stage) → IsLife (Replay r ∷ before) → EachIsAnswered r }
{
    replay_laws_hold();
}

/// A compaction writes a list that says the same as what it found, and may take its place between runs.
pub fn compaction_says_the_same()
    ensures { (payloads list : List (List ℕ)) → AreCompacted payloads list → SaysTheSame list payloads }
{}
