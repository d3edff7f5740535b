// Laws over the life of a stream's mapping under replays: over replays that end or are stopped at any payload, and other
// runs and rewritings of the journal between them. A life has its latest stage first.
ghost use Rattle.std.specs.Prelude.{◌≡◌, ◌∷◌, ◌++◌, true, List, reverse};
ghost use Rattle.esm_model.specs.declared.entry.Entry.{Entry};
ghost use Rattle.esm_model.specs.Setting.{Setting};
ghost use Rattle.esm_model.specs.Step.{Legal};
ghost use Rattle.esm_journal_record.specs.EntryPayload.{history_payloads, AllMayBeSaid};
ghost use Rattle.esm_journal_state.specs.Meaning.{history, are_good};
ghost use Rattle.esm_replay_life.specs.ReplayLife.{ReplayRun, Stage, Replay, content, IsLife, NoneReplays, AreReplays, EachReplayedOnce};
ghost use Rattle.esm_replay_life.specs.ReplayLife.{ReplaysStay, NoneIsCalledAgain, EachIsAnswered, FatesAndTriesStay};

/// At most one payload of kind 7 names a record.
pub fn each_replayed_once()
    ensures { (life : List Stage) → IsLife life → EachReplayedOnce life }
{}

/// What is recorded as replayed remains so.
pub fn replays_stay()
    ensures { (later before : List Stage) → IsLife (later ++ before) → ReplaysStay later before }
{}

/// No later replay calls a record that is recorded as replayed, nor does the replay that replayed it, after that.
pub fn none_is_called_again()
    ensures { (r : ReplayRun) (between before : List Stage) → IsLife (Replay r ∷ between ++ before) → NoneIsCalledAgain r before }
{}

/// Each payload that a replay left is of kind 7, and names exactly the records that a reply in its caller's log counts as
/// succeeded.
pub fn each_is_answered()
    ensures { (r : ReplayRun) (before : List Stage) → IsLife (Replay r ∷ before) → EachIsAnswered r }
{}

/// Replays and rewritings leave fates, tries and what is kept of windows as they were.
pub fn fates_and_tries_stay()
    ensures { (later before : List Stage) → IsLife (later ++ before) → AreReplays later → FatesAndTriesStay later before }
{}

/// No payload of the content is ever bad for a book.
pub fn content_is_good()
    ensures { (life : List Stage) → IsLife life → are_good (reverse (content life)) ≡ true }
{}

/// The payloads of a legal history of a stream's run are not of kind 7, so such a run may come between replays.
pub fn runs_replay_nothing()
    ensures { (s : Setting) (h : List Entry) → Legal s h → AllMayBeSaid s h → NoneReplays (history (reverse (history_payloads s h))) }
{}
