//! Laws of every run of a replay, each as the contract of a function that does nothing. A history has its newest entry
//! first.
ghost use Rattle.std.specs.Prelude.{ℕ, List};
ghost use Rattle.esm_model.specs.declared.entry.Entry.{Entry};
ghost use Rattle.esm_journal_record.specs.EntryPayload.{AllMayBeSaid};
ghost use Rattle.esm_replay_model.specs.ReplaySetting.{ReplaySetting};
ghost use Rattle.esm_replay_model.specs.ReplayRun.{IsReplay};
ghost use Rattle.esm_replay_model.specs.ReplayLaws.{ReplayedOnce, CallsNamed, ReplayedAsAnswered, CallsWithin, ReplayedOrLeft};
ghost use Rattle.esm_replay_model.specs.ReplayLaws.{SucceededAreReplayed, CountsAddUp, CallsLogged, SaysAfter};

/// In a run each record is replayed at most once, and only if it was given up, a failure line names it, and no earlier
/// replay replayed it.
pub fn replayed_once()
    ensures { (s : ReplaySetting) (h : List Entry) → IsReplay s h → ReplayedOnce s h }
{}

/// In a run each call has only named records, and none that was replayed.
pub fn calls_named()
    ensures { (s : ReplaySetting) (h : List Entry) → IsReplay s h → CallsNamed s h }
{}

/// In a run each `Replayed` names exactly the records that the answer to the call before it counts as succeeded.
pub fn replayed_as_answered()
    ensures { (s : ReplaySetting) (h : List Entry) → IsReplay s h → ReplayedAsAnswered s h }
{}

/// A run has at most twice as many calls as there are named records.
pub fn calls_within()
    ensures { (s : ReplaySetting) (h : List Entry) → IsReplay s h → CallsWithin s h }
{}

/// After a run in which nothing is left to call and what succeeded is replayed, each named record was replayed, or its last
/// call left it.
pub fn replayed_or_left()
    ensures { (s : ReplaySetting) (h : List Entry) → IsReplay s h → ReplayedOrLeft s h }
{}

/// In a run all that the reply to a call counts as succeeded is replayed next.
pub fn succeeded_are_replayed()
    ensures { (s : ReplaySetting) (h : List Entry) → IsReplay s h → SucceededAreReplayed s h }
{}

/// After a run the records that it replayed and those that are left are the named ones, each counted once.
pub fn counts_add_up()
    ensures { (s : ReplaySetting) (h : List Entry) → IsReplay s h → CountsAddUp s h }
{}

/// After a run in which no call is running, its caller's log has as many calls as began, whatever the caller sends for an
/// event.
pub fn calls_logged()
    ensures { (s : ReplaySetting) (sends : List ℕ → List ℕ) (h : List Entry) → IsReplay s h → CallsLogged s sends h }
{}

/// The payloads of a run leave fates and tries as they were, and say that the records that its history replays are replayed.
pub fn says_after()
    ensures { (s : ReplaySetting) (h : List Entry) (old : List (List ℕ)) → IsReplay s h → AllMayBeSaid s.base h → SaysAfter s h old }
{}
