// What the program does to a journal is a stage of its life under replays: a replay, a run between replays, a compaction.
ghost use Rattle.std.specs.Prelude.{◌≡◌, ℕ, Bool, true, List, Option, reverse};
ghost use Rattle.esm_io.specs.Meanings.{disk as meaning};
ghost use Rattle.esm_model.specs.declared.book.Trouble.{Trouble};
ghost use Rattle.esm_model.specs.declared.config.Config.{Config};
ghost use Rattle.esm_model.specs.declared.entry.Entry.{Entry};
ghost use Rattle.esm_model.specs.Records.{Record};
ghost use Rattle.esm_model.specs.Setting.{Setting};
ghost use Rattle.esm_model.specs.Step.{Legal};
ghost use Rattle.esm_folder.specs.Upkeep.{AreCompacted};
ghost use Rattle.esm_journal_record.specs.EntryPayload.{history_payloads, AllMayBeSaid};
ghost use Rattle.esm_journal_state.specs.Meaning.{are_good};
ghost use Rattle.esm_replay_model.specs.ReplaySetting.{ReplaySetting};
ghost use Rattle.esm_runner.specs.Files.{FilesState};
ghost use Rattle.esm_replay_run.specs.Headline.{Disks};
ghost use Rattle.esm_replay_life.specs.ReplayLife.{AreFurther, SaysTheSame};
ghost use Rattle.esm_history.specs.Content.{IsOpenedOver};
ghost use Rattle.esm_life.specs.Life.{IsLife, Stage};
ghost use Rattle.esm_life.specs.Replays.{IsStage, IsLeftByStage, IsUnderReplays};

use crate::laws::replay_laws_hold;
use esm_history::content::content_stays_good;
use esm_io::Disk;
use esm_replay_life::life::runs_replay_nothing;

/// Each run of a replay whose headline holds is a replay in the sense of the laws over lists of replays: its clauses are
/// what they require.
pub fn run_is_stage<D: Disk>()
    ensures { (gave : ℕ → Bool) (config : Config) (calls : ℕ) (f : FilesState D) (came : List Record) (s : ReplaySetting) (h : List Entry)
        (trouble : Option Trouble)
        (hand : List Entry) (new : Disks D) (left rest : List (List ℕ)) → IsStage (meaning D.Disk) gave config calls f came s h trouble hand new left rest }
{}

/// Whatever a crash leaves of the journal after such a run is the content of a stage over what was found. This holds of a
/// crash at any moment since the files were opened, and since the run's start if its disks had one image then.
pub fn left_is_stage<D: Disk>()
    ensures { (gave : ℕ → Bool) (config : Config) (calls : ℕ) (f : FilesState D) (came : List Record) (s : ReplaySetting) (h : List Entry)
        (trouble : Option Trouble)
        (hand : List Entry) (new : Disks D) (one other : List ℕ) → IsLeftByStage (meaning D.Disk) gave config calls f came s h trouble hand new one other }
{}

/// The life of a mapping, of runs, replays and lists, is a list of replays to which each run added payloads, so the laws of
/// such lists hold of everything that the program does to a journal.
pub fn life_is_under_replays()
    ensures { (life : List Stage) → IsLife life → IsUnderReplays life }
{
    replay_laws_hold();
}

/// A legal history of a stream's run may come between replays: none of its payloads is of kind 7, and each could have been
/// written by a book.
pub fn run_may_come_between()
    ensures { (s : Setting) (h : List Entry) (old : List (List ℕ)) → are_good (reverse old) ≡ true → Legal s h → AllMayBeSaid s h →
        IsOpenedOver s old → AreFurther (history_payloads s h) old }
{
    content_stays_good();
    runs_replay_nothing();
}

/// A compaction writes a list that says the same as what it found, and may take its place between replays.
pub fn compaction_says_the_same()
    ensures { (payloads list : List (List ℕ)) → AreCompacted payloads list → SaysTheSame list payloads }
{}
