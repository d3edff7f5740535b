// What a run of a stream's mapping leaves on its journal is what a stage of the mapping's life leaves.
ghost use Rattle.std.specs.Prelude.{ℕ, Bool, List, Option};
ghost use Rattle.esm_io.specs.Meanings.{disk as meaning};
ghost use Rattle.esm_folder.specs.declared.disks.Disks.{Disks};
ghost use Rattle.esm_model.specs.declared.book.Trouble.{Trouble};
ghost use Rattle.esm_model.specs.declared.config.Config.{Config};
ghost use Rattle.esm_model.specs.declared.entry.Entry.{Entry};
ghost use Rattle.esm_model.specs.Records.{Record};
ghost use Rattle.esm_model.specs.Setting.{Setting};
ghost use Rattle.esm_replay_model.specs.ReplaySetting.{ReplaySetting};
ghost use Rattle.esm_replay_run.specs.Headline.{Disks as ReplayDisks};
ghost use Rattle.esm_runner.specs.Files.{FilesState};
ghost use Rattle.esm_runner.specs.Headline.{Devices};
ghost use Rattle.esm_workers.specs.Working.{Outside};
ghost use Rattle.esm_life.specs.Life.{Stage};
ghost use Rattle.esm_life.specs.Streams.{IsLeftByStage, IsWholeStage, GoesOnWithStage, KeepsLawsInLife, IsFoundAgain, IsNewLife};
ghost use Rattle.esm_life.specs.Streams.{IsCompactedLife, IsMigratedLife, IsMigratingLife, IsReplayedLife, IsSameLife};

use crate::life::{
    each_fate_once, each_is_earned, each_run_finds_tries, each_run_goes_on, fate_stays,
    keys_in_order, none_is_called_again, recorded_checkpoint_is_the_runs,
    recorded_checkpoint_stays,
};
use esm_io::{Caller, Disk};

/// Whatever a crash leaves of the journal after a run is the content of a stage over what was found. This holds of a crash
/// at any moment since the files were opened, and since the run's start if its disks had one image then.
pub fn left_is_stage<D: Disk, F: Caller>()
    ensures { (callers : Outside F) (line : List ℕ → List ℕ) (config : Config) (calls : ℕ) (f : FilesState D) (records : List Record)
        (s : Setting) (h : List Entry)
        (trouble : Option Trouble) (hand : List Entry) (new : Devices D F) (one other : List ℕ) →
        IsLeftByStage (meaning D.Disk) callers line config calls f records s h trouble hand new one other }
{}

/// If no disk of the journal failed, the stage is whole, and the journal has everything that happened in it; if the run
/// ended without any trouble, nothing is owed after it.
pub fn ended_is_whole<D: Disk, F: Caller>()
    ensures { (callers : Outside F) (line : List ℕ → List ℕ) (config : Config) (calls : ℕ) (f : FilesState D) (records : List Record)
        (s : Setting) (h : List Entry)
        (trouble : Option Trouble) (hand : List Entry) (new : Devices D F) →
        IsWholeStage (meaning D.Disk) callers line config calls f records s h trouble hand new }
{}

/// A run that found what a life leaves adds a stage to it, and each image of its journal opens to what the life then leaves.
pub fn life_goes_on<D: Disk, F: Caller>()
    ensures { (callers : Outside F) (line : List ℕ → List ℕ) (config : Config) (calls : ℕ) (f : FilesState D) (records : List Record)
        (s : Setting) (h : List Entry)
        (trouble : Option Trouble) (hand : List Entry) (new : Devices D F) (one other : List ℕ) (life : List Stage) →
        GoesOnWithStage (meaning D.Disk) callers line config calls f records s h trouble hand new one other life }
{}

/// Such a run keeps the laws of the whole life, whatever its journal recorded of it.
pub fn run_keeps_laws<D: Disk, F: Caller>()
    ensures { (callers : Outside F) (line : List ℕ → List ℕ) (config : Config) (calls : ℕ) (f : FilesState D) (records : List Record)
        (s : Setting) (h : List Entry)
        (trouble : Option Trouble) (hand : List Entry) (new : Devices D F) (life : List Stage) →
        KeepsLawsInLife (meaning D.Disk) callers line config calls f records s h trouble hand new life }
{
    fate_stays();
    each_is_earned();
    none_is_called_again();
    keys_in_order();
    recorded_checkpoint_stays();
    recorded_checkpoint_is_the_runs();
    each_run_goes_on();
    each_fate_once();
    each_run_finds_tries();
}

/// The next run finds what the life leaves.
pub fn life_is_found<D: Disk>()
    ensures { (f : FilesState D) (life : List Stage) (epoch : ℕ) → IsFoundAgain (meaning D.Disk) f life epoch }
{}

/// A life begins with an `init` that made its files.
pub fn life_begins<D: Disk>()
    ensures { (old new : Disks D) → IsNewLife (meaning D.Disk) old new }
{}

/// A compaction of the journal between two runs, however it stops, leaves the life as it was or adds a stage to it.
pub fn compacted_life_goes_on<D: Disk>()
    ensures { (life : List Stage) (epoch : ℕ) (journal spare journal' spare' : D) (one other : List ℕ) →
        IsCompactedLife (meaning D.Disk) life epoch journal spare journal' spare' one other }
{}

/// A pair of version 1 that was written as one of version 2 keeps its life.
pub fn migrated_life_stays<D: Disk>()
    ensures { (life : List Stage) (journal spare journal' spare' : D) (payloads : List (List ℕ)) →
        IsMigratedLife (meaning D.Disk) life journal spare journal' spare' payloads }
{}

/// So it does at any moment while it is written: what a crash then leaves opens to the life, as version 1 or as version 2.
pub fn migrating_life_stays<D: Disk>()
    ensures { (life : List Stage) (epoch : ℕ) (journal spare journal' spare' : D) (one other : List ℕ) →
        IsMigratingLife (meaning D.Disk) life epoch journal spare journal' spare' one other }
{}

/// A replay between two runs adds a stage to the life, however it stops.
pub fn replay_goes_on<D: Disk>()
    ensures { (gave : ℕ → Bool) (config : Config) (calls : ℕ) (f : FilesState D) (came : List Record) (s : ReplaySetting) (h : List Entry)
        (trouble : Option Trouble)
        (hand : List Entry) (new : ReplayDisks D) (one other : List ℕ) (life : List Stage) →
        IsReplayedLife (meaning D.Disk) gave config calls f came s h trouble hand new one other life }
{}

/// If nothing was written, because files were refused or a run did not begin, the life stays as it is.
pub fn unwritten_life_stays<D: Disk>()
    ensures { (life : List Stage) (epoch : ℕ) (journal spare journal' spare' : D) (one other : List ℕ) →
        IsSameLife (meaning D.Disk) life epoch journal spare journal' spare' one other }
{}
