// What a run of a queue's mapping leaves on its files is what a stage of the mapping's life leaves.
ghost use Rattle.std.specs.Prelude.{ℕ, Bool, List, Option};
ghost use Rattle.esm_io.specs.Meanings.{disk as meaning};
ghost use Rattle.esm_folder.specs.declared.disks.Disks.{Disks};
ghost use Rattle.esm_model.specs.declared.book.Trouble.{Trouble};
ghost use Rattle.esm_model.specs.declared.config.Config.{Config};
ghost use Rattle.esm_model.specs.declared.entry.Entry.{Entry};
ghost use Rattle.esm_model.specs.declared.item.Message.{Message};
ghost use Rattle.esm_queue_model.specs.QueueSetting.{QueueSetting};
ghost use Rattle.esm_queue_life.specs.Life.{Stage};
ghost use Rattle.esm_runner.specs.Files.{FilesState};
ghost use Rattle.esm_runner.specs.Headline.{Devices};
ghost use Rattle.esm_workers.specs.Working.{Outside};
ghost use Rattle.esm_life.specs.Queues.{IsLeftByStage, IsWholeStage, GoesOnWithStage, KeepsLawsInLife, IsFoundAgain, IsLifeBegun};
ghost use Rattle.esm_life.specs.Queues.{IsCompactedLife, IsMigratedLife, IsMigratingLife, IsSameLife};

use crate::laws::queue_laws_hold;
use esm_io::{Caller, Disk};

/// Whatever a crash leaves of the files after a run is the content of a stage over what was found, and the dead letters that
/// were found. This holds of a crash at any moment since the files were opened, and since the run's start if each disk had
/// one image then.
pub fn left_is_stage<D: Disk, F: Caller>()
    ensures { (callers : Outside F) (line : List ℕ → List ℕ) (config : Config) (calls visibility : ℕ) (f : FilesState D) (messages : List Message)
        (s : QueueSetting)
        (h : List Entry) (trouble : Option Trouble) (hand : List Entry) (new : Devices D F) (one other bytes : List ℕ) →
        IsLeftByStage (meaning D.Disk) callers line config calls visibility f messages s h trouble hand new one other bytes }
{}

/// If no disk of the journal failed, the stage is whole, and the journal has everything that happened in it.
pub fn ended_is_whole<D: Disk, F: Caller>()
    ensures { (callers : Outside F) (line : List ℕ → List ℕ) (config : Config) (calls visibility : ℕ) (f : FilesState D) (messages : List Message)
        (s : QueueSetting)
        (h : List Entry) (trouble : Option Trouble) (hand : List Entry) (new : Devices D F) →
        IsWholeStage (meaning D.Disk) callers line config calls visibility f messages s h trouble hand new }
{}

/// A run that found what a life leaves adds a stage to it, and each image of its files opens to what the life then leaves.
pub fn life_goes_on<D: Disk, F: Caller>()
    ensures { (callers : Outside F) (line : List ℕ → List ℕ) (config : Config) (calls visibility : ℕ) (f : FilesState D) (messages : List Message)
        (s : QueueSetting)
        (h : List Entry) (trouble : Option Trouble) (hand : List Entry) (new : Devices D F) (one other bytes : List ℕ) (life : List Stage) →
        GoesOnWithStage (meaning D.Disk) callers line config calls visibility f messages s h trouble hand new one other bytes life }
{}

/// Such a stage keeps the laws of the whole life, whatever its journal recorded of it; each deletion that it adds is earned
/// in it.
pub fn run_keeps_laws()
    ensures { (fifo : Bool) (s : QueueSetting) (h recorded : List Entry) (life : List Stage) → KeepsLawsInLife fifo s h recorded life }
{
    queue_laws_hold();
}

/// A life begins when `init` has made the files: whatever a crash then leaves of them is what a life without stages leaves.
pub fn life_begins<D: Disk>()
    ensures { (old new : Disks D) (fifo : Bool) → IsLifeBegun (meaning D.Disk) old new fifo }
{}

/// The next run or redrive finds what the life leaves.
pub fn life_is_found<D: Disk>()
    ensures { (f : FilesState D) (fifo : Bool) (life : List Stage) (epoch : ℕ) → IsFoundAgain (meaning D.Disk) f fifo life epoch }
{}

/// A compaction of the journal between two runs, however it stops, leaves the life as it was or adds a stage to it.
pub fn compacted_life_goes_on<D: Disk>()
    ensures { (fifo : Bool) (life : List Stage) (epoch : ℕ) (journal spare journal' spare' : D) (one other bytes : List ℕ) →
        IsCompactedLife (meaning D.Disk) fifo life epoch journal spare journal' spare' one other bytes }
{}

/// A pair of version 1 that was written as one of version 2 keeps its life.
pub fn migrated_life_stays<D: Disk>()
    ensures { (fifo : Bool) (life : List Stage) (journal spare journal' spare' : D) (payloads : List (List ℕ)) (bytes : List ℕ) →
        IsMigratedLife (meaning D.Disk) fifo life journal spare journal' spare' payloads bytes }
{}

/// So it does at any moment while it is written: what a crash then leaves opens to the life, as version 1 or as version 2.
pub fn migrating_life_stays<D: Disk>()
    ensures { (fifo : Bool) (life : List Stage) (epoch : ℕ) (journal spare journal' spare' : D) (one other bytes : List ℕ) →
        IsMigratingLife (meaning D.Disk) fifo life epoch journal spare journal' spare' one other bytes }
{}

/// If nothing was written, because files were refused or a run did not begin, the life stays as it is.
pub fn unwritten_life_stays<D: Disk>()
    ensures { (fifo : Bool) (life : List Stage) (epoch : ℕ) (journal spare failures journal' spare' failures' : D) (one other bytes : List ℕ) →
        IsSameLife (meaning D.Disk) fifo life epoch journal spare failures journal' spare' failures' one other bytes }
{}
