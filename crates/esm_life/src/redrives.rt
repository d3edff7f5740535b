// What a redrive leaves on its files is what a stage of the life of its queue leaves.
ghost use Rattle.std.specs.Prelude.{ℕ, Bool, List, Option};
ghost use Rattle.esm_io.specs.Meanings.{disk as meaning};
ghost use Rattle.esm_model.specs.declared.book.Trouble.{Trouble};
ghost use Rattle.esm_model.specs.declared.entry.Entry.{Entry};
ghost use Rattle.esm_model.specs.declared.item.Message.{Message};
ghost use Rattle.esm_queue_life.specs.Life.{Stage};
ghost use Rattle.esm_redrive_model.specs.RedriveSetting.{RedriveSetting};
ghost use Rattle.esm_runner.specs.Files.{FilesState};
ghost use Rattle.esm_redrive_run.specs.Headline.{Disks, Words};
ghost use Rattle.esm_life.specs.Redrives.{IsLeftByStage, IsWholeStage, GoesOnWithStage, KeepsLawsInLife};

use crate::laws::queue_laws_hold;
use esm_io::Disk;
use esm_redrive_run::stages::run_is_stage;

/// Whatever a crash leaves after a run is the content and the lines of a stage over what was found: of the journal at any
/// moment since its files were opened, and since the run's start if its disks had one image then; of the dead-letter file at
/// the run's end.
pub fn left_is_stage<D: Disk>()
    ensures { (gave : ℕ → Bool) (w : Words) (f : FilesState D) (messages : List Message) (s : RedriveSetting) (h : List Entry) (trouble : Option Trouble)
        (hand tried : List Entry) (new : Disks D) (one other bytes : List ℕ) →
        IsLeftByStage (meaning D.Disk) gave w f messages s h trouble hand tried new one other bytes }
{
    run_is_stage::<D>();
}

/// If no device failed, the stage is whole, and the files have everything that happened in it.
pub fn ended_is_whole<D: Disk>()
    ensures { (gave : ℕ → Bool) (f : FilesState D) (s : RedriveSetting) (h : List Entry) (trouble : Option Trouble)
        (hand tried : List Entry) (new : Disks D) → IsWholeStage (meaning D.Disk) gave f s h trouble hand tried new }
{}

/// A run that found what a life leaves adds a stage to it, and each image of its files opens to what the life then leaves.
pub fn life_goes_on<D: Disk>()
    ensures { (gave : ℕ → Bool) (w : Words) (f : FilesState D) (messages : List Message) (s : RedriveSetting) (h : List Entry) (trouble : Option Trouble)
        (hand tried : List Entry) (new : Disks D) (one other bytes : List ℕ) (life : List Stage) →
        GoesOnWithStage (meaning D.Disk) gave w f messages s h trouble hand tried new one other bytes life }
{
    run_is_stage::<D>();
}

/// Such a stage keeps the laws of the whole life, whatever its files kept of it; each deletion that it adds is earned in it.
pub fn run_keeps_laws()
    ensures { (fifo : Bool) (s : RedriveSetting) (h recorded lined : List Entry) (life : List Stage) → KeepsLawsInLife fifo s h recorded lined life }
{
    queue_laws_hold();
}
