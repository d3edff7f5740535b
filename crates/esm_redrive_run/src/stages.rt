// The law that a run of a redrive is a stage of the life of its queue, as the contract of a function that does nothing.
ghost use Rattle.std.specs.Prelude.{ℕ, Bool, List, Option};
ghost use Rattle.esm_io.specs.Meanings.{disk as meaning};
ghost use Rattle.esm_model.specs.declared.book.Trouble.{Trouble};
ghost use Rattle.esm_model.specs.declared.entry.Entry.{Entry};
ghost use Rattle.esm_model.specs.declared.item.Message.{Message};
ghost use Rattle.esm_redrive_model.specs.RedriveSetting.{RedriveSetting};
ghost use Rattle.esm_runner.specs.Files.{FilesState};
ghost use Rattle.esm_redrive_run.specs.Headline.{Disks, Words};
ghost use Rattle.esm_redrive_run.specs.Stages.{IsStage};

use esm_io::Disk;

/// The laws over lists of redrives apply to each run of which the headline holds: what they require of a run are its
/// clauses.
pub fn run_is_stage<D: Disk>()
    ensures { (gave : ℕ → Bool) (w : Words) (f : FilesState D) (messages : List Message) (s : RedriveSetting) (h : List Entry) (trouble : Option Trouble)
        (hand tried : List Entry) (new : Disks D) (recorded lined : List Entry) →
        IsStage (meaning D.Disk) gave w f messages s h trouble hand tried new recorded lined }
{}
