// Laws that connect a queue with a limit of receives, and a dead-letter file, with the histories of a redrive, as
// contracts of functions that do nothing.
ghost use Rattle.std.specs.Prelude.{ℕ, ◌≤◌, Bool, List, All, length};
ghost use Rattle.esm_model.specs.declared.item.Message.{Message};
ghost use Rattle.esm_model.specs.declared.entry.Entry.{Entry};
ghost use Rattle.esm_queue_model.specs.declared.stored.TheConstants.{MAX_COUNT};
ghost use Rattle.esm_model.specs.Books.{lines_of};
ghost use Rattle.esm_model.specs.Items.{queue_kind};
ghost use Rattle.esm_model.specs.ValidMessage.{IsValidMessage};
ghost use Rattle.esm_redrive_model.specs.Due.{moved_ids};
ghost use Rattle.esm_redrive_model.specs.RedriveSetting.{RedriveSetting};
ghost use Rattle.esm_redrive_model.specs.RedriveStep.{LegalRedrive};
ghost use Rattle.esm_redrive.specs.DeadFile.{AreLetters, GoesOnWith};
ghost use Rattle.esm_redrive.specs.Limited.{IsDueByQueue};
ghost use Rattle.esm_redrive.specs.ReadsBack.{IsUtf8Message, HasLetter};

use esm_redrive_model::laws::{moved_once, receives_are_counted};

/// The messages that are due after a legal history of a redrive are those that are due in the queue after it.
pub fn due_by_queue()
    ensures { (s : RedriveSetting) (h : List Entry) → s.max_receives ≤ MAX_COUNT → LegalRedrive s h → IsDueByQueue s h }
{
    receives_are_counted();
}

/// The dead letter of a message of a queue reads back as this message.
pub fn has_letter()
    ensures { (fifo : Bool) (m : Message) → IsUtf8Message m → IsValidMessage (queue_kind fifo) m → HasLetter fifo m }
{}

/// The lines that a history adds continue the dead-letter file that was found: the file is good for the next redrive,
/// which finds the ids of the moved messages behind those that were there.
pub fn lines_go_on()
    ensures { (fifo : Bool) (found : List (List ℕ)) (s : RedriveSetting) (h : List Entry) → All (HasLetter fifo) s.queue.messages → LegalRedrive s h →
        AreLetters fifo found (length found) → GoesOnWith fifo found (lines_of h) (moved_ids s h) }
{
    moved_once();
}
