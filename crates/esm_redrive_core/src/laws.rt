//! What decisions leave of a legal history, as contracts of functions that do nothing. A history is written newest entry
//! first; it is settled if it requires nothing more.
ghost use Rattle.std.specs.Prelude.{List};
ghost use Rattle.esm_redrive_core.specs.declared.decisions.RedriveCall.{RedriveCall};
ghost use Rattle.esm_redrive_core.specs.declared.decisions.RedriveAnswer.{RedriveAnswer};
ghost use Rattle.esm_redrive_core.specs.RedriveView.{RedriveView, owing};
ghost use Rattle.esm_redrive_core.specs.Told.{MayAsk, IsAnswer, coming_by, entries_by};
ghost use Rattle.esm_redrive_core.specs.Ahead.{IsConsistent, SoundAhead};
ghost use Rattle.esm_model.specs.declared.item.Message.{Message};
ghost use Rattle.esm_model.specs.declared.entry.Entry.{Entry};
ghost use Rattle.esm_queue_model.specs.QueueSetting.{ExtendsMessages};
ghost use Rattle.esm_redrive_model.specs.RedriveSetting.{RedriveSetting, redrive_over};
ghost use Rattle.esm_redrive_core.specs.Sound.{Sound, MessagesAreSound, MoveIsSound, CallIsSound, EndIsSound, ShutIsSound};

use esm_redrive::laws::due_by_queue;

/// What is legal and settled over a list of messages is so over every list that extends it.
pub fn sound_over_more()
    ensures { (s : RedriveSetting) (h : List Entry) (after : List Message) → ExtendsMessages s.queue.messages after →
        Sound s h → Sound (redrive_over s after) h }
{}

/// Messages arrive; those whose line was found are recorded as moved, and those of the others that fail the filter and
/// were not found deleted are deleted. Then nothing more is required.
pub fn messages_are_sound()
    ensures { (s : RedriveSetting) (h : List Entry) → Sound s h → MessagesAreSound s h }
{}

/// The first message that is due is moved; nothing more is required.
pub fn move_is_sound()
    ensures { (s : RedriveSetting) (h : List Entry) → Sound s h → MoveIsSound s h }
{}

/// A call of the function begins, with the next batch; nothing more is required.
pub fn call_is_sound()
    ensures { (s : RedriveSetting) (h : List Entry) → Sound s h → CallIsSound s h }
{}

/// The call ends, and the messages that succeeded and are not yet deleted are deleted; then nothing more is required.
pub fn end_is_sound()
    ensures { (s : RedriveSetting) (h : List Entry) → Sound s h → EndIsSound s h }
{}

/// The input ends; nothing more is required.
pub fn shut_is_sound()
    ensures { (s : RedriveSetting) (h : List Entry) → Sound s h → ShutIsSound s h }
{}

/// With what an allowed call decides, a history that is legal and settled remains so.
pub fn decided_is_sound()
    ensures { (v : RedriveView) (asked : RedriveCall) (given : RedriveAnswer) → IsConsistent v → Sound v.setting v.past →
        MayAsk v asked → IsAnswer v asked given → SoundAhead (owing v (coming_by asked) (entries_by v asked)) }
{
    due_by_queue();
}
