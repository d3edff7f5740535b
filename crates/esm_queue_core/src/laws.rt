//! What decisions leave of a legal history. Each law is the contract of a function that does nothing. A history is written
//! newest entry first; it is settled if it requires nothing more.
ghost use Rattle.std.specs.Prelude.{List};
ghost use Rattle.esm_model.specs.declared.item.Message.{Message};
ghost use Rattle.esm_model.specs.declared.entry.Entry.{Entry};
ghost use Rattle.esm_queue_model.specs.QueueSetting.{QueueSetting, ExtendsMessages, over_messages};
ghost use Rattle.esm_queue_core.specs.Sound.{Sound, MessagesAreSound, EndIsSound, CallIsSound, ShutIsSound};

/// What is legal and settled over a list of messages is so over each list that extends it.
pub fn sound_over_more()
    ensures { (s : QueueSetting) (h : List Entry) (after : List Message) → ExtendsMessages s.messages after → Sound s h → Sound (over_messages s after) h }
{}

/// Messages come, and those that fail the filter and were not found deleted are deleted: then nothing more is required.
pub fn messages_are_sound()
    ensures { (s : QueueSetting) (h : List Entry) → Sound s h → MessagesAreSound s h }
{}

/// A call of the function begins, of the batch that is due: nothing more is required.
pub fn call_is_sound()
    ensures { (s : QueueSetting) (h : List Entry) → Sound s h → CallIsSound s h }
{}

/// A call ends, and the messages that succeeded and are not deleted are deleted: then nothing more is required.
pub fn end_is_sound()
    ensures { (s : QueueSetting) (h : List Entry) → Sound s h → EndIsSound s h }
{}

/// The input ends: nothing more is required.
pub fn shut_is_sound()
    ensures { (s : QueueSetting) (h : List Entry) → Sound s h → ShutIsSound s h }
{}
