//! Laws of every legal history of a queue's mapping, each as the contract of a function that does nothing. A history has its
//! newest entry first.
ghost use Rattle.std.specs.Prelude.{ℕ, List};
ghost use Rattle.esm_model.specs.declared.item.Message.{Message};
ghost use Rattle.esm_model.specs.declared.entry.Entry.{Entry};
ghost use Rattle.esm_queue_model.specs.QueueSetting.{QueueSetting, ExtendsMessages, over_messages};
ghost use Rattle.esm_queue_model.specs.QueueStep.{LegalQueue};
ghost use Rattle.esm_queue_model.specs.HistoryLaws.{DeletedOnce, OrderPerGroup, EveryMessageCounted, QueueCallsKept, QueueCallsKeptOver};

/// In a legal history a message is deleted at most once, and one that was found deleted is not deleted again.
pub fn deleted_once()
    ensures { (s : QueueSetting) (h : List Entry) → LegalQueue s h → DeletedOnce s h }
{}

/// In a legal history of a FIFO queue no batch overtakes an earlier message of one of its groups: that message is deleted or
/// in the batch too.
pub fn order_per_group()
    ensures { (s : QueueSetting) (h : List Entry) → LegalQueue s h → OrderPerGroup s h }
{}

/// In a legal history each message that arrived is counted once: as deleted, or as waiting.
pub fn every_message_counted()
    ensures { (s : QueueSetting) (h : List Entry) → LegalQueue s h → EveryMessageCounted s h }
{}

/// A history that is legal over a list of messages is legal over each list that extends it.
pub fn legal_over_more()
    ensures { (s : QueueSetting) (h : List Entry) (after : List Message) → ExtendsMessages s.messages after → LegalQueue s h →
        LegalQueue (over_messages s after) h }
{}

/// Entries after a history add to the calls of a batcher those that end in them, and change none before.
pub fn queue_calls_kept()
    ensures { (s : QueueSetting) (sends : List ℕ → List ℕ) (later before : List Entry) (k : ℕ) → QueueCallsKept s sends later before k }
{}

/// The calls of a legal history are the same over each list of messages that extends the setting's.
pub fn queue_calls_kept_over()
    ensures { (s : QueueSetting) (sends : List ℕ → List ℕ) (h : List Entry) (k : ℕ) (after : List Message) → ExtendsMessages s.messages after →
        LegalQueue s h → QueueCallsKeptOver s sends h k after }
{}
