//! Worked examples, each computed from the definitions.
ghost use Rattle.std.specs.Prelude.{◌≡◌, true, List};
ghost use Rattle.esm_model.specs.declared.entry.Entry.{Entry};
ghost use Rattle.esm_queue_model.specs.QueueSetting.{QueueSetting};
ghost use Rattle.esm_queue_model.specs.QueueStep.{LegalQueue};
ghost use Rattle.esm_queue_model.specs.QueueTests.{is_legal_queue};
ghost use Rattle.esm_queue_model.specs.WorkedQueue.{FifoReceive, QueuePeek};
ghost use Rattle.esm_queue_model.specs.WorkedHistories.{QueueItemFailures, HiddenCallIsNotLegal, TwoGroups, FilteredMessage, FoundDeleted};
ghost use Rattle.esm_queue_model.specs.WorkedHistories.{ChangedMessageIsNotLegal};

/// Three messages of the groups A, B and A: one in flight holds back the later one of its group, until it is visible again
/// or deleted.
pub fn queues()
    ensures fifo_receive { FifoReceive }
    ensures queue_peek { QueuePeek }
{}

/// A history is legal if it passes tests over the lanes that occur in it.
pub fn legal_by_tests()
    ensures { (s : QueueSetting) (h : List Entry) → is_legal_queue s h ≡ true → LegalQueue s h }
{}

/// A message that the answer reports is called again once it is visible, with its receive count, and not before. A message
/// in flight holds back the later one of its group. One that does not pass the filter, or was found deleted, is never
/// called. One with another id than the journal kept may not arrive.
pub fn histories()
    ensures queue_item_failures { QueueItemFailures }
    ensures hidden_call { HiddenCallIsNotLegal }
    ensures two_groups { TwoGroups }
    ensures filtered_message { FilteredMessage }
    ensures found_deleted { FoundDeleted }
    ensures changed_message { ChangedMessageIsNotLegal }
{}
