// What one legal history of a queue says of its calls and of its deletions. A history is written newest entry first.
ghost use Rattle.std.specs.Prelude.{List};
ghost use Rattle.esm_model.specs.declared.entry.Entry.{Entry};
ghost use Rattle.esm_queue_model.specs.QueueSetting.{QueueSetting};
ghost use Rattle.esm_queue_model.specs.QueueStep.{LegalQueue};
ghost use Rattle.esm_redrive_model.specs.RedriveSetting.{RedriveSetting};
ghost use Rattle.esm_redrive_model.specs.RedriveStep.{LegalRedrive};
ghost use Rattle.esm_queue_life.specs.History.{NoDeletedCalled, EachGiftIsEarned};

/// No call of a run holds a message that is deleted.
pub fn no_deleted_is_called()
    ensures { (s : QueueSetting) (h : List Entry) → LegalQueue s h → NoDeletedCalled s h }
{}

/// Nor does a call of a redrive.
pub fn no_deleted_is_redriven()
    ensures { (s : RedriveSetting) (h : List Entry) → LegalRedrive s h → NoDeletedCalled s.queue h }
{}

/// Each deletion of a run is earned by the rule of its fate.
pub fn each_gift_is_earned()
    ensures { (s : QueueSetting) (h : List Entry) → LegalQueue s h → EachGiftIsEarned s h }
{}
