//! Laws that tie a shared history of a queue's book, which threads pass on, to the history of its entries. Each law is the
//! contract of a function that does nothing.
ghost use Rattle.std.specs.Prelude.{List, ◌∷◌};
ghost use Rattle.std.specs.List.{All};
ghost use Rattle.esm_model.specs.declared.item.Message.{Message};
ghost use Rattle.esm_model.specs.declared.setup.Setup.{Setup};
ghost use Rattle.esm_model.specs.declared.setup.Told.{Told};
ghost use Rattle.esm_model.specs.declared.entry.Entry.{Entry};
ghost use Rattle.esm_model.specs.Kept.{IsLegal};
ghost use Rattle.esm_model.specs.Books.{entries_told, NamesCame};
ghost use Rattle.esm_queue_model.specs.QueueSetting.{QueueSetting, ExtendsMessages, over_messages};
ghost use Rattle.esm_queue_model.specs.QueueStep.{LegalQueue};
ghost use Rattle.esm_queue_model.specs.QueueBooks.{messages_told, queue_setting_told, IsOfQueue, queue_may_follow};

/// A shared history that is legal by `queue_may_follow` has entries that are legal over every list of messages that extends
/// those told, and so over the messages of the whole input.
pub fn kept_queue_is_legal()
    ensures { (setup : Setup) (history : List Told) (messages : List Message) → IsLegal (queue_may_follow setup) history →
        ExtendsMessages (messages_told history) messages → LegalQueue (over_messages (queue_setting_told setup history) messages) (entries_told history) }
{}

/// The converse: where the entries are legal over one list of messages that extends those told, the shared history is legal,
/// provided that each `Came` holds the messages that it covers.
pub fn legal_queue_is_kept()
    ensures { (setup : Setup) (history : List Told) (messages : List Message) → All (IsOfQueue setup.config.kind) history →
        ExtendsMessages (messages_told history) messages → LegalQueue (over_messages (queue_setting_told setup history) messages) (entries_told history) →
        IsLegal (queue_may_follow setup) history }
{}

/// In a legal shared history each `Came` holds the messages that it covers, and no other entry holds any; no entry holds
/// records.
pub fn kept_is_of_queue()
    ensures { (setup : Setup) (history : List Told) → IsLegal (queue_may_follow setup) history → All (IsOfQueue setup.config.kind) history }
{}

/// Each place that an entry of a legal history names is that of a message that arrived before the entry.
pub fn named_messages_came()
    ensures { (s : QueueSetting) (h : List Entry) (e : Entry) → LegalQueue s (e ∷ h) → NamesCame h e }
{}
