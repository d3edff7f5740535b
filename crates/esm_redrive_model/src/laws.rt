//! Laws of every legal history of a redrive, each as the contract of a function that does nothing. A history has its newest
//! entry first.
ghost use Rattle.std.specs.Prelude.{◌≡◌, ℕ, ◌≤◌, List, [], ◌∷◌, Some};
ghost use Rattle.esm_model.specs.declared.item.Message.{Message};
ghost use Rattle.esm_model.specs.declared.entry.Entry.{Entry};
ghost use Rattle.esm_model.specs.Books.{entry_line};
ghost use Rattle.esm_queue_model.specs.declared.stored.TheConstants.{MAX_COUNT};
ghost use Rattle.esm_queue_model.specs.QueueSetting.{ExtendsMessages};
ghost use Rattle.esm_redrive_model.specs.RedriveSetting.{RedriveSetting, HaveSameIds, redrive_over};
ghost use Rattle.esm_redrive_model.specs.Due.{known};
ghost use Rattle.esm_redrive_model.specs.RedriveStep.{LegalRedrive};
ghost use Rattle.esm_redrive_model.specs.RedriveLines.{FoundMovesAreLined, MovedWhereLined, LinedAfterReceives, LeavesMovesLined, AddsOnce, IsLineOfDue};
ghost use Rattle.esm_redrive_model.specs.RedriveLaws.{FoundForThese, EachHasOneEnd, HaveDifferentIds, MovedOnce};
ghost use Rattle.esm_redrive_model.specs.RedriveLaws.{MovedAfterReceives, ReceivedAtMost, CallsAreFew, ReceivesAreCounted, IsSameOver};

/// Each message that arrived is exactly one of waiting, succeeded, filtered and moved, if the deletions found in the journal
/// have only these fates.
pub fn each_has_one_end()
    ensures { (s : RedriveSetting) (h : List Entry) → FoundForThese s → LegalRedrive s h → EachHasOneEnd s h }
{}

/// A history adds the lines of the messages that it moves. If the messages have different ids, an id is in at most one of
/// these lines. It is in none if it was in the dead-letter file before.
pub fn moved_once()
    ensures { (s : RedriveSetting) (h : List Entry) → LegalRedrive s h → MovedOnce s h }
{}

/// A message is moved only after it was received in this history as often as it may be.
pub fn moved_after_receives()
    ensures { (s : RedriveSetting) (h : List Entry) → LegalRedrive s h → MovedAfterReceives s h }
{}

/// A line is that of the first message that is due when the line is added.
pub fn line_of_due()
    ensures { (s : RedriveSetting) (h : List Entry) (e : Entry) (line : List ℕ) → LegalRedrive s (e ∷ h) → entry_line e ≡ Some line →
        IsLineOfDue s h e line }
{}

/// A message whose line is added was received in this history exactly as often as it may be.
pub fn lined_after_receives()
    ensures { (s : RedriveSetting) (h : List Entry) → LegalRedrive s h → LinedAfterReceives s h }
{}

/// A message that arrived is moved if and only if its line is in the dead-letter file and it was not found deleted with
/// another fate. This assumes that no waiting message has a line that was found, that the found file has a line for each
/// message that was found moved in the journal, and that the messages have different ids.
pub fn moved_where_lined()
    ensures { (s : RedriveSetting) (h : List Entry) → FoundMovesAreLined s → HaveDifferentIds s.queue.messages →
        LegalRedrive s h → known s h ≡ [] → MovedWhereLined s h }
{}

/// What a redrive adds to its journal and to its dead-letter file satisfies what the next redrive requires of them.
pub fn leaves_moves_lined()
    ensures { (s : RedriveSetting) (h : List Entry) → LegalRedrive s h → LeavesMovesLined s h }
{}

/// Over redrives one after the other, an id is in at most one of the lines that they added.
pub fn adds_once()
    ensures { (s : RedriveSetting) (h : List Entry) (earlier : List (List ℕ)) → HaveDifferentIds s.queue.messages →
        LegalRedrive s h → AddsOnce s h earlier }
{}

/// No message is received more often than it may be.
pub fn received_at_most()
    ensures { (s : RedriveSetting) (h : List Entry) → LegalRedrive s h → ReceivedAtMost s h }
{}

/// No more calls begin than the arrived messages may be received, all together. So if more calls are allowed, they are never
/// spent.
pub fn calls_are_few()
    ensures { (s : RedriveSetting) (h : List Entry) → LegalRedrive s h → CallsAreFew s h }
{}

/// The queue's receive count of each message is the number of its receives, if the limit of receives is within the queue's
/// counts.
pub fn receives_are_counted()
    ensures { (s : RedriveSetting) (h : List Entry) → s.max_receives ≤ MAX_COUNT → LegalRedrive s h → ReceivesAreCounted s h }
{}

/// A history that is legal over a list of messages is legal over each list that extends it.
pub fn redrive_over_more()
    ensures { (s : RedriveSetting) (h : List Entry) (after : List Message) → ExtendsMessages s.queue.messages after →
        LegalRedrive s h → LegalRedrive (redrive_over s after) h }
{}

/// Which messages are known, and which histories are legal, depends only on which ids are in the dead-letter file, and not
/// on how often or in which order.
pub fn same_over_same_ids()
    ensures { (s : RedriveSetting) (ids : List (List ℕ)) (h : List Entry) → HaveSameIds s.dead_ids ids → IsSameOver s ids h }
{}
