// What an entry that is added does to the queue of a redrive.
ghost use Rattle.std.specs.Prelude.{◌≡◌, ◌+◌, ◌<◌, ◌≤◌, ◌^◌, ◌++◌, All, OnOk, length, if◌then◌else◌};
ghost use Rattle.esm_model.specs.declared.moment.TheConstants.{MAX_MOMENT};
ghost use Rattle.esm_queue_model.specs.Queue.{after_deletion};
ghost use Rattle.esm_queue_model.specs.QueueSetting.{QueueSetting};
ghost use Rattle.esm_queue_model.specs.QueueEntries.{coming_from};
ghost use Rattle.esm_queue_core.specs.Next.{deleted_number};
ghost use Rattle.esm_queue_core.specs.Kept.{one_coming};
ghost use Rattle.esm_redrive_core.specs.Ready.{IsReadyFor};

use esm_journal_state::Says;
use esm_model::{Message, OutOfMemory};
use esm_queue_core::owed::First;
use esm_redrive::LimitedQueue;
use std::alloc::Global;

/// Adds an arriving message, within reserved room. Returns whether it was found deleted; it is then deleted.
fn bring_one(
    queue: &mut LimitedQueue,
    alloc: Global,
    said: &Says,
    message: Message,
    moment: u64,
) -> bool
    requires room { 0 < queue.old.spare }
    requires few { length queue.old.state.messages + 1 < 2 ^ 32 }
    requires in_time { moment ≤ MAX_MOMENT }
    ensures state { (s : QueueSetting) → s.deletions ≡ said.now.deletions → queue.new.state
        ≡ record queue.old.state { messages = queue.old.state.messages ++ coming_from s moment (length queue.old.state.messages) (one_coming message) } }
    ensures number { length queue.new.state.messages ≡ length queue.old.state.messages + 1 }
    ensures spare { queue.old.spare ≤ queue.new.spare + 1 }
    ensures deleted { deleted_number queue.new.state ≡ deleted_number queue.old.state + (if result then 1 else 0) }
    ensures limit { queue.new.max_receives ≡ queue.old.max_receives }
{
    let Ok(place) = queue.came(alloc, message, moment) else {
        unreachable!()
    };
    let gone = said.deleted(place).is_some();
    if gone {
        let _ = queue.delete(place);
    }
    gone
}

/// Adds the arriving messages, within reserved room, and deletes those that were found deleted. Returns their number.
pub(crate) fn bring(
    queue: &mut LimitedQueue,
    alloc: Global,
    said: &Says,
    coming: Vec<Message>,
    moment: u64,
) -> u32
    requires room { length coming.items ≤ queue.old.spare }
    requires few { length queue.old.state.messages + length coming.items < 2 ^ 32 }
    requires in_time { moment ≤ MAX_MOMENT }
    ensures state { (s : QueueSetting) → s.deletions ≡ said.now.deletions → queue.new.state
        ≡ record queue.old.state { messages = queue.old.state.messages ++ coming_from s moment (length queue.old.state.messages) coming.items } }
    ensures deleted { deleted_number queue.new.state ≡ deleted_number queue.old.state + result }
    ensures limit { queue.new.max_receives ≡ queue.old.max_receives }
{
    let mut deleted = 0;
    for message in coming {
        if bring_one(queue, alloc, said, message, moment) {
            deleted += 1;
        }
    }
    deleted
}

/// Deletes the messages at the places, and returns how many were not deleted before. Takes no memory.
pub(crate) fn delete_all(queue: &mut LimitedQueue, places: &[u32]) -> u32
    requires within { All (λ i. i < length queue.old.state.messages) places.now }
    requires few { length queue.old.state.messages < 2 ^ 32 }
    ensures state { queue.new.state ≡ after_deletion places.now queue.old.state }
    ensures deleted { deleted_number queue.new.state ≡ deleted_number queue.old.state + result }
    ensures limit { queue.new.max_receives ≡ queue.old.max_receives }
{
    let mut deleted = 0;
    for place in places {
        if queue.delete(*place) {
            deleted += 1;
        }
    }
    deleted
}

/// Takes the memory for the receipt of the call that begins at the moment, if one begins. No message changes.
pub(crate) fn prepare_for(
    queue: &mut LimitedQueue,
    began: &Option<First>,
    now: u64,
) -> Result<(), OutOfMemory>
    ensures ready { OnOk result (IsReadyFor began.now queue.new now) }
    ensures state { queue.new.state ≡ queue.old.state }
    ensures limit { queue.new.max_receives ≡ queue.old.max_receives }
    ensures spare { queue.new.spare ≡ queue.old.spare }
{
    match began {
        None => Ok(()),
        Some(_) => queue.prepare(now),
    }
}
