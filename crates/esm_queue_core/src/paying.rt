// Applies an entry that is added to the queue.
ghost use Rattle.std.specs.Prelude.{◌≡◌, ◌+◌, ◌<◌, ◌≤◌, ◌^◌, ◌++◌, All, length, if◌then◌else◌};
ghost use Rattle.esm_model.specs.declared.moment.TheConstants.{MAX_MOMENT};
ghost use Rattle.esm_queue_model.specs.Queue.{after_deletion};
ghost use Rattle.esm_queue_model.specs.QueueSetting.{QueueSetting};
ghost use Rattle.esm_queue_model.specs.QueueEntries.{coming_from};
ghost use Rattle.esm_queue_core.specs.Next.{deleted_number};
ghost use Rattle.esm_queue_core.specs.Kept.{one_coming};

use esm_journal_state::Says;
use esm_model::Message;
use esm_queue::Queue;
use std::alloc::Global;

/// Adds a message that comes, in room that is there, and deletes it if it was found deleted. Returns whether it was.
fn bring_one(queue: &mut Queue, alloc: Global, said: &Says, message: Message, moment: u64) -> bool
    requires room { 0 < queue.old.spare }
    requires few { length queue.old.state.messages + 1 < 2 ^ 32 }
    requires in_time { moment ≤ MAX_MOMENT }
    ensures state { (s : QueueSetting) → s.deletions ≡ said.now.deletions →
        queue.new.state ≡ record queue.old.state {
          messages = queue.old.state.messages
              ++ coming_from s moment (length queue.old.state.messages) (one_coming message);
        } }
    ensures number { length queue.new.state.messages ≡ length queue.old.state.messages + 1 }
    ensures spare { queue.old.spare ≤ queue.new.spare + 1 }
    ensures deleted { deleted_number queue.new.state ≡ deleted_number queue.old.state + (if result then 1 else 0) }
{
    let Ok(place) = queue.came(alloc, message, moment) else {
        unreachable!()
    };
    let gone = said.deleted(place).is_some();
    if gone {
        let _ = queue.delete(place);
    }
    gone
}

/// Adds the messages that come, in room that is there, and deletes those that were found deleted. Returns how many were.
pub(crate) fn bring(
    queue: &mut Queue,
    alloc: Global,
    said: &Says,
    coming: Vec<Message>,
    moment: u64,
) -> u32
    requires room { length coming.items ≤ queue.old.spare }
    requires few { length queue.old.state.messages + length coming.items < 2 ^ 32 }
    requires in_time { moment ≤ MAX_MOMENT }
    ensures state { (s : QueueSetting) → s.deletions ≡ said.now.deletions →
        queue.new.state ≡ record queue.old.state {
          messages = queue.old.state.messages
              ++ coming_from s moment (length queue.old.state.messages) coming.items;
        } }
    ensures deleted { deleted_number queue.new.state ≡ deleted_number queue.old.state + result }
{
    let mut deleted = 0;
    for message in coming {
        if bring_one(queue, alloc, said, message, moment) {
            deleted += 1;
        }
    }
    deleted
}

/// Deletes the messages at the places; returns how many were not deleted before. Takes no memory.
pub(crate) fn delete_all(queue: &mut Queue, places: &[u32]) -> u32
    requires within { All (λ i. i < length queue.old.state.messages) places.now }
    requires few { length queue.old.state.messages < 2 ^ 32 }
    ensures state { queue.new.state ≡ after_deletion places.now queue.old.state }
    ensures deleted { deleted_number queue.new.state ≡ deleted_number queue.old.state + result }
{
    let mut deleted = 0;
    for place in places {
        if queue.delete(*place) {
            deleted += 1;
        }
    }
    deleted
}
