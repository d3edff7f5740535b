// Makes a deletion that is owed, with its payload.
ghost use Rattle.std.specs.Prelude.{◌≡◌, ◌+◌, ◌<◌, ◌++◌, Some, All, IfOk, length, slice_get};
ghost use Rattle.esm_journal_record.specs.EntryPayload.{ids_at};
ghost use Rattle.esm_queue_core.specs.Kept.{messages_stored, IsGift, MayBeGiven, gift_entries};
ghost use Rattle.esm_queue_core.specs.Coming.{gave_entries};

use crate::owed::Gift;
use esm_journal_record::{GatheredTexts, KeptTexts, Said, said_bytes};
use esm_model::{Fate, LaneId, Message, OutOfMemory, Places, Text};
use esm_queue::Queue;
use std::alloc::Global;

/// The message at the place, among those of the queue and then those that are coming.
fn message_for<'a>(queue: &'a Queue, coming: &'a [Message], place: u32) -> &'a Message
    requires { place < length queue.now.state.messages + length coming.now }
    ensures { Some result.now ≡ slice_get (messages_stored queue.entry.now.state ++ coming.entry.now) place }
{
    match queue.message(place) {
        Some(message) => message,
        None => &coming[(place - queue.len()) as usize],
    }
}

/// Copies of the ids of the messages at the places, in order.
pub fn ids_at(
    alloc: Global,
    queue: &Queue,
    coming: &[Message],
    places: &[u32],
) -> Result<Vec<Text>, OutOfMemory>
    requires { All (λ i. i < length queue.now.state.messages + length coming.now) places.now }
    ensures { IfOk result (λ ids. ids.items ≡ ids_at (messages_stored queue.now.state ++ coming.now) places.now) }
{
    let mut ids = Vec::with_capacity(alloc, places.len())?;
    for place in places {
        let id = message_for(queue, coming, *place).id.copy(alloc)?;
        ids.push(id)?;
    }
    Ok(ids)
}

/// Room for an id, in bytes.
const ID_ROOM: usize = 40;

/// The ids of the messages at the places, in order, as parts of one text.
pub fn texts_at(
    alloc: Global,
    queue: &Queue,
    coming: &[Message],
    places: &[u32],
) -> Result<KeptTexts, OutOfMemory>
    requires { All (λ i. i < length queue.now.state.messages + length coming.now) places.now }
    ensures { IfOk result (λ ids. ids ≡ ids_at (messages_stored queue.now.state ++ coming.now) places.now) }
{
    let room = places.len().saturating_mul(ID_ROOM);
    let mut ids = GatheredTexts::new(alloc, places.len(), room)?;
    for place in places {
        let id = message_for(queue, coming, *place).id.as_str();
        ids = ids.with(id.as_bytes())?;
    }
    ids.into_texts(alloc)
}

/// The deletion of the places; `None` if there are none.
pub(crate) fn gift_of(
    alloc: Global,
    queue: &Queue,
    coming: &[Message],
    by: Option<LaneId>,
    places: Vec<u32>,
    fate: Fate,
    moment: u64,
) -> Result<Option<Gift>, OutOfMemory>
    requires { MayBeGiven (messages_stored queue.now.state ++ coming.now) places.items fate moment }
    ensures entry { IfOk result (λ gift. gift_entries gift ≡ gave_entries by places.items fate moment) }
    ensures written { IfOk result (IsGift (messages_stored queue.now.state ++ coming.now)) }
{
    if places.is_empty() {
        return Ok(None);
    }
    let ids = texts_at(alloc, queue, coming, places.as_slice())?;
    let copy = Vec::from_slice(alloc, places.as_slice())?;
    let said = Said::Deleted {
        fate,
        moment,
        places: Places::from_vec(copy),
        texts: ids,
    };
    let payload = said_bytes(alloc, &said)?;
    Ok(Some(Gift {
        by,
        places: Places::from_vec(places),
        fate,
        moment,
        payload,
    }))
}
