// Making the deletions that calls of a redrive owe.
ghost use Rattle.std.specs.Prelude.{Bool, ◌≡◌, ◌+◌, ◌≤◌, ◌<◌, ◌++◌, ◌∷◌, [], All, IfOk, OnOk, Some, None, length, option_map, slice_get, reverse};
ghost use Rattle.esm_model.specs.declared.entry.Entry.TheVariants.{Gave};
ghost use Rattle.esm_model.specs.declared.entry.Fate.TheVariants.{Exhausted};
ghost use Rattle.esm_model.specs.declared.limits.TheConstants.{MAX_LINE};
ghost use Rattle.esm_model.specs.Items.{queue_kind};
ghost use Rattle.esm_model.specs.ValidMessage.{IsValidMessage};
ghost use Rattle.esm_book.specs.Decided.{written_of, IsLineWithin};
ghost use Rattle.esm_queue_model.specs.QueueEntries.{queue_lane};
ghost use Rattle.esm_queue_core.specs.Coming.{gave_entries};
ghost use Rattle.esm_queue_core.specs.Kept.{messages_stored, MayBeGiven};
ghost use Rattle.esm_redrive_model.specs.DeadLetter.{dead_letter};
ghost use Rattle.esm_redrive_core.specs.Kept.{gift_line, gift_entry, gift_entries, IsGiftOf};

use crate::owed::Gift;
use esm_journal_record::{Said, said_bytes};
use esm_model::{Fate, LaneId, Message, OutOfMemory, Places, Text};
use esm_queue::Queue;
use esm_queue_core::gift::texts_at;
use esm_redrive::dead_line;
use std::alloc::Global;

/// The deletion of one place or more, with this line.
fn gift_of(
    alloc: Global,
    queue: &Queue,
    coming: &[Message],
    by: Option<LaneId>,
    places: Vec<u32>,
    fate: Fate,
    line: Option<Text>,
    moment: u64,
) -> Result<Gift, OutOfMemory>
    requires some { 1 ≤ length places.items }
    requires may { MayBeGiven (messages_stored queue.now.state ++ coming.now) places.items fate moment }
    ensures entry { IfOk result (λ gift. gift_entry gift ≡ Gave by 0 places.items fate line None moment) }
    ensures written { IfOk result (IsGiftOf (messages_stored queue.now.state ++ coming.now)) }
    ensures line { IfOk result (λ gift. gift_line gift ≡ line) }
{
    let ids = texts_at(alloc, queue, coming, places.as_slice())?;
    let copy = Vec::from_slice(alloc, places.as_slice())?;
    let said = Said::Deleted {
        fate,
        moment,
        places: Places::from_vec(copy),
        texts: ids,
    };
    let payload = said_bytes(alloc, &said)?;
    Ok(Gift {
        by,
        places: Places::from_vec(places),
        fate,
        line,
        moment,
        payload,
    })
}

/// Puts the deletion of the places, if there are any, ahead of those that are owed; the last one is paid first. After an
/// `Err` they are as before.
pub(crate) fn owe_first(
    alloc: Global,
    gifts: &mut Vec<Gift>,
    queue: &Queue,
    coming: &[Message],
    by: Option<LaneId>,
    places: Vec<u32>,
    fate: Fate,
    moment: u64,
) -> Result<(), OutOfMemory>
    requires may { MayBeGiven (messages_stored queue.now.state ++ coming.now) places.items fate moment }
    requires all { All (IsGiftOf (messages_stored queue.now.state ++ coming.now)) (reverse gifts.old.items) }
    ensures entries { OnOk result (gift_entries (reverse gifts.new.items)
        ≡ gave_entries by places.items fate moment ++ gift_entries (reverse gifts.old.items)) }
    ensures all { OnOk result (All (IsGiftOf (messages_stored queue.now.state ++ coming.now)) (reverse gifts.new.items)) }
    ensures lines { OnOk result (written_of gift_line (reverse gifts.new.items) ≡ written_of gift_line (reverse gifts.old.items)) }
    ensures few { OnOk result (length gifts.new.items ≤ length gifts.old.items + 1) }
{
    if places.is_empty() {
        return Ok(());
    }
    let gift = gift_of(alloc, queue, coming, by, places, fate, None, moment)?;
    gifts.push(gift)?;
    Ok(())
}

/// The line of a dead letter, as text.
fn letter_of(alloc: Global, message: &Message) -> Result<Text, OutOfMemory>
    requires { (fifo : Bool) × IsValidMessage (queue_kind fifo) message.now }
    ensures text { IfOk result (λ line. line ≡ dead_letter message.now) }
    ensures short { IfOk result (λ line. length line ≤ MAX_LINE) }
{
    let bytes = dead_line(alloc, message)?;
    match String::from_utf8(bytes) {
        Ok(line) => Ok(Text::from_vec(line)),
        Err(_) => unreachable!(),
    }
}

/// The deletion that moves the message at the place, with its line.
pub(crate) fn move_of(
    alloc: Global,
    queue: &Queue,
    place: u32,
    moment: u64,
) -> Result<Gift, OutOfMemory>
    requires within { place < length queue.now.state.messages }
    requires valid { (fifo : Bool) × All (IsValidMessage (queue_kind fifo)) (messages_stored queue.now.state) }
    requires may { MayBeGiven (messages_stored queue.now.state ++ []) (place ∷ []) Exhausted moment }
    ensures entry { IfOk result (λ gift. gift_entry gift
        ≡ Gave (Some (queue_lane 0)) 0 (place ∷ []) Exhausted (option_map dead_letter (slice_get (messages_stored queue.now.state) place)) None moment) }
    ensures written { IfOk result (IsGiftOf (messages_stored queue.now.state ++ [])) }
    ensures line { IfOk result (λ gift. IsLineWithin (written_of gift_line (gift ∷ [])) MAX_LINE) }
{
    let Some(message) = queue.message(place) else {
        unreachable!()
    };
    let line = letter_of(alloc, message)?;
    let by = Some(LaneId { shard: 0, lane: 0 });
    let places = Vec::from_slice(alloc, &[place])?;
    let fate = Fate::Exhausted;
    let gift = gift_of(alloc, queue, &[], by, places, fate, Some(line), moment)?;
    Ok(gift)
}
