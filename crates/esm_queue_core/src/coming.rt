// Judges a list of messages that comes: which the filter refuses, and which differs from a found deletion.
ghost use Rattle.std.specs.Prelude.{◌≡◌, ◌+◌, ◌<◌, ◌^◌, true, false, IfOk, IfSome, IfNone, length};
ghost use Rattle.esm_queue_model.specs.QueueSetting.{QueueSetting};
ghost use Rattle.esm_queue_core.specs.Coming.{is_refused_at, refused_from, has_changed, HasChangedFirst, NoneHasChanged, IsChangeOf};
ghost use Rattle.esm_queue_core.specs.Judged.{IsJudgedBy};

use esm_filter::{Criteria, Work};
use esm_journal_state::Says;
use esm_model::{Change, Message, OutOfMemory};
use std::alloc::Global;

/// Whether the message that comes at the place fails the filter and was not found deleted.
fn is_refused(
    alloc: Global,
    said: &Says,
    criteria: &Criteria,
    work: &mut Work,
    item: &Message,
    place: u32,
) -> Result<bool, OutOfMemory>
    ensures { IfOk result (λ b. (s : QueueSetting) → IsJudgedBy s said.now criteria.now → b ≡ is_refused_at s place item.now) }
{
    match said.deleted(place) {
        Some(_) => Ok(false),
        None => {
            let passes = criteria.passes_message(alloc, work, item)?;
            Ok(!passes)
        }
    }
}

/// The places of the messages, from the place `from` on, that fail the filter and have no found deletion.
pub(crate) fn refused(
    alloc: Global,
    said: &Says,
    criteria: &Criteria,
    items: &[Message],
    from: u32,
) -> Result<Vec<u32>, OutOfMemory>
    requires { from + length items.now < 2 ^ 32 }
    ensures { IfOk result (λ places. (s : QueueSetting) → IsJudgedBy s said.now criteria.now → places.items ≡ refused_from s from items.now) }
{
    let mut places = Vec::new(alloc);
    let mut work = Work::new();
    for (i, item) in items.iter().enumerate() {
        let place = from + i as u32;
        if is_refused(alloc, said, criteria, &mut work, item, place)? {
            places.push(place)?;
        }
    }
    Ok(places)
}

/// Whether the message was found deleted at the place with another id.
fn differs(said: &Says, item: &Message, place: u32) -> bool
    ensures { result ≡ has_changed said.now.deletions place item.now }
{
    match said.deleted(place) {
        None => false,
        Some(found) => found.text.as_slice() != item.id.as_slice(),
    }
}

/// The position of the first message of the list that was found deleted with another id; the list begins at the place
/// `from`. `None` if there is none. Takes no memory.
pub fn first_changed(said: &Says, items: &[Message], from: u32) -> Option<usize>
    requires { from + length items.now < 2 ^ 32 }
    ensures some { IfSome result (λ j. j < length items.now) }
    ensures found { IfSome result (λ j. HasChangedFirst said.now.deletions from items.now j) }
    ensures none { IfNone result (NoneHasChanged said.now.deletions from items.now (length items.now)) }
{
    for (j, item) in items.iter().enumerate() {
        if differs(said, item, from + j as u32) {
            return Some(j);
        }
    }
    None
}

/// The change at the place: the id that was kept, and the one that came.
pub fn change_at(
    alloc: Global,
    said: &Says,
    item: &Message,
    place: u32,
) -> Result<Change, OutOfMemory>
    requires { has_changed said.now.deletions place item.now ≡ true }
    ensures { IfOk result (IsChangeOf said.now.deletions place item.now) }
{
    match said.deleted(place) {
        None => unreachable!(),
        Some(found) => Ok(Change {
            shard: 0,
            place,
            kept: found.text.copy(alloc)?,
            given: item.id.copy(alloc)?,
        }),
    }
}
