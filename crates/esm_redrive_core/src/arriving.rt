// What a list of messages that arrives at a redrive adds.
ghost use Rattle.std.specs.Prelude.{◌≡◌, ◌+◌, ◌<◌, ◌≤◌, ◌^◌, ◌++◌, [], All, IfOk, OnOk, None, length, reverse};
ghost use Rattle.esm_model.specs.declared.limits.TheConstants.{MAX_BATCH};
ghost use Rattle.esm_model.specs.declared.moment.TheConstants.{MAX_MOMENT};
ghost use Rattle.esm_model.specs.declared.entry.Fate.TheVariants.{Filtered, Exhausted};
ghost use Rattle.esm_model.specs.QueueEvent.{IsQueueConfig};
ghost use Rattle.esm_model.specs.ValidMessage.{IsValidMessage};
ghost use Rattle.esm_filter.specs.Criteria.{JudgesMessages};
ghost use Rattle.esm_book.specs.Decided.{written_of};
ghost use Rattle.esm_queue_core.specs.Coming.{gave_entries};
ghost use Rattle.esm_queue_core.specs.Kept.{messages_stored};
ghost use Rattle.esm_redrive.specs.ReadsBack.{IsUtf8Message};
ghost use Rattle.esm_redrive_model.specs.RedriveSetting.{RedriveSetting};
ghost use Rattle.esm_redrive_core.specs.Kept.{gift_line, gift_entries, IsGiftOf};
ghost use Rattle.esm_redrive_core.specs.Coming.{is_known_at, is_dropped_at, known_from, dropped_from};
ghost use Rattle.esm_redrive_core.specs.Judged.{IsJudgedBy};

use crate::giving::owe_first;
use crate::owed::Gift;
use esm_filter::{Criteria, Work};
use esm_journal_state::Says;
use esm_model::{Config, Fate, Message, OutOfMemory};
use esm_queue::Queue;
use esm_redrive::{DeadIds, has_texts};
use std::alloc::Global;

/// Whether the message that arrives at the place was not found deleted, and its line is in the dead-letter file.
fn is_known(said: &Says, dead: &DeadIds, item: &Message, place: u32) -> bool
    ensures { (s : RedriveSetting) → s.queue.deletions ≡ said.now.deletions → s.dead_ids ≡ dead.now → result ≡ is_known_at s place item.now }
{
    match said.deleted(place) {
        Some(_) => false,
        None => dead.contains(&item.id),
    }
}

/// Whether the message was not found deleted, has no line, and fails the filter.
fn is_dropped(
    alloc: Global,
    said: &Says,
    dead: &DeadIds,
    criteria: &Criteria,
    work: &mut Work,
    item: &Message,
    place: u32,
) -> Result<bool, OutOfMemory>
    ensures { IfOk result (λ b. (s : RedriveSetting) → IsJudgedBy s said.now dead.now criteria.now → b ≡ is_dropped_at s place item.now) }
{
    match said.deleted(place) {
        Some(_) => Ok(false),
        None if dead.contains(&item.id) => Ok(false),
        None => {
            let passes = criteria.passes_message(alloc, work, item)?;
            Ok(!passes)
        }
    }
}

/// States that the texts of the messages are UTF-8. Does nothing.
fn have_texts(items: &[Message])
    ensures { All IsUtf8Message items.now }
{
    for place in 0..items.len() {
        has_texts(&items[place]);
    }
}

/// The places of the messages whose line was found and that were not found deleted; the list begins at the place `from`.
pub(crate) fn known(
    alloc: Global,
    said: &Says,
    dead: &DeadIds,
    items: &[Message],
    from: u32,
) -> Result<Vec<u32>, OutOfMemory>
    requires { from + length items.now < 2 ^ 32 }
    ensures { IfOk result (λ places. (s : RedriveSetting) → s.queue.deletions ≡ said.now.deletions → s.dead_ids ≡ dead.now →
        places.items ≡ known_from s from items.now) }
{
    let mut places = Vec::new(alloc);
    for (i, item) in items.iter().enumerate() {
        let place = from + i as u32;
        if is_known(said, dead, item, place) {
            places.push(place)?;
        }
    }
    Ok(places)
}

/// The places of the other messages that fail the filter and were not found deleted.
pub(crate) fn dropped(
    alloc: Global,
    said: &Says,
    dead: &DeadIds,
    criteria: &Criteria,
    items: &[Message],
    from: u32,
) -> Result<Vec<u32>, OutOfMemory>
    requires { from + length items.now < 2 ^ 32 }
    ensures { IfOk result (λ places. (s : RedriveSetting) → IsJudgedBy s said.now dead.now criteria.now → places.items ≡ dropped_from s from items.now) }
{
    let mut places = Vec::new(alloc);
    let mut work = Work::new();
    for (i, item) in items.iter().enumerate() {
        let place = from + i as u32;
        if is_dropped(alloc, said, dead, criteria, &mut work, item, place)? {
            places.push(place)?;
        }
    }
    Ok(places)
}

/// The deletions that arriving messages require; the list begins at the place `from`. Messages whose line was found are
/// recorded as moved, and those of the others that fail the filter and were not found deleted are deleted. The last
/// deletion is paid first.
pub(crate) fn gifts_for(
    alloc: Global,
    config: &Config,
    said: &Says,
    dead: &DeadIds,
    criteria: &Criteria,
    queue: &Queue,
    items: &[Message],
    from: u32,
    moment: u64,
) -> Result<Vec<Gift>, OutOfMemory>
    requires config { IsQueueConfig config.now }
    requires criteria { JudgesMessages config.now.kind config.now.filters criteria.now }
    requires at { from ≡ length queue.now.state.messages }
    requires valid { All (IsValidMessage config.now.kind) (messages_stored queue.now.state ++ items.now) }
    requires few { length items.now ≤ MAX_BATCH }
    requires places { length (messages_stored queue.now.state ++ items.now) < 2 ^ 32 }
    requires in_time { moment ≤ MAX_MOMENT }
    ensures entries { IfOk result (λ gifts. (s : RedriveSetting) → IsJudgedBy s said.now dead.now criteria.now →
        gift_entries (reverse gifts.items)
        ≡ gave_entries None (known_from s from items.now) Exhausted moment ++ gave_entries None (dropped_from s from items.now) Filtered moment) }
    ensures texts { OnOk result (All IsUtf8Message items.now) }
    ensures written { IfOk result (λ gifts. All (IsGiftOf (messages_stored queue.now.state ++ items.now)) (reverse gifts.items)) }
    ensures no_lines { IfOk result (λ gifts. written_of gift_line (reverse gifts.items) ≡ []) }
    ensures short { IfOk result (λ gifts. length gifts.items ≤ 2) }
{
    have_texts(items);
    let mut gifts = Vec::new(alloc);
    let refused = dropped(alloc, said, dead, criteria, items, from)?;
    owe_first(
        alloc,
        &mut gifts,
        queue,
        items,
        None,
        refused,
        Fate::Filtered,
        moment,
    )?;
    let found = known(alloc, said, dead, items, from)?;
    owe_first(
        alloc,
        &mut gifts,
        queue,
        items,
        None,
        found,
        Fate::Exhausted,
        moment,
    )?;
    Ok(gifts)
}
