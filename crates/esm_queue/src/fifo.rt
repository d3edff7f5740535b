// When a message of a queue shows, and the first messages that may be received, each group in its order.
ghost use Rattle.std.specs.Prelude.{◌≡◌, ℕ, ◌≤◌, ◌<◌, ◌&&◌, ◌||◌, ◌==◌, not, length, IfOk, OnOk, Option, Some, None};
ghost use Rattle.std.specs.Ordering.{nat_cmp};
ghost use Rattle.std.specs.BTreeSet.{contains};
ghost use Rattle.esm_model.specs.declared.moment.TheConstants.{MAX_MOMENT};
ghost use Rattle.esm_queue_model.specs.Queue as spec;
ghost use Rattle.esm_queue.specs.Moments.{leaf, leaves};
ghost use Rattle.esm_queue.specs.Groups.{IsGrouped, IsHeadedBy};
ghost use Rattle.esm_queue.specs.Waiting.{IsLeast, is_place, next_shown};

use crate::groups::Groups;
use crate::links::Link;
use crate::marking::moment_after;
use crate::moment_tree::NEVER;
use esm_model::OutOfMemory;
use esm_queue_model::Stored;
use std::alloc::Global;
use std::collections::BTreeSet;

/// The moment at which the message shows.
fn shows_at(stored: &Stored, visibility_ms: u64) -> u64
    ensures { result ≡ spec.show_after visibility_ms stored.now.last }
{
    match stored.last {
        None => 0,
        Some(receipt) => moment_after(receipt, visibility_ms),
    }
}

/// The moment at which the message shows, `NEVER` if it is deleted.
pub fn moment_of(stored: &Stored, visibility_ms: u64) -> u64
    ensures { result ≡ leaf visibility_ms stored.now }
{
    if stored.deleted {
        NEVER
    } else {
        shows_at(stored, visibility_ms)
    }
}

/// The lesser of the next head and the first place that waits.
fn least(head: Option<u32>, waiting: &BTreeSet<u32>) -> Option<u32>
    ensures { IsLeast head (contains nat_cmp waiting.now) result }
{
    match (head, waiting.first()) {
        (None, None) => None,
        (None, Some(first)) => Some(*first),
        (Some(head), None) => Some(head),
        (Some(head), Some(first)) => Some(head.min(*first)),
    }
}

/// The next message of the link's group, if it shows at the moment.
fn next_shown(messages: &[Stored], link: &Link, visibility_ms: u64, now: u64) -> Option<u32>
    ensures { result ≡ next_shown now (leaves visibility_ms messages.now) link.now.next }
{
    if (link.next as usize) < messages.len()
        && moment_of(&messages[link.next as usize], visibility_ms) <= now
    {
        return Some(link.next);
    }
    None
}

/// Removes the place, which is given, from those that wait; the next one of its group, if there is one, waits now.
fn pass(waiting: &mut BTreeSet<u32>, place: u32, next: Option<u32>) -> Result<(), OutOfMemory>
    ensures { OnOk result ((k : ℕ) → contains nat_cmp waiting.new k ≡ (is_place next k || (contains nat_cmp waiting.old k && not (k == place)))) }
{
    let _ = waiting.remove(&place);
    if let Some(next) = next {
        waiting.insert(next)?;
    }
    Ok(())
}

/// The first places, at most `max`, of the messages that may be received at the moment. Each but the first of its group
/// waits until the one before it is given, so that no other message is looked at.
pub fn first_places(
    alloc: Global,
    messages: &[Stored],
    groups: &Groups,
    visibility_ms: u64,
    now: u64,
    max: u32,
) -> Result<Vec<u32>, OutOfMemory>
    requires grouped { IsGrouped messages.now groups.now }
    requires headed { IsHeadedBy (leaves visibility_ms messages.now) groups.now }
    requires few { length messages.now ≤ u32.MAX }
    requires early { now ≤ MAX_MOMENT }
    ensures { IfOk result (λ places. places.items
        ≡ spec.receivable (record { fifo = groups.now.fifo; visibility = visibility_ms; messages = messages.now }) now max) }
{
    let mut places = Vec::new(alloc);
    let mut waiting = BTreeSet::new(alloc);
    let mut from = 0;
    while places.len() < max as usize {
        match least(groups.heads.first_from(from, now), &waiting) {
            None => return Ok(places),
            Some(place) => {
                let link = groups.links[place as usize];
                let next = next_shown(messages, &link, visibility_ms, now);
                pass(&mut waiting, place, next)?;
                places.push(place)?;
                from = place + 1;
            }
        }
    }
    Ok(places)
}
