// Puts the replies that the callers of a run kept into the order of its history.
ghost use Rattle.std.specs.Prelude.{◌≡◌, ℕ, ◌<◌, ◌∷◌, ◌++◌, [], length, map, reverse, slice_index_or, IfOk, IfSome, OnOk};
ghost use Rattle.std.specs.Option.{option_to_list};
ghost use Rattle.esm_trace.specs.InOrder.{AreOfBatchers};
ghost use Rattle.esm_trace.specs.Onward.{HasReply, IsMoved};
ghost use Rattle.esm_trace.specs.Trace.{replies_of, reply_in};

use crate::batchers::{Batchers, note_shard};
use esm_model::{Entry, OutOfMemory, Reply};
use std::alloc::Global;

/// Returns the replies of the history's `Ended` entries, in their order, from those that each batcher's caller kept, in the
/// order of its calls. Linear in the entries; a shard is searched for among those that arrived, of which a run has few.
/// `OutOfMemory` if an allocation failed, or if an entry is of a batcher that has no list here, which no run has.
pub fn in_order(
    alloc: Global,
    batchers: Batchers,
    history: &[Entry],
    kept: Vec<Vec<Reply>>,
) -> Result<Vec<Reply>, OutOfMemory>
    requires kept { AreOfBatchers batchers (reverse history.now) (map (λ replies. replies.items) kept.items) }
    ensures { IfOk result (λ replies. replies.items ≡ replies_of (reverse history.now)) }
{
    let mut left = newest_first(alloc, kept)?;
    let mut shards = Vec::new(alloc);
    let mut replies = Vec::new(alloc);
    for entry in history {
        move_reply(batchers, &shards, &mut left, &mut replies, entry)?;
        note_shard(&mut shards, entry)?;
    }
    Ok(replies)
}

/// Turns each list, so that its last reply is first.
fn newest_first(alloc: Global, kept: Vec<Vec<Reply>>) -> Result<Vec<Vec<Reply>>, OutOfMemory>
    ensures { IfOk result (λ lists. map (λ replies. replies.items) lists.items ≡ map (λ replies. reverse replies.items) kept.items) }
{
    let mut lists = kept;
    let mut turned = Vec::with_capacity(alloc, lists.len())?;
    while let Some(mut list) = lists.pop() {
        list.reverse();
        turned.push_reserved(list);
    }
    turned.reverse();
    Ok(turned)
}

/// Moves the entry's reply, if it has one, from the list of its batcher to the end of `replies`.
fn move_reply(
    batchers: Batchers,
    shards: &[u64],
    left: &mut Vec<Vec<Reply>>,
    replies: &mut Vec<Reply>,
    entry: &Entry,
) -> Result<(), OutOfMemory>
    requires next { HasReply batchers shards.now (map (λ list. list.items) left.old.items) entry.now }
    ensures told { OnOk result (replies.new.items ≡ replies.old.items ++ option_to_list (reply_in entry.now)) }
    ensures moved { OnOk result (IsMoved batchers shards.now entry.now (map (λ list. list.items) left.old.items) (map (λ list. list.items) left.new.items)) }
{
    if let Entry::Ended { lane, .. } = entry {
        let Some(k) = batchers.number(shards, *lane) else {
            return Err(OutOfMemory);
        };
        let Some(reply) = take_last(left, k) else {
            return Err(OutOfMemory);
        };
        replies.push(reply)?;
    }
    Ok(())
}

/// Takes the last reply of list `k`, if there is one.
fn take_last(lists: &mut Vec<Vec<Reply>>, k: usize) -> Option<Reply>
    ensures there { IfSome result (λ _. k < length lists.old.items) }
    ensures taken { IfSome result (λ reply. slice_index_or (map (λ list. list.items) lists.old.items) k []
        ≡ slice_index_or (map (λ list. list.items) lists.new.items) k [] ++ reply ∷ []) }
    ensures others { (j : ℕ) → (j ≡ k → ⊥) → slice_index_or (map (λ list. list.items) lists.new.items) j []
        ≡ slice_index_or (map (λ list. list.items) lists.old.items) j [] }
    ensures as_many { length lists.new.items ≡ length lists.old.items }
{
    if k < lists.len() {
        lists[k].pop()
    } else {
        None
    }
}
