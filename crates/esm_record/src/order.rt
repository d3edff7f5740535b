// Judging a parsed line by the items before it: its record has to be the next of its shard, and its message a new one of the
// queue.
ghost use Rattle.std.specs.Prelude.{◌≡◌, ℕ, List, ◌++◌, option_to_list, Ok, IfOk, IfErr, OnOk};
ghost use Rattle.esm_record.specs.Gives.{Gives, Fails};
ghost use Rattle.esm_record.specs.Input.{number_after, in_order};
ghost use Rattle.esm_record.specs.Numbers.{number_in};
ghost use Rattle.esm_record.specs.Parsing.{judge_item, judge};
ghost use Rattle.esm_record.specs.Seen.{Follows};

use crate::error::{LineError, Refusal};
use crate::numbers::Numbers;
use crate::parse::Parsed;
use crate::seen::{Seen, as_new};
use esm_model::{Item, Message, OutOfMemory, Record, Text, number_order};
use std::alloc::Global;
use std::cmp::Ordering;

fn text_of(alloc: Global, number: &str) -> Result<Text, OutOfMemory>
    ensures { IfOk result (λ t. t ≡ number.now) }
{
    Ok(Text::from_vec(String::from_str(alloc, number)?))
}

fn backwards(alloc: Global, kept: &str, given: &str) -> Result<LineError, OutOfMemory>
    ensures { IfOk result (λ e. e ≡ LineError.Backwards kept.now given.now) }
{
    let kept = text_of(alloc, kept)?;
    let given = text_of(alloc, given)?;
    Ok(LineError::Backwards { kept, given })
}

/// Checks that the record's sequence number is greater than the shard's last one.
fn check_order(alloc: Global, last: &Numbers, given: &Record) -> Result<(), Refusal>
    ensures ok { OnOk result (in_order (number_in last.now given.now.shard) given.now ≡ Ok given.now) }
    ensures bad { IfErr result (λ e. Fails e (in_order (number_in last.now given.now.shard) given.now)) }
{
    match last.last(given.shard()) {
        None => Ok(()),
        Some(kept) => match number_order(kept.as_bytes(), given.seq()) {
            Ordering::Less => Ok(()),
            _ => Err(Refusal::Line(backwards(alloc, kept, given.seq_text())?)),
        },
    }
}

/// The record as the next of its shard.
fn next_record(alloc: Global, last: &mut Numbers, given: Record) -> Result<Record, Refusal>
    ensures item { Gives result (in_order (number_in last.old given.shard) given) }
    ensures kept { IfOk result (λ r. (shard : ℕ) → number_in last.new shard
        ≡ number_after shard (number_in last.old shard) (Item.Stream r)) }
{
    check_order(alloc, last, &given)?;
    last.keep(alloc, given.shard(), given.seq_text())?;
    Ok(given)
}

fn judge_record(alloc: Global, seen: &mut Seen, given: Record) -> Result<Option<Item>, Refusal>
    ensures item { (items : List Item) → Follows items seen.old
        → Gives result (judge_item items (Item.Stream given)) }
    ensures kept { IfOk result (λ o. (items : List Item) → Follows items seen.old
        → Follows (items ++ option_to_list o) seen.new) }
{
    match next_record(alloc, &mut seen.numbers, given) {
        Ok(record) => Ok(Some(Item::Stream(record))),
        Err(refusal) => Err(refusal),
    }
}

fn judge_message(alloc: Global, seen: &mut Seen, given: Message) -> Result<Option<Item>, Refusal>
    ensures item { (items : List Item) → Follows items seen.old
        → Gives result (judge_item items (Item.Queue given)) }
    ensures kept { IfOk result (λ o. (items : List Item) → Follows items seen.old
        → Follows (items ++ option_to_list o) seen.new) }
{
    match as_new(alloc, &mut seen.ids, given) {
        Ok(message) => Ok(Some(Item::Queue(message))),
        Err(refusal) => Err(refusal),
    }
}

/// Judges what a line is by the items before it: its item, or nothing if it is blank.
pub fn judge(alloc: Global, seen: &mut Seen, parsed: Parsed) -> Result<Option<Item>, Refusal>
    ensures item { (items : List Item) → Follows items seen.old → Gives result (judge items parsed) }
    ensures kept { IfOk result (λ o. (items : List Item) → Follows items seen.old
        → Follows (items ++ option_to_list o) seen.new) }
{
    match parsed {
        Ok(Some(Item::Stream(record))) => judge_record(alloc, seen, record),
        Ok(Some(Item::Queue(message))) => judge_message(alloc, seen, message),
        Ok(None) => Ok(None),
        Err(why) => Err(Refusal::Line(why)),
    }
}
