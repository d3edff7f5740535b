// Comparing arriving records with what the journal kept of them: whether they differ, and whether they are named.
ghost use Rattle.std.specs.Prelude.{◌≡◌, ℕ, ◌+◌, ◌<◌, ◌^◌, List, None, Some, IfOk, IfErr, OnOk, length, option_copied, option_map};
ghost use Rattle.std.specs.Option.{option_or};
ghost use Rattle.std.specs.Ordering.{nat_cmp};
ghost use Rattle.std.specs.Map.{count_at};
ghost use Rattle.std.specs.BTreeMap.{get};
ghost use Rattle.std.specs.Str.{bytes_eq};
ghost use Rattle.esm_model.specs.Records.{Record};
ghost use Rattle.esm_model.specs.declared.setup.FoundTries.{FoundTries};
ghost use Rattle.esm_journal_state.specs.SaidLists.{tries_told};
ghost use Rattle.esm_book.specs.Decided.{IsRefused};
ghost use Rattle.esm_replay.specs.Records.{names, are_named};
ghost use Rattle.esm_replay.specs.Coming.{other_text, kept_otherwise, change_of, first_change};
ghost use Rattle.esm_replay_core.specs.Counts.{AreCounted};

use crate::tally::{count_next, new_tally, take_in_hand};
use esm_book::Refusal;
use esm_journal_state::{KeptText, Says};
use esm_model::{Change, OutOfMemory, Record, Text};
use esm_replay::{Ranges, names_near};
use std::alloc::Global;
use std::collections::BTreeMap;

/// What was found about a record: how it differs from what the journal kept of its place, if it does, and whether it is
/// named.
#[derive(Drop)]
struct Look {
    change: Option<Change>,
    is_named: bool,
}

/// What was found about a list of records: the first that differs from what the journal kept of its place; and if none
/// does, for each whether it is named.
#[derive(Drop)]
pub(crate) struct Looked {
    pub change: Option<Change>,
    pub named: Vec<bool>,
}

/// The text that was kept with the tries of the shard's record at the place, if it has tries.
fn tries_text(said: &Says, shard: u64, place: u32) -> Option<&KeptText>
    ensures { option_copied result ≡ option_map (λ (f : FoundTries). f.text) (tries_told said.entry.now shard place) }
{
    match said.tries(shard, place) {
        None => None,
        Some(found) => Some(found.text),
    }
}

fn same_text(kept: &KeptText, number: &[u8]) -> bool
    ensures { result ≡ bytes_eq kept.now number.now }
{
    kept.as_slice() == number
}

/// The text, if there is one and it differs from the sequence number.
fn other_text<'a>(number: &[u8], kept: Option<&'a KeptText>) -> Option<&'a KeptText>
    ensures { option_copied result ≡ other_text number.now (option_copied kept.entry) }
{
    match kept {
        None => None,
        Some(kept) => {
            if same_text(kept, number) {
                None
            } else {
                Some(kept)
            }
        }
    }
}

/// The text kept with the fate of the place, which is `of_fate`, or else that kept with its tries, if it differs.
fn kept_otherwise<'a>(
    said: &'a Says,
    item: &Record,
    place: u32,
    of_fate: Option<&'a KeptText>,
) -> Option<&'a KeptText>
    ensures { option_copied result ≡ option_or (other_text item.now.seq (option_copied of_fate.entry))
        (other_text item.now.seq (option_map (λ (f : FoundTries). f.text) (tries_told said.entry.now item.now.shard place))) }
{
    match other_text(item.seq(), of_fate) {
        Some(kept) => Some(kept),
        None => other_text(item.seq(), tries_text(said, item.shard(), place)),
    }
}

/// How the record differs from the kept text, if there is one.
fn change_from(
    alloc: Global,
    item: &Record,
    place: u32,
    kept: Option<&KeptText>,
) -> Result<Option<Change>, OutOfMemory>
    ensures { IfOk result (λ change. change ≡ option_map (change_of item.now place) (option_copied kept.entry)) }
{
    match kept {
        None => Ok(None),
        Some(kept) => {
            let given = String::from_str(alloc, item.seq_text())?;
            Ok(Some(Change {
                shard: item.shard(),
                place,
                kept: kept.copy(alloc)?,
                given: Text::from_vec(given),
            }))
        }
    }
}

/// What the journal says of the record at the place. Its fate is looked up once, and the range at `near` is tried first.
fn look_up(
    alloc: Global,
    said: &Says,
    ranges: &Ranges,
    near: &mut usize,
    item: &Record,
    place: u32,
) -> Result<Look, OutOfMemory>
    ensures change { IfOk result (λ look. look.change ≡ option_map (change_of item.now place) (kept_otherwise said.now item.now.shard place item.now.seq)) }
    ensures named { IfOk result (λ look. look.is_named ≡ names said.now ranges.now item.now place) }
{
    match said.fate(item.shard(), place) {
        None => {
            let kept = kept_otherwise(said, item, place, None);
            let change = change_from(alloc, item, place, kept)?;
            Ok(Look {
                change,
                is_named: false,
            })
        }
        Some(found) => {
            let kept = kept_otherwise(said, item, place, Some(found.text));
            let change = change_from(alloc, item, place, kept)?;
            let is_named = names_near(said, ranges, near, item, place, found.fate);
            Ok(Look { change, is_named })
        }
    }
}

/// The first of the records that differs from what the journal kept of its place, where `counts` has how many of each
/// shard arrived before; and if none differs, which of them are named. It looks at these records alone.
pub(crate) fn first_change(
    alloc: Global,
    said: &Says,
    ranges: &Ranges,
    counts: &BTreeMap<u64, u32>,
    items: &[Record],
) -> Result<Looked, OutOfMemory>
    requires { (q : ℕ) → count_at (get nat_cmp counts.now) q + length items.now < 2 ^ 32 }
    ensures change { IfOk result (λ looked. (before : List Record) → AreCounted counts.now before → looked.change ≡ first_change said.now before items.now) }
    ensures named { IfOk result (λ looked. (before : List Record) → AreCounted counts.now before → looked.change ≡ None →
        looked.named.items ≡ are_named said.now ranges.now before items.now) }
{
    let mut tally = new_tally(alloc, counts);
    let mut named = Vec::with_capacity(alloc, items.len())?;
    let mut near = 0;
    for item in items {
        take_in_hand(&mut tally, counts, item.shard())?;
        let found = look_up(alloc, said, ranges, &mut near, item, tally.place)?;
        let Look { change, is_named } = found;
        if change.is_some() {
            return Ok(Looked { change, named });
        }
        named.push(is_named)?;
        count_next(&mut tally);
    }
    Ok(Looked {
        change: None,
        named,
    })
}

/// A copy of the change.
fn change_copy(alloc: Global, change: &Change) -> Result<Change, OutOfMemory>
    ensures { IfOk result (λ copy. copy ≡ change.now) }
{
    Ok(Change {
        shard: change.shard,
        place: change.place,
        kept: change.kept.copy(alloc)?,
        given: change.given.copy(alloc)?,
    })
}

/// Returns the refusal of a list that brings this change, or `Ok` if there is none.
pub(crate) fn refuse(alloc: Global, change: Option<Change>) -> Result<(), Refusal>
    ensures ok { OnOk result (change ≡ None) }
    ensures err { IfErr result (IsRefused (λ found. change ≡ Some found)) }
{
    match change {
        None => Ok(()),
        Some(told) => {
            let kept = change_copy(alloc, &told)?;
            Err(Refusal::Changed { told, kept })
        }
    }
}
