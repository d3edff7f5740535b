// Turns a table into the lists and indexes from which `Says` answers.
ghost use Rattle.std.specs.Prelude.{◌≡◌, ℕ, ◌<◌, ◌^◌, ◌==◌, ◌||◌, nat_eq, List, length, map, filter, true, false, None, is_some};
ghost use Rattle.std.specs.Prelude.{option_map, unwrap_or, IfOk, OnOk};
ghost use Rattle.std.specs.List.{list_any};
ghost use Rattle.std.specs.List.Sorted.{IsStrictlyIncreasing};
ghost use Rattle.std.specs.Ordering.{nat_cmp};
ghost use Rattle.std.specs.Map.{count_at};
ghost use Rattle.std.specs.BTreeMap as map;
ghost use Rattle.std.specs.BTreeMap.{btree_map_len};
ghost use Rattle.std.specs.BTreeSet as set;
ghost use Rattle.esm_journal_record.specs.declared.said.Said.{Said};
ghost use Rattle.esm_journal_state.specs.Table.{IsTable, HasOrder, pair_cmp};
ghost use Rattle.esm_journal_state.specs.Tells.{Tells};
ghost use Rattle.esm_journal_state.specs.SaidLists.{IsInOrder};
ghost use Rattle.esm_journal_state.specs.View.{stated, number_with};

use crate::fate_row::{row_of, starts_of};
use crate::kept::{KeptFate, KeptTries};
use crate::lookup::{SaidState, Says};
use crate::table::{Place, Table, Window};
use esm_model::{Bytes, OutOfMemory, WindowState};
use std::alloc::Global;
use std::collections::{BTreeMap, BTreeSet};

/// What the table says. Returns `OutOfMemory` also if it has 2^32 fates or more, or as many deletions.
pub(crate) fn gathered(alloc: Global, table: Table) -> Result<Says, OutOfMemory>
    ensures told { IfOk result (λ s. (h : List Said) → IsTable table h → Tells s h) }
    ensures order { IfOk result (λ s. IsInOrder s) }
{
    in_order(&table);
    let Table {
        fates,
        tries,
        states,
        window_tries,
        replays,
        deletions,
    } = table;
    if fates.len() > 4294967295 || deletions.len() > 4294967295 {
        return Err(OutOfMemory);
    }
    let counts = counts_of(alloc, &fates)?;
    let starts = starts_of(alloc, &counts)?;
    let frontiers = frontiers_of(alloc, &fates)?;
    let shards = shards_of(alloc, &fates, &tries, &states, &window_tries)?;
    let states = states_of(alloc, states)?;
    let row = row_of(alloc, fates)?;
    Ok(Says {
        fates: row,
        tries,
        states,
        window_tries,
        replays,
        deletions,
        shards,
        counts,
        starts,
        frontiers,
    })
}

/// A shard and its number so far, which is not yet in the map of numbers.
#[derive(Clone, Copy)]
pub(crate) struct AtHand {
    shard: u64,
    number: u32,
}

/// The maps are in order: each call of `len` shows it to the proof.
fn in_order(table: &Table)
    ensures { HasOrder table.now }
{
    let _ = table.fates.len();
    let _ = table.tries.len();
    let _ = table.states.len();
    let _ = table.window_tries.len();
    let _ = table.replays.len();
    let _ = table.deletions.len();
}

/// Makes `shard` the one at hand: if it is another, puts the number at hand into the map and takes up that of `shard`.
fn taken_up(
    numbers: &mut BTreeMap<u64, u32>,
    hand: AtHand,
    shard: u64,
) -> Result<AtHand, OutOfMemory>
    ensures shard { IfOk result (λ now. now.shard ≡ shard) }
    ensures numbers { IfOk result (λ now. (n : ℕ) → number_with numbers.new now n ≡ number_with numbers.old hand n) }
{
    if hand.shard == shard {
        return Ok(hand);
    }
    numbers.insert(hand.shard, hand.number)?;
    let number = number_at(numbers, shard);
    Ok(AtHand { shard, number })
}

/// For each shard its first place without a fate. The fates are in the order of the places, so a fate at the frontier so far
/// moves the frontier on by one.
fn frontiers_of(
    alloc: Global,
    fates: &BTreeMap<Place, KeptFate>,
) -> Result<BTreeMap<u64, u32>, OutOfMemory>
    requires { btree_map_len fates.now < 2 ^ 32 }
    ensures below { IfOk result (λ frontiers. (n i : ℕ) → i < count_at (map.get nat_cmp frontiers) n
        → is_some (map.get pair_cmp fates.now (n, i)) ≡ true) }
    ensures end { IfOk result (λ frontiers. (n : ℕ) → map.get pair_cmp fates.now (n, count_at (map.get nat_cmp frontiers) n) ≡ None) }
{
    let mut frontiers = BTreeMap::new(alloc);
    let _ = fates.len();
    let mut hand = AtHand {
        shard: 0,
        number: 0,
    };
    for (place, _) in fates {
        hand = taken_up(&mut frontiers, hand, place.0)?;
        if place.1 == hand.number {
            hand.number += 1;
        }
    }
    frontiers.insert(hand.shard, hand.number)?;
    Ok(frontiers)
}

/// For each shard the number of its places that have a fate.
fn counts_of(
    alloc: Global,
    fates: &BTreeMap<Place, KeptFate>,
) -> Result<BTreeMap<u64, u32>, OutOfMemory>
    requires { btree_map_len fates.now < 2 ^ 32 }
    ensures { IfOk result (λ counts. (n : ℕ) → count_at (map.get nat_cmp counts) n
        ≡ length (filter (λ e. e.0.0 == n) fates.now.entries)) }
{
    let mut counts = BTreeMap::new(alloc);
    let mut hand = AtHand {
        shard: 0,
        number: 0,
    };
    for (place, _) in fates {
        hand = taken_up(&mut counts, hand, place.0)?;
        hand.number += 1;
    }
    counts.insert(hand.shard, hand.number)?;
    Ok(counts)
}

/// The number of the shard, or 0.
pub(crate) fn number_at(numbers: &BTreeMap<u64, u32>, shard: u64) -> u32
    ensures { result ≡ count_at (map.get nat_cmp numbers.now) shard }
{
    match numbers.get(&shard) {
        None => 0,
        Some(number) => *number,
    }
}

/// Whether this is the shard of the last key.
fn is_last(last: Option<u64>, shard: u64) -> bool
    ensures { result ≡ unwrap_or (option_map (λ number. number == shard) last) false }
{
    match last {
        None => false,
        Some(number) => number == shard,
    }
}

/// Adds the shards of the keys, once for each run of keys with the same shard.
fn add_shards<T: Ord, V>(
    shards: &mut BTreeSet<u64>,
    keyed: &BTreeMap<(u64, T), V>,
) -> Result<(), OutOfMemory>
    ensures { OnOk result ((n : ℕ) → set.contains nat_cmp shards.new n
        ≡ (list_any (λ e. e.0.0 == n) keyed.now.entries || set.contains nat_cmp shards.old n)) }
{
    let mut last = None;
    for (key, _) in keyed {
        if !is_last(last, key.0) {
            shards.insert(key.0)?;
            last = Some(key.0);
        }
    }
    Ok(())
}

/// The numbers of the set, in rising order.
fn numbers_of(alloc: Global, numbers: &BTreeSet<u64>) -> Result<Vec<u64>, OutOfMemory>
    ensures items { IfOk result (λ v. v.items ≡ numbers.now.keys) }
    ensures rising { IfOk result (λ v. IsStrictlyIncreasing v.items) }
{
    let mut list = Vec::new(alloc);
    let _ = numbers.len();
    for number in numbers {
        list.push(*number)?;
    }
    Ok(list)
}

/// The shards that have a fate, tries, a state or a window's tries, in rising order.
fn shards_of(
    alloc: Global,
    fates: &BTreeMap<Place, KeptFate>,
    tries: &BTreeMap<Place, KeptTries>,
    states: &BTreeMap<Window, Bytes>,
    window_tries: &BTreeMap<Window, u32>,
) -> Result<Vec<u64>, OutOfMemory>
    ensures rising { IfOk result (λ v. IsStrictlyIncreasing v.items) }
    ensures all { IfOk result (λ v. (n : ℕ) → list_any (nat_eq n) v.items
        ≡ (list_any (λ e. e.0.0 == n) fates.now.entries || list_any (λ e. e.0.0 == n) tries.now.entries
        || list_any (λ e. e.0.0 == n) states.now.entries || list_any (λ e. e.0.0 == n) window_tries.now.entries)) }
{
    let mut shards = BTreeSet::new(alloc);
    add_shards(&mut shards, window_tries)?;
    add_shards(&mut shards, states)?;
    add_shards(&mut shards, tries)?;
    add_shards(&mut shards, fates)?;
    numbers_of(alloc, &shards)
}

/// The states, by shard and window.
fn states_of(alloc: Global, states: BTreeMap<Window, Bytes>) -> Result<Vec<SaidState>, OutOfMemory>
    ensures { IfOk result (λ v. v.items ≡ map stated states.entries) }
{
    let mut list = Vec::new(alloc);
    for ((shard, window), text) in states {
        let state = WindowState { window, text };
        list.push(SaidState { shard, state })?;
    }
    Ok(list)
}
