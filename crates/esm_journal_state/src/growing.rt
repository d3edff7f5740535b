// A table that grows payload by payload. The recent fates wait in a list, from which the map of fates is made at once.
ghost use Rattle.std.specs.Prelude.{◌≡◌, ◌≤◌, ℕ, List, [], ◌++◌, length, true, false, IfOk, OnOk};
ghost use Rattle.std.specs.Ordering.{nat_cmp};
ghost use Rattle.std.specs.BTreeMap as map;
ghost use Rattle.esm_model.specs.Entries.{holds};
ghost use Rattle.esm_journal_record.specs.declared.said.Said.{Said};
ghost use Rattle.esm_journal_record.specs.Payload.{IsSaid, rises};
ghost use Rattle.esm_journal_state.specs.Growing.{IsGrown, Knows, fate_with, fates_named, is_above};
ghost use Rattle.esm_journal_state.specs.Meaning.{known, is_bad};
ghost use Rattle.esm_journal_state.specs.Table.{IsTable, known_in, pair_cmp};

use crate::kept::KeptFate;
use crate::table::{Place, Table, empty_table};
use esm_journal_record::{KeptText, Said};
use esm_model::{Fate, OutOfMemory};
use std::alloc::{AllocError, Global};
use std::collections::BTreeMap;
use std::mem;

/// A table whose recent fates are not yet in its map.
#[derive(Drop)]
pub(crate) struct Growing {
    pub table: Table,
    // in the order in which they came
    pub recent: Vec<(Place, KeptFate)>,
    // for each shard with a fate, a place above which it has none
    pub tops: BTreeMap<u64, u32>,
}

/// The table of no payload.
pub(crate) fn empty_growing(alloc: Global) -> Growing
    ensures { IsGrown result [] }
{
    Growing {
        table: empty_table(alloc),
        recent: Vec::new(alloc),
        tops: BTreeMap::new(alloc),
    }
}

/// Appends the fate of each of the shard's places, with its text.
pub(crate) fn push_fates(
    recent: &mut Vec<(Place, KeptFate)>,
    shard: u64,
    fate: Fate,
    places: &[u32],
    texts: Vec<KeptText>,
) -> Result<(), OutOfMemory>
    requires { length texts.items ≡ length places.now }
    ensures { OnOk result (recent.new.items ≡ recent.old.items ++ fates_named shard fate places.now texts.items) }
{
    let mut index = 0;
    for text in texts {
        recent.push(((shard, places[index]), KeptFate { fate, text }))?;
        index += 1;
    }
    Ok(())
}

/// Whether the place is above the shard's top, and so has no fate.
fn is_above(tops: &BTreeMap<u64, u32>, shard: u64, place: u32) -> bool
    ensures { result ≡ is_above (map.get nat_cmp tops.now shard) place }
{
    match tops.get(&shard) {
        None => true,
        Some(top) => *top < place,
    }
}

/// Raises the shard's top to the last of the places, which rise and now have fates.
pub(crate) fn raise(
    tops: &mut BTreeMap<u64, u32>,
    shard: u64,
    places: &[u32],
) -> Result<(), OutOfMemory>
    requires some { 1 ≤ length places.now }
    requires rising { rises places.now ≡ true }
    ensures kept { OnOk result ((n i : ℕ) → is_above (map.get nat_cmp tops.new n) i ≡ true
        → is_above (map.get nat_cmp tops.old n) i ≡ true) }
    ensures passed { OnOk result ((i : ℕ) → is_above (map.get nat_cmp tops.new shard) i ≡ true → holds places.now i ≡ false) }
{
    let last = places[places.len() - 1];
    if is_above(tops, shard, last) {
        tops.insert(shard, last)?;
    }
    Ok(())
}

/// Makes the map of the fates at once.
fn map_of(
    alloc: Global,
    fates: Vec<(Place, KeptFate)>,
) -> Result<BTreeMap<Place, KeptFate>, AllocError>
    ensures { IfOk result (map.IsFromIterResult pair_cmp fates.items) }
{
    fates.into_iter().collect(alloc)
}

/// Puts the fates into the map one by one.
fn put_each(
    fates: &mut BTreeMap<Place, KeptFate>,
    recent: Vec<(Place, KeptFate)>,
) -> Result<(), OutOfMemory>
    ensures { OnOk result ((n i : ℕ) → map.get pair_cmp fates.new (n, i) ≡ fate_with fates.old recent.items n i) }
{
    for entry in recent {
        let (place, kept) = entry;
        fates.insert(place, kept)?;
    }
    Ok(())
}

/// Puts the fates into the map: at once if it is empty, else one by one.
fn put_all(
    alloc: Global,
    fates: &mut BTreeMap<Place, KeptFate>,
    recent: Vec<(Place, KeptFate)>,
) -> Result<(), OutOfMemory>
    ensures { OnOk result ((n i : ℕ) → map.get pair_cmp fates.new (n, i) ≡ fate_with fates.old recent.items n i) }
{
    if !fates.is_empty() {
        return put_each(fates, recent);
    }
    let made = map_of(alloc, recent)?;
    *fates = made;
    Ok(())
}

/// Puts the recent fates into the table's map. After an error some of them are lost.
pub(crate) fn settle(alloc: Global, growing: &mut Growing) -> Result<(), OutOfMemory>
    ensures grown { OnOk result ((h : List Said) → IsGrown growing.old h → IsGrown growing.new h) }
    ensures table { OnOk result ((h : List Said) → IsGrown growing.old h → IsTable growing.new.table h) }
{
    let none = Vec::new(alloc);
    let recent = mem::replace(&mut growing.recent, none);
    put_all(alloc, &mut growing.table.fates, recent)?;
    Ok(())
}

/// Makes sure that the map has the fates of the places, which rise. Above the shard's top no place has one.
fn know_fates(
    alloc: Global,
    growing: &mut Growing,
    shard: u64,
    places: &[u32],
) -> Result<(), OutOfMemory>
    requires some { 1 ≤ length places.now }
    requires rising { rises places.now ≡ true }
    ensures grown { OnOk result ((h : List Said) → IsGrown growing.old h → IsGrown growing.new h) }
    ensures known { OnOk result ((h : List Said) → IsGrown growing.old h → Knows growing.new.table h shard places.now) }
{
    if is_above(&growing.tops, shard, places[0]) {
        return Ok(());
    }
    settle(alloc, growing)?;
    Ok(())
}

/// Makes sure that the table's maps have all that is needed to judge what is said.
pub(crate) fn make_ready(
    alloc: Global,
    growing: &mut Growing,
    said: &Said,
) -> Result<(), OutOfMemory>
    requires { IsSaid said.now }
    ensures grown { OnOk result ((h : List Said) → IsGrown growing.old h → IsGrown growing.new h) }
    ensures ready { OnOk result ((h : List Said) → IsGrown growing.old h
        → is_bad (known_in growing.new.table) said.now ≡ is_bad (known h) said.now) }
{
    match said {
        Said::Fates { shard, places, .. }
        | Said::Tried { shard, places, .. }
        | Said::Replayed { shard, places, .. } => {
            know_fates(alloc, growing, *shard, places.as_slice())
        }
        _ => Ok(()),
    }
}
