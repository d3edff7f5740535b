// What payloads say of places and windows, as maps.
ghost use Rattle.std.specs.Prelude.{◌≡◌, ℕ, ◌==◌, ◌&&◌, ◌||◌, [], Some, None, length, option_map, OnOk, if◌then◌else◌};
ghost use Rattle.std.specs.Option.{option_or};
ghost use Rattle.std.specs.Ordering.{nat_cmp};
ghost use Rattle.std.specs.BTreeMap as map;
ghost use Rattle.std.specs.BTreeSet as set;
ghost use Rattle.esm_model.specs.Entries.{holds};
ghost use Rattle.esm_journal_state.specs.Meaning.{text_named, only_at, fate_kept, tries_kept, state_in};
ghost use Rattle.esm_journal_state.specs.Table.{pair_cmp, IsTable};

use crate::kept::{KeptFate, KeptTries};
use esm_journal_record::KeptText;
use esm_model::{Bytes, Fate, OutOfMemory, WindowState};
use std::alloc::Global;
use std::collections::{BTreeMap, BTreeSet};

/// A shard's number, and a place of it.
pub(crate) type Place = (u64, u32);
/// A shard's number, and the start of a window of it.
pub(crate) type Window = (u64, u64);

/// The fates, the tries and the replays of records, the states and the tries of windows, and the deletions of messages.
#[derive(Drop)]
pub(crate) struct Table {
    pub fates: BTreeMap<Place, KeptFate>,
    pub tries: BTreeMap<Place, KeptTries>,
    pub states: BTreeMap<Window, Bytes>,
    pub window_tries: BTreeMap<Window, u32>,
    pub replays: BTreeSet<Place>,
    pub deletions: BTreeMap<u32, KeptFate>,
}

/// The table of no payload.
pub(crate) fn empty_table(alloc: Global) -> Table
    ensures { IsTable result [] }
{
    Table {
        fates: BTreeMap::new(alloc),
        tries: BTreeMap::new(alloc),
        states: BTreeMap::new(alloc),
        window_tries: BTreeMap::new(alloc),
        replays: BTreeSet::new(alloc),
        deletions: BTreeMap::new(alloc),
    }
}

pub(crate) fn keep_tries(
    kept: &mut BTreeMap<Place, KeptTries>,
    shard: u64,
    tries: u32,
    places: &[u32],
    mut texts: Vec<KeptText>,
) -> Result<(), OutOfMemory>
    requires { length texts.items ≡ length places.now }
    ensures { OnOk result ((n i : ℕ) → map.get pair_cmp kept.new (n, i)
        ≡ option_or (only_at (shard == n) (option_map (tries_kept tries) (text_named places.now texts.items i))) (map.get pair_cmp kept.old (n, i))) }
{
    while let Some(text) = texts.pop() {
        let place = places[texts.len()];
        kept.insert((shard, place), KeptTries { tries, text })?;
    }
    Ok(())
}

pub(crate) fn keep_deletions(
    deletions: &mut BTreeMap<u32, KeptFate>,
    fate: Fate,
    places: &[u32],
    mut texts: Vec<KeptText>,
) -> Result<(), OutOfMemory>
    requires { length texts.items ≡ length places.now }
    ensures { OnOk result ((i : ℕ) → map.get nat_cmp deletions.new i
        ≡ option_or (option_map (fate_kept fate) (text_named places.now texts.items i)) (map.get nat_cmp deletions.old i)) }
{
    while let Some(text) = texts.pop() {
        let place = places[texts.len()];
        deletions.insert(place, KeptFate { fate, text })?;
    }
    Ok(())
}

pub(crate) fn drop_tries(tries: &mut BTreeMap<Place, KeptTries>, shard: u64, places: &[u32])
    ensures { (n i : ℕ) → map.get pair_cmp tries.new (n, i)
        ≡ (if (shard == n) && holds places.now i then None else map.get pair_cmp tries.old (n, i)) }
{
    if tries.is_empty() {
        return;
    }
    for place in places {
        let _ = tries.remove(&(shard, *place));
    }
}

pub(crate) fn keep_replays(
    replays: &mut BTreeSet<Place>,
    shard: u64,
    places: &[u32],
) -> Result<(), OutOfMemory>
    ensures { OnOk result ((n i : ℕ) → set.contains pair_cmp replays.new (n, i)
        ≡ (((shard == n) && holds places.now i) || set.contains pair_cmp replays.old (n, i))) }
{
    for place in places {
        replays.insert((shard, *place))?;
    }
    Ok(())
}

pub(crate) fn keep_state(
    states: &mut BTreeMap<Window, Bytes>,
    shard: u64,
    state: WindowState,
) -> Result<(), OutOfMemory>
    ensures { OnOk result ((n w : ℕ) → map.get pair_cmp states.new (n, w)
        ≡ option_or (only_at (shard == n) (state_in (Some state) w)) (map.get pair_cmp states.old (n, w))) }
{
    states.insert((shard, state.window), state.text)?;
    Ok(())
}

pub(crate) fn keep_some_state(
    states: &mut BTreeMap<Window, Bytes>,
    shard: u64,
    state: Option<WindowState>,
) -> Result<(), OutOfMemory>
    ensures { OnOk result ((n w : ℕ) → map.get pair_cmp states.new (n, w)
        ≡ option_or (only_at (shard == n) (state_in state w)) (map.get pair_cmp states.old (n, w))) }
{
    match state {
        None => Ok(()),
        Some(state) => keep_state(states, shard, state),
    }
}
