//! What the journal said at opening of a shard whose records are about to come.
ghost use Rattle.std.specs.Prelude.{◌≡◌, ℕ, ◌+◌, ◌≤◌, ◌==◌, ◌&&◌, false, None, Some, length, if◌then◌else◌, IfOk, OnOk};
ghost use Rattle.esm_model.specs.Ruling.{capped_tries};
ghost use Rattle.esm_journal_state.specs.SaidLists.{fate_told, tries_told};
ghost use Rattle.esm_shard_index.specs.Windows.{state_in, tries_in};
ghost use Rattle.esm_ledger.specs.Measuring.{fate_for, tries_for, landing_for, fates_from, landings_from, state_from, tries_from};
ghost use Rattle.esm_ledger.specs.Found.{HasFoundWindows};

use crate::arriving::Landing;
use crate::told::is_told;
use esm_journal_state::{SaidState, SaidWindowTries, Says};
use esm_model::{Fate, MAX_TRIES, OutOfMemory, Record};
use esm_shard_index::Windows;
use std::alloc::Global;

/// What the journal said at opening of a shard's records. If it said nothing of the shard, none of them is looked up.
#[derive(Drop)]
pub struct ShardFound<'a> {
    said: &'a Says,
    shard: u64,
    /// Whether it said anything of the shard.
    any: bool,
    ghost fates: { any ≡ false → (i : ℕ) → fate_told said.now shard i ≡ None },
    ghost tries: { any ≡ false → (i : ℕ) → tries_told said.now shard i ≡ None },
}

impl<'a> ShardFound<'a> {
    /// For this shard, from all that the journal said. Logarithmic in the number of shards that it named.
    pub fn of(said: &'a Says, shard: u64) -> ShardFound<'a>
        ensures said { result.said.now ≡ said.now }
        ensures shard { result.shard ≡ shard }
    {
        ShardFound {
            said,
            shard,
            any: is_told(said, shard),
        }
    }

    /// The fate that was found of the record at the place.
    fn fate(&self, place: u32) -> Option<Fate>
        ensures { result ≡ fate_for self.now.said.now self.now.shard place }
    {
        if !self.any {
            return None;
        }
        match self.said.fate(self.shard, place) {
            None => None,
            Some(found) => Some(found.fate),
        }
    }

    /// The tries that were found of the record at the place, 10,001 at most.
    fn tries(&self, place: u32) -> Option<u32>
        ensures { result ≡ tries_for self.now.said.now self.now.shard place }
    {
        if !self.any {
            return None;
        }
        match self.said.tries(self.shard, place) {
            None => None,
            Some(found) => Some(capped(found.tries)),
        }
    }
}

fn capped(tries: u32) -> u32
    ensures { result ≡ capped_tries tries }
{
    MAX_TRIES.min(tries)
}

/// Where the record at the place, with this found fate, goes, if it has none and passes the filter.
fn landing_of(
    found: &ShardFound,
    factor: u32,
    place: u32,
    fate: Option<Fate>,
    item: &Record,
    passes: bool,
) -> Option<Landing>
    requires some { 1 ≤ factor }
    requires most { factor ≤ 10 }
    requires fate { fate ≡ fate_for found.now.said.now found.now.shard place }
    ensures { result ≡ landing_for factor found.now.said.now found.now.shard place item.now passes }
{
    if passes && fate.is_none() {
        Some(Landing {
            lane: item.lane(factor),
            tries: found.tries(place),
        })
    } else {
        None
    }
}

/// The fates that were found of records, and where the records go.
#[derive(Drop)]
pub struct Fated {
    pub fates: Vec<Option<Fate>>,
    pub landings: Vec<Option<Landing>>,
}

/// The found fates of these records of the shard, from the place `first` on, and where they go. Looks each up once for its
/// fate and, if it goes to a lane, once for its tries.
pub fn found_records(
    alloc: Global,
    found: &ShardFound,
    factor: u32,
    first: u32,
    records: &[Record],
    passing: &[bool],
) -> Result<Fated, OutOfMemory>
    requires some { 1 ≤ factor }
    requires most { factor ≤ 10 }
    requires few { first + length records.now ≤ u32.MAX }
    requires all { length passing.now ≡ length records.now }
    ensures fates { IfOk result (λ f. f.fates.items ≡ fates_from found.now.said.now found.now.shard first records.now) }
    ensures landings { IfOk result (λ f.
        f.landings.items ≡ landings_from factor found.now.said.now found.now.shard first records.now passing.now) }
{
    let mut fates = Vec::with_capacity(alloc, records.len())?;
    let mut landings = Vec::with_capacity(alloc, records.len())?;
    for i in 0..records.len() {
        let place = first + i as u32;
        let fate = found.fate(place);
        let landing = landing_of(found, factor, place, fate, &records[i], passing[i]);
        fates.push(fate)?;
        landings.push(landing)?;
    }
    Ok(Fated { fates, landings })
}

/// The shard's windows before any record of it came.
pub fn found_windows(alloc: Global, found: &Says, shard: u64) -> Result<Windows, OutOfMemory>
    ensures { IfOk result (λ windows. HasFoundWindows found.now shard windows) }
{
    let tries = found.shard_window_tries(alloc, shard)?;
    let mut windows = Windows::new(alloc);
    load_states(alloc, &mut windows, found.states(), shard)?;
    load_tries(&mut windows, tries.as_slice())?;
    Ok(windows)
}

fn load_states(
    alloc: Global,
    windows: &mut Windows,
    states: &[SaidState],
    shard: u64,
) -> Result<(), OutOfMemory>
    ensures states { OnOk result ((w : ℕ) → state_in windows.new w ≡ state_from states.now shard w (state_in windows.old w)) }
    ensures opened { windows.new.opened ≡ windows.old.opened }
    ensures tries { windows.new.tries ≡ windows.old.tries }
    ensures last { windows.new.last ≡ windows.old.last }
{
    let mut index = states.len();
    while index > 0 {
        index -= 1;
        load_state(alloc, windows, &states[index], shard)?;
    }
    Ok(())
}

fn load_state(
    alloc: Global,
    windows: &mut Windows,
    state: &SaidState,
    shard: u64,
) -> Result<(), OutOfMemory>
    ensures states { OnOk result ((w : ℕ) → state_in windows.new w
        ≡ (if (state.now.shard == shard) && (state.now.state.window == w) then Some state.now.state.text else state_in windows.old w)) }
    ensures opened { windows.new.opened ≡ windows.old.opened }
    ensures tries { windows.new.tries ≡ windows.old.tries }
    ensures last { windows.new.last ≡ windows.old.last }
{
    if state.shard != shard {
        return Ok(());
    }
    let text = state.state.text.copy(alloc)?;
    windows.found_state(state.state.window, text)
}

fn load_tries(windows: &mut Windows, tries: &[SaidWindowTries]) -> Result<(), OutOfMemory>
    ensures tries { OnOk result ((w : ℕ) → tries_in windows.new w ≡ tries_from tries.now w (tries_in windows.old w)) }
    ensures opened { windows.new.opened ≡ windows.old.opened }
    ensures states { windows.new.states ≡ windows.old.states }
    ensures last { windows.new.last ≡ windows.old.last }
{
    let mut index = tries.len();
    while index > 0 {
        index -= 1;
        let found = tries[index];
        windows.found_tries(found.window, capped(found.tries))?;
    }
    Ok(())
}
