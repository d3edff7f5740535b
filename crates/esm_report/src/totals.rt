// The totals of a history, shard by shard.
ghost use Rattle.std.specs.Prelude.{◌≡◌, ℕ, ◌+◌, ◌==◌, ◌&&◌, List, ◌∷◌, Some, None, reverse, OnOk, IfOk, if◌then◌else◌};
ghost use Rattle.std.specs.Option.{option_or};
ghost use Rattle.std.specs.Ordering.{nat_cmp};
ghost use Rattle.std.specs.Map.{count_at};
ghost use Rattle.std.specs.BTreeMap as map;
ghost use Rattle.esm_model.specs.declared.entry.Entry.{Entry};
ghost use Rattle.esm_model.specs.Entries.{holds};
ghost use Rattle.esm_report.specs.Totals.{fate_at, IsTotal};

use crate::fates::Fates;
use esm_model::{Entry, Fate, OutOfMemory, Places};
use std::alloc::Global;
use std::collections::{BTreeMap, BTreeSet};

/// The shards of which records arrived, how many of each, and the fates given to their places.
#[derive(Drop)]
pub(crate) struct Totals {
    pub shards: BTreeSet<u64>,
    pub records: BTreeMap<u64, u32>,
    pub fates: BTreeMap<u64, Fates>,
}

/// Counts the totals of the history (oldest entry first).
pub(crate) fn totals_of(alloc: Global, trace: &[Entry]) -> Result<Totals, OutOfMemory>
    ensures { IfOk result (λ t. IsTotal t (reverse trace.now)) }
{
    let mut totals = Totals {
        shards: BTreeSet::new(alloc),
        records: BTreeMap::new(alloc),
        fates: BTreeMap::new(alloc),
    };
    for entry in trace {
        add(alloc, &mut totals, entry)?;
    }
    Ok(totals)
}

/// Adds one more entry of the history.
fn add(alloc: Global, totals: &mut Totals, entry: &Entry) -> Result<(), OutOfMemory>
    ensures { OnOk result ((h : List Entry) → IsTotal totals.old h → IsTotal totals.new (entry.now ∷ h)) }
{
    match entry {
        Entry::Came { shard, count, .. } => {
            totals.shards.insert(*shard)?;
            add_records(&mut totals.records, *shard, *count)
        }
        Entry::Gave {
            shard,
            places,
            fate,
            ..
        } => give(alloc, &mut totals.fates, *shard, places, *fate),
        _ => Ok(()),
    }
}

/// Counts `count` more records of the shard. Places have 32 bits; a larger sum would not fit into memory and is reported as
/// such.
fn add_records(records: &mut BTreeMap<u64, u32>, shard: u64, count: u32) -> Result<(), OutOfMemory>
    ensures { OnOk result ((n : ℕ) → count_at (map.get nat_cmp records.new) n
        ≡ (if shard == n then count + count_at (map.get nat_cmp records.old) n else count_at (map.get nat_cmp records.old) n)) }
{
    let before = records_of(records, shard);
    let Some(after) = before.checked_add(count) else {
        return Err(OutOfMemory);
    };
    records.insert(shard, after)?;
    Ok(())
}

/// Returns how many of the shard's records arrived.
pub(crate) fn records_of(records: &BTreeMap<u64, u32>, shard: u64) -> u32
    ensures { result ≡ count_at (map.get nat_cmp records.now) shard }
{
    match records.get(&shard) {
        None => 0,
        Some(count) => *count,
    }
}

/// Gives this fate to each of the shard's places that has none.
fn give(
    alloc: Global,
    fates: &mut BTreeMap<u64, Fates>,
    shard: u64,
    places: &Places,
    fate: Fate,
) -> Result<(), OutOfMemory>
    ensures { OnOk result ((n i : ℕ) → fate_at (map.get nat_cmp fates.new n) i
        ≡ option_or (fate_at (map.get nat_cmp fates.old n) i) (if (shard == n) && holds places.now i then Some fate else None)) }
{
    let mut given = match fates.remove(&shard) {
        None => Fates::new(alloc),
        Some(given) => given,
    };
    given.give_all(places, fate)?;
    fates.insert(shard, given)?;
    Ok(())
}
