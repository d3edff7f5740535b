// Fates in the order of shards and places. A look-up tries the likely index first, then a binary search.
ghost use Rattle.std.specs.Prelude.{◌≡◌, Some, None, IfOk, IfSome, option_copied};
ghost use Rattle.std.specs.List.Sorted.{IsStrictlySortedBy};
ghost use Rattle.std.specs.Map.{keys_of, lookup};
ghost use Rattle.std.specs.BTreeMap.{is_at};
ghost use Rattle.esm_journal_state.specs.Table.{pair_cmp};

use crate::kept::KeptFate;
use crate::table::Place;
use esm_model::OutOfMemory;
use std::alloc::Global;
use std::collections::BTreeMap;

/// The fates of the map, in order.
pub(crate) fn row_of(
    alloc: Global,
    fates: BTreeMap<Place, KeptFate>,
) -> Result<Vec<(Place, KeptFate)>, OutOfMemory>
    ensures { IfOk result (λ row. row.items ≡ fates.entries) }
{
    let mut row = Vec::with_capacity(alloc, fates.len())?;
    for entry in fates {
        row.push(entry)?;
    }
    Ok(row)
}

/// For each shard the number of fates of the shards before it, which is the index of its first fate in the row. A look-up
/// begins there, and is right whatever the number.
pub(crate) fn starts_of(
    alloc: Global,
    counts: &BTreeMap<u64, u32>,
) -> Result<BTreeMap<u64, u32>, OutOfMemory> {
    let mut starts = BTreeMap::new(alloc);
    let mut before: u32 = 0;
    for (shard, count) in counts {
        starts.insert(*shard, before)?;
        before = before.saturating_add(*count);
    }
    Ok(starts)
}

/// The fate at this index of the row, if it is that of the shard's place.
fn kept_at(row: &[(Place, KeptFate)], at: usize, shard: u64, place: u32) -> Option<&KeptFate>
    requires { IsStrictlySortedBy pair_cmp (keys_of row.now) }
    ensures { IfSome result (λ kept. lookup (is_at (pair_cmp (shard, place))) row.now ≡ Some kept.now) }
{
    match row.get(at) {
        None => None,
        Some(entry) => {
            if entry.0.0 == shard && entry.0.1 == place {
                Some(&entry.1)
            } else {
                None
            }
        }
    }
}

/// The fate of the shard's place in the row, by binary search.
fn search(row: &[(Place, KeptFate)], shard: u64, place: u32) -> Option<&KeptFate>
    requires { IsStrictlySortedBy pair_cmp (keys_of row.now) }
    ensures { option_copied result ≡ lookup (is_at (pair_cmp (shard, place))) row.entry.now }
{
    match row.binary_search_by_key(&(shard, place), |entry| entry.0) {
        Ok(at) => Some(&row[at].1),
        Err(_) => None,
    }
}

/// The fate of the shard's place in the row. Looks first where it is if the shard's fates begin at the index `start` and
/// have no gap, and else searches.
pub(crate) fn fate_in(
    row: &[(Place, KeptFate)],
    start: u32,
    shard: u64,
    place: u32,
) -> Option<&KeptFate>
    requires { IsStrictlySortedBy pair_cmp (keys_of row.now) }
    ensures { option_copied result ≡ lookup (is_at (pair_cmp (shard, place))) row.entry.now }
{
    let at = start as usize + place as usize;
    match kept_at(row, at, shard, place) {
        Some(kept) => Some(kept),
        None => search(row, shard, place),
    }
}
