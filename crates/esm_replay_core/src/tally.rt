// The places of the records of a list, counted on from what of each shard arrived before it.
ghost use Rattle.std.specs.Prelude.{◌≡◌, ℕ, ◌<◌, ◌+◌, OnOk};
ghost use Rattle.std.specs.Ordering.{nat_cmp};
ghost use Rattle.std.specs.Map.{count_at};
ghost use Rattle.std.specs.BTreeMap.{get};
ghost use Rattle.esm_replay_core.specs.Counts.{next_place, next_in};

use crate::counts::count_of;
use esm_model::OutOfMemory;
use std::alloc::Global;
use std::collections::BTreeMap;

/// The place of the next record of each shard. That of the last record's shard is a field of its own, so records of the
/// same shard need no look-up.
#[derive(Drop)]
pub(crate) struct Tally {
    pub shard: u64,
    /// The place of the next record of that shard.
    pub place: u32,
    /// The places of the other shards that have a record in the list.
    pub others: BTreeMap<u64, u32>,
}

/// The tally before any record of the list.
pub(crate) fn new_tally(alloc: Global, counts: &BTreeMap<u64, u32>) -> Tally
    ensures { (q : ℕ) → next_place counts.now result q ≡ count_at (get nat_cmp counts.now) q }
{
    Tally {
        shard: 0,
        place: count_of(counts, 0),
        others: BTreeMap::new(alloc),
    }
}

/// The place of the next record of a shard that is not in the field.
fn place_in(counts: &BTreeMap<u64, u32>, others: &BTreeMap<u64, u32>, shard: u64) -> u32
    ensures { result ≡ next_in counts.now others.now shard }
{
    match others.get(&shard) {
        Some(place) => *place,
        None => count_of(counts, shard),
    }
}

/// Moves the place of this shard into the field; all places stay the same.
pub(crate) fn take_in_hand(
    tally: &mut Tally,
    counts: &BTreeMap<u64, u32>,
    shard: u64,
) -> Result<(), OutOfMemory>
    ensures same { OnOk result ((q : ℕ) → next_place counts.now tally.new q ≡ next_place counts.now tally.old q) }
    ensures here { OnOk result (tally.new.shard ≡ shard) }
{
    if tally.shard == shard {
        return Ok(());
    }
    let place = place_in(counts, &tally.others, shard);
    tally.others.insert(tally.shard, tally.place)?;
    tally.shard = shard;
    tally.place = place;
    Ok(())
}

/// Counts one more record of the shard in the field.
pub(crate) fn count_next(tally: &mut Tally)
    requires { tally.old.place < u32.MAX }
    ensures { tally.new ≡ record tally.old { place = tally.old.place + 1 } }
{
    tally.place += 1;
}
