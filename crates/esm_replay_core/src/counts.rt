// How many records of each shard arrived.
ghost use Rattle.std.specs.Prelude.{◌≡◌, ◌<◌, true, All, IfSome, OnOk, Some, IsSome, is_some};
ghost use Rattle.std.specs.Ordering.{nat_cmp};
ghost use Rattle.std.specs.Map.{count_at};
ghost use Rattle.std.specs.BTreeMap.{get};
ghost use Rattle.esm_replay_core.specs.Counts.{IsRecounted, HasCount, HasOneMore};

use esm_model::{OutOfMemory, Record};
use std::collections::BTreeMap;

/// The number of the shard's records, or 0 if it has no count.
pub(crate) fn count_of(counts: &BTreeMap<u64, u32>, shard: u64) -> u32
    ensures { result ≡ count_at (get nat_cmp counts.now) shard }
{
    match counts.get(&shard) {
        None => 0,
        Some(count) => *count,
    }
}

fn has_count(counts: &BTreeMap<u64, u32>, shard: u64) -> bool
    ensures { result ≡ is_some (get nat_cmp counts.now shard) }
{
    counts.contains_key(&shard)
}

/// Makes a count for the shard, 0 if it had none.
fn make_count(counts: &mut BTreeMap<u64, u32>, shard: u64) -> Result<(), OutOfMemory>
    ensures same { IsRecounted counts.old counts.new }
    ensures there { OnOk result (IsSome (get nat_cmp counts.new shard)) }
{
    if has_count(counts, shard) {
        return Ok(());
    }
    counts.insert(shard, 0)?;
    Ok(())
}

/// Whether the last record was of this shard.
fn is_shard(last: Option<u64>, shard: u64) -> bool
    ensures { result ≡ true → last ≡ Some shard }
{
    match last {
        None => false,
        Some(last) => last == shard,
    }
}

/// The same, where the last record's shard has a count: this shard is looked up only if it is another.
fn make_next(
    counts: &mut BTreeMap<u64, u32>,
    last: Option<u64>,
    shard: u64,
) -> Result<(), OutOfMemory>
    requires { IfSome last (λ q. IsSome (get nat_cmp counts.old q)) }
    ensures same { IsRecounted counts.old counts.new }
    ensures there { OnOk result (IsSome (get nat_cmp counts.new shard)) }
{
    if is_shard(last, shard) {
        return Ok(());
    }
    make_count(counts, shard)
}

/// Makes a count for the shard of each record, 0 if it had none.
pub(crate) fn make_counts(
    counts: &mut BTreeMap<u64, u32>,
    items: &[Record],
) -> Result<(), OutOfMemory>
    ensures same { IsRecounted counts.old counts.new }
    ensures there { OnOk result (All (HasCount counts.new) items.now) }
{
    let mut last = None;
    for item in items {
        let shard = item.shard();
        make_next(counts, last, shard)?;
        last = Some(shard);
    }
    Ok(())
}

/// Counts one more record of the shard, which has a count. Takes no memory.
pub(crate) fn count_one(counts: &mut BTreeMap<u64, u32>, shard: u64)
    requires there { IsSome (get nat_cmp counts.old shard) }
    requires few { count_at (get nat_cmp counts.old) shard < u32.MAX }
    ensures { HasOneMore shard counts.old counts.new }
{
    match counts.get_mut(&shard) {
        Some(count) => *count += 1,
        None => unreachable!(),
    }
}
