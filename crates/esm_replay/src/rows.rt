// Gathering the named records of each shard from the records in the order in which they arrived.
ghost use Rattle.std.specs.Prelude.{◌≡◌, ℕ, ◌==◌, ◌<◌, ◌^◌, [], List, false, IfOk, OnOk, None, Some, length, get_or};
ghost use Rattle.std.specs.Ordering.{nat_cmp};
ghost use Rattle.std.specs.BTreeMap.{get};
ghost use Rattle.esm_model.specs.declared.config.Config.{Config};
ghost use Rattle.esm_journal_state.specs.SaidLists.{SaidLists};
ghost use Rattle.esm_replay_model.specs.declared.range.Range.{Range};
ghost use Rattle.esm_replay.specs.Records.{setting_with, are_named};
ghost use Rattle.esm_replay.specs.Rows.{came_in, count_in, IsGrown, IsGrownAt, IsRowAt};

use esm_model::{OutOfMemory, Record};
use std::alloc::Global;
use std::collections::BTreeMap;

/// A named record: its place in its shard, and its position among the records that arrived, both counted from 0.
#[derive(Clone, Copy, Debug)]
pub struct Named {
    pub place: u32,
    pub at: u32,
}

/// How many records of a shard arrived, and the named ones of them by place.
#[derive(Drop, Debug)]
pub struct Row {
    pub came: u32,
    pub named: Vec<Named>,
}

/// Adds one more record of the row's shard, named or not, which is at position `at` among all.
fn grow(row: &mut Row, is_named: bool, at: u32) -> Result<(), OutOfMemory>
    requires { row.old.came < u32.MAX }
    ensures { OnOk result (IsGrown is_named at (Some row.old) row.new) }
{
    let place = row.came;
    if is_named {
        row.named.push(Named { place, at })?;
    }
    row.came = place + 1;
    Ok(())
}

/// The row after a shard's first record, named or not, which is at position `at` among all.
fn first_row(alloc: Global, is_named: bool, at: u32) -> Result<Row, OutOfMemory>
    ensures { IfOk result (IsGrown is_named at None) }
{
    let mut row = Row {
        came: 0,
        named: Vec::new(alloc),
    };
    grow(&mut row, is_named, at)?;
    Ok(row)
}

/// Adds one more record of the shard, named or not, which is at position `at` among all. The row of a shard that has one
/// is looked up once and changed where it is.
fn add(
    alloc: Global,
    rows: &mut BTreeMap<u64, Row>,
    shard: u64,
    is_named: bool,
    at: u32,
) -> Result<(), OutOfMemory>
    requires { came_in (get nat_cmp rows.old shard) < u32.MAX }
    ensures here { OnOk result (IsGrownAt is_named at (get nat_cmp rows.old shard) (get nat_cmp rows.new shard)) }
    ensures others { OnOk result ((q : ℕ) → (shard == q) ≡ false → get nat_cmp rows.new q ≡ get nat_cmp rows.old q) }
{
    if let Some(row) = rows.get_mut(&shard) {
        return grow(row, is_named, at);
    }
    let row = first_row(alloc, is_named, at)?;
    rows.insert(shard, row)?;
    Ok(())
}

/// Whether the record at this position is named.
fn named_at(named: &[bool], i: usize) -> bool
    requires { i < length named.now }
    ensures { result ≡ get_or named.now i result }
{
    named[i]
}

/// The rows of all shards, from these records and the flags that say which of them are named.
pub(crate) fn rows_of(
    alloc: Global,
    records: &[Record],
    named: &[bool],
) -> Result<BTreeMap<u64, Row>, OutOfMemory>
    requires few { length records.now < 2 ^ 32 }
    requires each { length named.now ≡ length records.now }
    ensures { IfOk result (λ rows. (told : SaidLists) (ranges : List Range) → named.now ≡ are_named told ranges [] records.now → (config : Config) (calls : ℕ) (q : ℕ) →
        IsRowAt (setting_with config calls told ranges records.now) records.now q (count_in q records.now (length records.now)) (get nat_cmp rows q)) }
{
    let mut rows = BTreeMap::new(alloc);
    for (i, item) in records.iter().enumerate() {
        let is_named = named_at(named, i);
        add(alloc, &mut rows, item.shard(), is_named, i as u32)?;
    }
    Ok(rows)
}
