// The records of a list by shard, each part with its first place and the places that the filter refuses.
ghost use Rattle.std.specs.Prelude.{◌≡◌, ◌+◌, ◌<◌, All, map, IfOk, length};
ghost use Rattle.esm_model.specs.Entries.{came_count};
ghost use Rattle.esm_filter.specs.Criteria.{JudgesRecords};
ghost use Rattle.esm_ledger.specs.Ledger.{past_of, setting_of, Keeps};
ghost use Rattle.esm_ingest.specs.Coming.{FitPlaces, with_records};
ghost use Rattle.esm_ingest.specs.Parts.{CanCome, grown_by, next_part, part, parts_of};

use crate::apart::with_own_texts;
use crate::group::{Group, grouped};
use crate::judging::{Judged, judge};
use esm_filter::{Criteria, Work};
use esm_ledger::Ledger;
use esm_model::{OutOfMemory, Places, Record};
use std::alloc::Global;

/// Records of one shard that come, in order.
#[derive(Drop)]
pub struct ShardRecords {
    pub shard: u64,
    /// The place of the first.
    pub first: u32,
    pub records: Vec<Record>,
    /// The places of those that have no found fate and do not pass the filter, rising.
    pub refused: Places,
}

/// The part of a group, whose records follow those of their shard that came.
fn part_of(
    alloc: Global,
    ledger: &Ledger,
    criteria: &Criteria,
    work: &mut Work,
    group: Group,
) -> Result<ShardRecords, OutOfMemory>
    requires kept { Keeps ledger.now }
    requires judged { JudgesRecords ledger.now.config.kind ledger.now.config.filters criteria.now }
    requires few { came_count (past_of ledger.now) group.shard + length group.records.items < 4294967296 }
    ensures { IfOk result (λ p. part p ≡ next_part (setting_of ledger.now) (past_of ledger.now) group.shard group.records.items) }
{
    let Group { shard, records } = group;
    let first = ledger.came_of(shard);
    let judged = judge(
        alloc,
        &ledger.found,
        criteria,
        work,
        shard,
        first,
        records.as_slice(),
    )?;
    let Judged { refused, staying } = judged;
    let records = with_own_texts(alloc, records, first, staying.as_slice())?;
    Ok(ShardRecords {
        shard,
        first,
        records,
        refused: Places::from_vec(refused),
    })
}

/// Sorts the records of a list by shard, in the order in which the shards first appear. The records move into the parts, and
/// keep their order within a shard. Linear in the list, but for a factor logarithmic in the number of its shards and in what
/// was found at opening. (Lambda Developer Guide, event filtering for Kinesis.)
pub fn by_shard(
    alloc: Global,
    ledger: &Ledger,
    criteria: &Criteria,
    items: Vec<Record>,
) -> Result<Vec<ShardRecords>, OutOfMemory>
    requires kept { Keeps ledger.now }
    requires judged { JudgesRecords ledger.now.config.kind ledger.now.config.filters criteria.now }
    requires places { FitPlaces (past_of ledger.now) items.items }
    ensures parts { IfOk result (λ parts. map part parts.items ≡ parts_of (setting_of ledger.now) (past_of ledger.now) items.items) }
    ensures each { IfOk result (λ parts. All (CanCome (past_of ledger.now)) (map part parts.items)) }
    ensures streams { IfOk result (λ parts. grown_by (setting_of ledger.now).streams (map part parts.items)
        ≡ with_records (setting_of ledger.now).streams items.items) }
{
    let groups = grouped(alloc, items)?;
    let mut parts = Vec::new(alloc);
    let mut work = Work::new();
    for group in groups {
        let made = part_of(alloc, ledger, criteria, &mut work, group)?;
        parts.push(made)?;
    }
    Ok(parts)
}
