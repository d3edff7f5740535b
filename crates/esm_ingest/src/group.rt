// Groups the records of a list by shard, in the order in which the shards first appear.
ghost use Rattle.std.specs.Prelude.{◌≡◌, ℕ, ◌==◌, [], Some, None, length, map, IfOk, IfSome, OnOk, if◌then◌else◌};
ghost use Rattle.std.specs.Ordering.{nat_cmp};
ghost use Rattle.std.specs.BTreeMap.{get};
ghost use Rattle.esm_ingest.specs.Coming.{with_record, with_records};
ghost use Rattle.esm_ingest.specs.declared.group.Run.{Run};
ghost use Rattle.esm_ingest.specs.Inside.{stream_in, names_in, place_in};

use esm_model::{OutOfMemory, Record};
use std::alloc::Global;
use std::collections::BTreeMap;

/// Records of one shard, in order.
#[derive(Drop)]
pub struct Group {
    pub shard: u64,
    pub records: Vec<Record>,
}

/// Begins the group of a shard with its first record.
fn push_group(alloc: Global, groups: &mut Vec<Group>, item: Record) -> Result<(), OutOfMemory>
    requires { place_in (names_in groups.old.items) item.shard ≡ None }
    ensures index { OnOk result ((n : ℕ) → place_in (names_in groups.new.items) n
        ≡ (if item.shard == n then Some (length groups.old.items) else place_in (names_in groups.old.items) n)) }
    ensures groups { OnOk result (map stream_in groups.new.items ≡ with_record (map stream_in groups.old.items) item) }
{
    let shard = item.shard();
    let mut records = Vec::new(alloc);
    records.push(item)?;
    groups.push(Group { shard, records })?;
    Ok(())
}

/// Appends the next record of a shard, whose group is at the index.
fn push_record(groups: &mut Vec<Group>, at: usize, item: Record) -> Result<(), OutOfMemory>
    requires { place_in (names_in groups.old.items) item.shard ≡ Some at }
    ensures names { OnOk result (names_in groups.new.items ≡ names_in groups.old.items) }
    ensures groups { OnOk result (map stream_in groups.new.items ≡ with_record (map stream_in groups.old.items) item) }
{
    groups[at].records.push(item)?;
    Ok(())
}

/// The group that a record went to.
#[derive(Clone, Copy)]
struct Run {
    shard: u64,
    at: usize,
}

/// The index of the shard's group, if it has one; that of the last record's group is not looked up.
fn place_of(index: &BTreeMap<u64, usize>, last: Option<Run>, shard: u64) -> Option<usize>
    requires { IfSome last (λ (r : Run). get nat_cmp index.now r.shard ≡ Some r.at) }
    ensures { result ≡ get nat_cmp index.now shard }
{
    match last {
        Some(run) if run.shard == shard => Some(run.at),
        _ => index.get(&shard).copied(),
    }
}

/// Adds the next record of its shard. `index` has where each shard's group is, and `last` where the last record's is.
fn add(
    alloc: Global,
    groups: &mut Vec<Group>,
    index: &mut BTreeMap<u64, usize>,
    last: Option<Run>,
    item: Record,
) -> Result<Run, OutOfMemory>
    requires index { (n : ℕ) → get nat_cmp index.old n ≡ place_in (names_in groups.old.items) n }
    requires last { IfSome last (λ (r : Run). get nat_cmp index.old r.shard ≡ Some r.at) }
    ensures index { OnOk result ((n : ℕ) → get nat_cmp index.new n ≡ place_in (names_in groups.new.items) n) }
    ensures groups { OnOk result (map stream_in groups.new.items ≡ with_record (map stream_in groups.old.items) item) }
    ensures run { IfOk result (λ (r : Run). get nat_cmp index.new r.shard ≡ Some r.at) }
{
    let shard = item.shard();
    match place_of(index, last, shard) {
        Some(at) => {
            push_record(groups, at, item)?;
            Ok(Run { shard, at })
        }
        None => {
            let at = groups.len();
            index.insert(shard, at)?;
            push_group(alloc, groups, item)?;
            Ok(Run { shard, at })
        }
    }
}

/// Groups the records by shard, in the order in which the shards first appear. A group is looked up once for a run of
/// records of its shard.
pub fn grouped(alloc: Global, items: Vec<Record>) -> Result<Vec<Group>, OutOfMemory>
    ensures { IfOk result (λ groups. map stream_in groups.items ≡ with_records [] items.items) }
{
    let mut groups = Vec::new(alloc);
    let mut index = BTreeMap::new(alloc);
    let mut last = None;
    for item in items {
        let run = add(alloc, &mut groups, &mut index, last, item)?;
        last = Some(run);
    }
    Ok(groups)
}
