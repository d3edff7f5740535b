// The records of a call: their positions among the records that arrived, or copies of them.
ghost use Rattle.std.specs.Prelude.{◌≡◌, ◌+◌, ◌<◌, ◌≤◌, map, IfOk, IfSome, Some, length, option_copied};
ghost use Rattle.esm_model.specs.Records.{Record};
ghost use Rattle.esm_replay.specs.Batch.{record_named, records_named, records_in, AreWithin, IsRowWithin, StandInRow};

use crate::rows::Named;
use esm_journal_record::{GatheredTexts, KeptTexts};
use esm_model::{OutOfMemory, Record};
use std::alloc::Global;

/// The records of a call, taken from the records that arrived.
#[derive(Drop, Debug)]
pub enum BatchRecords {
    /// They follow each other there, from this position on.
    InRow(u32),
    /// Copies of them.
    Copied(Vec<Record>),
}

/// The record that the named one at this index stands for, if it is among those that arrived.
fn found_named<'a>(records: &'a [Record], named: &[Named], i: usize) -> Option<&'a Record>
    ensures { option_copied result ≡ record_named records.entry.now named.now i }
{
    let one = named.get(i)?;
    records.get(one.at as usize)
}

/// The same, where each named record is among those that arrived.
pub(crate) fn record_named<'a>(records: &'a [Record], named: &[Named], i: usize) -> &'a Record
    requires within { i < length named.now }
    requires stand { AreWithin (length records.now) named.now }
    ensures { record_named records.entry.now named.now i ≡ Some result.now }
{
    match found_named(records, named, i) {
        None => unreachable!(),
        Some(item) => item,
    }
}

/// The position of the first named record, if the named records follow each other among those that arrived.
fn row_start(named: &[Named]) -> Option<u32>
    ensures row { IfSome result (λ first. StandInRow first named.now) }
    ensures some { IfSome result (λ first. 1 ≤ length named.now) }
{
    let first = named.first()?.at;
    for i in 0..named.len() {
        if named[i].at as u64 != first as u64 + i as u64 {
            return None;
        }
    }
    Some(first)
}

/// Copies of the named records.
fn copies(alloc: Global, records: &[Record], named: &[Named]) -> Result<Vec<Record>, OutOfMemory>
    requires { AreWithin (length records.now) named.now }
    ensures { IfOk result (λ copies. copies.items ≡ records_named records.now named.now) }
{
    let mut copies = Vec::with_capacity(alloc, named.len())?;
    for i in 0..named.len() {
        let copy = record_named(records, named, i).copy()?;
        copies.push(copy)?;
    }
    Ok(copies)
}

/// The named records; they are copied only if they do not follow each other.
pub(crate) fn gather(
    alloc: Global,
    records: &[Record],
    named: &[Named],
) -> Result<BatchRecords, OutOfMemory>
    requires { AreWithin (length records.now) named.now }
    ensures records { IfOk result (λ gathered. records_in records.now (length named.now) gathered ≡ records_named records.now named.now) }
    ensures within { IfOk result (IsRowWithin (length records.now) (length named.now)) }
{
    match row_start(named) {
        Some(first) => Ok(BatchRecords::InRow(first)),
        None => {
            let copied = copies(alloc, records, named)?;
            Ok(BatchRecords::Copied(copied))
        }
    }
}

/// For how many bytes of a sequence number room is made: those of Kinesis have 56.
const NUMBER_ROOM: usize = 56;

/// Returns copies of the sequence numbers of the records, in one text.
pub fn names_of(alloc: Global, records: &[Record]) -> Result<KeptTexts, OutOfMemory>
    ensures { IfOk result (λ names. names ≡ map (λ (r : Record). r.seq) records.now) }
{
    let room = records.len().saturating_mul(NUMBER_ROOM);
    let mut names = GatheredTexts::new(alloc, records.len(), room)?;
    for item in records {
        names = names.with_sequence(item)?;
    }
    names.into_texts(alloc)
}

/// Copies of the records that share their texts.
fn shares_of(alloc: Global, records: &[Record]) -> Result<Vec<Record>, OutOfMemory>
    ensures { IfOk result (λ shares. shares.items ≡ records.now) }
{
    let mut shares = Vec::with_capacity(alloc, records.len())?;
    for item in records {
        let share = item.copy()?;
        shares.push(share)?;
    }
    Ok(shares)
}

fn row_of(records: &[Record], first: u32, count: usize) -> &[Record]
    requires { first + count ≤ length records.now }
    ensures { result.now ≡ records_in records.entry.now count (BatchRecords.InRow first) }
{
    let first = first as usize;
    &records[first..first + count]
}

impl BatchRecords {
    /// Returns the `count` records, taken from those that arrived, as copies that share their texts.
    pub fn into_records(
        self,
        alloc: Global,
        came: &[Record],
        count: usize,
    ) -> Result<Vec<Record>, OutOfMemory>
        requires { IsRowWithin (length came.now) count self }
        ensures { IfOk result (λ records. records.items ≡ records_in came.now count self) }
    {
        match self {
            BatchRecords::InRow(first) => shares_of(alloc, row_of(came, first, count)),
            BatchRecords::Copied(copies) => Ok(copies),
        }
    }
}
