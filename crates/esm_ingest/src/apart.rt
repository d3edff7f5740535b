// Puts records that stay into texts of their own, when at least half of a list's records go.
ghost use Rattle.std.specs.Prelude.{◌≡◌, ◌↔◌, ◌*◌, ◌<◌, ◌≤◌, All, IfOk, OnOk, IsTrue, length};
ghost use Rattle.esm_ingest.specs.Judged.{IsInRow};

use esm_model::{OutOfMemory, Record};
use std::alloc::Global;

/// Puts the record into a text of its own.
fn put_apart(alloc: Global, records: &mut Vec<Record>, at: usize) -> Result<(), OutOfMemory>
    requires { at < length records.old.items }
    ensures { OnOk result (records.new.items ≡ records.old.items) }
{
    let copy = records[at].apart(alloc)?;
    records[at] = copy;
    Ok(())
}

/// Whether at most half of the records stay.
fn do_few_stay(records: &Vec<Record>, staying: &[u32]) -> bool
    ensures { IsTrue result ↔ 2 * length staying.now ≤ length records.now.items }
{
    staying.len() <= records.len().saturating_sub(staying.len())
}

/// The same records, of which the first is at the place `first`, and those at the places `staying` are to stay. Where these
/// are at most half, each of them gets a text of its own, so that the texts that it shared are freed with the others.
pub fn with_own_texts(
    alloc: Global,
    records: Vec<Record>,
    first: u32,
    staying: &[u32],
) -> Result<Vec<Record>, OutOfMemory>
    requires { All (IsInRow first (length records.items)) staying.now }
    ensures { IfOk result (λ kept. kept.items ≡ records.items) }
{
    let mut kept = records;
    if !do_few_stay(&kept, staying) {
        return Ok(kept);
    }
    for place in staying {
        let at = *place - first;
        put_apart(alloc, &mut kept, at as usize)?;
    }
    Ok(kept)
}
