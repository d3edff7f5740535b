//! Reserves memory for records of a shard that are about to come.
ghost use Rattle.std.specs.Prelude.{◌≡◌, ℕ, ◌+◌, ◌<◌, ◌≤◌, true, [], ◌∷◌, Some, length, slice_index_or, vec_len, vec_capacity, IfOk, OnOk};
ghost use Rattle.esm_model.specs.Entries.{holds};
ghost use Rattle.esm_shard_index.specs.LaneView.{lane_in};
ghost use Rattle.esm_shard_index.specs.WindowEntries.{has_entry};
ghost use Rattle.esm_shard_index.specs.Windows.{open_in};
ghost use Rattle.esm_ledger.specs.Arriving.{landing_count};

use crate::arriving::{Arriving, Landing};
use crate::measure::Measure;
use crate::records::Records;
use esm_model::OutOfMemory;
use esm_shard_index::{Arrivals, Callings, LaneTable, Progress, Windows};
use std::alloc::Global;

/// Reserves memory for the records and their measures. After `OutOfMemory` nothing has changed that contracts see.
pub fn reserve_records(
    records: &mut Records,
    measures: &mut Vec<Measure>,
    arriving: &Arriving,
) -> Result<(), OutOfMemory>
    ensures records { records.new.items ≡ records.old.items }
    ensures measures { measures.new.items ≡ measures.old.items }
    ensures held { records.new.held ≡ records.old.held }
    ensures records_room { records.old.room ≤ records.new.room }
    ensures records_ok { OnOk result (length arriving.now.records.items ≤ records.new.room) }
    ensures measures_ok { OnOk result (vec_len measures.new + vec_len arriving.now.measures ≤ vec_capacity measures.new) }
{
    records.reserve(arriving.records.len())?;
    measures.reserve(arriving.measures.len())?;
    Ok(())
}

/// Reserves memory for the records in the tables. After `OutOfMemory` nothing has changed that contracts see.
pub fn reserve_tables(
    progress: &mut Progress,
    arrivals: &mut Arrivals,
    callings: &mut Callings,
    windows: &mut Windows,
    arriving: &Arriving,
) -> Result<(), OutOfMemory>
    ensures fated { progress.new.fated ≡ progress.old.fated }
    ensures counts { progress.new.counts ≡ progress.old.counts }
    ensures runs { arrivals.new.runs ≡ arrivals.old.runs }
    ensures came { arrivals.new.came ≡ arrivals.old.came }
    ensures calls { callings.new.records ≡ callings.old.records }
    ensures opened { (w : ℕ) → open_in windows.new w ≡ open_in windows.old w }
    ensures states { windows.new.states ≡ windows.old.states }
    ensures tries { windows.new.tries ≡ windows.old.tries }
    ensures last { windows.new.last ≡ windows.old.last }
    ensures progress_ok { OnOk result (length arriving.now.fates.items ≤ progress.new.room) }
    ensures arrivals_ok { OnOk result (0 < arrivals.new.room) }
    ensures callings_ok { OnOk result (length arriving.now.records.items ≤ callings.new.room) }
    ensures windows_ok { OnOk result ((w : ℕ) → holds arriving.now.windows.items w ≡ true → has_entry windows.new.opened w ≡ true) }
{
    progress.reserve(arriving.fates.len())?;
    arrivals.reserve(1)?;
    callings.reserve(arriving.records.len())?;
    windows.prepare_open(arriving.windows.as_slice())
}

/// Counts one more record for its lane, if that is one of those that are counted.
fn count_landing(counts: &mut [u32], landing: Landing)
    requires { (k : ℕ) → k < length counts.old → slice_index_or counts.old k 0 < u32.MAX }
    ensures size { length counts.new ≡ length counts.old }
    ensures each { (k : ℕ) → k < length counts.old → slice_index_or counts.new k 0 ≡ slice_index_or counts.old k 0 + landing_count k (Some landing ∷ []) }
{
    let at = landing.lane as usize;
    if at >= counts.len() {
        return;
    }
    counts[at] += 1;
}

/// Counts one more record, which goes to a lane or to none.
fn count_record(counts: &mut [u32], landing: Option<Landing>)
    requires { (k : ℕ) → k < length counts.old → slice_index_or counts.old k 0 < u32.MAX }
    ensures size { length counts.new ≡ length counts.old }
    ensures each { (k : ℕ) → k < length counts.old → slice_index_or counts.new k 0 ≡ slice_index_or counts.old k 0 + landing_count k (landing ∷ []) }
{
    match landing {
        None => {}
        Some(landing) => count_landing(counts, landing),
    }
}

/// How many of the records go to each of `lanes` lanes.
fn count_landings(
    alloc: Global,
    lanes: u32,
    landings: &[Option<Landing>],
) -> Result<Vec<u32>, OutOfMemory>
    requires { length landings.now ≤ u32.MAX }
    ensures size { IfOk result (λ counts. length counts.items ≡ lanes) }
    ensures each { IfOk result (λ counts. (k : ℕ) → k < lanes → slice_index_or counts.items k 0 ≡ landing_count k landings.now) }
{
    let mut counts = vec![in alloc; 0; lanes as usize]?;
    for landing in landings {
        count_record(counts.as_mut_slice(), *landing);
    }
    Ok(counts)
}

/// Reserves memory for the records in each lane. After `OutOfMemory` nothing has changed that contracts see.
pub fn reserve_lanes(
    lanes: &mut LaneTable,
    alloc: Global,
    count: u32,
    landings: &[Option<Landing>],
) -> Result<(), OutOfMemory>
    requires all { count ≡ length lanes.old.lanes }
    requires few { length landings.now ≤ u32.MAX }
    ensures lanes { length lanes.new.lanes ≡ length lanes.old.lanes }
    ensures pieces { (k : ℕ) → (lane_in lanes.new k).kept.pieces ≡ (lane_in lanes.old k).kept.pieces }
    ensures states { (k : ℕ) → (lane_in lanes.new k).state ≡ (lane_in lanes.old k).state }
    ensures splits { (k : ℕ) → (lane_in lanes.old k).kept.splits ≤ (lane_in lanes.new k).kept.splits }
    ensures ok { OnOk result ((k : ℕ) → k < length lanes.old.lanes → landing_count k landings.now ≤ (lane_in lanes.new k).kept.adds) }
{
    let counts = count_landings(alloc, count, landings)?;
    for lane in 0..count {
        lanes.reserve(alloc, lane, counts[lane as usize], 0)?;
    }
    Ok(())
}
