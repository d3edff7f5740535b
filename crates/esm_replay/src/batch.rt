// The records of the next call: the longest prefix of a piece that is within the limits of a batch and of an event.
ghost use Rattle.std.specs.Prelude.{◌≡◌, ℕ, ◌≤◌, [], All, IfOk, length, take};
ghost use Rattle.esm_model.specs.Batches.{longest};
ghost use Rattle.esm_model.specs.Valid.{IsValidRecord, IsStreamConfig};
ghost use Rattle.esm_replay_model.specs.ReplaySetting.{ReplaySetting};
ghost use Rattle.esm_replay.specs.Rows.{places_of};
ghost use Rattle.esm_replay.specs.Batch.{fits_for, IsPlacedIn, IsBatchOf, IsAmong, AreWithin};

use crate::batch_records::{BatchRecords, gather, record_named};
use crate::rows::Named;
use esm_event::stream_bytes;
use esm_model::{Config, MAX_EVENT, OutOfMemory, Places, Record};
use std::alloc::{AllocError, Global};

/// The length in bytes of an event without records: `{"Records":[` and `]}`.
const FRAME_BYTES: u64 = 14;

/// The next call: its shard, and its records with their places.
#[derive(Drop, Debug)]
pub struct Batch {
    pub shard: u64,
    pub places: Places,
    pub records: BatchRecords,
}

/// How many of the named records the next call takes, from the first on: at most the batch size, with an event of at most
/// 6,291,456 bytes, but always one if there is one. Takes no memory.
pub(crate) fn call_length(config: &Config, records: &[Record], named: &[Named]) -> usize
    requires config { IsStreamConfig config.now }
    requires valid { All IsValidRecord records.now }
    requires stand { AreWithin (length records.now) named.now }
    ensures within { result ≤ length named.now }
    ensures some { 1 ≤ length named.now → 1 ≤ result }
    ensures longest { (s : ReplaySetting) (n : ℕ) → IsPlacedIn s config.now records.now n named.now
        → take result (places_of named.now) ≡ longest (fits_for s n) [] (places_of named.now) }
{
    let full = config.batch_size as usize;
    let mut bytes = FRAME_BYTES;
    for i in 0..named.len() {
        if i >= full {
            return i;
        }
        let item = record_named(records, named, i);
        let more = bytes + stream_bytes(config, item) as u64;
        let event = more + i as u64;
        if event > MAX_EVENT as u64 {
            return i;
        }
        bytes = more;
    }
    named.len()
}

/// The places of the named records.
fn places_in(alloc: Global, named: &[Named]) -> Result<Vec<u32>, AllocError>
    ensures { IfOk result (λ places. places.items ≡ places_of named.now) }
{
    named.iter().map(|one| one.place).collect(alloc)
}

/// The next call of a piece with these named records of the shard.
pub(crate) fn batch_of(
    alloc: Global,
    config: &Config,
    records: &[Record],
    shard: u64,
    named: &[Named],
) -> Result<Batch, OutOfMemory>
    requires config { IsStreamConfig config.now }
    requires valid { All IsValidRecord records.now }
    requires stand { AreWithin (length records.now) named.now }
    requires some { 1 ≤ length named.now }
    ensures call { IfOk result (λ batch. (s : ReplaySetting) → IsPlacedIn s config.now records.now shard named.now → IsBatchOf s records.now shard named.now batch) }
    ensures among { IfOk result (IsAmong (length records.now)) }
{
    let count = call_length(config, records, named);
    let front = &named[..count];
    let gathered = gather(alloc, records, front)?;
    let places = places_in(alloc, front)?;
    Ok(Batch {
        shard,
        places: Places::from_vec(places),
        records: gathered,
    })
}
