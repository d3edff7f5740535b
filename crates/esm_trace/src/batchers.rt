// Which batcher serves a lane of a run.
ghost use Rattle.std.specs.Prelude.{◌≡◌, ◌==◌, IfSome, OnOk};
ghost use Rattle.std.specs.List.{position_or_len};
ghost use Rattle.esm_model.specs.Entries.{shards_after};
ghost use Rattle.esm_trace.specs.InOrder.{number_in};

use esm_model::{Entry, LaneId, OutOfMemory};

/// How the batchers of a run are numbered.
#[derive(Clone, Copy, Debug, PartialEq, Eq)]
pub enum Batchers {
    /// The batchers of a stream whose shards have `factor` lanes each: shard after shard, in the order in which the shards
    /// arrived.
    OfStream { factor: u32 },
    /// The batchers of a queue: by the lane's number.
    OfQueue,
}

impl Batchers {
    /// Returns the number of the lane's batcher, if these shards arrived; `None` if it does not fit into a `usize`.
    pub(crate) fn number(self, shards: &[u64], lane: LaneId) -> Option<usize>
        ensures { IfSome result (λ k. k ≡ number_in self shards.now lane) }
    {
        match self {
            Batchers::OfStream { factor } => index_of(shards, lane.shard)
                .checked_mul(factor as usize)?
                .checked_add(lane.lane as usize),
            Batchers::OfQueue => Some(lane.lane as usize),
        }
    }
}

/// Returns the index of the shard among those that arrived, or how many these are if it is not among them. A run has few
/// shards.
fn index_of(shards: &[u64], shard: u64) -> usize
    ensures { result ≡ position_or_len (λ n. n == shard) shards.now }
{
    let mut index = 0;
    for found in shards {
        if *found == shard {
            return index;
        }
        index += 1;
    }
    index
}

/// Adds the shard of records that arrive, if it is new.
pub(crate) fn note_shard(shards: &mut Vec<u64>, entry: &Entry) -> Result<(), OutOfMemory>
    ensures { OnOk result (shards.new.items ≡ shards_after shards.old.items entry.now) }
{
    if let Entry::Came { shard, .. } = entry {
        if !shards.contains(shard) {
            shards.push(*shard)?;
        }
    }
    Ok(())
}
