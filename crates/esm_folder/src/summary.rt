// What a journal says, in numbers.
ghost use Rattle.std.specs.Prelude.{◌≡◌, map, IfOk};
ghost use Rattle.std.specs.List.{All};
ghost use Rattle.esm_folder.specs.Shown.{IsShard, IsSummary, shard_of};

use esm_journal_state::Says;
use esm_model::OutOfMemory;
use std::alloc::Global;

/// What a journal says of a shard.
#[derive(Clone, Copy, Debug, PartialEq, Eq)]
pub struct ShardSummary {
    pub shard: u64,
    /// How many places have a fate.
    pub given: u32,
    /// The length of the longest prefix of places from 0 that all have one.
    pub frontier: u32,
}

/// What a journal says, in numbers.
#[derive(Drop, Debug)]
pub struct Summary {
    /// The shards that the journal names, by rising number.
    pub shards: Vec<ShardSummary>,
    /// How many messages of a queue were deleted.
    pub deleted: u32,
}

fn shard_summary(says: &Says, shard: u64) -> ShardSummary
    ensures shard { result.shard ≡ shard }
    ensures numbers { IsShard says.now result }
{
    ShardSummary {
        shard,
        given: says.count(shard),
        frontier: says.frontier(shard),
    }
}

fn shard_summaries(
    alloc: Global,
    says: &Says,
    shards: &[u64],
) -> Result<Vec<ShardSummary>, OutOfMemory>
    ensures shards { IfOk result (λ v. map shard_of v.items ≡ shards.now) }
    ensures numbers { IfOk result (λ v. All (IsShard says.now) v.items) }
{
    let mut summaries = Vec::new(alloc);
    for shard in shards {
        summaries.push(shard_summary(says, *shard))?;
    }
    Ok(summaries)
}

/// The numbers of what a journal says.
pub fn summary_of(alloc: Global, says: &Says) -> Result<Summary, OutOfMemory>
    ensures { IfOk result (IsSummary says.now) }
{
    Ok(Summary {
        shards: shard_summaries(alloc, says, says.shards())?,
        deleted: says.deletions(),
    })
}
