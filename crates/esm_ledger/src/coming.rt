// Records that are about to come, with the tables of their shard if it is new.
use crate::arriving::Arriving;
use crate::shard::ShardLedger;

/// Records of one shard that are about to come, with all that is kept of them, and the new tables of the shard if no record
/// of it came before.
#[derive(Drop)]
pub struct Coming {
    pub shard: u64,
    pub fresh: Option<ShardLedger>,
    pub arriving: Arriving,
}
