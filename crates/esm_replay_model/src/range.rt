// What a failure line names: a shard and a range of its sequence numbers.
use esm_model::Seq;

/// The records that a failure line names: those of the shard whose sequence numbers are from `first` to `last`, both
/// included.
#[derive(Drop, Debug)]
pub struct Range {
    pub shard: u64,
    pub first: Seq,
    pub last: Seq,
}
