// The lanes of a shard, and which lane a partition key belongs to.
ghost use Rattle.std.specs.Prelude.{◌≡◌, ◌≤◌, ◌<◌, ℕ, List};
ghost use Rattle.esm_model.specs.Lane as spec;

use md5::{Digest, Md5};

/// The least common multiple of all numbers of lanes, 1 to 10: an MD5 modulo it determines the lane for each factor.
pub(crate) const LANES_MULTIPLE: u128 = 2_520;

/// A lane of a shard. A shard has `ParallelizationFactor` lanes, counted from 0, and each runs one batch at a time.
#[derive(Clone, Copy, Debug, PartialEq, Eq)]
pub struct LaneId {
    pub shard: u64,
    pub lane: u32,
}

/// The lane of the partition key, a number below the factor: the key's MD5 modulo the factor. With one lane no MD5 is
/// computed.
pub fn lane_of(key: &[u8], factor: u32) -> u32
    requires some { 1 ≤ factor }
    requires most { factor ≤ 10 }
    ensures value { result ≡ spec.lane_of key.now factor }
    ensures below { result < factor }
{
    if factor == 1 {
        return 0;
    }
    let digest = Md5::digest(key);
    (u128::from_be_bytes(digest) % factor as u128) as u32
}

/// The MD5 of the key as a number, modulo `LANES_MULTIPLE`; `lane_by` takes it.
pub(crate) fn mixed(key: &[u8]) -> u16
    ensures { result ≡ spec.lane_of key.now LANES_MULTIPLE }
{
    (u128::from_be_bytes(Md5::digest(key)) % LANES_MULTIPLE) as u16
}

/// The lane of a key whose `mixed` is this, a number below the factor.
#[tactic(auto, using(crate::proofs::LaneFacts::lane_mixed))]
pub(crate) fn lane_by(mixed: u16, factor: u32) -> u32
    requires some { 1 ≤ factor }
    requires most { factor ≤ 10 }
    ensures value { (key : List ℕ) → mixed ≡ spec.lane_of key LANES_MULTIPLE → result ≡ spec.lane_of key factor }
    ensures below { result < factor }
{
    mixed as u32 % factor
}
