// Finds a message group of a queue by its name, in buckets of the groups' first messages.
ghost use Rattle.std.specs.Prelude.{◌≡◌, ℕ, ◌<◌, ◌≤◌, true, false, length};
ghost use Rattle.esm_queue_model.specs.Queue.{is_group};
ghost use Rattle.esm_queue.specs.declared.links.TheConstants.{NONE};
ghost use Rattle.esm_queue.specs.Links.{group_at, founder_at, IsFounded};
ghost use Rattle.esm_queue.specs.Names.{hash_of, bucket_of, IsChained};

use crate::links::{Link, NONE};
use esm_model::Text;
use esm_queue_model::Stored;

/// A hash of the bytes, below 2^32.
fn hash_of(name: &[u8]) -> u64
    ensures { result ≡ hash_of name.now }
{
    let mut hash = 0;
    for byte in name {
        hash = (hash * 257 + u64::from(*byte) + 1) % 4_294_967_291;
    }
    hash
}

/// In which of `count` buckets founders with the group's name are.
pub fn bucket_of(group: &Option<Text>, count: usize) -> usize
    requires { 0 < count }
    ensures result { result ≡ bucket_of count group.now }
    ensures within { result < count }
{
    match group {
        None => 0,
        Some(name) => hash_of(name.as_str().as_bytes()) as usize % count,
    }
}

/// Whether the message is of the group.
fn is_of(stored: &Stored, group: &Option<Text>) -> bool
    ensures { result ≡ is_group stored.now.message.group group.now }
{
    match (&stored.message.group, group) {
        (Some(name), Some(other)) => name.as_str() == other.as_str(),
        _ => false,
    }
}

/// The founder of the group, `NONE` if no message has its name.
pub fn founder_of(links: &[Link], buckets: &[u32], messages: &[Stored], group: &Option<Text>) -> u32
    requires founded { IsFounded true messages.now links.now }
    requires chained { IsChained (length buckets.now) messages.now links.now buckets.now }
    requires few { length messages.now ≤ NONE }
    ensures found { (result ≡ NONE → ⊥) → (result < length messages.now) × (founder_at links.now result ≡ result)
        × (is_group (group_at messages.now result) group.now ≡ true) }
    ensures none { result ≡ NONE → (i : ℕ) → i < length messages.now → is_group (group_at messages.now i) group.now ≡ false }
{
    let mut at = buckets[bucket_of(group, buckets.len())];
    while at != NONE {
        if is_of(&messages[at as usize], group) {
            return at;
        }
        at = links[at as usize].earlier;
    }
    NONE
}
