// What the next line of the input is judged by: the last sequence numbers, and the message ids seen before.
ghost use Rattle.std.specs.Prelude.{◌≡◌, ◌||◌, ℕ, List, [], IfOk};
ghost use Rattle.std.specs.Str.{bytes_eq};
ghost use Rattle.esm_record.specs.Gives.{Gives};
ghost use Rattle.esm_record.specs.Ids.{front_of, stood_in};
ghost use Rattle.esm_record.specs.Input.{as_new};
ghost use Rattle.esm_record.specs.Seen.{Follows};

use crate::error::{LineError, Refusal};
use crate::numbers::Numbers;
use esm_model::Message;
use std::alloc::Global;
use std::collections::BTreeSet;

/// What the next line is judged by: the last sequence number of each shard, and the message ids seen before.
#[derive(Drop)]
pub struct Seen {
    pub numbers: Numbers,
    /// Each id with its first eight bytes as a number, by which most ids are ordered.
    pub ids: BTreeSet<(u64, String)>,
}

impl Seen {
    /// What is known before the first line.
    pub fn new(alloc: Global) -> Seen
        ensures { Follows [] result }
    {
        Seen {
            numbers: Numbers::new(alloc),
            ids: BTreeSet::new(alloc),
        }
    }
}

/// The first eight bytes as a number.
fn front_of(id: &[u8]) -> u64
    ensures { result ≡ front_of id.now }
{
    let mut front: u64 = 0;
    for byte in &id[..id.len().min(8)] {
        front = front.wrapping_mul(256).wrapping_add(u64::from(*byte));
    }
    front
}

/// Adds the message's id to those seen, or refuses the message if its id is one of them.
pub fn as_new(
    alloc: Global,
    ids: &mut BTreeSet<(u64, String)>,
    given: Message,
) -> Result<Message, Refusal>
    ensures item { Gives result (as_new (stood_in ids.old given.id) given) }
    ensures kept { IfOk result (λ m. (id : List ℕ)
        → stood_in ids.new id ≡ (bytes_eq m.id id || stood_in ids.old id)) }
{
    let front = front_of(given.id.as_slice());
    let id = String::from_str(alloc, given.id.as_str())?;
    let Ok(added) = ids.insert((front, id)) else {
        return Err(Refusal::OutOfMemory);
    };
    if added {
        Ok(given)
    } else {
        Err(Refusal::Line(LineError::Repeated(given.id)))
    }
}
