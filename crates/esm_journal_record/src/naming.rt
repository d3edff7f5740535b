// Writes a payload of records name by name: what precedes the names, and then each of them.
ghost use Rattle.std.specs.Prelude.{◌≡◌, ◌++◌, ℕ, List, length, IfOk, IfSome, OnOk};
ghost use Rattle.esm_journal_record.specs.declared.said.Said.TheVariants as said;
ghost use Rattle.esm_journal_record.specs.Payload.{payload_of, IsSaid, IsState, name_bytes, names_bytes};

use crate::kept_text::KeptText;
use crate::writing::{push_fates_front, push_name, push_replays, push_tried_front};
use esm_model::{Fate, OutOfMemory, Record, WindowState};
use std::alloc::Global;

/// Room for the fields in front of the names, in bytes, without a state.
const FRONT_ROOM: usize = 32;

/// Room for a place with a sequence number of Kinesis, in bytes.
const NAME_ROOM: usize = 64;

/// Begins a payload of fates. The names of `count` records have to follow, one `push_sequence` for each.
pub fn begin_fates(
    alloc: Global,
    shard: u64,
    fate: Fate,
    moment: u64,
    state: &Option<WindowState>,
    count: u32,
) -> Result<Vec<u8>, OutOfMemory>
    requires { IfSome state.now IsState }
    ensures { IfOk result (λ out. (places : List ℕ) (texts : List (List ℕ)) → length places ≡ count →
        out.items ++ names_bytes places texts ≡ payload_of (said.Fates shard fate moment state.now places texts)) }
{
    let room = FRONT_ROOM + NAME_ROOM * count as usize;
    let mut out = Vec::with_capacity(alloc, room)?;
    push_fates_front(&mut out, shard, fate, moment, state, count)?;
    Ok(out)
}

/// Begins a payload of failed tries. The names of `count` records have to follow, one `push_sequence` for each.
pub fn begin_tried(
    alloc: Global,
    shard: u64,
    moment: u64,
    tries: u32,
    count: u32,
) -> Result<Vec<u8>, OutOfMemory>
    ensures { IfOk result (λ out. (places : List ℕ) (texts : List (List ℕ)) → length places ≡ count →
        out.items ++ names_bytes places texts ≡ payload_of (said.Tried shard moment tries places texts)) }
{
    let room = FRONT_ROOM + NAME_ROOM * count as usize;
    let mut out = Vec::with_capacity(alloc, room)?;
    push_tried_front(&mut out, shard, moment, tries, count)?;
    Ok(out)
}

/// The payload that says that the records at the places, with these sequence numbers, were replayed.
pub fn replayed_bytes(
    alloc: Global,
    shard: u64,
    moment: u64,
    places: &[u32],
    numbers: &[KeptText],
) -> Result<Vec<u8>, OutOfMemory>
    requires { IsSaid (said.Replayed shard moment places.now numbers.now) }
    ensures { IfOk result (λ bytes. bytes.items ≡ payload_of (said.Replayed shard moment places.now numbers.now)) }
{
    let room = FRONT_ROOM + NAME_ROOM * (places.len() as u32) as usize;
    let mut out = Vec::with_capacity(alloc, room)?;
    push_replays(&mut out, shard, moment, places, numbers)?;
    Ok(out)
}

/// Appends the place of the next record and its sequence number.
pub fn push_sequence(out: &mut Vec<u8>, place: u32, item: &Record) -> Result<(), OutOfMemory>
    ensures { OnOk result (out.new.items ≡ out.old.items ++ name_bytes place item.now.seq) }
{
    push_name(out, place, item.seq())
}
