// The slots of a shard's places, in chunks that take no memory once none of their records is held.
ghost use Rattle.std.specs.Prelude.{◌≡◌, ◌+◌, ◌<◌, ◌≤◌, ◌++◌, ◌∷◌, [], None, length, option_copied, slice_set, slice_index_or, vec_len, vec_capacity, OnOk};
ghost use Rattle.std.specs.List.{All};
ghost use Rattle.esm_ledger.specs.Chunks.{HasMemory, room_in};

use crate::chunk::{CHUNK_PLACES, empty_slot, held_in};
use crate::chunks::Chunks;
use esm_model::{OutOfMemory, Record};
use std::alloc::Global;
use std::marker::Model;
use std::mem::replace;

/// The slots of a shard's places, each with its record while that is held.
#[derive(Drop)]
pub struct Slots {
    /// Those of whole chunks.
    full: Chunks,
    /// Those after them, at most a chunk's; their memory stays until a record comes to the next chunk.
    last: Vec<Option<Record>>,
    /// Memory for the next chunks.
    spare: Vec<Vec<Option<Record>>>,
}

impl Model for Slots {
    ghost use Rattle.std.specs.Prelude.{◌++◌, vec_len, vec_capacity};
    ghost use Rattle.esm_ledger.specs.Chunks.{Slotted, IsLast, room_in};

    ghost Value = { Slotted };

    ghost view = { λ s. record {
      places = s.full.places ++ s.last.items;
      room = room_in (vec_capacity s.last) (vec_len s.last) (vec_len s.spare) s.full.room;
    } };

    ghost invariant = { λ s. IsLast s.last s.spare };
}

/// Allocates memory for chunks, until there are `count`.
fn reserve_spare(
    alloc: Global,
    spare: &mut Vec<Vec<Option<Record>>>,
    count: usize,
) -> Result<(), OutOfMemory>
    requires memory { All HasMemory spare.old.items }
    ensures memory { All HasMemory spare.new.items }
    ensures more { vec_len spare.old ≤ vec_len spare.new }
    ensures ok { OnOk result (count ≤ vec_len spare.new) }
{
    for _ in spare.len()..count {
        let chunk = Vec::with_capacity(alloc, CHUNK_PLACES)?;
        spare.push(chunk)?;
    }
    Ok(())
}

/// Appends the last chunk, which is whole, to the full ones, and begins the next one in spare memory.
fn start_chunk(
    full: &mut Chunks,
    last: &mut Vec<Option<Record>>,
    spare: &mut Vec<Vec<Option<Record>>>,
)
    requires whole { length last.old.items ≡ CHUNK_PLACES }
    requires room { 0 < full.old.room }
    requires few { length full.old.places + CHUNK_PLACES ≤ usize.MAX }
    requires some { 0 < vec_len spare.old }
    requires memory { All HasMemory spare.old.items }
    ensures places { full.new.places ≡ full.old.places ++ last.old.items }
    ensures room { full.old.room ≤ full.new.room + 1 }
    ensures last { HasMemory last.new }
    ensures memory { All HasMemory spare.new.items }
    ensures spare { vec_len spare.new + 1 ≡ vec_len spare.old }
{
    match spare.pop() {
        None => unreachable!(),
        Some(next) => full.push(replace(last, next)),
    }
}

/// Makes sure that there is memory for a place in the last chunk; begins a new one if that is whole.
fn make_way(full: &mut Chunks, last: &mut Vec<Option<Record>>, spare: &mut Vec<Vec<Option<Record>>>)
    requires room { 0 < room_in (vec_capacity last.old) (vec_len last.old) (vec_len spare.old) full.old.room }
    requires few { length full.old.places + length last.old.items < usize.MAX }
    requires short { length last.old.items ≤ CHUNK_PLACES }
    requires memory { All HasMemory spare.old.items }
    requires first { 0 < vec_len spare.old → CHUNK_PLACES ≤ vec_capacity last.old }
    ensures first { 0 < vec_len spare.new → CHUNK_PLACES ≤ vec_capacity last.new }
    ensures places { full.new.places ++ last.new.items ≡ full.old.places ++ last.old.items }
    ensures way { vec_len last.new < vec_capacity last.new }
    ensures short { length last.new.items < CHUNK_PLACES }
    ensures memory { All HasMemory spare.new.items }
    ensures room { room_in (vec_capacity last.old) (vec_len last.old) (vec_len spare.old) full.old.room
        ≤ room_in (vec_capacity last.new) (vec_len last.new) (vec_len spare.new) full.new.room }
{
    if last.len() == CHUNK_PLACES {
        start_chunk(full, last, spare);
    }
}

impl Slots {
    /// No place came.
    pub fn new(alloc: Global) -> Slots
        ensures { result.places ≡ [] }
    {
        Slots {
            full: Chunks::new(alloc),
            last: Vec::new(alloc),
            spare: Vec::new(alloc),
        }
    }

    /// Reserves memory for `count` more places. After `OutOfMemory` nothing has changed that contracts see.
    pub fn reserve(&mut self, count: usize) -> Result<(), OutOfMemory>
        ensures places { self.new.places ≡ self.old.places }
        ensures room { self.old.room ≤ self.new.room }
        ensures ok { OnOk result (count ≤ self.new.room) }
    {
        let left = CHUNK_PLACES - self.last.len();
        self.last.reserve_exact(left)?;
        let chunks = count.saturating_sub(left).div_ceil(CHUNK_PLACES);
        self.full.reserve(chunks)?;
        reserve_spare(*self.last.allocator(), &mut self.spare, chunks)
    }

    /// Appends a place, with its record if that is held.
    pub fn push(&mut self, slot: Option<Record>)
        requires room { 0 < self.old.room }
        requires few { length self.old.places < usize.MAX }
        ensures places { self.new.places ≡ self.old.places ++ slot ∷ [] }
        ensures room { self.old.room ≤ self.new.room + 1 }
    {
        make_way(&mut self.full, &mut self.last, &mut self.spare);
        self.last.push_reserved(slot);
    }

    /// The record at the place, if it is held.
    pub fn get(&self, place: usize) -> Option<&Record>
        ensures { option_copied result ≡ slice_index_or self.now.places place None }
    {
        let full = self.full.len();
        if place < full {
            self.full.get(place)
        } else {
            held_in(self.last.as_slice(), place - full)
        }
    }

    /// Drops the record at the place, if it is held.
    pub fn let_go(&mut self, place: usize)
        ensures places { self.new.places ≡ slice_set self.old.places place None }
        ensures room { self.old.room ≤ self.new.room }
    {
        let full = self.full.len();
        if place < full {
            self.full.let_go(place);
        } else {
            empty_slot(&mut self.last, place - full);
        }
    }
}
