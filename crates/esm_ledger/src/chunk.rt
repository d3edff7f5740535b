// The slots of a chunk: sixteen places in a row that all came.
ghost use Rattle.std.specs.Prelude.{◌≡◌, ◌<◌, length, None, true, false, is_some, option_copied, slice_set, slice_index_or, vec_len, vec_capacity};
ghost use Rattle.std.specs.List.{count_by};
ghost use Rattle.esm_ledger.specs.Chunks.{none_held};

use esm_model::Record;
use std::marker::Model;

/// The number of places of a chunk. Few, so that records that are held far apart keep little memory besides their own;
/// enough that a chunk that holds none costs little for each of its places.
pub const CHUNK_PLACES: usize = 16;

/// The slots of a chunk's places, each with its record while that is held. Once no record is held the slots take no
/// memory.
#[derive(Drop)]
pub struct Chunk {
    slots: Vec<Option<Record>>,
    /// The number of records that are held.
    held: usize,
}

impl Model for Chunk {
    ghost use Rattle.std.specs.Prelude.{List, Option};
    ghost use Rattle.esm_model.specs.Records.{Record};
    ghost use Rattle.esm_ledger.specs.Chunks.{IsChunk, chunk_of};

    ghost Value = { List (Option Record) };

    ghost view = { λ c. chunk_of c.slots.items };

    ghost invariant = { λ c. IsChunk c.slots c.held };
}

/// The record in the slot, if one is held there.
pub fn held_in(slots: &[Option<Record>], at: usize) -> Option<&Record>
    ensures { option_copied result ≡ slice_index_or slots.now at None }
{
    match slots.get(at) {
        None => None,
        Some(slot) => slot.as_ref(),
    }
}

/// Whether a record is held in the slot.
fn is_held(slots: &[Option<Record>], at: usize) -> bool
    ensures { result ≡ is_some (slice_index_or slots.now at None) }
{
    match slots.get(at) {
        None => false,
        Some(slot) => slot.is_some(),
    }
}

/// Drops the record in the slot, if it holds one.
pub fn empty_slot(slots: &mut Vec<Option<Record>>, at: usize)
    ensures items { slots.new.items ≡ slice_set slots.old.items at None }
    ensures len { vec_len slots.new ≡ vec_len slots.old }
    ensures capacity { vec_capacity slots.new ≡ vec_capacity slots.old }
{
    if at < slots.len() {
        slots[at] = None;
    }
}

/// The number of slots that hold a record.
fn held_count(slots: &[Option<Record>]) -> usize
    ensures { result ≡ count_by is_some slots.now }
{
    let mut count = 0;
    for slot in slots {
        if slot.is_some() {
            count += 1;
        }
    }
    count
}

impl Chunk {
    /// The chunk with these slots.
    pub fn of(slots: Vec<Option<Record>>) -> Chunk
        requires { length slots.items ≡ CHUNK_PLACES }
        ensures { result ≡ slots.items }
    {
        let held = held_count(slots.as_slice());
        if held == 0 {
            let slots = Vec::new(*slots.allocator());
            Chunk { slots, held }
        } else {
            Chunk { slots, held }
        }
    }

    /// Whether it holds no record.
    pub fn is_empty(&self) -> bool
        ensures empty { result ≡ true → self.now ≡ none_held }
        ensures held { result ≡ false → 0 < count_by is_some self.now }
    {
        self.held == 0
    }

    /// The record in the slot, if one is held there.
    pub fn get(&self, at: usize) -> Option<&Record>
        ensures { option_copied result ≡ slice_index_or self.now at None }
    {
        held_in(self.slots.as_slice(), at)
    }

    /// Drops the record in the slot, if one is held there.
    pub fn let_go(&mut self, at: usize)
        ensures { self.new ≡ slice_set self.old at None }
    {
        if !is_held(self.slots.as_slice(), at) {
            return;
        }
        empty_slot(&mut self.slots, at);
        self.held -= 1;
        if self.held == 0 {
            self.slots = Vec::new(*self.slots.allocator());
        }
    }
}
