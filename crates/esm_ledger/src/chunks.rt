// The slots of a shard's places in whole chunks.
ghost use Rattle.std.specs.Prelude.{◌≡◌, ◌+◌, ◌*◌, ◌<◌, ◌≤◌, ◌++◌, ◌∷◌, [], None, true, false, length, option_copied, slice_set, slice_index_or, drop, OnOk};
ghost use Rattle.std.specs.List.{All};
ghost use Rattle.std.specs.VecDeque.{deque_len, deque_capacity};
ghost use Rattle.esm_ledger.specs.Chunks.{IsWhole, IsTrimmed, none_held, places_in};

use crate::chunk::{CHUNK_PLACES, Chunk};
use esm_model::{OutOfMemory, Record};
use std::alloc::Global;
use std::collections::VecDeque;
use std::marker::Model;

/// The slots of a shard's first places, in whole chunks. A chunk that holds no record takes no memory but its own few words,
/// and not even these if no chunk before it holds one.
#[derive(Drop)]
pub struct Chunks {
    /// The place of the first chunk.
    base: usize,
    chunks: VecDeque<Chunk>,
}

impl Model for Chunks {
    ghost use Rattle.std.specs.Prelude.{◌-◌};
    ghost use Rattle.std.specs.VecDeque.{deque_len, deque_capacity};
    ghost use Rattle.esm_ledger.specs.Chunks.{Slotted, AreChunks, places_in};

    ghost Value = { Slotted };

    ghost view = { λ c. record { places = places_in c.base c.chunks.items; room = deque_capacity c.chunks - deque_len c.chunks } };

    ghost invariant = { λ c. AreChunks c.base c.chunks.items };
}

/// Whether the first chunk is empty.
fn is_front_empty(chunks: &VecDeque<Chunk>) -> bool
    ensures empty { result ≡ true → chunks.now.items ≡ none_held ∷ drop 1 chunks.now.items }
    ensures full { result ≡ false → IsTrimmed chunks.now.items }
{
    match chunks.front() {
        None => false,
        Some(chunk) => chunk.is_empty(),
    }
}

/// Removes the empty chunks in front. `base` is the place of the first chunk.
fn trim(base: &mut usize, chunks: &mut VecDeque<Chunk>)
    requires few { base.old + CHUNK_PLACES * length chunks.old.items ≤ usize.MAX }
    requires whole { All IsWhole chunks.old.items }
    ensures few { base.new + CHUNK_PLACES * length chunks.new.items ≤ usize.MAX }
    ensures whole { All IsWhole chunks.new.items }
    ensures places { places_in base.new chunks.new.items ≡ places_in base.old chunks.old.items }
    ensures front { IsTrimmed chunks.new.items }
    ensures len { deque_len chunks.new ≤ deque_len chunks.old }
    ensures capacity { deque_capacity chunks.new ≡ deque_capacity chunks.old }
{
    while is_front_empty(chunks) {
        let _ = chunks.pop_front();
        *base += CHUNK_PLACES;
    }
}

impl Chunks {
    /// No place came.
    pub fn new(alloc: Global) -> Chunks
        ensures { result.places ≡ [] }
    {
        Chunks {
            base: 0,
            chunks: VecDeque::new(alloc),
        }
    }

    /// The number of places.
    pub fn len(&self) -> usize
        ensures { result ≡ length self.now.places }
    {
        self.base + CHUNK_PLACES * self.chunks.len()
    }

    /// Reserves room for `count` more chunks.
    pub fn reserve(&mut self, count: usize) -> Result<(), OutOfMemory>
        ensures places { self.new.places ≡ self.old.places }
        ensures room { self.old.room ≤ self.new.room }
        ensures ok { OnOk result (count ≤ self.new.room) }
    {
        self.chunks.reserve(count)?;
        Ok(())
    }

    /// Appends a chunk with these slots.
    pub fn push(&mut self, slots: Vec<Option<Record>>)
        requires whole { length slots.items ≡ CHUNK_PLACES }
        requires room { 0 < self.old.room }
        requires few { length self.old.places + CHUNK_PLACES ≤ usize.MAX }
        ensures places { self.new.places ≡ self.old.places ++ slots.items }
        ensures room { self.old.room ≤ self.new.room + 1 }
    {
        self.chunks.push_back_reserved(Chunk::of(slots));
        trim(&mut self.base, &mut self.chunks);
    }

    /// The record at the place, if it is held.
    pub fn get(&self, place: usize) -> Option<&Record>
        ensures { option_copied result ≡ slice_index_or self.now.places place None }
    {
        if place < self.base {
            return None;
        }
        let at = place - self.base;
        match self.chunks.get(at / CHUNK_PLACES) {
            None => None,
            Some(chunk) => chunk.get(at % CHUNK_PLACES),
        }
    }

    /// Drops the record at the place, if it is held.
    pub fn let_go(&mut self, place: usize)
        ensures places { self.new.places ≡ slice_set self.old.places place None }
        ensures room { self.old.room ≤ self.new.room }
    {
        if place < self.base {
            return;
        }
        let at = place - self.base;
        let chunk = at / CHUNK_PLACES;
        if chunk < self.chunks.len() {
            self.chunks[chunk].let_go(at % CHUNK_PLACES);
            trim(&mut self.base, &mut self.chunks);
        }
    }
}
