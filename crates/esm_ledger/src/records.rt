// The records of a shard that came: each is held until it gets a fate, and is then let go.
ghost use Rattle.std.specs.Prelude.{◌≡◌, ℕ, ◌+◌, ◌<◌, ◌≤◌, ◌==◌, ◌&&◌, ◌++◌, ◌∷◌, [], None, Some, true, false, is_none, if◌then◌else◌};
ghost use Rattle.std.specs.Prelude.{length, map, not, option_copied, slice_get, slice_index_or, OnOk};
ghost use Rattle.esm_model.specs.Entries.{holds};

use crate::slots::Slots;
use esm_model::{Fate, OutOfMemory, Record};
use std::alloc::Global;
use std::marker::Model;
use std::snapshot::Snapshot;

/// The records of a shard that came, in order. Those that were let go are seen by contracts alone.
#[derive(Drop)]
pub struct Records {
    /// All of them, as contracts see them.
    seen: Vec<Snapshot<Record>>,
    /// Those that are held.
    slots: Slots,
}

impl Model for Records {
    ghost use Rattle.std.specs.Prelude.{◌-◌, map, min, is_some, vec_len, vec_capacity};
    ghost use Rattle.esm_ledger.specs.Held.{Held};
    ghost use Rattle.esm_ledger.specs.Slots.{AreSlots, seen_in};

    ghost Value = { Held };

    ghost view = { λ r. record {
      items = seen_in r.seen.items;
      held = map is_some r.slots.places;
      room = min (vec_capacity r.seen - vec_len r.seen) r.slots.room;
    } };

    ghost invariant = { λ r. AreSlots (seen_in r.seen.items) r.slots.places };
}

/// What is held of a record that comes: nothing, if its fate was found.
fn slot_for(item: Record, found: Option<Fate>) -> Option<Record>
    ensures { result ≡ (if is_none found then Some item else None) }
{
    match found {
        None => Some(item),
        Some(_) => None,
    }
}

impl Records {
    /// No record came.
    pub fn new(alloc: Global) -> Records
        ensures items { result.items ≡ [] }
        ensures held { result.held ≡ [] }
    {
        Records {
            seen: Vec::new(alloc),
            slots: Slots::new(alloc),
        }
    }

    /// Reserves room for `count` more records. After `OutOfMemory` nothing has changed that contracts see.
    pub fn reserve(&mut self, count: usize) -> Result<(), OutOfMemory>
        ensures items { self.new.items ≡ self.old.items }
        ensures held { self.new.held ≡ self.old.held }
        ensures room { self.old.room ≤ self.new.room }
        ensures ok { OnOk result (count ≤ self.new.room) }
    {
        self.seen.reserve(count)?;
        self.slots.reserve(count)
    }

    /// Records came, within the room: each is held, except one with a found fate, which is let go at once.
    pub fn came(&mut self, records: Vec<Record>, fates: &[Option<Fate>])
        requires even { length fates.now ≡ length records.items }
        requires room { length records.items ≤ self.old.room }
        ensures items { self.new.items ≡ self.old.items ++ records.items }
        ensures held { self.new.held ≡ self.old.held ++ map is_none fates.now }
    {
        let mut at = 0;
        for item in records {
            self.came_one(item, fates[at]);
            at += 1;
        }
    }

    fn came_one(&mut self, item: Record, found: Option<Fate>)
        requires room { 0 < self.old.room }
        ensures items { self.new.items ≡ self.old.items ++ item ∷ [] }
        ensures held { self.new.held ≡ self.old.held ++ is_none found ∷ [] }
        ensures room { self.old.room ≤ self.new.room + 1 }
    {
        self.seen.push_reserved(Snapshot::of(&item));
        self.slots.push(slot_for(item, found));
    }

    /// Lets the records at the places go.
    pub fn let_go(&mut self, places: &[u32])
        ensures items { self.new.items ≡ self.old.items }
        ensures len { length self.new.held ≡ length self.old.held }
        ensures held { (i : ℕ) → slice_index_or self.new.held i false ≡ (slice_index_or self.old.held i false && not (holds places.now i)) }
        ensures room { self.old.room ≤ self.new.room }
    {
        for place in places {
            self.let_one_go(*place);
        }
    }

    fn let_one_go(&mut self, place: u32)
        ensures items { self.new.items ≡ self.old.items }
        ensures len { length self.new.held ≡ length self.old.held }
        ensures held { (i : ℕ) → slice_index_or self.new.held i false ≡ (slice_index_or self.old.held i false && not (place == i)) }
        ensures room { self.old.room ≤ self.new.room }
    {
        self.slots.let_go(place as usize);
    }

    /// The record at the place, if it came; it then has to be held.
    pub fn get(&self, place: u32) -> Option<&Record>
        requires { place < length self.now.items → slice_index_or self.now.held place false ≡ true }
        ensures { option_copied result ≡ slice_get self.now.items place }
    {
        self.slots.get(place as usize)
    }
}
