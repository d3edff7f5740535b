// The open places of a lane, as one list with a moving start whose memory is reused.
ghost use Rattle.std.specs.Prelude.{◌≡◌, ◌+◌, ◌-◌, ◌<◌, ◌≤◌, [], ◌∷◌, ◌++◌, length, drop, OnOk, IsOk};

use std::alloc::{AllocError, Global};
use std::marker::Model;

/// The open places of a lane, in order: the items from `start` on. The items before `start` are no longer open; their memory
/// is reused once they are at least as many as the open ones.
#[derive(Drop, Debug)]
pub struct OpenPlaces {
    items: Vec<u32>,
    start: usize,
}

impl Model for OpenPlaces {
    ghost use Rattle.std.specs.Prelude.{◌-◌, ◌≤◌, drop, vec_len, vec_capacity};
    ghost use Rattle.esm_lanes.specs.Open.{Open};

    ghost Value = { Open };

    ghost view = { λ q. record { places = drop q.start q.items.items; spare = vec_capacity q.items - vec_len q.items } };

    ghost invariant = { λ q. q.start ≤ vec_len q.items };
}

impl OpenPlaces {
    pub fn new(alloc: Global) -> Self
        ensures { result.places ≡ [] }
    {
        OpenPlaces {
            items: Vec::new(alloc),
            start: 0,
        }
    }

    /// Reserves room for `count` more places.
    pub fn reserve(&mut self, count: usize) -> Result<(), AllocError>
        ensures places { self.new.places ≡ self.old.places }
        ensures ok { OnOk result (count ≤ self.new.spare) }
        ensures spare { self.old.spare ≤ self.new.spare }
        ensures succeeds { count ≤ self.old.spare → IsOk result }
    {
        self.items.reserve(count)
    }

    pub fn push_reserved(&mut self, place: u32)
        requires { 0 < self.old.spare }
        ensures places { self.new.places ≡ self.old.places ++ place ∷ [] }
        ensures spare { self.new.spare ≡ self.old.spare - 1 }
    {
        self.items.push_reserved(place);
    }

    /// Removes the first `count` places. Takes no memory.
    pub fn drop_first(&mut self, count: usize)
        requires { count ≤ length self.old.places }
        ensures places { self.new.places ≡ drop count self.old.places }
        ensures spare { self.old.spare ≤ self.new.spare }
    {
        self.start += count;
        if self.items.len() - self.start <= self.start {
            self.items.drain(..self.start);
            self.start = 0;
        }
    }

    pub fn as_slice(&self) -> &[u32]
        ensures { result.now ≡ self.now.places }
    {
        &self.items[self.start..]
    }

    pub fn len(&self) -> usize
        ensures { result ≡ length self.now.places }
    {
        self.items.len() - self.start
    }
}
