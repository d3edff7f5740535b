//! The fates that a history gave to the places of one shard, or to the messages of a queue.
ghost use Rattle.std.specs.Prelude.{◌≡◌, ℕ, ◌<◌, ◌^◌, ◌==◌, [], Some, None, length, get_or, OnOk, if◌then◌else◌};
ghost use Rattle.std.specs.Option.{option_or};
ghost use Rattle.esm_model.specs.Entries.{holds};
ghost use Rattle.esm_model.specs.Fates.{is_fate};

use esm_model::{Fate, OutOfMemory, Places};
use std::alloc::Global;
use std::marker::Model;

/// Fates by place, seen by contracts as a list; a place past its end has none.
#[derive(Drop)]
pub struct Fates {
    fates: Vec<Option<Fate>>,
}

impl Model for Fates {
    ghost use Rattle.std.specs.Prelude.{List, Option};
    ghost use Rattle.esm_model.specs.declared.entry.Fate.{Fate};

    ghost Value = { List (Option Fate) };

    ghost view = { λ f. f.fates.items };
}

impl Fates {
    /// Makes a list in which no place has a fate.
    pub fn new(alloc: Global) -> Self
        ensures { result ≡ [] }
    {
        Fates {
            fates: Vec::new(alloc),
        }
    }

    /// Gives this fate to each of the places that has none. After an `Err` only some may have it.
    pub fn give_all(&mut self, places: &Places, fate: Fate) -> Result<(), OutOfMemory>
        ensures { OnOk result ((i : ℕ) → get_or self.new i None
            ≡ option_or (get_or self.old i None) (if holds places.now i then Some fate else None)) }
    {
        for place in places.as_slice() {
            self.give(*place, fate)?;
        }
        Ok(())
    }

    fn give(&mut self, place: u32, fate: Fate) -> Result<(), OutOfMemory>
        ensures { OnOk result ((i : ℕ) → get_or self.new i None
            ≡ option_or (get_or self.old i None) (if place == i then Some fate else None)) }
    {
        let index = place as usize;
        self.reach(index)?;
        if self.fates[index].is_none() {
            self.fates[index] = Some(fate);
        }
        Ok(())
    }

    fn reach(&mut self, index: usize) -> Result<(), OutOfMemory>
        requires { index < 2 ^ 32 }
        ensures same { OnOk result ((i : ℕ) → get_or self.new i None ≡ get_or self.old i None) }
        ensures long { OnOk result (index < length self.new) }
    {
        if self.fates.len() <= index {
            self.fates.resize(index + 1, None)?;
        }
        Ok(())
    }

    /// Returns the fate of the place, if it has one.
    pub fn get(&self, place: u32) -> Option<Fate>
        ensures { result ≡ get_or self.now place None }
    {
        match self.fates.get(place as usize) {
            None => None,
            Some(fate) => *fate,
        }
    }
}

/// Whether a place was given exactly this fate.
pub fn is_fate(fate: Fate, given: Option<Fate>) -> bool
    ensures { result ≡ is_fate fate given }
{
    match (fate, given) {
        (Fate::Succeeded, Some(Fate::Succeeded)) => true,
        (Fate::Filtered, Some(Fate::Filtered)) => true,
        (Fate::Expired, Some(Fate::Expired)) => true,
        (Fate::Exhausted, Some(Fate::Exhausted)) => true,
        _ => false,
    }
}
