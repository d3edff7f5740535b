// Which records of a shard have which fate, how many have each, and the shard's checkpoint.
ghost use Rattle.std.specs.Prelude.{◌≡◌, ℕ, ◌+◌, ◌<◌, ◌≤◌, ◌==◌, ◌||◌, true, false, [], ◌∷◌, ◌++◌, length, map, filter, is_some};
ghost use Rattle.std.specs.Prelude.{slice_index_or, OnOk, IsOk, Option};
ghost use Rattle.esm_model.specs.declared.entry.Fate.{Fate};
ghost use Rattle.esm_model.specs.Entries.{holds};
ghost use Rattle.esm_model.specs.Fates.{same_fate, is_fate};
ghost use Rattle.esm_shard_index.specs.FateCounts.{count_in, total, with_one, counted};
ghost use Rattle.esm_shard_index.specs.Progress.{front_of, past_of, number_of};

use esm_model::{Fate, OutOfMemory};
use std::alloc::Global;
use std::marker::Model;

/// How many records have each fate.
#[derive(Clone, Copy, Debug)]
pub struct FateCounts {
    pub succeeded: u32,
    pub filtered: u32,
    pub expired: u32,
    pub exhausted: u32,
}

impl FateCounts {
    pub fn none() -> FateCounts
        ensures { (f : Fate) → count_in result f ≡ 0 }
    {
        FateCounts {
            succeeded: 0,
            filtered: 0,
            expired: 0,
            exhausted: 0,
        }
    }

    /// The number of records with this fate.
    pub fn of(self, fate: Fate) -> u32
        ensures { result ≡ count_in self fate }
    {
        match fate {
            Fate::Succeeded => self.succeeded,
            Fate::Filtered => self.filtered,
            Fate::Expired => self.expired,
            Fate::Exhausted => self.exhausted,
        }
    }

    /// One more record with this fate.
    pub fn plus(self, fate: Fate) -> FateCounts
        requires { total self < u32.MAX }
        ensures { result ≡ with_one self fate }
    {
        let mut counts = self;
        match fate {
            Fate::Succeeded => counts.succeeded += 1,
            Fate::Filtered => counts.filtered += 1,
            Fate::Expired => counts.expired += 1,
            Fate::Exhausted => counts.exhausted += 1,
        }
        counts
    }

    /// One more record, with this fate if it has one.
    fn with(self, found: Option<Fate>) -> FateCounts
        requires { total self < u32.MAX }
        ensures { result ≡ counted self found }
    {
        match found {
            Some(fate) => self.plus(fate),
            None => self,
        }
    }

    /// The number of records with any fate.
    pub fn total(self) -> u32
        requires { total self ≤ u32.MAX }
        ensures { result ≡ total self }
    {
        self.succeeded + self.filtered + self.expired + self.exhausted
    }
}

/// Which records of a shard have a fate, how many have which, and the checkpoint: how many of the first records all have
/// one. A record takes one byte. In reserved room nothing takes memory.
#[derive(Drop, Debug)]
pub struct Progress {
    fated: Vec<bool>,
    counts: FateCounts,
    frontier: u32,
}

impl Model for Progress {
    ghost use Rattle.std.specs.Prelude.{◌-◌, vec_len, vec_capacity};
    ghost use Rattle.esm_shard_index.specs.Progress.{Tally};

    ghost Value = { Tally };

    ghost use Rattle.esm_shard_index.specs.ProgressKept.{IsTally};

    ghost view = { λ p. record { fated = p.fated.items; counts = p.counts; room = vec_capacity p.fated - vec_len p.fated } };

    ghost invariant = { λ p. IsTally p.fated.items p.counts p.frontier };
}

impl Progress {
    /// Of a shard of which no record came.
    pub fn new(alloc: Global) -> Self
        ensures fated { result.fated ≡ [] }
        ensures counts { (f : Fate) → count_in result.counts f ≡ 0 }
    {
        Progress {
            fated: Vec::new(alloc),
            counts: FateCounts::none(),
            frontier: 0,
        }
    }

    /// Reserves room for `count` more records.
    pub fn reserve(&mut self, count: usize) -> Result<(), OutOfMemory>
        ensures fated { self.new.fated ≡ self.old.fated }
        ensures counts { self.new.counts ≡ self.old.counts }
        ensures room { self.old.room ≤ self.new.room }
        ensures ok { OnOk result (count ≤ self.new.room) }
        ensures succeeds { count ≤ self.old.room → IsOk result }
    {
        self.fated.reserve(count)?;
        Ok(())
    }

    /// One more record came for each element, with the fate that was found for it, if one was.
    pub fn came(&mut self, found: &[Option<Fate>])
        requires room { length found.now ≤ self.old.room }
        requires few { length self.old.fated + length found.now ≤ u32.MAX }
        ensures fated { self.new.fated ≡ self.old.fated ++ map is_some found.now }
        ensures counts { (f : Fate) → count_in self.new.counts f ≡ count_in self.old.counts f + length (filter (is_fate f) found.now) }
        ensures room { self.new.room + length found.now ≡ self.old.room }
    {
        for fate in found {
            self.came_one(*fate);
        }
    }

    fn came_one(&mut self, found: Option<Fate>)
        requires room { 0 < self.old.room }
        requires few { length self.old.fated < u32.MAX }
        ensures fated { self.new.fated ≡ self.old.fated ++ is_some found ∷ [] }
        ensures counts { self.new.counts ≡ counted self.old.counts found }
        ensures room { self.new.room + 1 ≡ self.old.room }
    {
        self.fated.push_reserved(found.is_some());
        self.counts = self.counts.with(found);
        self.frontier = frontier_from(self.fated.as_slice(), self.frontier);
    }

    /// The records at the places get the fate; one that has a fate keeps it.
    pub fn give(&mut self, places: &[u32], fate: Fate)
        requires came { (i : ℕ) → holds places.now i ≡ true → i < length self.old.fated }
        ensures len { length self.new.fated ≡ length self.old.fated }
        ensures fated { (i : ℕ) → i < length self.old.fated → slice_index_or self.new.fated i false
            ≡ (slice_index_or self.old.fated i false || holds places.now i) }
        ensures others { (f : Fate) → same_fate f fate ≡ false → count_in self.new.counts f ≡ count_in self.old.counts f }
        ensures given { count_in self.new.counts fate + number_of self.old.fated ≡ count_in self.old.counts fate + number_of self.new.fated }
        ensures room { self.new.room ≡ self.old.room }
    {
        for place in places {
            self.give_one(*place, fate);
        }
    }

    fn give_one(&mut self, place: u32, fate: Fate)
        requires came { place < length self.old.fated }
        ensures len { length self.new.fated ≡ length self.old.fated }
        ensures fated { (i : ℕ) → i < length self.old.fated → slice_index_or self.new.fated i false ≡ (slice_index_or self.old.fated i false || (place == i)) }
        ensures others { (f : Fate) → same_fate f fate ≡ false → count_in self.new.counts f ≡ count_in self.old.counts f }
        ensures given { count_in self.new.counts fate + number_of self.old.fated ≡ count_in self.old.counts fate + number_of self.new.fated }
        ensures room { self.new.room ≡ self.old.room }
    {
        if self.fated[place as usize] {
            return;
        }
        self.fated[place as usize] = true;
        self.counts = self.counts.plus(fate);
        self.frontier = frontier_from(self.fated.as_slice(), self.frontier);
    }

    /// The number of records that came.
    pub fn len(&self) -> u32
        ensures { result ≡ length self.now.fated }
    {
        self.fated.len() as u32
    }

    /// How many of the first records all have a fate.
    pub fn checkpoint(&self) -> u32
        ensures { result ≡ front_of self.now.fated }
    {
        self.frontier
    }

    /// The number of records past the checkpoint that have a fate.
    pub fn spread(&self) -> u32
        ensures { result ≡ past_of self.now.fated }
    {
        self.counts.total() - self.frontier
    }

    /// The number of records with each fate.
    pub fn counts(&self) -> FateCounts
        ensures { result ≡ self.now.counts }
    {
        self.counts
    }
}

/// How many of the first records all have a fate, when at least `known` of them do.
fn frontier_from(fated: &[bool], known: u32) -> u32
    requires known { known ≤ front_of fated.now }
    requires few { length fated.now ≤ u32.MAX }
    ensures { result ≡ front_of fated.now }
{
    let mut frontier = known;
    while (frontier as usize) < fated.len() && fated[frontier as usize] {
        frontier += 1;
    }
    frontier
}
