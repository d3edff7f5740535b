// The moments at which the records of a shard came, as a run of places for each arrival.
ghost use Rattle.std.specs.Prelude.{◌≡◌, ◌+◌, ◌<◌, ◌≤◌, nat_le, true, false, [], ◌∷◌, ◌++◌, length, OnOk, IsOk};
ghost use Rattle.std.specs.List.Sorted.{IsNonDecreasingBy, IsPartitionPoint};
ghost use Rattle.esm_shard_index.specs.declared.arrivals.Arrival.{Arrival};
ghost use Rattle.esm_shard_index.specs.Arrivals.{arrival, moment_in};

use esm_model::OutOfMemory;
use std::alloc::Global;
use std::marker::Model;

/// Records that came at once: those from the place `first` on, at this moment in milliseconds.
#[derive(Clone, Copy, Debug)]
pub struct Arrival {
    pub first: u32,
    pub moment: u64,
}

/// The moments at which the records of a shard came: a run for each time that some did. In reserved room nothing takes
/// memory.
#[derive(Drop, Debug)]
pub struct Arrivals {
    runs: Vec<Arrival>,
    came: u32,
}

impl Model for Arrivals {
    ghost use Rattle.std.specs.Prelude.{◌-◌, vec_len, vec_capacity};
    ghost use Rattle.esm_shard_index.specs.Arrivals.{Coming};

    ghost Value = { Coming };

    ghost use Rattle.esm_shard_index.specs.ArrivalsKept.{AreArrivals};

    ghost view = { λ a. record { runs = a.runs.items; came = a.came; room = vec_capacity a.runs - vec_len a.runs } };

    ghost invariant = { λ a. AreArrivals a.runs.items a.came };
}

impl Arrivals {
    /// Of a shard of which no record came.
    pub fn new(alloc: Global) -> Self
        ensures runs { result.runs ≡ [] }
        ensures came { result.came ≡ 0 }
    {
        Arrivals {
            runs: Vec::new(alloc),
            came: 0,
        }
    }

    /// Reserves room for `times` more times at which records come.
    pub fn reserve(&mut self, times: usize) -> Result<(), OutOfMemory>
        ensures runs { self.new.runs ≡ self.old.runs }
        ensures came { self.new.came ≡ self.old.came }
        ensures room { self.old.room ≤ self.new.room }
        ensures ok { OnOk result (times ≤ self.new.room) }
        ensures succeeds { times ≤ self.old.room → IsOk result }
    {
        self.runs.reserve(times)?;
        Ok(())
    }

    /// `count` more records came, at this moment in milliseconds.
    pub fn came(&mut self, count: u32, moment: u64)
        requires room { 0 < self.old.room }
        requires few { self.old.came + count ≤ u32.MAX }
        ensures runs { self.new.runs ≡ self.old.runs ++ arrival self.old.came moment ∷ [] }
        ensures came { self.new.came ≡ self.old.came + count }
        ensures room { self.new.room + 1 ≡ self.old.room }
    {
        self.runs.push_reserved(Arrival {
            first: self.came,
            moment,
        });
        self.came += count;
    }

    /// The moment at which the record at the place came, in milliseconds.
    pub fn moment(&self, place: u32) -> u64
        ensures { result ≡ moment_in self.now.runs place }
    {
        let count = runs_up_to(self.runs.as_slice(), place);
        if count == 0 {
            return 0;
        }
        self.runs[count - 1].moment
    }
}

/// The number of runs that begin at the place or before it, by binary search.
fn runs_up_to(runs: &[Arrival], place: u32) -> usize
    requires rising { IsNonDecreasingBy (λ (r : Arrival). r.first) runs.now }
    ensures bound { result ≤ length runs.now }
    ensures point { IsPartitionPoint (λ (r : Arrival). nat_le r.first place ≡ true) (λ (r : Arrival). nat_le r.first place ≡ false) runs.now result }
{
    runs.partition_point(|run| run.first <= place)
}
