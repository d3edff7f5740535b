// The fates of a shard's places, by the journal or by the run.
ghost use Rattle.std.specs.Prelude.{◌≡◌, length, filter};
ghost use Rattle.std.specs.Option.{option_copied};
ghost use Rattle.esm_model.specs.Fates.{below, is_fate};
ghost use Rattle.esm_report.specs.Totals.{fate_at, place_fate, fate_found, front_count};

use crate::fates::{Fates, is_fate};
use esm_journal_state::Says;
use esm_model::Fate;

/// The fates of a shard's places: by the journal, or else by the history.
#[derive(Drop)]
pub(crate) struct ShardFates<'a> {
    pub shard: u64,
    pub found: &'a Says,
    pub given: Option<&'a Fates>,
}

impl ShardFates<'_> {
    /// Returns how many of the first `records` places have this fate.
    pub(crate) fn count(&self, records: u32, fate: Fate) -> u32
        ensures { result ≡ length (filter (λ i. is_fate fate (place_fate self.now i)) (below records)) }
    {
        let mut total = 0;
        for place in 0..records {
            if is_fate(fate, self.at(place)) {
                total += 1;
            }
        }
        total
    }

    /// Returns the length of the longest prefix of the first `records` places in which each has a fate.
    pub(crate) fn checkpoint(&self, records: u32) -> u32
        ensures { result ≡ front_count records (place_fate self.now) }
    {
        for place in 0..records {
            if self.at(place).is_none() {
                return place;
            }
        }
        records
    }

    fn at(&self, place: u32) -> Option<Fate>
        ensures { result ≡ place_fate self.now place }
    {
        match found_at(self.found, self.shard, place) {
            None => given_at(self.given, place),
            Some(fate) => Some(fate),
        }
    }
}

fn found_at(found: &Says, shard: u64, place: u32) -> Option<Fate>
    ensures { result ≡ fate_found found.now shard place }
{
    match found.fate(shard, place) {
        None => None,
        Some(told) => Some(told.fate),
    }
}

fn given_at(fates: Option<&Fates>, place: u32) -> Option<Fate>
    ensures { result ≡ fate_at (option_copied fates.entry) place }
{
    match fates {
        None => None,
        Some(fates) => fates.get(place),
    }
}
