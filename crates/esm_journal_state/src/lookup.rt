// What a list of payloads says.
ghost use Rattle.std.specs.Prelude.{◌≡◌, ℕ, ◌<◌, ◌==◌, nat_eq, true, Some, None, length, map, filter, option_map, is_some, unwrap_or, IfOk};
ghost use Rattle.std.specs.List.{list_any};
ghost use Rattle.std.specs.List.Sorted.{IsStrictlyIncreasing};
ghost use Rattle.esm_model.specs.declared.setup.FoundWindowTries.{FoundWindowTries};
ghost use Rattle.esm_journal_state.specs.Meaning.{fate_kept, tries_kept};
ghost use Rattle.esm_journal_state.specs.SaidLists.{fate_told, tries_told, window_tries_told, is_replay_told, deletion_told, fates_count, has_shard};
ghost use Rattle.esm_journal_state.specs.Tells.{fate_of_found, tries_of_found, deletion_of_found};
ghost use Rattle.esm_journal_state.specs.View.{found_state, found_window_tries, of_window};

use crate::fate_row::fate_in;
use crate::gather::number_at;
use crate::kept::{KeptFate, KeptTries};
use crate::table::{Place, Window};
use esm_journal_record::KeptText;
use esm_model::{Fate, OutOfMemory, WindowState};
use std::alloc::Global;
use std::collections::{BTreeMap, BTreeSet};
use std::marker::Model;

/// What a list of payloads says of a shard's records and windows and of a queue's messages.
#[derive(Drop)]
pub struct Says {
    // in the order of shards and places
    pub(crate) fates: Vec<(Place, KeptFate)>,
    pub(crate) tries: BTreeMap<Place, KeptTries>,
    pub(crate) states: Vec<SaidState>,
    pub(crate) window_tries: BTreeMap<Window, u32>,
    pub(crate) replays: BTreeSet<Place>,
    pub(crate) deletions: BTreeMap<u32, KeptFate>,
    // the shards in rising order, how many places of each have a fate, and how many places from 0 have one in a row
    pub(crate) shards: Vec<u64>,
    pub(crate) counts: BTreeMap<u64, u32>,
    // about where each shard's fates begin in `fates`
    pub(crate) starts: BTreeMap<u64, u32>,
    pub(crate) frontiers: BTreeMap<u64, u32>,
}

impl Model for Says {
    ghost use Rattle.esm_journal_state.specs.SaidLists.{SaidLists};

    ghost Value = { SaidLists };

    ghost use Rattle.esm_journal_state.specs.View.{told_of, IsGathered};

    ghost view = { told_of };

    ghost invariant = { IsGathered };
}

/// The state of a shard's tumbling window.
#[derive(Drop, Debug)]
pub struct SaidState {
    pub shard: u64,
    pub state: WindowState,
}

/// The failed tries of the final call of a shard's tumbling window, which is named by its start in milliseconds.
#[derive(Clone, Copy, Debug)]
pub struct SaidWindowTries {
    pub window: u64,
    pub tries: u32,
}

/// The fate of a record or a message, with the sequence number or message id that is kept of it.
#[derive(Clone, Copy, Debug)]
pub struct Found<'a> {
    pub fate: Fate,
    pub text: &'a KeptText,
}

/// The failed tries of a record, with the sequence number that is kept of it.
#[derive(Clone, Copy, Debug)]
pub struct FoundTries<'a> {
    pub tries: u32,
    pub text: &'a KeptText,
}

impl Says {
    /// The fate of the shard's record at the place; `None` if and only if no payload gave it one. If all places of the shard
    /// up to this one have a fate, this costs a look-up of the shard alone, and else a binary search.
    pub fn fate(&self, shard: u64, place: u32) -> Option<Found<'_>>
        ensures { option_map (λ f. fate_kept f.fate f.text.now) result ≡ option_map fate_of_found (fate_told self.now shard place) }
    {
        let start = number_at(&self.starts, shard);
        match fate_in(self.fates.as_slice(), start, shard, place) {
            None => None,
            Some(kept) => Some(Found {
                fate: kept.fate,
                text: &kept.text,
            }),
        }
    }

    /// The deletion of the message at the place; `None` if and only if no payload names it.
    pub fn deleted(&self, place: u32) -> Option<Found<'_>>
        ensures { option_map (λ f. fate_kept f.fate f.text.now) result ≡ option_map deletion_of_found (deletion_told self.now place) }
    {
        match self.deletions.get(&place) {
            None => None,
            Some(kept) => Some(Found {
                fate: kept.fate,
                text: &kept.text,
            }),
        }
    }

    /// The tries of the shard's record at the place; `None` if and only if it has a fate or no payload counts tries of it.
    pub fn tries(&self, shard: u64, place: u32) -> Option<FoundTries<'_>>
        ensures { option_map (λ f. tries_kept f.tries f.text.now) result ≡ option_map tries_of_found (tries_told self.now shard place) }
    {
        match self.tries.get(&(shard, place)) {
            None => None,
            Some(kept) => Some(FoundTries {
                tries: kept.tries,
                text: &kept.text,
            }),
        }
    }

    /// The tries of the final call of the shard's window, or 0.
    pub fn window_tries(&self, shard: u64, window: u64) -> u32
        ensures { result ≡ unwrap_or (option_map (λ (f : FoundWindowTries). f.tries) (window_tries_told self.now shard window)) 0 }
    {
        match self.window_tries.get(&(shard, window)) {
            None => 0,
            Some(tries) => *tries,
        }
    }

    /// The tries of the final calls of all windows of the shard, in the order of the windows. Looks at the windows of every
    /// shard.
    pub fn shard_window_tries(
        &self,
        alloc: Global,
        shard: u64,
    ) -> Result<Vec<SaidWindowTries>, OutOfMemory>
        ensures { IfOk result (λ found. map (of_window shard) found.items ≡ filter (λ (f : FoundWindowTries). f.shard == shard) self.now.window_tries) }
    {
        tries_of_shard(alloc, &self.window_tries, shard)
    }

    /// Whether the shard's record at the place was replayed.
    pub fn replayed(&self, shard: u64, place: u32) -> bool
        ensures { result ≡ is_replay_told self.now shard place }
    {
        self.replays.contains(&(shard, place))
    }

    /// The states of windows, in the order of shards and windows.
    pub fn states(&self) -> &[SaidState]
        ensures { map found_state result.now ≡ self.now.states }
    {
        self.states.as_slice()
    }

    /// The shards that have a fate, a window state, tries or a window's tries, in rising order.
    pub fn shards(&self) -> &[u64]
        ensures rising { IsStrictlyIncreasing result.now }
        ensures all { (n : ℕ) → list_any (nat_eq n) result.now ≡ has_shard self.now n }
    {
        self.shards.as_slice()
    }

    /// How many places of the shard have a fate.
    pub fn count(&self, shard: u64) -> u32
        ensures { result ≡ fates_count self.now shard }
    {
        number_at(&self.counts, shard)
    }

    /// The length of the longest prefix of places from 0 that all have a fate.
    pub fn frontier(&self, shard: u64) -> u32
        ensures below { (i : ℕ) → i < result → is_some (fate_told self.now shard i) ≡ true }
        ensures end { fate_told self.now shard result ≡ None }
    {
        number_at(&self.frontiers, shard)
    }

    /// How many messages were deleted.
    pub fn deletions(&self) -> u32
        ensures { result ≡ length self.now.deletions }
    {
        self.deletions.len() as u32
    }
}

fn tries_of_shard(
    alloc: Global,
    window_tries: &BTreeMap<Window, u32>,
    shard: u64,
) -> Result<Vec<SaidWindowTries>, OutOfMemory>
    ensures { IfOk result (λ found. map (of_window shard) found.items
        ≡ filter (λ (f : FoundWindowTries). f.shard == shard) (map found_window_tries window_tries.now.entries)) }
{
    let mut found = Vec::new(alloc);
    for (of, tries) in window_tries {
        if of.0 == shard {
            let (window, tries) = (of.1, *tries);
            found.push(SaidWindowTries { window, tries })?;
        }
    }
    Ok(found)
}
