// Finds the first record that comes with another sequence number than the journal kept at its place.
ghost use Rattle.std.specs.Prelude.{◌≡◌, IfOk, option_map, option_copied, unwrap_or};
ghost use Rattle.std.specs.Ordering.{nat_cmp};
ghost use Rattle.std.specs.BTreeMap.{get};
ghost use Rattle.esm_model.specs.declared.setup.FoundFate.{FoundFate};
ghost use Rattle.esm_model.specs.declared.setup.FoundTries.{FoundTries};
ghost use Rattle.esm_model.specs.Entries.{came_count};
ghost use Rattle.esm_journal_state.specs.SaidLists.{fate_told, tries_told};
ghost use Rattle.esm_ledger.specs.Ledger.{past_of, setting_of, Keeps};
ghost use Rattle.esm_ingest.specs.Coming.{FitPlaces};
ghost use Rattle.esm_ingest.specs.Changes.{change_at, change_of, first_change, kept_otherwise, other_text};

use esm_journal_state::{KeptText, Says};
use esm_ledger::{Ledger, is_any_told};
use esm_model::{Change, OutOfMemory, Record, Text};
use std::alloc::Global;
use std::collections::BTreeMap;

/// The text that was kept with the fate of the shard's record at the place, if it has one.
fn fate_text(said: &Says, shard: u64, place: u32) -> Option<&KeptText>
    ensures { option_copied result ≡ option_map (λ (f : FoundFate). f.text) (fate_told said.now shard place) }
{
    match said.fate(shard, place) {
        None => None,
        Some(found) => Some(found.text),
    }
}

/// The text that was kept with the tries of the shard's record at the place, if it has any.
fn tries_text(said: &Says, shard: u64, place: u32) -> Option<&KeptText>
    ensures { option_copied result ≡ option_map (λ (f : FoundTries). f.text) (tries_told said.now shard place) }
{
    match said.tries(shard, place) {
        None => None,
        Some(found) => Some(found.text),
    }
}

/// The kept text, if there is one and it differs from the sequence number.
fn other_text<'a>(seq: &[u8], kept: Option<&'a KeptText>) -> Option<&'a KeptText>
    ensures { option_copied result ≡ other_text seq.now (option_copied kept.entry) }
{
    match kept {
        None => None,
        Some(kept) => {
            if kept.as_slice() == seq {
                None
            } else {
                Some(kept)
            }
        }
    }
}

/// The text that was kept with the fate of the record at the place, else with its tries, if it differs from the sequence
/// number.
fn kept_otherwise<'a>(ledger: &'a Ledger, item: &Record, place: u32) -> Option<&'a KeptText>
    ensures { option_copied result ≡ kept_otherwise (setting_of ledger.now) item.now.shard place item.now.seq }
{
    match other_text(item.seq(), fate_text(&ledger.found, item.shard(), place)) {
        Some(kept) => Some(kept),
        None => other_text(item.seq(), tries_text(&ledger.found, item.shard(), place)),
    }
}

/// How the record differs from the kept text, if there is one.
fn change_from(
    alloc: Global,
    item: &Record,
    place: u32,
    kept: Option<&KeptText>,
) -> Result<Option<Change>, OutOfMemory>
    ensures { IfOk result (λ change. change ≡ option_map (change_of item.now place) (option_copied kept.entry)) }
{
    match kept {
        None => Ok(None),
        Some(kept) => {
            let given = String::from_str(alloc, item.seq_text())?;
            Ok(Some(Change {
                shard: item.shard(),
                place,
                kept: kept.copy(alloc)?,
                given: Text::from_vec(given),
            }))
        }
    }
}

/// How the record differs from what was kept of the place, if it does.
fn change_at(
    alloc: Global,
    ledger: &Ledger,
    item: &Record,
    place: u32,
) -> Result<Option<Change>, OutOfMemory>
    ensures { IfOk result (λ change. change ≡ change_at (setting_of ledger.now) place item.now) }
{
    change_from(alloc, item, place, kept_otherwise(ledger, item, place))
}

/// The place of the shard's next record; the map has it for the shards of the records before.
fn next_place(ledger: &Ledger, next: &BTreeMap<u64, u32>, shard: u64) -> u32
    requires { Keeps ledger.now }
    ensures { result ≡ unwrap_or (get nat_cmp next.now shard) (came_count (past_of ledger.now) shard) }
{
    match next.get(&shard) {
        None => ledger.came_of(shard),
        Some(place) => *place,
    }
}

/// The first record of the list whose sequence number differs from the one that the journal kept of its place, with a fate
/// or with tries; `None` if and only if none does. Linear in the list, but for a factor logarithmic in the number of its
/// shards and in what was found at opening; if nothing was found, no record is looked at.
pub fn first_change(
    alloc: Global,
    ledger: &Ledger,
    items: &[Record],
) -> Result<Option<Change>, OutOfMemory>
    requires kept { Keeps ledger.now }
    requires places { FitPlaces (past_of ledger.now) items.now }
    ensures { IfOk result (λ change. change ≡ first_change (setting_of ledger.now) (past_of ledger.now) items.now) }
{
    if !is_any_told(&ledger.found) {
        return Ok(None);
    }
    let mut next: BTreeMap<u64, u32> = BTreeMap::new(alloc);
    for item in items {
        let shard = item.shard();
        let place = next_place(ledger, &next, shard);
        let change = change_at(alloc, ledger, item, place)?;
        if change.is_some() {
            return Ok(change);
        }
        let after = place + 1;
        next.insert(shard, after)?;
    }
    Ok(None)
}
