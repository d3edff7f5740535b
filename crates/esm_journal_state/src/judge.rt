// Judges which payloads are bad for a book.
ghost use Rattle.std.specs.Prelude.{◌≡◌, ◌≤◌, ℕ, List, length, true, false, None};
ghost use Rattle.std.specs.Option.{option_copied};
ghost use Rattle.std.specs.BTreeMap as map;
ghost use Rattle.esm_journal_state.specs.Meaning.{any_named, differs, is_failure, tries_text, is_spent, is_no_replay, is_deleted, is_bad};
ghost use Rattle.esm_journal_record.specs.Payload.{IsSaid, rises};
ghost use Rattle.esm_journal_state.specs.Table.{known_in, pair_cmp};

use crate::kept::KeptFate;
use crate::table::{Place, Table};
use esm_journal_record::{KeptText, Said};
use esm_model::Fate;
use std::collections::BTreeMap;
use std::ops::Bound;

/// Whether a payload that says this is bad for a book, given the table of what was said before.
pub(crate) fn is_bad(table: &Table, said: &Said) -> bool
    requires { IsSaid said.now }
    ensures { result ≡ is_bad (known_in table.now) said.now }
{
    match said {
        Said::Fates {
            shard,
            places,
            texts,
            ..
        } => any_spent(table, *shard, places.as_slice(), texts.as_slice()),
        Said::Tried {
            shard,
            places,
            texts,
            ..
        } => any_spent(table, *shard, places.as_slice(), texts.as_slice()),
        Said::Replayed {
            shard,
            places,
            texts,
            ..
        } => { any_no_replay(table, *shard, places.as_slice(), texts.as_slice()) }
        Said::Deleted { places, texts, .. } => any_deleted(
            table,
            places.as_slice(),
            texts.as_slice(),
        ),
        _ => false,
    }
}

fn differs(kept: Option<&KeptText>, text: &KeptText) -> bool
    ensures { result ≡ differs (option_copied kept.entry) text.now }
{
    match kept {
        None => false,
        Some(kept) => kept.as_slice() != text.as_slice(),
    }
}

fn tried_text<'a>(table: &'a Table, shard: u64, place: u32) -> Option<&'a KeptText>
    ensures { option_copied result ≡ tries_text ((known_in table.now).tries shard place) }
{
    match table.tries.get(&(shard, place)) {
        None => None,
        Some(kept) => Some(&kept.text),
    }
}

fn is_failure(fate: Fate) -> bool
    ensures { result ≡ is_failure fate }
{
    match fate {
        Fate::Succeeded | Fate::Filtered => false,
        Fate::Expired | Fate::Exhausted => true,
    }
}

fn is_spent(table: &Table, shard: u64, place: u32, text: &KeptText) -> bool
    ensures { result ≡ is_spent (known_in table.now) shard place text.now }
{
    table.fates.contains_key(&(shard, place)) || differs(tried_text(table, shard, place), text)
}

/// Whether no place of the shard from the first to the last has a fate.
fn none_between(fates: &BTreeMap<Place, KeptFate>, shard: u64, first: u32, last: u32) -> bool
    requires { first ≤ last }
    ensures { result ≡ true → (i : ℕ) → first ≤ i → i ≤ last → map.get pair_cmp fates.now (shard, i) ≡ None }
{
    let (from, to) = (
        Bound::Included((shard, first)),
        Bound::Included((shard, last)),
    );
    match fates.range((from, to)).next() {
        None => true,
        Some(_) => false,
    }
}

/// Whether one search shows that none of the places was named before. False of a single place, which a look-up judges as
/// fast, and if the table has tries.
fn are_new(table: &Table, shard: u64, places: &[u32]) -> bool
    requires { rises places.now ≡ true }
    ensures { result ≡ true → (texts : List (List ℕ)) → any_named (is_spent (known_in table.now) shard) places.now texts ≡ false }
{
    if places.len() < 2 || !table.tries.is_empty() {
        return false;
    }
    none_between(&table.fates, shard, places[0], places[places.len() - 1])
}

fn any_spent(table: &Table, shard: u64, places: &[u32], texts: &[KeptText]) -> bool
    requires same { length texts.now ≡ length places.now }
    requires rising { rises places.now ≡ true }
    ensures { result ≡ any_named (is_spent (known_in table.now) shard) places.now texts.now }
{
    if are_new(table, shard, places) {
        return false;
    }
    for index in 0..places.len() {
        if is_spent(table, shard, places[index], &texts[index]) {
            return true;
        }
    }
    false
}

fn is_no_replay(table: &Table, shard: u64, place: u32, text: &KeptText) -> bool
    ensures { result ≡ is_no_replay (known_in table.now) shard place text.now }
{
    match table.fates.get(&(shard, place)) {
        None => true,
        Some(kept) => {
            !is_failure(kept.fate)
                || table.replays.contains(&(shard, place))
                || differs(Some(&kept.text), text)
        }
    }
}

fn any_no_replay(table: &Table, shard: u64, places: &[u32], texts: &[KeptText]) -> bool
    requires { length texts.now ≡ length places.now }
    ensures { result ≡ any_named (is_no_replay (known_in table.now) shard) places.now texts.now }
{
    for index in 0..places.len() {
        if is_no_replay(table, shard, places[index], &texts[index]) {
            return true;
        }
    }
    false
}

fn any_deleted(table: &Table, places: &[u32], texts: &[KeptText]) -> bool
    requires { length texts.now ≡ length places.now }
    ensures { result ≡ any_named (is_deleted (known_in table.now)) places.now texts.now }
{
    for index in 0..places.len() {
        if table.deletions.contains_key(&places[index]) {
            return true;
        }
    }
    false
}
