// Orders what a table has by groups.
ghost use Rattle.std.specs.Prelude.{◌≡◌, ◌==◌, ◌&&◌, None, Some, IfOk, OnOk, if◌then◌else◌};
ghost use Rattle.std.specs.Ordering.{nat_cmp, is_eq};
ghost use Rattle.std.specs.BTreeMap as map;
ghost use Rattle.std.specs.BTreeSet as set;
ghost use Rattle.esm_journal_state.specs.Compact.{fate_text_of, tries_text_of};
ghost use Rattle.esm_journal_state.specs.Meaning.{fate_text};
ghost use Rattle.esm_journal_state.specs.Pieces.{Key, key_cmp};
ghost use Rattle.esm_journal_state.specs.Table.{pair_cmp};

use crate::kept::{KeptFate, KeptTries};
use crate::piece::Group;
use crate::table::Place;
use esm_journal_record::{KeptText, fate_byte};
use esm_model::OutOfMemory;
use std::alloc::Global;
use std::collections::{BTreeMap, BTreeSet};

/// Texts by group and place.
pub(crate) type Named = BTreeMap<(Group, u32), KeptText>;

/// Inserts the text, which shares its bytes.
fn put(named: &mut Named, group: Group, place: u32, text: &KeptText) -> Result<(), OutOfMemory>
    ensures { OnOk result ((q : Key) → map.get key_cmp named.new q
        ≡ (if is_eq (key_cmp (group, place) q) then Some text.now else map.get key_cmp named.old q)) }
{
    let text = text.share()?;
    named.insert((group, place), text)?;
    Ok(())
}

/// Inserts the text of a place, if it was replayed.
fn put_replay(
    named: &mut Named,
    replays: &BTreeSet<Place>,
    place: Place,
    kept: &KeptFate,
) -> Result<(), OutOfMemory>
    ensures { OnOk result ((q : Key) → map.get key_cmp named.new q
        ≡ (if set.contains pair_cmp replays.now place && is_eq (key_cmp ((place.0, 0), place.1) q) then Some kept.now.text else map.get key_cmp named.old q)) }
{
    if !replays.contains(&place) {
        return Ok(());
    }
    put(named, (place.0, 0), place.1, &kept.text)
}

/// The fates by shard, fate and place.
pub(crate) fn by_fate(
    alloc: Global,
    fates: &BTreeMap<Place, KeptFate>,
) -> Result<Named, OutOfMemory>
    ensures order { IfOk result (λ m. map.IsOrdered key_cmp m) }
    ensures has { IfOk result (λ m. (q : Key) → map.get key_cmp m q ≡ fate_text_of (map.get pair_cmp fates.now (q.0.0, q.1)) q.0.1) }
{
    let mut named = BTreeMap::new(alloc);
    let _ = fates.len();
    for (place, kept) in fates {
        let group = (place.0, fate_byte(kept.fate) as u32);
        put(&mut named, group, place.1, &kept.text)?;
    }
    let _ = named.len();
    Ok(named)
}

/// The tries by shard, number and place.
pub(crate) fn by_tries(
    alloc: Global,
    tries: &BTreeMap<Place, KeptTries>,
) -> Result<Named, OutOfMemory>
    ensures order { IfOk result (λ m. map.IsOrdered key_cmp m) }
    ensures has { IfOk result (λ m. (q : Key) → map.get key_cmp m q ≡ tries_text_of (map.get pair_cmp tries.now (q.0.0, q.1)) q.0.1) }
{
    let mut named = BTreeMap::new(alloc);
    let _ = tries.len();
    for (place, kept) in tries {
        put(&mut named, (place.0, kept.tries), place.1, &kept.text)?;
    }
    let _ = named.len();
    Ok(named)
}

/// The replays by shard and place, with the texts of their fates.
pub(crate) fn by_replay(
    alloc: Global,
    fates: &BTreeMap<Place, KeptFate>,
    replays: &BTreeSet<Place>,
) -> Result<Named, OutOfMemory>
    ensures order { IfOk result (λ m. map.IsOrdered key_cmp m) }
    ensures has { IfOk result (λ m. (q : Key) → map.get key_cmp m q
        ≡ (if set.contains pair_cmp replays.now (q.0.0, q.1) && (q.0.1 == 0) then fate_text (map.get pair_cmp fates.now (q.0.0, q.1)) else None)) }
{
    let mut named = BTreeMap::new(alloc);
    let _ = fates.len();
    for (place, kept) in fates {
        put_replay(&mut named, replays, *place, kept)?;
    }
    let _ = named.len();
    Ok(named)
}

/// The deletions by fate and place.
pub(crate) fn by_deletion(
    alloc: Global,
    deletions: &BTreeMap<u32, KeptFate>,
) -> Result<Named, OutOfMemory>
    ensures order { IfOk result (λ m. map.IsOrdered key_cmp m) }
    ensures has { IfOk result (λ m. (q : Key) → map.get key_cmp m q
        ≡ (if q.0.0 == 0 then fate_text_of (map.get nat_cmp deletions.now q.1) q.0.1 else None)) }
{
    let mut named = BTreeMap::new(alloc);
    let _ = deletions.len();
    for (place, kept) in deletions {
        let group = (0, fate_byte(kept.fate) as u32);
        put(&mut named, group, *place, &kept.text)?;
    }
    let _ = named.len();
    Ok(named)
}
