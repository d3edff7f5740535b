// The mappings by their place, and the place of each UUID.
ghost use Rattle.std.specs.Prelude.{◌≡◌, ◌+◌, ◌++◌, ◌∷◌, [], ℕ, Some, None, IsSome, OnOk, OnErr};
ghost use Rattle.std.specs.BTreeMap.{get, is_at, IsOrdered, UpdatesBy};
ghost use Rattle.std.specs.Map.{set_value};
ghost use Rattle.std.specs.Ordering.{nat_cmp};
ghost use Rattle.esm_config.specs.Given.{IsGiven};
ghost use Rattle.esm_registry.specs.Lists.{mapping_at, without, replaced};
ghost use Rattle.esm_registry.specs.Places.{list_of, IsIndex};

use crate::mapping::Mapping;
use esm_model::OutOfMemory;
use std::collections::BTreeMap;
use std::mem;
use uuid::Uuid;

/// Puts a mapping at the next place. After `OutOfMemory` nothing has changed.
pub(crate) fn place(
    mappings: &mut BTreeMap<u64, Mapping>,
    places: &mut BTreeMap<Uuid, u64>,
    next: u64,
    mapping: Mapping,
) -> Result<(), OutOfMemory>
    requires index { IsIndex mappings.old places.old next }
    requires is_new { mapping_at mapping.id (list_of mappings.old) ≡ None }
    requires given { IsGiven mapping.config }
    ensures index { OnOk result (IsIndex mappings.new places.new (next + 1)) }
    ensures list { OnOk result (list_of mappings.new ≡ list_of mappings.old ++ mapping ∷ []) }
    ensures index_kept { OnErr result (IsIndex mappings.new places.new next) }
    ensures list_kept { OnErr result (list_of mappings.new ≡ list_of mappings.old) }
{
    let id = mapping.id;
    places.insert(id, next)?;
    if mappings.insert(next, mapping).is_err() {
        places.remove(&id);
        return Err(OutOfMemory);
    }
    Ok(())
}

/// Removes the mapping with this UUID, if there is one. Takes no memory.
pub(crate) fn unplace(
    mappings: &mut BTreeMap<u64, Mapping>,
    places: &mut BTreeMap<Uuid, u64>,
    id: &Uuid,
)
    ensures index { (next : ℕ) → IsIndex mappings.old places.old next → IsIndex mappings.new places.new next }
    ensures list { (next : ℕ) → IsIndex mappings.old places.old next → list_of mappings.new ≡ without id.now (list_of mappings.old) }
{
    match places.remove(id) {
        None => {}
        Some(place) => {
            mappings.remove(&place);
        }
    }
}

/// Puts a mapping in place of the one with its UUID, if there is one. Takes no memory.
pub(crate) fn replace(
    mappings: &mut BTreeMap<u64, Mapping>,
    places: &BTreeMap<Uuid, u64>,
    mapping: Mapping,
)
    requires given { IsGiven mapping.config }
    ensures index { (next : ℕ) → IsIndex mappings.old places.now next → IsIndex mappings.new places.now next }
    ensures list { (next : ℕ) → IsIndex mappings.old places.now next → list_of mappings.new ≡ replaced mapping.id mapping (list_of mappings.old) }
{
    match places.get(&mapping.id) {
        None => {}
        Some(place) => put(mappings, *place, mapping),
    }
}

/// Puts a mapping at this place, if there is one there.
fn put(mappings: &mut BTreeMap<u64, Mapping>, place: u64, mapping: Mapping)
    ensures entries { IsSome (get nat_cmp mappings.old place) → mappings.new.entries ≡ set_value (is_at (nat_cmp place)) mappings.old.entries mapping }
    ensures updates { IsSome (get nat_cmp mappings.old place) → UpdatesBy nat_cmp (nat_cmp place) mappings.old mappings.new (Some mapping) }
    ensures ordered { IsSome (get nat_cmp mappings.old place) → IsOrdered nat_cmp mappings.new }
{
    if let Some(there) = mappings.get_mut(&place) {
        let _ = mem::replace(there, mapping);
    }
}
