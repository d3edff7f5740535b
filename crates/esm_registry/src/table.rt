// The mappings in memory, found by place, by UUID, and by source and function.
ghost use Rattle.std.specs.Prelude.{◌≡◌, ◌+◌, ◌<◌, ◌^◌, ◌∷◌, ◌++◌, [], Some, None, OnOk, OnErr, IfOk, map};
ghost use Rattle.std.specs.Option.{option_copied};
ghost use Rattle.std.specs.List.{IsDistinct, All};
ghost use Rattle.std.specs.Str.{bytes_eq};
ghost use Rattle.esm_config.specs.Given.{IsGiven};
ghost use Rattle.esm_registry.specs.Lists.{no_mappings, mapping_at, without, replaced};
ghost use Rattle.esm_registry.specs.Index.{HasPair, arns_of, count_in};
ghost use Rattle.esm_registry.specs.Pairs.{arns};
ghost use Rattle.esm_registry.specs.Texts.{list_text};

use crate::answers::push_mapping;
use crate::counts::{Pair, count_of, is_pair, lower, raise};
use crate::mapping::Mapping;
use crate::places::{place, replace, unplace};
use esm_model::OutOfMemory;
use std::alloc::Global;
use std::collections::BTreeMap;
use std::marker::Model;
use uuid::Uuid;

#[derive(Drop)]
pub(crate) struct Table {
    /// By place, which is the order of creation.
    mappings: BTreeMap<u64, Mapping>,
    places: BTreeMap<Uuid, u64>,
    /// How many mappings have a source and a function; one more while it is promised.
    counts: BTreeMap<Pair, u64>,
    /// The place of the next mapping.
    next: u64,
    created: u64,
    promised: Option<Pair>,
}

impl Model for Table {
    ghost use Rattle.esm_registry.specs.Index.{TableState};

    ghost Value = { TableState };

    ghost use Rattle.esm_registry.specs.Tables.{table_state, IsTable};

    ghost view = { table_state };

    ghost invariant = { IsTable };
}

impl Table {
    pub(crate) fn new(alloc: Global) -> Table
        ensures { result ≡ record { mappings = no_mappings; promised = None } }
    {
        Table {
            mappings: BTreeMap::new(alloc),
            places: BTreeMap::new(alloc),
            counts: BTreeMap::new(alloc),
            next: 0,
            created: 0,
            promised: None,
        }
    }

    /// The mapping with this UUID.
    pub(crate) fn find(&self, id: &Uuid) -> Option<&Mapping>
        ensures { option_copied result ≡ mapping_at id.now self.now.mappings.list }
    {
        match self.places.get(id) {
            None => None,
            Some(place) => self.mappings.get(place),
        }
    }

    /// How many mappings were ever created.
    pub(crate) fn created(&self) -> u64
        ensures created { result ≡ self.now.mappings.created }
        ensures distinct { IsDistinct bytes_eq (map (λ m. m.id) self.now.mappings.list) }
        ensures given { All (λ m. IsGiven m.config) self.now.mappings.list }
    {
        self.created
    }

    /// How many mappings have this source and function.
    pub(crate) fn count(&self, pair: &Pair) -> u64
        requires { self.now.promised ≡ None }
        ensures { result ≡ count_in (arns pair.now) self.now.mappings.list }
    {
        count_of(&self.counts, pair)
    }

    /// How many mappings other than this one have this source and function.
    pub(crate) fn count_beside(&self, mapping: &Mapping, pair: &Pair) -> u64
        requires free { self.now.promised ≡ None }
        requires there { mapping_at mapping.now.id self.now.mappings.list ≡ Some mapping.now }
        ensures { result ≡ count_in (arns pair.now) (without mapping.now.id self.now.mappings.list) }
    {
        let count = count_of(&self.counts, pair);
        if is_pair(pair, &mapping.config) {
            count - 1
        } else {
            count
        }
    }

    /// Adds a mapping behind the others. After `OutOfMemory` nothing has changed.
    pub(crate) fn add(&mut self, mapping: Mapping, pair: Pair) -> Result<(), OutOfMemory>
        requires is_new { mapping_at mapping.id self.old.mappings.list ≡ None }
        requires pair { arns pair ≡ arns_of mapping.config }
        requires given { IsGiven mapping.config }
        ensures added { OnOk result (self.new ≡ record {
          mappings = record { list = self.old.mappings.list ++ mapping ∷ []; created = self.old.mappings.created };
          promised = self.old.promised;
        }) }
        ensures kept { OnErr result (self.new ≡ self.old) }
    {
        if self.next == u64::MAX {
            return Err(OutOfMemory);
        }
        let id = mapping.id;
        place(&mut self.mappings, &mut self.places, self.next, mapping)?;
        self.next += 1;
        match raise(&mut self.counts, pair) {
            Ok(()) => Ok(()),
            Err(OutOfMemory) => {
                unplace(&mut self.mappings, &mut self.places, &id);
                Err(OutOfMemory)
            }
        }
    }

    /// Counts one more creation.
    pub(crate) fn count_creation(&mut self)
        requires { self.old.mappings.created + 1 < 2 ^ 64 }
        ensures { self.new ≡ record {
          mappings = record { list = self.old.mappings.list; created = self.old.mappings.created + 1 };
          promised = self.old.promised;
        } }
    {
        self.created += 1;
    }

    /// Removes a mapping, which has this source and function. Takes no memory.
    pub(crate) fn remove(&mut self, id: &Uuid, pair: &Pair)
        requires { HasPair self.old.mappings.list id.now (arns pair.now) }
        ensures { self.new ≡ record {
          mappings = record { list = without id.now self.old.mappings.list; created = self.old.mappings.created };
          promised = self.old.promised;
        } }
    {
        unplace(&mut self.mappings, &mut self.places, id);
        lower(&mut self.counts, pair);
    }

    /// Takes the memory for a mapping to get this source and function, so that `replace` takes none. After `OutOfMemory`
    /// nothing has changed.
    pub(crate) fn promise(&mut self, pair: Pair) -> Result<(), OutOfMemory>
        requires { self.old.promised ≡ None }
        ensures promised { OnOk result (self.new ≡ record { mappings = self.old.mappings; promised = Some (arns pair) }) }
        ensures kept { OnErr result (self.new ≡ self.old) }
    {
        let source = pair.0.clone()?;
        let function = pair.1.clone()?;
        raise(&mut self.counts, (source, function))?;
        self.promised = Some(pair);
        Ok(())
    }

    /// Takes the promise back. Takes no memory.
    pub(crate) fn release(&mut self)
        ensures { self.new ≡ record { mappings = self.old.mappings; promised = None } }
    {
        if let Some(pair) = self.promised.take() {
            lower(&mut self.counts, &pair);
        }
    }

    /// Puts a mapping in place of the one with its UUID, which has this source and function; those of the new one were
    /// promised. Takes no memory.
    pub(crate) fn replace(&mut self, mapping: Mapping, pair: &Pair)
        requires its { HasPair self.old.mappings.list mapping.id (arns pair.now) }
        requires promised { self.old.promised ≡ Some (arns_of mapping.config) }
        requires given { IsGiven mapping.config }
        ensures { self.new ≡ record {
          mappings = record { list = replaced mapping.id mapping self.old.mappings.list; created = self.old.mappings.created };
          promised = None;
        } }
    {
        replace(&mut self.mappings, &self.places, mapping);
        lower(&mut self.counts, pair);
        self.promised = None;
    }

    /// The answer's body with all mappings.
    pub(crate) fn text(&self, alloc: Global) -> Result<Vec<u8>, OutOfMemory>
        ensures { IfOk result (λ text. text.items ≡ list_text self.now.mappings.list) }
    {
        let mut text = Vec::from_slice(alloc, b"{\"EventSourceMappings\":[")?;
        let mut later = false;
        for mapping in self.mappings.values() {
            push_mapping(alloc, &mut text, later, mapping)?;
            later = true;
        }
        text.extend_from_slice(b"]}")?;
        Ok(text)
    }
}
