//! An index of a batch's identifiers, in sorted order.
ghost use Rattle.std.specs.Prelude.{◌≡◌, ℕ, List, ◌≤◌, length, map, Some, None, if◌then◌else◌, IfOk, OnOk};
ghost use Rattle.std.specs.Str.{bytes_eq};
ghost use Rattle.esm_verdict.specs.Indexed.{finds, Indexes};

use esm_model::{MAX_BATCH, OutOfMemory, Seq, Text};
use std::alloc::Global;
use std::collections::BTreeMap;

/// What a text identifies: a record by its sequence number, a message by its id.
pub trait Identified {
    ghost identifier: { Self → List ℕ };

    fn id(&self) -> &str
        ensures { result.now ≡ identifier self.now };
}

impl Identified for Seq {
    ghost identifier = { λ number. number };

    fn id(&self) -> &str {
        self.text()
    }
}

impl Identified for Text {
    ghost identifier = { λ id. id };

    fn id(&self) -> &str {
        self.as_str()
    }
}

/// The first position of each identifier in a batch.
#[derive(Drop)]
pub struct Index<'a> {
    pub positions: BTreeMap<&'a str, u32>,
}

impl<'a> Index<'a> {
    fn new(alloc: Global) -> Index<'a>
        ensures { (id : List ℕ) → finds result id ≡ None }
    {
        Index {
            positions: BTreeMap::new(alloc),
        }
    }

    fn put(&mut self, id: &'a str, position: u32) -> Result<(), OutOfMemory>
        ensures { OnOk result ((other : List ℕ) → finds self.new other ≡ (if bytes_eq id.now other then Some position else finds self.old other)) }
    {
        let _ = self.positions.insert(id, position)?;
        Ok(())
    }

    /// The index of a batch of at most `MAX_BATCH`.
    pub fn of<T: Identified>(alloc: Global, batch: &'a [T]) -> Result<Index<'a>, OutOfMemory>
        requires { length batch.now ≤ MAX_BATCH }
        ensures { IfOk result (λ index. Indexes (map T.identifier batch.now) index) }
    {
        let mut index = Index::new(alloc);
        let mut at = batch.len();
        while at > 0 {
            at -= 1;
            index.put(batch[at].id(), at as u32)?;
        }
        Ok(index)
    }

    /// The first position of the identifier, if the batch has it.
    pub fn find(&self, id: &str) -> Option<u32>
        ensures { result ≡ finds self.now id.now }
    {
        self.positions.get(id).copied()
    }
}
