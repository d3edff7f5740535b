// The starting positions of an input's shards.
ghost use Rattle.std.specs.Prelude.{◌≡◌, ◌++◌, ◌∷◌, [], IfOk, OnOk, if◌then◌else◌};
ghost use Rattle.esm_input.specs.Limits.{shards_with};
ghost use Rattle.esm_input.specs.Positions.{has_begun, from_moment};
ghost use Rattle.esm_input.specs.Begun.{begun_after, kept_from, begun_from};

use esm_model::{Item, OutOfMemory, Start};
use std::alloc::Global;

/// The shards that have begun, which matters only if the starting position is a moment.
#[derive(Drop)]
pub(crate) struct Positions {
    pub(crate) begun: Vec<u64>,
}

impl Positions {
    /// No shard has begun.
    pub(crate) fn new(alloc: Global) -> Positions
        ensures { result.begun.items ≡ [] }
    {
        Positions {
            begun: Vec::new(alloc),
        }
    }

    /// Whether the item is not before the starting position; then its shard has begun. `moment` is in milliseconds since
    /// 1970.
    fn begin(&mut self, moment: u64, item: &Item) -> Result<bool, OutOfMemory>
        ensures value { IfOk result (λ begun. begun ≡ has_begun moment self.old.begun.items item.now) }
        ensures noted { IfOk result (λ begun. self.new.begun.items
            ≡ (if begun then shards_with self.old.begun.items item.now else self.old.begun.items)) }
    {
        let Item::Stream(record) = item else {
            return Ok(true);
        };
        let shard = record.shard();
        if self.begun.contains(&shard) {
            return Ok(true);
        }
        if record.arrival() < moment {
            return Ok(false);
        }
        self.begun.push(shard)?;
        Ok(true)
    }

    /// Keeps the item if it is not before the starting position.
    fn keep_one(&mut self, kept: &mut Vec<Item>, moment: u64, item: Item) -> Result<(), OutOfMemory>
        ensures kept { OnOk result (kept.new.items ≡ kept.old.items ++ from_moment moment self.old.begun.items (item ∷ [])) }
        ensures begun { OnOk result (self.new.begun.items ≡ begun_after moment self.old.begun.items (item ∷ [])) }
    {
        if !self.begin(moment, &item)? {
            return Ok(());
        }
        kept.push(item)?;
        Ok(())
    }

    /// The items that are not before the starting position, in their order.
    fn keep_from(
        &mut self,
        alloc: Global,
        moment: u64,
        items: Vec<Item>,
    ) -> Result<Vec<Item>, OutOfMemory>
        ensures kept { IfOk result (λ kept. kept.items ≡ from_moment moment self.old.begun.items items.items) }
        ensures begun { IfOk result (λ kept. self.new.begun.items ≡ begun_after moment self.old.begun.items items.items) }
    {
        let mut kept = Vec::new(alloc);
        let mut rest = items;
        rest.reverse();
        while let Some(item) = rest.pop() {
            self.keep_one(&mut kept, moment, item)?;
        }
        Ok(kept)
    }

    /// The items from the starting position on, in their order; all of them where that is no moment.
    pub(crate) fn keep(
        &mut self,
        alloc: Global,
        start: Start,
        items: Vec<Item>,
    ) -> Result<Vec<Item>, OutOfMemory>
        ensures kept { IfOk result (λ kept. kept.items ≡ kept_from start self.old.begun.items items.items) }
        ensures begun { IfOk result (λ kept. self.new.begun.items ≡ begun_from start self.old.begun.items items.items) }
    {
        match start {
            Start::At(moment) => self.keep_from(alloc, moment, items),
            Start::TrimHorizon => Ok(items),
            Start::Latest => Ok(items),
        }
    }
}
