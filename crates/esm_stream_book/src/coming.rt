// The records of items that come from an input.
ghost use Rattle.std.specs.Prelude.{◌≡◌, IfOk};
ghost use Rattle.esm_stream_book.specs.Items.{records_in_items};

use esm_model::{Item, OutOfMemory, Record};
use std::alloc::Global;

/// The records of items, in their order.
pub(crate) fn records_of(alloc: Global, items: Vec<Item>) -> Result<Vec<Record>, OutOfMemory>
    ensures { IfOk result (λ records. records.items ≡ records_in_items items.items) }
{
    let mut records = Vec::new(alloc);
    for item in items {
        match item {
            Item::Stream(record) => records.push(record)?,
            Item::Queue(_) => {}
        }
    }
    Ok(records)
}
