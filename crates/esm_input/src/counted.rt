// Counting the items of an input against the limits.
ghost use Rattle.std.specs.Prelude.{◌≡◌, ◌≤◌, [], length, None, IfOk, OnOk, OnErr};
ghost use Rattle.esm_input.specs.Limits.{item_bytes, shards_with};
ghost use Rattle.esm_input.specs.Counting.{IsCountOf, IsWithin, CountsMore, CountsOn, IsFront, passed_by};

use esm_model::{Item, LimitName, MAX_INPUT, MAX_LANES, MAX_RECORDS, MAX_SHARDS, OutOfMemory};
use std::alloc::Global;

/// The number of items so far, the number of their bytes, and their shards, in the order of first appearance.
#[derive(Drop)]
pub(crate) struct Counted {
    pub(crate) items: usize,
    pub(crate) bytes: usize,
    pub(crate) shards: Vec<u64>,
}

/// How many of a list's first items are within the limits, and the limit that the next one exceeds, if it does.
#[derive(Drop)]
pub(crate) struct Front {
    pub(crate) count: usize,
    pub(crate) limit: Option<LimitName>,
}

/// The number of bytes of a record's data, or of a message's body.
fn bytes_of(item: &Item) -> usize
    ensures { result ≡ item_bytes item.now }
{
    match item {
        Item::Stream(record) => record.data_len(),
        Item::Queue(message) => message.body.as_slice().len(),
    }
}

/// Notes the shard of an item, if it has one that was not noted yet.
fn note_shard(shards: &mut Vec<u64>, item: &Item) -> Result<(), OutOfMemory>
    ensures noted { OnOk result (shards.new.items ≡ shards_with shards.old.items item.now) }
    ensures kept { OnErr result (shards.new.items ≡ shards.old.items) }
{
    if let Item::Stream(record) = item {
        let shard = record.shard();
        if shards.contains(&shard) {
            return Ok(());
        }
        shards.push(shard)?;
    }
    Ok(())
}

impl Counted {
    /// The counts of no items.
    pub(crate) fn new(alloc: Global) -> Counted
        ensures count { IsCountOf result [] }
        ensures within { IsWithin result }
    {
        Counted {
            items: 0,
            bytes: 0,
            shards: Vec::new(alloc),
        }
    }

    /// The number of shards, that of the item included.
    fn shards_with(&self, item: &Item) -> usize
        requires { IsWithin self.now }
        ensures { result ≡ length (shards_with self.now.shards.items item.now) }
    {
        match item {
            Item::Stream(record) => {
                let shard = record.shard();
                if self.shards.contains(&shard) {
                    self.shards.len()
                } else {
                    self.shards.len() + 1
                }
            }
            Item::Queue(_) => self.shards.len(),
        }
    }

    /// The first limit that one more item exceeds; `factor` is the number of lanes of a shard.
    fn limit(&self, factor: u32, item: &Item) -> Option<LimitName>
        requires within { IsWithin self.now }
        requires few { factor ≤ 10 }
        ensures { result ≡ passed_by factor self.now item.now }
    {
        if self.items >= MAX_RECORDS {
            return Some(LimitName::Records);
        }
        if bytes_of(item) > MAX_INPUT - self.bytes {
            return Some(LimitName::Bytes);
        }
        let shards = self.shards_with(item);
        if shards > MAX_SHARDS {
            return Some(LimitName::Shards);
        }
        if shards * factor as usize > MAX_LANES {
            return Some(LimitName::Lanes);
        }
        None
    }

    /// Counts an item, or returns the limit that it exceeds.
    fn add(&mut self, factor: u32, item: &Item) -> Result<Option<LimitName>, OutOfMemory>
        requires within { IsWithin self.old }
        requires few { factor ≤ 10 }
        ensures within { OnOk result (IsWithin self.new) }
        ensures limit { IfOk result (λ limit. limit ≡ passed_by factor self.old item.now) }
        ensures counted { result ≡ Ok None → CountsMore self.old self.new item.now }
    {
        if let Some(limit) = self.limit(factor, item) {
            return Ok(Some(limit));
        }
        note_shard(&mut self.shards, item)?;
        self.items += 1;
        self.bytes += bytes_of(item);
        Ok(None)
    }

    /// Counts the items in order, up to the first that exceeds a limit.
    pub(crate) fn count_front(&mut self, factor: u32, items: &[Item]) -> Result<Front, OutOfMemory>
        requires within { IsWithin self.old }
        requires few { factor ≤ 10 }
        ensures within { OnOk result (IsWithin self.new) }
        ensures front { IfOk result (λ front. IsFront factor self.old items.now front.count front.limit) }
        ensures all { IfOk result (λ front. front.limit ≡ None → front.count ≡ length items.now) }
        ensures counted { IfOk result (λ front. front.limit ≡ None → CountsOn self.old self.new items.now) }
    {
        for (count, item) in items.iter().enumerate() {
            if let Some(limit) = self.add(factor, item)? {
                return Ok(Front {
                    count,
                    limit: Some(limit),
                });
            }
        }
        Ok(Front {
            count: items.len(),
            limit: None,
        })
    }
}
