// The last sequence number of each shard, while the lines of an input are read.
ghost use Rattle.std.specs.Prelude.{◌≡◌, ◌==◌, ℕ, Some, None, option_map, if◌then◌else◌, OnOk};
ghost use Rattle.std.specs.String.{string_bytes};
ghost use Rattle.esm_record.specs.Numbers.{number_in};

use esm_model::OutOfMemory;
use std::alloc::Global;
use std::collections::BTreeMap;

/// The last sequence number of each shard, overwritten by the shard's next one.
#[derive(Drop)]
pub struct Numbers {
    pub of_shards: BTreeMap<u64, String>,
}

fn write_over(kept: &mut String, number: &str) -> Result<(), OutOfMemory>
    ensures { OnOk result (string_bytes kept.new ≡ number.now) }
{
    kept.clear();
    kept.push_str(number)?;
    Ok(())
}

impl Numbers {
    /// The numbers of an input without records.
    pub fn new(alloc: Global) -> Numbers
        ensures { (shard : ℕ) → number_in result shard ≡ None }
    {
        Numbers {
            of_shards: BTreeMap::new(alloc),
        }
    }

    pub fn last(&self, shard: u64) -> Option<&str>
        ensures { option_map (λ t. t.now) result ≡ number_in self.now shard }
    {
        match self.of_shards.get(&shard) {
            Some(number) => Some(number.as_str()),
            None => None,
        }
    }

    /// Adds the first number of a shard.
    fn add(&mut self, alloc: Global, shard: u64, number: &str) -> Result<(), OutOfMemory>
        ensures { OnOk result ((s : ℕ) → number_in self.new s
            ≡ (if shard == s then Some number.now else number_in self.old s)) }
    {
        let number = String::from_str(alloc, number)?;
        let _ = self.of_shards.insert(shard, number)?;
        Ok(())
    }

    /// Makes the number the last one of its shard.
    pub fn keep(&mut self, alloc: Global, shard: u64, number: &str) -> Result<(), OutOfMemory>
        ensures { OnOk result ((s : ℕ) → number_in self.new s
            ≡ (if shard == s then Some number.now else number_in self.old s)) }
    {
        match self.of_shards.get_mut(&shard) {
            Some(kept) => write_over(kept, number),
            None => self.add(alloc, shard, number),
        }
    }
}
