// How many mappings have the same source and function.
ghost use Rattle.std.specs.Prelude.{◌≡◌, ◌+◌, ◌-◌, OnOk, OnErr};
ghost use Rattle.esm_registry.specs.Index.{arns_of, is_same, one_of};
ghost use Rattle.esm_registry.specs.Pairs.{ArnTexts, arns, count_at};

use esm_model::{Config, OutOfMemory};
use std::collections::BTreeMap;

/// A source and a function, by their ARNs.
pub(crate) type Pair = (String, String);

/// Whether a configuration has this source and function.
pub(crate) fn is_pair(pair: &Pair, config: &Config) -> bool
    ensures { result ≡ is_same (arns pair.now) (arns_of config.now) }
{
    config.source_arn.as_str() == pair.0.as_str() && config.function_arn.as_str() == pair.1.as_str()
}

/// How many mappings have this source and function.
pub(crate) fn count_of(counts: &BTreeMap<Pair, u64>, pair: &Pair) -> u64
    ensures { result ≡ count_at counts.now pair.now }
{
    counts.get(pair).copied().unwrap_or(0)
}

/// Adds one to the count. After `OutOfMemory` nothing has changed.
pub(crate) fn raise(counts: &mut BTreeMap<Pair, u64>, pair: Pair) -> Result<(), OutOfMemory>
    ensures raised { OnOk result ((p : ArnTexts) → count_at counts.new p ≡ count_at counts.old p + one_of (arns p) (arns pair)) }
    ensures kept { OnErr result ((p : ArnTexts) → count_at counts.new p ≡ count_at counts.old p) }
{
    let count = count_of(counts, &pair);
    if count == u64::MAX {
        return Err(OutOfMemory);
    }
    counts.insert(pair, count + 1)?;
    Ok(())
}

/// Takes one from the count, unless it is 0. Takes no memory.
pub(crate) fn lower(counts: &mut BTreeMap<Pair, u64>, pair: &Pair)
    ensures { (p : ArnTexts) → count_at counts.new p ≡ count_at counts.old p - one_of (arns p) (arns pair.now) }
{
    let count = count_of(counts, pair);
    if count <= 1 {
        counts.remove(pair);
    } else if let Some(left) = counts.get_mut(pair) {
        *left = count - 1;
    }
}
