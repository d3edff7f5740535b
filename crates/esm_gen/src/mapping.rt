// The mapping of a generated stream, and the key whose records its function fails.
ghost use Rattle.std.specs.Prelude.{◌≡◌, true, is_ok, IfOk};
ghost use Rattle.esm_gen.specs.Generated as spec;
ghost use Rattle.esm_model.specs.Pattern.{read_patterns};
ghost use Rattle.esm_model.specs.Valid.{IsStreamConfig, is_stream};

use esm_model::{Bytes, Config, Kind, OutOfMemory, Start, Text, Texts};
use std::alloc::Global;

/// A copy of the text.
fn text(alloc: Global, source: &str) -> Result<Text, OutOfMemory>
    ensures { IfOk result (λ copy. copy ≡ source.now) }
{
    Ok(Text::from_vec(String::from_str(alloc, source)?))
}

/// Makes the filters of a generated stream's mapping: they pass records whose data has an `n` below 8, and those of the key
/// `k49`.
fn generated_filters(alloc: Global) -> Result<Texts, OutOfMemory>
    ensures { IfOk result (λ filters. filters ≡ spec.generated_filters) }
{
    let mut filters = Vec::new(alloc);
    let low = text(alloc, "{\"data\":{\"n\":[{\"numeric\":[\"<\",8]}]}}")?;
    let keyed = text(alloc, "{\"partitionKey\":[\"k49\"]}")?;
    filters.push(low)?;
    filters.push(keyed)?;
    Ok(Texts::from_vec(filters))
}

/// Makes the mapping of a generated stream: ten lanes for each shard, batches of a hundred, halving of failed batches, three
/// retries, and a greatest age of an hour. `OutOfMemory` if an allocation failed.
#[tactic(auto, using(crate::proofs::MappingIsGood::is_valid, crate::proofs::MappingIsGood::are_patterns))]
pub fn generated_mapping(alloc: Global) -> Result<Config, OutOfMemory>
    ensures mapping { IfOk result (λ config. config ≡ spec.generated_mapping) }
    ensures valid { IfOk result (λ config. IsStreamConfig config) }
    ensures patterns { IfOk result (λ config. is_ok (read_patterns (is_stream config.kind) config.filters) ≡ true) }
{
    Ok(Config {
        source_arn: text(alloc, "arn:aws:kinesis:us-east-1:123456789012:stream/s")?,
        function: text(alloc, "f")?,
        function_arn: text(alloc, "arn:aws:lambda:us-east-1:123456789012:function:f")?,
        region: text(alloc, "us-east-1")?,
        account: text(alloc, "123456789012")?,
        kind: Kind::Stream,
        batch_size: 100,
        window_ms: 0,
        factor: 10,
        retries: Some(3),
        age_ms: Some(3_600_000),
        bisect: true,
        item_failures: false,
        tumbling_ms: 0,
        start: Start::TrimHorizon,
        destination: None,
        filters: generated_filters(alloc)?,
        concurrency: None,
        enabled: true,
    })
}

/// Returns the part of an event that holds a record of the key `k49`. The function of a generated stream fails the events
/// that have it.
pub fn poisoned_key(alloc: Global) -> Result<Bytes, OutOfMemory>
    ensures { IfOk result (λ part. part ≡ spec.poisoned_key) }
{
    Ok(Bytes::from_vec(Vec::from_slice(alloc, b"\"partitionKey\":\"k49\"")?))
}
