// Copies of a configuration.
ghost use Rattle.std.specs.Prelude.{◌≡◌, IfOk};

use esm_model::{Config, OutOfMemory, Text, Texts};
use std::alloc::Global;

fn copy_texts(alloc: Global, texts: &Texts) -> Result<Texts, OutOfMemory>
    ensures { IfOk result (λ copy. copy ≡ texts.now) }
{
    let mut copies = Vec::new(alloc);
    for text in texts.as_slice() {
        copies.push(text.copy(alloc)?)?;
    }
    Ok(Texts::from_vec(copies))
}

fn copy_optional(alloc: Global, text: &Option<Text>) -> Result<Option<Text>, OutOfMemory>
    ensures { IfOk result (λ copy. copy ≡ text.now) }
{
    match text {
        None => Ok(None),
        Some(text) => Ok(Some(text.copy(alloc)?)),
    }
}

/// A copy of the configuration.
pub fn copy_config(alloc: Global, config: &Config) -> Result<Config, OutOfMemory>
    ensures { IfOk result (λ copy. copy ≡ config.now) }
{
    Ok(Config {
        source_arn: config.source_arn.copy(alloc)?,
        function: config.function.copy(alloc)?,
        function_arn: config.function_arn.copy(alloc)?,
        region: config.region.copy(alloc)?,
        account: config.account.copy(alloc)?,
        kind: config.kind,
        batch_size: config.batch_size,
        window_ms: config.window_ms,
        factor: config.factor,
        retries: config.retries,
        age_ms: config.age_ms,
        bisect: config.bisect,
        item_failures: config.item_failures,
        tumbling_ms: config.tumbling_ms,
        start: config.start,
        destination: copy_optional(alloc, &config.destination)?,
        filters: copy_texts(alloc, &config.filters)?,
        concurrency: config.concurrency,
        enabled: config.enabled,
    })
}
