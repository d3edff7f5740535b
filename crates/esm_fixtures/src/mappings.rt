// Texts, and the mappings of the worked examples.
ghost use Rattle.std.specs.Prelude.{◌≡◌, IfOk};
ghost use Rattle.esm_model.specs.declared.config.Kind.TheVariants.{Standard};
ghost use Rattle.esm_model.specs.Worked.{plain_mapping};
ghost use Rattle.esm_queue_model.specs.WorkedHistories.{queue_mapping};

use esm_model::{Config, Kind, Start, Text, Texts};
use std::alloc::{AllocError, Global};

/// The JSON text of the stream's mapping, without its closing brace.
pub const STREAM_MAPPING: &str =
    "{\"EventSourceArn\":\"arn:aws:kinesis:us-east-1:123456789012:stream/s\",\"FunctionName\":\"f\",\"StartingPosition\":\"TRIM_HORIZON\"";

/// Returns a text of these characters.
pub fn text(alloc: Global, chars: &str) -> Result<Text, AllocError>
    ensures { IfOk result (λ t. t ≡ chars.now) }
{
    Ok(Text::from_vec(String::from_str(alloc, chars)?))
}

/// Returns the mapping of the stream `s` to the function `f`, with each field at its default.
pub fn stream_mapping(alloc: Global) -> Result<Config, AllocError>
    ensures { IfOk result (λ c. c ≡ plain_mapping) }
{
    let source_arn = text(alloc, "arn:aws:kinesis:us-east-1:123456789012:stream/s")?;
    let function = text(alloc, "f")?;
    let function_arn = text(alloc, "arn:aws:lambda:us-east-1:123456789012:function:f")?;
    let region = text(alloc, "us-east-1")?;
    let account = text(alloc, "123456789012")?;
    Ok(Config {
        source_arn,
        function,
        function_arn,
        region,
        account,
        kind: Kind::Stream,
        batch_size: 100,
        window_ms: 0,
        factor: 1,
        retries: None,
        age_ms: None,
        bisect: false,
        item_failures: false,
        tumbling_ms: 0,
        start: Start::TrimHorizon,
        destination: None,
        filters: Texts::from_vec(Vec::new(alloc)),
        concurrency: None,
        enabled: true,
    })
}

/// Returns the mapping of the standard queue `q` to the function `f`, with each field at its default.
pub fn queue_mapping(alloc: Global) -> Result<Config, AllocError>
    ensures { IfOk result (λ c. c ≡ queue_mapping Standard) }
{
    let source_arn = text(alloc, "arn:aws:sqs:us-east-1:123456789012:q")?;
    let mut config = stream_mapping(alloc)?;
    config.source_arn = source_arn;
    config.kind = Kind::Standard;
    config.batch_size = 10;
    Ok(config)
}
