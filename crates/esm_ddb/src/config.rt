// The configuration of a mapping whose source is the stream of a DynamoDB table.
ghost use Rattle.std.specs.Prelude.{◌≡◌, Some, IfOk};
ghost use Rattle.serde_json.specs.View.{view};
ghost use Rattle.esm_config.specs.Answer.{IfBad};
ghost use Rattle.esm_config.specs.Given.{IsDynamoGiven};
ghost use Rattle.esm_config.specs.Mapping.{dynamo_config_of};
ghost use Rattle.esm_config.specs.Table.{dynamo_refused};

use esm_config::{ConfigError, read_dynamo};
use esm_model::Config;
use serde_json::Value;
use std::alloc::Global;

/// Reads the configuration of a mapping from its JSON object, whose source is the stream of a DynamoDB table,
/// `arn:aws:dynamodb:REGION:ACCOUNT:table/NAME/stream/LABEL`, with the fields of `CreateEventSourceMapping` of the Lambda
/// API reference. `StartingPosition` has to be `TRIM_HORIZON`; a pattern has at most 4,087 characters and is kept as
/// `{"data":PATTERN}`. Refusals are as in `esm_config::read`.
pub fn read_config(alloc: Global, value: &Value) -> Result<Config, ConfigError>
    ensures ok { IfOk result (λ c. dynamo_config_of (view value.now) ≡ Some c) }
    ensures given { IfOk result (λ c. IsDynamoGiven c) }
    ensures bad { IfBad result (λ param. dynamo_refused (view value.now) ≡ Some param) }
{
    read_dynamo(alloc, value)
}
