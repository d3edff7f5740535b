// Reading the configuration of a new mapping from its JSON object.
ghost use Rattle.std.specs.Prelude.{◌≡◌, Some, IfOk};
ghost use Rattle.serde_json.specs.View.{view};
ghost use Rattle.esm_config.specs.Answer.{IfBad};
ghost use Rattle.esm_config.specs.Given.{IsDynamoGiven, IsGiven};
ghost use Rattle.esm_config.specs.Mapping.{config_of, dynamo_config_of};
ghost use Rattle.esm_config.specs.Table.{dynamo_refused, refused};

use crate::given::Fields;
use crate::judged::judged;
use crate::param::{ConfigError, Param};
use crate::sources::Sources;
use esm_model::config::Config;
use serde_json::Value;
use std::alloc::Global;

/// Reads the configuration from a mapping's object, whose fields are those of `CreateEventSourceMapping` of the Lambda API
/// reference. A field that is `null` counts as absent. `BadParam` names the first field that is refused, in the order of the
/// table: `Unknown` comes after all others, and `Body` is returned if the value is no object. `OutOfMemory` is returned
/// where there is no memory for the filters, which may be before a later field is refused, or for the texts.
pub fn read(alloc: Global, value: &Value) -> Result<Config, ConfigError>
    ensures ok { IfOk result (λ c. config_of (view value.now) ≡ Some c) }
    ensures given { IfOk result (λ c. IsGiven c) }
    ensures bad { IfBad result (λ param. refused (view value.now) ≡ Some param) }
{
    let Some(members) = value.as_object() else {
        return Err(ConfigError::BadParam(Param::Body));
    };
    judged(alloc, Fields::New(Sources::KinesisOrSqs, value), members)
}

/// Reads the configuration from a mapping's object whose source is the stream of a DynamoDB table,
/// `arn:aws:dynamodb:REGION:ACCOUNT:table/NAME/stream/LABEL`, with the same fields. Its `StartingPosition` has to be
/// `TRIM_HORIZON`. A pattern has at most 4,087 characters, reads as a JSON object by itself, and is kept as
/// `{"data":PATTERN}`. `BadParam` and `OutOfMemory` are returned as by `read`.
pub fn read_dynamo(alloc: Global, value: &Value) -> Result<Config, ConfigError>
    ensures ok { IfOk result (λ c. dynamo_config_of (view value.now) ≡ Some c) }
    ensures given { IfOk result (λ c. IsDynamoGiven c) }
    ensures bad { IfBad result (λ param. dynamo_refused (view value.now) ≡ Some param) }
{
    let Some(members) = value.as_object() else {
        return Err(ConfigError::BadParam(Param::Body));
    };
    judged(alloc, Fields::New(Sources::DynamoDb, value), members)
}
