// Reading a mapping from its JSON text, of the kind that a command expects.
ghost use Rattle.std.specs.Prelude.{◌≡◌, Some, IfOk, IfErr};
ghost use Rattle.serde_json.specs.Read.{read as read_json};
ghost use Rattle.serde_json.specs.View.{view};
ghost use Rattle.esm_config.specs.Answer.{IfBad};
ghost use Rattle.esm_mapping.specs.Expected.{config_as, IsGivenAs, refused_as};
ghost use Rattle.esm_mapping.specs.Named.{IsExpected, WhyNotExpected};

use crate::expected::{Expected, is_expected};
use crate::named::{MappingError, NamedMapping};
use crate::starting::is_latest;
use esm_config::{ConfigError, Param, read, read_dynamo};
use esm_model::{Config, OutOfMemory, Text, parse_json_text};
use serde_json::Value;
use std::alloc::Global;

/// The mapping with the configuration that the text gives, if it is of the expected kind and may run.
fn configured(
    expected: Expected,
    text: &Text,
    value: &Value,
    config: Config,
) -> Result<NamedMapping, MappingError>
    requires read { read_json text.now ≡ Some (view value.now) }
    requires fields { config_as expected (view value.now) ≡ Some config }
    requires given { IsGivenAs expected config }
    ensures named { IfOk result (IsExpected expected text.now) }
    ensures why { IfErr result (WhyNotExpected expected text.now) }
{
    let _ = text;
    let _ = value;
    if !is_expected(expected, config.kind) {
        return Err(MappingError::BadParam(Param::EventSourceArn));
    }
    if is_latest(config.start) {
        return Err(MappingError::BadParam(Param::StartingPosition));
    }
    if !config.enabled {
        return Err(MappingError::Disabled);
    }
    let start = config.start;
    Ok(NamedMapping { config, start })
}

/// Reads the configuration from the value, by the table of the expected kind.
fn read_fields(alloc: Global, expected: Expected, value: &Value) -> Result<Config, ConfigError>
    ensures ok { IfOk result (λ c. config_as expected (view value.now) ≡ Some c) }
    ensures given { IfOk result (IsGivenAs expected) }
    ensures bad { IfBad result (λ param. refused_as expected (view value.now) ≡ Some param) }
{
    match expected {
        Expected::StreamOrQueue | Expected::Stream | Expected::Queue => read(alloc, value),
        Expected::DynamoDb => read_dynamo(alloc, value),
    }
}

/// Reads the mapping from the text, which reads as this value.
fn read_value(
    alloc: Global,
    expected: Expected,
    text: &Text,
    value: &Value,
) -> Result<NamedMapping, MappingError>
    requires { read_json text.now ≡ Some (view value.now) }
    ensures named { IfOk result (IsExpected expected text.now) }
    ensures why { IfErr result (WhyNotExpected expected text.now) }
{
    match read_fields(alloc, expected, value) {
        Ok(config) => configured(expected, text, value, config),
        Err(ConfigError::BadParam(param)) => Err(MappingError::BadParam(param)),
        Err(ConfigError::OutOfMemory) => Err(MappingError::OutOfMemory),
    }
}

/// Reads the mapping from a text, for a command that expects a mapping of this kind. `BadParam` names the first field that
/// is refused, in the order of the table; `Body` means that the text is no JSON object. If the table refuses none, it is
/// `EventSourceArn` for a mapping of another kind, enabled or not, and then `StartingPosition` for a `LATEST`. `Disabled` is
/// returned where nothing else is refused.
pub fn read_expected(
    alloc: Global,
    expected: Expected,
    text: &Text,
) -> Result<NamedMapping, MappingError>
    ensures named { IfOk result (IsExpected expected text.now) }
    ensures why { IfErr result (WhyNotExpected expected text.now) }
{
    match parse_json_text(alloc, text.as_str()) {
        Ok(Some(value)) => read_value(alloc, expected, text, &value),
        Ok(None) => Err(MappingError::BadParam(Param::Body)),
        Err(OutOfMemory) => Err(MappingError::OutOfMemory),
    }
}
