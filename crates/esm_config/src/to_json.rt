// Writing a configuration as the JSON text of its mapping.
ghost use Rattle.std.specs.Prelude.{◌≡◌, false, IfOk, option_map};
ghost use Rattle.std.specs.String.{string_bytes};
ghost use Rattle.serde_json.specs.Data.{no_members};
ghost use Rattle.serde_json.specs.View.{view};
ghost use Rattle.serde_json.specs.Written.{members_have_float};
ghost use Rattle.esm_config.specs.Member.{and_members, members_of};
ghost use Rattle.esm_config.specs.Text.{config_members, config_text, kind_settings, queue_settings, settings_of, stream_settings, with, with_some};

use crate::member::Member;
use crate::object::object_string;
use crate::param::Param;
use crate::values::{
    concurrency, criteria, destination, position, response_types, seconds, seconds_or_none,
    timestamp, whole_or_none,
};
use esm_model::OutOfMemory;
use esm_model::config::{Config, Kind};
use serde_json::Value;
use std::alloc::{AllocFailed, Global};

/// Adds the field after the members.
#[tactic(auto, using(crate::proofs::Members::members_of_push))]
fn with(
    mut members: Vec<Member>,
    param: Param,
    value: Value,
) -> Result<Vec<Member>, AllocFailed<Member>>
    ensures { IfOk result (λ all. members_of all.items ≡ and_members (members_of members.items) (with param (view value) no_members)) }
{
    let name = param.name();
    members.push(Member { name, value })?;
    Ok(members)
}

/// Adds the field after the members, if it has a value.
#[tactic(auto, using(crate::proofs::Members::and_none))]
fn with_some(
    members: Vec<Member>,
    param: Param,
    value: Option<Value>,
) -> Result<Vec<Member>, AllocFailed<Member>>
    ensures { IfOk result (λ all. members_of all.items ≡ and_members (members_of members.items) (with_some param (option_map view value) no_members)) }
{
    match value {
        Some(value) => with(members, param, value),
        None => Ok(members),
    }
}

fn stream_settings(
    alloc: Global,
    before: Vec<Member>,
    config: &Config,
) -> Result<Vec<Member>, OutOfMemory>
    ensures { IfOk result (λ all. members_of all.items ≡ and_members (members_of before.items) (stream_settings config.now)) }
{
    let start = config.start;
    let m1 = with(before, Param::StartingPosition, position(alloc, start)?)?;
    let m2 = with_some(m1, Param::StartingPositionTimestamp, timestamp(start))?;
    let m3 = with(m2, Param::ParallelizationFactor, Value::from(config.factor))?;
    let retries = whole_or_none(config.retries);
    let m4 = with(m3, Param::MaximumRetryAttempts, retries)?;
    let age = seconds_or_none(config.age_ms);
    let m5 = with(m4, Param::MaximumRecordAgeInSeconds, age)?;
    let m6 = with(
        m5,
        Param::BisectBatchOnFunctionError,
        Value::from(config.bisect),
    )?;
    let m7 = with(
        m6,
        Param::TumblingWindowInSeconds,
        seconds(config.tumbling_ms),
    )?;
    let on_failure = destination(alloc, &config.destination)?;
    Ok(with_some(m7, Param::DestinationConfig, on_failure)?)
}

fn queue_settings(
    alloc: Global,
    before: Vec<Member>,
    config: &Config,
) -> Result<Vec<Member>, OutOfMemory>
    ensures { IfOk result (λ all. members_of all.items ≡ and_members (members_of before.items) (queue_settings config.now)) }
{
    let scaling = concurrency(alloc, config.concurrency)?;
    Ok(with_some(before, Param::ScalingConfig, scaling)?)
}

fn kind_settings(
    alloc: Global,
    before: Vec<Member>,
    config: &Config,
) -> Result<Vec<Member>, OutOfMemory>
    ensures { IfOk result (λ all. members_of all.items ≡ and_members (members_of before.items) (kind_settings config.now.kind config.now)) }
{
    match config.kind {
        Kind::Stream => stream_settings(alloc, before, config),
        Kind::Standard | Kind::Fifo => queue_settings(alloc, before, config),
    }
}

/// Adds the configuration's members from `BatchSize` on, in the order of the table, after those given.
pub fn settings(
    alloc: Global,
    before: Vec<Member>,
    config: &Config,
) -> Result<Vec<Member>, OutOfMemory>
    ensures members { IfOk result (λ all. members_of all.items ≡ and_members (members_of before.items) (settings_of config.now)) }
    ensures no_float { members_have_float (members_of before.items) ≡ false → IfOk result (λ all. members_have_float (members_of all.items) ≡ false) }
{
    let m1 = with(before, Param::BatchSize, Value::from(config.batch_size))?;
    let window = seconds(config.window_ms);
    let m2 = with(m1, Param::MaximumBatchingWindowInSeconds, window)?;
    let filters = criteria(alloc, config.filters.as_slice())?;
    let m3 = with_some(m2, Param::FilterCriteria, filters)?;
    let types = response_types(alloc, config.item_failures)?;
    let m4 = with(m3, Param::FunctionResponseTypes, types)?;
    Ok(kind_settings(alloc, m4, config)?)
}

/// The members of the configuration's object, in the order of the table.
pub fn config_members(alloc: Global, config: &Config) -> Result<Vec<Member>, OutOfMemory>
    ensures members { IfOk result (λ all. members_of all.items ≡ config_members config.now) }
    ensures no_float { IfOk result (λ all. members_have_float (members_of all.items) ≡ false) }
{
    let source = Value::try_from_str(alloc, config.source_arn.as_str())?;
    let m1 = with(Vec::new(alloc), Param::EventSourceArn, source)?;
    let function = Value::try_from_str(alloc, config.function_arn.as_str())?;
    let m2 = with(m1, Param::FunctionName, function)?;
    let m3 = with(m2, Param::Enabled, Value::from(config.enabled))?;
    Ok(settings(alloc, m3, config)?)
}

/// The JSON text of the configuration: every field of its kind that has a value, defaults included, in the order of the
/// table. The function is named by its full ARN.
pub fn config_string(alloc: Global, config: &Config) -> Result<String, OutOfMemory>
    ensures { IfOk result (λ text. string_bytes text ≡ config_text config.now) }
{
    let members = config_members(alloc, config)?;
    object_string(alloc, members.as_slice())
}

/// The bytes of that text.
pub fn text(alloc: Global, config: &Config) -> Result<Vec<u8>, OutOfMemory>
    ensures { IfOk result (λ text. text.items ≡ config_text config.now) }
{
    let text = config_string(alloc, config)?;
    Ok(text.into_bytes())
}
