//! The rows of the table, in groups: each group returns the first field that is refused, or what its fields say.
ghost use Rattle.std.specs.Prelude.{◌≡◌};
ghost use Rattle.std.specs.Result.{result_map_both};
ghost use Rattle.esm_config.specs.Answer.{Tells};
ghost use Rattle.esm_config.specs.Judged.{batching_of, care_of, pace_of, parties_of, start_field};
ghost use Rattle.esm_config.specs.View.{batching_view, care_view, fields_view, pace_view, parties_view};

use crate::common::{batch_size_in, enabled_in, item_failures_in, window_in};
use crate::criteria::filters_in;
use crate::function::{FunctionName, function_in};
use crate::given::Fields;
use crate::param::{ConfigError, Param};
use crate::source::{Source, source_in};
use crate::stream::{
    age_in, bisect_in, concurrency_in, destination_in, factor_in, position_in, retries_in,
    start_in, tumbling_in,
};
use esm_model::config::{Kind, Start};
use esm_model::text::Texts;
use std::alloc::Global;

/// The source that is read, and the function that is called.
#[derive(Clone, Copy, Debug)]
pub struct Parties<'a> {
    pub source: Source<'a>,
    pub function: FunctionName<'a>,
    pub enabled: bool,
}

/// How batches are cut.
#[derive(Drop, Debug)]
pub struct Batching {
    pub batch_size: u32,
    pub window_ms: u64,
    pub filters: Texts,
    pub item_failures: bool,
}

/// How fast a stream is read, and how often and how long a record is tried.
#[derive(Clone, Copy, Debug)]
pub struct Pace {
    pub factor: u32,
    pub retries: Option<u32>,
    pub age_ms: Option<u64>,
}

/// What becomes of failures and windows, and a queue's concurrency.
#[derive(Clone, Copy, Debug)]
pub struct Care<'a> {
    pub bisect: bool,
    pub tumbling_ms: u64,
    pub destination: Option<&'a str>,
    pub concurrency: Option<u32>,
}

/// Judges the rows up to `Enabled`.
pub fn parties_of<'a>(fields: Fields<'a>) -> Result<Parties<'a>, Param>
    ensures { result_map_both parties_view (λ p. p) result ≡ parties_of (fields_view fields.entry) }
{
    if fields.is_barred(Param::EventSourceArn) {
        return Err(Param::EventSourceArn);
    }
    let Some(source) = source_in(fields.sources(), fields.look(Param::EventSourceArn)) else {
        return Err(Param::EventSourceArn);
    };
    let Some(function) = function_in(fields.look(Param::FunctionName)) else {
        return Err(Param::FunctionName);
    };
    match enabled_in(fields.look(Param::Enabled)) {
        Some(enabled) => Ok(Parties {
            source,
            function,
            enabled,
        }),
        None => Err(Param::Enabled),
    }
}

/// Judges the rows from `BatchSize` to `FunctionResponseTypes`. `OutOfMemory` is returned where there is no memory for the
/// filters.
pub fn batching_of(alloc: Global, kind: Kind, fields: Fields<'_>) -> Result<Batching, ConfigError>
    ensures { Tells batching_view result (batching_of kind (fields_view fields.entry)) }
{
    let Some(batch_size) = batch_size_in(kind, fields.look(Param::BatchSize)) else {
        return Err(ConfigError::BadParam(Param::BatchSize));
    };
    let window = fields.look(Param::MaximumBatchingWindowInSeconds);
    let Some(window_ms) = window_in(kind, batch_size, window) else {
        return Err(ConfigError::BadParam(Param::MaximumBatchingWindowInSeconds));
    };
    let patterns = fields.look(Param::FilterCriteria);
    let Some(filters) = filters_in(alloc, fields.sources(), kind, patterns)? else {
        return Err(ConfigError::BadParam(Param::FilterCriteria));
    };
    match item_failures_in(fields.look(Param::FunctionResponseTypes)) {
        Some(item_failures) => Ok(Batching {
            batch_size,
            window_ms,
            filters,
            item_failures,
        }),
        None => Err(ConfigError::BadParam(Param::FunctionResponseTypes)),
    }
}

/// Judges the rows `StartingPosition` and `StartingPositionTimestamp`.
pub fn start_field(kind: Kind, fields: Fields<'_>) -> Result<Start, Param>
    ensures { result ≡ start_field kind (fields_view fields.entry) }
{
    if fields.is_barred(Param::StartingPosition) {
        return Err(Param::StartingPosition);
    }
    let place = fields.look(Param::StartingPosition);
    let Some(position) = position_in(fields.sources(), kind, place) else {
        return Err(Param::StartingPosition);
    };
    if fields.is_barred(Param::StartingPositionTimestamp) {
        return Err(Param::StartingPositionTimestamp);
    }
    match start_in(
        kind,
        position,
        fields.look(Param::StartingPositionTimestamp),
    ) {
        Some(start) => Ok(start),
        None => Err(Param::StartingPositionTimestamp),
    }
}

/// Judges the rows from `ParallelizationFactor` to `MaximumRecordAgeInSeconds`.
pub fn pace_of(kind: Kind, fields: Fields<'_>) -> Result<Pace, Param>
    ensures { result_map_both pace_view (λ p. p) result ≡ pace_of kind (fields_view fields.entry) }
{
    let Some(factor) = factor_in(kind, fields.look(Param::ParallelizationFactor)) else {
        return Err(Param::ParallelizationFactor);
    };
    let Some(retries) = retries_in(kind, fields.look(Param::MaximumRetryAttempts)) else {
        return Err(Param::MaximumRetryAttempts);
    };
    match age_in(kind, fields.look(Param::MaximumRecordAgeInSeconds)) {
        Some(age_ms) => Ok(Pace {
            factor,
            retries,
            age_ms,
        }),
        None => Err(Param::MaximumRecordAgeInSeconds),
    }
}

/// Judges the rows from `BisectBatchOnFunctionError` on.
pub fn care_of<'a>(kind: Kind, factor: u32, fields: Fields<'a>) -> Result<Care<'a>, Param>
    ensures { result_map_both care_view (λ p. p) result ≡ care_of kind factor (fields_view fields.entry) }
{
    let Some(bisect) = bisect_in(kind, fields.look(Param::BisectBatchOnFunctionError)) else {
        return Err(Param::BisectBatchOnFunctionError);
    };
    let window = fields.look(Param::TumblingWindowInSeconds);
    let Some(tumbling_ms) = tumbling_in(kind, factor, window) else {
        return Err(Param::TumblingWindowInSeconds);
    };
    let Some(destination) = destination_in(kind, fields.look(Param::DestinationConfig)) else {
        return Err(Param::DestinationConfig);
    };
    match concurrency_in(kind, fields.look(Param::ScalingConfig)) {
        Some(concurrency) => Ok(Care {
            bisect,
            tumbling_ms,
            destination,
            concurrency,
        }),
        None => Err(Param::ScalingConfig),
    }
}
