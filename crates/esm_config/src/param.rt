// The fields of a mapping, in the order in which they are judged, and why a value gives no configuration.
ghost use Rattle.std.specs.Prelude.{◌≡◌};
ghost use Rattle.esm_config.specs.Names.{name_of};

use esm_model::OutOfMemory;
use std::alloc::AllocError;

/// A field of a mapping, by its name in the Lambda API reference (`CreateEventSourceMapping`),
/// in the order in which the fields are judged.
#[derive(Clone, Copy, Debug, PartialEq, Eq)]
pub enum Param {
    EventSourceArn,
    FunctionName,
    Enabled,
    BatchSize,
    MaximumBatchingWindowInSeconds,
    FilterCriteria,
    FunctionResponseTypes,
    StartingPosition,
    StartingPositionTimestamp,
    ParallelizationFactor,
    MaximumRetryAttempts,
    MaximumRecordAgeInSeconds,
    BisectBatchOnFunctionError,
    TumblingWindowInSeconds,
    DestinationConfig,
    ScalingConfig,
    /// A member that is none of these.
    Unknown,
    /// The value is no object.
    Body,
}

impl Param {
    /// The field's name.
    pub fn name(self) -> &'static str
        ensures { result.now ≡ name_of self }
    {
        match self {
            Param::EventSourceArn => "EventSourceArn",
            Param::FunctionName => "FunctionName",
            Param::Enabled => "Enabled",
            Param::BatchSize => "BatchSize",
            Param::MaximumBatchingWindowInSeconds => "MaximumBatchingWindowInSeconds",
            Param::FilterCriteria => "FilterCriteria",
            Param::FunctionResponseTypes => "FunctionResponseTypes",
            Param::StartingPosition => "StartingPosition",
            Param::StartingPositionTimestamp => "StartingPositionTimestamp",
            Param::ParallelizationFactor => "ParallelizationFactor",
            Param::MaximumRetryAttempts => "MaximumRetryAttempts",
            Param::MaximumRecordAgeInSeconds => "MaximumRecordAgeInSeconds",
            Param::BisectBatchOnFunctionError => "BisectBatchOnFunctionError",
            Param::TumblingWindowInSeconds => "TumblingWindowInSeconds",
            Param::DestinationConfig => "DestinationConfig",
            Param::ScalingConfig => "ScalingConfig",
            Param::Unknown => "Unknown",
            Param::Body => "Body",
        }
    }
}

/// Why a value gives no configuration.
#[derive(Clone, Copy, Debug, PartialEq, Eq)]
pub enum ConfigError {
    /// This field is the first, in the order of the table, that is refused.
    BadParam(Param),
    /// There is no memory for the filters or the texts.
    OutOfMemory,
}

impl From<AllocError> for ConfigError {
    ghost use Rattle.std.specs.Prelude.{◌≡◌};
    ghost use Rattle.esm_config.specs.declared.param.ConfigError.{ConfigError};

    ghost from_gives = { λ _ e. e ≡ ConfigError.OutOfMemory };

    fn from(_: AllocError) -> Self {
        ConfigError::OutOfMemory
    }
}

impl From<OutOfMemory> for ConfigError {
    ghost use Rattle.std.specs.Prelude.{◌≡◌};
    ghost use Rattle.esm_config.specs.declared.param.ConfigError.{ConfigError};

    ghost from_gives = { λ _ e. e ≡ ConfigError.OutOfMemory };

    fn from(_: OutOfMemory) -> Self {
        ConfigError::OutOfMemory
    }
}

impl From<Param> for ConfigError {
    ghost use Rattle.std.specs.Prelude.{◌≡◌};
    ghost use Rattle.esm_config.specs.declared.param.ConfigError.{ConfigError};

    ghost from_gives = { λ param e. e ≡ ConfigError.BadParam param };

    fn from(param: Param) -> Self {
        ConfigError::BadParam(param)
    }
}
