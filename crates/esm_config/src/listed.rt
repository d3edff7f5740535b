// The list of the fields that a mapping may have, and whether an object has only these.
ghost use Rattle.std.specs.Prelude.{◌≡◌, ◌||◌, is_some};
ghost use Rattle.std.specs.List.{list_all, list_any};
ghost use Rattle.std.specs.Str.{bytes_eq};
ghost use Rattle.std.specs.String.{string_bytes};
ghost use Rattle.serde_json.specs.Find.{as_null};
ghost use Rattle.serde_json.specs.View.{members_view, view};
ghost use Rattle.esm_config.specs.Names.{is_listed, name_of, only_listed};

use crate::param::Param;
use serde_json::{Map, Value};

/// The fields that a mapping may have.
const LISTED: [Param; 16] = [
    Param::EventSourceArn,
    Param::FunctionName,
    Param::Enabled,
    Param::BatchSize,
    Param::MaximumBatchingWindowInSeconds,
    Param::FilterCriteria,
    Param::FunctionResponseTypes,
    Param::StartingPosition,
    Param::StartingPositionTimestamp,
    Param::ParallelizationFactor,
    Param::MaximumRetryAttempts,
    Param::MaximumRecordAgeInSeconds,
    Param::BisectBatchOnFunctionError,
    Param::TumblingWindowInSeconds,
    Param::DestinationConfig,
    Param::ScalingConfig,
];

fn is_listed(name: &str) -> bool
    ensures { result ≡ is_listed name.now }
{
    is_among(&LISTED, name)
}

fn is_among(params: &[Param], name: &str) -> bool
    ensures { result ≡ list_any (λ p. bytes_eq (name_of p) name.now) params.now }
{
    params.iter().any(|param| param.name() == name)
}

fn has_only_listed(members: &Map<String, Value>) -> bool
    ensures { result ≡ list_all (λ m. is_some (as_null (view m.1)) || is_listed (string_bytes m.0)) members.now.entries }
{
    members.iter().all(|(name, value)| value.is_null() || is_listed(name.as_str()))
}

/// Whether each member is a listed field or has the value `null`.
pub fn only_listed(members: &Map<String, Value>) -> bool
    ensures { result ≡ only_listed (members_view members.now.entries) }
{
    has_only_listed(members)
}
