// Applying an update to the configuration of a mapping.
ghost use Rattle.std.specs.Prelude.{◌≡◌, Some, IfOk};
ghost use Rattle.serde_json.specs.View.{view};
ghost use Rattle.esm_config.specs.Answer.{IfBad};
ghost use Rattle.esm_config.specs.Given.{IsGiven};
ghost use Rattle.esm_config.specs.Merge.{merge_refused, merged_of};

use crate::given::Fields;
use crate::judged::judged;
use crate::param::{ConfigError, Param};
use crate::to_json::config_members;
use esm_model::config::Config;
use serde_json::Value;
use std::alloc::Global;

/// The configuration after an update, whose fields are those of `UpdateEventSourceMapping` of the Lambda API reference. Each
/// field that the update gives replaces the old mapping's, and then all are judged as a new mapping's fields are. A field
/// that is `null` counts as absent. `EventSourceArn`, `StartingPosition` and `StartingPositionTimestamp` cannot be changed:
/// an update that gives one of them is refused. `BadParam` names the first field that is refused, as in `read`, these three
/// in their places. `OutOfMemory` is returned as by `read`. The old configuration is unchanged.
pub fn merge(alloc: Global, old: &Config, value: &Value) -> Result<Config, ConfigError>
    ensures ok { IfOk result (λ c. merged_of old.now (view value.now) ≡ Some c) }
    ensures given { IfOk result (λ c. IsGiven c) }
    ensures bad { IfBad result (λ param. merge_refused old.now (view value.now) ≡ Some param) }
{
    let Some(members) = value.as_object() else {
        return Err(ConfigError::BadParam(Param::Body));
    };
    let before = config_members(alloc, old)?;
    judged(alloc, Fields::Update(value, before.as_slice()), members)
}
