//! The table of fields: the first field that is refused, or the configuration that all give.
ghost use Rattle.std.specs.Prelude.{◌≡◌, ◌++◌, codes, option_map, IfOk};
ghost use Rattle.serde_json.specs.View.{members_view};
ghost use Rattle.esm_model.specs.Valid.{arn_of};
ghost use Rattle.esm_config.specs.Answer.{Tells};
ghost use Rattle.esm_config.specs.FunctionParts.{named_of};
ghost use Rattle.esm_config.specs.Judged.{and_then, care_of, config, function_arn, if_listed, judged, pace_of, start_field};
ghost use Rattle.esm_config.specs.Parts.{source_view};
ghost use Rattle.esm_config.specs.View.{batching_view, care_view, fields_view, pace_view, parties_view};

use crate::function::FunctionName;
use crate::given::Fields;
use crate::listed::only_listed;
use crate::param::{ConfigError, Param};
use crate::rows::{
    Batching, Care, Pace, Parties, batching_of, care_of, pace_of, parties_of, start_field,
};
use crate::source::Source;
use esm_model::config::{Config, Start};
use esm_model::text::Text;
use serde_json::{Map, Value};
use std::alloc::{AllocError, Global};

fn text_of(alloc: Global, text: &str) -> Result<Text, AllocError>
    ensures { IfOk result (λ t. t ≡ text.now) }
{
    Ok(Text::from_vec(String::from_str(alloc, text)?))
}

fn optional_text_of(alloc: Global, text: Option<&str>) -> Result<Option<Text>, AllocError>
    ensures { IfOk result (λ t. t ≡ option_map (λ s. s.now) text.entry) }
{
    match text {
        Some(text) => Ok(Some(text_of(alloc, text)?)),
        None => Ok(None),
    }
}

/// The ARN of the function of this name.
fn lambda_arn(alloc: Global, region: &str, account: &str, name: &str) -> Result<Text, AllocError>
    ensures { IfOk result (λ t. t ≡ arn_of (codes "lambda") region.now account.now (codes "function:" ++ name.now)) }
{
    let arn = format!(in alloc; "arn:aws:lambda:{region}:{account}:function:{name}")?;
    Ok(Text::from_vec(arn))
}

/// The ARN of the mapping's function: the one that the mapping gives, or that of its name in the region and the account of
/// the source.
fn function_arn(alloc: Global, source: &Source, function: &FunctionName) -> Result<Text, AllocError>
    ensures { IfOk result (λ t. t ≡ function_arn (source_view source.now) (named_of function.now)) }
{
    match function.arn {
        Some(arn) => text_of(alloc, arn),
        None => {
            let parts = source.parts;
            lambda_arn(alloc, parts.region, parts.account, function.name)
        }
    }
}

fn config(
    alloc: Global,
    parties: Parties,
    batching: Batching,
    start: Start,
    pace: Pace,
    care: Care,
) -> Result<Config, AllocError>
    ensures { IfOk result (λ c. c ≡ config (parties_view parties.entry) (batching_view batching) start (pace_view pace) (care_view care.entry)) }
{
    Ok(Config {
        source_arn: text_of(alloc, parties.source.arn)?,
        function: text_of(alloc, parties.function.name)?,
        function_arn: function_arn(alloc, &parties.source, &parties.function)?,
        region: text_of(alloc, parties.source.parts.region)?,
        account: text_of(alloc, parties.source.parts.account)?,
        kind: parties.source.kind,
        batch_size: batching.batch_size,
        window_ms: batching.window_ms,
        factor: pace.factor,
        retries: pace.retries,
        age_ms: pace.age_ms,
        bisect: care.bisect,
        item_failures: batching.item_failures,
        tumbling_ms: care.tumbling_ms,
        start,
        destination: optional_text_of(alloc, care.destination)?,
        filters: batching.filters,
        concurrency: care.concurrency,
        enabled: parties.enabled,
    })
}

/// Judges the fields after those that every mapping may have, and then the members that are not listed.
fn finished(
    alloc: Global,
    parties: Parties<'_>,
    batching: Batching,
    fields: Fields<'_>,
    members: &Map<String, Value>,
) -> Result<Config, ConfigError>
    ensures { Tells (λ c. c) result
        (and_then (start_field parties.entry.source.kind (fields_view fields.entry)) (λ start.
        and_then (pace_of parties.entry.source.kind (fields_view fields.entry)) (λ pace.
        and_then (care_of parties.entry.source.kind pace.factor (fields_view fields.entry)) (λ care.
        if_listed (members_view members.now.entries) (config (parties_view parties.entry) (batching_view batching) start pace care))))) }
{
    let kind = parties.source.kind;
    let start = start_field(kind, fields)?;
    let pace = pace_of(kind, fields)?;
    let care = care_of(kind, pace.factor, fields)?;
    if only_listed(members) {
        Ok(config(alloc, parties, batching, start, pace, care)?)
    } else {
        Err(ConfigError::BadParam(Param::Unknown))
    }
}

/// The configuration that the fields give, if the object has only listed members. `BadParam` names the first field that is
/// refused. `OutOfMemory` is returned where there is no memory for the filters or the texts.
pub fn judged(
    alloc: Global,
    fields: Fields<'_>,
    members: &Map<String, Value>,
) -> Result<Config, ConfigError>
    ensures { Tells (λ c. c) result (judged (fields_view fields.entry) (members_view members.now.entries)) }
{
    let parties = parties_of(fields)?;
    let batching = batching_of(alloc, parties.source.kind, fields)?;
    finished(alloc, parties, batching, fields, members)
}
