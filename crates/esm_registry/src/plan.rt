// Planning a command: its outcome is computed, and all its memory taken, before anything is changed.
ghost use Rattle.std.specs.Prelude.{◌≡◌, ◌+◌, ◌≤◌, Some, None, codes, IfOk};
ghost use Rattle.serde_json.specs.View.{view};
ghost use Rattle.esm_config.specs.Given.{IsGiven};
ghost use Rattle.esm_config.specs.Names.{name_of};
ghost use Rattle.esm_registry.specs.declared.command.Applied.TheVariants as applied;
ghost use Rattle.esm_registry.specs.declared.command.ErrorName.TheVariants as error_name;
ghost use Rattle.esm_registry.specs.Configs.{config_judged, update_judged};
ghost use Rattle.esm_registry.specs.Lists.{mapping_at, uuid_of};
ghost use Rattle.esm_registry.specs.Machine.{has_conflict, created, created_by, updated, updated_by, updated_at, deleted};
ghost use Rattle.esm_registry.specs.Index.{arns_of};
ghost use Rattle.esm_registry.specs.Pairs.{arns};
ghost use Rattle.esm_registry.specs.Applying.{IsPlan, IsCreation, IsUpdate, IsDeletion, creation_step, update_step, deletion_step};

use crate::answers::mapping_text;
use crate::command::{Applied, ErrorName};
use crate::counts::Pair;
use crate::mapping::Mapping;
use crate::naming::{pair_of, uuid_of};
use crate::payload;
use crate::table::Table;
use esm_config::{ConfigError, Param, merge, read};
use esm_model::{Bytes, Config, MAX_MOMENT, OutOfMemory, Text};
use serde_json::Value;
use std::alloc::Global;
use uuid::Uuid;

/// The plan of a command.
#[derive(Drop)]
pub(crate) enum Plan<C> {
    /// It is answered at once; nothing is changed.
    Answer(Applied),
    /// This change is to be made.
    Change(C),
}

/// A mapping that is to be created.
#[derive(Drop)]
pub(crate) struct Creation {
    pub(crate) mapping: Mapping,
    /// Its source and function, and a copy to take the creation back.
    pub(crate) pair: Pair,
    pub(crate) undo: Pair,
    pub(crate) payload: Vec<u8>,
    /// The answer's body.
    pub(crate) text: Bytes,
}

/// A mapping that is to replace the one with its UUID.
#[derive(Drop)]
pub(crate) struct Update {
    pub(crate) mapping: Mapping,
    /// Its source and function, and those of the mapping so far.
    pub(crate) pair: Pair,
    pub(crate) old: Pair,
    pub(crate) payload: Vec<u8>,
    /// The answer's body.
    pub(crate) text: Bytes,
}

/// A mapping that is to be deleted.
#[derive(Drop)]
pub(crate) struct Deletion {
    pub(crate) id: Uuid,
    /// Its source and function.
    pub(crate) pair: Pair,
    pub(crate) payload: Vec<u8>,
    /// The answer's body.
    pub(crate) text: Bytes,
}

fn refused(
    alloc: Global,
    status: u16,
    error: ErrorName,
    message: &str,
) -> Result<Applied, OutOfMemory>
    ensures { IfOk result (λ a. a ≡ applied.Refused status error message.now) }
{
    let message = Text::from_vec(String::from_str(alloc, message)?);
    Ok(Applied::Refused {
        status,
        error,
        message,
    })
}

pub(crate) fn not_found(alloc: Global) -> Result<Applied, OutOfMemory>
    ensures { IfOk result (λ a. a ≡ applied.Refused 404 error_name.ResourceNotFoundException (codes "mapping")) }
{
    refused(alloc, 404, ErrorName::ResourceNotFoundException, "mapping")
}

fn conflict(alloc: Global) -> Result<Applied, OutOfMemory>
    ensures { IfOk result (λ a. a ≡ applied.Refused 409 error_name.ResourceConflictException (codes "mapping")) }
{
    refused(alloc, 409, ErrorName::ResourceConflictException, "mapping")
}

fn bad_field(alloc: Global, param: Param) -> Result<Applied, OutOfMemory>
    ensures { IfOk result (λ a. a ≡ applied.Refused 400 error_name.InvalidParameterValueException (name_of param)) }
{
    refused(
        alloc,
        400,
        ErrorName::InvalidParameterValueException,
        param.name(),
    )
}

/// The configuration that a value states, or the first field that is refused.
#[tactic(auto, unfolding(crate::specs::Configs::config_judged))]
fn judged(alloc: Global, value: &Value) -> Result<Result<Config, Param>, OutOfMemory>
    ensures judged { IfOk result (λ r. r ≡ config_judged (view value.now)) }
    ensures given { IfOk result (λ r. IfOk r IsGiven) }
{
    match read(alloc, value) {
        Ok(config) => Ok(Ok(config)),
        Err(ConfigError::BadParam(param)) => Ok(Err(param)),
        Err(ConfigError::OutOfMemory) => Err(OutOfMemory),
    }
}

/// The configuration after an update, or the first field that is refused.
#[tactic(auto, unfolding(crate::specs::Configs::update_judged))]
fn update_judged(
    alloc: Global,
    old: &Config,
    value: &Value,
) -> Result<Result<Config, Param>, OutOfMemory>
    ensures judged { IfOk result (λ r. r ≡ update_judged old.now (view value.now)) }
    ensures given { IfOk result (λ r. IfOk r IsGiven) }
{
    match merge(alloc, old, value) {
        Ok(config) => Ok(Ok(config)),
        Err(ConfigError::BadParam(param)) => Ok(Err(param)),
        Err(ConfigError::OutOfMemory) => Err(OutOfMemory),
    }
}

/// Whether there is a mapping that excludes one with this configuration and UUID.
fn has_conflict(table: &Table, pair: &Pair, id: &Uuid, config: &Config) -> bool
    requires free { table.now.promised ≡ None }
    requires pair { arns pair.now ≡ arns_of config.now }
    requires id { id.now ≡ uuid_of config.now (table.now.mappings.created + 1) }
    ensures { result ≡ has_conflict table.now.mappings config.now }
{
    let alike = table.count(pair);
    if alike > 0 {
        return true;
    }
    table.find(id).is_some()
}

/// The plan of creating a mapping with this configuration.
fn plan_creation(
    alloc: Global,
    table: &Table,
    config: Config,
    moment: u64,
) -> Result<Plan<Creation>, OutOfMemory>
    requires free { table.now.promised ≡ None }
    requires given { IsGiven config }
    requires moment { moment ≤ MAX_MOMENT }
    ensures { IfOk result (IsPlan (creation_step table.now.mappings) (IsCreation table.now.mappings) table.now.mappings
        (created table.now.mappings config moment)) }
{
    let number = table.created();
    if number == u64::MAX {
        return Err(OutOfMemory);
    }
    let id = uuid_of(alloc, &config, number + 1)?;
    let pair = pair_of(alloc, &config)?;
    let refused = has_conflict(table, &pair, &id, &config);
    if refused {
        let answer = conflict(alloc)?;
        return Ok(Plan::Answer(answer));
    }
    let payload = payload::created(alloc, &id, moment, &config)?;
    let undo = pair_of(alloc, &config)?;
    let mapping = Mapping {
        id,
        config,
        created: moment,
        modified: moment,
    };
    let written = mapping_text(alloc, &mapping)?;
    let text = Bytes::from_vec(written);
    Ok(Plan::Change(Creation {
        mapping,
        pair,
        undo,
        payload,
        text,
    }))
}

/// The plan of a `Create`.
pub(crate) fn plan_create(
    alloc: Global,
    table: &Table,
    value: &Value,
    moment: u64,
) -> Result<Plan<Creation>, OutOfMemory>
    requires free { table.now.promised ≡ None }
    requires moment { moment ≤ MAX_MOMENT }
    ensures { IfOk result (IsPlan (creation_step table.now.mappings) (IsCreation table.now.mappings) table.now.mappings
        (created_by table.now.mappings moment (config_judged (view value.now)))) }
{
    let judgement = judged(alloc, value)?;
    match judgement {
        Ok(config) => plan_creation(alloc, table, config, moment),
        Err(param) => {
            let answer = bad_field(alloc, param)?;
            Ok(Plan::Answer(answer))
        }
    }
}

/// The plan of giving a mapping another configuration.
fn plan_change(
    alloc: Global,
    table: &Table,
    there: &Mapping,
    config: Config,
    moment: u64,
) -> Result<Plan<Update>, OutOfMemory>
    requires free { table.now.promised ≡ None }
    requires there { mapping_at there.now.id table.now.mappings.list ≡ Some there.now }
    requires given { IsGiven config }
    requires moment { moment ≤ MAX_MOMENT }
    ensures { IfOk result (IsPlan (update_step table.now.mappings) (IsUpdate table.now.mappings) table.now.mappings
        (updated table.now.mappings there.now.id there.now config moment)) }
{
    let pair = pair_of(alloc, &config)?;
    let alike = table.count_beside(there, &pair);
    if alike > 0 {
        let answer = conflict(alloc)?;
        return Ok(Plan::Answer(answer));
    }
    let payload = payload::updated(alloc, &there.id, moment, &config)?;
    let old = pair_of(alloc, &there.config)?;
    let mapping = Mapping {
        id: there.id,
        config,
        created: there.created,
        modified: moment,
    };
    let written = mapping_text(alloc, &mapping)?;
    let text = Bytes::from_vec(written);
    Ok(Plan::Change(Update {
        mapping,
        pair,
        old,
        payload,
        text,
    }))
}

/// The plan of an update of this mapping.
fn plan_update_of(
    alloc: Global,
    table: &Table,
    there: &Mapping,
    value: &Value,
    moment: u64,
) -> Result<Plan<Update>, OutOfMemory>
    requires free { table.now.promised ≡ None }
    requires there { mapping_at there.now.id table.now.mappings.list ≡ Some there.now }
    requires moment { moment ≤ MAX_MOMENT }
    ensures { IfOk result (IsPlan (update_step table.now.mappings) (IsUpdate table.now.mappings) table.now.mappings
        (updated_by table.now.mappings there.now.id there.now moment (update_judged there.now.config (view value.now)))) }
{
    let judgement = update_judged(alloc, &there.config, value)?;
    match judgement {
        Ok(config) => plan_change(alloc, table, there, config, moment),
        Err(param) => {
            let answer = bad_field(alloc, param)?;
            Ok(Plan::Answer(answer))
        }
    }
}

/// The plan of an `Update`.
pub(crate) fn plan_update(
    alloc: Global,
    table: &Table,
    id: &Uuid,
    value: &Value,
    moment: u64,
) -> Result<Plan<Update>, OutOfMemory>
    requires free { table.now.promised ≡ None }
    requires moment { moment ≤ MAX_MOMENT }
    ensures { IfOk result (IsPlan (update_step table.now.mappings) (IsUpdate table.now.mappings) table.now.mappings
        (updated_at table.now.mappings id.now (view value.now) moment (mapping_at id.now table.now.mappings.list))) }
{
    match table.find(id) {
        None => {
            let answer = not_found(alloc)?;
            Ok(Plan::Answer(answer))
        }
        Some(there) => plan_update_of(alloc, table, there, value, moment),
    }
}

/// The plan of a `Delete`.
pub(crate) fn plan_delete(
    alloc: Global,
    table: &Table,
    id: &Uuid,
    moment: u64,
) -> Result<Plan<Deletion>, OutOfMemory>
    requires moment { moment ≤ MAX_MOMENT }
    ensures { IfOk result (IsPlan (deletion_step table.now.mappings) (IsDeletion table.now.mappings) table.now.mappings
        (deleted table.now.mappings id.now moment (mapping_at id.now table.now.mappings.list))) }
{
    match table.find(id) {
        None => {
            let answer = not_found(alloc)?;
            Ok(Plan::Answer(answer))
        }
        Some(there) => {
            let payload = payload::deleted(alloc, id, moment)?;
            let pair = pair_of(alloc, &there.config)?;
            let written = mapping_text(alloc, there)?;
            let text = Bytes::from_vec(written);
            Ok(Plan::Change(Deletion {
                id: *id,
                pair,
                payload,
                text,
            }))
        }
    }
}
