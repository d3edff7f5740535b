// Writing and reading the payloads of a registry's journal.
ghost use Rattle.std.specs.Prelude.{◌≡◌, ◌≤◌, ◌++◌, length, take, drop, Some, string_bytes, IfOk, IfSome, OnOk};
ghost use Rattle.std.specs.Str.{IsUtf8};
ghost use Rattle.esm_config.specs.Given.{IsGiven};
ghost use Rattle.esm_registry.specs.Configs.{canonical_text};
ghost use Rattle.esm_registry.specs.Payload.{head_of, payload_of, config_in, change_of, change_behind, change_at, moment_in};
ghost use Rattle.esm_registry.specs.Given.{HoldsGiven};
ghost use Rattle.esm_registry.specs.declared.change.Change.TheVariants as change;

use crate::change::Change;
use esm_config::{ConfigError, config_string, read, text_is_read};
use esm_model::{Config, MAX_MOMENT, MAX_PAYLOAD, OutOfMemory, parse_json};
use std::alloc::Global;
use uuid::Uuid;

const CREATED: u8 = 1;

const UPDATED: u8 = 2;

const DELETED: u8 = 3;

/// The kind byte, the UUID and the moment in milliseconds.
fn head(alloc: Global, kind: u8, id: &Uuid, moment: u64) -> Result<Vec<u8>, OutOfMemory>
    ensures bytes { IfOk result (λ head. head.items ≡ head_of kind id.now moment) }
    ensures sixteen { OnOk result (length id.now ≡ 16) }
{
    let mut bytes = vec![in alloc; kind]?;
    bytes.extend_from_slice(id.as_bytes())?;
    bytes.extend_from_slice(&moment.to_be_bytes())?;
    Ok(bytes)
}

/// The head, followed by the configuration's text. `OutOfMemory` also if this is longer than a journal's payload can be.
fn with_config(
    alloc: Global,
    kind: u8,
    id: &Uuid,
    moment: u64,
    config: &Config,
) -> Result<Vec<u8>, OutOfMemory>
    ensures bytes { IfOk result (λ payload. payload.items ≡ head_of kind id.now moment ++ canonical_text config.now) }
    ensures utf8 { OnOk result (IsUtf8 (canonical_text config.now)) }
    ensures short { IfOk result (λ payload. length payload.items ≤ MAX_PAYLOAD) }
    ensures sixteen { OnOk result (length id.now ≡ 16) }
{
    let mut payload = head(alloc, kind, id, moment)?;
    let text = canonical(alloc, config)?;
    payload.extend_from_slice(text.as_bytes())?;
    if payload.len() > MAX_PAYLOAD {
        return Err(OutOfMemory);
    }
    Ok(payload)
}

/// The configuration's canonical text.
#[tactic(auto, unfolding(crate::specs::Configs::canonical_text))]
fn canonical(alloc: Global, config: &Config) -> Result<String, OutOfMemory>
    ensures { IfOk result (λ text. string_bytes text ≡ canonical_text config.now) }
{
    config_string(alloc, config)
}

/// The payload of a creation.
#[tactic(auto, unfolding(crate::specs::Payload::payload_of))]
pub(crate) fn created(
    alloc: Global,
    id: &Uuid,
    moment: u64,
    config: &Config,
) -> Result<Vec<u8>, OutOfMemory>
    requires given { IsGiven config.now }
    requires moment { moment ≤ MAX_MOMENT }
    ensures bytes { IfOk result (λ payload. payload.items ≡ payload_of (change.Created id.now moment config.now)) }
    ensures reads { IfOk result (λ payload. change_of payload.items ≡ Some (change.Created id.now moment config.now)) }
    ensures short { IfOk result (λ payload. length payload.items ≤ MAX_PAYLOAD) }
{
    text_is_read();
    let payload = with_config(alloc, CREATED, id, moment, config)?;
    Ok(payload)
}

/// The payload of an update.
#[tactic(auto, unfolding(crate::specs::Payload::payload_of))]
pub(crate) fn updated(
    alloc: Global,
    id: &Uuid,
    moment: u64,
    config: &Config,
) -> Result<Vec<u8>, OutOfMemory>
    requires given { IsGiven config.now }
    requires moment { moment ≤ MAX_MOMENT }
    ensures bytes { IfOk result (λ payload. payload.items ≡ payload_of (change.Updated id.now moment config.now)) }
    ensures reads { IfOk result (λ payload. change_of payload.items ≡ Some (change.Updated id.now moment config.now)) }
    ensures short { IfOk result (λ payload. length payload.items ≤ MAX_PAYLOAD) }
{
    text_is_read();
    let payload = with_config(alloc, UPDATED, id, moment, config)?;
    Ok(payload)
}

/// The payload of a deletion.
#[tactic(auto, unfolding(crate::specs::Payload::payload_of))]
pub(crate) fn deleted(alloc: Global, id: &Uuid, moment: u64) -> Result<Vec<u8>, OutOfMemory>
    requires { moment ≤ MAX_MOMENT }
    ensures bytes { IfOk result (λ payload. payload.items ≡ payload_of (change.Deleted id.now moment)) }
    ensures reads { IfOk result (λ payload. change_of payload.items ≡ Some (change.Deleted id.now moment)) }
    ensures short { IfOk result (λ payload. length payload.items ≤ MAX_PAYLOAD) }
{
    let payload = head(alloc, DELETED, id, moment)?;
    if payload.len() > MAX_PAYLOAD {
        return Err(OutOfMemory);
    }
    Ok(payload)
}

/// The configuration of which this is the canonical text, if there is one.
#[tactic(auto, unfolding(crate::specs::Payload::config_in, crate::specs::Configs::config_judged))]
fn config_in(alloc: Global, bytes: &[u8]) -> Result<Option<Config>, OutOfMemory>
    ensures config { IfOk result (λ config. config ≡ config_in bytes.now) }
    ensures given { IfOk result (λ config. IfSome config IsGiven) }
{
    let Some(value) = parse_json(alloc, bytes)? else {
        return Ok(None);
    };
    let config = match read(alloc, &value) {
        Ok(config) => config,
        Err(ConfigError::BadParam(_)) => return Ok(None),
        Err(ConfigError::OutOfMemory) => return Err(OutOfMemory),
    };
    if canonical(alloc, &config)?.as_bytes() == bytes {
        Ok(Some(config))
    } else {
        Ok(None)
    }
}

/// The UUID and the moment behind the kind byte.
fn id_and_moment(bytes: &[u8]) -> (Uuid, u64)
    requires { 24 ≤ length bytes.now }
    ensures id { result.0 ≡ take 16 bytes.now }
    ensures moment { result.1 ≡ moment_in (drop 16 bytes.now) }
{
    let mut id = [0; 16];
    id.copy_from_slice(&bytes[..16]);
    let mut moment = [0; 8];
    moment.copy_from_slice(&bytes[16..24]);
    (Uuid::from_bytes(id), u64::from_be_bytes(moment))
}

/// What a payload says; `None` where it is no payload of a registry.
#[tactic(auto, unfolding(crate::specs::Payload::change_of))]
pub(crate) fn read_change(alloc: Global, payload: &[u8]) -> Result<Option<Change>, OutOfMemory>
    ensures change { IfOk result (λ change. change ≡ change_of payload.now) }
    ensures given { IfOk result (λ change. IfSome change HoldsGiven) }
{
    match payload {
        [] => Ok(None),
        [kind, bytes @ ..] => read_behind(alloc, *kind, bytes),
    }
}

/// What the bytes behind the kind byte say.
fn read_behind(alloc: Global, kind: u8, bytes: &[u8]) -> Result<Option<Change>, OutOfMemory>
    ensures change { IfOk result (λ change. change ≡ change_behind kind bytes.now) }
    ensures given { IfOk result (λ change. IfSome change HoldsGiven) }
{
    if bytes.len() < 24 {
        return Ok(None);
    }
    let (id, moment) = id_and_moment(bytes);
    if moment > MAX_MOMENT {
        return Ok(None);
    }
    change_at(alloc, kind, id, moment, &bytes[24..])
}

/// The change that these parts of a payload state.
fn change_at(
    alloc: Global,
    kind: u8,
    id: Uuid,
    moment: u64,
    bytes: &[u8],
) -> Result<Option<Change>, OutOfMemory>
    ensures change { IfOk result (λ change. change ≡ change_at kind id moment bytes.now) }
    ensures given { IfOk result (λ change. IfSome change HoldsGiven) }
{
    match kind {
        CREATED => {
            let Some(config) = config_in(alloc, bytes)? else {
                return Ok(None);
            };
            Ok(Some(Change::Created { id, moment, config }))
        }
        UPDATED => {
            let Some(config) = config_in(alloc, bytes)? else {
                return Ok(None);
            };
            Ok(Some(Change::Updated { id, moment, config }))
        }
        DELETED => {
            if bytes.is_empty() {
                Ok(Some(Change::Deleted { id, moment }))
            } else {
                Ok(None)
            }
        }
        _ => Ok(None),
    }
}
