// Rebuilding the mappings from a journal's payloads.
ghost use Rattle.std.specs.Prelude.{◌≡◌, ℕ, Some, None, IfOk, IfErr, OnOk};
ghost use Rattle.esm_registry.specs.declared.command.RegistryOpen.TheVariants.{BadPayload};
ghost use Rattle.esm_config.specs.Given.{IsGiven};
ghost use Rattle.esm_registry.specs.Lists.{mapping_at};
ghost use Rattle.esm_registry.specs.Given.{HoldsGiven, Makes};
ghost use Rattle.esm_registry.specs.Payload.{after_created, after_updated, after_deleted, after_change, after_payload, mappings_of};
ghost use Rattle.esm_registry.specs.State.{IsFirstBad};

use crate::change::Change;
use crate::command::RegistryOpen;
use crate::mapping::Mapping;
use crate::naming::pair_of;
use crate::payload::read_change;
use crate::table::Table;
use esm_model::{Bytes, Config, OutOfMemory};
use std::alloc::Global;
use uuid::Uuid;

fn create(
    alloc: Global,
    table: &mut Table,
    id: Uuid,
    moment: u64,
    config: Config,
) -> Result<bool, OutOfMemory>
    requires free { table.old.promised ≡ None }
    requires given { IsGiven config }
    ensures made { IfOk result (λ made. Makes made
        (after_created table.old.mappings id moment config (mapping_at id table.old.mappings.list)) table.new.mappings) }
    ensures free { OnOk result (table.new.promised ≡ None) }
{
    if table.created() == u64::MAX {
        return Err(OutOfMemory);
    }
    let pair = pair_of(alloc, &config)?;
    match table.find(&id) {
        Some(_) => Ok(false),
        None => {
            let mapping = Mapping {
                id,
                config,
                created: moment,
                modified: moment,
            };
            table.add(mapping, pair)?;
            table.count_creation();
            Ok(true)
        }
    }
}

fn update(
    alloc: Global,
    table: &mut Table,
    id: Uuid,
    moment: u64,
    config: Config,
) -> Result<bool, OutOfMemory>
    requires free { table.old.promised ≡ None }
    requires given { IsGiven config }
    ensures made { IfOk result (λ made. Makes made
        (after_updated table.old.mappings id moment config (mapping_at id table.old.mappings.list)) table.new.mappings) }
    ensures free { OnOk result (table.new.promised ≡ None) }
{
    let pair = pair_of(alloc, &config)?;
    match table.find(&id) {
        None => Ok(false),
        Some(there) => {
            let old = pair_of(alloc, &there.config)?;
            let mapping = Mapping {
                id: there.id,
                config,
                created: there.created,
                modified: moment,
            };
            table.promise(pair)?;
            table.replace(mapping, &old);
            Ok(true)
        }
    }
}

fn delete(alloc: Global, table: &mut Table, id: Uuid) -> Result<bool, OutOfMemory>
    requires { table.old.promised ≡ None }
    ensures made { IfOk result (λ made. Makes made
        (after_deleted table.old.mappings id (mapping_at id table.old.mappings.list)) table.new.mappings) }
    ensures free { OnOk result (table.new.promised ≡ None) }
{
    match table.find(&id) {
        None => Ok(false),
        Some(there) => {
            let pair = pair_of(alloc, &there.config)?;
            table.remove(&id, &pair);
            Ok(true)
        }
    }
}

/// Makes a change. Returns whether it can follow these mappings.
fn make(alloc: Global, table: &mut Table, change: Change) -> Result<bool, OutOfMemory>
    requires free { table.old.promised ≡ None }
    requires given { HoldsGiven change }
    ensures made { IfOk result (λ made. Makes made (after_change table.old.mappings change) table.new.mappings) }
    ensures free { OnOk result (table.new.promised ≡ None) }
{
    match change {
        Change::Created { id, moment, config } => create(alloc, table, id, moment, config),
        Change::Updated { id, moment, config } => update(alloc, table, id, moment, config),
        Change::Deleted { id, moment: _ } => delete(alloc, table, id),
    }
}

/// Applies one more payload. Returns whether it is one of a registry's.
fn take(alloc: Global, table: &mut Table, payload: &[u8]) -> Result<bool, OutOfMemory>
    requires free { table.old.promised ≡ None }
    ensures made { IfOk result (λ made. Makes made (after_payload payload.now table.old.mappings) table.new.mappings) }
    ensures free { OnOk result (table.new.promised ≡ None) }
{
    match read_change(alloc, payload)? {
        None => Ok(false),
        Some(change) => make(alloc, table, change),
    }
}

/// The error that names the payload with this index; `OutOfMemory` if 32 bits do not count it, since no memory holds so
/// many.
fn bad_payload(index: usize) -> RegistryOpen
    ensures { (i : ℕ) → result ≡ BadPayload i → i ≡ index }
{
    match u32::try_from(index) {
        Ok(index) => RegistryOpen::BadPayload(index),
        Err(_) => RegistryOpen::OutOfMemory,
    }
}

/// The mappings that the payloads say; the payloads are oldest first.
pub(crate) fn table_of(alloc: Global, payloads: &[Bytes]) -> Result<Table, RegistryOpen>
    ensures said { IfOk result (λ table. mappings_of payloads.now ≡ Some table.mappings) }
    ensures free { IfOk result (λ table. table.promised ≡ None) }
    ensures bad { IfErr result (λ why. (i : ℕ) → why ≡ BadPayload i → IsFirstBad payloads.now i) }
{
    let mut table = Table::new(alloc);
    for (index, payload) in payloads.iter().enumerate() {
        match take(alloc, &mut table, payload.as_slice()) {
            Ok(true) => {}
            Ok(false) => return Err(bad_payload(index)),
            Err(OutOfMemory) => return Err(RegistryOpen::OutOfMemory),
        }
    }
    Ok(table)
}
