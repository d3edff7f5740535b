// Planning a command and carrying it out.
ghost use Rattle.std.specs.Prelude.{◌≡◌, ◌≤◌, map, IfOk};
ghost use Rattle.std.specs.List.{All, IsDistinct};
ghost use Rattle.std.specs.Str.{bytes_eq};
ghost use Rattle.serde_json.specs.View.{view};
ghost use Rattle.esm_io.specs.Meanings.{disk as meaning};
ghost use Rattle.esm_config.specs.Given.{IsGiven};
ghost use Rattle.esm_journal.specs.State.{KeepsWhileUp, KeepsWhileDown};
ghost use Rattle.esm_registry.specs.declared.command.Applied.TheVariants.{Many};
ghost use Rattle.esm_registry.specs.Configs.{config_judged};
ghost use Rattle.esm_registry.specs.Lists.{mapping_at};
ghost use Rattle.esm_registry.specs.Texts.{list_text};
ghost use Rattle.esm_registry.specs.Machine.{asked, answered, got, created_by, updated_at, deleted, step, step_at};
ghost use Rattle.esm_registry.specs.Applying.{IsReady, Obeys};

use crate::answers::mapping_text;
use crate::carrying;
use crate::command::{Applied, Command, RegistryError};
use crate::plan::{Plan, not_found, plan_create, plan_delete, plan_update};
use crate::table::Table;
use esm_io::Disk;
use esm_journal::Journal;
use esm_model::{Bytes, MAX_MOMENT, OutOfMemory};
use serde_json::Value;
use std::alloc::Global;
use uuid::Uuid;

fn create<D: Disk>(
    table: &mut Table,
    journal: &mut Journal<D>,
    alloc: Global,
    value: &Value,
    moment: u64,
) -> Result<Applied, RegistryError>
    requires ready { IsReady table.old journal.old }
    requires moment { moment ≤ MAX_MOMENT }
    ensures { Obeys (meaning D.Disk) table.old table.new journal.old journal.new
        (created_by table.old.mappings moment (config_judged (view value.now))) result }
{
    let _ = journal.payloads();
    match plan_create(alloc, table, value, moment) {
        Ok(Plan::Answer(answer)) => Ok(answer),
        Ok(Plan::Change(creation)) => carrying::create(table, journal, alloc, creation),
        Err(OutOfMemory) => Err(RegistryError::OutOfMemory),
    }
}

fn update<D: Disk>(
    table: &mut Table,
    journal: &mut Journal<D>,
    alloc: Global,
    id: &Uuid,
    value: &Value,
    moment: u64,
) -> Result<Applied, RegistryError>
    requires ready { IsReady table.old journal.old }
    requires moment { moment ≤ MAX_MOMENT }
    ensures { Obeys (meaning D.Disk) table.old table.new journal.old journal.new
        (updated_at table.old.mappings id.now (view value.now) moment (mapping_at id.now table.old.mappings.list)) result }
{
    let _ = journal.payloads();
    match plan_update(alloc, table, id, value, moment) {
        Ok(Plan::Answer(answer)) => Ok(answer),
        Ok(Plan::Change(update)) => carrying::update(table, journal, alloc, update),
        Err(OutOfMemory) => Err(RegistryError::OutOfMemory),
    }
}

fn delete<D: Disk>(
    table: &mut Table,
    journal: &mut Journal<D>,
    alloc: Global,
    id: &Uuid,
    moment: u64,
) -> Result<Applied, RegistryError>
    requires ready { IsReady table.old journal.old }
    requires moment { moment ≤ MAX_MOMENT }
    ensures { Obeys (meaning D.Disk) table.old table.new journal.old journal.new
        (deleted table.old.mappings id.now moment (mapping_at id.now table.old.mappings.list)) result }
{
    let _ = journal.payloads();
    match plan_delete(alloc, table, id, moment) {
        Ok(Plan::Answer(answer)) => Ok(answer),
        Ok(Plan::Change(deletion)) => carrying::delete(table, journal, alloc, deletion),
        Err(OutOfMemory) => Err(RegistryError::OutOfMemory),
    }
}

/// The answer to `Get`.
fn got(alloc: Global, table: &Table, id: &Uuid) -> Result<Applied, OutOfMemory>
    ensures { IfOk result (λ a. got table.now.mappings (mapping_at id.now table.now.mappings.list) ≡ answered table.now.mappings a) }
{
    match table.find(id) {
        None => not_found(alloc),
        Some(mapping) => Ok(Applied::One {
            status: 200,
            mapping: Bytes::from_vec(mapping_text(alloc, mapping)?),
        }),
    }
}

fn get<D: Disk>(
    table: &mut Table,
    journal: &mut Journal<D>,
    alloc: Global,
    id: &Uuid,
) -> Result<Applied, RegistryError>
    requires ready { IsReady table.old journal.old }
    ensures { Obeys (meaning D.Disk) table.old table.new journal.old journal.new
        (got table.old.mappings (mapping_at id.now table.old.mappings.list)) result }
{
    let _ = journal.payloads();
    match got(alloc, table, id) {
        Ok(answer) => Ok(answer),
        Err(OutOfMemory) => Err(RegistryError::OutOfMemory),
    }
}

fn list<D: Disk>(
    table: &mut Table,
    journal: &mut Journal<D>,
    alloc: Global,
) -> Result<Applied, RegistryError>
    requires ready { IsReady table.old journal.old }
    ensures { Obeys (meaning D.Disk) table.old table.new journal.old journal.new
        (answered table.old.mappings (Many (list_text table.old.mappings.list))) result }
{
    let _ = journal.payloads();
    match table.text(alloc) {
        Ok(text) => Ok(Applied::Many {
            mappings: Bytes::from_vec(text),
        }),
        Err(OutOfMemory) => Err(RegistryError::OutOfMemory),
    }
}

/// Answers a command at a moment of at most `MAX_MOMENT`, and carries it out.
fn obey_at<D: Disk>(
    table: &mut Table,
    journal: &mut Journal<D>,
    alloc: Global,
    command: Command,
    moment: u64,
) -> Result<Applied, RegistryError>
    requires ready { IsReady table.old journal.old }
    requires moment { moment ≤ MAX_MOMENT }
    ensures { Obeys (meaning D.Disk) table.old table.new journal.old journal.new
        (step_at table.old.mappings (asked command) moment) result }
{
    match command {
        Command::Create(value) => create(table, journal, alloc, &value, moment),
        Command::List => list(table, journal, alloc),
        Command::Get(id) => get(table, journal, alloc, &id),
        Command::Update(id, value) => update(table, journal, alloc, &id, &value, moment),
        Command::Delete(id) => delete(table, journal, alloc, &id, moment),
    }
}

/// Answers a command and carries it out. A moment above `MAX_MOMENT` counts as `MAX_MOMENT`.
pub(crate) fn obey<D: Disk>(
    table: &mut Table,
    journal: &mut Journal<D>,
    alloc: Global,
    command: Command,
    moment: u64,
) -> Result<Applied, RegistryError>
    requires { IsReady table.old journal.old }
    ensures obeys { Obeys (meaning D.Disk) table.old table.new journal.old journal.new
        (step table.old.mappings (asked command) moment) result }
    ensures distinct { IsDistinct bytes_eq (map (λ m. m.id) table.new.mappings.list) }
    ensures given { All (λ m. IsGiven m.config) table.new.mappings.list }
    ensures kept { KeepsWhileUp (meaning D.Disk) journal.new }
    ensures stopped { KeepsWhileDown (meaning D.Disk) journal.new }
{
    let outcome = obey_at(table, journal, alloc, command, moment.min(MAX_MOMENT));
    let _ = table.created();
    let _ = journal.payloads();
    outcome
}
