// Carrying out what was planned: one payload is written, and the mappings in memory are changed. All memory is taken
// before the disk is called.
ghost use Rattle.std.specs.Prelude.{◌≡◌, ◌≤◌, length, false, Some};
ghost use Rattle.esm_io.specs.Meanings.{disk as meaning};
ghost use Rattle.esm_registry.specs.Applying.{Writes, IsReady, Obeys, IsCreation, IsUpdate, IsDeletion, creation_step, update_step, deletion_step};

use crate::command::{Applied, RegistryError};
use crate::plan::{Creation, Deletion, Update};
use crate::table::Table;
use esm_io::Disk;
use esm_journal::{AppendError, Journal};
use esm_model::MAX_PAYLOAD;
use std::alloc::Global;

/// Appends a payload to the journal.
fn write<D: Disk>(
    journal: &mut Journal<D>,
    alloc: Global,
    payload: &[u8],
) -> Result<(), RegistryError>
    requires up { journal.old.down ≡ false }
    requires short { length payload.now ≤ MAX_PAYLOAD }
    ensures { Writes (meaning D.Disk) journal.old journal.new (Some payload.now) result }
{
    match journal.append(alloc, payload) {
        Ok(()) => Ok(()),
        Err(AppendError::DiskFault) => Err(RegistryError::DiskFault),
        Err(AppendError::OutOfMemory) => Err(RegistryError::OutOfMemory),
        Err(AppendError::TooLong(_) | AppendError::Down) => unreachable!(),
    }
}

/// Creates the mapping. If the payload cannot be written, the mapping is removed again.
pub(crate) fn create<D: Disk>(
    table: &mut Table,
    journal: &mut Journal<D>,
    alloc: Global,
    creation: Creation,
) -> Result<Applied, RegistryError>
    requires ready { IsReady table.old journal.old }
    requires creation { IsCreation table.old.mappings creation }
    ensures { Obeys (meaning D.Disk) table.old table.new journal.old journal.new
        (creation_step table.old.mappings creation) result }
{
    let _ = journal.payloads();
    let Creation {
        mapping,
        pair,
        undo,
        payload,
        text,
    } = creation;
    let id = mapping.id;
    if table.add(mapping, pair).is_err() {
        return Err(RegistryError::OutOfMemory);
    }
    match write(journal, alloc, &payload) {
        Ok(()) => {
            table.count_creation();
            Ok(Applied::One {
                status: 202,
                mapping: text,
            })
        }
        Err(error) => {
            table.remove(&id, &undo);
            Err(error)
        }
    }
}

/// Puts the mapping in place of the old one. If the payload cannot be written, the promise is released.
pub(crate) fn update<D: Disk>(
    table: &mut Table,
    journal: &mut Journal<D>,
    alloc: Global,
    update: Update,
) -> Result<Applied, RegistryError>
    requires ready { IsReady table.old journal.old }
    requires update { IsUpdate table.old.mappings update }
    ensures { Obeys (meaning D.Disk) table.old table.new journal.old journal.new
        (update_step table.old.mappings update) result }
{
    let _ = journal.payloads();
    let Update {
        mapping,
        pair,
        old,
        payload,
        text,
    } = update;
    if table.promise(pair).is_err() {
        return Err(RegistryError::OutOfMemory);
    }
    match write(journal, alloc, &payload) {
        Ok(()) => {
            table.replace(mapping, &old);
            Ok(Applied::One {
                status: 202,
                mapping: text,
            })
        }
        Err(error) => {
            table.release();
            Err(error)
        }
    }
}

/// Deletes the mapping, once its payload is written.
pub(crate) fn delete<D: Disk>(
    table: &mut Table,
    journal: &mut Journal<D>,
    alloc: Global,
    deletion: Deletion,
) -> Result<Applied, RegistryError>
    requires ready { IsReady table.old journal.old }
    requires deletion { IsDeletion table.old.mappings deletion }
    ensures { Obeys (meaning D.Disk) table.old table.new journal.old journal.new
        (deletion_step table.old.mappings deletion) result }
{
    let Deletion {
        id,
        pair,
        payload,
        text,
    } = deletion;
    match write(journal, alloc, &payload) {
        Ok(()) => {
            table.remove(&id, &pair);
            Ok(Applied::One {
                status: 202,
                mapping: text,
            })
        }
        Err(error) => Err(error),
    }
}
