// The registry of event source mappings: opening its journal, and applying commands.
ghost use Rattle.std.specs.Prelude.{◌≡◌, ℕ, true, false, IfOk, IfErr};
ghost use Rattle.std.specs.Option.{option_copied};
ghost use Rattle.esm_io.specs.Meanings.{disk as meaning};
ghost use Rattle.esm_registry.specs.Applied.{HasApplied};
ghost use Rattle.esm_registry.specs.Lists.{mapping_at};
ghost use Rattle.esm_registry.specs.Machine.{asked, step};
ghost use Rattle.esm_registry.specs.State.{IsFirstBad, IsRegistry};

use crate::command::{Applied, Command, RegistryError, RegistryOpen};
use crate::mapping::Mapping;
use crate::obeying::obey;
use crate::opening::table_of;
use crate::table::Table;
use esm_io::Disk;
use esm_journal::Journal;
use esm_model::Refused;
use std::alloc::Global;
use std::marker::Model;
use uuid::Uuid;

/// The mappings, kept in a journal. A command counts once its payload is on the disk, so a crash at any moment leaves
/// only whole commands.
#[derive(Drop)]
pub struct Registry<D: Disk> {
    table: Table,
    journal: Journal<D>,
    down: bool,
}

impl<D: Disk> Model for Registry<D> {
    ghost use Rattle.std.specs.Prelude.{◌≡◌};
    ghost use Rattle.esm_registry.specs.State.{RegistryState};

    ghost Value = { RegistryState D };

    ghost use Rattle.esm_registry.specs.Kept.{IsKept};

    ghost view = { λ r. record { mappings = r.table.mappings; journal = r.journal } };

    ghost invariant = { λ r. IsKept r.table r.journal r.down };
}

impl<D: Disk> Registry<D> {
    /// Opens the registry that a journal holds, and writes nothing. `BadPayload` names the index, counted from 0, of the
    /// first payload with which the journal is not one of a registry's. `OutOfMemory`: an allocation failed, or a count
    /// exceeds its limit.
    pub fn open(
        alloc: Global,
        journal: Journal<D>,
    ) -> Result<Registry<D>, Refused<RegistryOpen, Journal<D>>>
        requires { journal.down ≡ false }
        ensures journal { IfOk result (λ registry. registry.journal ≡ journal) }
        ensures kept { IfOk result IsRegistry }
        // What `BadPayload` names, and that every error gives the journal back.
        ensures bad { IfErr result (λ refused. (i : ℕ) → refused.why ≡ RegistryOpen.BadPayload i → IsFirstBad journal.payloads i) }
        ensures back { IfErr result (λ refused. refused.back ≡ journal) }
    {
        match table_of(alloc, journal.payloads()) {
            Ok(table) => {
                let _ = table.created();
                Ok(Registry {
                    table,
                    journal,
                    down: false,
                })
            }
            Err(why) => Err(Refused { why, back: journal }),
        }
    }

    /// Applies one command at a moment in milliseconds since 1970; a moment above the greatest counts as that. All memory
    /// is taken before the disk is called, so after `OutOfMemory` nothing has changed. `DiskFault` is returned only if
    /// the disk's count of faults rose; every later command returns `Down`.
    pub fn apply(
        &mut self,
        alloc: Global,
        command: Command,
        moment: u64,
    ) -> Result<Applied, RegistryError>
        ensures { HasApplied (meaning D.Disk) (step self.old.mappings (asked command) moment) self.old self.new result }
    {
        let _ = self.journal.payloads();
        let _ = self.table.created();
        if self.down {
            return Err(RegistryError::Down);
        }
        match obey(&mut self.table, &mut self.journal, alloc, command, moment) {
            Ok(answer) => Ok(answer),
            Err(RegistryError::DiskFault) => {
                self.down = true;
                Err(RegistryError::DiskFault)
            }
            Err(RegistryError::OutOfMemory) => Err(RegistryError::OutOfMemory),
            Err(RegistryError::Down) => unreachable!(),
        }
    }

    /// Returns the mapping with this UUID, if there is one. Takes no memory.
    pub fn find(&self, id: &Uuid) -> Option<&Mapping>
        ensures found { option_copied result ≡ mapping_at id.now self.now.mappings.list }
        ensures kept { IsRegistry self.now }
    {
        let _ = self.table.created();
        self.table.find(id)
    }

    /// Whether a command returned `DiskFault`. Takes no memory.
    pub fn down(&self) -> bool
        ensures down { result ≡ self.now.journal.down }
        ensures kept { IsRegistry self.now }
    {
        let _ = self.table.created();
        self.down
    }

    /// Returns the journal as the commands left it. Takes no memory.
    pub fn into_journal(self) -> Journal<D>
        ensures { result ≡ self.journal }
    {
        let Registry {
            table: _,
            journal,
            down: _,
        } = self;
        journal
    }
}
