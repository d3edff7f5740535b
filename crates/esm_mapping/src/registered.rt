// Reading the mapping with an id from the registry.
ghost use Rattle.std.specs.Prelude.{◌≡◌, None, Some, IfOk, IfErr};
ghost use Rattle.esm_config.specs.Given.{IsGiven};
ghost use Rattle.esm_io.specs.Meanings.{disk as meaning};
ghost use Rattle.esm_journal.specs.Reads.{IsOnlyRead};
ghost use Rattle.esm_registry.specs.Lists.{mapping_at};
ghost use Rattle.esm_registry.specs.State.{IsRegistry};
ghost use Rattle.esm_mapping.specs.Named.{IsNamedById, WhyNotById};
ghost use Rattle.esm_mapping.specs.Refusals.{IsNamedOf, WhyNotOf, error_of_file, error_of_payloads};

use crate::copying::copy_config;
use crate::named::{MappingError, MappingRead, NamedMapping};
use crate::starting::start_after;
use esm_io::Disk;
use esm_journal::{Journal, OpenError};
use esm_model::OutOfMemory;
use esm_registry::{Mapping, Registry, RegistryOpen};
use std::alloc::Global;
use uuid::Uuid;

/// The error for a registry's file that was not opened.
fn error_of_file(why: OpenError) -> MappingError
    ensures { result ≡ error_of_file why }
{
    match why {
        OpenError::NotAJournal(_) => MappingError::NotAJournal,
        OpenError::Damaged(place) => MappingError::Damaged { place },
        OpenError::DiskFault => MappingError::DiskFault,
        OpenError::OutOfMemory => MappingError::OutOfMemory,
    }
}

/// The error for payloads that are not a registry's.
fn error_of_payloads(why: RegistryOpen) -> MappingError
    ensures { result ≡ error_of_payloads why }
{
    match why {
        RegistryOpen::BadPayload(index) => MappingError::BadPayload { index },
        RegistryOpen::OutOfMemory => MappingError::OutOfMemory,
    }
}

/// A copy of the mapping's configuration, with its start, if the mapping is enabled.
fn copy_mapping(alloc: Global, mapping: &Mapping) -> Result<NamedMapping, MappingError>
    requires { IsGiven mapping.now.config }
    ensures named { IfOk result (IsNamedOf (Some mapping.now)) }
    ensures why { IfErr result (WhyNotOf (Some mapping.now)) }
{
    if !mapping.config.enabled {
        return Err(MappingError::Disabled);
    }
    match copy_config(alloc, &mapping.config) {
        Ok(config) => Ok(NamedMapping {
            config,
            start: start_after(mapping.created, mapping.config.start),
        }),
        Err(OutOfMemory) => Err(MappingError::OutOfMemory),
    }
}

/// The mapping with this id, where the registry has it and it is enabled.
fn find_mapping<D: Disk>(
    alloc: Global,
    id: &Uuid,
    registry: &Registry<D>,
) -> Result<NamedMapping, MappingError>
    ensures named { IfOk result (IsNamedOf (mapping_at id.now registry.now.mappings.list)) }
    ensures why { IfErr result (WhyNotOf (mapping_at id.now registry.now.mappings.list)) }
    ensures kept { IsRegistry registry.now }
{
    match registry.find(id) {
        None => Err(MappingError::Unknown),
        Some(mapping) => copy_mapping(alloc, mapping),
    }
}

/// Opens the registry's file, and reads the mapping with this id. Nothing is written.
pub fn read_registered<D: Disk>(alloc: Global, id: &Uuid, registry: D) -> MappingRead<D>
    ensures named { IfOk result.named (IsNamedById (meaning D.Disk) id.now registry) }
    ensures why { IfErr result.named (WhyNotById (meaning D.Disk) id.now registry result.registry) }
    ensures only_read { IsOnlyRead (meaning D.Disk) registry result.registry }
{
    let journal = match Journal::open(alloc, registry) {
        Ok(journal) => journal,
        Err(refused) => {
            return MappingRead {
                named: Err(error_of_file(refused.why)),
                registry: refused.back,
            };
        }
    };
    match Registry::open(alloc, journal) {
        Ok(registry) => {
            let named = find_mapping(alloc, id, &registry);
            MappingRead {
                named,
                registry: registry.into_journal().into_disk(),
            }
        }
        Err(refused) => MappingRead {
            named: Err(error_of_payloads(refused.why)),
            registry: refused.back.into_disk(),
        },
    }
}
