// Reads the registry from its file, and serves connections over it.
ghost use Rattle.std.specs.Prelude.{◌≡◌, false, IfOk, OnErr};
ghost use Rattle.esm_io.specs.Meanings.{disk as meaning};
ghost use Rattle.esm_run.specs.Refusals.{end_of_file, end_of_payloads};
ghost use Rattle.esm_run.specs.Serve.{IsOpened, IsServeCut, IsServeEnd};
ghost use Rattle.esm_run.specs.World.{door_of, serve_tells};

use crate::connections::{Accepted, serve_connections};
use esm_io::{Clock, Disk, Door};
use esm_journal::{Journal, OpenError};
use esm_model::OutOfMemory;
use esm_registry::{Registry, RegistryOpen};
use std::alloc::Global;

/// How `serve` ended.
#[derive(Clone, Copy, Debug, PartialEq, Eq)]
pub enum ServeEnd {
    /// The registry's file does not begin with the header of a journal.
    NotAJournal,
    /// It is damaged at this place, in bytes from its start.
    Damaged { place: u64 },
    /// Its payload with this index, counted from 0, is the first that is not one of a registry.
    BadPayload { index: u32 },
    /// Its disk's count of faults rose while it was opened.
    OpenFault,
    /// Connections were served: how many were accepted, and why no more.
    Served(Accepted),
}

/// How `serve` ended, and the registry's disk as it left it.
#[derive(Drop)]
pub struct ServedFile<D> {
    pub end: Result<ServeEnd, OutOfMemory>,
    pub disk: D,
}

/// The end if the file was not opened.
fn end_of_file(why: OpenError) -> Result<ServeEnd, OutOfMemory>
    ensures { result ≡ end_of_file why }
{
    match why {
        OpenError::NotAJournal(_) => Ok(ServeEnd::NotAJournal),
        OpenError::Damaged(place) => Ok(ServeEnd::Damaged { place }),
        OpenError::DiskFault => Ok(ServeEnd::OpenFault),
        OpenError::OutOfMemory => Err(OutOfMemory),
    }
}

/// The end if a payload of the file is not one of a registry.
fn end_of_payloads(why: RegistryOpen) -> Result<ServeEnd, OutOfMemory>
    ensures { result ≡ end_of_payloads why }
{
    match why {
        RegistryOpen::BadPayload(index) => Ok(ServeEnd::BadPayload { index }),
        RegistryOpen::OutOfMemory => Err(OutOfMemory),
    }
}

/// Serves `requests` connections over a registry that was opened, from whichever disk.
fn serve_registry<D: Disk, C: Clock, L: Door>(
    alloc: Global,
    requests: u32,
    clock: &C,
    door: &mut L,
    registry: Registry<D>,
) -> ServedFile<D>
    requires up { registry.journal.down ≡ false }
    ensures end { IfOk result.end (λ end. (disk : D) → IsOpened (meaning D.Disk) disk registry
        → IsServeEnd (serve_tells C.Clock L.Conn.Link D.Disk)
        disk result.disk (door_of L.faults L.closed door.old door.new) requests end) }
    ensures cut { OnErr result.end ((disk : D) → IsOpened (meaning D.Disk) disk registry
        → IsServeCut (serve_tells C.Clock L.Conn.Link D.Disk)
        disk result.disk (door_of L.faults L.closed door.old door.new)) }
{
    let mut registry = registry;
    let served = serve_connections(alloc, requests, clock, door, &mut registry);
    let disk = registry.into_journal().into_disk();
    match served {
        Ok(accepted) => ServedFile {
            end: Ok(ServeEnd::Served(accepted)),
            disk,
        },
        Err(OutOfMemory) => ServedFile {
            end: Err(OutOfMemory),
            disk,
        },
    }
}

/// Opens the registry's file, and serves `requests` connections over what it says.
pub fn serve_file<D: Disk, C: Clock, L: Door>(
    alloc: Global,
    requests: u32,
    clock: &C,
    door: &mut L,
    disk: D,
) -> ServedFile<D>
    ensures end { IfOk result.end (IsServeEnd (serve_tells C.Clock L.Conn.Link D.Disk)
        disk result.disk (door_of L.faults L.closed door.old door.new) requests) }
    ensures cut { OnErr result.end (IsServeCut (serve_tells C.Clock L.Conn.Link D.Disk)
        disk result.disk (door_of L.faults L.closed door.old door.new)) }
{
    let journal = match Journal::open(alloc, disk) {
        Ok(journal) => journal,
        Err(refused) => {
            return ServedFile {
                end: end_of_file(refused.why),
                disk: refused.back,
            };
        }
    };
    match Registry::open(alloc, journal) {
        Ok(registry) => serve_registry(alloc, requests, clock, door, registry),
        Err(refused) => ServedFile {
            end: end_of_payloads(refused.why),
            disk: refused.back.into_disk(),
        },
    }
}
