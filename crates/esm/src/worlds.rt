// The real world of a command: the host's output, clock and door, its functions, and its input and disks.
ghost use Rattle.std.specs.Prelude.{◌≡◌, [], length, map, IfOk};
ghost use Rattle.std.specs.String.{string_bytes};
ghost use Rattle.esm.specs.Callers.{AreCallers};

use crate::callers::callers;
use crate::disks::{disks_in, fresh_disks, input_in};
use crate::opening::Opening;
use crate::tail_sink::TailSink;
use crate::timeouts::read_timeout;
use esm_folder::Disks;
use esm_host::{FileDisk, FileSource, FleetingDisk, HostClock, StdinSource, StdoutSink, TcpDoor};
use esm_invoke::ProgramCaller;
use esm_io::{Disk, Source};
use esm_model::{MAX_LANES, OutOfMemory};
use esm_run::World;
use std::alloc::Global;
use std::fs::File;
use std::net::Net;
use std::rt::{Files, Runtime};

/// The host's world over this input and these disks.
pub type HostWorld<H, S, D> = World<
    S,
    TailSink<StdoutSink<H>>,
    D,
    HostClock<H>,
    ProgramCaller<H>,
    TcpDoor<H>,
>;

/// Makes the world that the opening names, with this clock, this input and these disks.
fn world_of<H: Runtime + Net + Clone, S: Source + Drop, D: Disk + Drop>(
    host: &H,
    alloc: Global,
    opening: Opening<'_>,
    clock: HostClock<H>,
    input: S,
    disks: Disks<D>,
) -> Result<HostWorld<H, S, D>, OutOfMemory>
    ensures callers { IfOk result (λ world. length world.callers.items ≡ MAX_LANES) }
    ensures answering { IfOk result (λ world. AreCallers opening.entry.functions (map string_bytes opening.entry.command.now) world.callers.items) }
    ensures trace { IfOk result (λ world. world.trace.items ≡ []) }
{
    let timeout = read_timeout(alloc, opening.command)?;
    let shown = clock.shown()?;
    Ok(World {
        input,
        out: TailSink::new(alloc, StdoutSink::new(host, shown)?),
        journal: disks.journal,
        spare: disks.spare,
        failures: disks.failures,
        registry: disks.registry,
        clock,
        callers: callers(host, alloc, opening.functions, timeout)?,
        door: TcpDoor::new(host, opening.door)?,
        trace: Vec::new(alloc),
    })
}

/// Makes the world without a folder: standard input, and disks that keep no journal and are as an `init` leaves them.
pub fn memory_world<H: Runtime + Net + Clone>(
    host: &H,
    alloc: Global,
    opening: Opening<'_>,
) -> Result<HostWorld<H, StdinSource<H>, FleetingDisk>, OutOfMemory>
    ensures callers { IfOk result (λ world. length world.callers.items ≡ MAX_LANES) }
    ensures answering { IfOk result (λ world. AreCallers opening.entry.functions (map string_bytes opening.entry.command.now) world.callers.items) }
    ensures trace { IfOk result (λ world. world.trace.items ≡ []) }
{
    let clock = HostClock::watched_at_input(host, alloc)?;
    let input = StdinSource::new(host, alloc)?;
    world_of(host, alloc, opening, clock, input, fresh_disks(alloc)?)
}

/// Makes the world of a folder, whose files are opened when they are first used.
pub fn folder_world<H: Runtime + Files<File = File> + Net + Clone>(
    host: &H,
    alloc: Global,
    opening: Opening<'_>,
    folder: &str,
) -> Result<HostWorld<H, FileSource<H>, FileDisk<H>>, OutOfMemory>
    ensures callers { IfOk result (λ world. length world.callers.items ≡ MAX_LANES) }
    ensures answering { IfOk result (λ world. AreCallers opening.entry.functions (map string_bytes opening.entry.command.now) world.callers.items) }
    ensures trace { IfOk result (λ world. world.trace.items ≡ []) }
{
    let clock = HostClock::watched(host, alloc)?;
    let input = input_in(host, alloc, folder)?;
    let disks = disks_in(host, alloc, folder)?;
    world_of(host, alloc, opening, clock, input, disks)
}
