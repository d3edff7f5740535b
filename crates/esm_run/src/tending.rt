// The commands that use only a folder's files: `init`, `show`, `failures`, `compact` and `migrate`.
ghost use Rattle.std.specs.Prelude.{◌≡◌, ◌≢◌, Ok, IfOk, OnErr};
ghost use Rattle.esm_io.specs.Meanings.{disk as meaning};
ghost use Rattle.esm_folder.specs.UpkeepText.{upkeep_status, upkeep_text};
ghost use Rattle.esm_folder.specs.Upkeep.{AreOnlyRead};
ghost use Rattle.esm_folder.specs.declared.ending.UpkeepEnd.{UpkeepEnd};
ghost use Rattle.esm_run.specs.declared.tending.FilesCommand.TheVariants as files;
ghost use Rattle.esm_run.specs.declared.tending.Upkeep.TheVariants.{Compact};
ghost use Rattle.esm_run.specs.Endings.{IsToldWith};
ghost use Rattle.esm_run.specs.Tended.{AreLeft, FilesOutcome, IsCompactCut, IsLeft, IsUpkeepEnd, UpkeepOutcome};
ghost use Rattle.esm_run.specs.World.{disks, written_of};

use crate::initializing::initialize;
use crate::output::{OUT_OF_MEMORY, OUTPUT_FAULT, write_all};
use crate::world::{Ended, World};
use esm_folder::{Disks, FileEnded, PairEnded, UpkeepEnd, compact, migrate, show, upkeep_text};
use esm_io::{Disk, Sink};
use esm_model::OutOfMemory;
use std::alloc::Global;

/// A command that looks after a folder's journals.
#[derive(Clone, Copy, Debug, PartialEq, Eq)]
pub enum Upkeep {
    Show,
    Failures,
    Compact,
    Migrate,
}

/// A command that uses only the four files.
#[derive(Clone, Copy, Debug, PartialEq, Eq)]
pub enum FilesCommand {
    Init,
    Upkeep(Upkeep),
}

/// How a command over the journals ended, and the disks as it left them.
#[derive(Drop)]
struct Tended<D> {
    end: Result<UpkeepEnd, OutOfMemory>,
    disks: Disks<D>,
}

/// Joins the end of a command over the pair with the two other disks.
fn beside<D>(pair: PairEnded<D>, failures: D, registry: D) -> Tended<D>
    ensures end { result.end ≡ pair.end }
    ensures disks { result.disks ≡ disks pair.journal pair.spare failures registry }
{
    let PairEnded {
        end,
        journal,
        spare,
    } = pair;
    Tended {
        end,
        disks: Disks {
            journal,
            spare,
            failures,
            registry,
        },
    }
}

/// Runs the command over the disks.
fn tend_disks<D: Disk>(alloc: Global, upkeep: Upkeep, disks: Disks<D>) -> Tended<D>
    ensures end { IfOk result.end (IsUpkeepEnd (meaning D.Disk) upkeep disks result.disks) }
    ensures left { IsLeft (meaning D.Disk) disks result.disks upkeep }
    ensures unwritten { upkeep ≡ Compact → OnErr result.end (AreOnlyRead (meaning D.Disk) disks.journal disks.spare result.disks.journal result.disks.spare) }
{
    let Disks {
        journal,
        spare,
        failures,
        registry,
    } = disks;
    match upkeep {
        Upkeep::Show => beside(show(alloc, journal, spare), failures, registry),
        Upkeep::Failures => {
            let FileEnded { end, disk } = esm_folder::failures(alloc, failures);
            Tended {
                end,
                disks: Disks {
                    journal,
                    spare,
                    failures: disk,
                    registry,
                },
            }
        }
        Upkeep::Compact => beside(compact(alloc, journal, spare), failures, registry),
        Upkeep::Migrate => beside(migrate(alloc, journal, spare), failures, registry),
    }
}

/// Returns the exit status for the end of a command over the journals.
fn status_of(end: &UpkeepEnd) -> u8
    ensures value { result ≡ upkeep_status end.now }
    ensures good_words { result ≢ 2 }
    ensures known { result ≢ 70 }
{
    end.status()
}

/// Writes how a command over the journals ended, and returns the exit status.
fn tell_upkeep<K: Sink>(alloc: Global, out: &mut K, end: Result<UpkeepEnd, OutOfMemory>) -> u8
    ensures told { result ≢ 70 → (e : UpkeepEnd) × (end ≡ Ok e) × IsToldWith (K.faults out.old) (K.faults out.new)
        (K.written out.old) (K.written out.new) (upkeep_text e) (upkeep_status e) OUTPUT_FAULT result }
    ensures untold { result ≡ 70 → out.new ≡ out.old }
    ensures good_words { result ≢ 2 }
{
    let Ok(end) = end else {
        return OUT_OF_MEMORY;
    };
    let Ok(text) = upkeep_text(alloc, &end) else {
        return OUT_OF_MEMORY;
    };
    match write_all(out, &text) {
        Ok(()) => status_of(&end),
        Err(_) => OUTPUT_FAULT,
    }
}

/// Runs a command over the journals on the world's disks, writes how it ended, and hands the world back with the exit
/// status.
fn keep_up<S, K: Sink, D: Disk, C, F, L>(
    alloc: Global,
    upkeep: Upkeep,
    world: World<S, K, D, C, F, L>,
) -> Ended<S, K, D, C, F, L>
    ensures outcome { result.status ≢ 70 → UpkeepOutcome (meaning D.Disk)
        (disks world.journal world.spare world.failures world.registry)
        (disks result.world.journal result.world.spare result.world.failures result.world.registry)
        (written_of K.faults K.written world.out result.world.out) upkeep result.status }
    ensures left { IsLeft (meaning D.Disk)
        (disks world.journal world.spare world.failures world.registry)
        (disks result.world.journal result.world.spare result.world.failures result.world.registry) upkeep }
    ensures compact_cut { result.status ≡ 70 → upkeep ≡ Compact → IsCompactCut (meaning D.Disk)
        (disks world.journal world.spare world.failures world.registry)
        (disks result.world.journal result.world.spare result.world.failures result.world.registry) }
    ensures untold { result.status ≡ 70 → result.world.out ≡ world.out }
    ensures good_words { result.status ≢ 2 }
    ensures kept { result.world ≡ record world {
      out = result.world.out;
      journal = result.world.journal;
      spare = result.world.spare;
      failures = result.world.failures;
      registry = result.world.registry;
    } }
{
    let World {
        input,
        out,
        journal,
        spare,
        failures,
        registry,
        clock,
        callers,
        door,
        trace,
    } = world;
    let disks = Disks {
        journal,
        spare,
        failures,
        registry,
    };
    let Tended { end, disks } = tend_disks(alloc, upkeep, disks);
    let mut out = out;
    let status = tell_upkeep(alloc, &mut out, end);
    Ended {
        status,
        world: World {
            input,
            out,
            journal: disks.journal,
            spare: disks.spare,
            failures: disks.failures,
            registry: disks.registry,
            clock,
            callers,
            door,
            trace,
        },
    }
}

/// Runs a command over the four files, writes how it ended, and hands the world back with the exit status.
pub fn tend<S, K: Sink, D: Disk, C, F, L>(
    alloc: Global,
    command: FilesCommand,
    world: World<S, K, D, C, F, L>,
) -> Ended<S, K, D, C, F, L>
    ensures outcome { result.status ≢ 70 → FilesOutcome (meaning D.Disk)
        (disks world.journal world.spare world.failures world.registry)
        (disks result.world.journal result.world.spare result.world.failures result.world.registry)
        (written_of K.faults K.written world.out result.world.out) command result.status }
    ensures left { AreLeft (meaning D.Disk)
        (disks world.journal world.spare world.failures world.registry)
        (disks result.world.journal result.world.spare result.world.failures result.world.registry) command }
    ensures compact_cut { result.status ≡ 70 → command ≡ files.Upkeep Compact → IsCompactCut (meaning D.Disk)
        (disks world.journal world.spare world.failures world.registry)
        (disks result.world.journal result.world.spare result.world.failures result.world.registry) }
    ensures untold { result.status ≡ 70 → result.world.out ≡ world.out }
    ensures good_words { result.status ≢ 2 }
    ensures kept { result.world ≡ record world {
      out = result.world.out;
      journal = result.world.journal;
      spare = result.world.spare;
      failures = result.world.failures;
      registry = result.world.registry;
    } }
{
    match command {
        FilesCommand::Init => initialize(alloc, world),
        FilesCommand::Upkeep(upkeep) => keep_up(alloc, upkeep, world),
    }
}
