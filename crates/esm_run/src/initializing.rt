// The command `init`: makes the four files that the program keeps, and writes how that ended.
ghost use Rattle.std.specs.Prelude.{◌≡◌, ◌≢◌, Ok};
ghost use Rattle.esm_io.specs.Meanings.{disk as meaning};
ghost use Rattle.esm_folder.specs.Init.{AreSafe};
ghost use Rattle.esm_folder.specs.Text.{init_text};
ghost use Rattle.esm_folder.specs.declared.files.InitEnd.{InitEnd};
ghost use Rattle.esm_run.specs.Endings.{IsToldWith};
ghost use Rattle.esm_run.specs.Initialized.{InitOutcome, init_status};
ghost use Rattle.esm_run.specs.World.{disks, written_of};

use crate::output::{OUT_OF_MEMORY, OUTPUT_FAULT, write_all};
use crate::world::{Ended, World};
use esm_folder::{Disks, InitEnd, Initialized, init_text};
use esm_io::{Disk, Sink};
use esm_model::OutOfMemory;
use std::alloc::Global;

/// The exit status if a file is not empty.
const NOT_EMPTY: u8 = 8;

/// The exit status if a disk failed.
const DISK_FAULT: u8 = 6;

/// Returns the exit status for the end of `init`.
fn init_status(end: InitEnd) -> u8
    ensures { result ≡ init_status end }
{
    match end {
        InitEnd::Done => 0,
        InitEnd::NotEmpty { .. } => NOT_EMPTY,
        InitEnd::DiskFault => DISK_FAULT,
    }
}

/// Writes how `init` ended, and returns the exit status.
fn tell_init<K: Sink>(alloc: Global, out: &mut K, end: Result<InitEnd, OutOfMemory>) -> u8
    ensures told { result ≢ 70 → (e : InitEnd) × (end ≡ Ok e) × IsToldWith (K.faults out.old) (K.faults out.new)
        (K.written out.old) (K.written out.new) (init_text e) (init_status e) OUTPUT_FAULT result }
    ensures untold { result ≡ 70 → out.new ≡ out.old }
    ensures good_words { result ≢ 2 }
{
    let Ok(end) = end else {
        return OUT_OF_MEMORY;
    };
    let Ok(text) = init_text(alloc, end) else {
        return OUT_OF_MEMORY;
    };
    match write_all(out, &text) {
        Ok(()) => init_status(end),
        Err(_) => OUTPUT_FAULT,
    }
}

/// Makes the four files of the world's disks, writes how that ended, and hands the world back with the exit status.
pub fn initialize<S, K: Sink, D: Disk, C, F, L>(
    alloc: Global,
    world: World<S, K, D, C, F, L>,
) -> Ended<S, K, D, C, F, L>
    ensures outcome { result.status ≢ 70 → InitOutcome (meaning D.Disk)
        (disks world.journal world.spare world.failures world.registry)
        (disks result.world.journal result.world.spare result.world.failures result.world.registry)
        (written_of K.faults K.written world.out result.world.out) result.status }
    ensures safe { AreSafe (meaning D.Disk)
        (disks world.journal world.spare world.failures world.registry)
        (disks result.world.journal result.world.spare result.world.failures result.world.registry) }
    ensures untold { result.status ≡ 70 → result.world.out ≡ world.out }
    ensures good_words { result.status ≢ 2 }
    ensures kept { result.world ≡ record world {
      out = result.world.out;
      journal = result.world.journal;
      spare = result.world.spare;
      failures = result.world.failures;
      registry = result.world.registry;
    } }
{
    let World {
        input,
        out,
        journal,
        spare,
        failures,
        registry,
        clock,
        callers,
        door,
        trace,
    } = world;
    let Initialized { end, disks } = esm_folder::init(
        alloc,
        Disks {
            journal,
            spare,
            failures,
            registry,
        },
    );
    let mut out = out;
    let status = tell_init(alloc, &mut out, end);
    Ended {
        status,
        world: World {
            input,
            out,
            journal: disks.journal,
            spare: disks.spare,
            failures: disks.failures,
            registry: disks.registry,
            clock,
            callers,
            door,
            trace,
        },
    }
}
