// The disks of a generated stream's run.
ghost use Rattle.std.specs.Prelude.{◌≡◌, IfOk};
ghost use Rattle.esm_folder.specs.Init.{fresh_bytes};
ghost use Rattle.esm_model.specs.declared.names.FileName.TheVariants.{Journal, Spare};

use esm_folder::{Disks, InitEnd, init};
use esm_io::MemDisk;
use esm_model::OutOfMemory;
use std::alloc::Global;

/// Makes a disk without bytes, none of whose calls is to fail.
fn empty(alloc: Global) -> MemDisk {
    MemDisk::new(alloc, Vec::new(alloc), Vec::new(alloc))
}

/// Makes disks in memory as an `init` leaves them. Since none of their calls is to fail, the `init` can fail only if memory
/// runs out.
pub fn fresh_disks(alloc: Global) -> Result<Disks<MemDisk>, OutOfMemory>
    ensures journal { IfOk result (λ disks. disks.journal.content ≡ fresh_bytes Journal) }
    ensures spare { IfOk result (λ disks. disks.spare.content ≡ fresh_bytes Spare) }
{
    let disks = Disks {
        journal: empty(alloc),
        spare: empty(alloc),
        failures: empty(alloc),
        registry: empty(alloc),
    };
    let made = init(alloc, disks);
    match made.end {
        Ok(InitEnd::Done) => Ok(made.disks),
        _ => Err(OutOfMemory),
    }
}
