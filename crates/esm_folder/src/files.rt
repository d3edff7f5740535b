// Makes the four files of a folder, for `init`, and how that ended.
ghost use Rattle.std.specs.Prelude.{IfOk};
ghost use Rattle.esm_io.specs.Meanings.{disk as meaning};
ghost use Rattle.esm_folder.specs.Init.{AreSafe, IsInitEnd};

use crate::disks::Disks;
use crate::lengths::read_sizes;
use crate::making::make;
use esm_io::Disk;
use esm_model::{FileName, OutOfMemory};
use std::alloc::Global;

/// How `init` ended.
#[derive(Clone, Copy, Debug, PartialEq, Eq)]
pub enum InitEnd {
    /// The four files are made, and on their disks.
    Done,
    /// This is the first file that is not empty, and how many bytes it has; nothing was written.
    NotEmpty { file: FileName, size: u64 },
    /// A call of a disk failed: its count of faults rose.
    DiskFault,
}

/// How `init` ended, and the disks as it left them.
#[derive(Drop)]
pub struct Initialized<D> {
    pub end: Result<InitEnd, OutOfMemory>,
    pub disks: Disks<D>,
}

/// Makes the four files of a folder on empty disks: journal, spare, failures and registry in this order. Reads the lengths
/// of all four first; if a disk has bytes nothing is written. After a fault in making a file, those before it are made.
pub fn init<D: Disk>(alloc: Global, disks: Disks<D>) -> Initialized<D>
    ensures end { IfOk result.end (IsInitEnd (meaning D.Disk) disks result.disks) }
    ensures safe { AreSafe (meaning D.Disk) disks result.disks }
{
    let mut disks = disks;
    match read_sizes(&mut disks) {
        Ok(sizes) => match sizes.first_not_empty() {
            Some((file, size)) => Initialized {
                end: Ok(InitEnd::NotEmpty { file, size }),
                disks,
            },
            None => make(alloc, disks),
        },
        Err(_) => Initialized {
            end: Ok(InitEnd::DiskFault),
            disks,
        },
    }
}
