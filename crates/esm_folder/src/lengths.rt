// The lengths of the four files, and the first one that is not empty.
ghost use Rattle.std.specs.Prelude.{◌≡◌, ◌<◌, ◌≢◌, true, length, IfOk, OnErr, IfSome, IfNone};
ghost use Rattle.esm_io.specs.Faults.{Rose};
ghost use Rattle.esm_io.specs.Meanings.{disk as meaning};
ghost use Rattle.esm_journal.specs.Reads.{IsOnlyRead};
ghost use Rattle.esm_folder.specs.Init.{AreOnlyRead, disk_of, place_of, size_in};
ghost use Rattle.esm_folder.specs.Sizes.{size_at};
ghost use Rattle.esm_model.specs.declared.names.FileName.{FileName};

use crate::disks::Disks;
use esm_io::{Disk, Failed};
use esm_model::FileName;

/// The lengths of the four files in bytes.
#[derive(Clone, Copy)]
pub struct Sizes {
    pub journal: u64,
    pub spare: u64,
    pub failures: u64,
    pub registry: u64,
}

impl Sizes {
    /// The first file that has bytes, and their number.
    pub fn first_not_empty(&self) -> Option<(FileName, u64)>
        ensures some { IfSome result (λ found. (found.1 ≡ size_at self.now found.0) × (found.1 ≢ 0)
            × ((g : FileName) → place_of g < place_of found.0 → size_at self.now g ≡ 0)) }
        ensures none { IfNone result ((g : FileName) → size_at self.now g ≡ 0) }
    {
        if self.journal != 0 {
            return Some((FileName::Journal, self.journal));
        }
        if self.spare != 0 {
            return Some((FileName::Spare, self.spare));
        }
        if self.failures != 0 {
            return Some((FileName::Failures, self.failures));
        }
        if self.registry != 0 {
            return Some((FileName::Registry, self.registry));
        }
        None
    }
}

/// The length of a disk in bytes.
fn size_of<D: Disk>(disk: &mut D) -> Result<u64, Failed>
    ensures size { D.honest disk.old ≡ true → IfOk result (λ n. n ≡ length (D.content disk.old)) }
    ensures only_read { IsOnlyRead (meaning D.Disk) disk.old disk.new }
    ensures cause { OnErr result (Rose (D.faults disk.old) (D.faults disk.new)) }
{
    disk.len()
}

/// The lengths of the four disks in bytes.
pub fn read_sizes<D: Disk>(disks: &mut Disks<D>) -> Result<Sizes, Failed>
    ensures sizes { IfOk result (λ sizes. (f : FileName) → D.honest (disk_of disks.old f) ≡ true
        → size_at sizes f ≡ size_in (meaning D.Disk) disks.old f) }
    ensures only_read { AreOnlyRead (meaning D.Disk) disks.old disks.new }
    ensures cause { OnErr result ((f : FileName) × Rose (D.faults (disk_of disks.old f)) (D.faults (disk_of disks.new f))) }
{
    let journal = size_of(&mut disks.journal)?;
    let spare = size_of(&mut disks.spare)?;
    let failures = size_of(&mut disks.failures)?;
    let registry = size_of(&mut disks.registry)?;
    Ok(Sizes {
        journal,
        spare,
        failures,
        registry,
    })
}
