// Overwrites one byte of a synced disk and syncs, so that a crash harms no other byte.
ghost use Rattle.std.specs.Prelude.{◌≡◌, ◌<◌, true, [], ◌∷◌, length, OnOk, OnErr};
ghost use Rattle.esm_io.specs.Faults.{IsCount, Rose};
ghost use Rattle.esm_io.specs.Images.{overwritten, Torn, Only, LeavesOnly};

use crate::disk::Disk;
use crate::failed::Failed;

/// Overwrites the byte at a place of a disk on which everything is synced, and syncs. A crash at any moment leaves every
/// other byte, and after `Ok` it leaves what reads return. `Failed` is returned only where the disk's count of faults rose.
pub fn put_byte<D: Disk>(disk: &mut D, place: u64, byte: u8) -> Result<(), Failed>
    requires honest { D.honest disk.old ≡ true }
    requires synced { Only (D.content disk.old) (D.image disk.old) }
    requires within { place < length (D.content disk.old) }
    ensures put { OnOk result (D.content disk.new ≡ overwritten (D.content disk.old) place (byte ∷ [])) }
    ensures durable { OnOk result (Only (D.content disk.new) (D.image disk.new)) }
    ensures any_moment { LeavesOnly D.moment D.image_since disk.old disk.new (Torn place 1 (D.content disk.old)) }
    ensures honesty { D.honest disk.new ≡ true }
    ensures count { IsCount (D.faults disk.old) (D.faults disk.new) }
    ensures cause { OnErr result (Rose (D.faults disk.old) (D.faults disk.new)) }
{
    disk.write_at(place, &[byte])?;
    disk.sync()?;
    Ok(())
}
