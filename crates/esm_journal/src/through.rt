// Calls of a disk, one at a time or a write with its sync, and what a crash at any moment leaves.
ghost use Rattle.std.specs.Prelude.{◌≡◌, ◌+◌, ◌≤◌, true, length, take, drop, IfOk, OnOk, OnErr};
ghost use Rattle.esm_io.specs.Faults.{IsCount, Rose};
ghost use Rattle.esm_io.specs.Images.{overwritten, Torn, Only, LeavesOnly};
ghost use Rattle.esm_io.specs.Meanings.{disk as meaning};
ghost use Rattle.esm_journal.specs.Reads.{IsOnlyRead};

use esm_io::{Disk, Failed};

/// Writes to a disk on which all is synced, also past its end, and syncs. A crash during the call leaves each byte outside
/// the range as it was; after Ok it leaves what a read returns.
pub(crate) fn write_through<D: Disk>(disk: &mut D, at: u64, from: &[u8]) -> Result<(), Failed>
    requires synced { D.honest disk.old ≡ true → Only (D.content disk.old) (D.image disk.old) }
    requires within { D.honest disk.old ≡ true → at ≤ length (D.content disk.old) }
    ensures written { D.honest disk.old ≡ true → OnOk result (D.content disk.new ≡ overwritten (D.content disk.old) at from.now) }
    ensures durable { D.honest disk.old ≡ true → OnOk result (Only (D.content disk.new) (D.image disk.new)) }
    ensures any_moment { D.honest disk.old ≡ true → LeavesOnly D.moment D.image_since disk.old disk.new (Torn at (length from.now) (D.content disk.old)) }
    ensures honesty { D.honest disk.new ≡ D.honest disk.old }
    ensures count { IsCount (D.faults disk.old) (D.faults disk.new) }
    ensures cause { OnErr result (Rose (D.faults disk.old) (D.faults disk.new)) }
{
    disk.write_at(at, from)?;
    disk.sync()?;
    Ok(())
}

/// The size of the disk in bytes.
pub(crate) fn size_of<D: Disk>(disk: &mut D) -> Result<u64, Failed>
    ensures size { D.honest disk.old ≡ true → IfOk result (λ n. n ≡ length (D.content disk.old)) }
    ensures only_read { IsOnlyRead (meaning D.Disk) disk.old disk.new }
    ensures count { IsCount (D.faults disk.old) (D.faults disk.new) }
    ensures cause { OnErr result (Rose (D.faults disk.old) (D.faults disk.new)) }
{
    disk.len()
}

/// Fills `into` with the bytes from a place on.
pub(crate) fn read_at<D: Disk>(disk: &mut D, at: u64, into: &mut [u8]) -> Result<(), Failed>
    requires { D.honest disk.old ≡ true → at + length into.old ≤ length (D.content disk.old) }
    ensures bytes { D.honest disk.old ≡ true → OnOk result (into.new ≡ take (length into.old) (drop at (D.content disk.old))) }
    ensures only_read { IsOnlyRead (meaning D.Disk) disk.old disk.new }
    ensures cause { OnErr result (Rose (D.faults disk.old) (D.faults disk.new)) }
{
    disk.read(at, into)
}

/// Syncs the disk: after Ok, what a read returns is the only image.
pub(crate) fn settle<D: Disk>(disk: &mut D) -> Result<(), Failed>
    ensures durable { D.honest disk.old ≡ true → OnOk result (Only (D.content disk.new) (D.image disk.new)) }
    ensures only_read { IsOnlyRead (meaning D.Disk) disk.old disk.new }
    ensures count { IsCount (D.faults disk.old) (D.faults disk.new) }
    ensures cause { OnErr result (Rose (D.faults disk.old) (D.faults disk.new)) }
{
    disk.sync()
}
