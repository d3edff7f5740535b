// Makes fresh files on empty disks.
ghost use Rattle.std.specs.Prelude.{◌≡◌, ◌≢◌, true, length, IfErr, OnOk, OnErr};
ghost use Rattle.esm_io.specs.Faults.{IsCount, Rose};
ghost use Rattle.esm_io.specs.Images.{LeavesOnly, Only};
ghost use Rattle.esm_io.specs.Meanings.{disk as meaning};
ghost use Rattle.esm_journal.specs.File.{blank_file, fresh_file};
ghost use Rattle.esm_journal.specs.Fresh.{WasOrHoldsNone};
ghost use Rattle.esm_journal.specs.Reads.{IsOnlyRead, NotMadeFor};

use crate::error::InitError;
use crate::format::SEAL;
use crate::head::head_bytes;
use crate::through::{settle, size_of, write_through};
use esm_io::Disk;

/// The 18 bytes of a file that was never sealed.
fn blank_bytes(header: [u8; 8], epoch: u64) -> [u8; 18]
    requires { length header ≡ 8 }
    ensures { result ≡ blank_file header epoch }
{
    let mut bytes = [0; 18];
    bytes[..16].copy_from_slice(&head_bytes(header, epoch));
    bytes
}

/// Makes, on an empty disk, a file that was never sealed.
pub(crate) fn write_blank<D: Disk>(
    disk: &mut D,
    header: [u8; 8],
    epoch: u64,
) -> Result<(), InitError>
    requires { length header ≡ 8 }
    ensures made { D.honest disk.old ≡ true → OnOk result (D.content disk.new ≡ blank_file header epoch) }
    ensures durable { D.honest disk.old ≡ true → OnOk result (Only (D.content disk.new) (D.image disk.new)) }
    ensures was_empty { D.honest disk.old ≡ true → OnOk result (length (D.content disk.old) ≡ 0) }
    ensures refused { IfErr result (λ e. NotMadeFor
        (λ size. D.honest disk.old ≡ true → (size ≡ length (D.content disk.old)) × (size ≢ 0) × (D.content disk.new ≡ D.content disk.old))
        (Rose (D.faults disk.old) (D.faults disk.new)) e) }
    ensures only_read { D.honest disk.old ≡ true → length (D.content disk.old) ≢ 0 → OnErr result (IsOnlyRead (meaning D.Disk) disk.old disk.new) }
    ensures unchanged { IfErr result (λ e. (e ≡ InitError.DiskFault → ⊥) → IsOnlyRead (meaning D.Disk) disk.old disk.new) }
    ensures any_moment { D.honest disk.old ≡ true → LeavesOnly D.moment D.image_since disk.old disk.new (WasOrHoldsNone (D.image disk.old)) }
    ensures honesty { D.honest disk.new ≡ D.honest disk.old }
    ensures count { IsCount (D.faults disk.old) (D.faults disk.new) }
{
    settle(disk)?;
    let size = size_of(disk)?;
    if size != 0 {
        return Err(InitError::NotEmpty(size));
    }
    write_through(disk, 0, &blank_bytes(header, epoch))?;
    Ok(())
}

/// Makes, on an empty disk, a fresh file. The seal is opened once the rest is on the disk.
pub(crate) fn write_fresh<D: Disk>(disk: &mut D, header: [u8; 8]) -> Result<(), InitError>
    requires { length header ≡ 8 }
    ensures made { D.honest disk.old ≡ true → OnOk result (D.content disk.new ≡ fresh_file header) }
    ensures durable { D.honest disk.old ≡ true → OnOk result (Only (D.content disk.new) (D.image disk.new)) }
    ensures was_empty { D.honest disk.old ≡ true → OnOk result (length (D.content disk.old) ≡ 0) }
    ensures refused { IfErr result (λ e. NotMadeFor
        (λ size. D.honest disk.old ≡ true → (size ≡ length (D.content disk.old)) × (size ≢ 0) × (D.content disk.new ≡ D.content disk.old))
        (Rose (D.faults disk.old) (D.faults disk.new)) e) }
    ensures only_read { D.honest disk.old ≡ true → length (D.content disk.old) ≢ 0 → OnErr result (IsOnlyRead (meaning D.Disk) disk.old disk.new) }
    ensures unchanged { IfErr result (λ e. (e ≡ InitError.DiskFault → ⊥) → IsOnlyRead (meaning D.Disk) disk.old disk.new) }
    ensures any_moment { D.honest disk.old ≡ true → LeavesOnly D.moment D.image_since disk.old disk.new (WasOrHoldsNone (D.image disk.old)) }
    ensures honesty { D.honest disk.new ≡ D.honest disk.old }
    ensures count { IsCount (D.faults disk.old) (D.faults disk.new) }
{
    write_blank(disk, header, 1)?;
    write_through(disk, SEAL, &[1])?;
    Ok(())
}
