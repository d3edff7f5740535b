// Reads the first bytes of a file: the header, the epoch and the seal.
ghost use Rattle.std.specs.Prelude.{◌≡◌, ◌+◌, ◌++◌, ◌<◌, ◌≤◌, true, ℕ, length, slice_index, IfOk, OnErr};
ghost use Rattle.std.specs.Int.{w64, to_be_bytes, from_be_bytes};
ghost use Rattle.esm_io.specs.Faults.{Rose};
ghost use Rattle.esm_io.specs.Meanings.{disk as meaning};
ghost use Rattle.esm_journal.specs.File.{eight_at};
ghost use Rattle.esm_journal.specs.Reads.{IsOnlyRead};
ghost use Rattle.esm_journal.specs.Head.{IsHead};

use crate::through::{read_at, size_of};
use esm_io::{Disk, Failed};

/// The size of a file and its first fields, with 0 for each byte that is missing.
#[derive(Drop)]
pub(crate) struct Head {
    pub(crate) size: u64,
    pub(crate) first: [u8; 8],
    pub(crate) epoch: u64,
    pub(crate) seal: u8,
}

/// The eight bytes from a place on.
fn eight_of(bytes: &[u8], place: usize) -> [u8; 8]
    requires { place + 8 ≤ length bytes.now }
    ensures { result ≡ eight_at bytes.now place }
{
    [
        bytes[place],
        bytes[place + 1],
        bytes[place + 2],
        bytes[place + 3],
        bytes[place + 4],
        bytes[place + 5],
        bytes[place + 6],
        bytes[place + 7],
    ]
}

/// The big-endian number in the eight bytes behind the header.
fn epoch_of(bytes: &[u8]) -> u64
    requires { 16 ≤ length bytes.now }
    ensures number { result ≡ from_be_bytes w64 (eight_at bytes.now 8) }
    ensures written { to_be_bytes w64 result ≡ eight_at bytes.now 8 }
{
    u64::from_be_bytes([
        bytes[8], bytes[9], bytes[10], bytes[11], bytes[12], bytes[13], bytes[14], bytes[15],
    ])
}

/// The 16 bytes before the seal: the header and the epoch.
pub(crate) fn head_bytes(header: [u8; 8], epoch: u64) -> [u8; 16]
    requires { length header ≡ 8 }
    ensures { result ≡ header ++ to_be_bytes w64 epoch }
{
    let mut bytes = [0; 16];
    bytes[..8].copy_from_slice(&header);
    bytes[8..16].copy_from_slice(&epoch.to_be_bytes());
    bytes
}

/// The first 17 bytes, with 0 for each that is missing.
fn first_bytes<D: Disk>(disk: &mut D, size: u64) -> Result<[u8; 17], Failed>
    requires { D.honest disk.old ≡ true → size ≡ length (D.content disk.old) }
    ensures bytes { D.honest disk.old ≡ true → IfOk result (λ bytes. (k : ℕ) → k < 17 → slice_index bytes k ≡ slice_index (D.content disk.old) k) }
    ensures only_read { IsOnlyRead (meaning D.Disk) disk.old disk.new }
    ensures cause { OnErr result (Rose (D.faults disk.old) (D.faults disk.new)) }
{
    let mut bytes = [0; 17];
    let count = size.min(17) as usize;
    read_at(disk, 0, &mut bytes[..count])?;
    Ok(bytes)
}

/// Reads the size and the first fields of a file.
pub(crate) fn read_head<D: Disk>(disk: &mut D) -> Result<Head, Failed>
    ensures head { D.honest disk.old ≡ true → IfOk result (IsHead (D.content disk.old)) }
    ensures only_read { IsOnlyRead (meaning D.Disk) disk.old disk.new }
    ensures cause { OnErr result (Rose (D.faults disk.old) (D.faults disk.new)) }
{
    let size = size_of(disk)?;
    let bytes = first_bytes(disk, size)?;
    Ok(Head {
        size,
        first: eight_of(&bytes, 0),
        epoch: epoch_of(&bytes),
        seal: bytes[16],
    })
}
