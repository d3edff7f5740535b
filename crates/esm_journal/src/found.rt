// Reads a whole file: its epoch, its payloads and the place of its last gate.
ghost use Rattle.std.specs.Prelude.{◌≡◌, true, length, IfOk, IfErr, OnOk};
ghost use Rattle.esm_io.specs.Faults.{IsCount, Rose};
ghost use Rattle.esm_io.specs.Images.{Only};
ghost use Rattle.esm_io.specs.Meanings.{disk as meaning};
ghost use Rattle.esm_journal.specs.File.{end_of, AreShort, IsFile, Foreign, Damaged, eight_at, opened_rest, opened};
ghost use Rattle.esm_journal.specs.Reads.{IsOnlyRead, RefusedFor};
ghost use Rattle.esm_journal.specs.Head.{IsHead};

use crate::entry_reading::read_entries;
use crate::error::OpenError;
use crate::format::{LEAST_SIZE, SEAL};
use crate::head::{Head, read_head};
use crate::through::settle;
use esm_io::Disk;
use esm_model::Bytes;
use std::alloc::Global;

/// The epoch and the payloads of a file, and the place of its last gate.
#[derive(Drop)]
pub(crate) struct Found {
    pub(crate) epoch: u64,
    pub(crate) payloads: Vec<Bytes>,
    pub(crate) end: u64,
}

/// Reads the payloads of a file that begins with the header. `head` is what was read of its first bytes.
pub(crate) fn read_rest<D: Disk>(
    alloc: Global,
    disk: &mut D,
    head: &Head,
) -> Result<Found, OpenError>
    requires { D.honest disk.old ≡ true → IsHead (D.content disk.old) head.now }
    ensures found { D.honest disk.old ≡ true → IfOk result (λ found. IsFile head.now.first found.epoch found.payloads.items (D.content disk.old)) }
    ensures epoch { IfOk result (λ found. found.epoch ≡ head.now.epoch) }
    ensures end { IfOk result (λ found. found.end ≡ end_of found.payloads.items) }
    ensures short { IfOk result (λ found. AreShort found.payloads.items) }
    ensures only_read { IsOnlyRead (meaning D.Disk) disk.old disk.new }
    ensures refused { IfErr result (λ e. RefusedFor (λ first. ⊥)
        (λ damage. D.honest disk.old ≡ true → opened_rest (D.content disk.old) ≡ Damaged damage)
        (Rose (D.faults disk.old) (D.faults disk.new)) e) }
{
    if head.size < LEAST_SIZE {
        return Err(OpenError::Damaged(head.size));
    }
    if head.seal != 1 {
        return Err(OpenError::Damaged(SEAL));
    }
    let (payloads, end) = read_entries(alloc, disk, head.size)?;
    Ok(Found {
        epoch: head.epoch,
        payloads,
        end,
    })
}

/// Syncs a disk and reads the file on it.
pub(crate) fn read_file<D: Disk>(
    alloc: Global,
    disk: &mut D,
    header: [u8; 8],
) -> Result<Found, OpenError>
    requires { length header ≡ 8 }
    ensures found { D.honest disk.old ≡ true → IfOk result (λ found. IsFile header found.epoch found.payloads.items (D.content disk.old)) }
    ensures end { IfOk result (λ found. found.end ≡ end_of found.payloads.items) }
    ensures durable { D.honest disk.old ≡ true → OnOk result (Only (D.content disk.new) (D.image disk.new)) }
    ensures only_read { IsOnlyRead (meaning D.Disk) disk.old disk.new }
    ensures count { IsCount (D.faults disk.old) (D.faults disk.new) }
    ensures refused { IfErr result (λ e. RefusedFor
        (λ first. D.honest disk.old ≡ true → (opened header (D.content disk.old) ≡ Foreign) × (first ≡ eight_at (D.content disk.old) 0))
        (λ damage. D.honest disk.old ≡ true → opened header (D.content disk.old) ≡ Damaged damage)
        (Rose (D.faults disk.old) (D.faults disk.new)) e) }
{
    settle(disk)?;
    let head = read_head(disk)?;
    if head.size < 8 || head.first != header {
        return Err(OpenError::NotAJournal(head.first));
    }
    read_rest(alloc, disk, &head)
}
