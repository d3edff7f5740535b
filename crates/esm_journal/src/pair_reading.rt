// Finds which of two files is in use, and reads it.
ghost use Rattle.std.specs.Prelude.{◌≡◌, ◌≤◌, ◌==◌, ◌&&◌, true, false, ℕ, List, length, nat_eq, IfOk, IfErr, OnOk};
ghost use Rattle.std.specs.Cmp.Lexicographic.{pointwise};
ghost use Rattle.esm_io.specs.Faults.{Rose, MAX_FAULTS};
ghost use Rattle.esm_io.specs.Images.{Only};
ghost use Rattle.esm_io.specs.Meanings.{disk as meaning};
ghost use Rattle.esm_journal.specs.File.{end_of, AreShort, IsFile, Damaged, opened_rest};
ghost use Rattle.esm_journal.specs.Head.{IsHead};
ghost use Rattle.esm_journal.specs.Pair.{is_taken, beside, pair_opened, PairRefusedFor, IsOther};
ghost use Rattle.esm_journal.specs.Reads.{IsOnlyRead, RefusedFor};
ghost use Rattle.esm_journal.specs.Taken.{IsTaken};

use crate::error::OpenError;
use crate::format::LEAST_SIZE;
use crate::found::{Found, read_rest};
use crate::head::{Head, read_head};
use crate::through::settle;
use esm_io::Disk;
use std::alloc::Global;

/// The file in use, whether it is the second, and whether the seal byte of the other is 1.
#[derive(Drop)]
pub(crate) struct Taken {
    pub(crate) found: Found,
    pub(crate) swapped: bool,
    pub(crate) spare_sealed: bool,
}

/// Whether the file begins with the header and its seal is open.
pub(crate) fn has_seal(head: &Head, header: [u8; 8]) -> bool
    ensures sealed { result ≡ (pointwise nat_eq head.now.first header && (head.now.seal == 1)) }
    ensures headed { result ≡ true → head.now.first ≡ header }
{
    if head.first != header {
        return false;
    }
    head.seal == 1
}

/// Whether the first of two files is taken: it is sealed, and the other is not or has a lower epoch.
fn takes(head: &Head, other: &Head, header: [u8; 8]) -> bool
    ensures taken { (bytes beside : List ℕ) → IsHead bytes head.now → IsHead beside other.now → result ≡ is_taken header bytes beside }
    ensures headed { result ≡ true → head.now.first ≡ header }
{
    if !has_seal(head, header) {
        return false;
    }
    !has_seal(other, header) || other.epoch < head.epoch
}

/// Reads the file that is taken, beside another of `size` bytes, which are too few below `LEAST_SIZE`.
fn read_taken<D: Disk>(
    alloc: Global,
    disk: &mut D,
    head: &Head,
    size: u64,
) -> Result<Found, OpenError>
    requires head { D.honest disk.old ≡ true → IsHead (D.content disk.old) head.now }
    requires first { length head.now.first ≡ 8 }
    ensures found { D.honest disk.old ≡ true → IfOk result (λ found. IsFile head.now.first found.epoch found.payloads.items (D.content disk.old)) }
    ensures epoch { IfOk result (λ found. found.epoch ≡ head.now.epoch) }
    ensures end { IfOk result (λ found. found.end ≡ end_of found.payloads.items) }
    ensures short { IfOk result (λ found. AreShort found.payloads.items) }
    ensures long { OnOk result (18 ≤ size) }
    ensures only_read { IsOnlyRead (meaning D.Disk) disk.old disk.new }
    ensures refused { IfErr result (λ e. RefusedFor (λ first. ⊥)
        (λ damage. D.honest disk.old ≡ true → beside (opened_rest (D.content disk.old)) size ≡ Damaged damage)
        (Rose (D.faults disk.old) (D.faults disk.new)) e) }
{
    let found = read_rest(alloc, disk, head)?;
    if size < LEAST_SIZE {
        return Err(OpenError::Damaged(size));
    }
    Ok(found)
}

/// Syncs both disks, then finds and reads the file in use.
pub(crate) fn read_pair<D: Disk>(
    alloc: Global,
    first: &mut D,
    second: &mut D,
    header: [u8; 8],
) -> Result<Taken, OpenError>
    requires { length header ≡ 8 }
    ensures taken { D.honest first.old ≡ true → D.honest second.old ≡ true → IfOk result (IsTaken header (D.content first.old) (D.content second.old)) }
    ensures first_file { D.honest first.old ≡ true →
        IfOk result (λ taken. taken.swapped ≡ false → IsFile header taken.found.epoch taken.found.payloads.items (D.content first.old)) }
    ensures second_file { D.honest second.old ≡ true →
        IfOk result (λ taken. taken.swapped ≡ true → IsFile header taken.found.epoch taken.found.payloads.items (D.content second.old)) }
    ensures first_other { D.honest first.old ≡ true → IfOk result (λ taken. taken.swapped ≡ true → IsOther taken.spare_sealed (D.content first.old)) }
    ensures second_other { D.honest second.old ≡ true → IfOk result (λ taken. taken.swapped ≡ false → IsOther taken.spare_sealed (D.content second.old)) }
    ensures end { IfOk result (λ taken. taken.found.end ≡ end_of taken.found.payloads.items) }
    ensures short { IfOk result (λ taken. AreShort taken.found.payloads.items) }
    ensures durable { D.honest first.old ≡ true → OnOk result (Only (D.content first.new) (D.image first.new)) }
    ensures spare_durable { D.honest second.old ≡ true → OnOk result (Only (D.content second.new) (D.image second.new)) }
    ensures first_read { IsOnlyRead (meaning D.Disk) first.old first.new }
    ensures second_read { IsOnlyRead (meaning D.Disk) second.old second.new }
    ensures faults { OnOk result (D.faults first.new ≤ MAX_FAULTS) }
    ensures spare_faults { OnOk result (D.faults second.new ≤ MAX_FAULTS) }
    ensures refused { IfErr result (PairRefusedFor (meaning D.Disk) (pair_opened header) first.old second.old first.new second.new) }
{
    settle(first)?;
    settle(second)?;
    let one = read_head(first)?;
    let two = read_head(second)?;
    if takes(&one, &two, header) {
        let found = read_taken(alloc, first, &one, two.size)?;
        return Ok(Taken {
            found,
            swapped: false,
            spare_sealed: two.seal == 1,
        });
    }
    if takes(&two, &one, header) {
        let found = read_taken(alloc, second, &two, one.size)?;
        return Ok(Taken {
            found,
            swapped: true,
            spare_sealed: one.seal == 1,
        });
    }
    Err(OpenError::NotAJournal(one.first))
}
