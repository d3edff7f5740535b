// Reads a pair of version 1, whose list is then written anew as one of version 2.
ghost use Rattle.std.specs.Prelude.{◌≡◌, ◌⊎◌, ◌+◌, ◌<◌, ◌==◌, [], ◌∷◌, ◌++◌, true, IfOk, IfErr, OnErr};
ghost use Rattle.esm_io.specs.Faults.{Rose};
ghost use Rattle.esm_io.specs.Meanings.{disk as meaning};
ghost use Rattle.esm_journal.specs.File.{entries, header_of, Damaged};
ghost use Rattle.esm_journal.specs.Pair.{pair_opened, PairRefusedFor};
ghost use Rattle.esm_journal.specs.Reads.{IsOnlyRead};
ghost use Rattle.esm_journal.specs.Migrate.{is_version_2, with_next_epoch};
ghost use Rattle.esm_journal.specs.Taken.{IsReadPair};

use crate::error::OpenError;
use crate::format::{PAIR, SINGLE};
use crate::head::read_head;
use crate::list::list_bytes;
use crate::pair_reading::{Taken, has_seal, read_pair};
use esm_io::{Disk, Failed};
use std::alloc::Global;

/// Whether one of two disks is sealed with the header of version 2.
pub(crate) fn has_version_2<D: Disk>(first: &mut D, second: &mut D) -> Result<bool, Failed>
    ensures version { D.honest first.old ≡ true → D.honest second.old ≡ true →
        IfOk result (λ found. found ≡ is_version_2 (D.content first.old) (D.content second.old)) }
    ensures first_read { IsOnlyRead (meaning D.Disk) first.old first.new }
    ensures second_read { IsOnlyRead (meaning D.Disk) second.old second.new }
    ensures cause { OnErr result (Rose (D.faults first.old) (D.faults first.new) ⊎ Rose (D.faults second.old) (D.faults second.new)) }
{
    let one = read_head(first)?;
    let two = read_head(second)?;
    Ok(has_seal(&one, PAIR) || has_seal(&two, PAIR))
}

/// A pair that was read, and the bytes of its list behind the seal.
#[derive(Drop)]
pub(crate) struct OldPair {
    pub(crate) taken: Taken,
    pub(crate) bytes: Vec<u8>,
}

/// Reads a pair of version 1 and prepares its list to be written under the next epoch. `Damaged(8)` if there is none.
pub(crate) fn read_old_pair<D: Disk>(
    alloc: Global,
    first: &mut D,
    second: &mut D,
) -> Result<OldPair, OpenError>
    ensures read { IfOk result (λ old. IsReadPair (meaning D.Disk) (header_of 1) first.new second.new old.taken) }
    ensures bytes { IfOk result (λ old. old.bytes.items ≡ entries old.taken.found.payloads.items ++ 0 ∷ []) }
    ensures below_greatest { IfOk result (λ old. old.taken.found.epoch < 18446744073709551615) }
    ensures first_read { IsOnlyRead (meaning D.Disk) first.old first.new }
    ensures second_read { IsOnlyRead (meaning D.Disk) second.old second.new }
    ensures refused { IfErr result (PairRefusedFor (meaning D.Disk) (λ one other. with_next_epoch (pair_opened (header_of 1) one other))
        first.old second.old first.new second.new) }
{
    let taken = read_pair(alloc, first, second, SINGLE)?;
    if taken.found.epoch == u64::MAX {
        return Err(OpenError::Damaged(8));
    }
    let bytes = list_bytes(alloc, &taken.found.payloads)?;
    Ok(OldPair { taken, bytes })
}
