// Disks and pairs of journals in memory, and the bytes of files.
ghost use Rattle.std.specs.Prelude.{◌≡◌, [], false, IfOk};

use esm_io::MemDisk;
use esm_journal::{Journal, Pair};
use std::alloc::{AllocError, Global};
use std::test::Fail;

/// The bytes of a journal in use and of a spare, each without payloads.
pub const FRESH: [u8; 18] = *b"ESMJ0002\0\0\0\0\0\0\0\x01\x01\0";

pub const SPARE: [u8; 18] = *b"ESMJ0002\0\0\0\0\0\0\0\0\0\0";

/// The bytes of a failure file without lines, which are also those of a registry without mappings.
pub const NO_LINES: [u8; 18] = *b"ESMJ0001\0\0\0\0\0\0\0\x01\x01\0";

/// Returns a disk with these bytes, all synced, whose calls with these numbers, counted from 0, fail.
pub fn disk(alloc: Global, bytes: &[u8], fails: &[u64]) -> Result<MemDisk, AllocError>
    ensures content { IfOk result (λ disk. disk.content ≡ bytes.now) }
    ensures synced { IfOk result (λ disk. disk.steps ≡ []) }
    ensures schedule { IfOk result (λ disk. disk.schedule ≡ record { fails = fails.now; calls = 0; faults = 0 }) }
{
    let bytes = Vec::from_slice(alloc, bytes)?;
    let fails = Vec::from_slice(alloc, fails)?;
    Ok(MemDisk::new(alloc, bytes, fails))
}

/// The disk of a fresh journal of a pair, whose calls with these numbers fail.
fn first(alloc: Global, fails: &[u64]) -> Result<MemDisk, Fail> {
    let empty = disk(alloc, &[], fails)?;
    Ok(Pair::first(empty)?)
}

/// Returns the disk of a fresh spare.
pub fn blank(alloc: Global) -> Result<MemDisk, Fail> {
    let empty = disk(alloc, &[], &[])?;
    Ok(Journal::blank(empty)?)
}

/// Returns a fresh pair; the calls of its first disk with these numbers fail.
pub fn fresh_pair(alloc: Global, fails: &[u64]) -> Result<Pair<MemDisk>, Fail>
    ensures { IfOk result (λ pair. pair.down ≡ false) }
{
    let journal = first(alloc, fails)?;
    let spare = blank(alloc)?;
    Ok(Pair::open(alloc, journal, spare)?)
}
