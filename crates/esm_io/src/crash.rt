// What a crash leaves of the bytes of a disk in memory, from its steps and the choice of which bytes have arrived.
ghost use Rattle.std.specs.Prelude.{◌≡◌, ◌+◌, ◌<◌, ◌≤◌, drop, reverse, length, slice_index, if◌then◌else◌, IfOk};
ghost use Rattle.esm_io.specs.Steps.{AreSteps, undone};
ghost use Rattle.esm_io.specs.Crashes.{kept_of, has_arrived, arrived, crashed};

use crate::disk_step::DiskStep;
use std::alloc::{AllocError, Global};

/// The bytes that a crash leaves of a disk with these bytes after these steps, by the choice of `MemDisk::crash`.
pub fn crashed(
    alloc: Global,
    choice: u64,
    bytes: &[u8],
    steps: &[DiskStep],
) -> Result<Vec<u8>, AllocError>
    requires { AreSteps bytes.now (reverse steps.now) }
    ensures { IfOk result (λ left. left.items ≡ crashed choice bytes.now (reverse steps.now)) }
{
    if choice == 0 {
        return kept(alloc, bytes, steps);
    }
    if choice == 1 {
        return Vec::from_slice(alloc, bytes);
    }
    let kept = kept(alloc, bytes, steps)?;
    arrived(alloc, choice, &kept, bytes)
}

/// The bytes that the last sync kept.
fn kept(alloc: Global, bytes: &[u8], steps: &[DiskStep]) -> Result<Vec<u8>, AllocError>
    requires { AreSteps bytes.now (reverse steps.now) }
    ensures { IfOk result (λ kept. kept.items ≡ kept_of bytes.now (reverse steps.now)) }
{
    let mut kept = Vec::from_slice(alloc, bytes)?;
    let mut rest = steps;
    while let Some((step, earlier)) = rest.split_last() {
        match step {
            DiskStep::Synced => return Ok(kept),
            DiskStep::Wrote { at, count, before } => {
                undo(&mut kept, *at, *count, before.as_slice());
                rest = earlier;
            }
        }
    }
    Ok(kept)
}

/// Undoes a write: puts back what was there before it.
fn undo(bytes: &mut Vec<u8>, at: usize, count: usize, before: &[u8])
    requires within { at + count ≤ length bytes.old.items }
    requires short { length before.now ≤ count }
    requires end { length before.now < count → at + count ≡ length bytes.old.items }
    ensures { bytes.new.items ≡ undone at count before.now bytes.old.items }
{
    let end = at + before.len();
    bytes[at..end].copy_from_slice(before);
    if before.len() < count {
        bytes.truncate(end);
    }
}

/// The bytes that have arrived, by the bits of the choice; for the others the byte that was kept, or 0.
fn arrived(alloc: Global, choice: u64, kept: &[u8], bytes: &[u8]) -> Result<Vec<u8>, AllocError>
    ensures { IfOk result (λ left. left.items ≡ arrived choice 0 kept.now bytes.now) }
{
    let mut left = Vec::new(alloc);
    let mut unarrived = kept;
    for (place, byte) in bytes.iter().enumerate() {
        let (was, after) = first_or_zero(unarrived);
        let has = has_arrived(choice, place);
        left.push(chosen(has, *byte, was))?;
        unarrived = after;
    }
    Ok(left)
}

fn chosen(has: bool, new: u8, was: u8) -> u8
    ensures { result ≡ (if has then new else was) }
{
    if has { new } else { was }
}

/// The first byte, or 0 if there is none, and the others.
fn first_or_zero(bytes: &[u8]) -> (u8, &[u8])
    ensures first { result.0 ≡ slice_index bytes.now 0 }
    ensures others { result.1.now ≡ drop 1 bytes.now }
{
    match bytes {
        [first, others @ ..] => (*first, others),
        [] => (0, bytes),
    }
}

/// Whether the byte at this place has arrived.
fn has_arrived(choice: u64, place: usize) -> bool
    ensures { result ≡ has_arrived choice place }
{
    (choice >> (place % 8)) % 2 == 1
}
