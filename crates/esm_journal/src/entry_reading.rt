// Reads the entries of a file one after the other, up to the first gate that is not open.
ghost use Rattle.std.specs.Prelude.{◌≡◌, ◌≢◌, ◌+◌, ◌<◌, ◌≤◌, true, ℕ, [], ◌∷◌, ◌++◌, length, take, drop, slice_index, IfOk, IfErr, IfSome, IfNone};
ghost use Rattle.esm_io.specs.Faults.{Rose};
ghost use Rattle.std.specs.Int.{w32, to_be_bytes, from_be_bytes};
ghost use Rattle.esm_io.specs.Meanings.{disk as meaning};
ghost use Rattle.esm_journal.specs.File.{number_in, entry, entries, end_of, AreShort, Damaged, read_from};
ghost use Rattle.esm_journal.specs.Ahead.{IsAhead};
ghost use Rattle.esm_journal.specs.Reads.{IsOnlyRead, RefusedFor};

use crate::ahead::{Ahead, READ_SIZE, bytes_at};
use crate::error::OpenError;
use crate::format::FIRST_GATE;
use esm_io::Disk;
use esm_model::{Bytes, MAX_PAYLOAD};
use std::alloc::Global;

/// The gate byte at a place.
fn byte_at<D: Disk>(
    alloc: Global,
    disk: &mut D,
    ahead: &mut Ahead,
    place: u64,
    size: u64,
) -> Result<u8, OpenError>
    requires within { place < size }
    requires size { D.honest disk.old ≡ true → size ≡ length (D.content disk.old) }
    requires ahead { IsAhead (meaning D.Disk) disk.old ahead.old }
    ensures byte { D.honest disk.old ≡ true → IfOk result (λ byte. byte ≡ slice_index (D.content disk.old) place) }
    ensures ahead { IsAhead (meaning D.Disk) disk.new ahead.new }
    ensures only_read { IsOnlyRead (meaning D.Disk) disk.old disk.new }
    ensures refused { IfErr result (λ e.
        RefusedFor (λ first. ⊥) (λ place. ⊥) (Rose (D.faults disk.old) (D.faults disk.new)) e) }
{
    ahead.read_on(alloc, disk, place, 1, size)?;
    Ok(ahead.part(place, 1)[0])
}

/// The big-endian number in four bytes.
fn number_of(four: &[u8]) -> u32
    requires { length four.now ≡ 4 }
    ensures number { result ≡ from_be_bytes w32 four.now }
    ensures written { to_be_bytes w32 result ≡ four.now }
{
    u32::from_be_bytes([four[0], four[1], four[2], four[3]])
}

/// The big-endian number in the four bytes from `place` on.
fn number_at<D: Disk>(
    alloc: Global,
    disk: &mut D,
    ahead: &mut Ahead,
    place: u64,
    size: u64,
) -> Result<u32, OpenError>
    requires within { place + 4 ≤ size }
    requires size { D.honest disk.old ≡ true → size ≡ length (D.content disk.old) }
    requires ahead { IsAhead (meaning D.Disk) disk.old ahead.old }
    ensures number { D.honest disk.old ≡ true →
        IfOk result (λ n. n ≡ number_in (drop place (D.content disk.old))) }
    ensures written { D.honest disk.old ≡ true →
        IfOk result (λ n. to_be_bytes w32 n ≡ take 4 (drop place (D.content disk.old))) }
    ensures ahead { IsAhead (meaning D.Disk) disk.new ahead.new }
    ensures only_read { IsOnlyRead (meaning D.Disk) disk.old disk.new }
    ensures refused { IfErr result (λ e.
        RefusedFor (λ first. ⊥) (λ place. ⊥) (Rose (D.faults disk.old) (D.faults disk.new)) e) }
{
    ahead.read_on(alloc, disk, place, 4, size)?;
    Ok(number_of(ahead.part(place, 4)))
}

/// The payload of `count` bytes from `place` on. One longer than `READ_SIZE` is read by itself, not ahead.
fn payload_at<D: Disk>(
    alloc: Global,
    disk: &mut D,
    ahead: &mut Ahead,
    place: u64,
    count: usize,
    size: u64,
) -> Result<Bytes, OpenError>
    requires within { place + count ≤ size }
    requires size { D.honest disk.old ≡ true → size ≡ length (D.content disk.old) }
    requires ahead { IsAhead (meaning D.Disk) disk.old ahead.old }
    ensures bytes { D.honest disk.old ≡ true →
        IfOk result (λ bytes. bytes ≡ take count (drop place (D.content disk.old))) }
    ensures size { IfOk result (λ bytes. length bytes ≡ count) }
    ensures ahead { IsAhead (meaning D.Disk) disk.new ahead.new }
    ensures only_read { IsOnlyRead (meaning D.Disk) disk.old disk.new }
    ensures refused { IfErr result (λ e.
        RefusedFor (λ first. ⊥) (λ place. ⊥) (Rose (D.faults disk.old) (D.faults disk.new)) e) }
{
    if count > READ_SIZE {
        return bytes_at(alloc, disk, place, count);
    }
    ahead.read_on(alloc, disk, place, count, size)?;
    let bytes = Vec::from_slice(alloc, ahead.part(place, count))?;
    Ok(Bytes::from_vec(bytes))
}

/// Reads the entry whose gate is at `place`; `None` if that gate is not open.
fn read_entry<D: Disk>(
    alloc: Global,
    disk: &mut D,
    ahead: &mut Ahead,
    place: u64,
    size: u64,
) -> Result<Option<Bytes>, OpenError>
    requires within { place < size }
    requires size { D.honest disk.old ≡ true → size ≡ length (D.content disk.old) }
    requires ahead { IsAhead (meaning D.Disk) disk.old ahead.old }
    ensures closed { D.honest disk.old ≡ true →
        IfOk result (λ found. IfNone found (slice_index (D.content disk.old) place ≢ 1)) }
    ensures whole { D.honest disk.old ≡ true → IfOk result (λ found. IfSome found (λ payload.
        drop place (D.content disk.old) ≡ 1 ∷ [] ++ entry payload ++ drop (place + 5 + length payload) (D.content disk.old))) }
    ensures next { IfOk result (λ found. IfSome found (λ payload. place + 5 + length payload < size)) }
    ensures short { IfOk result (λ found. IfSome found (λ payload. length payload ≤ MAX_PAYLOAD)) }
    ensures ahead { IsAhead (meaning D.Disk) disk.new ahead.new }
    ensures only_read { IsOnlyRead (meaning D.Disk) disk.old disk.new }
    ensures refused { IfErr result (λ e. RefusedFor (λ first. ⊥)
        (λ damage. D.honest disk.old ≡ true → (epoch : ℕ) →
        read_from epoch place 0 (drop place (D.content disk.old)) ≡ Damaged damage)
        (Rose (D.faults disk.old) (D.faults disk.new)) e) }
{
    if byte_at(alloc, disk, ahead, place, size)? != 1 {
        return Ok(None);
    }
    let left = size - place;
    if left < 5 {
        return Err(OpenError::Damaged(size));
    }
    let count = number_at(alloc, disk, ahead, place + 1, size)?;
    if count as usize > MAX_PAYLOAD {
        return Err(OpenError::Damaged(place + 1));
    }
    if left - 5 <= u64::from(count) {
        return Err(OpenError::Damaged(size));
    }
    let payload = payload_at(alloc, disk, ahead, place + 5, count as usize, size)?;
    Ok(Some(payload))
}

/// Reads the payloads that follow the seal of a file of `size` bytes, and the place of its last gate.
pub(crate) fn read_entries<D: Disk>(
    alloc: Global,
    disk: &mut D,
    size: u64,
) -> Result<(Vec<Bytes>, u64), OpenError>
    requires long { 18 ≤ size }
    requires size { D.honest disk.old ≡ true → size ≡ length (D.content disk.old) }
    ensures entries { D.honest disk.old ≡ true → IfOk result (λ found.
        drop 17 (D.content disk.old) ≡ entries found.0.items ++ drop found.1 (D.content disk.old)) }
    ensures closed { D.honest disk.old ≡ true → IfOk result (λ found. slice_index (D.content disk.old) found.1 ≢ 1) }
    ensures end { IfOk result (λ found. found.1 ≡ end_of found.0.items) }
    ensures within { IfOk result (λ found. found.1 < size) }
    ensures short { IfOk result (λ found. AreShort found.0.items) }
    ensures only_read { IsOnlyRead (meaning D.Disk) disk.old disk.new }
    ensures refused { IfErr result (λ e. RefusedFor (λ first. ⊥)
        (λ damage. D.honest disk.old ≡ true → (epoch : ℕ) → read_from epoch 17 0 (drop 17 (D.content disk.old)) ≡ Damaged damage)
        (Rose (D.faults disk.old) (D.faults disk.new)) e) }
{
    let mut payloads = Vec::new(alloc);
    let mut ahead = Ahead::new(alloc);
    let mut place = FIRST_GATE;
    while let Some(payload) = read_entry(alloc, disk, &mut ahead, place, size)? {
        place += 5 + payload.as_slice().len() as u64;
        payloads.push(payload)?;
    }
    Ok((payloads, place))
}
