// Reads a file ahead, so that one read of the disk serves many entries.
ghost use Rattle.std.specs.Prelude.{◌≡◌, ◌+◌, ◌-◌, ◌≤◌, ◌↔◌, IsTrue, true, ℕ, List, [], length, take, drop, IfOk, IfErr, OnOk, OnErr};
ghost use Rattle.esm_io.specs.Faults.{Rose};
ghost use Rattle.esm_io.specs.Meanings.{disk as meaning};
ghost use Rattle.esm_journal.specs.Ahead.{IsReadFrom, IsAhead};
ghost use Rattle.esm_journal.specs.Reads.{IsOnlyRead, RefusedFor};

use crate::error::OpenError;
use crate::through::read_at;
use esm_io::Disk;
use esm_model::Bytes;
use std::alloc::Global;

/// How many bytes are read at once, or all that are left if the file has fewer.
pub(crate) const READ_SIZE: usize = 65_536;

/// Bytes of a file that were read ahead.
#[derive(Drop)]
pub(crate) struct Ahead {
    /// The place of the first of them, in bytes from the start of the file.
    pub(crate) start: u64,
    pub(crate) bytes: Bytes,
}

/// Reads `count` bytes from `place` on.
pub(crate) fn bytes_at<D: Disk>(
    alloc: Global,
    disk: &mut D,
    place: u64,
    count: usize,
) -> Result<Bytes, OpenError>
    requires within { D.honest disk.old ≡ true → place + count ≤ length (D.content disk.old) }
    ensures bytes { D.honest disk.old ≡ true →
        IfOk result (λ bytes. bytes ≡ take count (drop place (D.content disk.old))) }
    ensures size { IfOk result (λ bytes. length bytes ≡ count) }
    ensures only_read { IsOnlyRead (meaning D.Disk) disk.old disk.new }
    ensures refused { IfErr result (λ e.
        RefusedFor (λ first. ⊥) (λ place. ⊥) (Rose (D.faults disk.old) (D.faults disk.new)) e) }
{
    let mut bytes = vec![in alloc; 0; count]?;
    read_at(disk, place, bytes.as_mut_slice())?;
    Ok(Bytes::from_vec(bytes))
}

impl Ahead {
    /// Nothing read ahead yet.
    pub(crate) fn new(alloc: Global) -> Self
        ensures { result.bytes ≡ [] }
    {
        Ahead {
            start: 0,
            bytes: Bytes::from_vec(Vec::new(alloc)),
        }
    }

    /// Whether `count` bytes from `place` on were read.
    fn has(&self, place: u64, count: usize) -> bool
        ensures { IsTrue result ↔ (self.now.start ≤ place) × (place + count ≤ self.now.start + length self.now.bytes) }
    {
        if place < self.start {
            return false;
        }
        let passed = place - self.start;
        let size = self.bytes.as_slice().len() as u64;
        passed <= size && count as u64 <= size - passed
    }

    /// Makes sure that `count` bytes from `place` on are read. `size` is the file's length in bytes. After an error the
    /// bytes from before are kept.
    pub(crate) fn read_on<D: Disk>(
        &mut self,
        alloc: Global,
        disk: &mut D,
        place: u64,
        count: usize,
        size: u64,
    ) -> Result<(), OpenError>
        requires few { count ≤ READ_SIZE }
        requires within { place + count ≤ size }
        requires size { D.honest disk.old ≡ true → size ≡ length (D.content disk.old) }
        requires ahead { IsAhead (meaning D.Disk) disk.old self.old }
        ensures from { OnOk result (self.new.start ≤ place) }
        ensures to { OnOk result (place + count ≤ self.new.start + length self.new.bytes) }
        ensures ahead { IsAhead (meaning D.Disk) disk.new self.new }
        ensures kept { OnErr result (self.new ≡ self.old) }
        ensures only_read { IsOnlyRead (meaning D.Disk) disk.old disk.new }
        ensures refused { IfErr result (λ e.
            RefusedFor (λ first. ⊥) (λ place. ⊥) (Rose (D.faults disk.old) (D.faults disk.new)) e) }
    {
        if self.has(place, count) {
            return Ok(());
        }
        let left = (size - place).min(READ_SIZE as u64) as usize;
        let bytes = bytes_at(alloc, disk, place, left)?;
        self.start = place;
        self.bytes = bytes;
        Ok(())
    }

    /// The `count` bytes from `place` on, which were read.
    pub(crate) fn part(&self, place: u64, count: usize) -> &[u8]
        requires from { self.now.start ≤ place }
        requires to { place + count ≤ self.now.start + length self.now.bytes }
        ensures part { (content : List ℕ) → IsReadFrom content self.now → result.now ≡ take count (drop place content) }
        ensures size { length result.now ≡ count }
    {
        let passed = (place - self.start) as usize;
        &self.bytes.as_slice()[passed..][..count]
    }
}
