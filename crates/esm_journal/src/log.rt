// An open file: what is kept of it in memory, and its disk.
ghost use Rattle.std.specs.Prelude.{◌≡◌, ◌+◌, ◌<◌, ◌≤◌, ◌^◌, ◌⊎◌, [], ◌∷◌, ◌++◌, true, false, length, vec_len, vec_capacity, OnOk, OnErr};
ghost use Rattle.esm_io.specs.Faults.{IsCount, Rose, MAX_FAULTS};
ghost use Rattle.esm_io.specs.Images.{overwritten, Torn, Only, LeavesOnly};
ghost use Rattle.esm_io.specs.Meanings.{disk as meaning};
ghost use Rattle.esm_journal.specs.File.{end_of, IsFile};
ghost use Rattle.esm_journal.specs.Room.{room_of, total_room};

use crate::error::AppendError;
use crate::room::{framed, make_spares, payload_of};
use crate::through::write_through;
use esm_io::{Disk, Failed};
use esm_model::{Bytes, MAX_PAYLOAD, OutOfMemory};
use std::alloc::Global;
use std::collections::VecDeque;
use std::mem;

#[derive(Drop)]
pub(crate) struct Log<D: Disk> {
    pub(crate) disk: D,
    pub(crate) header: [u8; 8],
    pub(crate) epoch: u64,
    pub(crate) payloads: Vec<Bytes>,
    /// The place of the last gate.
    pub(crate) end: u64,
    /// Empty buffers for the entries of the next payloads.
    pub(crate) spares: VecDeque<Vec<u8>>,
    /// Whether a call of the disk failed.
    pub(crate) down: bool,
}

/// Writes an entry and the next gate behind the gate at `gate`, and syncs; only then opens that gate, and syncs again. A
/// crash during the call leaves only bytes behind the gate changed, or the entry whole and the gate open or not.
fn add_entry<D: Disk>(disk: &mut D, gate: u64, frame: &[u8]) -> Result<(), Failed>
    requires synced { D.honest disk.old ≡ true → Only (D.content disk.old) (D.image disk.old) }
    requires within { D.honest disk.old ≡ true → gate < length (D.content disk.old) }
    requires fits { gate + 1 < 2 ^ 64 }
    ensures written { D.honest disk.old ≡ true →
        OnOk result (D.content disk.new ≡ overwritten (overwritten (D.content disk.old) (gate + 1) frame.now) gate (1 ∷ [])) }
    ensures durable { D.honest disk.old ≡ true → OnOk result (Only (D.content disk.new) (D.image disk.new)) }
    ensures any_moment { D.honest disk.old ≡ true → LeavesOnly D.moment D.image_since disk.old disk.new
        (λ image. Torn (gate + 1) (length frame.now) (D.content disk.old) image ⊎ Torn gate 1 (overwritten (D.content disk.old) (gate + 1) frame.now) image) }
    ensures honesty { D.honest disk.new ≡ D.honest disk.old }
    ensures count { IsCount (D.faults disk.old) (D.faults disk.new) }
    ensures cause { OnErr result (Rose (D.faults disk.old) (D.faults disk.new)) }
{
    write_through(disk, gate + 1, frame)?;
    write_through(disk, gate, &[1])
}

impl<D: Disk> Log<D> {
    ghost use Rattle.esm_journal.specs.Append.{IsAppended};
    ghost use Rattle.esm_journal.specs.Log.{IsLog, IsUnchanged, IsEither, state_of};

    /// Reserves memory for the next payloads of these lengths, in bytes.
    pub(crate) fn reserve(&mut self, alloc: Global, lengths: &[u32]) -> Result<(), OutOfMemory>
        requires { IsLog (meaning D.Disk) self.old }
        ensures log { IsLog (meaning D.Disk) self.new }
        ensures room { OnOk result (room_of self.new.spares.items ≡ lengths.now) }
        ensures kept { OnErr result (IsUnchanged self.old self.new) }
        ensures disk { self.new.disk ≡ self.old.disk }
        ensures payloads { self.new.payloads.items ≡ self.old.payloads.items }
        ensures down { self.new.down ≡ self.old.down }
        ensures header { self.new.header ≡ self.old.header }
        ensures epoch { self.new.epoch ≡ self.old.epoch }
    {
        let spares = make_spares(alloc, self.end, lengths)?;
        self.payloads.reserve(lengths.len())?;
        self.spares = spares;
        Ok(())
    }

    /// Adds a payload after the others, in four calls of the disk.
    pub(crate) fn append(&mut self, alloc: Global, payload: &[u8]) -> Result<(), AppendError>
        requires { IsLog (meaning D.Disk) self.old }
        ensures log { IsLog (meaning D.Disk) self.new }
        ensures header { self.new.header ≡ self.old.header }
        ensures epoch { self.new.epoch ≡ self.old.epoch }
        ensures told { IsAppended (meaning D.Disk) payload.now (state_of self.old) (state_of self.new) result }
        ensures any_moment { D.honest self.old.disk ≡ true → self.old.down ≡ false → LeavesOnly D.moment D.image_since self.old.disk self.new.disk
            (IsEither self.old.header self.old.epoch self.old.payloads.items (self.old.payloads.items ++ payload.now ∷ [])) }
    {
        if self.down {
            return Err(AppendError::Down);
        }
        if payload.len() > MAX_PAYLOAD {
            return Err(AppendError::TooLong(payload.len() as u64));
        }
        if self.payloads.reserve(1).is_err() {
            return Err(AppendError::OutOfMemory);
        }
        let Ok(frame) = framed(alloc, &mut self.spares, self.end, payload) else {
            return Err(AppendError::OutOfMemory);
        };
        if add_entry(&mut self.disk, self.end, &frame).is_err() {
            self.down = true;
            return Err(AppendError::DiskFault);
        }
        self.end += payload.len() as u64 + 5;
        self.payloads
            .push_reserved(Bytes::from_vec(payload_of(frame)));
        Ok(())
    }

    /// Switches to the file of the next epoch on another disk. Afterwards `disk` is the one that was in use.
    pub(crate) fn move_over(&mut self, disk: &mut D, payloads: Vec<Bytes>, end: u64)
        requires log { IsLog (meaning D.Disk) self.old }
        requires up { self.old.down ≡ false }
        requires epoch { self.old.epoch + 1 < 2 ^ 64 }
        requires file { D.honest disk.old ≡ true → IsFile self.old.header (self.old.epoch + 1) payloads.items (D.content disk.old) }
        requires durable { D.honest disk.old ≡ true → Only (D.content disk.old) (D.image disk.old) }
        requires faults { D.faults disk.old ≤ MAX_FAULTS }
        requires end { end ≡ end_of payloads.items }
        requires total { end + total_room self.old.spares.items < 2 ^ 64 }
        requires places { vec_len payloads + length self.old.spares.items ≤ vec_capacity payloads }
        ensures log { IsLog (meaning D.Disk) self.new }
        ensures disk { self.new.disk ≡ disk.old }
        ensures disk_before { disk.new ≡ self.old.disk }
        ensures header { self.new.header ≡ self.old.header }
        ensures epoch { self.new.epoch ≡ self.old.epoch + 1 }
        ensures payloads { self.new.payloads.items ≡ payloads.items }
        ensures spares { self.new.spares.items ≡ self.old.spares.items }
        ensures down { self.new.down ≡ self.old.down }
    {
        mem::swap(&mut self.disk, disk);
        self.epoch += 1;
        let _ = mem::replace(&mut self.payloads, payloads);
        self.end = end;
    }
}
