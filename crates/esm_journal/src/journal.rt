// The journal in one file: making it, opening it, reading its payloads and adding to them.
ghost use Rattle.std.specs.Prelude.{◌≡◌, ◌≢◌, ◌<◌, [], true, false, length, IfOk, IfErr, OnOk, OnErr};
ghost use Rattle.esm_io.specs.Faults.{IsCount, Rose};
ghost use Rattle.esm_io.specs.Images.{LeavesOnly, Only};
ghost use Rattle.esm_io.specs.Meanings.{disk as meaning};
ghost use Rattle.esm_journal.specs.File.{header_of, Foreign, Damaged, eight_at, opened, fresh_file, blank_file};
ghost use Rattle.esm_journal.specs.Append.{IsAppended};
ghost use Rattle.esm_journal.specs.Fresh.{WasOrHoldsNone};
ghost use Rattle.esm_journal.specs.Reads.{IsOnlyRead, RefusedFor, NotMadeFor};
ghost use Rattle.esm_journal.specs.State.{OpensTo, OpensToEither, Keeps, KeepsWhileUp, KeepsWhileDown};

use crate::error::{AppendError, InitError, OpenError};
use crate::format::{FIRST_GATE, PAIR, SINGLE};
use crate::found::read_file;
use crate::fresh::{write_blank, write_fresh};
use crate::log::Log;
use esm_io::Disk;
use esm_model::{Bytes, OutOfMemory, Refused};
use std::alloc::Global;
use std::collections::VecDeque;
use std::marker::Model;

/// A journal in one file, with the header `ESMJ0001`. Over an honest disk, a payload that was added is in every image of the
/// disk, so a crash leaves it. After `DiskFault` an image may also have the payload of the call that failed.
#[derive(Drop)]
pub struct Journal<D: Disk> {
    log: Log<D>,
}

impl<D: Disk> Model for Journal<D> {
    ghost use Rattle.std.specs.Prelude.{◌≡◌};
    ghost use Rattle.esm_journal.specs.State.{JournalState, state_code};

    ghost Value = { JournalState D };

    ghost coded = { state_code D.code };

    ghost use Rattle.esm_io.specs.Meanings.{disk as meaning};
    ghost use Rattle.esm_journal.specs.File.{header_of};
    ghost use Rattle.esm_journal.specs.Room.{room_of};
    ghost use Rattle.esm_journal.specs.Log.{IsLog};

    ghost view = { λ j. record { payloads = j.log.payloads.items; down = j.log.down; room = room_of j.log.spares.items; disk = j.log.disk } };

    ghost invariant = { λ j. IsLog (meaning D.Disk) j.log × (j.log.header ≡ header_of 1) };
}

impl<D: Disk> Journal<D> {
    /// Makes a journal without payloads on an empty disk, and syncs it. Returns `NotEmpty`, with the number of bytes, if the
    /// disk has any; a disk that has bytes is never written. Returns `DiskFault` if a call of the disk failed; after any
    /// other error the disk was only read. A crash at any moment of the call leaves no payload that was not there before.
    pub fn init(alloc: Global, disk: D) -> Result<Journal<D>, Refused<InitError, D>>
        // What Ok leaves.
        ensures fresh { IfOk result (λ journal. (journal.payloads ≡ []) × (journal.down ≡ false) × (journal.room ≡ [])) }
        ensures bytes { D.honest disk ≡ true → IfOk result (λ journal. D.content journal.disk ≡ fresh_file (header_of 1)) }
        ensures kept { D.honest disk ≡ true → IfOk result (λ journal. Keeps (meaning D.Disk) (header_of 1) [] journal.disk) }
        ensures was_empty { D.honest disk ≡ true → OnOk result (length (D.content disk) ≡ 0) }
        // When each error is returned, and what it leaves.
        ensures refused { IfErr result (λ refused. NotMadeFor
            (λ size. D.honest disk ≡ true → (size ≡ length (D.content disk)) × (size ≢ 0) × (D.content refused.back ≡ D.content disk))
            (Rose (D.faults disk) (D.faults refused.back)) refused.why) }
        ensures only_read { D.honest disk ≡ true → length (D.content disk) ≢ 0 → IfErr result (λ refused. IsOnlyRead (meaning D.Disk) disk refused.back) }
        ensures unchanged { IfErr result (λ refused. (refused.why ≡ InitError.DiskFault → ⊥) → IsOnlyRead (meaning D.Disk) disk refused.back) }
        // What a crash leaves at any moment of the call.
        ensures any_moment { D.honest disk ≡ true →
            IfOk result (λ journal. LeavesOnly D.moment D.image_since disk journal.disk (WasOrHoldsNone (D.image disk))) }
        ensures any_moment_err { D.honest disk ≡ true →
            IfErr result (λ refused. LeavesOnly D.moment D.image_since disk refused.back (WasOrHoldsNone (D.image disk))) }
        // The disk is as honest as it was, and its count of faults never falls.
        ensures honesty { IfOk result (λ journal. D.honest journal.disk ≡ D.honest disk) }
        ensures back_honesty { IfErr result (λ refused. D.honest refused.back ≡ D.honest disk) }
        ensures count { IfOk result (λ journal. IsCount (D.faults disk) (D.faults journal.disk)) }
        ensures back_count { IfErr result (λ refused. IsCount (D.faults disk) (D.faults refused.back)) }
    {
        let mut disk = disk;
        match write_fresh(&mut disk, SINGLE) {
            Ok(()) => Ok(Journal {
                log: Log {
                    disk,
                    header: SINGLE,
                    epoch: 1,
                    payloads: Vec::new(alloc),
                    end: FIRST_GATE,
                    spares: VecDeque::new(alloc),
                    down: false,
                },
            }),
            Err(why) => Err(Refused { why, back: disk }),
        }
    }

    /// Makes the fresh spare file of a pair on an empty disk, and syncs it: the header `ESMJ0002`, epoch 0, a closed seal
    /// and a closed gate. Returns the errors of `init`, each when `init` does.
    pub fn blank(disk: D) -> Result<D, Refused<InitError, D>>
        // What Ok leaves.
        ensures bytes { D.honest disk ≡ true → IfOk result (λ made. D.content made ≡ blank_file (header_of 2) 0) }
        ensures durable { D.honest disk ≡ true → IfOk result (λ made. Only (D.content made) (D.image made)) }
        ensures was_empty { D.honest disk ≡ true → OnOk result (length (D.content disk) ≡ 0) }
        // When each error is returned, and what it leaves.
        ensures refused { IfErr result (λ refused. NotMadeFor
            (λ size. D.honest disk ≡ true → (size ≡ length (D.content disk)) × (size ≢ 0) × (D.content refused.back ≡ D.content disk))
            (Rose (D.faults disk) (D.faults refused.back)) refused.why) }
        ensures only_read { D.honest disk ≡ true → length (D.content disk) ≢ 0 → IfErr result (λ refused. IsOnlyRead (meaning D.Disk) disk refused.back) }
        ensures unchanged { IfErr result (λ refused. (refused.why ≡ InitError.DiskFault → ⊥) → IsOnlyRead (meaning D.Disk) disk refused.back) }
        // What a crash leaves at any moment of the call.
        ensures any_moment { D.honest disk ≡ true → IfOk result (λ made. LeavesOnly D.moment D.image_since disk made (WasOrHoldsNone (D.image disk))) }
        ensures any_moment_err { D.honest disk ≡ true →
            IfErr result (λ refused. LeavesOnly D.moment D.image_since disk refused.back (WasOrHoldsNone (D.image disk))) }
        // The disk is as honest as it was, and its count of faults never falls.
        ensures honesty { IfOk result (λ made. D.honest made ≡ D.honest disk) }
        ensures back_honesty { IfErr result (λ refused. D.honest refused.back ≡ D.honest disk) }
        ensures count { IfOk result (λ made. IsCount (D.faults disk) (D.faults made)) }
        ensures back_count { IfErr result (λ refused. IsCount (D.faults disk) (D.faults refused.back)) }
    {
        let mut disk = disk;
        match write_blank(&mut disk, PAIR, 0) {
            Ok(()) => Ok(disk),
            Err(why) => Err(Refused { why, back: disk }),
        }
    }

    /// Opens a file: syncs the disk, then reads the file entry by entry; nothing is written. Returns `NotAJournal`, with the
    /// first eight bytes, if the file does not begin with the header, and `Damaged`, with the place in bytes from the start,
    /// if it does and is damaged. Returns `DiskFault` if a call of the disk failed, and `OutOfMemory` if an allocation
    /// failed.
    pub fn open(alloc: Global, disk: D) -> Result<Journal<D>, Refused<OpenError, D>>
        // What Ok means: these are the payloads, and nothing was written.
        ensures opened { D.honest disk ≡ true → IfOk result (λ journal. OpensTo (header_of 1) journal.payloads (D.content disk)) }
        ensures fresh { IfOk result (λ journal. (journal.down ≡ false) × (journal.room ≡ [])) }
        ensures only_read { IfOk result (λ journal. IsOnlyRead (meaning D.Disk) disk journal.disk) }
        // What a crash leaves after Ok.
        ensures kept { D.honest disk ≡ true → IfOk result (λ journal. Keeps (meaning D.Disk) (header_of 1) journal.payloads journal.disk) }
        // When each error is returned; nothing was written.
        ensures refused { IfErr result (λ refused. RefusedFor
            (λ first. D.honest disk ≡ true → (opened (header_of 1) (D.content disk) ≡ Foreign) × (first ≡ eight_at (D.content disk) 0))
            (λ place. D.honest disk ≡ true → opened (header_of 1) (D.content disk) ≡ Damaged place)
            (Rose (D.faults disk) (D.faults refused.back)) refused.why) }
        ensures back { IfErr result (λ refused. IsOnlyRead (meaning D.Disk) disk refused.back) }
    {
        let mut disk = disk;
        match read_file(alloc, &mut disk, SINGLE) {
            Ok(found) => Ok(Journal {
                log: Log {
                    disk,
                    header: SINGLE,
                    epoch: found.epoch,
                    payloads: found.payloads,
                    end: found.end,
                    spares: VecDeque::new(alloc),
                    down: false,
                },
            }),
            Err(why) => Err(Refused { why, back: disk }),
        }
    }

    /// The payloads, in order.
    pub fn payloads(&self) -> &[Bytes]
        ensures payloads { result.now ≡ self.now.payloads }
        ensures kept { KeepsWhileUp (meaning D.Disk) self.now }
        ensures stopped { KeepsWhileDown (meaning D.Disk) self.now }
    {
        &self.log.payloads
    }

    /// Reserves memory for the next payloads of these lengths, in bytes, in place of what was reserved before. After Ok the
    /// next calls of `append`, one for each length and in this order, do not return `OutOfMemory` if their payloads are no
    /// longer. Returns `OutOfMemory` if an allocation failed; then nothing has changed.
    pub fn reserve(&mut self, alloc: Global, lengths: &[u32]) -> Result<(), OutOfMemory>
        ensures room { OnOk result (self.new.room ≡ lengths.now) }
        ensures kept { OnErr result (self.new ≡ self.old) }
        ensures payloads { self.new.payloads ≡ self.old.payloads }
        ensures down { self.new.down ≡ self.old.down }
        ensures disk { self.new.disk ≡ self.old.disk }
    {
        self.log.reserve(alloc, lengths)
    }

    /// Adds a payload, in four calls of the disk: two writes, each with its sync. A crash during the call leaves a file that
    /// opens to the earlier payloads, with the new one or without; after Ok every crash leaves the new one. Returns
    /// `TooLong` if the payload is longer than `MAX_PAYLOAD` bytes, and `Down` if an earlier call returned `DiskFault`.
    /// After `DiskFault` the journal is down until it is opened again; after the other errors nothing has changed.
    pub fn append(&mut self, alloc: Global, payload: &[u8]) -> Result<(), AppendError>
        ensures told { IsAppended (meaning D.Disk) payload.now self.old self.new result }
        // What a crash leaves: since the call began, and once it has returned.
        ensures any_moment { D.honest self.old.disk ≡ true → self.old.down ≡ false →
            LeavesOnly D.moment D.image_since self.old.disk self.new.disk (OpensToEither (header_of 1) self.old.payloads payload.now) }
        ensures kept { KeepsWhileUp (meaning D.Disk) self.new }
        ensures stopped { KeepsWhileDown (meaning D.Disk) self.new }
    {
        self.log.append(alloc, payload)
    }

    /// Returns the disk as the calls left it.
    pub fn into_disk(self) -> D
        ensures { result ≡ self.disk }
    {
        let Journal { log } = self;
        log.disk
    }
}
