// The journal in two files, one in use and one spare, told apart by their seals and epochs.
ghost use Rattle.std.specs.Prelude.{◌≡◌, ◌≢◌, ◌+◌, ◌<◌, ℕ, List, [], ◌∷◌, ◌++◌, true, false, not, Some, length, IfOk, IfErr, OnOk, OnErr};
ghost use Rattle.esm_io.specs.Faults.{IsCount, Rose};
ghost use Rattle.esm_io.specs.Images.{LeavesOnly, Only};
ghost use Rattle.esm_io.specs.Meanings.{disk as meaning};
ghost use Rattle.esm_journal.specs.File.{header_of, Damaged, Holding, fresh_file, blank_file};
ghost use Rattle.esm_journal.specs.Append.{IsAppended, file_in_use};
ghost use Rattle.esm_journal.specs.Fresh.{WasOrHoldsNone};
ghost use Rattle.esm_journal.specs.Reads.{IsOnlyRead, NotMadeFor};
ghost use Rattle.esm_journal.specs.Log.{IsEither};
ghost use Rattle.esm_journal.specs.Pair.{pair_opened, PairRefusedFor, first_disk, second_disk, PairKeeps, PairKeepsWhileUp, PairOpensTo, PairOpensToEither};
ghost use Rattle.esm_journal.specs.Replace.{IsSpareOrNew, PairOpensToOldOrNew};
ghost use Rattle.esm_journal.specs.Rewrite.{IsRewritten, disk_written};
ghost use Rattle.esm_journal.specs.Stopped.{PairKeepsWhileDown};

use crate::error::{AppendError, InitError, OpenError};
use crate::format::{FIRST_GATE, PAIR};
use crate::found::Found;
use crate::fresh::write_fresh;
use crate::list::{Prepared, first_too_long, prepare};
use crate::log::Log;
use crate::pair_reading::{Taken, read_pair};
use crate::replace::replace_file;
use esm_io::Disk;
use esm_model::{Bytes, OutOfMemory, Refused};
use std::alloc::Global;
use std::collections::VecDeque;
use std::marker::Model;

/// Two files of payloads with the header `ESMJ0002`, of which one is in use: the sealed one with the greater epoch.
/// Payloads are added to the file in use.
#[derive(Drop)]
pub struct Pair<D: Disk> {
    pub(crate) log: Log<D>,
    pub(crate) spare: D,
    /// Whether the seal byte of the spare disk is 1.
    pub(crate) spare_sealed: bool,
    /// Whether the disk in use is the second that was handed in.
    pub(crate) swapped: bool,
}

impl<D: Disk> Model for Pair<D> {
    ghost use Rattle.std.specs.Prelude.{◌≡◌};
    ghost use Rattle.esm_journal.specs.Pair.{PairState, pair_code};

    ghost Value = { PairState D };

    ghost coded = { pair_code D.code };

    ghost use Rattle.esm_io.specs.Meanings.{disk as meaning};
    ghost use Rattle.esm_journal.specs.File.{header_of};
    ghost use Rattle.esm_journal.specs.Room.{room_of};
    ghost use Rattle.esm_journal.specs.Log.{IsLog};
    ghost use Rattle.esm_journal.specs.IsPair.{IsPair};

    ghost view = { λ p. record {
      payloads = p.log.payloads.items;
      epoch = p.log.epoch;
      down = p.log.down;
      room = room_of p.log.spares.items;
      used = p.log.disk;
      spare = p.spare;
      swapped = p.swapped;
    } };

    ghost invariant = { λ p. IsLog (meaning D.Disk) p.log × IsPair (meaning D.Disk) p.log p.spare p.spare_sealed };
}

impl<D: Disk> Pair<D> {
    /// Opens a pair: syncs both disks, then reads the file in use entry by entry; nothing is written. Returns `NotAJournal`,
    /// with the first eight bytes of the first disk, if neither is taken. Returns `Damaged` if the one that is taken is
    /// damaged, with the place in bytes from its start, or if it is not and the other has fewer than 18 bytes, with their
    /// number. Returns `DiskFault` if a call of a disk failed, and `OutOfMemory` if an allocation failed.
    pub fn open(alloc: Global, journal: D, spare: D) -> Result<Pair<D>, Refused<OpenError, (D, D)>>
        // What Ok means: these are the payloads and the epoch, and nothing was written.
        ensures opened { D.honest journal ≡ true → D.honest spare ≡ true →
            IfOk result (λ pair. pair_opened (header_of 2) (D.content journal) (D.content spare) ≡ Holding pair.epoch pair.payloads) }
        ensures fresh { IfOk result (λ pair. (pair.down ≡ false) × (pair.room ≡ [])) }
        ensures first_read { IfOk result (λ pair. IsOnlyRead (meaning D.Disk) journal (first_disk pair)) }
        ensures second_read { IfOk result (λ pair. IsOnlyRead (meaning D.Disk) spare (second_disk pair)) }
        // What a crash leaves after Ok.
        ensures kept { D.honest journal ≡ true → D.honest spare ≡ true →
            IfOk result (λ pair. PairKeeps (meaning D.Disk) (header_of 2) pair.epoch pair.payloads pair.used pair.spare) }
        // When each error is returned; nothing was written.
        ensures refused { IfErr result (λ refused.
            PairRefusedFor (meaning D.Disk) (pair_opened (header_of 2)) journal spare refused.back.0 refused.back.1 refused.why) }
        ensures first_back { IfErr result (λ refused. IsOnlyRead (meaning D.Disk) journal refused.back.0) }
        ensures second_back { IfErr result (λ refused. IsOnlyRead (meaning D.Disk) spare refused.back.1) }
    {
        let mut first = journal;
        let mut second = spare;
        match read_pair(alloc, &mut first, &mut second, PAIR) {
            Ok(taken) => {
                let Taken {
                    found,
                    swapped,
                    spare_sealed,
                } = taken;
                let Found {
                    epoch,
                    payloads,
                    end,
                } = found;
                if swapped {
                    return Ok(Pair {
                        log: Log {
                            disk: second,
                            header: PAIR,
                            epoch,
                            payloads,
                            end,
                            spares: VecDeque::new(alloc),
                            down: false,
                        },
                        spare: first,
                        spare_sealed,
                        swapped: true,
                    });
                }
                Ok(Pair {
                    log: Log {
                        disk: first,
                        header: PAIR,
                        epoch,
                        payloads,
                        end,
                        spares: VecDeque::new(alloc),
                        down: false,
                    },
                    spare: second,
                    spare_sealed,
                    swapped: false,
                })
            }
            Err(why) => Err(Refused {
                why,
                back: (first, second),
            }),
        }
    }

    /// Makes a fresh `journal.esm` without payloads on an empty disk, and syncs it. With a fresh `spare.esm` beside it, in
    /// either order, it opens to no payload. Returns `NotEmpty`, with the number of bytes, if the disk has any; a disk that
    /// has bytes is never written. Returns `DiskFault` if a call of the disk failed; after any other error the disk was only
    /// read. A crash at any moment of the call leaves no payload that was not there before.
    pub fn first(disk: D) -> Result<D, Refused<InitError, D>>
        // What Ok leaves.
        ensures bytes { D.honest disk ≡ true → IfOk result (λ made. D.content made ≡ fresh_file (header_of 2)) }
        ensures opens { D.honest disk ≡ true → IfOk result (λ made. PairOpensTo (header_of 2) 1 [] (D.content made) (blank_file (header_of 2) 0)) }
        ensures durable { D.honest disk ≡ true → IfOk result (λ made. Only (D.content made) (D.image made)) }
        ensures was_empty { D.honest disk ≡ true → OnOk result (length (D.content disk) ≡ 0) }
        // When each error is returned, and what it leaves.
        ensures refused { IfErr result (λ refused. NotMadeFor
            (λ size. D.honest disk ≡ true → (size ≡ length (D.content disk)) × (size ≢ 0) × (D.content refused.back ≡ D.content disk))
            (Rose (D.faults disk) (D.faults refused.back)) refused.why) }
        ensures only_read { D.honest disk ≡ true → length (D.content disk) ≢ 0 → IfErr result (λ refused. IsOnlyRead (meaning D.Disk) disk refused.back) }
        ensures unchanged { IfErr result (λ refused. (refused.why ≡ InitError.DiskFault → ⊥) → IsOnlyRead (meaning D.Disk) disk refused.back) }
        // What a crash leaves at any moment of the call.
        ensures any_moment { D.honest disk ≡ true → IfOk result (λ made. LeavesOnly D.moment D.image_since disk made (WasOrHoldsNone (D.image disk))) }
        ensures any_moment_err { D.honest disk ≡ true →
            IfErr result (λ refused. LeavesOnly D.moment D.image_since disk refused.back (WasOrHoldsNone (D.image disk))) }
        // The disk is as honest as it was, and its count of faults never falls.
        ensures honesty { IfOk result (λ made. D.honest made ≡ D.honest disk) }
        ensures back_honesty { IfErr result (λ refused. D.honest refused.back ≡ D.honest disk) }
        ensures count { IfOk result (λ made. IsCount (D.faults disk) (D.faults made)) }
        ensures back_count { IfErr result (λ refused. IsCount (D.faults disk) (D.faults refused.back)) }
    {
        let mut disk = disk;
        match write_fresh(&mut disk, PAIR) {
            Ok(()) => Ok(disk),
            Err(why) => Err(Refused { why, back: disk }),
        }
    }

    /// The payloads, in order. While the pair is down they are those from before the call that failed; a crash leaves a pair
    /// that opens to these, or to what that call would have left.
    pub fn payloads(&self) -> &[Bytes]
        ensures payloads { result.now ≡ self.now.payloads }
        ensures kept { PairKeepsWhileUp (meaning D.Disk) self.now }
        ensures stopped { PairKeepsWhileDown (meaning D.Disk) self.now }
    {
        &self.log.payloads
    }

    /// The epoch of the disk in use.
    pub fn epoch(&self) -> u64
        ensures { result ≡ self.now.epoch }
    {
        self.log.epoch
    }

    /// Reserves memory for the next payloads of these lengths, in bytes, in place of what was reserved before. After Ok the
    /// next calls of `append`, one for each length and in this order, do not return `OutOfMemory` if their payloads are no
    /// longer. Returns `OutOfMemory` if an allocation failed; then nothing has changed.
    pub fn reserve(&mut self, alloc: Global, lengths: &[u32]) -> Result<(), OutOfMemory>
        ensures room { OnOk result (self.new ≡ record self.old { room = lengths.now }) }
        ensures kept { OnErr result (self.new ≡ self.old) }
    {
        self.log.reserve(alloc, lengths)
    }

    /// Adds a payload to the file in use, in four calls of its disk: two writes, each with its sync. A crash during the call
    /// leaves a pair that opens to the earlier payloads, with the new one or without; after Ok every crash leaves the new
    /// one. Returns `TooLong` if the payload is longer than `MAX_PAYLOAD` bytes, and `Down` if an earlier call returned
    /// `DiskFault`. After `DiskFault` the pair is down until it is opened again; after the other errors nothing has changed.
    pub fn append(&mut self, alloc: Global, payload: &[u8]) -> Result<(), AppendError>
        // What each answer says of the file in use; the rest stays, whatever the answer.
        ensures told { IsAppended (meaning D.Disk) payload.now (file_in_use self.old) (file_in_use self.new) result }
        ensures spare { self.new.spare ≡ self.old.spare }
        ensures epoch { self.new.epoch ≡ self.old.epoch }
        ensures swapped { self.new.swapped ≡ self.old.swapped }
        // What a crash leaves: of the disk in use and of both disks since the call began, and once it has returned.
        ensures any_moment { D.honest self.old.used ≡ true → self.old.down ≡ false →
            LeavesOnly D.moment D.image_since self.old.used self.new.used
            (IsEither (header_of 2) self.old.epoch self.old.payloads (self.old.payloads ++ payload.now ∷ [])) }
        ensures pair_images { D.honest self.old.used ≡ true → D.honest self.old.spare ≡ true → self.old.down ≡ false → (one other : List ℕ) →
            D.image_since self.new.used (D.moment self.old.used) one → D.image_since self.new.spare (D.moment self.old.spare) other →
            PairOpensToEither (header_of 2) self.old.epoch self.old.payloads payload.now one other }
        ensures kept { PairKeepsWhileUp (meaning D.Disk) self.new }
    {
        self.log.append(alloc, payload)
    }

    /// Replaces the payloads by a new list: writes the list to the disk that is not in use, under the next epoch, and then
    /// uses that disk. A crash during the call leaves a pair that opens to the earlier payloads or to the new list; after Ok
    /// every crash leaves the new list. Returns `TooLong`, with its length in bytes, for the first payload longer than
    /// `MAX_PAYLOAD`, and `Down` if an earlier call returned `DiskFault`. After `DiskFault` the pair is down until it is
    /// opened again; after the other errors nothing has changed.
    pub fn rewrite(&mut self, alloc: Global, payloads: &[Bytes]) -> Result<(), AppendError>
        requires { self.old.epoch < 18446744073709551615 }
        ensures told { IsRewritten (meaning D.Disk) payloads.now self.old self.new result }
        // What a crash leaves: of the disk that is written and of both disks since the call began, and once it has returned.
        ensures any_moment { D.honest self.old.used ≡ true → D.honest self.old.spare ≡ true → self.old.down ≡ false →
            LeavesOnly D.moment D.image_since self.old.spare (disk_written result self.new)
            (IsSpareOrNew (header_of 2) self.old.epoch (header_of 2) (self.old.epoch + 1) payloads.now) }
        ensures pair_images { D.honest self.old.used ≡ true → D.honest self.old.spare ≡ true → self.old.down ≡ false → (one other : List ℕ) →
            D.image_since (first_disk self.new) (D.moment (first_disk self.old)) one →
            D.image_since (second_disk self.new) (D.moment (second_disk self.old)) other →
            PairOpensToOldOrNew (header_of 2) self.old.epoch self.old.payloads payloads.now one other }
        ensures kept { PairKeepsWhileUp (meaning D.Disk) self.new }
    {
        if self.log.down {
            return Err(AppendError::Down);
        }
        if let Some(size) = first_too_long(payloads) {
            return Err(AppendError::TooLong(size));
        }
        let Ok(list) = prepare(alloc, payloads, &self.log.spares) else {
            return Err(AppendError::OutOfMemory);
        };
        let Prepared { bytes, payloads } = list;
        let epoch = self.log.epoch + 1;
        if replace_file(&mut self.spare, self.spare_sealed, PAIR, epoch, &bytes).is_err() {
            self.log.down = true;
            return Err(AppendError::DiskFault);
        }
        let end = FIRST_GATE - 1 + bytes.len() as u64;
        self.log.move_over(&mut self.spare, payloads, end);
        self.spare_sealed = true;
        self.swapped = !self.swapped;
        Ok(())
    }

    /// Returns the disks as the calls left them, in the order in which they were handed in.
    pub fn into_disks(self) -> (D, D)
        ensures first { result.0 ≡ first_disk self }
        ensures second { result.1 ≡ second_disk self }
    {
        let Pair {
            log,
            spare,
            spare_sealed: _,
            swapped,
        } = self;
        if swapped {
            (spare, log.disk)
        } else {
            (log.disk, spare)
        }
    }
}
