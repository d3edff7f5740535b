// A failure destination that is a file: each line is a payload of a journal.
ghost use Rattle.std.specs.Prelude.{◌≡◌, ◌≤◌, ◌++◌, ℕ, List, [], ◌∷◌, true, false, Some, length, OnOk, OnErr, IsErrOf};
ghost use Rattle.esm_io.specs.Faults.{IsCount, Rose};
ghost use Rattle.esm_io.specs.Images.{LeavesOnly, NoOther};
ghost use Rattle.esm_io.specs.Told.{Grows, IsEither};
ghost use Rattle.esm_io.specs.Meanings.{disk as meaning};
ghost use Rattle.esm_journal.specs.File.{header_of};
ghost use Rattle.esm_journal.specs.Room.{HasRoomIfShort};
ghost use Rattle.esm_journal.specs.State.{OpensTo, KeepsWhileUp, KeepsWhileDown};

use crate::error::AppendError;
use crate::journal::Journal;
use esm_io::{Dest, DestError, Disk};
use esm_model::{MAX_PAYLOAD, OutOfMemory};
use std::alloc::Global;
use std::marker::Model;

/// A destination that is a file: each line is a payload of a journal, without its line feed.
#[derive(Drop)]
pub struct FileDest<D: Disk> {
    journal: Journal<D>,
}

impl<D: Disk> Model for FileDest<D> {
    ghost use Rattle.esm_journal.specs.State.{JournalState, state_code};

    ghost Value = { JournalState D };

    ghost coded = { state_code D.code };

    ghost view = { λ d. d.journal };
}

impl<D: Disk> FileDest<D> {
    pub fn new(journal: Journal<D>) -> FileDest<D>
        requires { journal.down ≡ false }
        ensures { result ≡ journal }
    {
        FileDest { journal }
    }

    /// The journal, as the deliveries left it.
    pub fn into_journal(self) -> Journal<D>
        ensures { result ≡ self }
    {
        let FileDest { journal } = self;
        journal
    }
}

impl<D: Disk> Dest for FileDest<D> {
    ghost faults = { λ d. D.faults d.disk };

    ghost honest = { λ d. D.honest d.disk };

    ghost sends = { λ line. line };

    ghost lines = { λ d. Some d.payloads };

    ghost failed = { λ d. d.down };

    ghost moment = { λ d. D.moment d.disk };

    ghost image_since = { λ d. D.image_since d.disk };

    ghost reads_as = { λ left lines. OpensTo (header_of 1) lines left };

    ghost counts_now = { λ d t left honest early since. D.counts_now d.disk t left honest early (D.only_now d.disk left honest since) };

    ghost has_room = { λ d n. HasRoomIfShort d.room n };

    fn reserve(&mut self, alloc: Global, bytes: u64) -> Result<(), OutOfMemory>
        ensures room { OnOk result ((n : ℕ) → n ≤ bytes → HasRoomIfShort self.new.room n) }
        ensures lines_kept { self.new.payloads ≡ self.old.payloads }
        ensures failed_kept { self.new.down ≡ self.old.down }
        ensures disk_kept { self.new.disk ≡ self.old.disk }
        ensures honesty { D.honest self.new.disk ≡ D.honest self.old.disk }
        ensures count { D.faults self.new.disk ≡ D.faults self.old.disk }
        ensures moment_kept { D.moment self.new.disk ≡ D.moment self.old.disk }
        ensures images_kept { NoOther (D.image_since self.old.disk) (D.image_since self.new.disk) }
    {
        self.journal
            .reserve(alloc, &[bytes.min(MAX_PAYLOAD as u64) as u32])
    }

    /// After Ok every image of the disk has the line. After `Failed` an image may have it whole, or not at all.
    fn deliver(&mut self, alloc: Global, line: &[u8]) -> Result<(), DestError>
        requires short { length line.now ≤ MAX_PAYLOAD }
        requires usable { self.old.down ≡ false }
        ensures sent { OnOk result (Grows (Some self.old.payloads) (Some self.new.payloads) (line.now ∷ [])) }
        ensures unsent { OnErr result (self.new.payloads ≡ self.old.payloads) }
        ensures usable_still { OnOk result (self.new.down ≡ false) }
        ensures usable_again { IsErrOf result DestError.OutOfMemory → self.new.down ≡ false }
        ensures unchanged { IsErrOf result DestError.OutOfMemory → self.new ≡ self.old }
        ensures down { IsErrOf result DestError.Failed → self.new.down ≡ true }
        ensures room { IsErrOf result DestError.OutOfMemory → HasRoomIfShort self.old.room (length line.now) → ⊥ }
        ensures room_kept { IsErrOf result DestError.OutOfMemory → (n : ℕ)
            → HasRoomIfShort self.old.room n → HasRoomIfShort self.new.room n }
        ensures uncounted { IsErrOf result DestError.OutOfMemory → D.faults self.new.disk ≡ D.faults self.old.disk }
        ensures kept { KeepsWhileUp (meaning D.Disk) self.new }
        ensures stopped { KeepsWhileDown (meaning D.Disk) self.new }
        ensures any_moment { D.honest self.old.disk ≡ true → (IsErrOf result DestError.OutOfMemory → ⊥) → (held : List (List ℕ)) →
            Some self.old.payloads ≡ Some held →
            LeavesOnly (λ d. D.moment d.disk) (λ d. D.image_since d.disk) self.old self.new
            (IsEither (λ left lines. OpensTo (header_of 1) lines left) held line.now) }
        ensures durable { D.honest self.old.disk ≡ true → (held : List (List ℕ)) → Some self.old.payloads ≡ Some held →
            OnOk result ((left : List ℕ) → D.image_since self.new.disk (D.moment self.new.disk) left → OpensTo (header_of 1) (held ++ line.now ∷ []) left) }
        ensures moment_kept { IsErrOf result DestError.OutOfMemory → D.moment self.new.disk ≡ D.moment self.old.disk }
        ensures images_kept { IsErrOf result DestError.OutOfMemory → NoOther (D.image_since self.old.disk) (D.image_since self.new.disk) }
        ensures honesty { D.honest self.new.disk ≡ D.honest self.old.disk }
        ensures count { IsCount (D.faults self.old.disk) (D.faults self.new.disk) }
        ensures cause { IsErrOf result DestError.Failed → Rose (D.faults self.old.disk) (D.faults self.new.disk) }
    {
        match self.journal.append(alloc, line) {
            Ok(()) => Ok(()),
            Err(AppendError::OutOfMemory) => Err(DestError::OutOfMemory),
            Err(AppendError::DiskFault) => Err(DestError::Failed),
            Err(AppendError::TooLong(_) | AppendError::Down) => unreachable!(),
        }
    }
}
