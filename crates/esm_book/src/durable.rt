// A core over a journal and a destination, which delivers and appends what it decides, entry by entry.
ghost use Rattle.std.specs.Prelude.{◌≡◌, ◌↔◌, ◌<◌, ◌++◌, [], ℕ, List, None, length, take, reverse, true, false, OnOk, IfOk, IfErr, IsErrOf, IsSome};
ghost use Rattle.std.specs.Option.{option_copied};
ghost use Rattle.esm_io.specs.Faults.{Rose};
ghost use Rattle.esm_io.specs.Images.{Only};
ghost use Rattle.esm_io.specs.Meanings.{disk, destination};
ghost use Rattle.esm_journal.specs.Pair.{PairKeepsWhileUp, first_disk, second_disk};
ghost use Rattle.esm_journal.specs.Reads.{IsOnlyRead};
ghost use Rattle.esm_book.specs.Decided.{added, written_of};
ghost use Rattle.esm_book.specs.Meanings.{decisions};
ghost use Rattle.esm_book.specs.Growth.{HasGrown, LeavesFronts, OpensToFront};
ghost use Rattle.esm_book.specs.State.{in_hand, IsReason, IsKept};
ghost use Rattle.esm_book.specs.Answers.{IsFault, in_doubt, in_flight, trouble_after, IsLeftBy, IsChangeOf};

use crate::decisions::Decisions;
use crate::error::{CallError, Outcome, Refusal};
use crate::writing::write_out;
use esm_io::{Dest, Disk};
use esm_journal::Pair;
use esm_journal::laws::file_beside_spare;
use esm_model::Trouble;
use std::alloc::Global;
use std::marker::Model;
use std::mem;
use std::snapshot::Snapshot;

/// What a book over devices is made of, and why it is down, if it is.
#[derive(Drop)]
pub struct Parts<C, D: Disk, T> {
    pub core: C,
    pub pair: Pair<D>,
    pub dest: T,
    pub trouble: Option<Trouble>,
}

/// A core over a journal and a destination: what it decides is delivered and appended, entry by entry. After the first
/// fault of a device, or the first change, it is down.
///
/// Contracts see the core, the devices as they are and as they were handed in, and why it is down.
#[derive(Drop)]
pub struct Durable<C: Decisions, D: Disk, T: Dest> {
    core: C,
    pair: Pair<D>,
    dest: T,
    trouble: Option<Trouble>,
    /// The journal and the destination as they were handed in, for the contracts alone.
    found: Snapshot<Pair<D>>,
    found_dest: Snapshot<T>,
}

impl<C: Decisions, D: Disk, T: Dest> Model for Durable<C, D, T> {
    ghost use Rattle.std.specs.Prelude.{◌≡◌};
    ghost use Rattle.esm_io.specs.Meanings.{disk, destination};
    ghost use Rattle.esm_book.specs.Meanings.{decisions};
    ghost use Rattle.esm_book.specs.State.{DurableState, IsKept, IsReason};

    ghost Value = { DurableState C D T };

    ghost view = { λ b. record { core = b.core; pair = b.pair; dest = b.dest; trouble = b.trouble; found = b.found.value; found_dest = b.found_dest.value } };

    ghost invariant = { λ b. IsKept (decisions C.Decisions) (disk D.Disk) (destination T.Dest)
        (record { core = b.core; pair = b.pair; dest = b.dest; trouble = b.trouble; found = b.found.value; found_dest = b.found_dest.value })
        × IsReason (C.is_change (C.origin b.core)) b.trouble };
}

impl<C: Decisions, D: Disk, T: Dest> Durable<C, D, T> {
    /// A core without history over devices that have not failed. Takes no memory.
    pub fn new(core: C, pair: Pair<D>, dest: T) -> Durable<C, D, T>
        requires empty { C.history core ≡ [] }
        requires settled { C.owed core ≡ [] }
        requires up { pair.down ≡ false }
        requires usable { T.failed dest ≡ false }
        ensures { result ≡ record { core = core; pair = pair; dest = dest; trouble = None; found = pair; found_dest = dest } }
    {
        let _ = pair.payloads();
        let found = Snapshot::of(&pair);
        let found_dest = Snapshot::of(&dest);
        Durable {
            core,
            pair,
            dest,
            trouble: None,
            found,
            found_dest,
        }
    }

    /// Makes one call of the core, and writes what it adds. All memory is taken before the first call of a device, so after
    /// `OutOfMemory` no device has anything of the call. A call that adds nothing makes no room and calls no device. After
    /// `DiskFault` and `DestFault` the entries that were written before the fault stay. After these and after `Changed` the
    /// book is down. On a book that was down the core notes the call, and `Down` is returned.
    pub fn carry_out(&mut self, alloc: Global, call: C::Call) -> Result<C::Answer, CallError>
        requires { C.may_ask self.old.core call }
        // What the call decides and adds: after Ok all of it, after a fault the first of it, and the rest is owed.
        ensures decided { IfOk result (λ answer. C.decides self.old.core call answer (added (C.history self.old.core) (C.history self.new.core))) }
        ensures begun { IsFault result → (answer : C.Answer) ×
            C.decides self.old.core call answer (added (C.history self.old.core) (C.history self.new.core) ++ C.owed self.new.core) }
        ensures noted { IsErrOf result CallError.Down → C.notes self.old.core call (added (C.history self.old.core) (C.history self.new.core)) }
        ensures changed { IfErr result (IsChangeOf (C.refuses self.old.core call)) }
        ensures history { C.history self.new.core ≡ reverse (added (C.history self.old.core) (C.history self.new.core)) ++ C.history self.old.core }
        ensures settled { OnOk result (C.owed self.new.core ≡ []) }
        ensures left { IsFault result → 0 < length (C.owed self.new.core) }
        ensures appending { IsErrOf result CallError.DiskFault → 0 < length (written_of C.payload (take 1 (C.owed self.new.core))) }
        ensures delivering { IsErrOf result CallError.DestFault → 0 < length (written_of C.line (take 1 (C.owed self.new.core))) }
        ensures origin { C.origin self.new.core ≡ C.origin self.old.core }
        // What is written of it.
        ensures grown { self.old.trouble ≡ None → HasGrown (decisions C.Decisions) (disk D.Disk) (destination T.Dest)
            self.old.pair self.new.pair self.old.dest self.new.dest
            (added (C.history self.old.core) (C.history self.new.core)) (in_doubt result (C.owed self.new.core)) (in_flight result (C.owed self.new.core)) }
        ensures quiet { OnOk result (added (C.history self.old.core) (C.history self.new.core) ≡ [] →
            (self.new.pair ≡ self.old.pair) × (self.new.dest ≡ self.old.dest)) }
        ensures found { self.new.found ≡ self.old.found }
        ensures found_dest { self.new.found_dest ≡ self.old.found_dest }
        // What a crash leaves: of both disks since the call began, and once it has returned.
        ensures images { self.old.pair.down ≡ false → LeavesFronts (decisions C.Decisions) (disk D.Disk) (destination T.Dest)
            self.old.pair self.new.pair self.old.dest self.new.dest
            (added (C.history self.old.core) (C.history self.new.core) ++ in_doubt result (C.owed self.new.core)) }
        ensures kept { PairKeepsWhileUp (disk D.Disk) self.new.pair }
        // When each error is returned, and what it leaves.
        ensures disk_fault { IsErrOf result CallError.DiskFault → Rose (D.faults self.old.pair.used) (D.faults self.new.pair.used) }
        ensures dest_fault { IsErrOf result CallError.DestFault → Rose (T.faults self.old.dest) (T.faults self.new.dest) }
        ensures down { IsErrOf result CallError.Down ↔ IsSome self.old.trouble }
        ensures trouble { self.new.trouble ≡ trouble_after result self.old.trouble }
        ensures unchanged { IfErr result (IsLeftBy (destination T.Dest) self.old self.new) }
    {
        file_beside_spare();
        if self.trouble.is_some() {
            self.core.note(call);
            return Err(CallError::Down);
        }
        match self.core.decide(alloc, call) {
            Err(Refusal::OutOfMemory) => Err(CallError::OutOfMemory),
            Err(Refusal::Changed { told, kept }) => {
                let _ = mem::replace(&mut self.trouble, Some(Trouble::Changed(kept)));
                Err(CallError::Changed(told))
            }
            Ok(answer) => match write_out(alloc, &mut self.core, &mut self.pair, &mut self.dest) {
                Outcome::Written => Ok(answer),
                Outcome::DiskFault => {
                    let _ = mem::replace(&mut self.trouble, Some(Trouble::Disk));
                    Err(CallError::DiskFault)
                }
                Outcome::DestFault => {
                    let _ = mem::replace(&mut self.trouble, Some(Trouble::Dest));
                    Err(CallError::DestFault)
                }
                Outcome::OutOfMemory => Err(CallError::OutOfMemory),
            },
        }
    }

    /// Adds what a call leaves in the history when nothing of it is written, whether or not the book is down. Takes no
    /// memory, and calls no device.
    pub fn note(&mut self, call: C::Call)
        requires { C.may_ask self.old.core call }
        ensures noted { C.notes self.old.core call (added (C.history self.old.core) (C.history self.new.core)) }
        ensures history { C.history self.new.core ≡ reverse (added (C.history self.old.core) (C.history self.new.core)) ++ C.history self.old.core }
        ensures owed { C.owed self.new.core ≡ C.owed self.old.core }
        ensures origin { C.origin self.new.core ≡ C.origin self.old.core }
        ensures rest { self.new ≡ record self.old { core = self.new.core } }
    {
        self.core.note(call);
    }

    /// The first fault or change that a call returned; `None` if none did. Its clauses say what holds of any book, whoever
    /// made its calls. Takes no memory.
    pub fn trouble(&self) -> Option<&Trouble>
        ensures value { option_copied result ≡ self.now.trouble }
        // What the devices have beyond those that were handed in.
        ensures keeps { IsKept (decisions C.Decisions) (disk D.Disk) (destination T.Dest) self.now }
        ensures reason { IsReason (C.is_change (C.origin self.now.core)) self.now.trouble }
        // What a crash leaves: of both disks since they were handed in, and now.
        ensures images { LeavesFronts (decisions C.Decisions) (disk D.Disk) (destination T.Dest)
            self.now.found self.now.pair self.now.found_dest self.now.dest
            (reverse (C.history self.now.core) ++ in_hand self.now.trouble (C.owed self.now.core)) }
        ensures kept { PairKeepsWhileUp (disk D.Disk) self.now.pair }
    {
        file_beside_spare();
        let _ = self.pair.payloads();
        self.trouble.as_ref()
    }

    /// What a crash leaves of the disks since a moment before they were opened, if each had one image then, as after a crash
    /// or a sync. `journal` and `spare` are the disks at that moment. Does nothing.
    pub fn since_before(&self, journal: &Snapshot<D>, spare: &Snapshot<D>)
        requires first { IsOnlyRead (disk D.Disk) journal.now.value (first_disk self.now.found) }
        requires second { IsOnlyRead (disk D.Disk) spare.now.value (second_disk self.now.found) }
        ensures { D.honest journal.now.value ≡ true → D.honest spare.now.value ≡ true →
            Only (D.content journal.now.value) (D.image journal.now.value) → Only (D.content spare.now.value) (D.image spare.now.value) → (one other : List ℕ) →
            D.image_since (first_disk self.now.pair) (D.moment journal.now.value) one →
            D.image_since (second_disk self.now.pair) (D.moment spare.now.value) other →
            OpensToFront (decisions C.Decisions) (destination T.Dest) self.now.found.epoch self.now.found.payloads self.now.found_dest self.now.dest
            (reverse (C.history self.now.core) ++ in_hand self.now.trouble (C.owed self.now.core)) one other }
    {
        let _ = journal;
        let _ = spare;
        let _ = &self.pair;
        file_beside_spare();
    }

    /// The core. Takes no memory.
    pub fn core(&self) -> &C
        ensures { result.now ≡ self.now.core }
    {
        &self.core
    }

    /// The parts and the trouble, as the calls left them. Takes no memory.
    pub fn into_parts(self) -> Parts<C, D, T>
        ensures core { result.core ≡ self.core }
        ensures pair { result.pair ≡ self.pair }
        ensures dest { result.dest ≡ self.dest }
        ensures trouble { result.trouble ≡ self.trouble }
    {
        let Durable {
            core,
            pair,
            dest,
            trouble,
            found: _,
            found_dest: _,
        } = self;
        Parts {
            core,
            pair,
            dest,
            trouble,
        }
    }
}
