// Writes what is owed: of each entry its line, then its payload.
ghost use Rattle.std.specs.Prelude.{◌≡◌, ◌<◌, [], length, take, drop, true, false, OnOk, OnErr, IfErr};
ghost use Rattle.esm_io.specs.Meanings.{disk, destination};
ghost use Rattle.esm_book.specs.Decided.{written_of, lengths_of, added};
ghost use Rattle.esm_book.specs.Meanings.{decisions};
ghost use Rattle.esm_book.specs.Growth.{HasAppended, HasDelivered};
ghost use Rattle.esm_book.specs.Answers.{IsSameDest};
ghost use Rattle.esm_book.specs.Writing.{HasLineRoom, IsReady, Writes, hand_of, tried_of, HasFailed, WasWriting, HasCome};

use crate::decisions::Decisions;
use crate::error::{Fault, Outcome};
use esm_io::{Dest, DestError, Disk, Failed};
use esm_journal::{AppendError, Pair};
use esm_model::OutOfMemory;
use std::alloc::Global;

/// Delivers the line of the first owed entry, if it has one.
fn deliver_first<C: Decisions, T: Dest>(alloc: Global, core: &C, dest: &mut T) -> Result<(), Failed>
    requires owes { 0 < length (C.owed core.now) }
    requires usable { T.failed dest.old ≡ false }
    requires room { HasLineRoom (T.has_room dest.old) (written_of C.line (C.owed core.now)) }
    ensures delivered { OnOk result (HasDelivered (decisions C.Decisions) (destination T.Dest) dest.old dest.new (take 1 (C.owed core.now)) []) }
    ensures not_delivered { OnErr result (HasDelivered (decisions C.Decisions) (destination T.Dest) dest.old dest.new [] (take 1 (C.owed core.now))) }
    ensures usable { OnOk result (T.failed dest.new ≡ false) }
    ensures failed { OnErr result (T.failed dest.new ≡ true) }
    ensures delivering { OnErr result (0 < length (written_of C.line (take 1 (C.owed core.now)))) }
    ensures room { OnOk result (HasLineRoom (T.has_room dest.new) (written_of C.line (drop 1 (C.owed core.now)))) }
{
    match core.first_line() {
        None => Ok(()),
        Some(line) => match dest.deliver(alloc, line) {
            Ok(()) => Ok(()),
            Err(DestError::Failed) => Err(Failed),
            Err(DestError::OutOfMemory) => unreachable!(),
        },
    }
}

/// Appends the payload of the first owed entry, if it has one.
fn append_first<C: Decisions, D: Disk>(
    alloc: Global,
    core: &C,
    pair: &mut Pair<D>,
) -> Result<(), Failed>
    requires owes { 0 < length (C.owed core.now) }
    requires up { pair.old.down ≡ false }
    requires room { pair.old.room ≡ lengths_of (written_of C.payload (C.owed core.now)) }
    ensures appended { OnOk result (HasAppended (decisions C.Decisions) (disk D.Disk) pair.old pair.new (take 1 (C.owed core.now)) []) }
    ensures not_appended { OnErr result (HasAppended (decisions C.Decisions) (disk D.Disk) pair.old pair.new [] (take 1 (C.owed core.now))) }
    ensures up { OnOk result (pair.new.down ≡ false) }
    ensures down { OnErr result (pair.new.down ≡ true) }
    ensures appending { OnErr result (0 < length (written_of C.payload (take 1 (C.owed core.now)))) }
    ensures room { OnOk result (pair.new.room ≡ lengths_of (written_of C.payload (drop 1 (C.owed core.now)))) }
{
    let _ = pair.payloads();
    match core.first_payload() {
        None => Ok(()),
        Some(payload) => match pair.append(alloc, payload) {
            Ok(()) => Ok(()),
            Err(AppendError::DiskFault) => Err(Failed),
            Err(AppendError::TooLong(_) | AppendError::OutOfMemory | AppendError::Down) => {
                unreachable!()
            }
        },
    }
}

/// Writes the first owed entry, the line before the payload, and pays it.
fn write_first<C: Decisions, D: Disk, T: Dest>(
    alloc: Global,
    core: &mut C,
    pair: &mut Pair<D>,
    dest: &mut T,
) -> Result<(), Fault>
    requires owes { 0 < length (C.owed core.old) }
    requires payable { C.payable core.old }
    requires ready { IsReady (decisions C.Decisions) (destination T.Dest) T.has_room core.old pair.old dest.old }
    ensures written { OnOk result (Writes (decisions C.Decisions) (disk D.Disk) (destination T.Dest)
        (C.history core.old) (C.owed core.old) core.new pair.old pair.new dest.old dest.new (take 1 (C.owed core.old)) [] []) }
    ensures ready { OnOk result (IsReady (decisions C.Decisions) (destination T.Dest) T.has_room core.new pair.new dest.new) }
    ensures stopped { IfErr result (λ fault. Writes (decisions C.Decisions) (disk D.Disk) (destination T.Dest)
        (C.history core.old) (C.owed core.old) core.new pair.old pair.new dest.old dest.new [] (hand_of fault (C.owed core.new))
        (tried_of fault (C.owed core.new))) }
    ensures failed { IfErr result (λ fault. HasFailed fault pair.new.down (T.failed dest.new)) }
    ensures payable { OnOk result (C.payable core.new) }
    ensures left { OnErr result (0 < length (C.owed core.new)) }
    ensures writing { IfErr result (λ fault. WasWriting C.payload C.line fault (C.owed core.new)) }
    ensures origin { C.origin core.new ≡ C.origin core.old }
{
    let _ = pair.payloads();
    match deliver_first(alloc, core, dest) {
        Err(_) => Err(Fault::Dest),
        Ok(()) => match append_first(alloc, core, pair) {
            Err(_) => Err(Fault::Disk),
            Ok(()) => {
                core.pay();
                Ok(())
            }
        },
    }
}

/// Makes room for all that is owed, so that writing it takes no memory.
fn reserve_owed<C: Decisions, D: Disk, T: Dest>(
    alloc: Global,
    core: &C,
    pair: &mut Pair<D>,
    dest: &mut T,
) -> Result<(), OutOfMemory>
    requires up { pair.old.down ≡ false }
    requires usable { T.failed dest.old ≡ false }
    ensures ready { OnOk result (IsReady (decisions C.Decisions) (destination T.Dest) T.has_room core.now pair.new dest.new) }
    ensures pair { pair.new ≡ record pair.old { room = pair.new.room } }
    ensures dest { IsSameDest (destination T.Dest) dest.old dest.new }
{
    let lengths = core.owed_lengths(alloc)?;
    pair.reserve(alloc, &lengths)?;
    match core.owed_line_bound() {
        Some(bound) => dest.reserve(alloc, bound),
        None => Ok(()),
    }
}

/// Writes all that is owed, entry by entry, up to the first fault of a device. Takes no memory: room was made.
pub(crate) fn write_owed<C: Decisions, D: Disk, T: Dest>(
    alloc: Global,
    core: &mut C,
    pair: &mut Pair<D>,
    dest: &mut T,
) -> Result<(), Fault>
    requires payable { C.payable core.old }
    requires ready { IsReady (decisions C.Decisions) (destination T.Dest) T.has_room core.old pair.old dest.old }
    ensures written { OnOk result (Writes (decisions C.Decisions) (disk D.Disk) (destination T.Dest)
        (C.history core.old) (C.owed core.old) core.new pair.old pair.new dest.old dest.new (added (C.history core.old) (C.history core.new)) [] []) }
    ensures settled { OnOk result (C.owed core.new ≡ []) }
    ensures up { OnOk result (pair.new.down ≡ false) }
    ensures usable { OnOk result (T.failed dest.new ≡ false) }
    ensures stopped { IfErr result (λ fault. Writes (decisions C.Decisions) (disk D.Disk) (destination T.Dest)
        (C.history core.old) (C.owed core.old) core.new pair.old pair.new dest.old dest.new
        (added (C.history core.old) (C.history core.new)) (hand_of fault (C.owed core.new)) (tried_of fault (C.owed core.new))) }
    ensures failed { IfErr result (λ fault. HasFailed fault pair.new.down (T.failed dest.new)) }
    ensures left { OnErr result (0 < length (C.owed core.new)) }
    ensures writing { IfErr result (λ fault. WasWriting C.payload C.line fault (C.owed core.new)) }
    ensures origin { C.origin core.new ≡ C.origin core.old }
{
    let _ = pair.payloads();
    'owed: while core.owed_count() > 0 {
        write_first(alloc, core, pair, dest)?;
    }
    Ok(())
}

/// Makes room for all that is owed and writes it, up to the first fault of a device. Without room, discards what is owed.
/// Does nothing if nothing is owed.
pub(crate) fn write_out<C: Decisions, D: Disk, T: Dest>(
    alloc: Global,
    core: &mut C,
    pair: &mut Pair<D>,
    dest: &mut T,
) -> Outcome
    requires payable { C.payable core.old }
    requires up { pair.old.down ≡ false }
    requires usable { T.failed dest.old ≡ false }
    ensures came { HasCome (decisions C.Decisions) (disk D.Disk) (destination T.Dest)
        C.forgotten core.old core.new pair.old pair.new dest.old dest.new result }
    ensures quiet { C.owed core.old ≡ [] → (result ≡ Outcome.Written) × (core.new ≡ core.old) × (pair.new ≡ pair.old) × (dest.new ≡ dest.old) }
    ensures origin { (result ≡ Outcome.OutOfMemory → ⊥) → C.origin core.new ≡ C.origin core.old }
{
    let _ = pair.payloads();
    if core.owed_count() == 0 {
        return Outcome::Written;
    }
    if reserve_owed(alloc, core, pair, dest).is_err() {
        core.forget();
        return Outcome::OutOfMemory;
    }
    match write_owed(alloc, core, pair, dest) {
        Ok(()) => Outcome::Written,
        Err(Fault::Disk) => Outcome::DiskFault,
        Err(Fault::Dest) => Outcome::DestFault,
    }
}
