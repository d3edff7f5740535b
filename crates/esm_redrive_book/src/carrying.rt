// One call of a redrive's core over its devices, with the errors that a redrive can have.
ghost use Rattle.std.specs.Prelude.{◌≡◌, [], None, false, is_some};
ghost use Rattle.esm_io.specs.Meanings.{disk, destination};
ghost use Rattle.esm_model.specs.declared.entry.Entry.TheVariants.{Ended, Shut};
ghost use Rattle.esm_model.specs.Entries.{is_shut};
ghost use Rattle.esm_queue_core.specs.CoreView.{moment_for};
ghost use Rattle.esm_redrive_core.specs.RedriveView.{IsRunningJob};
ghost use Rattle.esm_redrive_core.specs.Told.{MayAsk};
ghost use Rattle.esm_redrive_core.specs.Ahead.{IsConsistent};
ghost use Rattle.esm_redrive_book.specs.Keeping.{IsSound};
ghost use Rattle.esm_redrive_book.specs.Carried.{IsCarried, Noted};

use esm_book::{CallError, Durable};
use esm_io::{Dest, Disk};
use esm_model::{Change, Job, Reply};
use esm_redrive_core::laws::{decided_is_sound, shut_is_sound};
use esm_redrive_core::{RedriveAnswer, RedriveCall, RedriveCore};
use std::alloc::Global;

/// Why a call of a book that is not down was not carried out whole.
#[derive(Drop, Debug)]
pub(crate) enum Stop {
    /// A disk of the journal failed in this call.
    DiskFault,
    /// The dead-letter file failed in this call.
    DestFault,
    /// A message that was found deleted arrived with another id; nothing of the call was taken.
    Changed(Change),
    /// An allocation failed; nothing has changed except reserved room.
    OutOfMemory,
}

/// States what is true of the core, and of the devices if the book is not down. Does nothing.
pub(crate) fn keeps<D: Disk, T: Dest>(durable: &Durable<RedriveCore, D, T>)
    ensures core { IsConsistent durable.now.core }
    ensures up { durable.now.trouble ≡ None → durable.now.pair.down ≡ false }
    ensures settled { durable.now.trouble ≡ None → durable.now.core.owed ≡ [] }
{
    let _ = durable.trouble();
    durable.core().keeps();
}

/// Whether a call failed for good. Takes no memory.
pub(crate) fn is_down<D: Disk, T: Dest>(durable: &Durable<RedriveCore, D, T>) -> bool
    ensures value { result ≡ is_some durable.now.trouble }
    ensures up { result ≡ false → durable.now.trouble ≡ None }
{
    durable.trouble().is_some()
}

/// Makes one call of a book that is not down.
pub(crate) fn carry<D: Disk, T: Dest>(
    durable: &mut Durable<RedriveCore, D, T>,
    alloc: Global,
    call: RedriveCall,
) -> Result<RedriveAnswer, Stop>
    requires up { durable.old.trouble ≡ None }
    requires may { MayAsk durable.old.core call }
    requires sound { IsSound durable.old }
    ensures { IsCarried (disk D.Disk) (destination T.Dest) durable.old durable.new call result }
{
    decided_is_sound();
    keeps(durable);
    match durable.carry_out(alloc, call) {
        Ok(answer) => {
            keeps(durable);
            Ok(answer)
        }
        Err(CallError::DiskFault) => {
            keeps(durable);
            Err(Stop::DiskFault)
        }
        Err(CallError::DestFault) => {
            keeps(durable);
            Err(Stop::DestFault)
        }
        Err(CallError::Changed(change)) => Err(Stop::Changed(change)),
        Err(CallError::Down) => unreachable!(),
        Err(CallError::OutOfMemory) => Err(Stop::OutOfMemory),
    }
}

/// Notes the end of a job's call while the book is down: nothing that it requires is added. Takes no memory.
pub(crate) fn note_end<D: Disk, T: Dest>(
    durable: &mut Durable<RedriveCore, D, T>,
    job: Job,
    reply: Reply,
    moment: u64,
)
    requires down { durable.old.trouble ≡ None → ⊥ }
    requires runs { IsRunningJob durable.old.core.past job }
    requires sound { IsSound durable.old }
    ensures { Noted durable.old durable.new (Ended job.lane reply (moment_for durable.old.core.past moment)) }
{
    keeps(durable);
    durable.note(RedriveCall::Done(job, reply, moment));
    keeps(durable);
}

/// Notes the end of the input while the book is not down. Takes no memory.
pub(crate) fn note_shut<D: Disk, T: Dest>(durable: &mut Durable<RedriveCore, D, T>, moment: u64)
    requires up { durable.old.trouble ≡ None }
    requires going { is_shut durable.old.core.past ≡ false }
    requires sound { IsSound durable.old }
    ensures { Noted durable.old durable.new (Shut (moment_for durable.old.core.past moment)) }
{
    shut_is_sound();
    keeps(durable);
    durable.note(RedriveCall::Shut(moment));
    keeps(durable);
}
