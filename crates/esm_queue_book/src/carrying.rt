// One call of a queue's core over its journal, in the words of queues.
ghost use Rattle.std.specs.Prelude.{◌≡◌, ◌≤◌, [], None, false, is_some};
ghost use Rattle.esm_io.specs.Meanings.{disk};
ghost use Rattle.esm_model.specs.declared.moment.TheConstants.{MAX_MOMENT};
ghost use Rattle.esm_model.specs.declared.entry.Entry.TheVariants.{Ended, Shut};
ghost use Rattle.esm_model.specs.Entries.{is_shut, last_moment};
ghost use Rattle.esm_queue_model.specs.QueueBooks.{messages_told};
ghost use Rattle.esm_queue_core.specs.CoreView.{moment_for, IsRunningJob};
ghost use Rattle.esm_queue_core.specs.Told.{told_of, MayAsk};
ghost use Rattle.esm_queue_book.specs.Keeping.{IsSound};
ghost use Rattle.esm_queue_book.specs.Carried.{IsCarried, Noted};

use esm_book::{CallError, Durable, Nowhere};
use esm_io::Disk;
use esm_model::{Change, Job, Reply};
use esm_queue_core::laws::shut_is_sound;
use esm_queue_core::{QueueAnswer, QueueCall, QueueCore};
use std::alloc::Global;

/// Why a call of a book that is not down was not carried out whole.
#[derive(Drop, Debug)]
pub(crate) enum Stop {
    /// The journal's disk failed in this call.
    DiskFault,
    /// A message was found deleted and came with another id; nothing of the call was taken.
    Changed(Change),
    /// An allocation failed; nothing has changed, except that room may be reserved.
    OutOfMemory,
}

/// What holds of the core, and of the journal if the book is not down. Does nothing.
pub(crate) fn keeps<D: Disk>(durable: &Durable<QueueCore, D, Nowhere>)
    ensures messages { durable.now.core.setting.messages ≡ messages_told (told_of durable.now.core) }
    ensures rests { durable.now.core.owed ≡ [] → durable.now.core.coming ≡ [] }
    ensures in_time { last_moment durable.now.core.past ≤ MAX_MOMENT }
    ensures up { durable.now.trouble ≡ None → durable.now.pair.down ≡ false }
    ensures settled { durable.now.trouble ≡ None → durable.now.core.owed ≡ [] }
{
    let _ = durable.trouble();
    durable.core().keeps();
}

/// Whether a call found trouble. Takes no memory.
pub(crate) fn is_down<D: Disk>(durable: &Durable<QueueCore, D, Nowhere>) -> bool
    ensures value { result ≡ is_some durable.now.trouble }
    ensures up { result ≡ false → durable.now.trouble ≡ None }
{
    durable.trouble().is_some()
}

/// Makes one call of a book that is not down.
pub(crate) fn carry<D: Disk>(
    durable: &mut Durable<QueueCore, D, Nowhere>,
    alloc: Global,
    call: QueueCall,
) -> Result<QueueAnswer, Stop>
    requires up { durable.old.trouble ≡ None }
    requires may { MayAsk durable.old.core call }
    requires sound { IsSound durable.old }
    ensures { IsCarried (disk D.Disk) durable.old durable.new call result }
{
    keeps(durable);
    match durable.carry_out(alloc, call) {
        Ok(answer) => {
            keeps(durable);
            Ok(answer)
        }
        Err(CallError::DiskFault) => {
            keeps(durable);
            Err(Stop::DiskFault)
        }
        Err(CallError::DestFault) => unreachable!(),
        Err(CallError::Changed(change)) => Err(Stop::Changed(change)),
        Err(CallError::Down) => unreachable!(),
        Err(CallError::OutOfMemory) => Err(Stop::OutOfMemory),
    }
}

/// Notes the end of a job's call in a book that is down: nothing that it requires is added. Takes no memory.
pub(crate) fn note_end<D: Disk>(
    durable: &mut Durable<QueueCore, D, Nowhere>,
    job: Job,
    reply: Reply,
    moment: u64,
)
    requires down { durable.old.trouble ≡ None → ⊥ }
    requires runs { IsRunningJob durable.old.core.past job }
    requires sound { IsSound durable.old }
    ensures { Noted durable.old durable.new (Ended job.lane reply (moment_for durable.old.core.past moment)) }
{
    keeps(durable);
    durable.note(QueueCall::Done(job, reply, moment));
    keeps(durable);
}

/// Notes the end of the input in a book that is not down. Takes no memory.
pub(crate) fn note_shut<D: Disk>(durable: &mut Durable<QueueCore, D, Nowhere>, moment: u64)
    requires up { durable.old.trouble ≡ None }
    requires going { is_shut durable.old.core.past ≡ false }
    requires sound { IsSound durable.old }
    ensures { Noted durable.old durable.new (Shut (moment_for durable.old.core.past moment)) }
{
    shut_is_sound();
    keeps(durable);
    durable.note(QueueCall::Shut(moment));
    keeps(durable);
}
