// One call of a stream's core over its devices, in the words of streams.
ghost use Rattle.std.specs.Prelude.{◌≡◌, ◌<◌, ◌≤◌, [], None, false, length, take, is_some};
ghost use Rattle.esm_io.specs.Meanings.{disk, destination};
ghost use Rattle.esm_model.specs.declared.moment.TheConstants.{MAX_MOMENT};
ghost use Rattle.esm_model.specs.declared.entry.Entry.TheVariants.{Ended, Shut};
ghost use Rattle.esm_model.specs.Books.{streams_told};
ghost use Rattle.esm_model.specs.Entries.{is_shut, last_moment};
ghost use Rattle.esm_record_bounds.specs.Bounds.{AreWithinBounds};
ghost use Rattle.esm_stream_core.specs.CoreView.{full_setting, HandFollows};
ghost use Rattle.esm_stream_core.specs.Calls.{moment_for, IsRunningJob};
ghost use Rattle.esm_stream_core.specs.Told.{told_of, MayAsk};
ghost use Rattle.esm_stream_book.specs.Books.{payloads_in};
ghost use Rattle.esm_stream_book.specs.Keeping.{IsSound};
ghost use Rattle.esm_stream_book.specs.Carried.{IsCarried, Noted};

use esm_book::{CallError, Durable};
use esm_io::{Dest, Disk};
use esm_model::{Change, Job, Reply};
use esm_stream_core::{StreamAnswer, StreamCall, StreamCore};
use std::alloc::Global;

/// Why a call of a book that is not down was not carried out whole.
#[derive(Drop, Debug)]
pub(crate) enum Stop {
    /// The journal's disk failed in this call.
    DiskFault,
    /// The destination failed in this call.
    DestFault,
    /// A record came with another sequence number than was kept of it; nothing of the call was taken.
    Changed(Change),
    /// An allocation failed; nothing has changed, except that room may be reserved.
    OutOfMemory,
}

/// What holds of the core, and of the devices if the book is not down. Does nothing.
pub(crate) fn keeps<D: Disk, T: Dest>(durable: &Durable<StreamCore, D, T>)
    ensures records { durable.now.core.setting.streams ≡ streams_told (told_of durable.now.core) }
    ensures rests { durable.now.core.owed ≡ [] → durable.now.core.coming ≡ [] }
    ensures first { payloads_in (full_setting durable.now.core) (take 1 durable.now.core.owed) ≡
        payloads_in durable.now.core.setting (take 1 durable.now.core.owed) }
    ensures alone { 0 < length (payloads_in (full_setting durable.now.core) (take 1 durable.now.core.owed)) → durable.now.core.coming ≡ [] }
    ensures hand { HandFollows durable.now.core }
    ensures in_time { last_moment durable.now.core.past ≤ MAX_MOMENT }
    ensures bounds { AreWithinBounds (full_setting durable.now.core) }
    ensures up { durable.now.trouble ≡ None → durable.now.pair.down ≡ false }
    ensures usable { durable.now.trouble ≡ None → T.failed durable.now.dest ≡ false }
    ensures settled { durable.now.trouble ≡ None → durable.now.core.owed ≡ [] }
{
    let _ = durable.trouble();
    durable.core().keeps();
}

/// Whether a call found trouble. Takes no memory.
pub(crate) fn is_down<D: Disk, T: Dest>(durable: &Durable<StreamCore, D, T>) -> bool
    ensures value { result ≡ is_some durable.now.trouble }
    ensures up { result ≡ false → durable.now.trouble ≡ None }
{
    durable.trouble().is_some()
}

/// Makes one call of a book that is not down.
pub(crate) fn carry<D: Disk, T: Dest>(
    durable: &mut Durable<StreamCore, D, T>,
    alloc: Global,
    call: StreamCall,
) -> Result<StreamAnswer, Stop>
    requires up { durable.old.trouble ≡ None }
    requires may { MayAsk durable.old.core call }
    requires sound { IsSound durable.old }
    ensures { IsCarried (disk D.Disk) (destination T.Dest) durable.old durable.new call result }
{
    keeps(durable);
    match durable.carry_out(alloc, call) {
        Ok(answer) => {
            keeps(durable);
            Ok(answer)
        }
        Err(CallError::DiskFault) => {
            keeps(durable);
            Err(Stop::DiskFault)
        }
        Err(CallError::DestFault) => {
            keeps(durable);
            Err(Stop::DestFault)
        }
        Err(CallError::Changed(change)) => Err(Stop::Changed(change)),
        Err(CallError::Down) => unreachable!(),
        Err(CallError::OutOfMemory) => Err(Stop::OutOfMemory),
    }
}

/// Notes the end of a job's call in a book that is down: nothing that it requires is added. Takes no memory.
pub(crate) fn note_end<D: Disk, T: Dest>(
    durable: &mut Durable<StreamCore, D, T>,
    job: Job,
    reply: Reply,
    moment: u64,
)
    requires down { durable.old.trouble ≡ None → ⊥ }
    requires runs { IsRunningJob durable.old.core.past job }
    requires sound { IsSound durable.old }
    ensures { Noted durable.old durable.new (Ended job.lane reply (moment_for durable.old.core.past moment)) }
{
    keeps(durable);
    durable.note(StreamCall::Done(job, reply, moment));
    keeps(durable);
}

/// Notes the end of the input in a book that is not down. Takes no memory.
pub(crate) fn note_shut<D: Disk, T: Dest>(durable: &mut Durable<StreamCore, D, T>, moment: u64)
    requires up { durable.old.trouble ≡ None }
    requires going { is_shut durable.old.core.past ≡ false }
    requires sound { IsSound durable.old }
    ensures { Noted durable.old durable.new (Shut (moment_for durable.old.core.past moment)) }
{
    keeps(durable);
    durable.note(StreamCall::Shut(moment));
    keeps(durable);
}
