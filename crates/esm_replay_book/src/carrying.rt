// One call of a replay's core over its journal, with the errors that a replay can have.
ghost use Rattle.std.specs.Prelude.{◌≡◌, [], None, false, is_some, All};
ghost use Rattle.esm_io.specs.Meanings.{disk};
ghost use Rattle.esm_model.specs.Valid.{IsValidRecord};
ghost use Rattle.esm_replay_model.specs.ReplayRun.{IsReplay};
ghost use Rattle.esm_replay_core.specs.View.{setting_of, RunAhead, SaidAhead};
ghost use Rattle.esm_replay_core.specs.Told.{MayAsk};
ghost use Rattle.esm_replay_book.specs.Keeping.{IsSound};
ghost use Rattle.esm_replay_book.specs.Carried.{IsCarried};

use esm_book::{CallError, Durable, Nowhere};
use esm_io::Disk;
use esm_model::Change;
use esm_replay_core::{ReplayAnswer, ReplayCall, ReplayCore};
use std::alloc::Global;

/// Why a call of a book that is not down was not carried out whole.
#[derive(Drop, Debug)]
pub(crate) enum Stop {
    /// The journal's disk failed in this call.
    DiskFault,
    /// A record arrived with another text than was kept of its place; nothing of the call was taken.
    Changed(Change),
    /// An allocation failed; nothing has changed except reserved room.
    OutOfMemory,
}

/// States what is true of the core, and of the journal if the book is not down. Does nothing.
pub(crate) fn keeps<D: Disk>(durable: &Durable<ReplayCore, D, Nowhere>)
    ensures run { IsReplay (setting_of durable.now.core) durable.now.core.past }
    ensures ahead { RunAhead durable.now.core }
    ensures said { SaidAhead durable.now.core }
    ensures valid { All IsValidRecord durable.now.core.records }
    ensures up { durable.now.trouble ≡ None → durable.now.pair.down ≡ false }
    ensures settled { durable.now.trouble ≡ None → durable.now.core.owed ≡ [] }
{
    let _ = durable.trouble();
    durable.core().keeps();
}

/// Whether a call failed for good. Takes no memory.
pub(crate) fn is_down<D: Disk>(durable: &Durable<ReplayCore, D, Nowhere>) -> bool
    ensures value { result ≡ is_some durable.now.trouble }
    ensures up { result ≡ false → durable.now.trouble ≡ None }
{
    durable.trouble().is_some()
}

/// Makes one call of a book that is not down.
pub(crate) fn carry<D: Disk>(
    durable: &mut Durable<ReplayCore, D, Nowhere>,
    alloc: Global,
    call: ReplayCall,
) -> Result<ReplayAnswer, Stop>
    requires up { durable.old.trouble ≡ None }
    requires may { MayAsk durable.old.core call }
    requires sound { IsSound durable.old }
    ensures { IsCarried (disk D.Disk) durable.old durable.new call result }
{
    keeps(durable);
    match durable.carry_out(alloc, call) {
        Ok(answer) => {
            keeps(durable);
            Ok(answer)
        }
        Err(CallError::DiskFault) => {
            keeps(durable);
            Err(Stop::DiskFault)
        }
        Err(CallError::DestFault) => unreachable!(),
        Err(CallError::Changed(change)) => Err(Stop::Changed(change)),
        Err(CallError::Down) => unreachable!(),
        Err(CallError::OutOfMemory) => Err(Stop::OutOfMemory),
    }
}
