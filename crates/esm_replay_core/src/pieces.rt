// The pieces that wait. They are made when the first call is asked for.
ghost use Rattle.std.specs.Prelude.{◌≡◌, [], List, None, ◌+◌, ◌<◌, ◌≤◌, ◌^◌, OnOk, OnErr, IfSome, IsSome, length};
ghost use Rattle.std.specs.Vec.{vec_capacity};
ghost use Rattle.esm_journal_state.specs.SaidLists.{SaidLists};
ghost use Rattle.esm_replay_model.specs.declared.range.Range.{Range};
ghost use Rattle.esm_replay.specs.Records.{are_named};
ghost use Rattle.esm_replay_core.specs.Choosing.{StaysWaiting, IsRoomier, HasRoom, MayEndCall, IsEndedBy};

use esm_model::{Entry, OutOfMemory, Record};
use esm_replay::{Parts, Waiting, first_waiting};
use std::alloc::Global;

/// Makes the pieces that wait first, from these records and the flags that say which are named, if there are none yet.
pub(crate) fn make_first(
    alloc: Global,
    waiting: &mut Option<Waiting>,
    records: &[Record],
    named: &[bool],
) -> Result<(), OutOfMemory>
    requires few { length records.now < 2 ^ 32 }
    requires each { length named.now ≡ length records.now }
    ensures stays { (told : SaidLists) (ranges : List Range) → named.now ≡ are_named told ranges [] records.now → StaysWaiting told ranges records.now waiting.old waiting.new }
    ensures there { OnOk result (IsSome waiting.new) }
    ensures err { OnErr result (waiting.new ≡ waiting.old) }
{
    if waiting.is_some() {
        return Ok(());
    }
    let first = first_waiting(alloc, records, named)?;
    *waiting = Some(first);
    Ok(())
}

/// Discards the pieces.
pub(crate) fn clear(waiting: &mut Option<Waiting>)
    ensures { waiting.new ≡ None }
{
    *waiting = None;
}

/// Reserves room for the parts that the end of a call may leave.
fn make_pieces_room(waiting: &mut Option<Waiting>) -> Result<(), OutOfMemory>
    ensures waiting { IsRoomier waiting.old waiting.new }
    ensures room { OnOk result (IfSome waiting.new HasRoom) }
{
    match waiting {
        None => Ok(()),
        Some(pieces) => pieces.reserve(),
    }
}

/// Reserves room for the parts and for the entries that the end of a call may add.
pub(crate) fn make_room(
    waiting: &mut Option<Waiting>,
    history: &mut Vec<Entry>,
) -> Result<(), OutOfMemory>
    ensures waiting { IsRoomier waiting.old waiting.new }
    ensures items { history.new.items ≡ history.old.items }
    ensures capacity { vec_capacity history.old ≤ vec_capacity history.new }
    ensures room { OnOk result (IfSome waiting.new HasRoom) }
    ensures ok { OnOk result (length history.old.items + 2 ≤ vec_capacity history.new) }
{
    make_pieces_room(waiting)?;
    history.reserve(2)?;
    Ok(())
}

/// Ends a call of the first `count` records of the first piece, of which these parts remain. Takes no memory.
pub(crate) fn end_call(waiting: &mut Option<Waiting>, count: u32, parts: Parts)
    requires { MayEndCall count waiting.old }
    ensures { IsEndedBy count parts waiting.old waiting.new }
{
    match waiting {
        Some(pieces) => pieces.end_call(count, parts),
        None => unreachable!(),
    }
}
