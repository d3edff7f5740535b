// The moment and the reply of an entry, and the room that a history needs for what a call owes.
ghost use Rattle.std.specs.Prelude.{◌≡◌, ◌+◌, ◌≤◌, ◌^◌, min, max, OnOk, length, true};
ghost use Rattle.std.specs.Vec.{vec_capacity};
ghost use Rattle.esm_model.specs.declared.moment.TheConstants.{MAX_MOMENT};
ghost use Rattle.esm_queue_model.specs.QueueSetting.{is_fifo};

use esm_model::{Entry, Kind, MAX_ENTRIES, MAX_MOMENT, OutOfMemory, PastReply, Reply};

/// Whether a queue of the kind is a FIFO queue.
pub(crate) fn is_fifo(kind: Kind) -> bool
    ensures { result ≡ is_fifo kind }
{
    match kind {
        Kind::Fifo => true,
        Kind::Standard | Kind::Stream => false,
    }
}

/// The moment of the next entry: not before the last one, and at most `MAX_MOMENT`.
pub(crate) fn raised_to(last: u64, moment: u64) -> u64
    requires { last ≤ MAX_MOMENT }
    ensures value { result ≡ min (max moment last) MAX_MOMENT }
    ensures goes_on { last ≤ result }
    ensures in_time { result ≤ MAX_MOMENT }
{
    moment.max(last).min(MAX_MOMENT)
}

/// Reserves room for what a call owes, for the end of the running call, and for the end of the input.
pub(crate) fn make_room(history: &mut Vec<Entry>) -> Result<(), OutOfMemory>
    ensures items { history.new.items ≡ history.old.items }
    ensures capacity { vec_capacity history.old ≤ vec_capacity history.new }
    ensures ok { OnOk result (length history.old.items + 5 ≤ vec_capacity history.new) }
{
    history.reserve(5)?;
    Ok(())
}

/// The reply as a history has it.
pub(crate) fn past_of(reply: Reply) -> PastReply
    ensures { result ≡ reply }
{
    PastReply::of(&reply)
}

/// Whether a history of this many entries has room, below its greatest length, for what a call may owe.
pub(crate) fn may_decide(entries: usize) -> bool
    ensures { result ≡ true → entries + 5 ≤ 2 ^ 40 }
{
    entries <= MAX_ENTRIES - 5
}
