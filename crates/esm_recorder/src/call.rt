// A call as it was made, and the list of calls that only the contracts read.
ghost use Rattle.std.specs.Prelude.{◌≡◌, [], ◌∷◌, ◌++◌};

use esm_model::{Called, Reply};
use std::alloc::Global;
use std::collections::LinkedList;
use std::mem;
use std::snapshot::Snapshot;

/// A call: the function's name, the event and the reply.
#[derive(Drop)]
pub(crate) struct Call<'a> {
    pub name: &'a str,
    pub event: &'a [u8],
    pub reply: &'a Reply,
}

/// Makes the empty list of calls. Takes no memory.
pub(crate) fn no_calls(alloc: Global) -> Snapshot<LinkedList<Called>>
    ensures { result.value ≡ [] }
{
    let calls: LinkedList<Called> = LinkedList::new(alloc);
    Snapshot::of(&calls)
}

/// The list with one more call. At run time it does nothing.
fn with_call(calls: Snapshot<LinkedList<Called>>, _call: &Call<'_>) -> Snapshot<LinkedList<Called>>
    ensures { result.value ≡ calls.value ++ record { name = _call.now.name.now; event = _call.now.event.now; reply = _call.now.reply.now } ∷ [] }
{
    calls
}

/// Appends a call to the list. Takes no memory.
pub(crate) fn note_call(calls: &mut Snapshot<LinkedList<Called>>, alloc: Global, call: &Call<'_>)
    ensures { calls.new.value ≡ calls.old.value ++ record { name = call.now.name.now; event = call.now.event.now; reply = call.now.reply.now } ∷ [] }
{
    let before = mem::replace(calls, no_calls(alloc));
    *calls = with_call(before, call);
}
