// The text of a history.
ghost use Rattle.std.specs.Prelude.{◌≡◌, ◌+◌, ◌++◌, Some, length, reverse, slice_get, is_some, IfOk, OnOk};
ghost use Rattle.std.specs.Option.{option_to_list};
ghost use Rattle.esm_model.specs.declared.entry.Reply.{Reply};
ghost use Rattle.esm_trace.specs.Trace.{entry_line, trace_text, reply_in, replies_of};

use crate::entry::push_entry;
use esm_model::{Entry, Kind, OutOfMemory, Reply};

/// Appends the text of the history (oldest entry first). `kind` is that of the mapping's source, and `replies` are those of
/// the `Ended` entries, in their order. Linear in the bytes that are written, each once. After an `Err`, a part of the text
/// may be there.
#[tactic(auto, unfolding(crate::specs::Trace::trace_text))]
pub fn push_trace(
    out: &mut Vec<u8>,
    kind: Kind,
    history: &[Entry],
    replies: &[Reply],
) -> Result<(), OutOfMemory>
    requires replies { replies.now ≡ replies_of (reverse history.now) }
    ensures { OnOk result (out.new.items ≡ out.old.items ++ trace_text kind (reverse history.now)) }
{
    let mut told = 0;
    for entry in history {
        told = push_next(out, kind, entry, replies, told)?;
    }
    Ok(())
}

/// Whether the entry ends a call, and so has a reply.
fn is_end(entry: &Entry) -> bool
    ensures { result ≡ is_some (reply_in entry.now) }
{
    match entry {
        Entry::Ended { .. } => true,
        _ => false,
    }
}

/// Appends the entry's line. `told` replies were written before it; returns how many are then.
fn push_next(
    out: &mut Vec<u8>,
    kind: Kind,
    entry: &Entry,
    replies: &[Reply],
    told: usize,
) -> Result<usize, OutOfMemory>
    requires next { (reply : Reply) → reply_in entry.now ≡ Some reply → slice_get replies.now told ≡ Some reply }
    ensures text { OnOk result (out.new.items ≡ out.old.items ++ entry_line kind entry.now) }
    ensures told { IfOk result (λ now. now ≡ told + length (option_to_list (reply_in entry.now))) }
{
    if !is_end(entry) {
        push_entry(out, kind, entry, None)?;
        return Ok(told);
    }
    match replies.get(told) {
        None => unreachable!(),
        Some(reply) => {
            push_entry(out, kind, entry, Some(reply))?;
            Ok(told + 1)
        }
    }
}
