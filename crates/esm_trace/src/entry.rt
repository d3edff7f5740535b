// The line of one entry.
ghost use Rattle.std.specs.Prelude.{◌≡◌, ◌++◌, OnOk};
ghost use Rattle.std.specs.Option.{option_copied};
ghost use Rattle.esm_trace.specs.Trace.{entry_part, entry_line, reply_in};

use crate::kinds::{
    push_began, push_came, push_closed, push_ended, push_gave, push_replayed, push_tried,
};
use crate::members::push_head;
use esm_event::bytes::push_bytes;
use esm_model::{Entry, Kind, OutOfMemory, Reply};

/// Appends the entry's line. `kind` is that of the mapping's source. `reply` is the reply of an `Ended` entry, which the
/// entry does not hold itself, and `None` for each other entry. Each byte is written once. After an `Err`, a part of the
/// line may be there.
#[tactic(auto, unfolding(crate::specs::Trace::entry_line))]
pub fn push_entry(
    out: &mut Vec<u8>,
    kind: Kind,
    entry: &Entry,
    reply: Option<&Reply>,
) -> Result<(), OutOfMemory>
    requires reply { option_copied reply ≡ reply_in entry.now }
    ensures { OnOk result (out.new.items ≡ out.old.items ++ entry_line kind entry.now) }
{
    push_object(out, kind, entry, reply)?;
    push_bytes(out, b"}\n")?;
    Ok(())
}

/// Appends the entry's object without its closing brace.
fn push_object(
    out: &mut Vec<u8>,
    kind: Kind,
    entry: &Entry,
    reply: Option<&Reply>,
) -> Result<(), OutOfMemory>
    requires reply { option_copied reply ≡ reply_in entry.now }
    ensures { OnOk result (out.new.items ≡ out.old.items ++ entry_part kind entry.now) }
{
    match entry {
        Entry::Came {
            shard,
            first,
            count,
            moment,
        } => push_came(out, kind, *shard, *first, *count, *moment),
        Entry::Began {
            lane,
            places,
            closing,
            moment,
        } => push_began(out, kind, *lane, places, *closing, *moment),
        Entry::Ended { lane, moment, .. } => match reply {
            None => unreachable!(),
            Some(reply) => push_ended(out, kind, *lane, reply, *moment),
        },
        Entry::Gave {
            by,
            shard,
            places,
            fate,
            line,
            state,
            moment,
        } => push_gave(out, kind, *by, *shard, places, *fate, line, state, *moment),
        Entry::Tried {
            lane,
            places,
            closing,
            tries,
            moment,
        } => push_tried(out, kind, *lane, places, *closing, *tries, *moment),
        Entry::Closed {
            lane,
            window,
            moment,
        } => push_closed(out, kind, *lane, *window, *moment),
        Entry::Replayed {
            shard,
            places,
            moment,
        } => push_replayed(out, kind, *shard, places, *moment),
        Entry::Shut { moment } => push_head(out, b"shut", *moment),
    }
}
