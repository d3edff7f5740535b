// Writing the text of an event from its parts.
ghost use Rattle.std.specs.Prelude.{◌≡◌, ◌++◌, codes, IfOk, OnOk};
ghost use Rattle.std.specs.List.{join_by, flat_map};
ghost use Rattle.esm_model.specs.EventText.{event_in};
ghost use Rattle.esm_event.specs.Elements.{identity_text, ending_in, following_record};

use crate::bytes::push_bytes;
use crate::length::escaped_room;
use crate::record::{identity_text, push_element, push_identity};
use esm_model::{Event, EventParts, OutOfMemory, Record};
use std::alloc::Global;

/// The bytes of a record's element and its comma apart from its key, sequence number, data and source, where its arrival
/// has the most digits of seconds that a moment has, which are twelve.
const ELEMENT_BYTES: usize = 219;

/// The text of the event. Where an event is no more than what it begins with, as a queue's is, its text is taken from there,
/// and no memory is taken. Any other text is written into `out`, in place of what stands there and in its memory, which grows where
/// the text needs more, to about the text's length. After an `Err` a part of the text may stand there. Contracts see the text
/// alone.
pub fn write_event<'a>(
    alloc: Global,
    out: &'a mut Vec<u8>,
    event: &'a Event,
) -> Result<&'a [u8], OutOfMemory>
    ensures { IfOk result (λ text. text.now ≡ event.now) }
{
    let parts = event.parts();
    if parts.records.is_empty() && parts.tail.is_empty() {
        return Ok(parts.head);
    }
    write_parts(alloc, out, &parts)?;
    Ok(out.as_slice())
}

/// Writes the text of these parts in place of what stands in `out`. What is the same in the elements of a shard's records in
/// a row is made once. After an `Err` a part of the text may stand there.
fn write_parts(alloc: Global, out: &mut Vec<u8>, parts: &EventParts<'_>) -> Result<(), OutOfMemory>
    ensures { OnOk result (out.new.items
        ≡ event_in parts.now.head.now parts.now.records.now parts.now.source.now parts.now.tail.now) }
{
    out.clear();
    out.reserve_exact(text_room(parts))?;
    push_bytes(out, parts.head)?;
    push_records(alloc, out, parts.records, parts.source)?;
    push_bytes(out, parts.tail)?;
    Ok(())
}

/// About the length of the text in bytes; used only to reserve room.
fn text_room(parts: &EventParts<'_>) -> usize {
    let mut total = parts.head.len().saturating_add(parts.tail.len());
    let around = ELEMENT_BYTES.saturating_add(parts.source.len());
    for item in parts.records {
        total = total.saturating_add(around.saturating_add(record_room(item)));
    }
    total
}

fn record_room(item: &Record) -> usize {
    let sequence = item.seq().len();
    let twice = sequence.saturating_add(sequence);
    let data = item.base64().len();
    escaped_room(item.key())
        .saturating_add(twice)
        .saturating_add(data)
}

/// Appends the elements of the records, each of which ends with `source`, with commas between them. After an error a part of
/// them may have been appended.
#[tactic(auto, unfolding(crate::specs::Elements::following_record))]
pub(crate) fn push_records(
    alloc: Global,
    out: &mut Vec<u8>,
    records: &[Record],
    source: &[u8],
) -> Result<(), OutOfMemory>
    ensures { OnOk result (out.new.items ≡ out.old.items ++ join_by (ending_in source.now) (codes ",") records.now) }
{
    let Some((first, rest)) = records.split_first() else {
        return Ok(());
    };
    let mut identity = identity_text(alloc, first.shard())?;
    push_first(out, identity.as_slice(), source, first)?;
    push_rest(out, &mut identity, first.shard(), source, rest)?;
    Ok(())
}

/// Appends the elements of the other records. `identity` is that of the shard of the record before them.
fn push_rest(
    out: &mut Vec<u8>,
    identity: &mut Vec<u8>,
    shard: u64,
    source: &[u8],
    rest: &[Record],
) -> Result<(), OutOfMemory>
    requires { identity.old.items ≡ identity_text shard }
    ensures { OnOk result (out.new.items ≡ out.old.items ++ flat_map (following_record source.now) rest.now) }
{
    let mut shard = shard;
    for item in rest {
        turn_to(identity, shard, item.shard())?;
        shard = item.shard();
        push_following(out, identity.as_slice(), source, item)?;
    }
    Ok(())
}

/// Turns the identity of one shard into that of the other. After an error it is that of neither.
fn turn_to(identity: &mut Vec<u8>, from: u64, to: u64) -> Result<(), OutOfMemory>
    requires { identity.old.items ≡ identity_text from }
    ensures { OnOk result (identity.new.items ≡ identity_text to) }
{
    if from == to {
        return Ok(());
    }
    identity.clear();
    push_identity(identity, to)?;
    Ok(())
}

fn push_first(
    out: &mut Vec<u8>,
    identity: &[u8],
    source: &[u8],
    item: &Record,
) -> Result<(), OutOfMemory>
    requires { identity.now ≡ identity_text item.now.shard }
    ensures { OnOk result (out.new.items ≡ out.old.items ++ ending_in source.now item.now) }
{
    let opening = b"{\"kinesis\":{\"kinesisSchemaVersion\":\"1.0\",\"partitionKey\":\"";
    push_element(out, opening, identity, source, item)?;
    Ok(())
}

fn push_following(
    out: &mut Vec<u8>,
    identity: &[u8],
    source: &[u8],
    item: &Record,
) -> Result<(), OutOfMemory>
    requires { identity.now ≡ identity_text item.now.shard }
    ensures { OnOk result (out.new.items ≡ out.old.items ++ following_record source.now item.now) }
{
    let opening = b",{\"kinesis\":{\"kinesisSchemaVersion\":\"1.0\",\"partitionKey\":\"";
    push_element(out, opening, identity, source, item)?;
    Ok(())
}
