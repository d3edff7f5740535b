//! Turning a line of a DynamoDB stream into the line of a stream's input.
ghost use Rattle.std.specs.Prelude.{◌≡◌, ◌<◌, ◌++◌, Some, false, true, OnOk, IfOk};
ghost use Rattle.std.specs.Fmt.{digit_glyph};
ghost use Rattle.json.specs.Value.{value_view};
ghost use Rattle.serde_json.specs.Read.{read};
ghost use Rattle.md5.specs.Md5.{md5};
ghost use Rattle.esm_model.specs.Numbers.{padded_hexadecimal};
ghost use Rattle.esm_model.specs.QueueEvent.{hexadecimal};
ghost use Rattle.esm_record.specs.Input.{is_blank};
ghost use Rattle.esm_ddb.specs.Element.{element};
ghost use Rattle.esm_ddb.specs.Gives.{Gives};
ghost use Rattle.esm_ddb.specs.ItemText.{value_text};
ghost use Rattle.esm_ddb.specs.Said.{change_view};
ghost use Rattle.esm_ddb.specs.Tree.{data_in, is_ordered};
ghost use Rattle.esm_ddb.specs.Turned.{content_part, place_part, record_line, turned, turned_change, turned_object, turned_record, turned_value};

use crate::change::{Change, change_of};
use crate::element::element;
use crate::error::{DdbError, DdbField, Refusal};
use crate::item_text::push_value;
use crate::own_turned::own_turned;
use crate::source::Source;
use crate::tree::{is_object, is_ordered, read_value};
use esm_event::bytes::push_bytes;
use esm_event::digits::push_decimal;
use esm_event::record::{push_base64, push_shard_id};
use esm_model::{MAX_DATA, MAX_LINE, OutOfMemory, parse_json_text};
use json::{Reader, Scratch, Value};
use md5::{Digest, Md5};
use std::alloc::Global;
use std::str::from_utf8;

/// The capacity in bytes that most lines fit into without their data, and most keys.
const ROOM: usize = 256;

/// The lower-case hexadecimal digit.
fn digit(value: u8) -> u8
    requires { value < 16 }
    ensures { result ≡ digit_glyph false value }
{
    if value < 10 {
        b'0' + value
    } else {
        b'a' + (value - 10)
    }
}

/// Appends the byte as two lower-case hexadecimal digits.
fn push_byte(out: &mut Vec<u8>, byte: u8) -> Result<(), OutOfMemory>
    ensures { OnOk result (out.new.items ≡ out.old.items ++ padded_hexadecimal 2 byte) }
{
    out.push(digit(byte / 16))?;
    out.push(digit(byte % 16))?;
    Ok(())
}

/// Appends each byte as two lower-case hexadecimal digits.
#[tactic(auto, unfolding(esm_model::specs::QueueEvent::hexadecimal))]
fn push_hexadecimal_bytes(out: &mut Vec<u8>, bytes: &[u8]) -> Result<(), OutOfMemory>
    ensures { OnOk result (out.new.items ≡ out.old.items ++ hexadecimal bytes.now) }
{
    for byte in bytes {
        push_byte(out, *byte)?;
    }
    Ok(())
}

fn push_digest(out: &mut Vec<u8>, keys: &[u8]) -> Result<(), OutOfMemory>
    ensures { OnOk result (out.new.items ≡ out.old.items ++ hexadecimal (md5 keys.now)) }
{
    let digest = Md5::digest(keys);
    push_hexadecimal_bytes(out, &digest)?;
    Ok(())
}

/// Appends the shard and the sequence number of the record's line.
pub fn push_place(out: &mut Vec<u8>, shard: u64, seq: &[u8]) -> Result<(), OutOfMemory>
    ensures { OnOk result (out.new.items ≡ out.old.items ++ place_part shard seq.now) }
{
    push_bytes(out, b"{\"shardId\":\"")?;
    push_shard_id(out, shard)?;
    push_bytes(out, b"\",\"sequenceNumber\":\"")?;
    push_bytes(out, seq)?;
    Ok(())
}

/// Appends the partition key, the data and the moment of arrival of the record's line.
pub fn push_content(
    out: &mut Vec<u8>,
    keys: &[u8],
    payload: &[u8],
    arrival: u64,
) -> Result<(), OutOfMemory>
    ensures { OnOk result (out.new.items ≡ out.old.items ++ content_part (hexadecimal (md5 keys.now)) payload.now arrival) }
{
    push_bytes(out, b"\",\"partitionKey\":\"")?;
    push_digest(out, keys)?;
    push_bytes(out, b"\",\"data\":\"")?;
    push_base64(out, payload)?;
    push_bytes(out, b"\",\"approximateArrivalTimestamp\":")?;
    push_decimal(out, arrival)?;
    push_bytes(out, b"}")?;
    Ok(())
}

/// Appends the line of the change's record; `keys` is the text of its keys and `payload` that of its element.
fn push_record(
    out: &mut Vec<u8>,
    source: &Source,
    change: &Change,
    keys: &[u8],
    payload: &[u8],
) -> Result<(), OutOfMemory>
    requires keys { keys.now ≡ value_text (data_in (value_view change.now.item.keys.now)) }
    requires payload { payload.now ≡ element source.now (change_view change.now) }
    ensures { OnOk result (out.new.items ≡ out.old.items ++ record_line (turned_record source.now (change_view change.now))) }
{
    push_place(out, change.shard, change.item.seq.as_bytes())?;
    push_content(out, keys, payload, change.arrival)?;
    Ok(())
}

/// The capacity in bytes for the line of a record with this data.
pub fn room_for(payload: &[u8]) -> usize {
    (payload.len() / 3).saturating_mul(4).saturating_add(ROOM)
}

fn record_line(
    alloc: Global,
    source: &Source,
    change: &Change,
    keys: &[u8],
    payload: &[u8],
) -> Result<Vec<u8>, OutOfMemory>
    requires keys { keys.now ≡ value_text (data_in (value_view change.now.item.keys.now)) }
    requires payload { payload.now ≡ element source.now (change_view change.now) }
    ensures { IfOk result (λ text. text.items ≡ record_line (turned_record source.now (change_view change.now))) }
{
    let mut out = Vec::with_capacity(alloc, room_for(payload))?;
    push_record(&mut out, source, change, keys, payload)?;
    Ok(out)
}

/// The text of the item's keys.
fn keys_text(alloc: Global, keys: &Value<'_>) -> Result<Vec<u8>, OutOfMemory>
    ensures { IfOk result (λ text. text.items ≡ value_text (data_in (value_view keys.now))) }
{
    let mut text = Vec::with_capacity(alloc, ROOM)?;
    push_value(&mut text, keys)?;
    Ok(text)
}

/// The line of the change's record; `BadField` if its element has more than `MAX_DATA` bytes.
fn turned_change(alloc: Global, source: &Source, change: &Change) -> Result<Vec<u8>, Refusal>
    ensures { Gives (λ v. v.items) result (turned_change source.now (change_view change.now)) }
{
    let keys = keys_text(alloc, change.item.keys)?;
    let payload = element(alloc, source, change, keys.as_slice())?;
    if payload.len() > MAX_DATA {
        return Err(Refusal::Line(DdbError::BadField(DdbField::Dynamodb)));
    }
    Ok(record_line(alloc, source, change, keys.as_slice(), payload.as_slice())?)
}

fn turned_value(alloc: Global, source: &Source, value: &Value<'_>) -> Result<Vec<u8>, Refusal>
    requires { is_ordered (value_view value.now) ≡ true }
    ensures { Gives (λ v. v.items) result (turned_value source.now (Some (data_in (value_view value.now)))) }
{
    if !is_object(value) {
        return Err(Refusal::Line(DdbError::NotJson));
    }
    match change_of(value) {
        Ok(change) => turned_change(alloc, source, &change),
        Err(why) => Err(Refusal::Line(why)),
    }
}

#[tactic(auto, using(crate::proofs::Trees::gives_none, crate::proofs::Trees::gives_tree))]
fn turned_text(
    alloc: Global,
    scratch: &mut Scratch,
    source: &Source,
    text: &str,
) -> Result<Vec<u8>, Refusal>
    ensures { Gives (λ v. v.items) result (turned_value source.now (read text.now)) }
{
    let mut reader = Reader::new(text, scratch)?;
    let value = read_value(alloc, &mut reader)?;
    if is_ordered(&value) {
        turned_value(alloc, source, &value)
    } else {
        turned_unordered(alloc, source, text)
    }
}

/// Turns a text that has an object whose members are not in the order of their names.
fn turned_unordered(alloc: Global, source: &Source, text: &str) -> Result<Vec<u8>, Refusal>
    ensures { Gives (λ v. v.items) result (turned_value source.now (read text.now)) }
{
    let Some(value) = parse_json_text(alloc, text)? else {
        return Err(Refusal::Line(DdbError::NotJson));
    };
    let ordered = value.to_string(alloc)?;
    turned_ordered(alloc, source, ordered.as_str())
}

/// Turns a text in which the members of each object are in the order of their names.
#[tactic(auto, using(crate::proofs::Trees::gives_none, crate::proofs::Trees::gives_tree))]
fn turned_ordered(alloc: Global, source: &Source, text: &str) -> Result<Vec<u8>, Refusal>
    ensures { Gives (λ v. v.items) result (turned_value source.now (read text.now)) }
{
    let mut scratch = Scratch::new(alloc);
    let mut reader = Reader::new(text, &mut scratch)?;
    let value = read_value(alloc, &mut reader)?;
    if is_ordered(&value) {
        turned_value(alloc, source, &value)
    } else {
        Err(Refusal::OutOfMemory)
    }
}

/// Turns a line that is UTF-8.
fn turned_line(
    alloc: Global,
    scratch: &mut Scratch,
    source: &Source,
    text: &str,
) -> Result<Vec<u8>, Refusal>
    ensures { Gives (λ v. v.items) result (turned_value source.now (read text.now)) }
{
    match own_turned(alloc, source, text.as_bytes())? {
        Some(line) => Ok(line),
        None => turned_text(alloc, scratch, source, text),
    }
}

fn turned_object(
    alloc: Global,
    scratch: &mut Scratch,
    source: &Source,
    line: &[u8],
) -> Result<Vec<u8>, Refusal>
    ensures { Gives (λ v. v.items) result (turned_object source.now line.now) }
{
    match from_utf8(line) {
        Ok(text) => turned_line(alloc, scratch, source, text),
        Err(_) => Err(Refusal::Line(DdbError::NotJson)),
    }
}

fn is_blank(line: &[u8]) -> bool
    ensures { result ≡ is_blank line.now }
{
    line.iter()
        .all(|b| *b == b' ' || *b == b'\t' || *b == b'\r')
}

/// Turns a line, given without its line feed; a blank one is turned into nothing.
pub fn turned(
    alloc: Global,
    scratch: &mut Scratch,
    source: &Source,
    line: &[u8],
) -> Result<Vec<u8>, Refusal>
    ensures { Gives (λ v. v.items) result (turned source.now line.now) }
{
    if line.len() > MAX_LINE {
        return Err(Refusal::Line(DdbError::LineTooLong));
    }
    if is_blank(line) {
        return Ok(Vec::new(alloc));
    }
    turned_object(alloc, scratch, source, line)
}
