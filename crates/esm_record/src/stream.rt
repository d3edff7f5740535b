//! Reading the record of a stream's line.
ghost use Rattle.std.specs.Prelude.{◌≡◌, codes, nat_eq, true, option_map, IfOk, IfSome, IsUtf8};
ghost use Rattle.std.specs.List.{starts_with};
ghost use Rattle.esm_model.specs.Records.{encoded_in};
ghost use Rattle.esm_model.specs.Sequence.{is_sequence};
ghost use Rattle.esm_model.specs.Valid.{is_between, char_count};
ghost use Rattle.esm_record.specs.Fields.{record_at, Tells};
ghost use Rattle.esm_record.specs.Gives.{Gives, Shows};
ghost use Rattle.esm_record.specs.Leaf.{of_text_in, field_in, record_in, leaf_at};
ghost use Rattle.esm_record.specs.Line as spec;

use crate::decimal::number_of;
use crate::encoded::encoded_length;
use crate::error::{Field, LineError, Refusal};
use crate::fields::{Base64, Fields};
use crate::line::{moment_of, read_line};
use crate::object::{Found, Leaf};
use esm_model::spelling::{are_digits, is_sequence};
use esm_model::{MAX_DATA, OutOfMemory, Record};
use json::Scratch;
use std::alloc::Global;
use std::str::from_utf8;

fn begins_as_shard_id(text: &[u8]) -> bool
    ensures { result ≡ starts_with nat_eq text.now (codes "shardId-") }
{
    text.starts_with(b"shardId-")
}

fn is_shard_id(text: &[u8]) -> bool
    ensures { result ≡ spec.is_shard_id text.now }
{
    if text.len() != 20 {
        return false;
    }
    begins_as_shard_id(text) && are_digits(&text[8..])
}

/// The number of a shard from its id, `shardId-` and twelve digits (Kinesis API Reference, `ShardId`); `None` for any other
/// text.
pub fn shard_number(text: &[u8]) -> Option<u64>
    ensures { result ≡ spec.shard_number text.now }
{
    if is_shard_id(text) {
        Some(number_of(&text[8..]))
    } else {
        None
    }
}

fn char_count(text: &[u8]) -> usize
    ensures { result ≡ char_count text.now }
{
    text.iter().filter(|b| **b < 128 || 192 <= **b).count()
}

fn is_partition_key(text: &[u8]) -> bool
    ensures { result ≡ is_between 1 256 (char_count text.now) }
{
    let characters = char_count(text);
    1 <= characters && characters <= 256
}

fn shard_in(leaf: Leaf<'_>) -> Option<u64>
    ensures { result ≡ of_text_in spec.shard_number leaf.entry }
{
    match leaf.bytes() {
        Some(text) => shard_number(text),
        None => None,
    }
}

fn sequence_number_in(leaf: Leaf<'_>) -> Option<&[u8]>
    ensures value { option_map (λ b. b.now) result ≡ of_text_in spec.sequence_number leaf.entry }
    ensures spelled { IfSome result (λ b. is_sequence b.now ≡ true) }
{
    match leaf.bytes() {
        Some(text) if is_sequence(text) => Some(text),
        _ => None,
    }
}

fn partition_key_in(leaf: Leaf<'_>) -> Option<&[u8]>
    ensures value { option_map (λ b. b.now) result ≡ of_text_in spec.partition_key leaf.entry }
    ensures utf8 { IfSome result (λ b. IsUtf8 b.now) }
{
    match leaf.bytes() {
        Some(text) if is_partition_key(text) => Some(text),
        _ => None,
    }
}

/// The text as base64 of at most `MAX_DATA` bytes; `None` where it is none.
fn base64_of(text: &[u8]) -> Option<Base64<'_>>
    ensures { option_map (λ b. encoded_in b.text.now) result ≡ spec.payload text.now }
{
    match encoded_length(text) {
        Some(len) if len <= MAX_DATA => Some(Base64 {
            text,
            len: len as u32,
        }),
        _ => None,
    }
}

fn payload_in(leaf: Leaf<'_>) -> Option<Base64<'_>>
    ensures { option_map (λ b. encoded_in b.text.now) result ≡ of_text_in spec.payload leaf.entry }
{
    match leaf.bytes() {
        Some(text) => base64_of(text),
        None => None,
    }
}

fn shard_of(line: &Found<'_>) -> Result<u64, LineError>
    ensures { result ≡ field_in Field.ShardId (of_text_in spec.shard_number) (leaf_at Field.ShardId line.now) }
{
    match line.leaf(Field::ShardId) {
        Some(leaf) => shard_in(leaf).ok_or(LineError::BadField(Field::ShardId)),
        None => Err(LineError::Missing(Field::ShardId)),
    }
}

fn sequence_number_of<'a>(line: &Found<'a>) -> Result<&'a [u8], LineError>
    ensures value { Tells (λ b. b.now) result (field_in Field.SequenceNumber (of_text_in spec.sequence_number)
        (leaf_at Field.SequenceNumber line.now)) }
    ensures spelled { IfOk result (λ b. is_sequence b.now ≡ true) }
{
    let name = Field::SequenceNumber;
    match line.leaf(name) {
        Some(leaf) => sequence_number_in(leaf).ok_or(LineError::BadField(name)),
        None => Err(LineError::Missing(name)),
    }
}

fn partition_key_of<'a>(line: &Found<'a>) -> Result<&'a [u8], LineError>
    ensures value { Tells (λ b. b.now) result (field_in Field.PartitionKey (of_text_in spec.partition_key)
        (leaf_at Field.PartitionKey line.now)) }
    ensures utf8 { IfOk result (λ b. IsUtf8 b.now) }
{
    let name = Field::PartitionKey;
    match line.leaf(name) {
        Some(leaf) => partition_key_in(leaf).ok_or(LineError::BadField(name)),
        None => Err(LineError::Missing(name)),
    }
}

fn payload_of<'a>(line: &Found<'a>) -> Result<Base64<'a>, LineError>
    ensures { Tells (λ b. encoded_in b.text.now) result (field_in Field.Data (of_text_in spec.payload)
        (leaf_at Field.Data line.now)) }
{
    match line.leaf(Field::Data) {
        Some(leaf) => payload_in(leaf).ok_or(LineError::BadField(Field::Data)),
        None => Err(LineError::Missing(Field::Data)),
    }
}

/// The fields of a record, from the members of the object.
fn fields_of<'a>(line: &Found<'a>) -> Result<Fields<'a>, LineError>
    ensures { Tells record_at result (record_in line.now) }
{
    let shard = shard_of(line)?;
    let seq = sequence_number_of(line)?;
    let key = partition_key_of(line)?;
    let payload = payload_of(line)?;
    let arrival = moment_of(line, Field::ApproximateArrivalTimestamp)?;
    Ok(Fields {
        shard,
        seq,
        key,
        payload,
        arrival,
    })
}

/// Reads the fields of a stream's line, which is neither blank nor too long.
pub fn read_fields<'a>(scratch: &'a mut Scratch, line: &'a [u8]) -> Result<Fields<'a>, Refusal>
    ensures { Shows record_at result (spec.line_of spec.record_of line.now) }
{
    let mut found = Found::nothing();
    match read_line(scratch, line, &mut found) {
        Ok(()) => match fields_of(&found) {
            Ok(fields) => Ok(fields),
            Err(why) => Err(Refusal::Line(why)),
        },
        Err(refusal) => Err(refusal),
    }
}

/// The record of these fields, in a text of its own.
fn record_of(alloc: Global, fields: &Fields<'_>) -> Result<Record, OutOfMemory>
    ensures { IfOk result (λ r. r ≡ record_at fields.now) }
{
    let Fields {
        shard,
        seq,
        key,
        payload,
        arrival,
    } = *fields;
    match from_utf8(key) {
        Ok(key) => Record::of(alloc, shard, seq, key, payload.text, payload.len, arrival),
        Err(_) => unreachable!(),
    }
}

/// Reads the record of a stream's line, which is neither blank nor too long, into a text of its own.
pub fn read_record(alloc: Global, scratch: &mut Scratch, line: &[u8]) -> Result<Record, Refusal>
    ensures { Gives result (spec.line_of spec.record_of line.now) }
{
    match read_fields(scratch, line) {
        Ok(fields) => Ok(record_of(alloc, &fields)?),
        Err(refusal) => Err(refusal),
    }
}
