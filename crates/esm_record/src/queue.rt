//! Reading the message of a queue's line.
ghost use Rattle.std.specs.Prelude.{◌≡◌, IfOk};
ghost use Rattle.std.specs.List.{list_all};
ghost use Rattle.esm_model.specs.ValidMessage as valid;
ghost use Rattle.esm_record.specs.Gives.{Gives};
ghost use Rattle.esm_record.specs.Line as spec;
ghost use Rattle.esm_record.specs.Leaf.{of_text_in, field_in, group_in, message_in, leaf_at};

use crate::error::{Field, LineError, Refusal};
use crate::line::{moment_of, read_line};
use crate::object::{Found, Leaf};
use esm_model::spelling::are_name_bytes;
use esm_model::{MAX_DATA, Message, OutOfMemory, Text};
use json::Scratch;
use memchr::memchr;
use std::alloc::Global;

/// The maximum number of bytes of a message's id.
const MAX_ID: usize = 100;

/// The maximum number of bytes of a message's group.
const MAX_GROUP: usize = 128;

fn is_message_id(text: &[u8]) -> bool
    ensures { result ≡ valid.is_message_id text.now }
{
    1 <= text.len() && text.len() <= MAX_ID && are_name_bytes(text)
}

fn is_body_byte(byte: u8) -> bool
    ensures { result ≡ valid.is_body_byte byte }
{
    (32 <= byte) | (byte == b'\t') | (byte == b'\n') | (byte == b'\r')
}

/// Whether the bytes begin with U+FFFE or U+FFFF.
fn ends_plane(bytes: &[u8]) -> bool
    ensures { result ≡ valid.ends_plane bytes.now }
{
    match bytes {
        [first, second, third, ..] => *first == 0xEF && *second == 0xBF && 0xBE <= *third,
        _ => false,
    }
}

/// Whether each byte is a character of its own or part of a longer one. Reads all bytes, so the loop can use vector
/// instructions.
fn are_body_bytes(text: &[u8]) -> bool
    ensures { result ≡ list_all valid.is_body_byte text.now }
{
    let mut passes = true;
    for byte in text {
        passes &= is_body_byte(*byte);
    }
    passes
}

/// Whether each character of the text is one that a body may have. Only a text with 0xEF, with which U+F000 to U+FFFF begin,
/// needs the slower test.
fn has_body_chars(text: &[u8]) -> bool
    ensures { result ≡ valid.has_body_chars text.now }
{
    match memchr(0xEF, text) {
        None => are_body_bytes(text),
        Some(_) => has_body_chars_beside(text),
    }
}

/// The same, for a text in which U+FFFE or U+FFFF may occur.
fn has_body_chars_beside(text: &[u8]) -> bool
    ensures { result ≡ valid.has_body_chars text.now }
{
    let mut rest = text;
    while let Some((first, others)) = rest.split_first() {
        if !is_body_byte(*first) || ends_plane(rest) {
            return false;
        }
        rest = others;
    }
    true
}

fn is_message_body(text: &[u8]) -> bool
    ensures { result ≡ valid.is_message_body text.now }
{
    1 <= text.len() && text.len() <= MAX_DATA && has_body_chars(text)
}

fn is_group_byte(byte: u8) -> bool
    ensures { result ≡ valid.is_group_byte byte }
{
    33 <= byte && byte <= 126
}

fn are_group_bytes(text: &[u8]) -> bool
    ensures { result ≡ list_all valid.is_group_byte text.now }
{
    text.iter().all(|b| is_group_byte(*b))
}

fn is_message_group(text: &[u8]) -> bool
    ensures { result ≡ valid.is_message_group text.now }
{
    1 <= text.len() && text.len() <= MAX_GROUP && are_group_bytes(text)
}

/// A copy of the text, where it passes.
fn copy_if(alloc: Global, passes: bool, text: &str) -> Result<Option<Text>, OutOfMemory>
    ensures { IfOk result (λ o. o ≡ spec.only_if passes text.now) }
{
    if passes {
        Ok(Some(Text::from_vec(String::from_str(alloc, text)?)))
    } else {
        Ok(None)
    }
}

fn id_in(alloc: Global, leaf: Leaf<'_>) -> Result<Option<Text>, OutOfMemory>
    ensures { IfOk result (λ o. o ≡ of_text_in spec.message_id leaf.entry) }
{
    match leaf.text() {
        Some(text) => copy_if(alloc, is_message_id(text.as_bytes()), text),
        None => Ok(None),
    }
}

fn body_in(alloc: Global, leaf: Leaf<'_>) -> Result<Option<Text>, OutOfMemory>
    ensures { IfOk result (λ o. o ≡ of_text_in spec.message_body leaf.entry) }
{
    match leaf.text() {
        Some(text) => copy_if(alloc, is_message_body(text.as_bytes()), text),
        None => Ok(None),
    }
}

fn group_in(alloc: Global, leaf: Leaf<'_>) -> Result<Option<Text>, OutOfMemory>
    ensures { IfOk result (λ o. o ≡ of_text_in spec.message_group leaf.entry) }
{
    match leaf.text() {
        Some(text) => copy_if(alloc, is_message_group(text.as_bytes()), text),
        None => Ok(None),
    }
}

fn id_of(alloc: Global, line: &Found<'_>) -> Result<Text, Refusal>
    ensures { Gives result (field_in Field.MessageId (of_text_in spec.message_id) (leaf_at Field.MessageId line.now)) }
{
    match line.leaf(Field::MessageId) {
        Some(leaf) => match id_in(alloc, leaf)? {
            Some(id) => Ok(id),
            None => Err(Refusal::Line(LineError::BadField(Field::MessageId))),
        },
        None => Err(Refusal::Line(LineError::Missing(Field::MessageId))),
    }
}

fn body_of(alloc: Global, line: &Found<'_>) -> Result<Text, Refusal>
    ensures { Gives result (field_in Field.Body (of_text_in spec.message_body) (leaf_at Field.Body line.now)) }
{
    match line.leaf(Field::Body) {
        Some(leaf) => match body_in(alloc, leaf)? {
            Some(body) => Ok(body),
            None => Err(Refusal::Line(LineError::BadField(Field::Body))),
        },
        None => Err(Refusal::Line(LineError::Missing(Field::Body))),
    }
}

fn fifo_group_of(alloc: Global, line: &Found<'_>) -> Result<Text, Refusal>
    ensures { Gives result (field_in Field.MessageGroupId (of_text_in spec.message_group) (leaf_at Field.MessageGroupId line.now)) }
{
    match line.leaf(Field::MessageGroupId) {
        Some(leaf) => match group_in(alloc, leaf)? {
            Some(group) => Ok(group),
            None => Err(Refusal::Line(LineError::BadField(Field::MessageGroupId))),
        },
        None => Err(Refusal::Line(LineError::Missing(Field::MessageGroupId))),
    }
}

fn group_of(alloc: Global, fifo: bool, line: &Found<'_>) -> Result<Option<Text>, Refusal>
    ensures { Gives result (group_in fifo line.now) }
{
    if !fifo {
        return Ok(None);
    }
    match fifo_group_of(alloc, line) {
        Ok(group) => Ok(Some(group)),
        Err(refusal) => Err(refusal),
    }
}

/// The message in the members of the object.
fn message_of(alloc: Global, fifo: bool, line: &Found<'_>) -> Result<Message, Refusal>
    ensures { Gives result (message_in fifo line.now) }
{
    let id = id_of(alloc, line)?;
    let body = body_of(alloc, line)?;
    let sent = moment_of(line, Field::SentTimestamp)?;
    let group = group_of(alloc, fifo, line)?;
    Ok(Message {
        id,
        group,
        body,
        sent,
    })
}

/// Reads the message of a queue's line, which is neither blank nor too long.
pub fn read_message(
    alloc: Global,
    scratch: &mut Scratch,
    fifo: bool,
    line: &[u8],
) -> Result<Message, Refusal>
    ensures { Gives result (spec.line_of (spec.message_of fifo) line.now) }
{
    let mut found = Found::nothing();
    match read_line(scratch, line, &mut found) {
        Ok(()) => message_of(alloc, fifo, &found),
        Err(refusal) => Err(refusal),
    }
}
