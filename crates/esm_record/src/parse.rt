//! Parsing a line by itself: it is blank, an item, or unreadable.
ghost use Rattle.std.specs.Prelude.{◌≡◌, ◌||◌, IfOk};
ghost use Rattle.esm_record.specs.Line.{line_of, record_of, message_of};
ghost use Rattle.esm_record.specs.Input.{is_blank_byte, is_blank, some_item};
ghost use Rattle.esm_record.specs.Parsing.{parse_line};

use crate::error::{LineError, Refusal};
use crate::queue::read_message;
use crate::stream::read_record;
use esm_model::{Item, LineKind, MAX_LINE, OutOfMemory};
use json::Scratch;
use std::alloc::Global;

/// What a line is, regardless of the lines before it: nothing where it is blank, its item, or why it does not read.
pub type Parsed = Result<Option<Item>, LineError>;

fn is_blank_byte(byte: u8) -> bool
    ensures { result ≡ is_blank_byte byte }
{
    byte == b' ' || byte == b'\t' || byte == b'\r'
}

/// Whether the line has only spaces, tabs and carriage returns.
pub fn is_blank(line: &[u8]) -> bool
    ensures { result ≡ is_blank line.now }
{
    line.iter().all(|b| is_blank_byte(*b))
}

/// Parses a stream's line, which is neither blank nor too long.
fn parse_record(alloc: Global, scratch: &mut Scratch, line: &[u8]) -> Result<Parsed, OutOfMemory>
    ensures { IfOk result (λ p. p ≡ some_item Item.Stream (line_of record_of line.now)) }
{
    match read_record(alloc, scratch, line) {
        Ok(record) => Ok(Ok(Some(Item::Stream(record)))),
        Err(Refusal::Line(why)) => Ok(Err(why)),
        Err(Refusal::OutOfMemory) => Err(OutOfMemory),
    }
}

/// Parses a queue's line, which is neither blank nor too long.
pub fn parse_message(
    alloc: Global,
    scratch: &mut Scratch,
    fifo: bool,
    line: &[u8],
) -> Result<Parsed, OutOfMemory>
    ensures { IfOk result (λ p. p ≡ some_item Item.Queue (line_of (message_of fifo) line.now)) }
{
    match read_message(alloc, scratch, fifo, line) {
        Ok(message) => Ok(Ok(Some(Item::Queue(message)))),
        Err(Refusal::Line(why)) => Ok(Err(why)),
        Err(Refusal::OutOfMemory) => Err(OutOfMemory),
    }
}

/// Parses the line, regardless of the lines before it.
pub fn parse_line(
    alloc: Global,
    kind: LineKind,
    scratch: &mut Scratch,
    line: &[u8],
) -> Result<Parsed, OutOfMemory>
    ensures { IfOk result (λ p. p ≡ parse_line kind line.now) }
{
    if line.len() > MAX_LINE {
        return Ok(Err(LineError::LineTooLong));
    }
    if is_blank(line) {
        return Ok(Ok(None));
    }
    match kind {
        LineKind::Stream => parse_record(alloc, scratch, line),
        LineKind::Queue { fifo } => parse_message(alloc, scratch, fifo, line),
    }
}
