//! Parsing the lines of a block, by several threads side by side; each line is parsed regardless of the lines before it.
ghost use Rattle.std.specs.Prelude.{◌≡◌, ◌<◌, ◌++◌, [], List, Option, Result, length, IfOk, IfSome, IfNone};
ghost use Rattle.std.specs.Thread.{IsSync};
ghost use Rattle.esm_model.specs.declared.item.Item.{Item};
ghost use Rattle.esm_record.specs.declared.error.LineError.{LineError};
ghost use Rattle.esm_record.specs.Input.{lines_of, begun};
ghost use Rattle.esm_record.specs.Parsing.{parsed_lines};
ghost use Rattle.esm_record.specs.LineBlocks.{NoLineFeed};

use crate::line_blocks::{first_line, lines_up_to, share_of, threads_worth};
use crate::packed::Packed;
use crate::parse::Parsed;
use esm_model::{LineKind, MAX_LINE, OutOfMemory};
use json::Scratch;
use memchr::{memchr, memrchr};
use std::alloc::Global;
use std::thread::{Threads, join};

/// Bytes of lines whose records share one text; a longer line is a chunk of its own.
const CHUNK: usize = 16_384;

/// Whole lines from the front, up to the last line feed of the first `CHUNK` bytes, or up to the first one where none is
/// among them; and what follows.
pub fn next_chunk(bytes: &[u8]) -> Option<(&[u8], &[u8])>
    ensures parts { IfSome result (λ p. bytes.now ≡ p.0.now ++ p.1.now) }
    ensures whole { IfSome result (λ p. begun (lines_of p.0.now) ≡ []) }
    ensures some { IfSome result (λ p. length p.1.now < length bytes.now) }
    ensures none { IfNone result (NoLineFeed bytes.now) }
{
    let near = &bytes[..bytes.len().min(CHUNK)];
    if let Some(at) = memrchr(b'\n', near) {
        return Some(bytes.split_at(at + 1));
    }
    match memchr(b'\n', bytes) {
        Some(at) => Some(bytes.split_at(at + 1)),
        None => None,
    }
}

/// Parses each line of the chunk that a line feed ends; the records share one text. With several `lanes`, the MD5 that
/// chooses a record's lane is computed too.
pub fn parse_chunk(
    alloc: Global,
    kind: LineKind,
    lanes: bool,
    scratch: &mut Scratch,
    chunk: &[u8],
) -> Result<Vec<Parsed>, OutOfMemory>
    ensures { IfOk result (λ v. v.items ≡ parsed_lines kind chunk.now) }
{
    let room = match kind {
        LineKind::Stream if chunk.len() <= MAX_LINE => chunk.len(),
        _ => 0,
    };
    let mut packed = Packed::new(alloc, room)?;
    let mut rest = chunk;
    while let Some((line, after)) = first_line(rest) {
        packed = packed.with_line(alloc, kind, scratch, line)?;
        rest = after;
    }
    packed.into_parsed(alloc, lanes)
}

/// Parses each line of the block that a line feed ends, chunk by chunk.
fn parse_block(
    alloc: Global,
    kind: LineKind,
    lanes: bool,
    block: &[u8],
) -> Result<Vec<Parsed>, OutOfMemory>
    ensures { IfOk result (λ v. v.items ≡ parsed_lines kind block.now) }
{
    let mut scratch = Scratch::new(alloc);
    let mut parsed = Vec::new(alloc);
    let mut rest = block;
    while let Some((chunk, after)) = next_chunk(rest) {
        let mut said = parse_chunk(alloc, kind, lanes, &mut scratch, chunk)?;
        parsed.append(&mut said)?;
        rest = after;
    }
    Ok(parsed)
}

/// What the lines of both parts are.
fn both(
    front: Result<Vec<Parsed>, OutOfMemory>,
    back: Result<Vec<Parsed>, OutOfMemory>,
) -> Result<Vec<Parsed>, OutOfMemory>
    ensures { (xs ys : List (Result (Option Item) LineError)) → IfOk front (λ v. v.items ≡ xs)
        → IfOk back (λ v. v.items ≡ ys) → IfOk result (λ v. v.items ≡ xs ++ ys) }
{
    let mut all = front?;
    let mut rest = back?;
    all.append(&mut rest)?;
    Ok(all)
}

/// The same, in blocks of about equal length side by side on so many threads, this one among them.
#[cycle(blocks)]
fn parse_blocks<R: Threads + Sync>(
    rt: &R,
    alloc: Global,
    kind: LineKind,
    lanes: bool,
    threads: usize,
    block: &[u8],
) -> Result<Vec<Parsed>, OutOfMemory>
    ensures { IfOk result (λ v. v.items ≡ parsed_lines kind block.now) }
{
    if threads < 2 {
        return parse_block(alloc, kind, lanes, block);
    }
    let few = threads / 2;
    let others = threads - few;
    let (front, back) = lines_up_to(block, share_of(block.len(), threads, few));
    let first = move || -> Result<Vec<Parsed>, OutOfMemory>
        requires { IsSync R.row }
        ensures { IfOk result (λ v. v.items ≡ parsed_lines kind front.entry.now) }
    { parse_blocks(rt, alloc, kind, lanes, few, front) };
    let second = move || -> Result<Vec<Parsed>, OutOfMemory>
        requires { IsSync R.row }
        ensures { IfOk result (λ v. v.items ≡ parsed_lines kind back.entry.now) }
    { parse_blocks(rt, alloc, kind, lanes, others, back) };
    let (ahead, behind) = join(rt, first, second);
    both(ahead, behind)
}

/// Parses each line of the block that a line feed ends, by up to `threads` threads side by side.
pub fn parse_lines<R: Threads + Sync>(
    rt: &R,
    alloc: Global,
    kind: LineKind,
    lanes: bool,
    threads: usize,
    block: &[u8],
) -> Result<Vec<Parsed>, OutOfMemory>
    ensures { IfOk result (λ v. v.items ≡ parsed_lines kind block.now) }
{
    let threads = threads_worth(block.len(), threads);
    parse_blocks(rt, alloc, kind, lanes, threads, block)
}
