// Reading one piece of an input.
ghost use Rattle.std.specs.Prelude.{◌≡◌, ◌≤◌, ◌<◌, ◌==◌, ◌++◌, length, take, vec_len, false, IfOk, OnOk, OnErr, All};
ghost use Rattle.esm_io.specs.Faults.{IsCount, Rose};
ghost use Rattle.esm_io.specs.Told.{TakesFront, IsAtEnd};
ghost use Rattle.esm_model.specs.Items.{IsValidItem};
ghost use Rattle.esm_input.specs.Reading.{input_read};
ghost use Rattle.esm_input.specs.Counting.{IsWithin};
ghost use Rattle.esm_input.specs.Going.{IsTaken, end_by};

use crate::counted::Counted;
use crate::ending::InputEnd;
use crate::positions::Positions;
use esm_io::{Failed, Source};
use esm_model::{Item, LimitName, OutOfMemory, Start};
use esm_record::{BadLine, Fed, Lines};
use std::alloc::Global;
use std::thread::Threads;

/// The items that a piece hands out, and why the reading ends with it, if it does.
#[derive(Drop)]
pub(crate) struct Taken {
    pub(crate) items: Vec<Item>,
    pub(crate) end: Option<InputEnd>,
}

/// Reads bytes into the front of the buffer, and returns their number; 0 means the end of the source.
pub(crate) fn read_bytes<S: Source>(source: &mut S, buffer: &mut Vec<u8>) -> Result<usize, Failed>
    requires room { 0 < vec_len buffer.old }
    ensures room { vec_len buffer.new ≡ vec_len buffer.old }
    ensures within { IfOk result (λ n. n ≤ vec_len buffer.new) }
    ensures taken { IfOk result (λ n. TakesFront (S.left source.old) (S.left source.new) (take n buffer.new.items)) }
    ensures end { IfOk result (λ n. n ≡ 0 → IsAtEnd (S.left source.new)) }
    ensures untaken { OnErr result (S.left source.new ≡ S.left source.old) }
    ensures count { IsCount (S.faults source.old) (S.faults source.new) }
    ensures cause { OnErr result (Rose (S.faults source.old) (S.faults source.new)) }
{
    source.read(buffer)
}

/// The bytes of the shortest piece whose lines several threads parse.
const MIN_PIECE: usize = 98_304;

/// The number of a piece's first bytes from which it is judged whether its lines are short.
const SAMPLE: usize = 65_536;

/// Lines with on average fewer bytes than this, line feeds included, are short. Short lines take more memory once parsed
/// than as bytes.
const MIN_LINE: usize = 32;

/// Whether the lines at the front of the piece are short, as blank lines are.
fn has_short_lines(piece: &[u8]) -> bool {
    let front = &piece[..piece.len().min(SAMPLE)];
    front.iter().filter(|b| **b == b'\n').count() > front.len() / MIN_LINE
}

/// How many of these threads parse the lines of the piece: one if the piece is short or its lines are.
fn threads_over(threads: usize, piece: &[u8]) -> usize {
    if piece.len() < MIN_PIECE || has_short_lines(piece) {
        1
    } else {
        threads
    }
}

/// Reads the lines that a piece completes, with up to `threads` threads that parse them; an empty piece ends the input.
pub(crate) fn read_lines<R: Threads + Sync>(
    rt: &R,
    threads: usize,
    lines: &mut Lines,
    piece: &[u8],
) -> Result<Fed, OutOfMemory>
    requires going { lines.old.finished ≡ false }
    ensures items { IfOk result (λ fed. (input_read lines.old.kind false lines.old.bytes).items ++ fed.items.items
        ≡ (input_read lines.old.kind (length piece.now == 0) (lines.old.bytes ++ piece.now)).items) }
    ensures bad { IfOk result (λ fed. fed.bad ≡ (input_read lines.old.kind (length piece.now == 0) (lines.old.bytes ++ piece.now)).bad) }
    ensures valid { IfOk result (λ fed. All (IsValidItem lines.old.kind) fed.items.items) }
    ensures bytes { OnOk result (lines.new.bytes ≡ lines.old.bytes ++ piece.now) }
    ensures kind { lines.new.kind ≡ lines.old.kind }
    ensures finished { OnOk result (lines.new.finished ≡ (length piece.now == 0)) }
{
    if piece.is_empty() {
        lines.finish()
    } else {
        lines.feed_parallel(rt, threads_over(threads, piece), piece)
    }
}

/// Why the reading ends, if it does: an exceeded limit comes before a bad line, and that before the end of the source.
fn end_of(whole: bool, limit: Option<LimitName>, bad: Option<BadLine>) -> Option<InputEnd>
    ensures { result ≡ end_by whole limit bad }
{
    if let Some(limit) = limit {
        return Some(InputEnd::Limit(limit));
    }
    if let Some(bad) = bad {
        return Some(InputEnd::BadLine(bad));
    }
    whole.then_some(InputEnd::End)
}

/// Counts the items of a piece up to the first that exceeds a limit, and keeps those from the starting position on.
pub(crate) fn take(
    alloc: Global,
    factor: u32,
    start: Start,
    whole: bool,
    counted: &mut Counted,
    positions: &mut Positions,
    fed: Fed,
) -> Result<Taken, OutOfMemory>
    requires within { IsWithin counted.old }
    requires few { factor ≤ 10 }
    ensures within { OnOk result (IsWithin counted.new) }
    ensures taken { IfOk result (λ taken. IsTaken factor start whole counted.old counted.new
        positions.old.begun.items positions.new.begun.items fed.items.items fed.bad taken.items.items taken.end) }
{
    let mut items = fed.items;
    let front = counted.count_front(factor, &items)?;
    items.truncate(front.count);
    let kept = positions.keep(alloc, start, items)?;
    Ok(Taken {
        items: kept,
        end: end_of(whole, front.limit, fed.bad),
    })
}
