// Turning the lines of a piece on several threads side by side.
ghost use Rattle.std.specs.Prelude.{◌≡◌, ℕ, List, ◌++◌, [], OnOk, IsNone};
ghost use Rattle.std.specs.List.{concat};
ghost use Rattle.esm_record.specs.Input.{begun, lines_of};
ghost use Rattle.esm_ddb.specs.Blocks.{IsTurnedBlock};
ghost use Rattle.esm_ddb.specs.States.{state_of};
ghost use Rattle.esm_ddb.specs.Translating.{HasRead, Stands};
ghost use Rattle.esm_ddb.specs.Translation.{Translation, add_line, line_feed};

use crate::block::{Block, counted_on, turn_lines};
use crate::splitter::Splitter;
use crate::text_pieces::push_piece;
use esm_model::{Bytes, OutOfMemory};
use esm_record::line_blocks::{ended_lines, first_line};
use json::Scratch;
use std::alloc::Global;
use std::thread::Threads;

/// Appends what the lines of a block were turned into; the block follows the lines that were read, and no line is
/// unfinished.
fn take_block(
    reading: &mut Splitter,
    pieces: &mut Vec<Bytes>,
    block: Block,
) -> Result<(), OutOfMemory>
    requires going { IsNone reading.old.bad }
    requires fresh { reading.old.begun.items ≡ [] }
    ensures read { OnOk result ((bytes lines before : List ℕ) → begun (lines_of lines) ≡ []
        → IsTurnedBlock reading.old.source lines block
        → HasRead bytes before (concat pieces.old.items) (state_of reading.old)
        → HasRead (bytes ++ lines) before (concat pieces.new.items) (state_of reading.new)) }
    ensures source { reading.new.source ≡ reading.old.source }
{
    let counted = counted_on(reading.good, block.good, block.bad)?;
    let Block {
        pieces: mut more,
        ..
    } = block;
    pieces.append(&mut more)?;
    reading.good = counted.good;
    reading.bad = counted.bad;
    Ok(())
}

/// Ends the unfinished line with this rest, behind which its line feed was found.
fn end_begun(
    alloc: Global,
    reading: &mut Splitter,
    pieces: &mut Vec<Bytes>,
    rest: &[u8],
) -> Result<(), OutOfMemory>
    requires going { IsNone reading.old.bad }
    ensures stands { OnOk result ((t : Translation) (before : List ℕ) → Stands t before (concat pieces.old.items) (state_of reading.old)
        → Stands (add_line reading.old.source line_feed t (reading.old.begun.items ++ rest.now)) before (concat pieces.new.items)
        (state_of reading.new)) }
    ensures ended { OnOk result (IsNone reading.new.bad → reading.new.begun.items ≡ []) }
    ensures source { reading.new.source ≡ reading.old.source }
{
    let mut scratch = Scratch::new(alloc);
    let mut out = Vec::new(alloc);
    reading.end_line(alloc, &mut scratch, &mut out, rest, b"\n")?;
    push_piece(pieces, Bytes::from_vec(out))
}

/// Turns lines that all end with a line feed, where no line is unfinished, up to the first bad one, on up to `threads`
/// threads.
fn read_lines<R: Threads + Sync>(
    rt: &R,
    alloc: Global,
    threads: usize,
    reading: &mut Splitter,
    pieces: &mut Vec<Bytes>,
    lines: &[u8],
) -> Result<(), OutOfMemory>
    requires going { IsNone reading.old.bad }
    requires fresh { reading.old.begun.items ≡ [] }
    requires whole { begun (lines_of lines.now) ≡ [] }
    ensures read { OnOk result ((bytes before : List ℕ) → HasRead bytes before (concat pieces.old.items) (state_of reading.old)
        → HasRead (bytes ++ lines.now) before (concat pieces.new.items) (state_of reading.new)) }
    ensures source { reading.new.source ≡ reading.old.source }
{
    let block = turn_lines(rt, alloc, &reading.source, threads, lines)?;
    take_block(reading, pieces, block)
}

/// Turns the lines that this piece ends, where no line is unfinished, and begins the next one; nothing after a bad line.
fn read_ended<R: Threads + Sync>(
    rt: &R,
    alloc: Global,
    threads: usize,
    reading: &mut Splitter,
    pieces: &mut Vec<Bytes>,
    piece: &[u8],
) -> Result<(), OutOfMemory>
    requires going { IsNone reading.old.bad }
    requires fresh { reading.old.begun.items ≡ [] }
    ensures read { OnOk result ((bytes before : List ℕ) → HasRead bytes before (concat pieces.old.items) (state_of reading.old)
        → HasRead (bytes ++ piece.now) before (concat pieces.new.items) (state_of reading.new)) }
    ensures source { reading.new.source ≡ reading.old.source }
{
    let (lines, rest) = ended_lines(piece);
    read_lines(rt, alloc, threads, reading, pieces, lines)?;
    if reading.bad.is_some() {
        return Ok(());
    }
    reading.begin_line(rest)
}

/// Turns the lines that this piece ends, up to the first bad one: first the unfinished line, then the others.
fn read_blocks<R: Threads + Sync>(
    rt: &R,
    alloc: Global,
    threads: usize,
    reading: &mut Splitter,
    pieces: &mut Vec<Bytes>,
    piece: &[u8],
) -> Result<(), OutOfMemory>
    requires going { IsNone reading.old.bad }
    ensures read { OnOk result ((bytes before : List ℕ) → HasRead bytes before (concat pieces.old.items) (state_of reading.old)
        → HasRead (bytes ++ piece.now) before (concat pieces.new.items) (state_of reading.new)) }
    ensures source { reading.new.source ≡ reading.old.source }
{
    if reading.begun.is_empty() {
        return read_ended(rt, alloc, threads, reading, pieces, piece);
    }
    let Some((line, after)) = first_line(piece) else {
        return reading.begin_line(piece);
    };
    end_begun(alloc, reading, pieces, line)?;
    if reading.bad.is_some() {
        return Ok(());
    }
    read_ended(rt, alloc, threads, reading, pieces, after)
}

/// Turns the lines that this piece ends, on up to `threads` threads side by side, and appends the turned lines; nothing
/// after a bad line.
pub fn read_parallel<R: Threads + Sync>(
    rt: &R,
    alloc: Global,
    threads: usize,
    reading: &mut Splitter,
    pieces: &mut Vec<Bytes>,
    piece: &[u8],
) -> Result<(), OutOfMemory>
    ensures read { OnOk result ((bytes before : List ℕ) → HasRead bytes before (concat pieces.old.items) (state_of reading.old)
        → HasRead (bytes ++ piece.now) before (concat pieces.new.items) (state_of reading.new)) }
    ensures source { reading.new.source ≡ reading.old.source }
{
    if reading.bad.is_some() {
        return Ok(());
    }
    read_blocks(rt, alloc, threads, reading, pieces, piece)
}
