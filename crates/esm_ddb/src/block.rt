// Blocks of lines that are turned side by side, each on its own, and then put together in order.
ghost use Rattle.std.specs.Prelude.{◌≡◌, ◌+◌, ◌++◌, [], ℕ, List, IfOk};
ghost use Rattle.std.specs.Thread.{IsSync};
ghost use Rattle.esm_record.specs.Input.{lines_of, begun};
ghost use Rattle.esm_ddb.specs.Blocks.{IsTurnedBlock, behind};
ghost use Rattle.esm_ddb.specs.declared.source.Source.{Source as Stream};

use crate::error::DdbLine;
use crate::source::Source;
use crate::splitter::{GROWTH, Splitter};
use crate::text_pieces::push_piece;
use esm_model::{Bytes, OutOfMemory};
use esm_record::line_blocks::{lines_up_to, share_of, threads_worth};
use std::alloc::Global;
use std::thread::{Threads, join};

/// What the lines of a block became up to the first bad one, in pieces; how many of them are good; and the first bad one,
/// counted from 1 in the block.
#[derive(Drop)]
pub struct Block {
    pub pieces: Vec<Bytes>,
    pub good: u64,
    pub bad: Option<DdbLine>,
}

/// The number of good lines, and the first bad one.
#[derive(Clone, Copy)]
pub struct Counted {
    pub good: u64,
    pub bad: Option<DdbLine>,
}

/// The count of the lines up to the end of a block, whose lines follow `before` good ones.
pub fn counted_on(before: u64, good: u64, bad: Option<DdbLine>) -> Result<Counted, OutOfMemory>
    ensures good { IfOk result (λ counted. counted.good ≡ before + good) }
    ensures bad { IfOk result (λ counted. counted.bad ≡ behind before bad) }
{
    let Some(all) = before.checked_add(good) else {
        return Err(OutOfMemory);
    };
    let Some(bad) = bad else {
        return Ok(Counted {
            good: all,
            bad: None,
        });
    };
    let Some(line) = before.checked_add(bad.line) else {
        return Err(OutOfMemory);
    };
    Ok(Counted {
        good: all,
        bad: Some(DdbLine { line, why: bad.why }),
    })
}

/// Turns the ended lines of the block, up to the first bad one.
fn turn_block(alloc: Global, source: &Source, lines: &[u8]) -> Result<Block, OutOfMemory>
    ensures { IfOk result (λ block. IsTurnedBlock source.now lines.now block) }
{
    let mut reading = Splitter::new(alloc, source.copy(alloc)?);
    let mut out = Vec::with_capacity(alloc, lines.len().saturating_mul(GROWTH))?;
    reading.read_more(alloc, &mut out, lines)?;
    let mut pieces = Vec::new(alloc);
    push_piece(&mut pieces, Bytes::from_vec(out))?;
    Ok(Block {
        pieces,
        good: reading.good,
        bad: reading.bad,
    })
}

impl Block {
    /// What its lines and then those of the next block are turned into; nothing after a bad line.
    fn with_next(self, next: Block) -> Result<Block, OutOfMemory>
        ensures { (s : Stream) (xs ys : List ℕ) → begun (lines_of xs) ≡ [] → IsTurnedBlock s xs self
            → IsTurnedBlock s ys next → IfOk result (λ block. IsTurnedBlock s (xs ++ ys) block) }
    {
        if self.bad.is_some() {
            return Ok(self);
        }
        let counted = counted_on(self.good, next.good, next.bad)?;
        let Block { mut pieces, .. } = self;
        let Block {
            pieces: mut more,
            ..
        } = next;
        pieces.append(&mut more)?;
        Ok(Block {
            pieces,
            good: counted.good,
            bad: counted.bad,
        })
    }
}

/// What the lines of both parts are turned into.
fn both(
    front: Result<Block, OutOfMemory>,
    back: Result<Block, OutOfMemory>,
) -> Result<Block, OutOfMemory>
    ensures { (s : Stream) (xs ys : List ℕ) → begun (lines_of xs) ≡ [] → IfOk front (λ block. IsTurnedBlock s xs block)
        → IfOk back (λ block. IsTurnedBlock s ys block) → IfOk result (λ block. IsTurnedBlock s (xs ++ ys) block) }
{
    let block = front?;
    block.with_next(back?)
}

/// Turns the lines of the block on `threads` threads side by side, this one among them, in blocks of about equal length.
#[cycle(blocks)]
fn turn_blocks<R: Threads + Sync>(
    rt: &R,
    alloc: Global,
    source: &Source,
    threads: usize,
    lines: &[u8],
) -> Result<Block, OutOfMemory>
    ensures { IfOk result (λ block. IsTurnedBlock source.now lines.now block) }
{
    if threads < 2 {
        return turn_block(alloc, source, lines);
    }
    let few = threads / 2;
    let others = threads - few;
    let (front, back) = lines_up_to(lines, share_of(lines.len(), threads, few));
    let first = move || -> Result<Block, OutOfMemory>
        requires { IsSync R.row }
        ensures { IfOk result (λ block. IsTurnedBlock source.entry.now front.entry.now block) }
    { turn_blocks(rt, alloc, source, few, front) };
    let second = move || -> Result<Block, OutOfMemory>
        requires { IsSync R.row }
        ensures { IfOk result (λ block. IsTurnedBlock source.entry.now back.entry.now block) }
    { turn_blocks(rt, alloc, source, others, back) };
    let (ahead, after) = join(rt, first, second);
    both(ahead, after)
}

/// Turns the ended lines of the block, up to the first bad one, on up to `threads` threads side by side.
pub fn turn_lines<R: Threads + Sync>(
    rt: &R,
    alloc: Global,
    source: &Source,
    threads: usize,
    lines: &[u8],
) -> Result<Block, OutOfMemory>
    ensures { IfOk result (λ block. IsTurnedBlock source.now lines.now block) }
{
    let threads = threads_worth(lines.len(), threads);
    turn_blocks(rt, alloc, source, threads, lines)
}
