// Reading what a journal's payloads say, and which records the lines of the failure file name.
ghost use Rattle.std.specs.Prelude.{◌≡◌, true, IfOk, IfErr, OnOk, reverse};
ghost use Rattle.esm_model.specs.Valid.{IsStreamConfig};
ghost use Rattle.esm_journal_state.specs.Meaning.{history, are_good};
ghost use Rattle.esm_journal_state.specs.SaidLists.{IsInOrder};
ghost use Rattle.esm_journal_state.specs.Tells.{Tells};
ghost use Rattle.esm_replay_book.specs.Opening.{GiveRanges, IsBadPayloads, IsBadLines, IsCoreOf, IsLineError, IsTaken};

use esm_journal_state::{Says, SaysError, says};
use esm_model::{Bytes, Config, OutOfMemory, Refused};
use esm_replay::{Ranges, read_failure};
use esm_replay_core::ReplayCore;
use esm_replay_model::Range;
use std::alloc::Global;

/// Why a replay's book was not opened.
#[derive(Clone, Copy, Debug, PartialEq, Eq)]
pub enum ReplayOpen {
    /// The payload with this index, counted from 0, is the first of the journal that is bad for a book.
    BadPayload(u32),
    /// The line with this index, counted from 0, is the first of the failure file that names no records of a shard.
    BadLine(u32),
    OutOfMemory,
}

impl From<OutOfMemory> for ReplayOpen {
    ghost use Rattle.std.specs.Prelude.{◌≡◌};
    ghost use Rattle.esm_replay_book.specs.declared.opening.ReplayOpen.{ReplayOpen};

    ghost from_gives = { λ _ e. e ≡ ReplayOpen.OutOfMemory };

    fn from(_: OutOfMemory) -> Self {
        ReplayOpen::OutOfMemory
    }
}

/// What the payloads say; the payloads are oldest first.
pub(crate) fn read_journal(alloc: Global, payloads: &[Bytes]) -> Result<Says, ReplayOpen>
    ensures told { IfOk result (λ said. Tells said (history (reverse payloads.now))) }
    ensures order { IfOk result (λ said. IsInOrder said) }
    ensures good { OnOk result (are_good (reverse payloads.now) ≡ true) }
    ensures bad { IfErr result (IsBadPayloads payloads.now) }
{
    match says(alloc, payloads) {
        Ok(said) => Ok(said),
        Err(SaysError::BadPayload(index)) => Err(ReplayOpen::BadPayload(index)),
        Err(SaysError::OutOfMemory) => Err(ReplayOpen::OutOfMemory),
    }
}

/// The error that names the line with this index; `OutOfMemory` if 32 bits do not count it, since no memory holds so
/// many.
fn bad_line(index: usize) -> ReplayOpen
    ensures { IsLineError index result }
{
    match u32::try_from(index) {
        Ok(index) => ReplayOpen::BadLine(index),
        Err(_) => ReplayOpen::OutOfMemory,
    }
}

/// Adds the range that one more line names. Returns whether it names one.
fn take(alloc: Global, ranges: &mut Vec<Range>, line: &[u8]) -> Result<bool, OutOfMemory>
    ensures { IfOk result (IsTaken line.now ranges.old.items ranges.new.items) }
{
    let Some(range) = read_failure(alloc, line)? else {
        return Ok(false);
    };
    ranges.push(range)?;
    Ok(true)
}

/// The ranges of the lines, in their order.
fn read_lines(alloc: Global, lines: &[Bytes]) -> Result<Vec<Range>, ReplayOpen>
    ensures given { IfOk result (λ ranges. GiveRanges lines.now ranges.items) }
    ensures bad { IfErr result (IsBadLines lines.now) }
{
    let mut ranges = Vec::new(alloc);
    for (index, line) in lines.iter().enumerate() {
        if !take(alloc, &mut ranges, line.as_slice())? {
            return Err(bad_line(index));
        }
    }
    Ok(ranges)
}

/// The ranges of the lines, as an index that finds a record.
fn ranges_of(alloc: Global, lines: &[Bytes]) -> Result<Ranges, ReplayOpen>
    ensures given { IfOk result (λ ranges. GiveRanges lines.now ranges) }
    ensures bad { IfErr result (IsBadLines lines.now) }
{
    let ranges = read_lines(alloc, lines)?;
    Ok(Ranges::new(alloc, ranges)?)
}

/// The core of a book over a journal that said this, for the records that these lines name.
pub(crate) fn core_over(
    alloc: Global,
    config: Config,
    calls: u32,
    said: Says,
    lines: &[Bytes],
) -> Result<ReplayCore, Refused<ReplayOpen, Says>>
    requires config { IsStreamConfig config }
    ensures opened { IfOk result (IsCoreOf config calls said lines.now) }
    ensures refused { IfErr result (λ refused. IsBadLines lines.now refused.why) }
    ensures back { IfErr result (λ refused. refused.back ≡ said) }
{
    match ranges_of(alloc, lines) {
        Err(why) => Err(Refused { why, back: said }),
        Ok(ranges) => match ReplayCore::new(alloc, config, calls, said, ranges) {
            Ok(core) => Ok(core),
            Err(refused) => Err(Refused {
                why: ReplayOpen::OutOfMemory,
                back: refused.back,
            }),
        },
    }
}
