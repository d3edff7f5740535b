// What a run of a replay leaves, how its end is reported, and how its devices are taken apart.
ghost use Rattle.std.specs.Prelude.{◌≡◌, IfOk, OnErr, IsErr};
ghost use Rattle.esm_io.specs.Meanings.{disk as meaning};
ghost use Rattle.esm_journal.specs.Pair.{PairKeepsWhileUp, first_disk, second_disk};
ghost use Rattle.esm_journal.specs.Stopped.{PairKeepsWhileDown};
ghost use Rattle.esm_replay_run.specs.Ending.{HasReason, EndsBy};

use crate::report::ReplayCounts;
use esm_input::InputEnd;
use esm_io::Disk;
use esm_journal::{Journal, Pair};
use esm_journal_state::Says;
use esm_model::{Change, Entry, OutOfMemory, Trouble};
use esm_serial::RunEnd;
use std::snapshot::Snapshot;

/// How the run of a replay ended.
#[derive(Drop, Debug)]
pub enum ReplayEnd {
    /// Every named record was replayed, or its last call left it; the reading of the input ended for this reason.
    Finished(InputEnd),
    /// All calls allowed were made, and something is left to call.
    CallsSpent,
    /// A disk of the journal failed.
    DiskFault,
    /// A record arrived with another sequence number than was kept of its place; it is the first such record of the
    /// input.
    Changed(Change),
    /// The line of the failure file with this index, counted from 0, is the first that names no records of a shard.
    /// Nothing ran.
    BadLine(u32),
}

/// What a run of a replay leaves: how it ended, its history with the oldest entry first, what its report counts, and what
/// its journal said before; how the reading of its input ended, for the contracts alone, with `None` if the run ended
/// before it did; and the devices as the run left them: the input, the journal with its spare, and the failure file.
#[derive(Drop)]
pub struct ReplayRun<S, D> {
    pub end: Result<ReplayEnd, OutOfMemory>,
    pub trace: Vec<Entry>,
    pub counts: ReplayCounts,
    pub said: Says,
    pub reading: Snapshot<Option<InputEnd>>,
    pub input: S,
    pub journal: D,
    pub spare: D,
    pub failures: D,
}

/// How a run ended, from how its caller's loop ended, the book's trouble, and how the reading ended. Takes no memory: the
/// result is `OutOfMemory` only if the loop ended with it.
pub(crate) fn end_of(
    ran: Result<RunEnd, OutOfMemory>,
    trouble: Option<Trouble>,
    reading: Option<InputEnd>,
) -> Result<ReplayEnd, OutOfMemory>
    requires reason { IfOk ran (HasReason trouble reading) }
    ensures ended { IfOk result (EndsBy ran trouble reading) }
    ensures stopped { OnErr result (IsErr ran) }
{
    match ran {
        Ok(RunEnd::Finished) => match reading {
            Some(why) => Ok(ReplayEnd::Finished(why)),
            None => unreachable!(),
        },
        Ok(RunEnd::Spent) => Ok(ReplayEnd::CallsSpent),
        Ok(RunEnd::Down) => match trouble {
            Some(Trouble::Disk) => Ok(ReplayEnd::DiskFault),
            Some(Trouble::Dest) => unreachable!(),
            Some(Trouble::Changed(change)) => Ok(ReplayEnd::Changed(change)),
            None => unreachable!(),
        },
        Err(OutOfMemory) => Err(OutOfMemory),
    }
}

/// The run with its devices taken apart.
pub(crate) fn closed<S, D: Disk>(
    end: Result<ReplayEnd, OutOfMemory>,
    trace: Vec<Entry>,
    counts: ReplayCounts,
    pair: Pair<D>,
    lines: Journal<D>,
    said: Says,
    reading: Snapshot<Option<InputEnd>>,
    input: S,
) -> ReplayRun<S, D>
    ensures end { result.end ≡ end }
    ensures trace { result.trace ≡ trace }
    ensures counts { result.counts ≡ counts }
    ensures said { result.said ≡ said }
    ensures reading { result.reading.value ≡ reading.value }
    ensures input { result.input ≡ input }
    ensures journal { result.journal ≡ first_disk pair }
    ensures spare { result.spare ≡ second_disk pair }
    ensures failures { result.failures ≡ lines.disk }
    ensures pair_kept { PairKeepsWhileUp (meaning D.Disk) pair }
    ensures pair_stopped { PairKeepsWhileDown (meaning D.Disk) pair }
{
    let _ = pair.payloads();
    let (journal, spare) = pair.into_disks();
    ReplayRun {
        end,
        trace,
        counts,
        said,
        reading,
        input,
        journal,
        spare,
        failures: lines.into_disk(),
    }
}
