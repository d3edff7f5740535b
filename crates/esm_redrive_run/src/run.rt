// What a run of a redrive leaves, how its end is reported, and how its devices are taken apart.
ghost use Rattle.std.specs.Prelude.{◌≡◌, IfOk, OnErr, IsErr};
ghost use Rattle.esm_io.specs.Meanings.{disk as meaning};
ghost use Rattle.esm_journal.specs.Pair.{PairKeepsWhileUp, first_disk, second_disk};
ghost use Rattle.esm_journal.specs.State.{KeepsWhileUp, KeepsWhileDown};
ghost use Rattle.esm_journal.specs.Stopped.{PairKeepsWhileDown};
ghost use Rattle.esm_redrive_run.specs.Ending.{HasReason, EndsBy};

use esm_input::InputEnd;
use esm_io::Disk;
use esm_journal::{Journal, Pair};
use esm_journal_state::Says;
use esm_model::{Change, Entry, OutOfMemory, Trouble};
use esm_serial::RunEnd;
use std::snapshot::Snapshot;

/// How the run of a redrive ended.
#[derive(Drop, Debug)]
pub enum RedriveEnd {
    /// Every message that arrived is deleted, including the moved ones; the reading of the input ended for this reason.
    Finished(InputEnd),
    /// All calls allowed were made, and a message is not deleted.
    CallsSpent,
    /// A disk of the journal failed.
    DiskFault,
    /// The dead-letter file failed.
    DestFault,
    /// A message that was found deleted arrived with another id; it is the first such one of the input.
    Changed(Change),
    /// The payload of the dead-letter file with this index, counted from 0, is the first that is not a line of the
    /// queue's kind. Nothing ran.
    BadLine(u32),
}

/// What a run of a redrive leaves: how it ended, its history with the oldest entry first, and what its journal said
/// before; how the reading of its input ended, for the contracts alone, with `None` if the run ended before it did; and
/// the devices as the run left them: the input, the journal with its spare, and the dead-letter file.
#[derive(Drop)]
pub struct RedriveRun<S, D> {
    pub end: Result<RedriveEnd, OutOfMemory>,
    pub trace: Vec<Entry>,
    pub said: Says,
    pub reading: Snapshot<Option<InputEnd>>,
    pub input: S,
    pub journal: D,
    pub spare: D,
    pub dead: D,
}

/// How a run ended, from how its caller's loop ended, the book's trouble, and how the reading ended. Takes no memory: the
/// result is `OutOfMemory` only if the loop ended with it.
pub(crate) fn end_of(
    ran: Result<RunEnd, OutOfMemory>,
    trouble: Option<Trouble>,
    reading: Option<InputEnd>,
) -> Result<RedriveEnd, OutOfMemory>
    requires reason { IfOk ran (HasReason trouble reading) }
    ensures ended { IfOk result (EndsBy ran trouble reading) }
    ensures stopped { OnErr result (IsErr ran) }
{
    match ran {
        Ok(RunEnd::Finished) => match reading {
            Some(why) => Ok(RedriveEnd::Finished(why)),
            None => unreachable!(),
        },
        Ok(RunEnd::Spent) => Ok(RedriveEnd::CallsSpent),
        Ok(RunEnd::Down) => match trouble {
            Some(Trouble::Disk) => Ok(RedriveEnd::DiskFault),
            Some(Trouble::Dest) => Ok(RedriveEnd::DestFault),
            Some(Trouble::Changed(change)) => Ok(RedriveEnd::Changed(change)),
            None => unreachable!(),
        },
        Err(OutOfMemory) => Err(OutOfMemory),
    }
}

/// The run with its devices taken apart.
pub(crate) fn closed<S, D: Disk>(
    end: Result<RedriveEnd, OutOfMemory>,
    trace: Vec<Entry>,
    pair: Pair<D>,
    dead: Journal<D>,
    said: Says,
    reading: Snapshot<Option<InputEnd>>,
    input: S,
) -> RedriveRun<S, D>
    ensures end { result.end ≡ end }
    ensures trace { result.trace ≡ trace }
    ensures said { result.said ≡ said }
    ensures reading { result.reading.value ≡ reading.value }
    ensures input { result.input ≡ input }
    ensures journal { result.journal ≡ first_disk pair }
    ensures spare { result.spare ≡ second_disk pair }
    ensures dead { result.dead ≡ dead.disk }
    ensures pair_kept { PairKeepsWhileUp (meaning D.Disk) pair }
    ensures pair_stopped { PairKeepsWhileDown (meaning D.Disk) pair }
    ensures dead_kept { KeepsWhileUp (meaning D.Disk) dead }
    ensures dead_stopped { KeepsWhileDown (meaning D.Disk) dead }
{
    let _ = pair.payloads();
    let (journal, spare) = pair.into_disks();
    let _ = dead.payloads();
    RedriveRun {
        end,
        trace,
        said,
        reading,
        input,
        journal,
        spare,
        dead: dead.into_disk(),
    }
}
