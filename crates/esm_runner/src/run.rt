// What a run of a mapping leaves, the end of a run by that of its batchers, and its devices taken apart.
ghost use Rattle.std.specs.Prelude.{◌≡◌, IfOk, OnErr, IsErr};
ghost use Rattle.esm_io.specs.Meanings.{disk as meaning};
ghost use Rattle.esm_journal.specs.Pair.{PairKeepsWhileUp, first_disk, second_disk};
ghost use Rattle.esm_journal.specs.State.{KeepsWhileUp, KeepsWhileDown};
ghost use Rattle.esm_journal.specs.Stopped.{PairKeepsWhileDown};
ghost use Rattle.esm_runner.specs.Ending.{HasReason, EndsBy};

use esm_input::InputEnd;
use esm_io::Disk;
use esm_journal::{FileDest, Pair};
use esm_journal_state::Says;
use esm_model::{Change, Entry, OutOfMemory, Trouble};
use esm_pool::RunEnd;
use std::snapshot::Snapshot;

/// How the run of a mapping ended.
#[derive(Drop, Debug)]
pub enum MappingEnd {
    /// Every record that arrived has its fate, and no tumbling window is outstanding, or every message that arrived is
    /// deleted; the reading of the input ended for this reason.
    Finished(InputEnd),
    /// All calls allowed were made, and a record is open, or a window outstanding, or a message is not deleted, or the
    /// input, which does not show its bytes, had not ended.
    CallsSpent,
    /// A disk of the journal failed.
    DiskFault,
    /// The failure file failed. No run of a queue ends so, since a queue delivers no lines.
    DestFault,
    /// A record arrived with another sequence number than the journal kept of its place, or a message that was found deleted
    /// with another id; it is the first of the input that did.
    Changed(Change),
}

/// A run of a mapping: how it ended, its history (oldest entry first), what its journal said before, how the reading of its
/// input ended (only for the contracts), and the devices as it left them. `reading` is none if the run left the input
/// before its end.
#[derive(Drop)]
pub struct MappingRun<S, D, F> {
    pub end: Result<MappingEnd, OutOfMemory>,
    pub trace: Vec<Entry>,
    pub said: Says,
    pub reading: Snapshot<Option<InputEnd>>,
    pub input: S,
    pub journal: D,
    pub spare: D,
    pub failures: D,
    pub callers: Vec<F>,
}

/// The disks as they were handed in, only for the contracts.
#[derive(Drop)]
pub(crate) struct Before<D> {
    pub journal: Snapshot<D>,
    pub spare: Snapshot<D>,
    pub failures: Snapshot<D>,
}

/// Returns the end of a run whose batchers ended so, with this trouble of the book and this end of the reading. Takes no
/// memory: it returns `OutOfMemory` only if the batchers ended with it.
pub(crate) fn end_of(
    ran: Result<RunEnd, OutOfMemory>,
    trouble: Option<Trouble>,
    reading: Option<InputEnd>,
) -> Result<MappingEnd, OutOfMemory>
    requires reason { IfOk ran (HasReason trouble reading) }
    ensures ended { IfOk result (EndsBy ran trouble reading) }
    ensures stopped { OnErr result (IsErr ran) }
{
    match ran {
        Ok(RunEnd::Finished) => match reading {
            Some(why) => Ok(MappingEnd::Finished(why)),
            None => unreachable!(),
        },
        Ok(RunEnd::Spent) => Ok(MappingEnd::CallsSpent),
        Ok(RunEnd::Down) => match trouble {
            Some(Trouble::Disk) => Ok(MappingEnd::DiskFault),
            Some(Trouble::Dest) => Ok(MappingEnd::DestFault),
            Some(Trouble::Changed(change)) => Ok(MappingEnd::Changed(change)),
            None => unreachable!(),
        },
        Err(OutOfMemory) => Err(OutOfMemory),
    }
}

/// Makes the result of the run, with its devices taken apart.
pub(crate) fn closed<S, F, D: Disk>(
    end: Result<MappingEnd, OutOfMemory>,
    trace: Vec<Entry>,
    pair: Pair<D>,
    dest: FileDest<D>,
    said: Says,
    reading: Snapshot<Option<InputEnd>>,
    input: S,
    callers: Vec<F>,
) -> MappingRun<S, D, F>
    ensures end { result.end ≡ end }
    ensures trace { result.trace ≡ trace }
    ensures said { result.said ≡ said }
    ensures reading { result.reading.value ≡ reading.value }
    ensures input { result.input ≡ input }
    ensures callers { result.callers ≡ callers }
    ensures journal { result.journal ≡ first_disk pair }
    ensures spare { result.spare ≡ second_disk pair }
    ensures failures { result.failures ≡ dest.disk }
    ensures pair_kept { PairKeepsWhileUp (meaning D.Disk) pair }
    ensures pair_stopped { PairKeepsWhileDown (meaning D.Disk) pair }
    ensures dest_kept { KeepsWhileUp (meaning D.Disk) dest }
    ensures dest_stopped { KeepsWhileDown (meaning D.Disk) dest }
{
    let _ = pair.payloads();
    let (journal, spare) = pair.into_disks();
    let lines = dest.into_journal();
    let _ = lines.payloads();
    MappingRun {
        end,
        trace,
        said,
        reading,
        input,
        journal,
        spare,
        failures: lines.into_disk(),
        callers,
    }
}
