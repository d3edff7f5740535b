// The command `show`: what a mapping's journal says.
ghost use Rattle.std.specs.Prelude.{IfOk};
ghost use Rattle.esm_io.specs.Meanings.{disk as meaning};
ghost use Rattle.esm_folder.specs.Opened.{IsJudged};
ghost use Rattle.esm_folder.specs.Upkeep.{AreOnlyRead, IsShowEnd};

use crate::ending::{JournalFile, PairEnded, UpkeepEnd};
use crate::opened::{end_of_file, ended};
use crate::summary::summary_of;
use esm_io::Disk;
use esm_journal::Pair;
use esm_journal_state::{SaysError, says};
use esm_model::{Bytes, OutOfMemory};
use std::alloc::Global;

/// What the payloads say, or the first bad one.
fn show_payloads(alloc: Global, payloads: &[Bytes]) -> Result<UpkeepEnd, OutOfMemory>
    ensures { IfOk result (IsJudged payloads.now) }
{
    match says(alloc, payloads) {
        Ok(said) => {
            let summary = summary_of(alloc, &said)?;
            Ok(UpkeepEnd::Shown(summary))
        }
        Err(SaysError::BadPayload(index)) => Ok(UpkeepEnd::BadPayload {
            file: JournalFile::Journal,
            index,
        }),
        Err(SaysError::OutOfMemory) => Err(OutOfMemory),
    }
}

/// Opens a mapping's journal and its spare, and reports what the payloads say of each shard and of a queue. Nothing is
/// written. Refuses a pair that is none (`NotAJournal`), that is damaged (`Damaged`, with the place) or that has a bad
/// payload (`BadPayload`, with the index of the first); ends with `DiskFault` only if a count of faults rose.
pub fn show<D: Disk>(alloc: Global, journal: D, spare: D) -> PairEnded<D>
    ensures end { IfOk result.end (IsShowEnd (meaning D.Disk) journal spare result.journal result.spare) }
    ensures only_read { AreOnlyRead (meaning D.Disk) journal spare result.journal result.spare }
{
    match Pair::open(alloc, journal, spare) {
        Ok(pair) => {
            let end = show_payloads(alloc, pair.payloads());
            ended(pair, end)
        }
        Err(refused) => {
            let (journal, spare) = refused.back;
            PairEnded {
                end: end_of_file(JournalFile::Journal, refused.why),
                journal,
                spare,
            }
        }
    }
}
