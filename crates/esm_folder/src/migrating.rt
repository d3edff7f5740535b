// The command `migrate`: from version 1 to version 2.
ghost use Rattle.std.specs.Prelude.{IfOk};
ghost use Rattle.esm_io.specs.Meanings.{disk as meaning};
ghost use Rattle.esm_folder.specs.Opened.{IsJudgedMigration};
ghost use Rattle.esm_folder.specs.Upkeep.{AreKept, IsMigrateEnd, IsMigrating};

use crate::ending::{JournalFile, PairEnded, UpkeepEnd};
use crate::opened::{end_of_file, ended};
use esm_io::Disk;
use esm_journal::Pair;
use esm_journal_state::{SaysError, says};
use esm_model::{Bytes, OutOfMemory};
use std::alloc::Global;

/// How a migration of these payloads ended: the pair was of version 1 or 2, or a payload is bad.
fn judge(alloc: Global, payloads: &[Bytes], was: u8) -> Result<UpkeepEnd, OutOfMemory>
    ensures { IfOk result (IsJudgedMigration payloads.now was) }
{
    match says(alloc, payloads) {
        Ok(_) if was == 2 => Ok(UpkeepEnd::WasVersion2),
        Ok(_) => Ok(UpkeepEnd::Migrated {
            count: payloads.len() as u64,
        }),
        Err(SaysError::BadPayload(index)) => Ok(UpkeepEnd::BadPayload {
            file: JournalFile::Journal,
            index,
        }),
        Err(SaysError::OutOfMemory) => Err(OutOfMemory),
    }
}

/// Brings a mapping's journal and its spare to version 2, and judges the payloads; a pair of version 2 is only read. Ends
/// with `BadPayload` and the index of the first bad payload, if there is one, which is in the new list as it was. Refuses a
/// pair that is none (`NotAJournal`) or is damaged (`Damaged`, with the place), and then nothing was written; ends with
/// `DiskFault` only if a count of faults rose. If each disk of version 1 had one image before, as a synced one has, a crash
/// at any moment leaves a pair that opens as version 1 or as version 2 to the same list.
pub fn migrate<D: Disk>(alloc: Global, journal: D, spare: D) -> PairEnded<D>
    ensures end { IfOk result.end (IsMigrateEnd (meaning D.Disk) journal spare result.journal result.spare) }
    ensures images { IsMigrating (meaning D.Disk) journal spare result.journal result.spare }
    ensures kept { AreKept (meaning D.Disk) journal spare result.journal result.spare }
{
    match Pair::migrate(alloc, journal, spare) {
        Ok(migrated) => {
            let end = judge(alloc, migrated.pair.payloads(), migrated.was);
            ended(migrated.pair, end)
        }
        Err(refused) => {
            let (journal, spare) = refused.back;
            PairEnded {
                end: end_of_file(JournalFile::Journal, refused.why),
                journal,
                spare,
            }
        }
    }
}
