// What every command does once a file was opened or refused.
ghost use Rattle.std.specs.Prelude.{◌≡◌};
ghost use Rattle.esm_journal.specs.Pair.{first_disk, second_disk};
ghost use Rattle.esm_folder.specs.Opened.{end_of_file, end_of_payloads};

use crate::ending::{JournalFile, PairEnded, UpkeepEnd};
use esm_io::Disk;
use esm_journal::{OpenError, Pair};
use esm_journal_state::SaysError;
use esm_model::OutOfMemory;

/// How a command ends if the file was not opened.
pub fn end_of_file(file: JournalFile, why: OpenError) -> Result<UpkeepEnd, OutOfMemory>
    ensures { result ≡ end_of_file file why }
{
    match why {
        OpenError::NotAJournal(_) => Ok(UpkeepEnd::NotAJournal { file }),
        OpenError::Damaged(place) => Ok(UpkeepEnd::Damaged { file, place }),
        OpenError::DiskFault => Ok(UpkeepEnd::DiskFault),
        OpenError::OutOfMemory => Err(OutOfMemory),
    }
}

/// How a command ends if a payload of a mapping's journal is bad.
pub fn end_of_payloads(why: SaysError) -> Result<UpkeepEnd, OutOfMemory>
    ensures { result ≡ end_of_payloads why }
{
    match why {
        SaysError::BadPayload(index) => Ok(UpkeepEnd::BadPayload {
            file: JournalFile::Journal,
            index,
        }),
        SaysError::OutOfMemory => Err(OutOfMemory),
    }
}

/// The end, and the disks of the pair.
pub fn ended<D: Disk>(pair: Pair<D>, end: Result<UpkeepEnd, OutOfMemory>) -> PairEnded<D>
    ensures end { result.end ≡ end }
    ensures journal { result.journal ≡ first_disk pair }
    ensures spare { result.spare ≡ second_disk pair }
{
    let (journal, spare) = pair.into_disks();
    PairEnded {
        end,
        journal,
        spare,
    }
}
