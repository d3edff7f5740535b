// How a command over a folder's journals ended, with the file that is refused and the exit status.
ghost use Rattle.std.specs.Prelude.{◌≡◌};
ghost use Rattle.esm_folder.specs.UpkeepText.{file_name, upkeep_status};

use crate::summary::Summary;
use esm_model::{Bytes, OutOfMemory};

/// The exit status if a file is no journal, is damaged, or has a bad payload.
const REFUSED: u8 = 8;

/// The exit status if a disk failed.
const DISK_FAULT: u8 = 6;

/// A file of a folder, as a refusal names it. A pair is named by its journal.
#[derive(Clone, Copy, Debug, PartialEq, Eq)]
pub enum JournalFile {
    Journal,
    Failures,
}

impl JournalFile {
    /// The name, as in `journal.esm`.
    pub fn name(self) -> &'static str
        ensures { result.now ≡ file_name self }
    {
        match self {
            JournalFile::Journal => "journal.esm",
            JournalFile::Failures => "failures.esm",
        }
    }
}

/// How a command over a folder's journals ended.
#[derive(Drop)]
pub enum UpkeepEnd {
    /// What the journal says, for `show`.
    Shown(Summary),
    /// The lines of the failure file, each with its line feed, for `failures`.
    Listed { lines: Bytes },
    /// The journal's payloads, `before` in number, were rewritten as `after`.
    Compacted { before: u64, after: u64 },
    /// This many payloads were brought to version 2.
    Migrated { count: u64 },
    /// The pair is of version 2 already.
    WasVersion2,
    /// The file does not begin with a journal's header; of a pair, neither file is in use.
    NotAJournal { file: JournalFile },
    /// The file is damaged at this place, in bytes from its start.
    Damaged { file: JournalFile, place: u64 },
    /// The payload with this index, counted from 0, is the first that is no payload of a mapping's journal, or that is bad
    /// after those before it.
    BadPayload { file: JournalFile, index: u32 },
    /// A call of a disk failed: its count of faults rose.
    DiskFault,
}

impl UpkeepEnd {
    /// The exit status: 0 done, 6 a disk failed, 8 a file is refused.
    pub fn status(&self) -> u8
        ensures { result ≡ upkeep_status self.now }
    {
        match self {
            UpkeepEnd::Shown(_)
            | UpkeepEnd::Listed { .. }
            | UpkeepEnd::Compacted { .. }
            | UpkeepEnd::Migrated { .. }
            | UpkeepEnd::WasVersion2 => 0,
            UpkeepEnd::NotAJournal { .. }
            | UpkeepEnd::Damaged { .. }
            | UpkeepEnd::BadPayload { .. } => REFUSED,
            UpkeepEnd::DiskFault => DISK_FAULT,
        }
    }
}

/// How a command over a pair ended, and the two disks as it left them, in the order in which they were handed in.
#[derive(Drop)]
pub struct PairEnded<D> {
    pub end: Result<UpkeepEnd, OutOfMemory>,
    pub journal: D,
    pub spare: D,
}

/// How a command over a single journal ended, and its disk as it left it.
#[derive(Drop)]
pub struct FileEnded<D> {
    pub end: Result<UpkeepEnd, OutOfMemory>,
    pub disk: D,
}
