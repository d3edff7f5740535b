// The endings of a run.
use esm_model::{Change, FileName, LimitName, Text};

/// How the run of a mapping ended, or why nothing ran.
#[derive(Drop, Debug)]
pub enum Ending {
    /// Everything that arrived has its fate.
    Done,
    /// All calls that `--calls` allows were made.
    CallsSpent,
    /// The command line was refused; nothing ran.
    BadWords,
    /// A line of the input was refused: its number, counted from 1, and the reason.
    BadLine { number: u64, why: Text },
    /// The input failed.
    InputFault,
    /// A disk of the journal failed during the run.
    DiskFault,
    /// A disk failed while the files were opened; nothing ran.
    OpenFault,
    /// The failure destination failed during the run.
    DestFault,
    /// The file is no journal; nothing ran.
    NotAJournal { file: FileName },
    /// The file is damaged at this place, in bytes from its start; nothing ran.
    Damaged { file: FileName, place: u64 },
    /// The file's payload with this index, counted from 0, is the first that no book could have written; nothing ran.
    BadPayload { file: FileName, index: u32 },
    /// A record of the stream has another text than the journal kept of it.
    StreamChanged(Change),
    /// The registry has no such mapping; nothing ran.
    UnknownMapping,
    /// The mapping is disabled; nothing ran.
    DisabledMapping,
    /// The named field of the mapping was refused; nothing ran.
    BadParameter { name: Text },
    /// The input exceeds a limit of the engine.
    Limit(LimitName),
}
