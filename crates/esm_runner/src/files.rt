// The files of a run: the journal with its spare, and the failure file.
ghost use Rattle.std.specs.Prelude.{◌≡◌, IfOk, IfErr};
ghost use Rattle.esm_io.specs.Meanings.{disk as meaning};
ghost use Rattle.esm_runner.specs.Files.{FilesState, IsOpenedFiles, AreRefused, AreClosed};
ghost use Rattle.esm_runner.specs.Openings.{refusal_of, IsPairOpened, IsPairRefused};

use esm_folder::JournalFile;
use esm_io::Disk;
use esm_journal::{FileDest, Journal, OpenError, Pair};
use esm_journal_state::{Says, SaysError, says};
use esm_model::{OutOfMemory, Refused};
use std::alloc::Global;
use std::marker::Model;
use std::snapshot::Snapshot;

/// The opened files of a run: the journal with what its payloads say, and the failure file as a destination. Contracts also
/// see the disks as they were handed in.
#[derive(Drop)]
pub struct Files<D: Disk> {
    pub(crate) pair: Pair<D>,
    pub(crate) said: Says,
    pub(crate) dest: FileDest<D>,
    pub(crate) journal: Snapshot<D>,
    pub(crate) spare: Snapshot<D>,
    pub(crate) failures: Snapshot<D>,
}

impl<D: Disk> Model for Files<D> {
    ghost use Rattle.esm_io.specs.Meanings.{disk as meaning};
    ghost use Rattle.esm_runner.specs.Files.{FilesState, AreOpen};

    ghost Value = { FilesState D };

    ghost view = { λ f. record { journal = f.journal.value; spare = f.spare.value; failures = f.failures.value; pair = f.pair; said = f.said; dest = f.dest } };

    ghost invariant = { λ f. AreOpen (meaning D.Disk)
        (record { journal = f.journal.value; spare = f.spare.value; failures = f.failures.value; pair = f.pair; said = f.said; dest = f.dest }) };
}

/// The opened files of a run, taken apart, with the disks as they were handed in, only for the contracts.
#[derive(Drop)]
pub struct FilesParts<D: Disk> {
    pub pair: Pair<D>,
    pub said: Says,
    pub dest: FileDest<D>,
    pub journal: Snapshot<D>,
    pub spare: Snapshot<D>,
    pub failures: Snapshot<D>,
}

/// Why the files of a run were not opened.
#[derive(Clone, Copy, Debug, PartialEq, Eq)]
pub enum FilesError {
    /// The file does not begin with a journal's header; if it is the journal, neither file of the pair is taken.
    NotAJournal { file: JournalFile },
    /// The file is damaged at this place, in bytes from its start.
    Damaged { file: JournalFile, place: u64 },
    /// The journal's payload with this index, counted from 0, is the first that no book could have written.
    BadPayload { index: u32 },
    /// A disk's count of faults rose.
    DiskFault,
    OutOfMemory,
}

impl From<OutOfMemory> for FilesError {
    fn from(_: OutOfMemory) -> FilesError
        ensures { result ≡ FilesError.OutOfMemory }
    {
        FilesError::OutOfMemory
    }
}

impl<D: Disk> Files<D> {
    /// States what is true of opened files. Does nothing.
    pub fn keeps(&self)
        ensures { IsOpenedFiles (meaning D.Disk) self.now }
    {
        let _ = &self.said;
    }

    /// Takes the files apart, with the disks as they were handed in. No call is made on them.
    pub fn into_parts(self) -> FilesParts<D>
        ensures pair { result.pair ≡ self.pair }
        ensures said { result.said ≡ self.said }
        ensures dest { result.dest ≡ self.dest }
        ensures before { (result.journal.value ≡ self.journal) × (result.spare.value ≡ self.spare) × (result.failures.value ≡ self.failures) }
        ensures opened { IsOpenedFiles (meaning D.Disk) self }
    {
        let Files {
            pair,
            said,
            dest,
            journal,
            spare,
            failures,
        } = self;
        FilesParts {
            pair,
            said,
            dest,
            journal,
            spare,
            failures,
        }
    }

    /// Returns the disks as they were left: journal, spare and failure file. Nothing was written to them.
    pub fn close(self) -> (D, D, D)
        ensures { AreClosed (meaning D.Disk) self result.0 result.1 result.2 }
    {
        let Files {
            pair,
            said: _,
            dest,
            journal: _,
            spare: _,
            failures: _,
        } = self;
        let (journal, spare) = pair.into_disks();
        (journal, spare, dest.into_journal().into_disk())
    }
}

/// A pair that was opened, with what its payloads say.
#[derive(Drop)]
struct OpenedPair<D: Disk> {
    pair: Pair<D>,
    said: Says,
    journal: Snapshot<D>,
    spare: Snapshot<D>,
}

/// Turns the reason why a file was not opened into that of the run's files.
fn refusal(file: JournalFile, why: OpenError) -> FilesError
    ensures { result ≡ refusal_of file why }
{
    match why {
        OpenError::NotAJournal(_) => FilesError::NotAJournal { file },
        OpenError::Damaged(place) => FilesError::Damaged { file, place },
        OpenError::DiskFault => FilesError::DiskFault,
        OpenError::OutOfMemory => FilesError::OutOfMemory,
    }
}

/// Opens the journal with its spare, and judges its payloads.
fn open_pair<D: Disk>(
    alloc: Global,
    journal: D,
    spare: D,
) -> Result<OpenedPair<D>, Refused<FilesError, (D, D)>>
    ensures disks { IfOk result (λ opened. (opened.journal.value ≡ journal) × (opened.spare.value ≡ spare)) }
    ensures opened { IfOk result (λ opened. IsPairOpened (meaning D.Disk) journal spare opened.pair opened.said) }
    ensures refused { IfErr result (λ refused. IsPairRefused (meaning D.Disk)
        journal spare refused.back.0 refused.back.1 refused.why) }
{
    let before = Snapshot::of(&journal);
    let spare_before = Snapshot::of(&spare);
    match Pair::open(alloc, journal, spare) {
        Ok(pair) => match says(alloc, pair.payloads()) {
            Ok(said) => Ok(OpenedPair {
                pair,
                said,
                journal: before,
                spare: spare_before,
            }),
            Err(SaysError::BadPayload(index)) => Err(Refused {
                why: FilesError::BadPayload { index },
                back: pair.into_disks(),
            }),
            Err(SaysError::OutOfMemory) => Err(Refused {
                why: FilesError::OutOfMemory,
                back: pair.into_disks(),
            }),
        },
        Err(refused) => Err(Refused {
            why: refusal(JournalFile::Journal, refused.why),
            back: refused.back,
        }),
    }
}

/// Opens the failure file, after the pair was opened.
fn open_failures<D: Disk>(
    alloc: Global,
    opened: OpenedPair<D>,
    failures: D,
) -> Result<Files<D>, Refused<FilesError, (D, D, D)>>
    requires { IsPairOpened (meaning D.Disk) opened.journal.value opened.spare.value opened.pair opened.said }
    ensures opened { IfOk result (λ files. (files.journal ≡ opened.journal.value) × (files.spare ≡ opened.spare.value) × (files.failures ≡ failures)) }
    ensures refused { IfErr result (λ refused. AreRefused (meaning D.Disk)
        opened.journal.value opened.spare.value failures refused.back.0 refused.back.1 refused.back.2 refused.why) }
{
    let before = Snapshot::of(&failures);
    let OpenedPair {
        pair,
        said,
        journal,
        spare,
    } = opened;
    match Journal::open(alloc, failures) {
        Ok(lines) => Ok(Files {
            pair,
            said,
            dest: FileDest::new(lines),
            journal,
            spare,
            failures: before,
        }),
        Err(refused) => {
            let (journal, spare) = pair.into_disks();
            Err(Refused {
                why: refusal(JournalFile::Failures, refused.why),
                back: (journal, spare, refused.back),
            })
        }
    }
}

/// Opens the journal with its spare, judges its payloads, and then opens the failure file. Nothing is written. If one of
/// these is refused, returns why, with the disks; nothing is opened after it.
pub fn open_files<D: Disk>(
    alloc: Global,
    journal: D,
    spare: D,
    failures: D,
) -> Result<Files<D>, Refused<FilesError, (D, D, D)>>
    ensures opened { IfOk result (λ files. (files.journal ≡ journal) × (files.spare ≡ spare) × (files.failures ≡ failures)) }
    ensures refused { IfErr result (λ refused. AreRefused (meaning D.Disk)
        journal spare failures refused.back.0 refused.back.1 refused.back.2 refused.why) }
{
    match open_pair(alloc, journal, spare) {
        Ok(opened) => open_failures(alloc, opened, failures),
        Err(refused) => {
            let (journal, spare) = refused.back;
            Err(Refused {
                why: refused.why,
                back: (journal, spare, failures),
            })
        }
    }
}
