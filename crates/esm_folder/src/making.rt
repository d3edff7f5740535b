// Makes the journal, the spare, the failures and the registry on empty disks, one after the other.
ghost use Rattle.std.specs.Prelude.{◌≡◌, IfErr, IfOk};
ghost use Rattle.esm_io.specs.Meanings.{disk as meaning};
ghost use Rattle.esm_folder.specs.Init.{AreSafe, IsSafe, Makes, fresh_bytes};
ghost use Rattle.esm_folder.specs.Making.{IsMakingEnd, StopsFor, end_of};
ghost use Rattle.esm_model.specs.declared.names.FileName.TheVariants as file;

use crate::disks::Disks;
use crate::files::{InitEnd, Initialized};
use esm_io::Disk;
use esm_journal::{InitError, Journal, Pair};
use esm_model::{FileName, OutOfMemory, Refused};
use std::alloc::Global;

/// A disk with a fresh file, or the disk as the refusal left it.
type Made<D> = Result<D, Refused<InitError, D>>;

/// How `init` ends if the making of this file stopped.
fn end_of(file: FileName, why: InitError) -> Result<InitEnd, OutOfMemory>
    ensures { result ≡ end_of file why }
{
    match why {
        InitError::NotEmpty(size) => Ok(InitEnd::NotEmpty { file, size }),
        InitError::DiskFault => Ok(InitEnd::DiskFault),
        InitError::OutOfMemory => Err(OutOfMemory),
    }
}

/// Makes the journal.
fn journal<D: Disk>(disk: D) -> Made<D>
    ensures made { IfOk result (Makes (meaning D.Disk) (fresh_bytes file.Journal) disk) }
    ensures refused { IfErr result (λ r. StopsFor (meaning D.Disk) disk r.back r.why) }
    ensures safe { IfOk result (IsSafe (meaning D.Disk) disk) }
    ensures back_safe { IfErr result (λ r. IsSafe (meaning D.Disk) disk r.back) }
{
    Pair::first(disk)
}

/// Makes the spare.
fn spare<D: Disk>(disk: D) -> Made<D>
    ensures made { IfOk result (Makes (meaning D.Disk) (fresh_bytes file.Spare) disk) }
    ensures refused { IfErr result (λ r. StopsFor (meaning D.Disk) disk r.back r.why) }
    ensures safe { IfOk result (IsSafe (meaning D.Disk) disk) }
    ensures back_safe { IfErr result (λ r. IsSafe (meaning D.Disk) disk r.back) }
{
    Journal::blank(disk)
}

/// Makes a single journal.
fn single<D: Disk>(alloc: Global, disk: D) -> Made<D>
    ensures made { IfOk result (Makes (meaning D.Disk) (fresh_bytes file.Failures) disk) }
    ensures refused { IfErr result (λ r. StopsFor (meaning D.Disk) disk r.back r.why) }
    ensures safe { IfOk result (IsSafe (meaning D.Disk) disk) }
    ensures back_safe { IfErr result (λ r. IsSafe (meaning D.Disk) disk r.back) }
{
    match Journal::init(alloc, disk) {
        Ok(journal) => Ok(journal.into_disk()),
        Err(refused) => Err(refused),
    }
}

/// Makes the four files, one after the other, up to one that is refused.
pub fn make<D: Disk>(alloc: Global, disks: Disks<D>) -> Initialized<D>
    ensures end { IfOk result.end (IsMakingEnd (meaning D.Disk) disks result.disks) }
    ensures safe { AreSafe (meaning D.Disk) disks result.disks }
{
    let journal = match journal(disks.journal) {
        Ok(disk) => disk,
        Err(refused) => {
            return Initialized {
                end: end_of(FileName::Journal, refused.why),
                disks: Disks {
                    journal: refused.back,
                    spare: disks.spare,
                    failures: disks.failures,
                    registry: disks.registry,
                },
            };
        }
    };
    let spare = match spare(disks.spare) {
        Ok(disk) => disk,
        Err(refused) => {
            return Initialized {
                end: end_of(FileName::Spare, refused.why),
                disks: Disks {
                    journal,
                    spare: refused.back,
                    failures: disks.failures,
                    registry: disks.registry,
                },
            };
        }
    };
    let failures = match single(alloc, disks.failures) {
        Ok(disk) => disk,
        Err(refused) => {
            return Initialized {
                end: end_of(FileName::Failures, refused.why),
                disks: Disks {
                    journal,
                    spare,
                    failures: refused.back,
                    registry: disks.registry,
                },
            };
        }
    };
    match single(alloc, disks.registry) {
        Ok(registry) => Initialized {
            end: Ok(InitEnd::Done),
            disks: Disks {
                journal,
                spare,
                failures,
                registry,
            },
        },
        Err(refused) => Initialized {
            end: end_of(FileName::Registry, refused.why),
            disks: Disks {
                journal,
                spare,
                failures,
                registry: refused.back,
            },
        },
    }
}
