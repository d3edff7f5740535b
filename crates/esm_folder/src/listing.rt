// The command `failures`: the failure lines.
ghost use Rattle.std.specs.Prelude.{◌≡◌, IfOk};
ghost use Rattle.esm_io.specs.Meanings.{disk as meaning};
ghost use Rattle.esm_journal.specs.Reads.{IsOnlyRead};
ghost use Rattle.esm_folder.specs.Opened.{IsListed};
ghost use Rattle.esm_folder.specs.UpkeepText.{failure_lines};
ghost use Rattle.esm_folder.specs.Upkeep.{IsFailuresEnd};

use crate::ending::{FileEnded, JournalFile, UpkeepEnd};
use crate::opened::end_of_file;
use esm_event::bytes::push_bytes;
use esm_io::Disk;
use esm_journal::Journal;
use esm_model::{Bytes, OutOfMemory};
use std::alloc::Global;

/// The payloads, each with a line feed.
fn lines_of(alloc: Global, payloads: &[Bytes]) -> Result<Vec<u8>, OutOfMemory>
    ensures { IfOk result (λ lines. lines.items ≡ failure_lines payloads.now) }
{
    let mut lines = Vec::new(alloc);
    for payload in payloads {
        push_bytes(&mut lines, payload.as_slice())?;
        push_bytes(&mut lines, b"\n")?;
    }
    Ok(lines)
}

/// The lines of the failure file.
fn list_payloads(alloc: Global, payloads: &[Bytes]) -> Result<UpkeepEnd, OutOfMemory>
    ensures { IfOk result (IsListed payloads.now) }
{
    let lines = lines_of(alloc, payloads)?;
    Ok(UpkeepEnd::Listed {
        lines: Bytes::from_vec(lines),
    })
}

/// Opens a failure file and lists its lines, in order. Nothing is written. Refuses a file that is no journal (`NotAJournal`)
/// or is damaged (`Damaged`, with the place); ends with `DiskFault` only if the count of faults rose.
pub fn failures<D: Disk>(alloc: Global, disk: D) -> FileEnded<D>
    ensures end { IfOk result.end (IsFailuresEnd (meaning D.Disk) disk result.disk) }
    ensures only_read { IsOnlyRead (meaning D.Disk) disk result.disk }
{
    match Journal::open(alloc, disk) {
        Ok(journal) => {
            let end = list_payloads(alloc, journal.payloads());
            FileEnded {
                end,
                disk: journal.into_disk(),
            }
        }
        Err(refused) => FileEnded {
            end: end_of_file(JournalFile::Failures, refused.why),
            disk: refused.back,
        },
    }
}
