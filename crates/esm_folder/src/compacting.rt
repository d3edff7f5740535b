// The command `compact`: a shorter list that says the same.
ghost use Rattle.std.specs.Prelude.{◌≡◌, ◌<◌, false, IfOk, OnErr};
ghost use Rattle.esm_io.specs.Meanings.{disk as meaning};
ghost use Rattle.esm_journal.specs.File.{AreShort};
ghost use Rattle.esm_folder.specs.Opened.{IsOpenedPair};
ghost use Rattle.esm_folder.specs.Upkeep.{AreCompacted, AreKept, AreOnlyRead, IsCompactEnd, IsCompacting};

use crate::ending::{JournalFile, PairEnded, UpkeepEnd};
use crate::opened::{end_of_file, end_of_payloads, ended};
use esm_io::Disk;
use esm_journal::laws::file_beside_new;
use esm_journal::{AppendError, Pair};
use esm_journal_state::compacted;
use esm_model::{Bytes, OutOfMemory};
use std::alloc::Global;

/// The place of the epoch in a file, which counts as damaged if there is no next one.
const EPOCH_PLACE: u64 = 8;

/// Writes the list that says the same as the pair's payloads to the disk that is not in use.
fn rewrite<D: Disk>(alloc: Global, pair: Pair<D>, list: &[Bytes]) -> PairEnded<D>
    requires up { pair.down ≡ false }
    requires below_greatest { pair.epoch < 18446744073709551615 }
    requires compacted { AreCompacted pair.payloads list.now }
    requires short { AreShort list.now }
    ensures end { (journal spare : D) → IsOpenedPair (meaning D.Disk) journal spare pair
        → IfOk result.end (IsCompactEnd (meaning D.Disk) journal spare result.journal result.spare) }
    ensures images { (journal spare : D) → IsOpenedPair (meaning D.Disk) journal spare pair
        → IsCompacting (meaning D.Disk) journal spare result.journal result.spare }
    ensures unwritten { (journal spare : D) → IsOpenedPair (meaning D.Disk) journal spare pair
        → OnErr result.end (AreOnlyRead (meaning D.Disk) journal spare result.journal result.spare) }
    ensures kept { (journal spare : D) → IsOpenedPair (meaning D.Disk) journal spare pair
        → AreKept (meaning D.Disk) journal spare result.journal result.spare }
{
    file_beside_new();
    let mut pair = pair;
    let before = pair.payloads().len() as u64;
    match pair.rewrite(alloc, list) {
        Ok(()) => ended(
            pair,
            Ok(UpkeepEnd::Compacted {
                before,
                after: list.len() as u64,
            }),
        ),
        Err(AppendError::DiskFault) => ended(pair, Ok(UpkeepEnd::DiskFault)),
        Err(AppendError::OutOfMemory) => ended(pair, Err(OutOfMemory)),
        Err(AppendError::TooLong(_) | AppendError::Down) => unreachable!(),
    }
}

/// Judges the payloads of a pair that was opened, and rewrites them.
fn compact_pair<D: Disk>(alloc: Global, pair: Pair<D>) -> PairEnded<D>
    requires { pair.down ≡ false }
    ensures end { (journal spare : D) → IsOpenedPair (meaning D.Disk) journal spare pair
        → IfOk result.end (IsCompactEnd (meaning D.Disk) journal spare result.journal result.spare) }
    ensures images { (journal spare : D) → IsOpenedPair (meaning D.Disk) journal spare pair
        → IsCompacting (meaning D.Disk) journal spare result.journal result.spare }
    ensures unwritten { (journal spare : D) → IsOpenedPair (meaning D.Disk) journal spare pair
        → OnErr result.end (AreOnlyRead (meaning D.Disk) journal spare result.journal result.spare) }
    ensures kept { (journal spare : D) → IsOpenedPair (meaning D.Disk) journal spare pair
        → AreKept (meaning D.Disk) journal spare result.journal result.spare }
{
    if pair.epoch() == u64::MAX {
        return ended(
            pair,
            Ok(UpkeepEnd::Damaged {
                file: JournalFile::Journal,
                place: EPOCH_PLACE,
            }),
        );
    }
    match compacted(alloc, pair.payloads()) {
        Ok(list) => rewrite(alloc, pair, &list),
        Err(why) => ended(pair, end_of_payloads(why)),
    }
}

/// Opens a mapping's journal and its spare, and writes the list that says the same to the disk that is not in use. Refuses a
/// pair that is none (`NotAJournal`), that is damaged (`Damaged`, with the place) or that has a bad payload (`BadPayload`,
/// with the index of the first); an epoch without a next one is damage at place 8. Then, and after an allocation failed,
/// nothing was written. Ends with `DiskFault` only if a count of faults rose. If each disk had one image before, as a synced
/// one has, a crash at any moment leaves a pair that opens to the old list or to the new one.
pub fn compact<D: Disk>(alloc: Global, journal: D, spare: D) -> PairEnded<D>
    ensures end { IfOk result.end (IsCompactEnd (meaning D.Disk) journal spare result.journal result.spare) }
    ensures images { IsCompacting (meaning D.Disk) journal spare result.journal result.spare }
    ensures unwritten { OnErr result.end (AreOnlyRead (meaning D.Disk) journal spare result.journal result.spare) }
    ensures kept { AreKept (meaning D.Disk) journal spare result.journal result.spare }
{
    match Pair::open(alloc, journal, spare) {
        Ok(pair) => compact_pair(alloc, pair),
        Err(refused) => {
            let (journal, spare) = refused.back;
            PairEnded {
                end: end_of_file(JournalFile::Journal, refused.why),
                journal,
                spare,
            }
        }
    }
}
