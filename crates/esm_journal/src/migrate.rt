// Migrates a pair from version 1 to version 2.
ghost use Rattle.std.specs.Prelude.{◌≡◌, ◌+◌, ◌<◌, ◌≤◌, [], ◌∷◌, ◌++◌, true, false, min, length, IfOk, IfErr};
ghost use Rattle.esm_io.specs.Faults.{MAX_FAULTS};
ghost use Rattle.esm_io.specs.Images.{Only};
ghost use Rattle.esm_io.specs.Meanings.{disk as meaning};
ghost use Rattle.esm_journal.specs.File.{entries, end_of, header_of, AreShort, IsFile};
ghost use Rattle.esm_journal.specs.Migrate.{IsMadeAnew, IsNotMadeAnew, IsOpenedAnew, IsNotOpenedAnew, IsMigratedPair, IsRefusedMigration};
ghost use Rattle.esm_journal.specs.Pair.{IsOther};

use crate::error::OpenError;
use crate::format::PAIR;
use crate::found::Found;
use crate::log::Log;
use crate::old_pair::{OldPair, has_version_2, read_old_pair};
use crate::pair::Pair;
use crate::pair_reading::Taken;
use crate::replace::replace_file;
use esm_io::Disk;
use esm_model::Refused;
use std::alloc::Global;
use std::collections::VecDeque;

/// A pair of version 2, as `Pair::migrate` returns it.
#[derive(Drop)]
pub struct Migrated<D: Disk> {
    pub pair: Pair<D>,
    /// The number of its payloads, or 4,294,967,295 if it has more.
    pub count: u32,
    /// The version in which it was found, 1 or 2.
    pub was: u8,
}

impl<D: Disk> Migrated<D> {
    fn of(pair: Pair<D>, was: u8) -> Migrated<D>
        ensures pair { result.pair ≡ pair }
        ensures count { result.count ≡ min (length pair.payloads) 4294967295 }
        ensures was { result.was ≡ was }
    {
        let count = pair.payloads().len().min(u32::MAX as usize) as u32;
        Migrated { pair, count, was }
    }
}

impl<D: Disk> Pair<D> {
    /// Writes the list of a pair of version 1 to the disk that is not in use, with the header of version 2 and the next
    /// epoch, and then uses that disk.
    fn write_anew(
        alloc: Global,
        found: Found,
        bytes: Vec<u8>,
        used: D,
        other: D,
        sealed: bool,
        swapped: bool,
    ) -> Result<Pair<D>, (D, D)>
        requires file { D.honest used ≡ true → IsFile (header_of 1) found.epoch found.payloads.items (D.content used) }
        requires durable { D.honest used ≡ true → Only (D.content used) (D.image used) }
        requires other { D.honest other ≡ true → IsOther sealed (D.content other) }
        requires other_durable { D.honest other ≡ true → Only (D.content other) (D.image other) }
        requires faults { D.faults used ≤ MAX_FAULTS }
        requires other_faults { D.faults other ≤ MAX_FAULTS }
        requires below_greatest { found.epoch < 18446744073709551615 }
        requires end { found.end ≡ end_of found.payloads.items }
        requires short { AreShort found.payloads.items }
        requires bytes { bytes.items ≡ entries found.payloads.items ++ 0 ∷ [] }
        ensures made { IfOk result (IsMadeAnew (meaning D.Disk) found.epoch found.payloads.items used other swapped) }
        ensures back { IfErr result (λ back. IsNotMadeAnew (meaning D.Disk) found.epoch found.payloads.items used other back.0 back.1) }
    {
        let mut other = other;
        let epoch = found.epoch + 1;
        if replace_file(&mut other, sealed, PAIR, epoch, &bytes).is_err() {
            return Err((used, other));
        }
        Ok(Pair {
            log: Log {
                disk: other,
                header: PAIR,
                epoch,
                payloads: found.payloads,
                end: found.end,
                spares: VecDeque::new(alloc),
                down: false,
            },
            spare: used,
            spare_sealed: true,
            swapped,
        })
    }

    /// Opens a pair of version 1 and writes its list anew.
    fn open_old(alloc: Global, journal: D, spare: D) -> Result<Pair<D>, Refused<OpenError, (D, D)>>
        ensures opened { IfOk result (IsOpenedAnew (meaning D.Disk) journal spare) }
        ensures refused { IfErr result (λ refused. IsNotOpenedAnew (meaning D.Disk) journal spare refused.why refused.back.0 refused.back.1) }
    {
        let mut first = journal;
        let mut second = spare;
        match read_old_pair(alloc, &mut first, &mut second) {
            Ok(OldPair { taken, bytes }) => {
                let Taken {
                    found,
                    swapped,
                    spare_sealed,
                } = taken;
                if swapped {
                    return match Pair::write_anew(
                        alloc,
                        found,
                        bytes,
                        second,
                        first,
                        spare_sealed,
                        false,
                    ) {
                        Ok(pair) => Ok(pair),
                        Err((used, other)) => Err(Refused {
                            why: OpenError::DiskFault,
                            back: (other, used),
                        }),
                    };
                }
                match Pair::write_anew(alloc, found, bytes, first, second, spare_sealed, true) {
                    Ok(pair) => Ok(pair),
                    Err(back) => Err(Refused {
                        why: OpenError::DiskFault,
                        back,
                    }),
                }
            }
            Err(why) => Err(Refused {
                why,
                back: (first, second),
            }),
        }
    }

    /// Opens a pair of version 2 as it is, and writes nothing. Writes a pair of version 1 anew: the same list, on the disk
    /// that was not in use, with the header `ESMJ0002` and the next epoch. Returns the errors of `open`, by the header of
    /// version 1 if neither disk is sealed as version 2, and `Damaged(8)` if a pair of version 1 has no next epoch. If each
    /// disk of version 1 had one image before, as a synced one has, a crash at any moment leaves a pair that opens as
    /// version 1 to its list or as version 2 to the same.
    pub fn migrate(
        alloc: Global,
        journal: D,
        spare: D,
    ) -> Result<Migrated<D>, Refused<OpenError, (D, D)>>
        ensures migrated { IfOk result (λ done. IsMigratedPair (meaning D.Disk) journal spare done.pair done.was) }
        ensures count { IfOk result (λ done. done.count ≡ min (length done.pair.payloads) 4294967295) }
        ensures refused { IfErr result (λ refused. IsRefusedMigration (meaning D.Disk) journal spare refused.why refused.back.0 refused.back.1) }
    {
        let mut first = journal;
        let mut second = spare;
        match has_version_2(&mut first, &mut second) {
            Ok(true) => match Pair::open(alloc, first, second) {
                Ok(pair) => Ok(Migrated::of(pair, 2)),
                Err(refused) => Err(refused),
            },
            Ok(false) => match Pair::open_old(alloc, first, second) {
                Ok(pair) => Ok(Migrated::of(pair, 1)),
                Err(refused) => Err(refused),
            },
            Err(_) => Err(Refused {
                why: OpenError::DiskFault,
                back: (first, second),
            }),
        }
    }
}
