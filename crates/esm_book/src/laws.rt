//! What holds of devices over several calls. Each law is the contract of a function that does nothing.
ghost use Rattle.std.specs.Prelude.{◌≡◌, ◌++◌, List, [], false};
ghost use Rattle.esm_io.specs.Meanings.{disk, destination};
ghost use Rattle.esm_journal.specs.Pair.{PairState, PairKeepsWhileUp};
ghost use Rattle.esm_book.specs.Meanings.{decisions};
ghost use Rattle.esm_book.specs.Growth.{HasGrown, LeavesFronts};

use crate::decisions::Decisions;
use esm_io::{Dest, Disk};
use esm_journal::laws::file_beside_spare;

/// Devices that grew by some entries and then by others grew by the entries of both. So what a call of a book promises from
/// its own start, and what its type keeps from the opening on, is one relation.
pub fn growth_joins<C: Decisions, D: Disk, T: Dest>()
    ensures joined { (pair pair' pair'' : PairState D) (dest dest' dest'' : T) (paid more hand tried : List C.Entry) →
        HasGrown (decisions C.Decisions) (disk D.Disk) (destination T.Dest) pair pair' dest dest' paid [] [] →
        HasGrown (decisions C.Decisions) (disk D.Disk) (destination T.Dest) pair' pair'' dest' dest'' more hand tried →
        HasGrown (decisions C.Decisions) (disk D.Disk) (destination T.Dest) pair pair'' dest dest'' (paid ++ more) hand tried }
{}

/// What is known of each disk of a pair alone says what a crash leaves of both.
pub fn growth_leaves<C: Decisions, D: Disk, T: Dest>()
    ensures leaves { (pair pair' : PairState D) (dest dest' : T) (paid hand tried : List C.Entry) → pair.down ≡ false →
        PairKeepsWhileUp (disk D.Disk) pair →
        HasGrown (decisions C.Decisions) (disk D.Disk) (destination T.Dest) pair pair' dest dest' paid hand tried →
        LeavesFronts (decisions C.Decisions) (disk D.Disk) (destination T.Dest) pair pair' dest dest' (paid ++ hand) }
{
    file_beside_spare();
}
