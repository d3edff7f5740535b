//! A law of the devices of a redrive over further calls, as the contract of a function that does nothing.
ghost use Rattle.std.specs.Prelude.{List};
ghost use Rattle.esm_io.specs.Meanings.{disk, destination};
ghost use Rattle.esm_book.specs.Growth.{HasDelivered, LeavesFronts};
ghost use Rattle.esm_book.specs.State.{IsKept};
ghost use Rattle.esm_redrive_core.specs.declared.decisions.RedriveEntry.{RedriveEntry};
ghost use Rattle.esm_redrive_book.specs.Books.{BookState, redrive_meaning};
ghost use Rattle.esm_redrive_book.specs.Keeping.{entries_left};
ghost use Rattle.esm_redrive_book.specs.Letters.{LinesStandFirst};

use esm_io::{Dest, Disk};

/// If the journal has a deletion, the dead-letter file has its line from then on, whatever calls follow.
pub fn lines_stay<D: Disk, T: Dest>()
    ensures { (b : BookState D T) (later : T) (entries tried : List RedriveEntry) → IsKept redrive_meaning (disk D.Disk) (destination T.Dest) b →
        LeavesFronts redrive_meaning (disk D.Disk) (destination T.Dest) b.found b.pair b.found_dest b.dest (entries_left b) →
        HasDelivered redrive_meaning (destination T.Dest) b.dest later entries tried → LinesStandFirst (disk D.Disk) (destination T.Dest) b later }
{}
