//! Journals and pairs are `Send` if their disks are.

use crate::file_dest::FileDest;
use crate::journal::Journal;
use crate::pair::Pair;
use esm_io::Disk;

fn crosses<T: Send>() {}

/// `Journal`, `FileDest` and `Pair` are `Send` if their disk is.
pub fn files_cross<D: Disk + Send>() {
    crosses::<Journal<D>>();
    crosses::<FileDest<D>>();
    crosses::<Pair<D>>();
}
