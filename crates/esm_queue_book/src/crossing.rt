//! A queue's book is `Send` if its disks are.

use crate::queue_book::QueueBook;
use esm_io::Disk;

fn crosses<T: Send>() {}

/// `QueueBook` is `Send` if its disks are.
pub fn books_cross<D: Disk + Send>() {
    crosses::<QueueBook<D>>();
}
