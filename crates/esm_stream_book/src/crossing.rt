//! A stream's book is `Send` if its disks and its destination are.

use crate::stream_book::Book;
use esm_io::{Dest, Disk};

fn crosses<T: Send>() {}

/// `Book` is `Send` if its disks and its destination are.
pub fn books_cross<D: Disk + Send, T: Dest + Send>() {
    crosses::<Book<D, T>>();
}
