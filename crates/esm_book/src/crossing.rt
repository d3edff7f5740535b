//! A core over its devices is `Send` if all of them are.

use crate::decisions::Decisions;
use crate::durable::Durable;
use esm_io::{Dest, Disk};

fn crosses<T: Send>() {}

/// `Durable` is `Send` if the core, the disks and the destination are.
pub fn cores_cross<C: Decisions + Send, D: Disk + Send, T: Dest + Send>() {
    crosses::<Durable<C, D, T>>();
}
