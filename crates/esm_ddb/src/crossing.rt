//! Callers and destinations of DynamoDB streams move between threads if those below them do.

use crate::caller::DdbCaller;
use crate::dest::DdbDest;
use esm_io::{Caller, Dest};

fn crosses<T: Send>() {}

/// Shows that a caller and a destination move between threads if the caller and the destination below them do.
pub fn outside_crosses<F: Caller + Send, T: Dest + Send>() {
    crosses::<DdbCaller<F>>();
    crosses::<DdbDest<T>>();
}
