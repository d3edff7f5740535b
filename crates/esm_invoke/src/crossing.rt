// Shows that the callers can move to another thread if the runtime can.

use crate::{HttpCaller, ProgramCaller};
use std::net::Net;
use std::rt::Clock;

fn crosses<T: Send>() {}

/// A thread takes its caller with it.
fn callers_cross<R: Net + Clock + Clone + Send>() {
    crosses::<HttpCaller<R>>();
    crosses::<ProgramCaller<R>>();
}
