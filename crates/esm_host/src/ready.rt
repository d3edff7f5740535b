// Whether a read of a descriptor would wait.
use libc::types::pollfd;
use std::os::fd::RawFd;

/// Whether a read of this descriptor would not wait, now or within `patience` milliseconds. True also at the end of what it
/// reads, or if it cannot be polled; false if the time passed or a signal interrupted it.
pub fn is_readable(descriptor: RawFd, patience: u64) -> bool {
    let mut asked = [pollfd {
        fd: descriptor,
        events: libc::net::POLLIN,
        revents: 0,
    }];
    match libc::net::poll(&mut asked, i32::try_from(patience).unwrap_or(i32::MAX)) {
        0 => false,
        -1 => os::errno() != libc::EINTR,
        _ => true,
    }
}
