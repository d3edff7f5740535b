// Which failures of the system mean that this machine lacks something, and are no answer of a peer.
ghost use Rattle.std.specs.Prelude.{◌≡◌, ◌↔◌, true};
ghost use Rattle.std.specs.IoError.{raw_os_error};
ghost use Rattle.esm_host.specs.Errors.{is_wanting, is_passing};

use std::io;

/// The system can open no further file.
const ENFILE: i32 = 23;

/// The system has no further buffer for a socket.
const ENOBUFS: i32 = 105;

/// Why there is no connection.
#[derive(Clone, Copy, Debug, PartialEq, Eq)]
pub enum NoConnection {
    /// This machine has no free local port, descriptor or buffer (EADDRNOTAVAIL, EMFILE, ENFILE, EAGAIN, ENOBUFS, ENOMEM):
    /// nothing was asked of the peer.
    Wanting,
    /// Anything else: no peer listens, it did not take the connection in time, or the steady clock cannot be read.
    Refused,
}

/// Returns why a call that was to connect gave no connection.
pub fn no_connection(error: &io::Error) -> NoConnection
    ensures { (result ≡ NoConnection.Wanting) ↔ (is_wanting (raw_os_error error.now) ≡ true) }
{
    match error.raw_os_error() {
        Some(libc::EAGAIN | libc::ENOMEM | ENFILE | libc::EMFILE | libc::EADDRNOTAVAIL | ENOBUFS) =>
            NoConnection::Wanting,
        _ => NoConnection::Refused,
    }
}

/// Whether a call that was to accept a connection may succeed a little later: no descriptor or buffer was free, the
/// connection was gone before it was accepted, or the call was interrupted.
pub fn is_passing(error: &io::Error) -> bool
    ensures { result ≡ is_passing (raw_os_error error.now) }
{
    matches!(
        error.raw_os_error(),
        Some(libc::EINTR | libc::ENOMEM | ENFILE | libc::EMFILE | libc::ECONNABORTED | ENOBUFS)
    )
}
