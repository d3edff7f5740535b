// The descriptors of the standard streams, which no file and no socket of this program uses.
ghost use Rattle.std.specs.Prelude.{◌≡◌, None, IfOk, IfErr, OnErr, IsSome};
ghost use Rattle.std.specs.IoError.{raw_os_error};
ghost use Rattle.esm_host.specs.Streams.{IsOther};

use std::fs::{File, OpenOptions};
use std::os::fd::{AsRawFd, IntoRawFd, RawFd};
use std::rt::Files;
use std::{fs, io};

/// The first descriptor that is none of the standard streams'.
const FIRST_OTHER: RawFd = 3;

/// The file that is opened in place of a closed stream.
const NULL: &str = "/dev/null";

/// Fills each of the descriptors 0, 1 and 2 that is closed, so that no file that is opened later gets one of them: 0 so that
/// a read of it fails, 1 and 2 so that a write fails. They stay open for ever. If `/dev/null` cannot be opened, it fills no
/// more of them and reports nothing. It must be called before any file is opened.
pub fn fill_streams<R: Files<File = File>>(rt: &R) {
    let _ = fill(rt);
}

/// An open gets the lowest free descriptor: so the first open fills 0, if that is free, and the others fill 1 and 2.
fn fill<R: Files<File = File>>(rt: &R) -> io::Result<()> {
    keep_below(1, OpenOptions::new().write(true).open(rt, NULL)?);
    keep_below(FIRST_OTHER, fs::open(rt, NULL)?);
    keep_below(FIRST_OTHER, fs::open(rt, NULL)?);
    Ok(())
}

/// Keeps a file open for ever if its descriptor is below a limit, and closes it otherwise.
fn keep_below(limit: RawFd, file: File) {
    if file.as_raw_fd() < limit {
        file.into_raw_fd();
    }
}

/// Returns the file or the socket if its descriptor is not that of a standard stream. Otherwise closes it and returns an
/// error.
pub fn above_streams<F: AsRawFd + Drop>(file: F) -> io::Result<F>
    ensures same { IfOk result (λ kept. kept ≡ file) }
    ensures above { IfOk result (λ kept. IsOther (F.raw_fd kept)) }
    ensures refused { OnErr result (IsSome (F.raw_fd file) → ¬ IsOther (F.raw_fd file)) }
    ensures not_os { IfErr result (λ e. raw_os_error e ≡ None) }
{
    if file.as_raw_fd() < FIRST_OTHER {
        return Err(io::Error::other("a standard stream's descriptor"));
    }
    Ok(file)
}
