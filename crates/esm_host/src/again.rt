// Repeats reads and writes that a signal interrupted, as when the process is stopped and continued.
ghost use Rattle.std.specs.Prelude.{◌≡◌, ◌<◌, ◌≤◌, length, IfOk, OnOk, OnErr, IfErr, IsErrAnd, IsTrue, ◌↔◌};
ghost use Rattle.std.specs.Io.{ReadsAtMost};
ghost use Rattle.std.specs.Io.KnownBytes.{ReadConsumes, WriteAppends};
ghost use Rattle.std.specs.IoError.{error_kind};

use std::io;
use std::io::{ErrorKind, Read, Write};

/// Whether a call of the system was interrupted: then it did nothing, and is to be repeated.
pub fn is_interrupted<T>(outcome: &io::Result<T>) -> bool
    ensures { IsTrue result ↔ IsErrAnd outcome.now (λ e. error_kind e ≡ ErrorKind.Interrupted) }
{
    match outcome {
        Ok(_) => false,
        Err(error) => error.kind() == ErrorKind::Interrupted,
    }
}

/// Reads, and repeats a read that was interrupted.
pub fn read_again<S: Read>(source: &mut S, into: &mut [u8]) -> io::Result<usize>
    ensures within { ReadsAtMost result into.new }
    ensures uninterrupted { IfErr result (λ e. ¬ (error_kind e ≡ ErrorKind.Interrupted)) }
    ensures bytes { ReadConsumes (S.remaining source.old) (S.remaining source.new) result into.new }
{
    for _ in 0..u64::MAX {
        let count = source.read(into);
        if !is_interrupted(&count) {
            return count;
        }
    }
    Err(io::Error::from(ErrorKind::TimedOut))
}

/// Writes, and repeats a write that was interrupted. A write that takes nothing of a nonempty slice has failed
/// (`WriteZero`).
pub fn write_again<S: Write>(sink: &mut S, from: &[u8]) -> io::Result<usize>
    ensures within { IfOk result (λ n. n ≤ length from.now) }
    ensures some { IfOk result (λ n. 0 < length from.now → 0 < n) }
    ensures uninterrupted { IfErr result (λ e. ¬ (error_kind e ≡ ErrorKind.Interrupted)) }
    ensures bytes { WriteAppends (S.contents sink.old) (S.contents sink.new) result from.now }
{
    for _ in 0..u64::MAX {
        let count = sink.write(from);
        if !is_interrupted(&count) {
            return some_taken(count, from);
        }
    }
    Err(io::Error::from(ErrorKind::TimedOut))
}

/// Turns a write that took nothing of a nonempty slice into an error.
fn some_taken(count: io::Result<usize>, from: &[u8]) -> io::Result<usize>
    ensures some { IfOk result (λ n. 0 < length from.now → 0 < n) }
    ensures same { IfOk result (λ n. count ≡ Ok n) }
    ensures failed { OnErr result (IfOk count (λ n. n ≡ 0)) }
    ensures cause { IfErr result (λ e. IfErr count (λ cause. cause ≡ e)) }
    ensures zero { IfErr result (λ e. OnOk count (error_kind e ≡ ErrorKind.WriteZero)) }
{
    match count {
        Ok(0) if !from.is_empty() => Err(io::Error::from(ErrorKind::WriteZero)),
        _ => count,
    }
}
