// Cutting bytes into blocks of whole lines, which threads read side by side, and how many threads they are worth.
ghost use Rattle.std.specs.Prelude.{◌≡◌, ◌<◌, ◌≤◌, ◌++◌, ◌*◌, ◌/◌, ℕ, List, [], drop, length, min, IfSome, IfNone};
ghost use Rattle.esm_record.specs.Input.{lines_of, begun};
ghost use Rattle.esm_record.specs.LineBlocks.{NoLineFeed, IsFirstLine};

use memchr::{memchr, memrchr};
use std::thread;
use std::thread::Threads;

/// Bytes of the shortest block that is worth a thread of its own. What a pipe gives at once, 65,536 bytes at most, is one
/// such block.
pub const MIN_BLOCK: usize = 49_152;

/// The most threads that read lines side by side.
pub const MOST_THREADS: usize = 4;

/// How many threads are to read lines side by side, the caller's own among them: one for each processor, four at most; one
/// where the number of processors is not known. Contracts see only that it is from 1 to `MOST_THREADS`.
pub fn threads_for<R: Threads>(rt: &R) -> usize
    ensures some { 0 < result }
    ensures most { result ≤ MOST_THREADS }
{
    match thread::available_parallelism(rt) {
        Ok(processors) => processors.get().min(MOST_THREADS),
        Err(_) => 1,
    }
}

/// How many of so many threads a piece of so many bytes is worth: one for each 49,152 bytes. Where these are fewer than two,
/// so for each piece below 98,304 bytes, the caller's own thread reads it alone.
pub fn threads_worth(bytes: usize, threads: usize) -> usize
    ensures { result ≡ min threads (bytes / MIN_BLOCK) }
{
    threads.min(bytes / MIN_BLOCK)
}

/// The line up to the first line feed, without it, and what follows that. `None` where there is no line feed.
pub fn first_line(bytes: &[u8]) -> Option<(&[u8], &[u8])>
    ensures some { IfSome result (λ p. IsFirstLine bytes.now p.0.now p.1.now) }
    ensures none { IfNone result (NoLineFeed bytes.now) }
{
    match memchr(b'\n', bytes) {
        Some(at) => Some((&bytes[..at], &bytes[at + 1..])),
        None => None,
    }
}

/// The lines up to the last line feed, with it, and what follows that. Where there is no line feed, no lines, and all the
/// bytes.
pub fn ended_lines(bytes: &[u8]) -> (&[u8], &[u8])
    ensures parts { bytes.now ≡ result.0.now ++ result.1.now }
    ensures whole { begun (lines_of result.0.now) ≡ [] }
    ensures rest { NoLineFeed result.1.now }
{
    match memrchr(b'\n', bytes) {
        Some(at) => bytes.split_at(at + 1),
        None => bytes.split_at(0),
    }
}

/// The lines up to the first line feed from this place on, with it, and what follows that; the place is an index of a byte,
/// or the number of bytes. Where none follows, no lines, and all the bytes.
pub fn lines_up_to(bytes: &[u8], place: usize) -> (&[u8], &[u8])
    requires { place ≤ length bytes.now }
    ensures parts { bytes.now ≡ result.0.now ++ result.1.now }
    ensures whole { begun (lines_of result.0.now) ≡ [] }
    ensures some { 0 < length result.0.now → (line : List ℕ) × IsFirstLine (drop place bytes.now) line result.1.now }
    ensures none { result.0.now ≡ [] → NoLineFeed (drop place bytes.now) }
{
    match memchr(b'\n', &bytes[place..]) {
        Some(more) => bytes.split_at(place + more + 1),
        None => bytes.split_at(0),
    }
}

/// Of so many bytes that so many threads share, the number that `these` of the threads take: as many for each thread,
/// rounded down.
pub fn share_of(bytes: usize, threads: usize, these: usize) -> usize
    requires some { 0 < threads }
    requires of_them { these ≤ threads }
    ensures value { result ≡ bytes / threads * these }
    ensures within { result ≤ bytes }
{
    bytes / threads * these
}
