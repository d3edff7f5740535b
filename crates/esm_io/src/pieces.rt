// How the sources, sinks and connections in memory move bytes, one piece at a time.
ghost use Rattle.std.specs.Prelude.{◌≡◌, ◌+◌, ◌<◌, ◌≤◌, ◌++◌, min, length, take, drop, IfOk, OnErr};

use std::alloc::AllocError;

/// Copies bytes from `at` on to the front of `into`, as many as both have, at most a piece. Returns their number and
/// advances `at` by it.
pub fn give_front(bytes: &[u8], at: &mut usize, piece: usize, into: &mut [u8]) -> usize
    requires { at.old ≤ length bytes.now }
    ensures count { result ≡ min (min (length into.old) piece) (length (drop at.old bytes.now)) }
    ensures moved { at.new ≡ at.old + result }
    ensures within { at.new ≤ length bytes.now }
    ensures read { take at.new bytes.now ≡ take at.old bytes.now ++ take result into.new }
    ensures given { drop at.old bytes.now ≡ take result into.new ++ drop at.new bytes.now }
    ensures beyond { drop result into.new ≡ drop result into.old }
{
    let (_, rest) = bytes.split_at(*at);
    let count = into.len().min(piece).min(rest.len());
    let (front, _) = rest.split_at(count);
    into[..count].copy_from_slice(front);
    *at += count;
    count
}

/// Appends the bytes at the front of `from`, at most a piece, and returns their number.
pub fn take_front(bytes: &mut Vec<u8>, from: &[u8], piece: usize) -> Result<usize, AllocError>
    ensures count { IfOk result (λ n. n ≡ min (length from.now) piece) }
    ensures taken { IfOk result (λ n. bytes.new.items ≡ bytes.old.items ++ take n from.now) }
    ensures untaken { OnErr result (bytes.new.items ≡ bytes.old.items) }
{
    let count = from.len().min(piece);
    let (front, _) = from.split_at(count);
    bytes.extend_from_slice(front)?;
    Ok(count)
}
