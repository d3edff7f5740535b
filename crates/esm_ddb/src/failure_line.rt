//! Turning the failure line of a stream's records into that of a DynamoDB stream's.
ghost use Rattle.std.specs.Prelude.{◌≡◌, ◌≤◌, ◌<◌, ◌+◌, ◌++◌, length, nat_eq, vec_capacity, vec_len, OnErr, OnOk, IfOk, IfSome, IsTrue, Some};
ghost use Rattle.std.specs.List.{starts_with};
ghost use Rattle.esm_ddb.specs.FailureLine.{ddb_line, first_place, renamed_at, stream_part};

use esm_model::{MAX_PAYLOAD, OutOfMemory};
use std::alloc::{AllocError, Global};

/// The length in bytes of `"KinesisBatchInfo":`.
const STREAM_PART: usize = 19;

fn begins_with_part(bytes: &[u8]) -> bool
    ensures part { result ≡ starts_with nat_eq bytes.now stream_part }
    ensures within { IsTrue result → STREAM_PART ≤ length bytes.now }
{
    bytes.starts_with(b"\"KinesisBatchInfo\":")
}

/// Where the first `"KinesisBatchInfo":` begins.
fn first_place(line: &[u8]) -> Option<usize>
    ensures place { result ≡ first_place stream_part line.now }
    ensures within { IfSome result (λ at. at + STREAM_PART ≤ length line.now) }
{
    let mut at = 0;
    while at < line.len() {
        if begins_with_part(&line[at..]) {
            return Some(at);
        }
        at += 1;
    }
    None
}

fn push_renamed(out: &mut Vec<u8>, line: &[u8], at: usize) -> Result<(), AllocError>
    requires { at + STREAM_PART ≤ length line.now }
    ensures text { OnOk result (out.new.items ≡ out.old.items ++ renamed_at line.now (Some at)) }
    ensures full { OnErr result (vec_capacity out.old < vec_len out.old + (length line.now + 2)) }
    ensures capacity { vec_capacity out.old ≤ vec_capacity out.new }
{
    out.extend_from_slice(&line[..at])?;
    out.extend_from_slice(b"\"DDBStreamBatchInfo\":")?;
    out.extend_from_slice(&line[at + STREAM_PART..])?;
    Ok(())
}

/// Appends the line with `"DDBStreamBatchInfo":` in place of its first `"KinesisBatchInfo":`, or unchanged as `ddb_line`
/// says. It fails only if the buffer lacked room for the line and two bytes more.
#[tactic(auto, unfolding(crate::specs::FailureLine::ddb_line))]
pub fn push_line(out: &mut Vec<u8>, line: &[u8]) -> Result<(), AllocError>
    ensures text { OnOk result (out.new.items ≡ out.old.items ++ ddb_line line.now) }
    ensures full { OnErr result (vec_capacity out.old < vec_len out.old + (length line.now + 2)) }
    ensures capacity { vec_capacity out.old ≤ vec_capacity out.new }
{
    if line.len() > MAX_PAYLOAD - 2 {
        return out.extend_from_slice(line);
    }
    match first_place(line) {
        Some(at) => push_renamed(out, line, at),
        None => out.extend_from_slice(line),
    }
}

/// Returns the line with `"DDBStreamBatchInfo":` in place of its first `"KinesisBatchInfo":`. A line without that text,
/// or of more than 16,777,214 bytes, is returned unchanged.
pub fn ddb_line(alloc: Global, line: &[u8]) -> Result<Vec<u8>, OutOfMemory>
    ensures { IfOk result (λ text. text.items ≡ ddb_line line.now) }
{
    let mut out = Vec::new(alloc);
    push_line(&mut out, line)?;
    Ok(out)
}
