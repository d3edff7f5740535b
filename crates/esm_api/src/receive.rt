// Reading a request from a link, and sending the answer.
ghost use Rattle.std.specs.Prelude.{◌≡◌, ◌+◌, ◌<◌, ◌≤◌, ℕ, length, take, vec_len, [], None, IfSome, IfOk, OnOk, OnErr};
ghost use Rattle.esm_io.specs.Faults.{MAX_FAULTS, IsCount, Rose};
ghost use Rattle.esm_io.specs.Talks.{Reads, Writes, IsReadOut};
ghost use Rattle.esm_api.specs.HeadRead.{IsPlanned};
ghost use Rattle.esm_api.specs.Plan.{body_bytes};
ghost use Rattle.esm_api.specs.Receiving.{ReadsMore, ReadsSome, ReadsOnUnfinished, WritesPart, Receives, ReceivesHead, ReceivesBody};
ghost use Rattle.esm_api.specs.Request.{Unfinished, IsJudged};

use crate::head::{Head, find_head};
use crate::length::MAX_REQUEST_BODY;
use esm_io::{Failed, Link};
use esm_model::{MAX_HEAD, OutOfMemory};
use std::alloc::Global;

/// How reading a request ended.
#[derive(Clone, Copy)]
pub enum Received {
    /// The head, and how many bytes the buffer holds: the whole request is among them.
    Whole(Head, usize),
    /// The link ended before the request was whole.
    Cut,
    /// A read failed before the request was whole.
    LinkFault,
}

/// Reads until the bytes read are a whole request, and leaves them at the front of the buffer. It makes no read after
/// that. `LinkFault` is returned only if the link's count of faults rose. `OutOfMemory`: an allocation failed; bytes may
/// have been read.
pub fn receive<L: Link>(
    alloc: Global,
    link: &mut L,
    buffer: &mut Vec<u8>,
) -> Result<Received, OutOfMemory>
    ensures received { IfOk result (Receives (L.told link.old) (L.told link.new) buffer.new.items) }
    ensures read { OnErr result (ReadsSome (L.told link.old) (L.told link.new)) }
    ensures fault { IfOk result (λ received. received ≡ Received.LinkFault → Rose (L.faults link.old) (L.faults link.new)) }
    ensures count { OnOk result (IsCount (L.faults link.old) (L.faults link.new)) }
    ensures never_falls { L.faults link.old ≤ L.faults link.new }
    ensures bound { OnOk result (vec_len buffer.new ≤ MAX_HEAD + MAX_REQUEST_BODY) }
{
    buffer.resize(MAX_HEAD, 0)?;
    let (head, filled) = match receive_head(alloc, link, buffer)? {
        Received::Whole(head, filled) => (head, filled),
        Received::Cut => return Ok(Received::Cut),
        Received::LinkFault => return Ok(Received::LinkFault),
    };
    let end = head.len + head.plan.body_bytes();
    if end <= filled {
        return Ok(Received::Whole(head, filled));
    }
    make_room(buffer, end)?;
    match receive_body(link, buffer, head, filled) {
        Ok(Some(filled)) => Ok(Received::Whole(head, filled)),
        Ok(None) => Ok(Received::Cut),
        Err(_) => Ok(Received::LinkFault),
    }
}

/// Makes the buffer at least `end` bytes long.
fn make_room(buffer: &mut Vec<u8>, end: usize) -> Result<(), OutOfMemory>
    requires end { end ≤ MAX_HEAD + MAX_REQUEST_BODY }
    requires bound { vec_len buffer.old ≤ MAX_HEAD + MAX_REQUEST_BODY }
    ensures bound { vec_len buffer.new ≤ MAX_HEAD + MAX_REQUEST_BODY }
    ensures room { OnOk result (end ≤ vec_len buffer.new) }
    ensures front { (k : ℕ) → k ≤ vec_len buffer.old → take k buffer.new.items ≡ take k buffer.old.items }
    ensures grows { vec_len buffer.old ≤ vec_len buffer.new }
{
    if buffer.len() < end {
        buffer.resize(end, 0)?;
    }
    Ok(())
}

/// Reads up to the end of the head, into a buffer that is as long as the longest head.
fn receive_head<L: Link>(
    alloc: Global,
    link: &mut L,
    buffer: &mut Vec<u8>,
) -> Result<Received, OutOfMemory>
    requires room { vec_len buffer.old ≡ MAX_HEAD }
    ensures received { IfOk result (ReceivesHead (L.told link.old) (L.told link.new) buffer.new.items) }
    ensures read { OnErr result (ReadsSome (L.told link.old) (L.told link.new)) }
    ensures fault { IfOk result (λ received. received ≡ Received.LinkFault → Rose (L.faults link.old) (L.faults link.new)) }
    ensures count { IsCount (L.faults link.old) (L.faults link.new) }
    ensures room { vec_len buffer.new ≡ MAX_HEAD }
{
    let mut filled = 0;
    loop {
        let looked = filled;
        let count = match read_more(link, buffer, looked) {
            Ok(0) => return Ok(Received::Cut),
            Ok(count) => count,
            Err(_) => return Ok(Received::LinkFault),
        };
        filled += count;
        let (bytes, _) = buffer.as_slice().split_at(filled);
        if let Some(head) = find_head(alloc, bytes, looked)? {
            return Ok(Received::Whole(head, filled));
        }
    }
}

/// Reads on up to the end of the body that the head announces, and returns how many bytes the buffer holds then. `None`
/// if the link ended before.
fn receive_body<L: Link>(
    link: &mut L,
    buffer: &mut Vec<u8>,
    head: Head,
    first: usize,
) -> Result<Option<usize>, Failed>
    requires within { first ≤ vec_len buffer.old }
    requires room { head.len + body_bytes head.plan ≤ vec_len buffer.old }
    requires len { head.len ≤ first }
    requires planned { IsPlanned (take first buffer.old.items) head }
    requires counted { L.faults link.old ≤ MAX_FAULTS }
    ensures whole { IfOk result (λ filled. IfSome filled (ReceivesBody (L.told link.old) (L.told link.new)
        (take first buffer.old.items) head buffer.new.items)) }
    ensures cut { IfOk result (λ filled. filled ≡ None → ReadsOnUnfinished (L.told link.old) (L.told link.new) (take first buffer.old.items)
        × IsReadOut (L.told link.new)) }
    ensures fault { OnErr result (ReadsOnUnfinished (L.told link.old) (L.told link.new) (take first buffer.old.items)) }
    ensures cause { OnErr result (Rose (L.faults link.old) (L.faults link.new)) }
    ensures count { IsCount (L.faults link.old) (L.faults link.new) }
    ensures room { vec_len buffer.new ≡ vec_len buffer.old }
{
    let end = head.len + head.plan.body_bytes();
    let mut filled = first;
    while filled < end {
        match read_more(link, buffer, filled) {
            Ok(0) => return Ok(None),
            Ok(count) => filled += count,
            Err(_) => return Err(Failed),
        }
    }
    Ok(Some(filled))
}

/// Reads behind the first `filled` bytes of the buffer, which are not a whole request, and returns how many bytes were
/// read; 0 is the end of the link.
fn read_more<L: Link>(link: &mut L, buffer: &mut Vec<u8>, filled: usize) -> Result<usize, Failed>
    requires room { filled < vec_len buffer.old }
    requires unfinished { IsJudged (take filled buffer.old.items) Unfinished }
    ensures within { IfOk result (λ n. filled + n ≤ vec_len buffer.new) }
    ensures read { IfOk result (λ n. ReadsMore (L.told link.old) (L.told link.new) (take filled buffer.old.items) (take (filled + n) buffer.new.items)) }
    ensures end { IfOk result (λ n. n ≡ 0 → IsReadOut (L.told link.new) × Reads (L.told link.old) (L.told link.new) []) }
    ensures unread { OnErr result (L.told link.new ≡ L.told link.old) }
    ensures count { IsCount (L.faults link.old) (L.faults link.new) }
    ensures cause { OnErr result (Rose (L.faults link.old) (L.faults link.new)) }
    ensures room { vec_len buffer.new ≡ vec_len buffer.old }
{
    read_behind(link, buffer.as_mut_slice(), filled)
}

/// The same, over the buffer as a slice.
fn read_behind<L: Link>(link: &mut L, bytes: &mut [u8], filled: usize) -> Result<usize, Failed>
    requires { filled < length bytes.old }
    ensures within { IfOk result (λ n. filled + n ≤ length bytes.new) }
    ensures read { IfOk result (λ n. ReadsMore (L.told link.old) (L.told link.new) (take filled bytes.old) (take (filled + n) bytes.new)) }
    ensures end { IfOk result (λ n. n ≡ 0 → IsReadOut (L.told link.new) × Reads (L.told link.old) (L.told link.new) []) }
    ensures unread { OnErr result (L.told link.new ≡ L.told link.old) }
    ensures count { IsCount (L.faults link.old) (L.faults link.new) }
    ensures cause { OnErr result (Rose (L.faults link.old) (L.faults link.new)) }
{
    let (_, rest) = bytes.split_at_mut(filled);
    link.read(rest)
}

/// Sends the bytes. `Failed` is returned only if the link's count of faults rose; a part of the bytes may have been sent
/// then.
pub fn send<L: Link>(link: &mut L, bytes: &[u8]) -> Result<(), Failed>
    requires counted { L.faults link.old ≤ MAX_FAULTS }
    ensures sent { OnOk result (Writes (L.told link.old) (L.told link.new) bytes.now) }
    ensures part { WritesPart (L.told link.old) (L.told link.new) bytes.now }
    ensures count { IsCount (L.faults link.old) (L.faults link.new) }
    ensures cause { OnErr result (Rose (L.faults link.old) (L.faults link.new)) }
{
    let mut sent = 0;
    while sent < bytes.len() {
        let (_, rest) = bytes.split_at(sent);
        sent += link.write(rest)?;
    }
    Ok(())
}
