// A call over a link.
ghost use Rattle.std.specs.Prelude.{◌≡◌, ◌≢◌, ◌⊎◌, ◌+◌, ◌<◌, ◌≤◌, true, [], length, take, drop, vec_len, IfOk, OnOk, OnErr};
ghost use Rattle.esm_io.specs.Faults.{MAX_FAULTS, IsCount, Rose};
ghost use Rattle.esm_io.specs.Talks.{Writes, IsReadOut};
ghost use Rattle.esm_invoke.specs.Request.{request_text};
ghost use Rattle.esm_invoke.specs.Exchange.{SendsPart, Answers, AnswersEarly, Loses, GrowsFor};
ghost use Rattle.esm_invoke.specs.Receiving.{ReadsMore, ReadsInto, WritesPart, Replies, HasNone, AnswersWhole, Misses, ReceivesHead, Settles};
ghost use Rattle.esm_invoke.specs.Response.{BeginsWith, IsReplyTo};
ghost use Rattle.esm_invoke.specs.ResponseRead.{Awaits, IsUnfinished};

use crate::body::{BodyReader, Progress};
use crate::head::{Head, HeadSearch, find_head};
use crate::request::request;
use esm_io::{Failed, Link};
use esm_model::{Bytes, MAX_RESPONSE, OutOfMemory, Reply};
use http1::decode::Decoder;
use http1::framing::Framing;
use std::alloc::Global;
use std::mem;

/// The size of a work area when it first grows, in bytes.
const FIRST_ROOM: usize = 4_096;

/// What reading up to the end of the head gave.
#[derive(Clone, Copy)]
pub enum HeadReceived {
    /// The head, with the number of bytes read.
    Head(Head, usize),
    /// This many bytes were read, and they hold no response.
    Garbled(usize),
    Lost,
}

/// Calls the function `name` with the event over a link: writes the whole request, then reads until a prefix of the bytes
/// read is a whole response, until no continuation of them is one, until they are more than `MAX_RESPONSE`, or up to the
/// link's end. `Garbled` has the bytes read, which hold no response. If a write fails, it still reads a response: a function
/// that answers before it took the whole event has answered, if the answer's own length shows that it is whole. A body that
/// extends up to the link's end never shows that, since the link may have been cut. `Lost` is returned only if the link's
/// count of faults rose: if a read failed, or if no such answer followed a write that failed. `buffer` is a work area that
/// grows with what is read and keeps its capacity for the next call; its content before and after a call has no meaning.
/// After `OutOfMemory`, a part of the request or all of it may have been sent, and bytes read (Lambda API Reference of
/// 2015-03-31, `Invoke`; RFC 9112, section 9.5 for early answers).
pub fn invoke<L: Link>(
    alloc: Global,
    link: &mut L,
    name: &str,
    event: &[u8],
    buffer: &mut Vec<u8>,
) -> Result<Reply, OutOfMemory>
    ensures answered { IfOk result (λ reply. reply ≢ Reply.Lost
        → Answers L.told link.old link.new (request_text name.now event.now) reply
        ⊎ AnswersEarly L.told L.faults link.old link.new (request_text name.now event.now) reply) }
    ensures lost { IfOk result (λ reply. reply ≡ Reply.Lost → Rose (L.faults link.old) (L.faults link.new)) }
    ensures unanswered { IfOk result (λ reply. reply ≡ Reply.Lost → Loses L.told L.faults link.old link.new (request_text name.now event.now)) }
    ensures sent { SendsPart L.told L.faults link.old link.new (request_text name.now event.now) (vec_len buffer.old) (vec_len buffer.new) }
    ensures count { OnOk result (IsCount (L.faults link.old) (L.faults link.new)) }
    ensures never_falls { L.faults link.old ≤ L.faults link.new }
    ensures buffer { vec_len buffer.new ≤ MAX_RESPONSE + 1 }
{
    buffer.truncate(MAX_RESPONSE + 1);
    let request = request(alloc, name, event)?;
    match send(link, &request) {
        Ok(()) => receive(alloc, link, buffer),
        Err(_) => receive_early(alloc, link, buffer),
    }
}

/// Calls over a link like `invoke`, and counts a call that is lost in `faults`, the caller's own count.
pub fn call_over<L: Link>(
    alloc: Global,
    link: &mut L,
    name: &str,
    event: &[u8],
    buffer: &mut Vec<u8>,
    faults: &mut u64,
) -> Result<Reply, OutOfMemory>
    // As of `invoke`.
    ensures answered { IfOk result (λ reply. reply ≢ Reply.Lost
        → Answers L.told link.old link.new (request_text name.now event.now) reply
        ⊎ AnswersEarly L.told L.faults link.old link.new (request_text name.now event.now) reply) }
    ensures lost { IfOk result (λ reply. reply ≡ Reply.Lost → Rose (L.faults link.old) (L.faults link.new)) }
    ensures unanswered { IfOk result (λ reply. reply ≡ Reply.Lost → Loses L.told L.faults link.old link.new (request_text name.now event.now)) }
    ensures sent { SendsPart L.told L.faults link.old link.new (request_text name.now event.now) (vec_len buffer.old) (vec_len buffer.new) }
    ensures count { OnOk result (IsCount (L.faults link.old) (L.faults link.new)) }
    ensures never_falls { L.faults link.old ≤ L.faults link.new }
    ensures buffer { vec_len buffer.new ≤ MAX_RESPONSE + 1 }

    // The caller's own count.
    ensures raised { IfOk result (λ reply. reply ≡ Reply.Lost → Rose faults.old faults.new) }
    ensures kept { IfOk result (λ reply. reply ≢ Reply.Lost → faults.new ≡ faults.old) }
    ensures kept_without_memory { OnErr result (faults.new ≡ faults.old) }
    ensures own_count { IsCount faults.old faults.new }
{
    let before = *faults;
    let reply = invoke(alloc, link, name, event, buffer)?;
    if matches!(&reply, Reply::Lost) {
        *faults = before.saturating_add(1);
    }
    Ok(reply)
}

/// Sends the bytes. `Failed` only if the link's count of faults rose; then a part of them, but not all, may have been sent.
fn send<L: Link>(link: &mut L, bytes: &[u8]) -> Result<(), Failed>
    requires some { 0 < length bytes.now }
    ensures sent { OnOk result (Writes (L.told link.old) (L.told link.new) bytes.now) }
    ensures part { OnErr result (WritesPart (L.told link.old) (L.told link.new) bytes.now) }
    ensures count { IsCount (L.faults link.old) (L.faults link.new) }
    ensures cause { OnErr result (Rose (L.faults link.old) (L.faults link.new)) }
{
    let mut sent = 0;
    while sent < bytes.len() {
        let (_, rest) = bytes.split_at(sent);
        sent += link.write(rest)?;
    }
    Ok(())
}

/// Makes room after the first `filled` bytes of the buffer if there is none: its length doubles.
fn make_room(buffer: &mut Vec<u8>, filled: usize) -> Result<(), OutOfMemory>
    requires short { filled ≤ MAX_RESPONSE }
    requires within { filled ≤ vec_len buffer.old }
    requires bound { vec_len buffer.old ≤ MAX_RESPONSE + 1 }
    ensures room { OnOk result (filled < vec_len buffer.new) }
    ensures front { take filled buffer.new.items ≡ take filled buffer.old.items }
    ensures bound { vec_len buffer.new ≤ MAX_RESPONSE + 1 }
    ensures grows { GrowsFor (vec_len buffer.old) (vec_len buffer.new) filled }
{
    let len = buffer.len();
    if filled < len {
        return Ok(());
    }
    let more = len.max(FIRST_ROOM).min(MAX_RESPONSE + 1 - len);
    buffer.reserve_exact(more)?;
    buffer.resize(len + more, 0)?;
    Ok(())
}

/// Reads to after the first `filled` bytes of the buffer, and returns how many bytes it read; 0 is the link's end.
fn read_more<L: Link>(link: &mut L, buffer: &mut Vec<u8>, filled: usize) -> Result<usize, Failed>
    requires { filled < vec_len buffer.old }
    ensures within { IfOk result (λ n. filled + n ≤ vec_len buffer.new) }
    ensures read { IfOk result (λ n. ReadsMore (L.told link.old) (L.told link.new) (take filled buffer.old.items) (take (filled + n) buffer.new.items)) }
    ensures end { IfOk result (λ n. n ≡ 0 → IsReadOut (L.told link.new)) }
    ensures unread { OnErr result (L.told link.new ≡ L.told link.old) }
    ensures count { IsCount (L.faults link.old) (L.faults link.new) }
    ensures cause { OnErr result (Rose (L.faults link.old) (L.faults link.new)) }
    ensures room { vec_len buffer.new ≡ vec_len buffer.old }
{
    read_behind(link, buffer.as_mut_slice(), filled)
}

/// The same, over the bytes of the buffer.
fn read_behind<L: Link>(link: &mut L, bytes: &mut [u8], filled: usize) -> Result<usize, Failed>
    requires { filled < length bytes.old }
    ensures within { IfOk result (λ n. filled + n ≤ length bytes.new) }
    ensures read { IfOk result (λ n. ReadsMore (L.told link.old) (L.told link.new) (take filled bytes.old) (take (filled + n) bytes.new)) }
    ensures end { IfOk result (λ n. n ≡ 0 → IsReadOut (L.told link.new)) }
    ensures unread { OnErr result (L.told link.new ≡ L.told link.old) }
    ensures count { IsCount (L.faults link.old) (L.faults link.new) }
    ensures cause { OnErr result (Rose (L.faults link.old) (L.faults link.new)) }
{
    let (_, rest) = bytes.split_at_mut(filled);
    link.read(rest)
}

/// Reads after a request that was not sent whole: returns an answer that is whole by its own length, and `Lost` otherwise.
fn receive_early<L: Link>(
    alloc: Global,
    link: &mut L,
    buffer: &mut Vec<u8>,
) -> Result<Reply, OutOfMemory>
    requires room { vec_len buffer.old ≤ MAX_RESPONSE + 1 }
    requires counted { L.faults link.old ≤ MAX_FAULTS }
    ensures read { ReadsInto (L.told link.old) (L.told link.new) 0 (vec_len buffer.old) (vec_len buffer.new) }
    ensures answered { IfOk result (λ reply. reply ≢ Reply.Lost → AnswersWhole (L.told link.old) (L.told link.new) [] reply) }
    ensures missed { IfOk result (λ reply. reply ≡ Reply.Lost → Misses (L.told link.old) (L.told link.new) [] (L.faults link.old) (L.faults link.new)) }
    ensures count { IsCount (L.faults link.old) (L.faults link.new) }
    ensures room { vec_len buffer.new ≤ MAX_RESPONSE + 1 }
{
    match receive_head(link, buffer)? {
        HeadReceived::Head(head, filled) => receive_early_body(alloc, link, buffer, head, filled),
        HeadReceived::Garbled(_) => Ok(Reply::Lost),
        HeadReceived::Lost => Ok(Reply::Lost),
    }
}

/// Reads the body after a request that was not sent whole. After a write that failed a link may end in the middle of an
/// answer, so a body that extends up to its end is not read.
fn receive_early_body<L: Link>(
    alloc: Global,
    link: &mut L,
    buffer: &mut Vec<u8>,
    head: Head,
    first: usize,
) -> Result<Reply, OutOfMemory>
    requires within { first ≤ vec_len buffer.old }
    requires len { head.len ≤ first }
    requires begins { BeginsWith (take first buffer.old.items) head (drop head.len (take first buffer.old.items)) }
    requires room { vec_len buffer.old ≤ MAX_RESPONSE + 1 }
    requires counted { L.faults link.old ≤ MAX_FAULTS }
    ensures read { ReadsInto (L.told link.old) (L.told link.new) first (vec_len buffer.old) (vec_len buffer.new) }
    ensures answered { IfOk result (λ reply. reply ≢ Reply.Lost → AnswersWhole (L.told link.old) (L.told link.new) (take first buffer.old.items) reply) }
    ensures missed { IfOk result (λ reply. reply ≡ Reply.Lost → Misses (L.told link.old) (L.told link.new) (take first buffer.old.items)
        (L.faults link.old) (L.faults link.new)) }
    ensures count { IsCount (L.faults link.old) (L.faults link.new) }
    ensures room { vec_len buffer.new ≤ MAX_RESPONSE + 1 }
{
    match head.framing {
        Framing::UntilClose => Ok(Reply::Lost),
        _ => match receive_body(alloc, link, buffer, head, first)? {
            Reply::Garbled { .. } => Ok(Reply::Lost),
            reply => Ok(reply),
        },
    }
}

/// Reads until the reply is known. `Lost` only if the link's count of faults rose.
fn receive<L: Link>(alloc: Global, link: &mut L, buffer: &mut Vec<u8>) -> Result<Reply, OutOfMemory>
    requires room { vec_len buffer.old ≤ MAX_RESPONSE + 1 }
    requires counted { L.faults link.old ≤ MAX_FAULTS }
    ensures read { ReadsInto (L.told link.old) (L.told link.new) 0 (vec_len buffer.old) (vec_len buffer.new) }
    ensures replied { IfOk result (λ reply. reply ≢ Reply.Lost → Replies (L.told link.old) (L.told link.new) [] reply) }
    ensures none { IfOk result (λ reply. reply ≡ Reply.Lost → HasNone (L.told link.old) (L.told link.new) []) }
    ensures lost { IfOk result (λ reply. reply ≡ Reply.Lost → Rose (L.faults link.old) (L.faults link.new)) }
    ensures count { IsCount (L.faults link.old) (L.faults link.new) }
    ensures room { vec_len buffer.new ≤ MAX_RESPONSE + 1 }
{
    match receive_head(link, buffer)? {
        HeadReceived::Head(head, filled) => receive_body(alloc, link, buffer, head, filled),
        HeadReceived::Garbled(filled) => {
            let (bytes, _) = buffer.as_slice().split_at(filled);
            garbled(alloc, bytes)
        }
        HeadReceived::Lost => Ok(Reply::Lost),
    }
}

/// Reads up to the end of the head. `Lost` only if the link's count of faults rose.
fn receive_head<L: Link>(link: &mut L, buffer: &mut Vec<u8>) -> Result<HeadReceived, OutOfMemory>
    requires room { vec_len buffer.old ≤ MAX_RESPONSE + 1 }
    requires counted { L.faults link.old ≤ MAX_FAULTS }
    ensures read { ReadsInto (L.told link.old) (L.told link.new) 0 (vec_len buffer.old) (vec_len buffer.new) }
    ensures received { IfOk result (ReceivesHead (L.told link.old) (L.told link.new) (vec_len buffer.old) buffer.new.items) }
    ensures lost { IfOk result (λ received. received ≡ HeadReceived.Lost → Rose (L.faults link.old) (L.faults link.new)) }
    ensures count { IsCount (L.faults link.old) (L.faults link.new) }
    ensures room { vec_len buffer.new ≤ MAX_RESPONSE + 1 }
{
    let mut filled = 0;
    while filled <= MAX_RESPONSE {
        let looked = filled;
        make_room(buffer, looked)?;
        let count = match read_more(link, buffer, looked) {
            Ok(count) => count,
            Err(_) => return Ok(HeadReceived::Lost),
        };
        filled += count;
        let (bytes, _) = buffer.as_slice().split_at(filled);
        match find_head(bytes, looked) {
            HeadSearch::Found(head) => return Ok(HeadReceived::Head(head, filled)),
            HeadSearch::More if count > 0 => {}
            HeadSearch::More => return Ok(HeadReceived::Garbled(filled)),
            HeadSearch::Never => return Ok(HeadReceived::Garbled(filled)),
        }
    }
    Ok(HeadReceived::Garbled(filled))
}

/// Reads until the body is whole or cannot become whole. `Lost` only if the link's count of faults rose.
fn receive_body<L: Link>(
    alloc: Global,
    link: &mut L,
    buffer: &mut Vec<u8>,
    head: Head,
    first: usize,
) -> Result<Reply, OutOfMemory>
    requires within { first ≤ vec_len buffer.old }
    requires len { head.len ≤ first }
    requires begins { BeginsWith (take first buffer.old.items) head (drop head.len (take first buffer.old.items)) }
    requires room { vec_len buffer.old ≤ MAX_RESPONSE + 1 }
    requires counted { L.faults link.old ≤ MAX_FAULTS }
    ensures read { ReadsInto (L.told link.old) (L.told link.new) first (vec_len buffer.old) (vec_len buffer.new) }
    ensures replied { IfOk result (λ reply. reply ≢ Reply.Lost → Replies (L.told link.old) (L.told link.new) (take first buffer.old.items) reply) }
    ensures none { IfOk result (λ reply. reply ≡ Reply.Lost → HasNone (L.told link.old) (L.told link.new) (take first buffer.old.items)) }
    ensures lost { IfOk result (λ reply. reply ≡ Reply.Lost → Rose (L.faults link.old) (L.faults link.new)) }
    ensures count { IsCount (L.faults link.old) (L.faults link.new) }
    ensures room { vec_len buffer.new ≤ MAX_RESPONSE + 1 }
{
    let mut body = BodyReader::new(alloc, head);
    let mut filled = first;
    loop {
        let (bytes, _) = buffer.as_slice().split_at(filled);
        if let Some(reply) = settle(alloc, &mut body, bytes)? {
            return Ok(reply);
        }
        if filled > MAX_RESPONSE {
            return garbled(alloc, bytes);
        }
        make_room(buffer, filled)?;
        match read_more(link, buffer, filled) {
            Ok(0) => {
                let (bytes, _) = buffer.as_slice().split_at(filled);
                return close(alloc, &mut body, bytes);
            }
            Ok(count) => filled += count,
            Err(_) => return Ok(Reply::Lost),
        }
    }
}

/// Returns the reply if the bytes so far decide it: an answer, or garbled bytes if no continuation is a response.
fn settle(alloc: Global, body: &mut BodyReader, bytes: &[u8]) -> Result<Option<Reply>, OutOfMemory>
    requires begins { BeginsWith bytes.now body.old.head (drop body.old.head.len bytes.now) }
    requires awaits { Awaits bytes.now body.old }
    ensures head { body.new.head ≡ body.old.head }
    ensures settled { IfOk result (Settles bytes.now body.new) }
{
    match body.advance(bytes)? {
        Progress::More => Ok(None),
        Progress::Whole => Ok(Some(answered(alloc, body))),
        Progress::Never => Ok(Some(garbled(alloc, bytes)?)),
    }
}

/// Returns the reply if the link has ended after these bytes.
fn close(alloc: Global, body: &mut BodyReader, bytes: &[u8]) -> Result<Reply, OutOfMemory>
    requires begins { BeginsWith bytes.now body.old.head (drop body.old.head.len bytes.now) }
    requires awaits { Awaits bytes.now body.old }
    requires unfinished { IsUnfinished bytes.now body.old }
    ensures { IfOk result (IsReplyTo true bytes.now) }
{
    match body.decoder {
        Decoder::UntilClose => Ok(answered(alloc, body)),
        _ => garbled(alloc, bytes),
    }
}

/// Returns the answer that the reader has, and takes the content out of it.
fn answered(alloc: Global, body: &mut BodyReader) -> Reply
    ensures answer { result ≡ Reply.Answered body.old.head.status body.old.head.error body.old.content.items }
    ensures head { body.new.head ≡ body.old.head }
{
    let content = mem::replace(&mut body.content, Vec::new(alloc));
    Reply::Answered {
        status: body.head.status,
        error: body.head.error,
        body: Bytes::from_vec(content),
    }
}

/// Makes the reply for bytes that are no response.
fn garbled(alloc: Global, bytes: &[u8]) -> Result<Reply, OutOfMemory>
    ensures { IfOk result (λ reply. reply ≡ Reply.Garbled bytes.now) }
{
    Ok(Reply::Garbled {
        bytes: Bytes::from_vec(Vec::from_slice(alloc, bytes)?),
    })
}
