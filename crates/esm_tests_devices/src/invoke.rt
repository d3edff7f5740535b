// The worked examples of a call, with the responses that a link in memory gives.
ghost use Rattle.std.specs.Prelude.{◌<◌, ◌≤◌};

use esm_invoke::{HttpCaller, invoke};
use esm_io::{Caller, MemLink};
use esm_model::{OutOfMemory, Reply};
use std::alloc::{AllocError, Global};
use std::io::{Read, Write};
use std::net::{Net, TcpListener};
use std::rt::Clock;
use std::test::Fail;
use std::time::Duration;
use std::{io, thread};

/// The outcome of a call: an answer by its status and error, a garbled response by the number of bytes that were read.
#[derive(Clone, Copy, Debug, PartialEq, Eq)]
enum Outcome {
    Answered(u16, bool),
    Garbled(usize),
    Lost,
    NoMemory,
}

use Outcome::{Answered, Garbled, Lost};

/// A link that gives the response in pieces of this length; its calls with these numbers fail.
fn link(alloc: Global, response: &[u8], piece: usize, fails: &[u64]) -> Result<MemLink, AllocError>
    requires { 0 < piece }
{
    let bytes = Vec::from_slice(alloc, response)?;
    let fails = Vec::from_slice(alloc, fails)?;
    Ok(MemLink::new(alloc, bytes, piece, fails))
}

/// The reply to this response, with what the work area already has.
fn reply_in(
    alloc: Global,
    response: &[u8],
    piece: usize,
    fails: &[u64],
    buffer: &mut Vec<u8>,
) -> Result<Reply, OutOfMemory>
    requires { 0 < piece }
{
    let mut link = link(alloc, response, piece, fails)?;
    invoke(alloc, &mut link, "f", b"{}", buffer)
}

fn reply_to(
    alloc: Global,
    response: &[u8],
    piece: usize,
    fails: &[u64],
) -> Result<Reply, OutOfMemory>
    requires { 0 < piece }
{
    let mut buffer = Vec::new(alloc);
    reply_in(alloc, response, piece, fails, &mut buffer)
}

fn judged(reply: &Result<Reply, OutOfMemory>) -> Outcome {
    match reply {
        Ok(Reply::Answered { status, error, .. }) => Answered(*status, *error),
        Ok(Reply::Garbled { bytes }) => Garbled(bytes.as_slice().len()),
        Ok(Reply::Lost) => Lost,
        Err(OutOfMemory) => Outcome::NoMemory,
    }
}

fn outcome_of(alloc: Global, response: &[u8], piece: usize, fails: &[u64]) -> Outcome
    requires { 0 < piece }
{
    judged(&reply_to(alloc, response, piece, fails))
}

/// Whether the response is answered with this status, error and body.
fn answers(alloc: Global, response: &[u8], status: u16, error: bool, body: &[u8]) -> bool {
    match reply_to(alloc, response, 1, &[]) {
        Ok(
            Reply::Answered {
                status: s,
                error: e,
                body: b,
            },
        ) => { s == status && e == error && b.as_slice() == body }
        _ => false,
    }
}

/// Whether the response is garbled, and its first `count` bytes were read.
fn is_garbled(alloc: Global, response: &[u8], count: usize) -> bool {
    match reply_to(alloc, response, 1, &[]) {
        Ok(Reply::Garbled { bytes }) => bytes.as_slice().len() == count
            && response.starts_with(bytes.as_slice()),
        _ => false,
    }
}

const TWO_BYTES: &[u8] = b"HTTP/1.1 200 OK\r\nContent-Length: 2\r\n\r\n{}";

/// Responses, with the status, the error and the body of their answers: `reply-read`, `chunked-reply`, `error-header`,
/// and one with two lengths.
const ANSWERED: [(&[u8], u16, bool, &[u8]); 4] = [
    (TWO_BYTES, 200, false, b"{}"),
    (
        b"HTTP/1.1 200 OK\r\nTransfer-Encoding: chunked\r\n\r\n2\r\n{}\r\n0\r\n\r\n",
        200,
        false,
        b"{}",
    ),
    (
        b"HTTP/1.1 200 OK\r\nx-amz-function-error: Unhandled\r\n\r\nno",
        200,
        true,
        b"no",
    ),
    (
        b"HTTP/1.1 429 Slow\r\nContent-Length: 1\r\ncontent-length: 1\r\n\r\n1 more",
        429,
        false,
        b"1",
    ),
];

/// Responses that are garbled, and how many bytes of each are read: `cut-reply`, and codings that are not valid.
const GARBLED: [(&[u8], usize); 4] = [
    (b"HTTP/1.1 2", 10),
    (b"HTTP/1.1 200 OK\r\nContent-Length: 3\r\n\r\n{}", 40),
    (
        b"HTTP/1.1 200 OK\r\nContent-Length: 1\r\ncontent-length: 2\r\n\r\n{}",
        57,
    ),
    (b"HTTP/1.1 200 OK\r\nTransfer-Encoding: gzip\r\n\r\n{}", 44),
];

#[test]
fn answered_responses(rt: HostRuntime) {
    for (response, status, error, body) in ANSWERED {
        assert!(rt;
            answers(rt.alloc(), response, status, error, body),
            "{body:?}"
        );
    }
}

#[test]
fn garbled_responses(rt: HostRuntime) {
    for (response, count) in GARBLED {
        assert!(rt; is_garbled(rt.alloc(), response, count), "{count}");
    }
}

const UP_TO_THE_END: &[u8] = b"HTTP/1.1 200 OK\r\n\r\n{}";

/// Responses of links that give and take 100 bytes a call, so a request takes two writes and a response one read; the
/// numbers of the calls that fail; and the outcome.
const FAILING: [(&[u8], &[u64], Outcome); 13] = [
    // The request is sent whole; a read fails, or the call that would fail is not made.
    (TWO_BYTES, &[2], Lost),
    (UP_TO_THE_END, &[3], Lost),
    (TWO_BYTES, &[3], Answered(200, false)),
    // A write fails, and a response is already there whose own length shows that it is whole.
    (TWO_BYTES, &[0], Answered(200, false)),
    (TWO_BYTES, &[1], Answered(200, false)),
    (
        b"HTTP/1.1 200 OK\r\nTransfer-Encoding: chunked\r\n\r\n2\r\n{}\r\n0\r\n\r\n",
        &[1],
        Answered(200, false),
    ),
    (
        b"HTTP/1.1 429 Slow\r\nContent-Length: 0\r\n\r\n",
        &[1],
        Answered(429, false),
    ),
    // A write fails, and a read fails too.
    (TWO_BYTES, &[1, 2], Lost),
    // A write fails, and only the link's end could end the response, which may be cut off there.
    (UP_TO_THE_END, &[1], Lost),
    // A write fails, and the response is cut off: `cut-reply`, and nothing at all.
    (
        b"HTTP/1.1 200 OK\r\nContent-Length: 3\r\n\r\n{}",
        &[0],
        Lost,
    ),
    (b"HTTP/1.1 2", &[1], Lost),
    (b"", &[1], Lost),
    // A write fails, and what arrived is not a response.
    (b"HTTP/9 what?\r\n\r\n", &[1], Lost),
];

#[test]
fn links_that_fail(rt: HostRuntime) {
    for (response, fails, outcome) in FAILING {
        assert_eq!(rt; outcome_of(rt.alloc(), response, 100, fails), outcome);
    }
}

/// The outcome of a response, and the capacity of its work area then.
fn work_area(alloc: Global) -> (Outcome, usize) {
    let mut buffer = Vec::new(alloc);
    let outcome = judged(&reply_in(alloc, TWO_BYTES, 4_096, &[], &mut buffer));
    (outcome, buffer.capacity())
}

#[test]
fn small_work_area(rt: HostRuntime) {
    let (outcome, capacity) = work_area(rt.alloc());
    assert_eq!(rt; outcome, Answered(200, false));
    assert!(rt; capacity < 16_384);
}

/// Whether the reply to a cut head has the bytes of that head, although the work area has a whole response from before.
fn is_area_cleared(alloc: Global) -> Result<bool, OutOfMemory> {
    let head = b"HTTP/1.1 200 OK\r\n".as_slice();
    let mut buffer = Vec::from_slice(alloc, TWO_BYTES)?;
    match reply_in(alloc, head, 4_096, &[], &mut buffer)? {
        Reply::Garbled { bytes } => Ok(bytes.as_slice() == head),
        _ => Ok(false),
    }
}

#[test]
fn work_area_of_another_call(rt: HostRuntime) -> Result<(), Fail> {
    assert!(rt; is_area_cleared(rt.alloc())?);
    Ok(())
}

/// A response without a body whose head has `len` bytes.
fn long_head(alloc: Global, len: usize) -> Result<Vec<u8>, AllocError>
    requires low { 24 ≤ len }
    requires high { len ≤ 20000 }
{
    let mut text = Vec::from_slice(alloc, b"HTTP/1.1 200 OK\r\na: ")?;
    for _ in 24..len {
        text.push(b'x')?;
    }
    text.extend_from_slice(b"\r\n\r\n")?;
    Ok(text)
}

/// Whether a response whose head has `len` bytes is answered.
fn is_head_answered(alloc: Global, len: usize) -> Result<bool, AllocError>
    requires low { 24 ≤ len }
    requires high { len ≤ 20000 }
{
    let response = long_head(alloc, len)?;
    Ok(answers(alloc, response.as_slice(), 200, false, b""))
}

/// Whether it is garbled after `count` bytes were read.
fn is_head_garbled(alloc: Global, len: usize, count: usize) -> Result<bool, AllocError>
    requires low { 24 ≤ len }
    requires high { len ≤ 20000 }
{
    let response = long_head(alloc, len)?;
    Ok(is_garbled(alloc, response.as_slice(), count))
}

#[test]
fn hostile_head(rt: HostRuntime) -> Result<(), Fail> {
    assert!(rt; is_head_answered(rt.alloc(), 16_384)?);
    assert!(rt; is_head_garbled(rt.alloc(), 16_385, 16_384)?);
    Ok(())
}

/// Whether the request is written, and the reply is garbled if nothing is answered.
fn is_requested(alloc: Global) -> bool {
    let mut link = MemLink::new(alloc, Vec::new(alloc), 4_096, Vec::new(alloc));
    let reply = invoke(alloc, &mut link, "f", b"{}", &mut Vec::new(alloc));
    judged(&reply) == Garbled(0) && link.written() == REQUEST
}

#[test]
fn request_bytes(rt: HostRuntime) {
    assert!(rt; is_requested(rt.alloc()));
}

/// The request for the event `{}` of the function `f`.
const REQUEST: &[u8] =
    b"POST /2015-03-31/functions/f/invocations HTTP/1.1\r\nHost: 127.0.0.1\r\nContent-Type: application/json\r\nContent-Length: 2\r\nConnection: close\r\n\r\n{}";

/// Accepts one connection and answers it. Returns whether it brought the request.
fn serve_once(listener: &TcpListener) -> io::Result<bool> {
    let (mut stream, _) = listener.accept()?;
    let mut request = [0; 142];
    stream.read_exact(&mut request)?;
    stream.write_all(b"HTTP/1.1 200 OK\r\nContent-Length: 4\r\n\r\nnull")?;
    Ok(request.as_slice() == REQUEST)
}

/// Accepts one connection, answers before it has read anything, and closes it.
fn refuse_once(listener: &TcpListener) -> io::Result<()> {
    let (mut stream, _) = listener.accept()?;
    stream.write_all(b"HTTP/1.1 429 Slow\r\nContent-Length: 0\r\n\r\n")
}

/// The outcome of a call on the port with this event.
fn called<R: Net + Clock + Clone>(
    rt: &R,
    alloc: Global,
    port: u16,
    event: &[u8],
) -> Result<Outcome, OutOfMemory> {
    let mut caller = HttpCaller::new(rt, alloc, port, Duration::from_secs(10))?;
    Ok(judged(&caller.call(alloc, "f", event)))
}

#[test]
fn http_caller_against_a_listener(rt: HostRuntime) -> Result<(), Fail> {
    let listener = TcpListener::bind(&rt, "127.0.0.1:0")?;
    let port = listener.local_addr()?.port();
    let server = thread::spawn(&rt, move || matches!(serve_once(&listener), Ok(true)))?;
    assert_eq!(rt; called(&rt, rt.alloc(), port, b"{}")?, Answered(200, false));
    assert!(rt; server.join(&rt));
    Ok(())
}

/// An event that does not fit into what the system buffers between the two ends of a connection.
fn large_event(alloc: Global) -> Result<Vec<u8>, AllocError> {
    let mut event = Vec::new(alloc);
    event.resize(6_000_000, b' ')?;
    Ok(event)
}

#[test]
fn http_caller_answered_early(rt: HostRuntime) -> Result<(), Fail> {
    let event = large_event(rt.alloc())?;
    let listener = TcpListener::bind(&rt, "127.0.0.1:0")?;
    let port = listener.local_addr()?.port();
    let server = thread::spawn(&rt, move || refuse_once(&listener).is_ok())?;
    assert_eq!(rt;
        called(&rt, rt.alloc(), port, &event)?,
        Answered(429, false)
    );
    assert!(rt; server.join(&rt));
    Ok(())
}

/// A call's limit of time is kept if a function accepts the connection and sends nothing.
#[test]
fn http_caller_of_a_silent_function(rt: HostRuntime) -> Result<(), Fail> {
    let listener = TcpListener::bind(&rt, "127.0.0.1:0")?;
    let port = listener.local_addr()?.port();
    let limit = Duration::from_millis(50);
    let mut caller = HttpCaller::new(&rt, rt.alloc(), port, limit)?;
    let start = rt.monotonic()?;
    assert_eq!(rt; judged(&caller.call(rt.alloc(), "f", b"{}")), Lost);
    let gone = rt.monotonic()?.saturating_sub(start);
    assert!(rt; gone >= limit && listener.accept().is_ok());
    Ok(())
}
