// Tests of reading the bytes of a request over a link in memory.
ghost use Rattle.std.specs.Prelude.{◌<◌};

use esm_api::{Served, serve_one};
use esm_fixtures::disk;
use esm_io::{MemDisk, MemLink};
use esm_journal::Journal;
use esm_model::OutOfMemory;
use esm_registry::Registry;
use std::alloc::{AllocError, Global};
use std::test::Fail;

/// The answer to a target with a query.
const QUERY: &[u8] =
    b"HTTP/1.1 400 Bad Request\r\nContent-Type: application/json\r\nx-amzn-ErrorType: InvalidParameterValueException\r\nContent-Length: 33\r\nConnection: close\r\n\r\n{\"Type\":\"User\",\"Message\":\"query\"}";

/// The answer to a request from elsewhere.
const ELSEWHERE: &[u8] =
    b"HTTP/1.1 403 Forbidden\r\nContent-Type: application/json\r\nx-amzn-ErrorType: AccessDeniedException\r\nContent-Length: 32\r\nConnection: close\r\n\r\n{\"Type\":\"User\",\"Message\":\"host\"}";

/// A request by a name that was made to resolve to this machine. Its target also has a query.
const BY_NAME: &[u8] =
    b"GET /2015-03-31/event-source-mappings?x=1 HTTP/1.1\r\nHost: evil.example\r\n\r\n";

/// A request that a web page makes.
const BY_PAGE: &[u8] =
    b"GET /2015-03-31/event-source-mappings HTTP/1.1\r\nHost: localhost:9002\r\norigin: null\r\n\r\n";

/// The answer with an empty list.
const NONE: &[u8] =
    b"HTTP/1.1 200 OK\r\nContent-Type: application/json\r\nContent-Length: 26\r\nConnection: close\r\n\r\n{\"EventSourceMappings\":[]}";

/// A registry without mappings.
fn fresh(alloc: Global) -> Result<Registry<MemDisk>, Fail> {
    let journal = Journal::init(alloc, disk(alloc, &[], &[])?)?;
    Ok(Registry::open(alloc, journal).ok().ok_or("registry")?)
}

/// A link that gives the request in pieces of this length; its calls with these numbers fail.
fn link(alloc: Global, request: &[u8], piece: usize, fails: &[u64]) -> Result<MemLink, AllocError>
    requires { 0 < piece }
{
    let bytes = Vec::from_slice(alloc, request)?;
    let fails = Vec::from_slice(alloc, fails)?;
    Ok(MemLink::new(alloc, bytes, piece, fails))
}

/// Serves a request that arrives in pieces of this length, over a link whose calls with these numbers fail. Returns the
/// outcome, and what was written.
fn exchange(
    alloc: Global,
    registry: &mut Registry<MemDisk>,
    request: &[u8],
    piece: usize,
    fails: &[u64],
) -> Result<(Served, Vec<u8>), OutOfMemory>
    requires { 0 < piece }
{
    if registry.down() {
        return Ok((Served::LinkFault, Vec::new(alloc)));
    }
    let mut link = link(alloc, request, piece, fails)?;
    let served = serve_one(alloc, &mut link, registry, 0)?;
    Ok((served, Vec::from_slice(alloc, link.written())?))
}

/// Whether serving a request in pieces of this length has this outcome and writes this.
fn is_served(
    alloc: Global,
    registry: &mut Registry<MemDisk>,
    request: &[u8],
    piece: usize,
    expected: (Served, &[u8]),
) -> Result<bool, OutOfMemory>
    requires { 0 < piece }
{
    let (served, written) = exchange(alloc, registry, request, piece, &[])?;
    Ok(served == expected.0 && written.as_slice() == expected.1)
}

/// The first length of pieces with which a target with a query is served differently.
fn first_other_piece(
    alloc: Global,
    registry: &mut Registry<MemDisk>,
) -> Result<Option<usize>, OutOfMemory> {
    let request =
        b"GET /2015-03-31/event-source-mappings?x=1 HTTP/1.1\r\nHost: LocalHost:9002\r\n\r\n";
    for piece in 1..200 {
        let expected = (Served::Answered(400), QUERY);
        if !is_served(alloc, registry, request, piece, expected)? {
            return Ok(Some(piece));
        }
    }
    Ok(None)
}

#[test]
fn a_request_in_pieces_of_any_size(rt: HostRuntime) -> Result<(), Fail> {
    let mut registry = fresh(rt.alloc())?;
    assert_eq!(rt; first_other_piece(rt.alloc(), &mut registry)?, None);
    Ok(())
}

/// Whether requests from elsewhere are refused.
fn is_elsewhere_refused(
    alloc: Global,
    registry: &mut Registry<MemDisk>,
) -> Result<bool, OutOfMemory> {
    let expected = (Served::Answered(403), ELSEWHERE);
    let by_name = is_served(alloc, registry, BY_NAME, 4_096, expected)?;
    let by_page = is_served(alloc, registry, BY_PAGE, 4_096, expected)?;
    Ok(by_name && by_page)
}

#[test]
fn a_request_from_elsewhere(rt: HostRuntime) -> Result<(), Fail> {
    let mut registry = fresh(rt.alloc())?;
    assert!(rt; is_elsewhere_refused(rt.alloc(), &mut registry)?);
    Ok(())
}

/// Whether the list of a fresh registry takes one read and one write; the link would fail at the next call.
fn is_list_read_once(alloc: Global) -> Result<bool, Fail> {
    let list = b"GET /2015-03-31/event-source-mappings HTTP/1.1\r\n\r\n";
    let mut registry = fresh(alloc)?;
    let (served, written) = exchange(alloc, &mut registry, list, 4_096, &[2])?;
    Ok(served == Served::Answered(200) && written.as_slice() == NONE)
}

#[test]
fn no_read_behind_a_request(rt: HostRuntime) -> Result<(), Fail> {
    assert!(rt; is_list_read_once(rt.alloc())?);
    Ok(())
}
