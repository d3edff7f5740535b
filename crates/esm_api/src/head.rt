// Finding and parsing the head of a request.
ghost use Rattle.std.specs.Prelude.{◌≡◌, ◌<◌, ◌≤◌, ◌+◌, length, take, nat_le, ◌==◌, IfOk};
ghost use Rattle.httparse.specs.Spans.{IsRequestWithin, IsRequestOf};
ghost use Rattle.esm_api.specs.Head.{from_request_line, line_count};
ghost use Rattle.esm_api.specs.HeadRead.{EndsLine, HasNoneYet, FindsHead, LooksForHead, SaysAt};

use crate::plan::{Plan, plan_with};
use crate::refusal::Refusal;
use esm_model::{MAX_HEAD, MAX_HEADER_LINES, OutOfMemory};
use httparse::spans::{EMPTY_HEADER_SPAN, HeaderSpan, RequestSpans, parse_request};
use httparse::{Error, Status};
use memchr::memrchr;
use std::alloc::Global;

/// What a head says: its length in bytes, behind which the body begins, and what it decides alone.
#[derive(Clone, Copy)]
pub struct Head {
    pub len: usize,
    pub plan: Plan,
}

/// A head that is refused.
const BAD_HEAD: Head = Head {
    len: 0,
    plan: Plan::Refuse(Refusal::Head),
};

/// Looks for a head at the front of the bytes. An earlier look at the first `looked` bytes found no whole head, and no
/// reason to refuse them. The head is parsed only if a line ends behind those, so at most once for each of its lines.
pub fn find_head(alloc: Global, bytes: &[u8], looked: usize) -> Result<Option<Head>, OutOfMemory>
    requires within { looked ≤ length bytes.now }
    requires short { length bytes.now ≤ MAX_HEAD }
    requires looked { HasNoneYet (take looked bytes.now) }
    ensures { IfOk result (FindsHead bytes.now) }
{
    match look(alloc, bytes, looked)? {
        Some(head) => Ok(Some(head)),
        None if bytes.len() >= MAX_HEAD => Ok(Some(BAD_HEAD)),
        None => Ok(None),
    }
}

/// The same, but bytes that are too many for a head are not refused.
fn look(alloc: Global, bytes: &[u8], looked: usize) -> Result<Option<Head>, OutOfMemory>
    requires within { looked ≤ length bytes.now }
    requires short { length bytes.now ≤ MAX_HEAD }
    requires looked { HasNoneYet (take looked bytes.now) }
    ensures { IfOk result (LooksForHead bytes.now) }
{
    let (_, fresh) = bytes.split_at(looked);
    match memrchr(b'\n', fresh) {
        None => Ok(None),
        Some(at) => {
            let (lines, _) = bytes.split_at(looked + at + 1);
            parse(alloc, lines)
        }
    }
}

/// Parses the head at the front of these bytes, which end with a line feed.
fn parse(alloc: Global, lines: &[u8]) -> Result<Option<Head>, OutOfMemory>
    requires short { length lines.now ≤ MAX_HEAD }
    requires ends { EndsLine lines.now }
    ensures { IfOk result (LooksForHead lines.now) }
{
    let mut fields = [EMPTY_HEADER_SPAN; MAX_HEADER_LINES];
    match parse_request(lines, &mut fields) {
        Ok(Status::Complete(spans)) => Ok(Some(said(alloc, lines, &fields, &spans)?)),
        Ok(Status::Partial) if has_many_lines(lines) => Ok(Some(BAD_HEAD)),
        Ok(Status::Partial) => Ok(None),
        Err(Error::TooManyHeaders) => Ok(Some(BAD_HEAD)),
        Err(_) => Ok(Some(BAD_HEAD)),
    }
}

/// Whether the request line and more header lines than the limit have arrived.
#[tactic(auto, unfolding(crate::specs::Head::line_feeds))]
fn has_many_lines(lines: &[u8]) -> bool
    ensures { result ≡ nat_le (MAX_HEADER_LINES + 2) (line_count lines.now) }
{
    let count = from_request_line(lines)
        .iter()
        .filter(|b| **b == b'\n')
        .count();
    MAX_HEADER_LINES + 2 <= count
}

/// The bytes from the request line on.
fn from_request_line(bytes: &[u8]) -> &[u8]
    ensures { result.now ≡ from_request_line bytes.now }
{
    let mut rest = bytes;
    while let [first, others @ ..] = rest
        && (*first == b'\r' || *first == b'\n')
    {
        rest = others;
    }
    rest
}

/// The head whose spans `httparse` found.
fn said(
    alloc: Global,
    bytes: &[u8],
    lines: &[HeaderSpan],
    spans: &RequestSpans,
) -> Result<Head, OutOfMemory>
    requires within { IsRequestWithin bytes.now lines.now spans.now }
    requires complete { IsRequestOf bytes.now lines.now spans.now }
    ensures { IfOk result (SaysAt bytes.now lines.now spans.now) }
{
    let (fields, _) = lines.split_at(spans.headers);
    let target = spans.path.of(bytes);
    let plan = plan_with(alloc, bytes, fields, target, spans.method.of(bytes))?;
    Ok(Head {
        len: spans.len,
        plan,
    })
}
