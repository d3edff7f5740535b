// The head of a response.
ghost use Rattle.std.specs.Prelude.{◌≡◌, ◌<◌, ◌≤◌, ℕ, length, map, min, false, All, codes};
ghost use Rattle.httparse.specs.Spans.{IsHeaderWithin, IsSectionWithin, header_bytes};
ghost use Rattle.http1.specs.Fields.{is_named};
ghost use Rattle.esm_invoke.specs.Response.{framing_of, framing_by_coding, has_function_error};
ghost use Rattle.esm_invoke.specs.ResponseRead.{ends_empty_line, HasNoHead, FindsHead, ParsesHead, SaysAt};

use esm_model::{MAX_HEAD, MAX_HEADER_LINES};
use http::StatusCode;
use http1::fields::{ContentLength, KnownFields, TransferEncoding};
use http1::framing::Framing;
use http1::text::eq_ignore_case;
use httparse::Status;
use httparse::spans::{EMPTY_HEADER_SPAN, HeaderSpan, ResponseSpans, parse_response};

/// What the head of a response says.
#[derive(Clone, Copy)]
pub struct Head {
    /// Its length in bytes, where the body begins.
    pub len: usize,
    pub status: u16,
    /// Whether it has the header `X-Amz-Function-Error`.
    pub error: bool,
    /// How the body is delimited.
    pub framing: Framing,
}

/// What a search for the head found.
#[derive(Clone, Copy)]
pub enum HeadSearch {
    Found(Head),
    /// The head has not arrived whole.
    More,
    /// No continuation is a head within the limits.
    Never,
}

/// Searches for a head at the front of the bytes, the first `looked` of which hold none. The head is parsed only if an empty
/// line has ended after these, so once if no empty line precedes it.
pub fn find_head(bytes: &[u8], looked: usize) -> HeadSearch
    requires within { looked ≤ length bytes.now }
    requires looked { HasNoHead looked bytes.now }
    ensures { FindsHead bytes.now result }
{
    match look(bytes, looked) {
        HeadSearch::More if bytes.len() >= MAX_HEAD => HeadSearch::Never,
        search => search,
    }
}

/// The same, but `More` also if there are too many bytes for a head.
fn look(bytes: &[u8], looked: usize) -> HeadSearch
    requires within { looked ≤ length bytes.now }
    requires looked { HasNoHead looked bytes.now }
    ensures { ParsesHead bytes.now (min (length bytes.now) MAX_HEAD) result }
{
    if !has_empty_line(bytes, looked) {
        return HeadSearch::More;
    }
    let count = bytes.len().min(MAX_HEAD);
    let (front, _) = bytes.split_at(count);
    parse(front)
}

/// Whether an empty line ends in the bytes from this place on.
fn has_empty_line(bytes: &[u8], from: usize) -> bool
    ensures { result ≡ false → (k : ℕ) → from ≤ k → k < length bytes.now → ends_empty_line bytes.now k ≡ false }
{
    for at in from..bytes.len() {
        if ends_empty_line(bytes, at) {
            return true;
        }
    }
    false
}

/// Whether an empty line ends at this place.
fn ends_empty_line(bytes: &[u8], at: usize) -> bool
    requires { at < length bytes.now }
    ensures { result ≡ ends_empty_line bytes.now at }
{
    bytes[at] == b'\n'
        && ((at >= 1 && bytes[at - 1] == b'\n')
            || (at >= 2 && bytes[at - 1] == b'\r' && bytes[at - 2] == b'\n'))
}

/// Parses the head at the front of the bytes, which are at most as many as a head may have.
fn parse(bytes: &[u8]) -> HeadSearch
    requires { length bytes.now ≤ MAX_HEAD }
    ensures { ParsesHead bytes.now (length bytes.now) result }
{
    let mut lines = [EMPTY_HEADER_SPAN; MAX_HEADER_LINES];
    match parse_response(bytes, &mut lines) {
        Ok(Status::Complete(spans)) => match said(bytes, &lines, &spans) {
            Some(head) => HeadSearch::Found(head),
            None => HeadSearch::Never,
        },
        Ok(Status::Partial) => HeadSearch::More,
        Err(_) => HeadSearch::Never,
    }
}

/// Returns what a head says that `httparse` found; none if its status is no status code or its fields do not delimit its
/// body.
fn said(bytes: &[u8], lines: &[HeaderSpan], spans: &ResponseSpans) -> Option<Head>
    requires within { IsSectionWithin bytes.now lines.now spans.now.len spans.now.headers }
    ensures { SaysAt bytes.now lines.now spans.now result }
{
    let (fields, _) = lines.split_at(spans.headers);
    let status = StatusCode::from_u16(spans.code).ok()?;
    let framing = framing(&KnownFields::from_spans(bytes, fields))?;
    Some(Head {
        len: spans.len,
        status: status.as_u16(),
        error: has_function_error(bytes, fields),
        framing,
    })
}

/// Whether one of the headers is `X-Amz-Function-Error`, in any case of letters (Lambda API Reference, `Invoke`).
fn has_function_error(bytes: &[u8], fields: &[HeaderSpan]) -> bool
    requires { All (IsHeaderWithin (length bytes.now)) fields.now }
    ensures { result ≡ has_function_error (map (header_bytes bytes.now) fields.now) }
{
    for field in fields {
        if is_error_header(bytes, field) {
            return true;
        }
    }
    false
}

/// Whether the header has that name.
fn is_error_header(bytes: &[u8], field: &HeaderSpan) -> bool
    requires { IsHeaderWithin (length bytes.now) field.now }
    ensures { result ≡ is_named (codes "X-Amz-Function-Error") (header_bytes bytes.now field.now) }
{
    eq_ignore_case(field.name.of(bytes), b"X-Amz-Function-Error")
}

/// Returns how the body is delimited, by the fields of its head (RFC 9112, section 6.3). `chunked` is the only coding
/// allowed.
fn framing(fields: &KnownFields) -> Option<Framing>
    ensures { result ≡ framing_of fields.now }
{
    match fields.content_length {
        ContentLength::Absent => framing_without_length(fields, Framing::UntilClose),
        ContentLength::Value(length) => framing_without_length(fields, Framing::Length(length)),
        ContentLength::Invalid => None,
    }
}

/// Returns how the body is delimited; by `otherwise` if no transfer coding is given.
fn framing_without_length(fields: &KnownFields, otherwise: Framing) -> Option<Framing>
    ensures { result ≡ framing_by_coding otherwise fields.now.transfer_encoding fields.now.other_coding }
{
    match fields.transfer_encoding {
        TransferEncoding::Absent => Some(otherwise),
        TransferEncoding::Chunked if !fields.other_coding => Some(Framing::Chunked),
        _ => None,
    }
}
