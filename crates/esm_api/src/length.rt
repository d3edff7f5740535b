// How long a request's body is, as the fields of its head state it.
ghost use Rattle.std.specs.Prelude.{◌≡◌, ◌+◌, List, ℕ, [], ◌∷◌, ◌++◌, length, map, All, if◌then◌else◌};
ghost use Rattle.httparse.specs.Spans.{IsHeaderWithin, header_bytes};
ghost use Rattle.http1.specs.Fields.{is_named, values_named};
ghost use Rattle.esm_api.specs.Plan.{body_length, length_by_values, length_of};
ghost use Rattle.esm_api.specs.HeadRead.{IsNamed, IsNamedWithin};

use http1::text::eq_ignore_case;
use httparse::spans::{HeaderSpan, Span};

/// The most bytes of a request's body.
pub const MAX_REQUEST_BODY: usize = 65_536;

/// The length of a request's body.
#[derive(Clone, Copy)]
pub enum BodyLength {
    /// No single `Content-Length` of digits states it alone.
    Missing,
    /// It is above `MAX_REQUEST_BODY`.
    TooLong,
    Bytes(usize),
}

/// How many headers have one name.
#[derive(Clone, Copy)]
pub enum Named {
    None,
    /// The one header, by its value.
    One(Span),
    Several,
}

/// The length that the fields state: that of the single `Content-Length` of digits, where there is no `Transfer-Encoding`
/// (RFC 9112, section 6).
pub fn body_length(bytes: &[u8], fields: &[HeaderSpan]) -> BodyLength
    requires { All (IsHeaderWithin (length bytes.now)) fields.now }
    ensures { result ≡ body_length (map (header_bytes bytes.now) fields.now) }
{
    let lengths = headers_named(bytes, fields, b"content-length");
    let codings = headers_named(bytes, fields, b"transfer-encoding");
    length_by(bytes, lengths, codings)
}

/// The same, from the headers with these two names.
fn length_by(bytes: &[u8], lengths: Named, codings: Named) -> BodyLength
    requires { IsNamedWithin (length bytes.now) lengths }
    ensures { (texts others : List (List ℕ)) → IsNamed bytes.now texts lengths → IsNamed bytes.now others codings
        → result ≡ length_by_values texts others }
{
    match lengths {
        Named::One(value) => match codings {
            Named::None => number(value.of(bytes)),
            _ => BodyLength::Missing,
        },
        _ => BodyLength::Missing,
    }
}

/// The headers with this name, in any case of letters.
fn headers_named(bytes: &[u8], fields: &[HeaderSpan], name: &[u8]) -> Named
    requires { All (IsHeaderWithin (length bytes.now)) fields.now }
    ensures values { IsNamed bytes.now (values_named name.now (map (header_bytes bytes.now) fields.now)) result }
    ensures within { IsNamedWithin (length bytes.now) result }
{
    let mut found = Named::None;
    for field in fields {
        found = also(bytes, field, name, found);
    }
    found
}

/// `found`, and this field too if it has the name.
fn also(bytes: &[u8], field: &HeaderSpan, name: &[u8], found: Named) -> Named
    requires field { IsHeaderWithin (length bytes.now) field.now }
    requires found { IsNamedWithin (length bytes.now) found }
    ensures within { IsNamedWithin (length bytes.now) result }
    ensures values { (values : List (List ℕ)) → IsNamed bytes.now values found
        → IsNamed bytes.now (values ++ (if is_named name.now (header_bytes bytes.now field.now) then
        (header_bytes bytes.now field.now).1 ∷ [] else [])) result }
{
    if !eq_ignore_case(field.name.of(bytes), name) {
        return found;
    }
    match found {
        Named::None => Named::One(field.value),
        _ => Named::Several,
    }
}

/// The number that the digits of the text write, if it is within the bound.
fn number(text: &[u8]) -> BodyLength
    ensures { result ≡ length_of text.now }
{
    if text.is_empty() {
        return BodyLength::Missing;
    }
    let mut count = 0;
    for digit in text {
        if !digit.is_ascii_digit() {
            return BodyLength::Missing;
        }
        count = (count * 10 + usize::from(*digit - b'0')).min(MAX_REQUEST_BODY + 1);
    }
    if count > MAX_REQUEST_BODY {
        BodyLength::TooLong
    } else {
        BodyLength::Bytes(count)
    }
}
