//! Recognizing an element of an event in the form in which this engine writes a stream's events.
ghost use Rattle.std.specs.Prelude.{◌≡◌, ◌++◌, IfOk, IfSome, IsTrue};
ghost use Rattle.std.specs.Char.{is_ascii_digit};
ghost use Rattle.std.specs.List.{list_all};
ghost use Rattle.esm_ddb.specs.OwnForm.{AreParts, IsDecoded, IsMoment, Passes, PassesData, PassesFront, PassesId, PassesMoment};
ghost use Rattle.esm_ddb.specs.OwnForm.{PassesNumber, PassesTail, is_unescaped};

use base64::DecodeAllocError;
use base64::engine::general_purpose::STANDARD;
use esm_model::OutOfMemory;
use memchr::memchr;

/// Returns what follows the part, if the text begins with it.
pub fn after_part<'a>(text: &'a [u8], part: &[u8]) -> Option<&'a [u8]>
    ensures { IfSome result (λ rest. text.entry.now ≡ part.now ++ rest.now) }
{
    text.strip_prefix(part)
}

fn are_unescaped(text: &[u8]) -> bool
    ensures { result ≡ list_all is_unescaped text.now }
{
    text.iter()
        .all(|b| 32 <= *b && *b < 128 && *b != b'"' && *b != b'\\')
}

fn are_digits(text: &[u8]) -> bool
    ensures { result ≡ list_all is_ascii_digit text.now }
{
    text.iter().all(|b| b.is_ascii_digit())
}

/// What follows the bytes up to the next quotation mark, if none of them needs an escape.
fn after_text(text: &[u8]) -> Option<&[u8]>
    ensures { IfSome result (λ rest. Passes is_unescaped text.now rest.now) }
{
    let at = memchr(b'"', text)?;
    are_unescaped(&text[..at]).then_some(&text[at..])
}

/// Whether they are the seconds, one or more, and the three digits of the milliseconds.
fn are_parts(whole: &[u8], fraction: &[u8]) -> bool
    ensures { IsTrue result → AreParts whole.now fraction.now }
{
    if whole.is_empty() {
        return false;
    }
    if 12 < whole.len() {
        return false;
    }
    if fraction.len() != 3 {
        return false;
    }
    if whole[0] == b'0' {
        return false;
    }
    if !are_digits(whole) {
        return false;
    }
    are_digits(fraction)
}

/// Whether the text is seconds, a point and three digits.
fn is_moment(text: &[u8]) -> bool
    ensures { IsTrue result → IsMoment text.now }
{
    if text.len() < 5 {
        return false;
    }
    let point = text.len() - 4;
    if text[point] != b'.' {
        return false;
    }
    are_parts(&text[..point], &text[point + 1..])
}

/// What follows the moment: the text from the next brace on.
fn after_moment(text: &[u8]) -> Option<&[u8]>
    ensures { IfSome result (λ rest. PassesMoment text.now rest.now) }
{
    let at = memchr(b'}', text)?;
    is_moment(&text[..at]).then_some(&text[at..])
}

/// What follows the beginning of an element: its key, its sequence number and the name of its data.
fn after_number(text: &[u8]) -> Option<&[u8]>
    ensures { IfSome result (λ rest. PassesNumber text.now rest.now) }
{
    let key = after_part(
        text,
        b"{\"kinesis\":{\"kinesisSchemaVersion\":\"1.0\",\"partitionKey\":\"",
    )?;
    let behind_key = after_text(key)?;
    let seq = after_part(behind_key, b"\",\"sequenceNumber\":\"")?;
    let behind_seq = after_text(seq)?;
    after_part(behind_seq, b"\",\"data\":\"")
}

/// Appends the bytes that the text encodes, and returns whether it is standard padded base64.
fn push_decoded(out: &mut Vec<u8>, text: &[u8]) -> Result<bool, OutOfMemory>
    ensures { IfOk result (λ is. IsTrue is → IsDecoded text.now out.old.items out.new.items) }
{
    match STANDARD.decode_vec(text, out) {
        Ok(()) => Ok(true),
        Err(DecodeAllocError::DecodeError(_)) => Ok(false),
        Err(DecodeAllocError::OutOfMemory) => Err(OutOfMemory),
    }
}

/// Appends the bytes that the text up to the next quotation mark encodes, and returns what follows it; `None` if it is
/// not standard padded base64.
fn push_data<'a>(out: &mut Vec<u8>, text: &'a [u8]) -> Result<Option<&'a [u8]>, OutOfMemory>
    ensures { IfOk result (λ o. IfSome o (λ rest. PassesData text.entry.now rest.now out.old.items out.new.items)) }
{
    let Some(at) = memchr(b'"', text) else {
        return Ok(None);
    };
    let is_data = push_decoded(out, &text[..at])?;
    if is_data {
        Ok(Some(&text[at..]))
    } else {
        Ok(None)
    }
}

/// What follows the element's moment and its id, which come after its data.
fn after_id(text: &[u8]) -> Option<&[u8]>
    ensures { IfSome result (λ rest. PassesId text.now rest.now) }
{
    let moment = after_part(text, b"\",\"approximateArrivalTimestamp\":")?;
    let behind_moment = after_moment(moment)?;
    let id = after_part(
        behind_moment,
        b"},\"eventSource\":\"aws:kinesis\",\"eventVersion\":\"1.0\",\"eventID\":\"",
    )?;
    after_text(id)
}

/// Appends the element's data and returns what follows its id; `None` if the element is not in this form.
pub fn push_front<'a>(out: &mut Vec<u8>, text: &'a [u8]) -> Result<Option<&'a [u8]>, OutOfMemory>
    ensures { IfOk result (λ o. IfSome o (λ rest. PassesFront text.entry.now rest.now out.old.items out.new.items)) }
{
    let Some(data) = after_number(text) else {
        return Ok(None);
    };
    let Some(behind) = push_data(out, data)? else {
        return Ok(None);
    };
    Ok(after_id(behind))
}

/// Returns what an element has behind its id, and what follows the element; `None` if it is not in this form.
pub fn tail_of(text: &[u8]) -> Option<(&[u8], &[u8])>
    ensures { IfSome result (λ p. PassesTail text.now p.0.now p.1.now) }
{
    let role = after_part(
        text,
        b"\",\"eventName\":\"aws:kinesis:record\",\"invokeIdentityArn\":\"",
    )?;
    let behind_role = after_text(role)?;
    let region = after_part(behind_role, b"\",\"awsRegion\":\"")?;
    let behind_region = after_text(region)?;
    let arn = after_part(behind_region, b"\",\"eventSourceARN\":\"")?;
    let behind_arn = after_text(arn)?;
    let rest = after_part(behind_arn, b"\"}")?;
    Some((&text[..text.len() - rest.len()], rest))
}
