// Writing the bytes of an answer.
ghost use Rattle.std.specs.Prelude.{◌≡◌, ◌++◌, IfOk, OnOk, Some};
ghost use Rattle.esm_api.specs.Answer.{answer_text, refusal_text, status_lines, error_line, last_lines, refusal_body, phrase_of};

use esm_model::OutOfMemory;
use http::StatusCode;
use itoa::Buffer;
use std::alloc::Global;

/// Returns the answer with this status and body (RFC 9112).
pub fn answer(alloc: Global, status: u16, body: &[u8]) -> Result<Vec<u8>, OutOfMemory>
    ensures { IfOk result (λ text. text.items ≡ answer_text status body.now) }
{
    let mut text = Vec::new(alloc);
    push_status(&mut text, status)?;
    push_last(&mut text, body.len())?;
    text.extend_from_slice(body)?;
    Ok(text)
}

/// Returns the answer that refuses with this status, error and message (Lambda API Reference of 2015-03-31, `Errors`).
pub fn refusal(
    alloc: Global,
    status: u16,
    error: &str,
    message: &str,
) -> Result<Vec<u8>, OutOfMemory>
    ensures { IfOk result (λ text. text.items ≡ refusal_text status error.now message.now) }
{
    let mut text = Vec::new(alloc);
    let body = refusal_body(alloc, message)?;
    push_status(&mut text, status)?;
    push_error(&mut text, error)?;
    push_last(&mut text, body.len())?;
    text.extend_from_slice(&body)?;
    Ok(text)
}

/// The body of a refusal.
#[tactic(auto, unfolding(crate::specs::Answer::refusal_body))]
fn refusal_body(alloc: Global, message: &str) -> Result<Vec<u8>, OutOfMemory>
    ensures { IfOk result (λ text. text.items ≡ refusal_body message.now) }
{
    let mut text = Vec::new(alloc);
    text.extend_from_slice(b"{\"Type\":\"User\",\"Message\":\"")?;
    text.extend_from_slice(message.as_bytes())?;
    text.extend_from_slice(b"\"}")?;
    Ok(text)
}

/// Appends the status line and the first header line. After an `Err` a part of them may have been appended.
#[tactic(auto, unfolding(crate::specs::Answer::status_lines))]
fn push_status(text: &mut Vec<u8>, status: u16) -> Result<(), OutOfMemory>
    ensures { OnOk result (text.new.items ≡ text.old.items ++ status_lines status) }
{
    let mut digits = Buffer::new();
    text.extend_from_slice(b"HTTP/1.1 ")?;
    text.extend_from_slice(digits.format(u64::from(status)).as_bytes())?;
    text.extend_from_slice(b" ")?;
    text.extend_from_slice(phrase(status).as_bytes())?;
    text.extend_from_slice(b"\r\nContent-Type: application/json\r\n")?;
    Ok(())
}

/// The reason phrase of a status code, and nothing for a code without one.
fn phrase(status: u16) -> &'static str
    ensures { result.now ≡ phrase_of status }
{
    match StatusCode::from_u16(status) {
        Ok(code) => match code.canonical_reason() {
            Some(phrase) => phrase,
            None => "",
        },
        Err(_) => "",
    }
}

/// Appends the line that names the error. After an `Err` a part of it may have been appended.
#[tactic(auto, unfolding(crate::specs::Answer::error_line))]
fn push_error(text: &mut Vec<u8>, name: &str) -> Result<(), OutOfMemory>
    ensures { OnOk result (text.new.items ≡ text.old.items ++ error_line name.now) }
{
    text.extend_from_slice(b"x-amzn-ErrorType: ")?;
    text.extend_from_slice(name.as_bytes())?;
    text.extend_from_slice(b"\r\n")?;
    Ok(())
}

/// Appends the lines before a body of `count` bytes. After an `Err` a part of them may have been appended.
#[tactic(auto, unfolding(crate::specs::Answer::last_lines))]
fn push_last(text: &mut Vec<u8>, count: usize) -> Result<(), OutOfMemory>
    ensures { OnOk result (text.new.items ≡ text.old.items ++ last_lines count) }
{
    let mut digits = Buffer::new();
    text.extend_from_slice(b"Content-Length: ")?;
    text.extend_from_slice(digits.format(count as u64).as_bytes())?;
    text.extend_from_slice(b"\r\nConnection: close\r\n\r\n")?;
    Ok(())
}
