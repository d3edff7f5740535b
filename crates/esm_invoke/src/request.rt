// The text of a request.
ghost use Rattle.std.specs.Prelude.{◌≡◌, ◌++◌, IfOk, OnOk};
ghost use Rattle.esm_invoke.specs.Request.{request_text, request_line, header_lines};

use esm_model::OutOfMemory;
use http::Method;
use itoa::Buffer;
use std::alloc::Global;

/// Room for the head of a request without the function's name, in bytes: it takes at most 158, with a length of 20 digits.
const HEAD_ROOM: usize = 158;

/// Writes the request that calls the function `name` with the event (Lambda API Reference of 2015-03-31, `Invoke`).
/// `OutOfMemory` if an allocation failed.
pub fn request(alloc: Global, name: &str, event: &[u8]) -> Result<Vec<u8>, OutOfMemory>
    ensures { IfOk result (λ text. text.items ≡ request_text name.now event.now) }
{
    let length = HEAD_ROOM
        .saturating_add(name.len())
        .saturating_add(event.len());
    let mut text = Vec::with_capacity(alloc, length)?;
    push_line(&mut text, name)?;
    push_headers(&mut text, event.len())?;
    text.extend_from_slice(event)?;
    Ok(text)
}

/// Appends the request's first line. After an `Err`, a part of it may be there.
#[tactic(auto, unfolding(crate::specs::Request::request_line))]
fn push_line(text: &mut Vec<u8>, name: &str) -> Result<(), OutOfMemory>
    ensures { OnOk result (text.new.items ≡ text.old.items ++ request_line name.now) }
{
    text.extend_from_slice(Method::POST.as_str().as_bytes())?;
    text.extend_from_slice(b" /2015-03-31/functions/")?;
    text.extend_from_slice(name.as_bytes())?;
    text.extend_from_slice(b"/invocations HTTP/1.1\r\n")?;
    Ok(())
}

/// Appends the header lines and the empty line. After an `Err`, a part of them may be there.
#[tactic(auto, unfolding(crate::specs::Request::header_lines))]
fn push_headers(text: &mut Vec<u8>, len: usize) -> Result<(), OutOfMemory>
    ensures { OnOk result (text.new.items ≡ text.old.items ++ header_lines len) }
{
    let mut digits = Buffer::new();
    text.extend_from_slice(
        b"Host: 127.0.0.1\r\nContent-Type: application/json\r\nContent-Length: ",
    )?;
    text.extend_from_slice(digits.format(len as u64).as_bytes())?;
    text.extend_from_slice(b"\r\nConnection: close\r\n\r\n")?;
    Ok(())
}
