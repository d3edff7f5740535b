//! Turning an event that has the form in which this engine writes a stream's events, without parsing it.
ghost use Rattle.std.specs.Prelude.{◌≡◌, ℕ, List, [], codes, IfOk, IfSome, IsTrue};
ghost use Rattle.esm_ddb.specs.Event.{ddb_event};
ghost use Rattle.esm_ddb.specs.OwnForm.{Becomes, IsTail, PassesOwn};

use crate::own_element::{after_part, push_front, tail_of};
use esm_event::bytes::push_bytes;
use esm_model::OutOfMemory;
use std::alloc::Global;

/// Appends the data of an element that ends with this tail, and returns what follows it; `None` if there is no such
/// element.
fn push_own<'a>(
    out: &mut Vec<u8>,
    tail: &[u8],
    text: &'a [u8],
) -> Result<Option<&'a [u8]>, OutOfMemory>
    requires { IsTail tail.now }
    ensures { IfOk result (λ o. IfSome o (λ rest. PassesOwn text.entry.now rest.now out.old.items out.new.items)) }
{
    let Some(behind) = push_front(out, text)? else {
        return Ok(None);
    };
    Ok(after_part(behind, tail))
}

fn is_end(text: &[u8]) -> bool
    ensures { IsTrue result → text.now ≡ codes "]}" }
{
    text == b"]}".as_slice()
}

/// Appends the data of the elements that are left, each after its comma, and the event's end. Returns whether the event
/// has only such elements up to its end.
fn push_others(out: &mut Vec<u8>, tail: &[u8], left: &[u8]) -> Result<bool, OutOfMemory>
    requires { IsTail tail.now }
    ensures { IfOk result (λ is. IsTrue is → (event : List ℕ) → Becomes event out.old.items left.now → ddb_event event ≡ out.new.items) }
{
    let mut left = left;
    while let Some(next) = after_part(left, b",") {
        push_bytes(out, b",")?;
        let Some(rest) = push_own(out, tail, next)? else {
            return Ok(false);
        };
        left = rest;
    }
    let is_whole = is_end(left);
    push_bytes(out, b"]}")?;
    Ok(is_whole)
}

/// Appends the turned event. Returns whether the event has only elements in this form.
fn push_event(out: &mut Vec<u8>, event: &[u8]) -> Result<bool, OutOfMemory>
    requires { out.old.items ≡ [] }
    ensures { IfOk result (λ is. IsTrue is → out.new.items ≡ ddb_event event.now) }
{
    let Some(elements) = after_part(event, b"{\"Records\":[") else {
        return Ok(false);
    };
    push_bytes(out, b"{\"Records\":[")?;
    let Some(behind) = push_front(out, elements)? else {
        return Ok(false);
    };
    let Some((tail, left)) = tail_of(behind) else {
        return Ok(false);
    };
    push_others(out, tail, left)
}

/// Turns the event, if it has elements and is written as this engine writes a stream's events without a window; `None`
/// means that it has to be parsed.
pub fn own_event(alloc: Global, event: &[u8]) -> Result<Option<Vec<u8>>, OutOfMemory>
    ensures { IfOk result (λ o. IfSome o (λ text. text.items ≡ ddb_event event.now)) }
{
    let mut out = Vec::with_capacity(alloc, event.len())?;
    let is_own = push_event(&mut out, event)?;
    if is_own { Ok(Some(out)) } else { Ok(None) }
}
