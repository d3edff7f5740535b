//! Finding the elements of an event's `Records` and where they are in its text.
ghost use Rattle.std.specs.Prelude.{◌≡◌, ◌+◌, ◌-◌, get_or, codes, if◌then◌else◌, IfOk, Some, None, option_map};
ghost use Rattle.std.specs.Option.{option_or};
ghost use Rattle.json.specs.Find.{get};
ghost use Rattle.json.specs.Value.{items_view, members_view, value_view};
ghost use Rattle.esm_ddb.specs.Event.{data_of, element_at, elements_at, object_elements, payload_of, value_at};

use crate::size::{passed, size};
use base64::DecodeAllocError;
use base64::engine::general_purpose::STANDARD;
use esm_model::{Bytes, OutOfMemory};
use json::Value;
use std::alloc::Global;

/// Where an element is in the text, in bytes: from its opening brace to behind its closing brace; and the bytes of its
/// data.
#[derive(Drop, Debug)]
pub struct Element {
    pub first: usize,
    pub end: usize,
    pub payload: Bytes,
}

/// The text of the element's `data`.
fn data_of<'a>(element: &Value<'a>) -> Option<&'a str>
    ensures { option_map (λ s. s.now) result ≡ data_of (value_view element.now) }
{
    match element.get("kinesis") {
        Some(kinesis) => match kinesis.get("data") {
            Some(data) => data.as_str(),
            None => None,
        },
        None => None,
    }
}

/// The bytes of the element's data.
fn payload_of(alloc: Global, element: &Value<'_>) -> Result<Option<Bytes>, OutOfMemory>
    ensures { IfOk result (λ payload. payload ≡ payload_of (value_view element.now)) }
{
    let Some(text) = data_of(element) else {
        return Ok(None);
    };
    match STANDARD.decode(alloc, text.as_bytes()) {
        Ok(bytes) => Ok(Some(Bytes::from_vec(bytes))),
        Err(DecodeAllocError::DecodeError(_)) => Ok(None),
        Err(DecodeAllocError::OutOfMemory) => Err(OutOfMemory),
    }
}

/// The place of lexeme number `at`, or 0 if there is none.
fn place(places: &[usize], at: usize) -> usize
    ensures { result ≡ get_or places.now at 0 }
{
    match places.get(at) {
        Some(place) => *place,
        None => 0,
    }
}

/// The element that begins with lexeme number `at` and ends before lexeme number `end`.
fn element_at(
    places: &[usize],
    at: usize,
    end: usize,
    payload: Bytes,
) -> Result<Element, OutOfMemory>
    ensures { IfOk result (λ e. e ≡ record { first = get_or places.now at 0; end = get_or places.now (end - 1) 0 + 1; payload = payload }) }
{
    let Some(end) = place(places, end.saturating_sub(1)).checked_add(1) else {
        return Err(OutOfMemory);
    };
    Ok(Element {
        first: place(places, at),
        end,
        payload,
    })
}

/// The elements of a list, the first of which begins with lexeme number `start`; `None` if one has no such data.
fn elements_at(
    alloc: Global,
    places: &[usize],
    start: usize,
    items: &Vec<Value<'_>>,
) -> Result<Option<Vec<Element>>, OutOfMemory>
    ensures { IfOk result (λ o. option_map (λ v. v.items) o ≡ elements_at places.now start (items_view items.now.items)) }
{
    let mut found = Vec::new(alloc);
    let mut at = start;
    for item in items {
        let Some(payload) = payload_of(alloc, item)? else {
            return Ok(None);
        };
        let end = passed(at, size(item)?, 0)?;
        found.push(element_at(places, at, end, payload)?)?;
        at = passed(end, 1, 0)?;
    }
    Ok(Some(found))
}

fn later(is: bool, at: usize, found: Option<usize>) -> Option<usize>
    ensures { result ≡ option_or (if is then Some at else None) found }
{
    if is { Some(at) } else { found }
}

/// The number of the first lexeme of the value of the last member named `Records`.
fn records_at(members: &Vec<(&str, Value<'_>)>) -> Result<Option<usize>, OutOfMemory>
    ensures { IfOk result (λ o. o ≡ value_at (codes "Records") 1 (members_view members.now.items)) }
{
    let mut found = None;
    let mut at = 1;
    for member in members {
        let value = passed(at, 2, 0)?;
        found = later(member.0 == "Records", value, found);
        at = passed(at, size(&member.1)?, 3)?;
    }
    Ok(found)
}

/// The elements of an object's list `Records`; `None` if there is no such list, or one of its items is not such an
/// element.
pub fn object_elements(
    alloc: Global,
    places: &[usize],
    object: &Value<'_>,
) -> Result<Option<Vec<Element>>, OutOfMemory>
    ensures { IfOk result (λ o. option_map (λ v. v.items) o ≡ object_elements places.now (value_view object.now)) }
{
    let Value::Object(members) = object else {
        return Ok(None);
    };
    let Some(at) = records_at(members)? else {
        return Ok(None);
    };
    match object.get("Records") {
        Some(Value::Array(items)) => elements_at(alloc, places, passed(at, 1, 0)?, items),
        _ => Ok(None),
    }
}
