//! Turning the event of a stream into that of a DynamoDB stream.
ghost use Rattle.std.specs.Prelude.{◌≡◌, ◌++◌, [], if◌then◌else◌, None, OnOk, IfOk, is_some, option_map, slice_range};
ghost use Rattle.json.specs.Value.{value_view};
ghost use Rattle.serde_json.specs.Read.{read};
ghost use Rattle.esm_model.specs.State.{places};
ghost use Rattle.esm_ddb.specs.Event.{ddb_event, event_elements, event_with, object_elements, read_elements, replaced};
ghost use Rattle.esm_ddb.specs.Tree.{is_ranged};

use crate::elements::{Element, object_elements};
use crate::error::Refusal;
use crate::lexeme::places;
use crate::own_event::own_event;
use crate::tree::{is_ranged, read_value};
use esm_event::bytes::push_bytes;
use esm_model::OutOfMemory;
use json::{Reader, Scratch, Value};
use std::alloc::Global;
use std::str::from_utf8;

/// The elements of the object that the text is, if all its numbers are in range.
fn ranged_elements(
    alloc: Global,
    text: &[u8],
    object: &Value<'_>,
) -> Result<Option<Vec<Element>>, OutOfMemory>
    ensures { IfOk result (λ o. option_map (λ v. v.items) o
        ≡ (if is_ranged (value_view object.now) then object_elements (places [] text.now) (value_view object.now) else None)) }
{
    if !is_ranged(object) {
        return Ok(None);
    }
    let places = places(alloc, text)?;
    object_elements(alloc, places.as_slice(), object)
}

/// The elements of a text that is valid JSON, if it is an object whose `Records` is a list of such elements.
fn text_elements(alloc: Global, text: &str) -> Result<Option<Vec<Element>>, OutOfMemory>
    ensures { IfOk result (λ o. option_map (λ v. v.items) o ≡ (if is_some (read text.now) then read_elements text.now else None)) }
{
    let mut scratch = Scratch::new(alloc);
    let mut reader = Reader::new(text, &mut scratch)?;
    match read_value(alloc, &mut reader) {
        Ok(object) => ranged_elements(alloc, text.as_bytes(), &object),
        Err(Refusal::OutOfMemory) => Err(OutOfMemory),
        Err(Refusal::Line(_)) => Ok(None),
    }
}

fn event_elements(alloc: Global, event: &[u8]) -> Result<Option<Vec<Element>>, OutOfMemory>
    ensures { IfOk result (λ o. option_map (λ v. v.items) o ≡ event_elements event.now) }
{
    match from_utf8(event) {
        Ok(text) => text_elements(alloc, text),
        Err(_) => Ok(None),
    }
}

/// The bytes from one place to another; places behind the end of the text count as its end.
fn part(text: &[u8], from: usize, to: usize) -> &[u8]
    ensures { result.now ≡ slice_range text.entry.now from to }
{
    let end = to.min(text.len());
    if from < end { &text[from..end] } else { &[] }
}

/// Appends the text with each of its elements replaced by the bytes of its data.
fn push_replaced(out: &mut Vec<u8>, text: &[u8], elements: &Vec<Element>) -> Result<(), OutOfMemory>
    ensures { OnOk result (out.new.items ≡ out.old.items ++ replaced 0 text.now elements.now.items) }
{
    let mut from = 0;
    for element in elements {
        push_bytes(out, part(text, from, element.first))?;
        push_bytes(out, element.payload.as_slice())?;
        from = element.end;
    }
    push_bytes(out, part(text, from, text.len()))?;
    Ok(())
}

fn push_event(
    out: &mut Vec<u8>,
    event: &[u8],
    elements: &Option<Vec<Element>>,
) -> Result<(), OutOfMemory>
    ensures { OnOk result (out.new.items ≡ out.old.items ++ event_with event.now (option_map (λ v. v.items) elements.now)) }
{
    match elements {
        Some(elements) => push_replaced(out, event, elements),
        None => push_bytes(out, event),
    }
}

/// The turned event, found by parsing the event.
#[tactic(auto, unfolding(crate::specs::Event::ddb_event))]
fn parsed_event(alloc: Global, event: &[u8]) -> Result<Vec<u8>, OutOfMemory>
    ensures { IfOk result (λ text. text.items ≡ ddb_event event.now) }
{
    let elements = event_elements(alloc, event)?;
    let mut out = Vec::new(alloc);
    push_event(&mut out, event, &elements)?;
    Ok(out)
}

/// Turns a stream's event into the event of a DynamoDB stream: each element of `Records` is replaced by the bytes of its
/// data. The event has to be a JSON object whose last `Records` is a list of objects, each with an object `kinesis` whose
/// `data` is standard padded base64. Any other bytes are returned unchanged.
pub fn ddb_event(alloc: Global, event: &[u8]) -> Result<Vec<u8>, OutOfMemory>
    ensures { IfOk result (λ text. text.items ≡ ddb_event event.now) }
{
    match own_event(alloc, event)? {
        Some(text) => Ok(text),
        None => parsed_event(alloc, event),
    }
}
