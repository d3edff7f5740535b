//! Turning a line in the form that is recognized without parsing.
ghost use Rattle.std.specs.Prelude.{◌≡◌, ◌++◌, ◌/◌, Ok, IfOk, IfSome, OnOk};
ghost use Rattle.serde_json.specs.Read.{read};
ghost use Rattle.md5.specs.Md5.{md5};
ghost use Rattle.esm_model.specs.QueueEvent.{hexadecimal};
ghost use Rattle.esm_ddb.specs.OwnLine.{own_back, own_element, own_front};
ghost use Rattle.esm_ddb.specs.Turned.{content_part, place_part, turned_value};

use crate::own_line::{OwnLine, own_line};
use crate::quoted::push_quoted;
use crate::source::Source;
use crate::turned::{push_content, push_place, room_for};
use esm_event::bytes::push_bytes;
use esm_event::digits::push_decimal;
use esm_model::{MAX_DATA, OutOfMemory};
use std::alloc::Global;

fn push_front(out: &mut Vec<u8>, source: &Source, event: &[u8]) -> Result<(), OutOfMemory>
    ensures { OnOk result (out.new.items ≡ out.old.items ++ own_front event.now source.now) }
{
    push_bytes(out, b"{")?;
    push_bytes(out, event)?;
    push_bytes(
        out,
        b",\"eventVersion\":\"1.1\",\"eventSource\":\"aws:dynamodb\",\"awsRegion\":",
    )?;
    push_quoted(out, source.region.as_slice())?;
    Ok(())
}

fn push_back(
    out: &mut Vec<u8>,
    source: &Source,
    seconds: u64,
    item: &[u8],
) -> Result<(), OutOfMemory>
    ensures { OnOk result (out.new.items ≡ out.old.items ++ own_back seconds item.now source.now) }
{
    push_bytes(out, b",\"dynamodb\":{\"ApproximateCreationDateTime\":")?;
    push_decimal(out, seconds)?;
    push_bytes(out, b",")?;
    push_bytes(out, item)?;
    push_bytes(out, b"},\"eventSourceARN\":")?;
    push_quoted(out, source.arn.as_slice())?;
    push_bytes(out, b"}")?;
    Ok(())
}

/// The text of the element.
fn own_element(alloc: Global, source: &Source, line: &OwnLine<'_>) -> Result<Vec<u8>, OutOfMemory>
    ensures { IfOk result (λ text. text.items ≡ own_element line.now.event.now (line.now.arrival / 1000) line.now.item.now source.now) }
{
    let room = line.item.len().saturating_add(512);
    let mut out = Vec::with_capacity(alloc, room)?;
    push_front(&mut out, source, line.event)?;
    push_back(&mut out, source, line.arrival / 1000, line.item)?;
    Ok(out)
}

/// The line of the record whose element has this text.
fn record_line(alloc: Global, line: &OwnLine<'_>, payload: &[u8]) -> Result<Vec<u8>, OutOfMemory>
    ensures { IfOk result (λ text. text.items ≡ place_part line.now.shard line.now.seq.now
        ++ content_part (hexadecimal (md5 line.now.keys.now)) payload.now line.now.arrival) }
{
    let mut out = Vec::with_capacity(alloc, room_for(payload))?;
    push_place(&mut out, line.shard, line.seq)?;
    push_content(&mut out, line.keys, payload, line.arrival)?;
    Ok(out)
}

/// Turns the line, if it has this form and its element is within `MAX_DATA`.
pub fn own_turned(
    alloc: Global,
    source: &Source,
    text: &[u8],
) -> Result<Option<Vec<u8>>, OutOfMemory>
    ensures { IfOk result (λ o. IfSome o (λ v. turned_value source.now (read text.now) ≡ Ok v.items)) }
{
    let Some(line) = own_line(text) else {
        return Ok(None);
    };
    let payload = own_element(alloc, source, &line)?;
    if payload.len() > MAX_DATA {
        return Ok(None);
    }
    let becomes = record_line(alloc, &line, payload.as_slice())?;
    Ok(Some(becomes))
}
