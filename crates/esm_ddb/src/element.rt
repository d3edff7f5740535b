//! Writing the element of an event's `Records` for the change of an item.
ghost use Rattle.std.specs.Prelude.{◌≡◌, ◌++◌, OnOk, IfOk};
ghost use Rattle.json.specs.Value.{value_view};
ghost use Rattle.esm_ddb.specs.Element.{element, event_part, image_part, images_part, place_part};
ghost use Rattle.esm_ddb.specs.ItemText.{value_text};
ghost use Rattle.esm_ddb.specs.Said.{change_view, data_of, record_view};
ghost use Rattle.esm_ddb.specs.Tree.{data_in};

use crate::change::{Change, StreamRecord};
use crate::item_text::push_value;
use crate::quoted::push_quoted;
use crate::source::Source;
use esm_event::bytes::push_bytes;
use esm_event::digits::push_decimal;
use esm_model::OutOfMemory;
use json::Value;
use std::alloc::Global;

/// The capacity in bytes that most elements fit into.
const ROOM: usize = 1024;

fn push_event(out: &mut Vec<u8>, source: &Source, change: &Change) -> Result<(), OutOfMemory>
    ensures { OnOk result (out.new.items ≡ out.old.items ++ event_part source.now (change_view change.now)) }
{
    push_bytes(out, b"{\"eventID\":")?;
    push_quoted(out, change.id.as_bytes())?;
    push_bytes(out, b",\"eventName\":")?;
    push_quoted(out, change.name.as_bytes())?;
    push_bytes(
        out,
        b",\"eventVersion\":\"1.1\",\"eventSource\":\"aws:dynamodb\",\"awsRegion\":",
    )?;
    push_quoted(out, source.region.as_slice())?;
    Ok(())
}

/// Appends the image after its name, if there is one.
fn push_image(out: &mut Vec<u8>, name: &[u8], image: Option<&Value<'_>>) -> Result<(), OutOfMemory>
    ensures { OnOk result (out.new.items ≡ out.old.items ++ image_part name.now (data_of image.entry)) }
{
    match image {
        Some(value) => {
            push_bytes(out, name)?;
            push_value(out, value)?;
            Ok(())
        }
        None => Ok(()),
    }
}

fn push_images(out: &mut Vec<u8>, keys: &[u8], item: &StreamRecord) -> Result<(), OutOfMemory>
    requires { keys.now ≡ value_text (data_in (value_view item.now.keys.now)) }
    ensures { OnOk result (out.new.items ≡ out.old.items ++ images_part (record_view item.now)) }
{
    push_bytes(out, b",\"Keys\":")?;
    push_bytes(out, keys)?;
    push_image(out, b",\"NewImage\":", item.new_image)?;
    push_image(out, b",\"OldImage\":", item.old_image)?;
    Ok(())
}

fn push_place(out: &mut Vec<u8>, item: &StreamRecord) -> Result<(), OutOfMemory>
    ensures { OnOk result (out.new.items ≡ out.old.items ++ place_part (record_view item.now)) }
{
    push_bytes(out, b",\"SequenceNumber\":")?;
    push_quoted(out, item.seq.as_bytes())?;
    push_bytes(out, b",\"SizeBytes\":")?;
    push_decimal(out, item.size)?;
    push_bytes(out, b",\"StreamViewType\":")?;
    push_quoted(out, item.view.as_bytes())?;
    Ok(())
}

/// Appends the element; `keys` is the text of the item's keys.
fn push_element(
    out: &mut Vec<u8>,
    source: &Source,
    change: &Change,
    keys: &[u8],
) -> Result<(), OutOfMemory>
    requires { keys.now ≡ value_text (data_in (value_view change.now.item.keys.now)) }
    ensures { OnOk result (out.new.items ≡ out.old.items ++ element source.now (change_view change.now)) }
{
    push_event(out, source, change)?;
    push_bytes(out, b",\"dynamodb\":{\"ApproximateCreationDateTime\":")?;
    push_decimal(out, change.arrival / 1000)?;
    push_images(out, keys, &change.item)?;
    push_place(out, &change.item)?;
    push_bytes(out, b"},\"eventSourceARN\":")?;
    push_quoted(out, source.arn.as_slice())?;
    push_bytes(out, b"}")?;
    Ok(())
}

/// Returns the text of the element; `keys` is the text of the item's keys.
pub fn element(
    alloc: Global,
    source: &Source,
    change: &Change,
    keys: &[u8],
) -> Result<Vec<u8>, OutOfMemory>
    requires { keys.now ≡ value_text (data_in (value_view change.now.item.keys.now)) }
    ensures { IfOk result (λ text. text.items ≡ element source.now (change_view change.now)) }
{
    let mut out = Vec::with_capacity(alloc, ROOM)?;
    push_element(&mut out, source, change, keys)?;
    Ok(out)
}
