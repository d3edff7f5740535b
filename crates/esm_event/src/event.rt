// The event of a call for a stream's batch.
ghost use Rattle.std.specs.Prelude.{◌≡◌, ◌+◌, ◌-◌, [], All, length, min, sum_by, IfOk};
ghost use Rattle.std.specs.Option.{option_copied, ForSome};
ghost use Rattle.esm_model.specs.Valid.{IsValidRecord, IsStreamConfig};
ghost use Rattle.esm_model.specs.ValidCall.{IsValidWindowCall};
ghost use Rattle.esm_model.specs.EventText.{record_text, event_text};

use crate::bytes::push_bytes;
use crate::length::{frame_bytes, stream_bytes};
use crate::record::source_text;
use crate::window::push_end;
use crate::writing::push_records;
use esm_model::{Config, Event, OutOfMemory, Record, WindowCall};
use std::alloc::Global;

/// The event of a call for these records of the stream, with the window's part if the call is one of a tumbling window
/// (Lambda Developer Guide, "Using Lambda with Kinesis"). It writes only the beginning, the end, and the source with which
/// each element ends; `write_event` writes the whole text.
pub fn event_of(
    alloc: Global,
    config: &Config,
    records: Vec<Record>,
    window: Option<&WindowCall>,
) -> Result<Event, OutOfMemory>
    requires { ForSome (option_copied window) IsValidWindowCall }
    ensures { IfOk result (λ event. event ≡ event_text config.now records.items (option_copied window.entry)) }
{
    let head = Vec::from_slice(alloc, b"{\"Records\":[")?;
    let source = source_text(alloc, config)?;
    let mut tail = Vec::new(alloc);
    push_end(&mut tail, config, window)?;
    Ok(Event::of_records(head, records, source, tail))
}

/// The event's text for a batch of the stream, with the window's part if the call is one of a tumbling window (Lambda
/// Developer Guide, "Using Lambda with Kinesis"). Its length is computed first, so it is written once.
pub fn stream_event(
    alloc: Global,
    config: &Config,
    batch: &[Record],
    window: Option<&WindowCall>,
) -> Result<Vec<u8>, OutOfMemory>
    requires config { IsStreamConfig config.now }
    requires batch { All IsValidRecord batch.now }
    requires window { ForSome (option_copied window) IsValidWindowCall }
    ensures text { IfOk result
        (λ text. text.items ≡ event_text config.now batch.now (option_copied window.entry)) }
    ensures length { IfOk result (λ text. length text.items
        ≡ length (event_text config.now [] (option_copied window.entry))
        + sum_by (λ r. length (record_text config.now r)) batch.now + (length batch.now - 1)) }
{
    let mut text = Vec::with_capacity(alloc, event_bytes(config, batch, window))?;
    let source = source_text(alloc, config)?;
    push_bytes(&mut text, b"{\"Records\":[")?;
    push_records(alloc, &mut text, batch, source.as_slice())?;
    push_end(&mut text, config, window)?;
    Ok(text)
}

/// The number of bytes of the event, capped at the greatest `usize`.
#[tactic(auto, using(crate::proofs::EventBytes::frame_some))]
fn event_bytes(config: &Config, batch: &[Record], window: Option<&WindowCall>) -> usize
    requires config { IsStreamConfig config.now }
    requires batch { All IsValidRecord batch.now }
    requires window { ForSome (option_copied window) IsValidWindowCall }
    ensures { result
        ≡ min (length (event_text config.now batch.now (option_copied window.entry))) usize.MAX }
{
    let frame = frame_bytes(config, window) as usize;
    if batch.is_empty() {
        return frame;
    }
    let mut total = frame - 1;
    for item in batch {
        total = total.saturating_add(stream_bytes(config, item) as usize + 1);
    }
    total
}
