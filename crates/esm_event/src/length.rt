// The lengths of an event's texts, computed without writing them.
ghost use Rattle.std.specs.Prelude.{◌≡◌, ◌≤◌, ◌+◌, ◌*◌, [], Some, length, flat_map, min};
ghost use Rattle.std.specs.Option.{option_copied, ForSome};
ghost use Rattle.esm_model.specs.declared.limits.TheConstants.{MAX_DATA};
ghost use Rattle.esm_model.specs.ValidCall.{IsValidWindowCall};
ghost use Rattle.esm_model.specs.Valid.{IsValidRecord, IsStreamConfig};
ghost use Rattle.esm_model.specs.Numbers.{decimal};
ghost use Rattle.esm_model.specs.JsonText.{escaped_byte, truth_text};
ghost use Rattle.esm_model.specs.EventText.{base64_text, record_text, event_text, window_part, state_text};

use esm_model::{Config, Record, WindowCall};
use itoa::Buffer;

/// The bytes of an element apart from its key, its two sequence numbers, its data, its seconds, and the mapping's account,
/// region and source: `{"kinesis":{"kinesisSchemaVersion":"1.0",..` and so on, the twelve digits of the shard, and the three
/// digits of the milliseconds.
const FIXED_BYTES: usize = 321;

/// The bytes of `{"Records":[` and `]}`.
pub(crate) const RECORDS_BYTES: u32 = 14;

/// The bytes of a window's part apart from its state, the truth of `isFinalInvokeForWindow` and the source.
const WINDOW_BYTES: usize = 191;

/// The number of bytes of the record's element in an event's `Records`. Takes no memory.
pub fn stream_bytes(config: &Config, item: &Record) -> u32
    requires config { IsStreamConfig config.now }
    requires item { IsValidRecord item.now }
    ensures value { result ≡ length (record_text config.now item.now) }
    ensures bound { result ≤ 2000000 }
{
    let key = key_bytes(item);
    let sequence = item.seq().len();
    let data = data_bytes(item);
    let seconds = decimal_bytes(item.arrival() / 1000);
    let source = source_bytes(config);
    (FIXED_BYTES + key + 2 * sequence + data + seconds + source) as u32
}

fn key_bytes(item: &Record) -> usize
    requires { IsValidRecord item.now }
    ensures value { result ≡ length (flat_map escaped_byte item.now.key) }
    ensures bound { result ≤ 6144 }
{
    escaped_bytes(item.key())
}

#[tactic(auto, using(crate::proofs::LengthLemmas::base64_length))]
fn data_bytes(item: &Record) -> usize
    requires { IsValidRecord item.now }
    ensures value { result ≡ length (base64_text item.now.payload) }
    ensures bound { result ≤ 1398104 }
{
    item.base64().len()
}

/// The number of bytes of a JSON text between its quotation marks.
pub(crate) fn escaped_bytes(text: &[u8]) -> usize
    requires { length text.now ≤ MAX_DATA }
    ensures value { result ≡ length (flat_map escaped_byte text.now) }
    ensures bound { result ≤ 6 * length text.now }
{
    escaped_room(text)
}

/// The same of a text of any length, or the greatest `usize` where they are more.
pub(crate) fn escaped_room(text: &[u8]) -> usize
    ensures value { result ≡ min (length (flat_map escaped_byte text.now)) usize.MAX }
    ensures bound { result ≤ 6 * length text.now }
{
    let mut total: usize = 0;
    for byte in text {
        total = total.saturating_add(escaped_length(*byte));
    }
    total
}

#[tactic(auto, unfolding(esm_model::specs::JsonText::escaped_byte, esm_model::specs::Numbers::last_digits))]
fn escaped_length(byte: u8) -> usize
    ensures value { result ≡ length (escaped_byte byte) }
    ensures bound { result ≤ 6 }
{
    match byte {
        b'"' | b'\\' | 8 | 12 | b'\n' | b'\r' | b'\t' => 2,
        0..=31 => 6,
        _ => 1,
    }
}

pub(crate) fn decimal_bytes(number: u64) -> usize
    ensures value { result ≡ length (decimal number) }
    ensures bound { result ≤ 40 }
{
    let mut buffer = Buffer::new();
    buffer.format(number).len()
}

fn source_bytes(config: &Config) -> usize
    requires { IsStreamConfig config.now }
    ensures value { result
        ≡ length config.now.account + length config.now.region + length config.now.source_arn }
    ensures bound { result ≤ 1000 }
{
    config.account.as_slice().len() + config.region.as_slice().len() + arn_bytes(config)
}

/// The number of bytes of an event around the elements of `Records` and their commas, with the window's part if there is
/// one. The payload limit minus this is left for the elements. Takes no memory.
#[tactic(auto, using(crate::proofs::LengthLemmas::frame_length))]
pub fn frame_bytes(config: &Config, window: Option<&WindowCall>) -> u32
    requires config { IsStreamConfig config.now }
    requires window { ForSome (option_copied window) IsValidWindowCall }
    ensures { result ≡ length (event_text config.now [] (option_copied window.entry)) }
{
    match window {
        None => RECORDS_BYTES,
        Some(call) => RECORDS_BYTES + window_bytes(config, call),
    }
}

#[tactic(auto, using(crate::proofs::LengthLemmas::window_length))]
fn window_bytes(config: &Config, call: &WindowCall) -> u32
    requires config { IsStreamConfig config.now }
    requires call { IsValidWindowCall call.now }
    ensures value { result ≡ length (window_part config.now (Some call.now)) }
    ensures bound { result ≤ 1100000 }
{
    let state = state_bytes(call);
    let truth = truth_bytes(call.closing);
    let source = arn_bytes(config);
    (WINDOW_BYTES + state + truth + source) as u32
}

fn state_bytes(call: &WindowCall) -> usize
    requires { IsValidWindowCall call.now }
    ensures value { result ≡ length (state_text call.now.state.text) }
    ensures bound { result ≤ MAX_DATA }
{
    text_bytes(call.state.text.as_slice())
}

fn text_bytes(text: &[u8]) -> usize
    requires { length text.now ≤ MAX_DATA }
    ensures value { result ≡ length (state_text text.now) }
    ensures bound { result ≤ MAX_DATA }
{
    if text.is_empty() { 2 } else { text.len() }
}

fn truth_bytes(truth: bool) -> usize
    ensures value { result ≡ length (truth_text truth) }
    ensures bound { result ≤ 5 }
{
    if truth { 4 } else { 5 }
}

fn arn_bytes(config: &Config) -> usize
    requires { IsStreamConfig config.now }
    ensures value { result ≡ length config.now.source_arn }
    ensures bound { result ≤ 900 }
{
    config.source_arn.as_slice().len()
}
