// Writing the end of a stream's event, with the part of a call's tumbling window.
ghost use Rattle.std.specs.Prelude.{◌≡◌, ◌≤◌, ◌++◌, codes, OnOk};
ghost use Rattle.std.specs.Option.{option_copied, ForSome};
ghost use Rattle.esm_model.specs.Moment.{moment_after};
ghost use Rattle.esm_model.specs.ValidCall.{IsValidWindowCall};
ghost use Rattle.esm_model.specs.EventText.{state_text, span_part, final_part, window_part};

use crate::bytes::push_bytes;
use crate::dates::push_second;
use crate::json::push_truth;
use crate::record::push_shard_id;
use esm_model::{Config, MAX_MOMENT, OutOfMemory, WindowCall};

/// Appends what comes after the last element.
pub(crate) fn push_end(
    out: &mut Vec<u8>,
    config: &Config,
    window: Option<&WindowCall>,
) -> Result<(), OutOfMemory>
    requires { ForSome (option_copied window) IsValidWindowCall }
    ensures { OnOk result (out.new.items ≡ out.old.items
        ++ (codes "]" ++ window_part config.now (option_copied window.entry) ++ codes "}")) }
{
    match window {
        None => push_bytes(out, b"]}"),
        Some(call) => push_window(out, config, call),
    }
}

fn push_window(out: &mut Vec<u8>, config: &Config, call: &WindowCall) -> Result<(), OutOfMemory>
    requires { IsValidWindowCall call.now }
    ensures { OnOk result (out.new.items ≡ out.old.items
        ++ (codes "]" ++ (span_part config.now call.now ++ final_part config.now call.now) ++ codes "}")) }
{
    push_bytes(out, b"]")?;
    push_span(out, config, call)?;
    push_final(out, config, call)?;
    push_bytes(out, b"}")?;
    Ok(())
}

fn push_span(out: &mut Vec<u8>, config: &Config, call: &WindowCall) -> Result<(), OutOfMemory>
    requires { call.now.state.window ≤ MAX_MOMENT }
    ensures { OnOk result (out.new.items ≡ out.old.items ++ span_part config.now call.now) }
{
    let start = call.state.window;
    push_bytes(out, b",\"window\":{\"start\":\"")?;
    push_second(out, start)?;
    push_bytes(out, b"\",\"end\":\"")?;
    push_second(out, moment_after(start, config.tumbling_ms))?;
    push_bytes(out, b"\"},\"state\":")?;
    push_state(out, call.state.text.as_slice())?;
    Ok(())
}

fn moment_after(moment: u64, milliseconds: u64) -> u64
    requires { moment ≤ MAX_MOMENT }
    ensures value { result ≡ moment_after moment milliseconds }
    ensures bound { result ≤ MAX_MOMENT }
{
    moment.saturating_add(milliseconds).min(MAX_MOMENT)
}

fn push_state(out: &mut Vec<u8>, text: &[u8]) -> Result<(), OutOfMemory>
    ensures { OnOk result (out.new.items ≡ out.old.items ++ state_text text.now) }
{
    if text.is_empty() {
        push_bytes(out, b"{}")?;
    } else {
        push_bytes(out, text)?;
    }
    Ok(())
}

fn push_final(out: &mut Vec<u8>, config: &Config, call: &WindowCall) -> Result<(), OutOfMemory>
    ensures { OnOk result (out.new.items ≡ out.old.items ++ final_part config.now call.now) }
{
    push_bytes(out, b",\"shardId\":\"")?;
    push_shard_id(out, call.shard)?;
    push_bytes(out, b"\",\"eventSourceARN\":\"")?;
    push_bytes(out, config.source_arn.as_slice())?;
    push_bytes(out, b"\",\"isFinalInvokeForWindow\":")?;
    push_truth(out, call.closing)?;
    push_bytes(out, b",\"isWindowTerminatedEarly\":false")?;
    Ok(())
}
