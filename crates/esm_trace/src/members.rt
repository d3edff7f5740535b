// The members of an entry's line.
ghost use Rattle.std.specs.Prelude.{◌≡◌, ◌++◌, codes, OnOk};
ghost use Rattle.std.specs.List.{flat_map};
ghost use Rattle.esm_model.specs.Numbers.{decimal};
ghost use Rattle.esm_model.specs.EventText.{base64_text};
ghost use Rattle.esm_trace.specs.Trace.{head_part, shard_name, shard_part, lane_part, numbers_text, places_part, closing_part, answer_part};
ghost use Rattle.esm_trace.specs.Trace.{reply_part, by_part, fate_word, fate_part, line_part, state_part};
ghost use Rattle.esm_trace.specs.Following.{following_place};

use esm_event::bytes::push_bytes;
use esm_event::digits::push_decimal;
use esm_event::json::{push_quoted, push_truth};
use esm_event::record::{push_base64, push_shard_id};
use esm_model::{Fate, Kind, LaneId, OutOfMemory, Places, Reply, Text, WindowState};

/// The moment in milliseconds, and which entry it is.
pub(crate) fn push_head(out: &mut Vec<u8>, word: &[u8], moment: u64) -> Result<(), OutOfMemory>
    ensures { OnOk result (out.new.items ≡ out.old.items ++ head_part word.now moment) }
{
    push_bytes(out, b"{\"at\":")?;
    push_decimal(out, moment)?;
    push_bytes(out, b",\"entry\":\"")?;
    push_bytes(out, word)?;
    push_bytes(out, b"\"")?;
    Ok(())
}

/// The shard, as the kind of source names it.
pub(crate) fn push_shard(out: &mut Vec<u8>, kind: Kind, shard: u64) -> Result<(), OutOfMemory>
    ensures { OnOk result (out.new.items ≡ out.old.items ++ shard_part kind shard) }
{
    push_bytes(out, b",\"shard\":\"")?;
    push_shard_name(out, kind, shard)?;
    push_bytes(out, b"\"")?;
    Ok(())
}

fn push_shard_name(out: &mut Vec<u8>, kind: Kind, shard: u64) -> Result<(), OutOfMemory>
    ensures { OnOk result (out.new.items ≡ out.old.items ++ shard_name kind shard) }
{
    match kind {
        Kind::Stream => push_shard_id(out, shard),
        Kind::Standard | Kind::Fifo => push_bytes(out, b"queue"),
    }
}

/// The lane's number.
pub(crate) fn push_lane(out: &mut Vec<u8>, lane: u32) -> Result<(), OutOfMemory>
    ensures { OnOk result (out.new.items ≡ out.old.items ++ lane_part lane) }
{
    push_number(out, b",\"lane\":", lane as u64)
}

/// A name with the punctuation around it, and a number.
pub(crate) fn push_number(out: &mut Vec<u8>, name: &[u8], number: u64) -> Result<(), OutOfMemory>
    ensures { OnOk result (out.new.items ≡ out.old.items ++ (name.now ++ decimal number)) }
{
    push_bytes(out, name)?;
    push_decimal(out, number)?;
    Ok(())
}

/// The places, in brackets.
pub(crate) fn push_places(out: &mut Vec<u8>, places: &Places) -> Result<(), OutOfMemory>
    ensures { OnOk result (out.new.items ≡ out.old.items ++ places_part places.now) }
{
    push_bytes(out, b",\"places\":[")?;
    push_list(out, places.as_slice())?;
    push_bytes(out, b"]")?;
    Ok(())
}

#[tactic(auto, unfolding(crate::specs::Trace::numbers_text, crate::specs::Following::following_place))]
fn push_list(out: &mut Vec<u8>, places: &[u32]) -> Result<(), OutOfMemory>
    ensures { OnOk result (out.new.items ≡ out.old.items ++ numbers_text places.now) }
{
    let Some((first, rest)) = places.split_first() else {
        return Ok(());
    };
    push_decimal(out, *first as u64)?;
    push_rest(out, rest)?;
    Ok(())
}

fn push_rest(out: &mut Vec<u8>, rest: &[u32]) -> Result<(), OutOfMemory>
    ensures { OnOk result (out.new.items ≡ out.old.items ++ flat_map following_place rest.now) }
{
    for place in rest {
        push_following(out, *place)?;
    }
    Ok(())
}

#[tactic(auto, unfolding(crate::specs::Following::following_place))]
fn push_following(out: &mut Vec<u8>, place: u32) -> Result<(), OutOfMemory>
    ensures { OnOk result (out.new.items ≡ out.old.items ++ following_place place) }
{
    push_number(out, b",", place as u64)
}

/// The start of the window of a final call, in milliseconds; nothing for another call.
pub(crate) fn push_closing(out: &mut Vec<u8>, closing: Option<u64>) -> Result<(), OutOfMemory>
    ensures { OnOk result (out.new.items ≡ out.old.items ++ closing_part closing) }
{
    match closing {
        None => Ok(()),
        Some(window) => push_number(out, b",\"closing\":", window),
    }
}

/// The reply of a call.
pub(crate) fn push_reply(out: &mut Vec<u8>, reply: &Reply) -> Result<(), OutOfMemory>
    ensures { OnOk result (out.new.items ≡ out.old.items ++ reply_part reply.now) }
{
    match reply {
        Reply::Answered {
            status,
            error,
            body,
        } => push_answer(out, *status, *error, body.as_slice()),
        Reply::Garbled { bytes } => push_encoded(out, b",\"garbled\":\"", bytes.as_slice()),
        Reply::Lost => push_bytes(out, b",\"lost\":true"),
    }
}

fn push_answer(out: &mut Vec<u8>, status: u16, error: bool, body: &[u8]) -> Result<(), OutOfMemory>
    ensures { OnOk result (out.new.items ≡ out.old.items ++ answer_part status error body.now) }
{
    push_number(out, b",\"status\":", status as u64)?;
    push_bytes(out, b",\"error\":")?;
    push_truth(out, error)?;
    push_encoded(out, b",\"body\":\"", body)?;
    Ok(())
}

/// A name with the punctuation around it, the base64 of the bytes, and a quotation mark.
fn push_encoded(out: &mut Vec<u8>, name: &[u8], bytes: &[u8]) -> Result<(), OutOfMemory>
    ensures { OnOk result (out.new.items ≡ out.old.items ++ (name.now ++ base64_text bytes.now ++ codes "\"")) }
{
    push_bytes(out, name)?;
    push_base64(out, bytes)?;
    push_bytes(out, b"\"")?;
    Ok(())
}

/// The lane that gave a fate; nothing if it was given at arrival.
pub(crate) fn push_by(out: &mut Vec<u8>, by: Option<LaneId>) -> Result<(), OutOfMemory>
    ensures { OnOk result (out.new.items ≡ out.old.items ++ by_part by) }
{
    match by {
        None => Ok(()),
        Some(lane) => push_lane(out, lane.lane),
    }
}

/// The fate.
pub(crate) fn push_fate(out: &mut Vec<u8>, fate: Fate) -> Result<(), OutOfMemory>
    ensures { OnOk result (out.new.items ≡ out.old.items ++ fate_part fate) }
{
    push_bytes(out, b",\"fate\":\"")?;
    push_fate_word(out, fate)?;
    push_bytes(out, b"\"")?;
    Ok(())
}

fn push_fate_word(out: &mut Vec<u8>, fate: Fate) -> Result<(), OutOfMemory>
    ensures { OnOk result (out.new.items ≡ out.old.items ++ fate_word fate) }
{
    match fate {
        Fate::Succeeded => push_bytes(out, b"succeeded"),
        Fate::Filtered => push_bytes(out, b"filtered"),
        Fate::Expired => push_bytes(out, b"expired"),
        Fate::Exhausted => push_bytes(out, b"exhausted"),
    }
}

/// The failure line as a JSON string, if there is one.
pub(crate) fn push_line(out: &mut Vec<u8>, line: &Option<Text>) -> Result<(), OutOfMemory>
    ensures { OnOk result (out.new.items ≡ out.old.items ++ line_part line.now) }
{
    match line {
        None => Ok(()),
        Some(text) => {
            push_bytes(out, b",\"line\":")?;
            push_quoted(out, text.as_slice())
        }
    }
}

/// The window's new state, if there is one.
pub(crate) fn push_state(out: &mut Vec<u8>, state: &Option<WindowState>) -> Result<(), OutOfMemory>
    ensures { OnOk result (out.new.items ≡ out.old.items ++ state_part state.now) }
{
    match state {
        None => Ok(()),
        Some(state) => {
            push_number(out, b",\"window\":", state.window)?;
            push_encoded(out, b",\"state\":\"", state.text.as_slice())
        }
    }
}
