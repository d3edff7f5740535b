// Writes a payload.
ghost use Rattle.std.specs.Prelude.{◌≡◌, ◌<◌, ◌^◌, ◌++◌, ◌∷◌, [], true, length, Some, IfOk, IfSome, OnOk};
ghost use Rattle.std.specs.List.{list_all};
ghost use Rattle.esm_journal_record.specs.declared.said.Said.TheVariants as said;
ghost use Rattle.esm_journal_record.specs.Payload.{payload_of, IsSaid, eight, four, fate_byte, text_bytes, flagged_bytes, name_bytes, named_bytes, names_bytes, is_short};
ghost use Rattle.esm_journal_record.specs.Fronts.{fates_front, tried_front};

use crate::kept_text::{KeptText, KeptTexts};
use crate::said::Said;
use esm_model::{Bytes, Fate, OutOfMemory, Places, WindowState};
use std::alloc::Global;

/// The bytes of the payload that says this. Linear in their number.
pub fn said_bytes(alloc: Global, said: &Said) -> Result<Vec<u8>, OutOfMemory>
    requires { IsSaid said.now }
    ensures { IfOk result (λ bytes. bytes.items ≡ payload_of said.now) }
{
    let mut out = Vec::new(alloc);
    push_said(&mut out, said)?;
    Ok(out)
}

fn push_byte(out: &mut Vec<u8>, byte: u8) -> Result<(), OutOfMemory>
    ensures { OnOk result (out.new.items ≡ out.old.items ++ byte ∷ []) }
{
    out.push(byte)?;
    Ok(())
}

#[tactic(auto, unfolding(crate::specs::Payload::eight))]
fn push_u64(out: &mut Vec<u8>, number: u64) -> Result<(), OutOfMemory>
    ensures { OnOk result (out.new.items ≡ out.old.items ++ eight number) }
{
    out.extend_from_slice(&number.to_be_bytes())?;
    Ok(())
}

#[tactic(auto, unfolding(crate::specs::Payload::four))]
fn push_u32(out: &mut Vec<u8>, number: u32) -> Result<(), OutOfMemory>
    ensures { OnOk result (out.new.items ≡ out.old.items ++ four number) }
{
    out.extend_from_slice(&number.to_be_bytes())?;
    Ok(())
}

fn push_bytes(out: &mut Vec<u8>, bytes: &[u8]) -> Result<(), OutOfMemory>
    ensures { OnOk result (out.new.items ≡ out.old.items ++ bytes.now) }
{
    out.extend_from_slice(bytes)?;
    Ok(())
}

/// The byte for a fate in a payload: 1 for `Succeeded`, 2 for `Filtered`, 3 for `Expired`, 4 for `Exhausted`.
pub fn fate_byte(fate: Fate) -> u8
    ensures { result ≡ fate_byte fate }
{
    match fate {
        Fate::Succeeded => 1,
        Fate::Filtered => 2,
        Fate::Expired => 3,
        Fate::Exhausted => 4,
    }
}

fn push_text(out: &mut Vec<u8>, text: &Bytes) -> Result<(), OutOfMemory>
    requires { length text.now < 2 ^ 32 }
    ensures { OnOk result (out.new.items ≡ out.old.items ++ text_bytes text.now) }
{
    let text = text.as_slice();
    push_u32(out, text.len() as u32)?;
    push_bytes(out, text)?;
    Ok(())
}

fn push_flagged(out: &mut Vec<u8>, state: &Option<WindowState>) -> Result<(), OutOfMemory>
    requires { IfSome state.now (λ s. length s.text < 2 ^ 32) }
    ensures { OnOk result (out.new.items ≡ out.old.items ++ flagged_bytes state.now) }
{
    match state {
        None => push_byte(out, 0),
        Some(state) => push_flag_and_state(out, state),
    }
}

fn push_flag_and_state(out: &mut Vec<u8>, state: &WindowState) -> Result<(), OutOfMemory>
    requires { length state.now.text < 2 ^ 32 }
    ensures { OnOk result (out.new.items ≡ out.old.items ++ flagged_bytes (Some state.now)) }
{
    push_byte(out, 1)?;
    push_u64(out, state.window)?;
    push_text(out, &state.text)?;
    Ok(())
}

pub(crate) fn push_name(out: &mut Vec<u8>, place: u32, text: &[u8]) -> Result<(), OutOfMemory>
    requires { length text.now < 256 }
    ensures { OnOk result (out.new.items ≡ out.old.items ++ name_bytes place text.now) }
{
    push_u32(out, place)?;
    push_byte(out, text.len() as u8)?;
    push_bytes(out, text)?;
    Ok(())
}

fn push_names(out: &mut Vec<u8>, places: &[u32], texts: &[KeptText]) -> Result<(), OutOfMemory>
    requires same { length texts.now ≡ length places.now }
    requires short { list_all is_short texts.now ≡ true }
    ensures { OnOk result (out.new.items ≡ out.old.items ++ names_bytes places.now texts.now) }
{
    for index in 0..places.len() {
        push_name(out, places[index], texts[index].as_slice())?;
    }
    Ok(())
}

#[tactic(auto, unfolding(crate::specs::Payload::named_bytes))]
fn push_named(out: &mut Vec<u8>, places: &Places, texts: &KeptTexts) -> Result<(), OutOfMemory>
    requires few { length places.now < 2 ^ 32 }
    requires same { length texts.now ≡ length places.now }
    requires short { list_all is_short texts.now ≡ true }
    ensures { OnOk result (out.new.items ≡ out.old.items ++ named_bytes places.now texts.now) }
{
    push_u32(out, places.as_slice().len() as u32)?;
    push_names(out, places.as_slice(), texts.as_slice())?;
    Ok(())
}

fn push_kind(out: &mut Vec<u8>, kind: u8, shard: u64) -> Result<(), OutOfMemory>
    ensures { OnOk result (out.new.items ≡ out.old.items ++ (kind ∷ eight shard)) }
{
    push_byte(out, kind)?;
    push_u64(out, shard)?;
    Ok(())
}

/// Appends what precedes the names of a payload of fates; `count` names follow.
pub(crate) fn push_fates_front(
    out: &mut Vec<u8>,
    shard: u64,
    fate: Fate,
    moment: u64,
    state: &Option<WindowState>,
    count: u32,
) -> Result<(), OutOfMemory>
    requires { IfSome state.now (λ s. length s.text < 2 ^ 32) }
    ensures { OnOk result (out.new.items ≡ out.old.items ++ fates_front shard fate moment state.now count) }
{
    push_kind(out, 1, shard)?;
    push_byte(out, fate_byte(fate))?;
    push_u64(out, moment)?;
    push_flagged(out, state)?;
    push_u32(out, count)?;
    Ok(())
}

fn push_fates(
    out: &mut Vec<u8>,
    shard: u64,
    fate: Fate,
    moment: u64,
    state: &Option<WindowState>,
    places: &Places,
    texts: &KeptTexts,
) -> Result<(), OutOfMemory>
    requires { IsSaid (said.Fates shard fate moment state.now places.now texts.now) }
    ensures { OnOk result (out.new.items ≡ out.old.items ++ payload_of (said.Fates shard fate moment state.now places.now texts.now)) }
{
    let count = places.as_slice().len() as u32;
    push_fates_front(out, shard, fate, moment, state, count)?;
    push_names(out, places.as_slice(), texts.as_slice())?;
    Ok(())
}

fn push_closed(out: &mut Vec<u8>, shard: u64, window: u64, moment: u64) -> Result<(), OutOfMemory>
    ensures { OnOk result (out.new.items ≡ out.old.items ++ payload_of (said.Closed shard window moment)) }
{
    push_kind(out, 2, shard)?;
    push_u64(out, window)?;
    push_u64(out, moment)?;
    Ok(())
}

fn push_deleted(
    out: &mut Vec<u8>,
    fate: Fate,
    moment: u64,
    places: &Places,
    texts: &KeptTexts,
) -> Result<(), OutOfMemory>
    requires { IsSaid (said.Deleted fate moment places.now texts.now) }
    ensures { OnOk result (out.new.items ≡ out.old.items ++ payload_of (said.Deleted fate moment places.now texts.now)) }
{
    push_byte(out, 3)?;
    push_byte(out, fate_byte(fate))?;
    push_u64(out, moment)?;
    push_named(out, places, texts)?;
    Ok(())
}

fn push_state(
    out: &mut Vec<u8>,
    shard: u64,
    moment: u64,
    state: &WindowState,
) -> Result<(), OutOfMemory>
    requires { IsSaid (said.State shard moment state.now) }
    ensures { OnOk result (out.new.items ≡ out.old.items ++ payload_of (said.State shard moment state.now)) }
{
    push_kind(out, 4, shard)?;
    push_u64(out, state.window)?;
    push_u64(out, moment)?;
    push_text(out, &state.text)?;
    Ok(())
}

/// Appends what precedes the names of a payload of tries; `count` names follow.
pub(crate) fn push_tried_front(
    out: &mut Vec<u8>,
    shard: u64,
    moment: u64,
    tries: u32,
    count: u32,
) -> Result<(), OutOfMemory>
    ensures { OnOk result (out.new.items ≡ out.old.items ++ tried_front shard moment tries count) }
{
    push_kind(out, 5, shard)?;
    push_u64(out, moment)?;
    push_u32(out, tries)?;
    push_u32(out, count)?;
    Ok(())
}

fn push_tried(
    out: &mut Vec<u8>,
    shard: u64,
    moment: u64,
    tries: u32,
    places: &Places,
    texts: &KeptTexts,
) -> Result<(), OutOfMemory>
    requires { IsSaid (said.Tried shard moment tries places.now texts.now) }
    ensures { OnOk result (out.new.items ≡ out.old.items ++ payload_of (said.Tried shard moment tries places.now texts.now)) }
{
    let count = places.as_slice().len() as u32;
    push_tried_front(out, shard, moment, tries, count)?;
    push_names(out, places.as_slice(), texts.as_slice())?;
    Ok(())
}

fn push_window_tried(
    out: &mut Vec<u8>,
    shard: u64,
    window: u64,
    moment: u64,
    tries: u32,
) -> Result<(), OutOfMemory>
    ensures { OnOk result (out.new.items ≡ out.old.items ++ payload_of (said.WindowTried shard window moment tries)) }
{
    push_kind(out, 6, shard)?;
    push_u64(out, window)?;
    push_u64(out, moment)?;
    push_u32(out, tries)?;
    Ok(())
}

fn push_replayed(
    out: &mut Vec<u8>,
    shard: u64,
    moment: u64,
    places: &Places,
    texts: &KeptTexts,
) -> Result<(), OutOfMemory>
    requires { IsSaid (said.Replayed shard moment places.now texts.now) }
    ensures { OnOk result (out.new.items ≡ out.old.items ++ payload_of (said.Replayed shard moment places.now texts.now)) }
{
    push_replays(out, shard, moment, places.as_slice(), texts.as_slice())
}

/// Appends a payload of replays: the places and, in the same order, the sequence number of each.
#[tactic(auto, unfolding(crate::specs::Payload::named_bytes))]
pub(crate) fn push_replays(
    out: &mut Vec<u8>,
    shard: u64,
    moment: u64,
    places: &[u32],
    texts: &[KeptText],
) -> Result<(), OutOfMemory>
    requires { IsSaid (said.Replayed shard moment places.now texts.now) }
    ensures { OnOk result (out.new.items ≡ out.old.items ++ payload_of (said.Replayed shard moment places.now texts.now)) }
{
    push_kind(out, 7, shard)?;
    push_u64(out, moment)?;
    push_u32(out, places.len() as u32)?;
    push_names(out, places, texts)?;
    Ok(())
}

fn push_said(out: &mut Vec<u8>, said: &Said) -> Result<(), OutOfMemory>
    requires { IsSaid said.now }
    ensures { OnOk result (out.new.items ≡ out.old.items ++ payload_of said.now) }
{
    match said {
        Said::Fates {
            shard,
            fate,
            moment,
            state,
            places,
            texts,
        } => { push_fates(out, *shard, *fate, *moment, state, places, texts) }
        Said::Closed {
            shard,
            window,
            moment,
        } => push_closed(out, *shard, *window, *moment),
        Said::Deleted {
            fate,
            moment,
            places,
            texts,
        } => push_deleted(out, *fate, *moment, places, texts),
        Said::State {
            shard,
            moment,
            state,
        } => push_state(out, *shard, *moment, state),
        Said::Tried {
            shard,
            moment,
            tries,
            places,
            texts,
        } => push_tried(out, *shard, *moment, *tries, places, texts),
        Said::WindowTried {
            shard,
            window,
            moment,
            tries,
        } => { push_window_tried(out, *shard, *window, *moment, *tries) }
        Said::Replayed {
            shard,
            moment,
            places,
            texts,
        } => push_replayed(out, *shard, *moment, places, texts),
    }
}
