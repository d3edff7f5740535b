//! The entries that a verdict requires.
ghost use Rattle.std.specs.Prelude.{◌≡◌, ◌≤◌, ◌<◌, ◌+◌, ◌++◌, length, slice_index, unwrap_or, IfOk, OnOk};
ghost use Rattle.std.specs.Option.{option_or};
ghost use Rattle.esm_model.specs.Entries.{came_count};
ghost use Rattle.esm_model.specs.State.{IsSpanIn, span_bytes};
ghost use Rattle.esm_model.specs.Windows.{window_of};
ghost use Rattle.esm_verdict.specs.Readings.{IsStateIn};
ghost use Rattle.esm_ledger.specs.Ledger.{past_of, setting_of, Keeps};
ghost use Rattle.esm_outcome.specs.Dues.{window_in};
ghost use Rattle.esm_outcome.specs.Parts.{text_in, success_state, success_dues, give_up_dues, close_dues, rest_dues, tried_dues, given_up};

use crate::outcome::Due;
use esm_ledger::Ledger;
use esm_model::{
    Bytes, Fate, MAX_TRIES, OutOfMemory, Places, Reply, Rest, StateRead, Text, WindowState,
};
use std::alloc::Global;

/// The state that the records that succeeded give their window; `None` if none succeeded or no windows are configured.
pub fn state_of(
    alloc: Global,
    ledger: &Ledger,
    shard: u64,
    good: &[u32],
    closing: Option<u64>,
    reply: &Reply,
    state: StateRead,
) -> Result<Option<WindowState>, OutOfMemory>
    requires kept { Keeps ledger.now }
    requires came { 1 ≤ length good.now → slice_index good.now 0 < came_count (past_of ledger.now) shard }
    requires in_answer { IsStateIn reply.now state }
    ensures { IfOk result (λ r. r ≡ success_state (setting_of ledger.now) shard good.now closing (text_in reply.now state)) }
{
    if good.is_empty() || ledger.config.tumbling_ms == 0 {
        return Ok(None);
    }
    let window = window_of(ledger, shard, good[0], closing);
    let text = state_text(alloc, reply, state)?;
    Ok(Some(WindowState { window, text }))
}

/// The window of a call: the one that it closes, or else that of its first record.
fn window_of(ledger: &Ledger, shard: u64, place: u32, closing: Option<u64>) -> u64
    requires kept { Keeps ledger.now }
    requires came { place < came_count (past_of ledger.now) shard }
    ensures { result ≡ unwrap_or closing (window_of (setting_of ledger.now) shard place) }
{
    match closing {
        None => ledger.window_of(shard, place),
        Some(window) => window,
    }
}

/// A copy of the state's bytes.
fn state_text(alloc: Global, reply: &Reply, state: StateRead) -> Result<Bytes, OutOfMemory>
    requires { IsStateIn reply.now state }
    ensures { IfOk result (λ text. text ≡ text_in reply.now state) }
{
    match reply {
        Reply::Answered {
            status: _,
            error: _,
            body,
        } => span_text(alloc, body.as_slice(), state),
        Reply::Garbled { bytes: _ } | Reply::Lost => bytes_of(alloc, b"{}"),
    }
}

fn span_text(alloc: Global, body: &[u8], state: StateRead) -> Result<Bytes, OutOfMemory>
    requires { IsSpanIn body.now state }
    ensures { IfOk result (λ text. text ≡ span_bytes body.now state) }
{
    match state {
        StateRead::Span { from, to } => bytes_of(alloc, &body[from..to]),
        StateRead::Empty | StateRead::Bad => bytes_of(alloc, b"{}"),
    }
}

fn bytes_of(alloc: Global, bytes: &[u8]) -> Result<Bytes, OutOfMemory>
    ensures { IfOk result (λ copy. copy ≡ bytes.now) }
{
    Ok(Bytes::from_vec(Vec::from_slice(alloc, bytes)?))
}

/// The window of the final call, or else that of the state.
pub fn window_for(closing: Option<u64>, state: &Option<WindowState>) -> Option<u64>
    ensures { result ≡ option_or closing (window_in state.now) }
{
    match closing {
        None => window_in(state),
        Some(window) => Some(window),
    }
}

fn window_in(state: &Option<WindowState>) -> Option<u64>
    ensures { result ≡ window_in state.now }
{
    match state {
        None => None,
        Some(state) => Some(state.window),
    }
}

/// How many records get a fate.
pub fn given_of(rest: Rest, good: &[u32], left: &[u32]) -> u32
    requires { length good.now + length left.now < 4294967296 }
    ensures { result ≡ length good.now + given_up rest (length left.now) }
{
    match rest {
        Rest::Exhausted => (good.len() + left.len()) as u32,
        _ => good.len() as u32,
    }
}

/// All entries that a verdict requires: for the records that succeeded, and then for the rest. `tries` are those before the
/// end.
pub fn dues_of(
    alloc: Global,
    rest: Rest,
    good: &[u32],
    left: &[u32],
    closing: Option<u64>,
    tries: u32,
    state: Option<WindowState>,
    line: Option<Text>,
) -> Result<Vec<Due>, OutOfMemory>
    ensures { IfOk result (λ dues. dues.items ≡ success_dues good.now state ++ rest_dues rest left.now closing tries line) }
{
    let mut dues = Vec::new(alloc);
    push_success(&mut dues, alloc, good, state)?;
    push_rest(&mut dues, alloc, rest, left, closing, tries, line)?;
    Ok(dues)
}

fn push_success(
    dues: &mut Vec<Due>,
    alloc: Global,
    good: &[u32],
    state: Option<WindowState>,
) -> Result<(), OutOfMemory>
    ensures { OnOk result (dues.new.items ≡ dues.old.items ++ success_dues good.now state) }
{
    if good.is_empty() {
        return Ok(());
    }
    dues.push(Due::Gave {
        places: copied(alloc, good)?,
        fate: Fate::Succeeded,
        line: None,
        state,
    })?;
    Ok(())
}

fn push_rest(
    dues: &mut Vec<Due>,
    alloc: Global,
    rest: Rest,
    left: &[u32],
    closing: Option<u64>,
    tries: u32,
    line: Option<Text>,
) -> Result<(), OutOfMemory>
    ensures { OnOk result (dues.new.items ≡ dues.old.items ++ rest_dues rest left.now closing tries line) }
{
    match rest {
        Rest::Nothing => push_closed(dues, closing),
        Rest::Again | Rest::Split(_) => Ok(()),
        Rest::Counted => push_tried(dues, alloc, left, closing, tries),
        Rest::Exhausted => {
            push_given_up(dues, alloc, left, line)?;
            push_closed(dues, closing)
        }
    }
}

fn push_given_up(
    dues: &mut Vec<Due>,
    alloc: Global,
    left: &[u32],
    line: Option<Text>,
) -> Result<(), OutOfMemory>
    ensures { OnOk result (dues.new.items ≡ dues.old.items ++ give_up_dues left.now line) }
{
    if left.is_empty() {
        return Ok(());
    }
    dues.push(Due::Gave {
        places: copied(alloc, left)?,
        fate: Fate::Exhausted,
        line,
        state: None,
    })?;
    Ok(())
}

fn push_tried(
    dues: &mut Vec<Due>,
    alloc: Global,
    left: &[u32],
    closing: Option<u64>,
    tries: u32,
) -> Result<(), OutOfMemory>
    ensures { OnOk result (dues.new.items ≡ dues.old.items ++ tried_dues left.now closing tries) }
{
    dues.push(Due::Tried {
        places: copied(alloc, left)?,
        closing,
        tries: tries.min(MAX_TRIES - 1) + 1,
    })?;
    Ok(())
}

fn push_closed(dues: &mut Vec<Due>, closing: Option<u64>) -> Result<(), OutOfMemory>
    ensures { OnOk result (dues.new.items ≡ dues.old.items ++ close_dues closing) }
{
    if let Some(window) = closing {
        dues.push(Due::Closed { window })?;
    }
    Ok(())
}

/// A copy of the places.
fn copied(alloc: Global, places: &[u32]) -> Result<Places, OutOfMemory>
    ensures { IfOk result (λ copy. copy ≡ places.now) }
{
    Ok(Places::from_vec(Vec::from_slice(alloc, places)?))
}
