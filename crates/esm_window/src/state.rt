// Reading the window's state from a function's answer, as a span of its bytes.
ghost use Rattle.std.specs.Prelude.{◌≡◌, ◌<◌, ◌≤◌, ◌+◌, length, drop, reverse, take, IfOk, option_map, option_copied, Some};
ghost use Rattle.std.specs.List.{prefix_len};
ghost use Rattle.serde_json.specs.View.{view};
ghost use Rattle.esm_model.specs.State.{state_read, IsSpanIn};
ghost use Rattle.esm_window.specs.Scan.{is_space, span_between, member_state, body_state};

use crate::marks::last_state;
use crate::part::is_space;
use esm_model::{MAX_DATA, OutOfMemory, StateRead, parse_json};
use serde_json::Value;
use std::alloc::Global;

/// The number of spaces from `start` on.
fn spaces_from(text: &[u8], start: usize) -> usize
    requires { start ≤ length text.now }
    ensures within { start + result ≤ length text.now }
    ensures counted { result ≡ prefix_len is_space (drop start text.now) }
{
    let mut at = start;
    while at < text.len() && is_space(text[at]) {
        at += 1;
    }
    at - start
}

/// The number of spaces just before `end`.
fn spaces_before(text: &[u8], end: usize) -> usize
    requires { end ≤ length text.now }
    ensures within { result ≤ end }
    ensures counted { result ≡ prefix_len is_space (reverse (take end text.now)) }
{
    let mut at = end;
    while at > 0 && is_space(text[at - 1]) {
        at -= 1;
    }
    end - at
}

/// The span of the value between the marks `start` and `end`, without the spaces around it; `Bad` if it is longer than
/// `MAX_DATA` bytes.
fn span_between(text: &[u8], start: usize, end: usize) -> StateRead
    requires before { start < end }
    requires within { end < length text.now }
    ensures { result ≡ span_between text.now start end }
{
    let from = start + 1 + spaces_from(text, start + 1);
    let to = end - spaces_before(text, end);
    if to.saturating_sub(from) <= MAX_DATA {
        StateRead::Span { from, to }
    } else {
        StateRead::Bad
    }
}

/// The state, from the value of the answer's `state`.
fn member_state(
    alloc: Global,
    body: &[u8],
    member: Option<&Value>,
) -> Result<StateRead, OutOfMemory>
    ensures { IfOk result (λ read. read ≡ member_state body.now (option_map view (option_copied member.entry))) }
{
    match member {
        None | Some(Value::Null) => Ok(StateRead::Empty),
        Some(Value::Object(_)) => match last_state(alloc, body)? {
            Some((start, end)) => Ok(span_between(body, start, end)),
            None => Ok(StateRead::Bad),
        },
        Some(_) => Ok(StateRead::Bad),
    }
}

/// The state, from the value of the whole answer.
fn value_state(alloc: Global, body: &[u8], value: &Value) -> Result<StateRead, OutOfMemory>
    ensures { IfOk result (λ read. read ≡ body_state body.now (Some (view value.now))) }
{
    match value {
        Value::Null => Ok(StateRead::Empty),
        Value::Object(_) => member_state(alloc, body, value.get("state")),
        Value::Bool(_) | Value::Number(_) | Value::String(_) | Value::Array(_) => {
            Ok(StateRead::Bad)
        }
    }
}

/// Reads the state in a function's answer. `Span` gives the bytes of the value of the last member `state` of the outermost
/// object, whose key may be written with escapes, if that value is an object of at most `MAX_DATA` bytes. `Empty` is
/// returned for no bytes, for `null`, and for an object without `state` or with `null` there; `Bad` for anything else.
/// (Lambda Developer Guide, tumbling windows.)
pub fn read_state(alloc: Global, body: &[u8]) -> Result<StateRead, OutOfMemory>
    ensures read { IfOk result (λ read. read ≡ state_read body.now) }
    ensures within { IfOk result (λ read. IsSpanIn body.now read) }
{
    if body.is_empty() {
        return Ok(StateRead::Empty);
    }
    match parse_json(alloc, body)? {
        Some(value) => value_state(alloc, body, &value),
        None => Ok(StateRead::Bad),
    }
}
