// What is printed of a run's history before its report.
ghost use Rattle.std.specs.Prelude.{◌≡◌, true, map, reverse, IfOk, IfSome};
ghost use Rattle.esm_trace.specs.InOrder.{AreOfBatchers};
ghost use Rattle.esm_trace.specs.Trace.{replies_of, trace_text};
ghost use Rattle.esm_traced.specs.Front.{front_text};

use esm_model::{Entry, Kind, OutOfMemory, Reply};
use esm_trace::{Batchers, in_order, push_trace};
use std::alloc::Global;

/// Writes the text of a run's history (oldest entry first), whose calls got these replies, in their order.
fn text_of(
    alloc: Global,
    kind: Kind,
    history: &[Entry],
    replies: &[Reply],
) -> Result<Vec<u8>, OutOfMemory>
    requires { replies.now ≡ replies_of (reverse history.now) }
    ensures { IfOk result (λ text. text.items ≡ trace_text kind (reverse history.now)) }
{
    let mut text = Vec::new(alloc);
    push_trace(&mut text, kind, history, replies)?;
    Ok(text)
}

/// Writes the text of a run's history; `lists` has the replies that each caller kept.
fn text_by(
    alloc: Global,
    kind: Kind,
    batchers: Batchers,
    history: &[Entry],
    lists: Vec<Vec<Reply>>,
) -> Result<Vec<u8>, OutOfMemory>
    requires { AreOfBatchers batchers (reverse history.now) (map (λ replies. replies.items) lists.items) }
    ensures { IfOk result (λ text. text.items ≡ trace_text kind (reverse history.now)) }
{
    let replies = in_order(alloc, batchers, history, lists)?;
    text_of(alloc, kind, history, &replies)
}

/// Writes what is printed before the report of a run by many callers: the text of its history if the run ended and the trace
/// is asked for, and nothing otherwise. `OutOfMemory` also if a caller had no memory to keep its replies.
pub(crate) fn front_by(
    alloc: Global,
    trace: bool,
    ended: bool,
    kind: Kind,
    batchers: Batchers,
    history: &[Entry],
    lists: Option<Vec<Vec<Reply>>>,
) -> Result<Vec<u8>, OutOfMemory>
    requires { trace ≡ true → ended ≡ true → IfSome lists (λ v. AreOfBatchers batchers (reverse history.now) (map (λ replies. replies.items) v.items)) }
    ensures { ended ≡ true → IfOk result (λ front. front.items ≡ front_text trace kind (reverse history.now)) }
{
    if !trace || !ended {
        return Ok(Vec::new(alloc));
    }
    match lists {
        None => Err(OutOfMemory),
        Some(lists) => text_by(alloc, kind, batchers, history, lists),
    }
}

/// The same of a run by one caller.
pub(crate) fn front_of(
    alloc: Global,
    trace: bool,
    ended: bool,
    kind: Kind,
    history: &[Entry],
    kept: Option<Vec<Reply>>,
) -> Result<Vec<u8>, OutOfMemory>
    requires { trace ≡ true → ended ≡ true → IfSome kept (λ replies. replies.items ≡ replies_of (reverse history.now)) }
    ensures { ended ≡ true → IfOk result (λ front. front.items ≡ front_text trace kind (reverse history.now)) }
{
    if !trace || !ended {
        return Ok(Vec::new(alloc));
    }
    match kept {
        None => Err(OutOfMemory),
        Some(replies) => text_of(alloc, kind, history, &replies),
    }
}
