// Reading the reply for a stream's batch, and the state that it gives to the tumbling window.
ghost use Rattle.std.specs.Prelude.{◌≡◌, ◌≤◌, length, Some, IfOk};
ghost use Rattle.serde_json.specs.View.{view};
ghost use Rattle.esm_model.specs.Reading.{reading, item_reading, body_reading, is_bad};
ghost use Rattle.esm_verdict.specs.Readings.{IsWithin, IsStateIn, is_closing, reply_state};

use crate::index::Index;
use crate::positions::least_reading;
use crate::reported::{listed, positions_of};
use esm_model::{
    Answer, Config, MAX_BATCH, OutOfMemory, Reading, Reply, Seq, StateRead, parse_json,
};
use esm_window::read_state;
use serde_json::Value;
use std::alloc::Global;

/// The kind of call that a reply answers.
#[derive(Clone, Copy, Debug, PartialEq, Eq)]
pub enum Call {
    /// A call with the records of a batch.
    OfBatch,
    /// The final call of a tumbling window, without records.
    OfWindow,
}

/// The reading of an answer whose body is this value.
fn value_reading(alloc: Global, batch: &[Seq], value: &Value) -> Result<Reading, OutOfMemory>
    requires { length batch.now ≤ MAX_BATCH }
    ensures { IfOk result (λ reading. reading ≡ body_reading batch.now (Some (view value.now))) }
{
    let Some(failures) = listed(value) else {
        return Ok(Reading::Failed);
    };
    if failures.is_empty() {
        return Ok(Reading::Whole);
    }
    let index = Index::of(alloc, batch)?;
    match positions_of(alloc, &index, failures)? {
        Some(reported) => Ok(least_reading(reported.as_slice())),
        None => Ok(Reading::Failed),
    }
}

/// The reading of an answer with this body, where the mapping uses item failures.
fn item_reading(alloc: Global, batch: &[Seq], body: &[u8]) -> Result<Reading, OutOfMemory>
    requires { length batch.now ≤ MAX_BATCH }
    ensures { IfOk result (λ reading. reading ≡ item_reading batch.now body.now) }
{
    if body.is_empty() {
        return Ok(Reading::Whole);
    }
    match parse_json(alloc, body)? {
        Some(value) => value_reading(alloc, batch, &value),
        None => Ok(Reading::Failed),
    }
}

fn is_closing(call: Call) -> bool
    ensures { result ≡ is_closing call }
{
    match call {
        Call::OfBatch => false,
        Call::OfWindow => true,
    }
}

/// The state that a reply gives its window.
fn reply_state(alloc: Global, config: &Config, reply: &Reply) -> Result<StateRead, OutOfMemory>
    ensures state { IfOk result (λ state. state ≡ reply_state config.now reply.now) }
    ensures in_answer { IfOk result (λ state. IsStateIn reply.now state) }
{
    match reply {
        Reply::Answered {
            status: 200,
            error: false,
            body,
        } if config.tumbling_ms != 0 => read_state(alloc, body.as_slice()),
        _ => Ok(StateRead::Empty),
    }
}

fn is_bad(state: StateRead) -> bool
    ensures { result ≡ is_bad state }
{
    match state {
        StateRead::Bad => true,
        StateRead::Empty | StateRead::Span { .. } => false,
    }
}

/// Reads the reply for a stream's batch, and the state that it gives to the window. `batch` has the sequence numbers of the
/// batch, at most `MAX_BATCH`, in order. A status other than 200 counts as not run. Item failures count if the mapping uses
/// them, but not for a window's final call; of those reported the least position counts. These fail the whole batch: a lost
/// or garbled reply; the function error; a state that no window can have; and, where item failures count, an answer that is
/// not readable or that names a number outside the batch. The state is that of an answer with status 200 and no error where
/// windows are configured; for any other reply and without windows it is `Empty`. (Lambda Developer Guide, "Reporting batch
/// item failures" for Kinesis, and tumbling windows.)
pub fn read_stream(
    alloc: Global,
    config: &Config,
    batch: &[Seq],
    call: Call,
    reply: &Reply,
) -> Result<Answer, OutOfMemory>
    requires { length batch.now ≤ MAX_BATCH }
    ensures reading { IfOk result (λ answer. answer.reading ≡ reading config.now batch.now (is_closing call) reply.now) }
    ensures within { IfOk result (λ answer. IsWithin (length batch.now) answer.reading) }
    ensures state { IfOk result (λ answer. answer.state ≡ reply_state config.now reply.now) }
    ensures state_in_answer { IfOk result (λ answer. IsStateIn reply.now answer.state) }
{
    let state = reply_state(alloc, config, reply)?;
    let reading = match reply {
        Reply::Lost | Reply::Garbled { .. } => Reading::Failed,
        Reply::Answered { status, .. } if *status != 200 => Reading::NotRun,
        Reply::Answered { error: true, .. } => Reading::Failed,
        Reply::Answered { .. } if is_bad(state) => Reading::Failed,
        Reply::Answered { body, .. } if config.item_failures && !is_closing(call) => {
            item_reading(alloc, batch, body.as_slice())?
        }
        Reply::Answered { .. } => Reading::Whole,
    };
    Ok(Answer { reading, state })
}
