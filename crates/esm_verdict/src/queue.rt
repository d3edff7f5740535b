// Reading the reply for a batch of a queue: which of its messages failed.
ghost use Rattle.std.specs.Prelude.{◌≡◌, ◌≤◌, length, Some, [], IfOk};
ghost use Rattle.serde_json.specs.View.{view};
ghost use Rattle.esm_model.specs.QueueReading.{queue_reading, queue_item_reading, queue_body_reading};

use crate::index::Index;
use crate::positions::failed_positions;
use crate::reported::{listed, positions_of};
use esm_model::{Config, MAX_BATCH, OutOfMemory, Places, QueueReading, Reply, Text, parse_json};
use serde_json::Value;
use std::alloc::Global;

fn done(alloc: Global) -> QueueReading
    ensures { result ≡ QueueReading.Done [] }
{
    QueueReading::Done {
        failed: Places::from_vec(Vec::new(alloc)),
    }
}

/// The reading of an answer whose body is this value.
fn value_reading(alloc: Global, ids: &[Text], value: &Value) -> Result<QueueReading, OutOfMemory>
    requires { length ids.now ≤ MAX_BATCH }
    ensures { IfOk result (λ reading. reading ≡ queue_body_reading ids.now (Some (view value.now))) }
{
    let Some(failures) = listed(value) else {
        return Ok(QueueReading::Failed);
    };
    if failures.is_empty() {
        return Ok(done(alloc));
    }
    let index = Index::of(alloc, ids)?;
    match positions_of(alloc, &index, failures)? {
        Some(reported) => Ok(QueueReading::Done {
            failed: failed_positions(alloc, reported.as_slice(), ids.len())?,
        }),
        None => Ok(QueueReading::Failed),
    }
}

/// The reading of an answer with this body, where the mapping uses item failures.
fn item_reading(alloc: Global, ids: &[Text], body: &[u8]) -> Result<QueueReading, OutOfMemory>
    requires { length ids.now ≤ MAX_BATCH }
    ensures { IfOk result (λ reading. reading ≡ queue_item_reading ids.now body.now) }
{
    if body.is_empty() {
        return Ok(done(alloc));
    }
    match parse_json(alloc, body)? {
        Some(value) => value_reading(alloc, ids, &value),
        None => Ok(QueueReading::Failed),
    }
}

/// Reads the reply for a batch of a queue. `ids` are the message ids of the batch, at most `MAX_BATCH`, in their order. The
/// failed messages are returned as positions in the batch, counted from 0 and rising, each once. A status other than 200
/// counts as not run. These fail the whole batch: a lost or garbled reply; the function error; and, if the mapping uses item
/// failures, an answer that is not readable or that names an id outside the batch. (Lambda Developer Guide, "Implementing
/// partial batch responses" for Amazon SQS.)
pub fn read_queue(
    alloc: Global,
    config: &Config,
    ids: &[Text],
    reply: &Reply,
) -> Result<QueueReading, OutOfMemory>
    requires { length ids.now ≤ MAX_BATCH }
    ensures { IfOk result (λ reading. reading ≡ queue_reading config.now ids.now reply.now) }
{
    match reply {
        Reply::Lost | Reply::Garbled { .. } => Ok(QueueReading::Failed),
        Reply::Answered { status, .. } if *status != 200 => Ok(QueueReading::NotRun),
        Reply::Answered { error: true, .. } => Ok(QueueReading::Failed),
        Reply::Answered { body, .. } if config.item_failures => {
            item_reading(alloc, ids, body.as_slice())
        }
        Reply::Answered { .. } => Ok(done(alloc)),
    }
}
