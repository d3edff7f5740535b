// The messages of the next call, as their receiver sees them.
ghost use Rattle.std.specs.Prelude.{◌≡◌, ◌<◌, ◌≤◌, [], All, IfOk, Some, length, take};
ghost use Rattle.esm_model.specs.declared.moment.TheConstants.{MAX_MOMENT};
ghost use Rattle.esm_model.specs.Batches.{longest};
ghost use Rattle.esm_model.specs.QueueEvent.{IsQueueConfig};
ghost use Rattle.esm_queue_core.specs.Next.{IsValidStored};
ghost use Rattle.esm_queue_core.specs.Choosing.{received_at, received, fits_in};

use esm_event::queue_bytes;
use esm_model::{Config, MAX_EVENT, Message, OutOfMemory, Received, Text};
use esm_queue::Queue;
use std::alloc::Global;

/// The bytes of an event without messages: `{"Records":[` and `]}`.
const FRAME_BYTES: u64 = 14;

fn copy_group(alloc: Global, group: &Option<Text>) -> Result<Option<Text>, OutOfMemory>
    ensures { IfOk result (λ copy. copy ≡ group.now) }
{
    match group {
        None => Ok(None),
        Some(name) => Ok(Some(name.copy(alloc)?)),
    }
}

fn copy_message(alloc: Global, message: &Message) -> Result<Message, OutOfMemory>
    ensures { IfOk result (λ copy. copy ≡ message.now) }
{
    let id = message.id.copy(alloc)?;
    let group = copy_group(alloc, &message.group)?;
    let body = message.body.copy(alloc)?;
    Ok(Message {
        id,
        group,
        body,
        sent: message.sent,
    })
}

/// A copy of the message at the place, as its receiver sees it after one more receipt at the moment.
fn received_copy(
    alloc: Global,
    queue: &Queue,
    place: u32,
    now: u64,
) -> Result<Received, OutOfMemory>
    requires { place < length queue.now.state.messages }
    ensures { IfOk result (λ item. received_at now queue.now.state place ≡ Some item) }
{
    let count = queue.count(place).saturating_add(1);
    let first = queue.first(place).unwrap_or(now);
    match queue.message(place) {
        None => unreachable!(),
        Some(message) => {
            let copy = copy_message(alloc, message)?;
            Ok(Received {
                message: copy,
                place,
                count,
                first,
            })
        }
    }
}

/// The messages at the first of the places, as many as one call takes: at most the batch size, with an event of at most
/// 6,291,456 bytes. They are as their receiver sees them after a receipt at the moment.
pub(crate) fn gather(
    alloc: Global,
    config: &Config,
    queue: &Queue,
    places: &[u32],
    now: u64,
) -> Result<Vec<Received>, OutOfMemory>
    requires config { IsQueueConfig config.now }
    requires stored { All (IsValidStored config.now.kind) queue.now.state.messages }
    requires in_time { now ≤ MAX_MOMENT }
    requires places { All (λ p. p < length queue.now.state.messages) places.now }
    ensures within { IfOk result (λ batch. length batch.items ≤ length places.now) }
    ensures longest { IfOk result (λ batch. take (length batch.items) places.now ≡ longest (fits_in config.now queue.now.state now) [] places.now) }
    ensures messages { IfOk result (λ batch. batch.items ≡ received now queue.now.state (take (length batch.items) places.now)) }
{
    let full = config.batch_size as usize;
    let mut batch = Vec::new(alloc);
    let mut bytes = FRAME_BYTES;
    for (i, place) in places.iter().enumerate() {
        if i >= full {
            return Ok(batch);
        }
        let item = received_copy(alloc, queue, *place, now)?;
        let more = bytes + queue_bytes(config, &item) as u64;
        let event = more + i as u64;
        if event > MAX_EVENT as u64 {
            return Ok(batch);
        }
        batch.push(item)?;
        bytes = more;
    }
    Ok(batch)
}
