// Copies a queue's messages as their receiver sees them after a receipt.
ghost use Rattle.std.specs.Prelude.{◌≡◌, ◌<◌, length, All, filter_map, IfOk};
ghost use Rattle.esm_queue_model.specs.Queue.{seen_at, received_once};
ghost use Rattle.esm_queue.specs.Receiving.{received_at};

use esm_model::{Message, OutOfMemory, Received, Text};
use esm_queue_model::Stored;
use std::alloc::Global;

fn copy_group(alloc: Global, group: &Option<Text>) -> Result<Option<Text>, OutOfMemory>
    ensures { IfOk result (λ copy. copy ≡ group.now) }
{
    match group {
        None => Ok(None),
        Some(name) => Ok(Some(name.copy(alloc)?)),
    }
}

fn copy_message(alloc: Global, message: &Message) -> Result<Message, OutOfMemory>
    ensures { IfOk result (λ copy. copy ≡ message.now) }
{
    let id = message.id.copy(alloc)?;
    let group = copy_group(alloc, &message.group)?;
    let body = message.body.copy(alloc)?;
    Ok(Message {
        id,
        group,
        body,
        sent: message.sent,
    })
}

/// The message as its receiver sees it after a receipt at the moment.
fn copy_received(
    alloc: Global,
    place: u32,
    stored: &Stored,
    now: u64,
) -> Result<Received, OutOfMemory>
    ensures { IfOk result (λ received. received ≡ seen_at place (received_once now stored.now)) }
{
    let message = copy_message(alloc, &stored.message)?;
    Ok(Received {
        message,
        place,
        count: stored.count.saturating_add(1),
        first: stored.first.unwrap_or(now),
    })
}

/// The messages at the places as their receiver sees them after a receipt at the moment.
pub fn copy_all(
    alloc: Global,
    messages: &[Stored],
    places: &[u32],
    now: u64,
) -> Result<Vec<Received>, OutOfMemory>
    requires { All (λ i. i < length messages.now) places.now }
    ensures { IfOk result (λ given. given.items ≡ filter_map (received_at now messages.now) places.now) }
{
    let mut given = Vec::new(alloc);
    for &place in places {
        given.push(copy_received(alloc, place, &messages[place as usize], now)?)?;
    }
    Ok(given)
}
