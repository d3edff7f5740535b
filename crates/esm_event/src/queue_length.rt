// The lengths of a queue event's texts, computed without writing them.
ghost use Rattle.std.specs.Prelude.{◌≡◌, ◌≤◌, ◌+◌, ◌*◌, length};
ghost use Rattle.std.specs.Option.{ForSome};
ghost use Rattle.esm_model.specs.Numbers.{decimal};
ghost use Rattle.esm_model.specs.QueueEvent.{IsQueueConfig, IsValidReceived, group_part, queue_record_text};

use crate::length::{decimal_bytes, escaped_bytes};
use esm_model::{Config, Received};

/// The bytes of an element apart from its id, numbers, body and group, and the mapping's source and region: the names of its
/// members, `RH-`, and the digits of the body's MD5.
const FIXED_BYTES: usize = 279;

/// The bytes of `,"MessageGroupId":""`.
const GROUP_BYTES: usize = 20;

/// The number of bytes of the message's element in an event's `Records`. Takes no memory.
#[tactic(auto, using(crate::proofs::QueueLengths::record_length))]
pub fn queue_bytes(config: &Config, item: &Received) -> u32
    requires config { IsQueueConfig config.now }
    requires item { IsValidReceived config.now.kind item.now }
    ensures { result ≡ length (queue_record_text config.now item.now) }
{
    let id = item.message.id.as_slice().len();
    let numbers = numbers_bytes(item);
    let body = escaped_bytes(item.message.body.as_slice());
    let group = group_bytes(item);
    let queue = config.source_arn.as_slice().len() + config.region.as_slice().len();
    (FIXED_BYTES + id + numbers + body + group + queue) as u32
}

/// The number of bytes of the numbers in the receipt handle and in the attributes.
fn numbers_bytes(item: &Received) -> usize
    ensures value { result ≡ length (decimal item.now.place) + 2 * length (decimal item.now.count)
        + length (decimal item.now.message.sent) + length (decimal item.now.first) }
    ensures bound { result ≤ 200 }
{
    let place = decimal_bytes(item.place as u64);
    let count = decimal_bytes(item.count as u64);
    let sent = decimal_bytes(item.message.sent);
    let first = decimal_bytes(item.first);
    place + 2 * count + sent + first
}

#[tactic(auto, using(crate::proofs::QueueLengths::group_length))]
fn group_bytes(item: &Received) -> usize
    requires { ForSome item.now.message.group (λ text. length text ≤ 128) }
    ensures value { result ≡ length (group_part item.now.message.group) }
    ensures bound { result ≤ 788 }
{
    match &item.message.group {
        None => 0,
        Some(text) => GROUP_BYTES + escaped_bytes(text.as_slice()),
    }
}
