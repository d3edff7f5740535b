// The event of a call for a queue's batch.
ghost use Rattle.std.specs.Prelude.{◌≡◌, ◌+◌, ◌-◌, ◌++◌, [], All, codes, length, sum_by, min, OnOk, IfOk};
ghost use Rattle.std.specs.List.{join_by, flat_map};
ghost use Rattle.esm_model.specs.QueueEvent.{IsQueueConfig, IsValidReceived, queue_record_text, queue_event_text};
ghost use Rattle.esm_event.specs.Elements.{following_message};

use crate::bytes::push_bytes;
use crate::length::RECORDS_BYTES;
use crate::message::push_message;
use crate::queue_length::queue_bytes;
use esm_model::{Config, OutOfMemory, Received};
use std::alloc::Global;

/// The event's text for a batch of the queue (Lambda Developer Guide, "Using Lambda with Amazon SQS"). Its length is
/// computed first, so it is written once.
#[tactic(auto, unfolding(esm_model::specs::QueueEvent::queue_event_text))]
pub fn queue_event(
    alloc: Global,
    config: &Config,
    batch: &[Received],
) -> Result<Vec<u8>, OutOfMemory>
    requires config { IsQueueConfig config.now }
    requires batch { All (IsValidReceived config.now.kind) batch.now }
    ensures text { IfOk result (λ text. text.items ≡ queue_event_text config.now batch.now) }
    ensures length { IfOk result (λ text. length text.items
        ≡ length (queue_event_text config.now []) + sum_by (λ r. length (queue_record_text config.now r)) batch.now + (length batch.now - 1)) }
{
    let mut out = Vec::with_capacity(alloc, event_bytes(config, batch))?;
    push_bytes(&mut out, b"{\"Records\":[")?;
    push_messages(&mut out, config, batch)?;
    push_bytes(&mut out, b"]}")?;
    Ok(out)
}

/// The number of bytes of the event, capped at the greatest `usize`.
#[tactic(auto, using(crate::proofs::QueueLengths::event_length, crate::proofs::QueueLengths::empty_length))]
fn event_bytes(config: &Config, batch: &[Received]) -> usize
    requires config { IsQueueConfig config.now }
    requires batch { All (IsValidReceived config.now.kind) batch.now }
    ensures { result ≡ min (length (queue_event_text config.now batch.now)) usize.MAX }
{
    if batch.is_empty() {
        return RECORDS_BYTES as usize;
    }
    let mut total = RECORDS_BYTES as usize - 1;
    for item in batch {
        total = total.saturating_add(queue_bytes(config, item) as usize + 1);
    }
    total
}

#[tactic(auto, unfolding(crate::specs::Elements::following_message))]
fn push_messages(out: &mut Vec<u8>, config: &Config, batch: &[Received]) -> Result<(), OutOfMemory>
    ensures { OnOk result (out.new.items
        ≡ out.old.items ++ join_by (queue_record_text config.now) (codes ",") batch.now) }
{
    let Some((first, rest)) = batch.split_first() else {
        return Ok(());
    };
    push_message(out, config, first)?;
    push_rest(out, config, rest)?;
    Ok(())
}

fn push_rest(out: &mut Vec<u8>, config: &Config, rest: &[Received]) -> Result<(), OutOfMemory>
    ensures { OnOk result (out.new.items
        ≡ out.old.items ++ flat_map (following_message config.now) rest.now) }
{
    for item in rest {
        push_following(out, config, item)?;
    }
    Ok(())
}

#[tactic(auto, unfolding(crate::specs::Elements::following_message))]
fn push_following(out: &mut Vec<u8>, config: &Config, item: &Received) -> Result<(), OutOfMemory>
    ensures { OnOk result (out.new.items ≡ out.old.items ++ following_message config.now item.now) }
{
    push_bytes(out, b",")?;
    push_message(out, config, item)?;
    Ok(())
}
