// Writing one message of a queue as an element of an event's `Records`.
ghost use Rattle.std.specs.Prelude.{◌≡◌, ◌++◌, OnOk};
ghost use Rattle.md5.specs.Md5.{md5};
ghost use Rattle.esm_model.specs.QueueEvent.{hexadecimal, receipt_handle, message_part, group_part, attributes_part, digest_part, queue_part, queue_record_text};

use crate::bytes::push_bytes;
use crate::digits::{push_decimal, push_hexadecimal};
use crate::json::push_quoted;
use esm_model::{Config, OutOfMemory, Received};
use md5::{Digest, Md5};

/// Appends the message's element. After an error a part of it may have been appended.
pub(crate) fn push_message(
    out: &mut Vec<u8>,
    config: &Config,
    item: &Received,
) -> Result<(), OutOfMemory>
    ensures { OnOk result (out.new.items ≡ out.old.items ++ queue_record_text config.now item.now) }
{
    push_identity(out, item)?;
    push_attributes(out, item)?;
    push_digest(out, item)?;
    push_queue(out, config)?;
    Ok(())
}

fn push_identity(out: &mut Vec<u8>, item: &Received) -> Result<(), OutOfMemory>
    ensures { OnOk result (out.new.items ≡ out.old.items ++ message_part item.now) }
{
    push_bytes(out, b"{\"messageId\":\"")?;
    push_bytes(out, item.message.id.as_slice())?;
    push_bytes(out, b"\",\"receiptHandle\":\"")?;
    push_receipt_handle(out, item)?;
    push_bytes(out, b"\",\"body\":")?;
    push_quoted(out, item.message.body.as_slice())?;
    Ok(())
}

fn push_receipt_handle(out: &mut Vec<u8>, item: &Received) -> Result<(), OutOfMemory>
    ensures { OnOk result (out.new.items ≡ out.old.items ++ receipt_handle item.now) }
{
    let (place, count) = (item.place as u64, item.count as u64);
    push_bytes(out, b"RH-")?;
    push_decimal(out, place)?;
    push_bytes(out, b"-")?;
    push_decimal(out, count)?;
    Ok(())
}

fn push_attributes(out: &mut Vec<u8>, item: &Received) -> Result<(), OutOfMemory>
    ensures { OnOk result (out.new.items ≡ out.old.items ++ attributes_part item.now) }
{
    push_bytes(out, b",\"attributes\":{\"ApproximateReceiveCount\":\"")?;
    push_decimal(out, item.count as u64)?;
    push_bytes(out, b"\",\"SentTimestamp\":\"")?;
    push_decimal(out, item.message.sent)?;
    push_bytes(out, b"\",\"ApproximateFirstReceiveTimestamp\":\"")?;
    push_decimal(out, item.first)?;
    push_bytes(out, b"\"")?;
    push_group(out, item)?;
    push_bytes(out, b"},\"messageAttributes\":{}")?;
    Ok(())
}

fn push_group(out: &mut Vec<u8>, item: &Received) -> Result<(), OutOfMemory>
    ensures { OnOk result (out.new.items ≡ out.old.items ++ group_part item.now.message.group) }
{
    match &item.message.group {
        None => Ok(()),
        Some(text) => {
            push_bytes(out, b",\"MessageGroupId\":")?;
            push_quoted(out, text.as_slice())?;
            Ok(())
        }
    }
}

fn push_digest(out: &mut Vec<u8>, item: &Received) -> Result<(), OutOfMemory>
    ensures { OnOk result (out.new.items ≡ out.old.items ++ digest_part item.now) }
{
    let digest = Md5::digest(item.message.body.as_slice());
    push_bytes(out, b",\"md5OfBody\":\"")?;
    push_hexadecimal_bytes(out, &digest)?;
    push_bytes(out, b"\"")?;
    Ok(())
}

/// Appends each byte as two lower-case hexadecimal digits. After an error a part of them may have been appended.
#[tactic(auto, unfolding(esm_model::specs::QueueEvent::hexadecimal))]
fn push_hexadecimal_bytes(out: &mut Vec<u8>, bytes: &[u8]) -> Result<(), OutOfMemory>
    ensures { OnOk result (out.new.items ≡ out.old.items ++ hexadecimal bytes.now) }
{
    for byte in bytes {
        push_hexadecimal(out, 2, *byte as u64)?;
    }
    Ok(())
}

fn push_queue(out: &mut Vec<u8>, config: &Config) -> Result<(), OutOfMemory>
    ensures { OnOk result (out.new.items ≡ out.old.items ++ queue_part config.now) }
{
    push_bytes(out, b",\"eventSource\":\"aws:sqs\",\"eventSourceARN\":\"")?;
    push_bytes(out, config.source_arn.as_slice())?;
    push_bytes(out, b"\",\"awsRegion\":\"")?;
    push_bytes(out, config.region.as_slice())?;
    push_bytes(out, b"\"}")?;
    Ok(())
}
