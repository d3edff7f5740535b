// Writing one record of a stream as an element of an event's `Records`.
ghost use Rattle.std.specs.Prelude.{◌≡◌, ◌++◌, OnOk, IfOk};
ghost use Rattle.esm_event.specs.Elements.{element_text, content_text, identity_text};
ghost use Rattle.esm_model.specs.EventText.{base64_text, shard_id, seconds_text, source_part};

use crate::bytes::push_bytes;
use crate::digits::{push_decimal, push_padded};
use crate::json::push_escaped;
use base64::encoded_len;
use base64::engine::general_purpose::STANDARD;
use esm_model::{Config, OutOfMemory, Record};
use std::alloc::Global;

/// The bytes that are reserved at first for what an element says of its source and of its shard.
const SOURCE_BYTES: usize = 256;

const IDENTITY_BYTES: usize = 83;

/// The text with which every element of the mapping's events ends.
pub(crate) fn source_text(alloc: Global, config: &Config) -> Result<Vec<u8>, OutOfMemory>
    ensures { IfOk result (λ text. text.items ≡ source_part config.now) }
{
    let mut out = Vec::with_capacity(alloc, SOURCE_BYTES)?;
    push_source(&mut out, config)?;
    Ok(out)
}

fn push_source(out: &mut Vec<u8>, config: &Config) -> Result<(), OutOfMemory>
    ensures { OnOk result (out.new.items ≡ out.old.items ++ source_part config.now) }
{
    push_bytes(
        out,
        b"\",\"eventName\":\"aws:kinesis:record\",\"invokeIdentityArn\":\"arn:aws:iam::",
    )?;
    push_bytes(out, config.account.as_slice())?;
    push_bytes(out, b":role/esm\",\"awsRegion\":\"")?;
    push_bytes(out, config.region.as_slice())?;
    push_bytes(out, b"\",\"eventSourceARN\":\"")?;
    push_bytes(out, config.source_arn.as_slice())?;
    push_bytes(out, b"\"}")?;
    Ok(())
}

/// The text that each element of the shard has between the record's arrival and its second sequence number.
pub(crate) fn identity_text(alloc: Global, shard: u64) -> Result<Vec<u8>, OutOfMemory>
    ensures { IfOk result (λ text. text.items ≡ identity_text shard) }
{
    let mut out = Vec::with_capacity(alloc, IDENTITY_BYTES)?;
    push_identity(&mut out, shard)?;
    Ok(out)
}

/// Appends the text of `identity_text`. After an error a part of it may have been appended.
pub(crate) fn push_identity(out: &mut Vec<u8>, shard: u64) -> Result<(), OutOfMemory>
    ensures { OnOk result (out.new.items ≡ out.old.items ++ identity_text shard) }
{
    push_bytes(
        out,
        b"},\"eventSource\":\"aws:kinesis\",\"eventVersion\":\"1.0\",\"eventID\":\"shardId-",
    )?;
    push_padded(out, 12, shard)?;
    push_bytes(out, b":")?;
    Ok(())
}

/// Appends the element with this opening, identity and source. After an error a part of it may have been appended.
pub(crate) fn push_element(
    out: &mut Vec<u8>,
    opening: &[u8],
    identity: &[u8],
    source: &[u8],
    item: &Record,
) -> Result<(), OutOfMemory>
    ensures { OnOk result (out.new.items
        ≡ out.old.items ++ element_text opening.now identity.now source.now item.now) }
{
    push_bytes(out, opening)?;
    push_content(out, item)?;
    push_bytes(out, identity)?;
    push_bytes(out, item.seq())?;
    push_bytes(out, source)?;
    Ok(())
}

fn push_content(out: &mut Vec<u8>, item: &Record) -> Result<(), OutOfMemory>
    ensures { OnOk result (out.new.items ≡ out.old.items ++ content_text item.now) }
{
    push_escaped(out, item.key())?;
    push_bytes(out, b"\",\"sequenceNumber\":\"")?;
    push_bytes(out, item.seq())?;
    push_bytes(out, b"\",\"data\":\"")?;
    push_bytes(out, item.base64())?;
    push_bytes(out, b"\",\"approximateArrivalTimestamp\":")?;
    push_seconds(out, item.arrival())?;
    Ok(())
}

/// Appends `shardId-` and the twelve digits of the shard's number. After an error a part of it may have been appended.
pub fn push_shard_id(out: &mut Vec<u8>, shard: u64) -> Result<(), OutOfMemory>
    ensures { OnOk result (out.new.items ≡ out.old.items ++ shard_id shard) }
{
    push_bytes(out, b"shardId-")?;
    push_padded(out, 12, shard)?;
    Ok(())
}

/// Appends milliseconds as seconds, a point and three digits. After an error a part of it may have been appended.
pub fn push_seconds(out: &mut Vec<u8>, milliseconds: u64) -> Result<(), OutOfMemory>
    ensures { OnOk result (out.new.items ≡ out.old.items ++ seconds_text milliseconds) }
{
    push_decimal(out, milliseconds / 1000)?;
    push_bytes(out, b".")?;
    push_padded(out, 3, milliseconds % 1000)?;
    Ok(())
}

/// Appends the standard padded base64 of the bytes (RFC 4648). After an error a part of it may have been appended.
#[tactic(auto, unfolding(esm_model::specs::EventText::base64_text))]
pub fn push_base64(out: &mut Vec<u8>, bytes: &[u8]) -> Result<(), OutOfMemory>
    ensures { OnOk result (out.new.items ≡ out.old.items ++ base64_text bytes.now) }
{
    let start = out.len();
    let Some(size) = encoded_len(bytes.len(), true) else {
        return Err(OutOfMemory);
    };
    let Some(end) = start.checked_add(size) else {
        return Err(OutOfMemory);
    };
    out.resize(end, 0)?;
    match STANDARD.encode_slice(bytes, &mut out[start..]) {
        Ok(_) => Ok(()),
        Err(_) => Err(OutOfMemory),
    }
}
