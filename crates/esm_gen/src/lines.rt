// The input of a generated stream.
ghost use Rattle.std.specs.Prelude.{◌≡◌, ◌<◌, ◌++◌, IfOk, OnOk};
ghost use Rattle.esm_gen.specs.Generated as spec;
ghost use Rattle.esm_gen.specs.Reads.{ReadsAs};

use esm_event::bytes::push_bytes;
use esm_event::digits::push_decimal;
use esm_event::record::{push_base64, push_shard_id};
use esm_model::OutOfMemory;
use std::alloc::Global;

/// Writes the input of a generated stream of `records` records: a line of JSON for each, with its line feed. It reads as
/// these records, and no line of it is refused. `OutOfMemory` if an allocation failed.
#[tactic(auto, using(crate::proofs::Generating::one_more, crate::proofs::WholeInput::reads_back))]
pub fn generated_lines(alloc: Global, records: u32) -> Result<Vec<u8>, OutOfMemory>
    ensures lines { IfOk result (λ text. text.items ≡ spec.generated_lines records) }
    ensures reads { IfOk result (λ text. ReadsAs text.items (spec.generated_records records)) }
{
    let mut out = Vec::new(alloc);
    for number in 0..records {
        push_line(alloc, &mut out, number as u64)?;
    }
    Ok(out)
}

/// Appends the line of the record with this number. After an `Err`, a part of it may be there.
#[tactic(auto, unfolding(crate::specs::Generated::input_line))]
fn push_line(alloc: Global, out: &mut Vec<u8>, number: u64) -> Result<(), OutOfMemory>
    requires { number < 4294967296 }
    ensures { OnOk result (out.new.items ≡ out.old.items ++ spec.input_line (spec.generated_record number)) }
{
    push_place(out, number)?;
    push_content(alloc, out, number)?;
    Ok(())
}

fn push_place(out: &mut Vec<u8>, number: u64) -> Result<(), OutOfMemory>
    requires { number < 4294967296 }
    ensures { OnOk result (out.new.items ≡ out.old.items ++ spec.place_part (spec.generated_record number)) }
{
    push_bytes(out, b"{\"shardId\":\"")?;
    push_shard_id(out, number % 2)?;
    push_bytes(out, b"\",\"sequenceNumber\":\"")?;
    push_decimal(out, number + 1)?;
    Ok(())
}

fn push_content(alloc: Global, out: &mut Vec<u8>, number: u64) -> Result<(), OutOfMemory>
    ensures { OnOk result (out.new.items ≡ out.old.items ++ spec.content_part (spec.generated_record number)) }
{
    let key = partition_key(alloc, number)?;
    let payload = generated_data(alloc, number)?;
    push_bytes(out, b"\",\"partitionKey\":\"")?;
    push_bytes(out, &key)?;
    push_bytes(out, b"\",\"data\":\"")?;
    push_base64(out, &payload)?;
    push_bytes(out, b"\",\"approximateArrivalTimestamp\":")?;
    push_decimal(out, number)?;
    push_bytes(out, b"}\n")?;
    Ok(())
}

/// Writes the partition key of the record with this number.
fn partition_key(alloc: Global, number: u64) -> Result<Vec<u8>, OutOfMemory>
    ensures { IfOk result (λ key. key.items ≡ (spec.generated_record number).key) }
{
    let mut key = Vec::new(alloc);
    push_bytes(&mut key, b"k")?;
    push_decimal(&mut key, number % 50)?;
    Ok(key)
}

/// Writes the data of the record with this number.
fn generated_data(alloc: Global, number: u64) -> Result<Vec<u8>, OutOfMemory>
    ensures { IfOk result (λ payload. payload.items ≡ spec.generated_data number) }
{
    let mut payload = Vec::new(alloc);
    push_bytes(&mut payload, b"{\"n\":")?;
    push_decimal(&mut payload, number % 10)?;
    push_bytes(&mut payload, b"}")?;
    Ok(payload)
}
