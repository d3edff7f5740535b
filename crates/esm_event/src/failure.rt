// Writing the line that the failure destination gets.
ghost use Rattle.std.specs.Prelude.{◌≡◌, ◌++◌, OnOk, IfOk};
ghost use Rattle.esm_model.specs.Valid.{IsStreamConfig};
ghost use Rattle.esm_model.specs.ValidCall.{IsValidFailure};
ghost use Rattle.esm_model.specs.FailureText as spec;

use crate::bytes::push_bytes;
use crate::dates::push_date;
use crate::digits::{push_decimal, push_hexadecimal};
use crate::record::push_shard_id;
use esm_model::{Config, Failure, OutOfMemory, Response, Text};
use std::alloc::Global;

/// The failure line of records that were given up, without a line feed (Lambda Developer Guide, "Retaining discarded batch
/// records").
pub fn failure_text(alloc: Global, config: &Config, failure: &Failure) -> Result<Text, OutOfMemory>
    requires config { IsStreamConfig config.now }
    requires failure { IsValidFailure failure.now }
    ensures { IfOk result (λ text. text ≡ spec.failure_text config.now failure.now) }
{
    let _function = config.function_arn.as_str();
    let _source = config.source_arn.as_str();
    let _first = failure.first.text();
    let _last = failure.last.text();
    let bytes = failure_bytes(alloc, config, failure)?;
    match String::from_utf8(bytes) {
        Ok(line) => Ok(Text::from_vec(line)),
        Err(_) => unreachable!(),
    }
}

#[tactic(auto, unfolding(esm_model::specs::FailureText::failure_text))]
fn failure_bytes(alloc: Global, config: &Config, failure: &Failure) -> Result<Vec<u8>, OutOfMemory>
    requires config { IsStreamConfig config.now }
    requires failure { IsValidFailure failure.now }
    ensures { IfOk result (λ text. text.items ≡ spec.failure_text config.now failure.now) }
{
    let mut out = Vec::new(alloc);
    push_request(&mut out, config, failure)?;
    push_response(&mut out, failure.response)?;
    push_batch(&mut out, failure)?;
    push_arrivals(&mut out, config, failure)?;
    Ok(out)
}

fn push_request(out: &mut Vec<u8>, config: &Config, failure: &Failure) -> Result<(), OutOfMemory>
    ensures { OnOk result (out.new.items
        ≡ out.old.items ++ spec.request_part config.now failure.now) }
{
    push_bytes(out, b"{\"requestContext\":{\"requestId\":\"")?;
    push_request_id(out, failure)?;
    push_bytes(out, b"\",\"functionArn\":\"")?;
    push_bytes(out, config.function_arn.as_slice())?;
    push_bytes(out, b"\",\"condition\":\"")?;
    push_condition(out, failure.expired)?;
    push_bytes(out, b"\",\"approximateInvokeCount\":")?;
    push_decimal(out, failure.calls as u64)?;
    push_bytes(out, b"},")?;
    Ok(())
}

fn push_request_id(out: &mut Vec<u8>, failure: &Failure) -> Result<(), OutOfMemory>
    ensures { OnOk result (out.new.items ≡ out.old.items ++ spec.request_id failure.now) }
{
    push_hexadecimal(out, 8, failure.place as u64)?;
    push_bytes(out, b"-0000-8000-8000-")?;
    push_hexadecimal(out, 12, failure.shard)?;
    Ok(())
}

fn push_condition(out: &mut Vec<u8>, expired: bool) -> Result<(), OutOfMemory>
    ensures { OnOk result (out.new.items ≡ out.old.items ++ spec.condition_text expired) }
{
    if expired {
        push_bytes(out, b"RecordAgeExceeded")?;
    } else {
        push_bytes(out, b"RetryAttemptsExhausted")?;
    }
    Ok(())
}

fn push_response(out: &mut Vec<u8>, response: Option<Response>) -> Result<(), OutOfMemory>
    ensures { OnOk result (out.new.items ≡ out.old.items ++ spec.response_part response) }
{
    if let Some(answer) = response {
        return push_answer(out, answer);
    }
    Ok(())
}

fn push_answer(out: &mut Vec<u8>, answer: Response) -> Result<(), OutOfMemory>
    ensures { OnOk result (out.new.items ≡ out.old.items ++ spec.answer_part answer) }
{
    push_bytes(out, b"\"responseContext\":{\"statusCode\":")?;
    push_decimal(out, answer.status as u64)?;
    push_bytes(out, b",\"executedVersion\":\"$LATEST\"")?;
    push_error(out, answer.error)?;
    push_bytes(out, b"},")?;
    Ok(())
}

fn push_error(out: &mut Vec<u8>, error: bool) -> Result<(), OutOfMemory>
    ensures { OnOk result (out.new.items ≡ out.old.items ++ spec.error_part error) }
{
    if error {
        push_bytes(out, b",\"functionError\":\"Unhandled\"")?;
    }
    Ok(())
}

fn push_batch(out: &mut Vec<u8>, failure: &Failure) -> Result<(), OutOfMemory>
    requires { IsValidFailure failure.now }
    ensures { OnOk result (out.new.items ≡ out.old.items ++ spec.batch_part failure.now) }
{
    push_bytes(out, b"\"version\":\"1.0\",\"timestamp\":\"")?;
    push_date(out, failure.moment)?;
    push_bytes(out, b"\",\"KinesisBatchInfo\":{\"shardId\":\"")?;
    push_shard_id(out, failure.shard)?;
    push_bytes(out, b"\",\"startSequenceNumber\":\"")?;
    push_bytes(out, failure.first.text().as_bytes())?;
    push_bytes(out, b"\",\"endSequenceNumber\":\"")?;
    push_bytes(out, failure.last.text().as_bytes())?;
    Ok(())
}

fn push_arrivals(out: &mut Vec<u8>, config: &Config, failure: &Failure) -> Result<(), OutOfMemory>
    requires { IsValidFailure failure.now }
    ensures { OnOk result (out.new.items
        ≡ out.old.items ++ spec.arrivals_part config.now failure.now) }
{
    push_bytes(out, b"\",\"approximateArrivalOfFirstRecord\":\"")?;
    push_date(out, failure.first_arrival)?;
    push_bytes(out, b"\",\"approximateArrivalOfLastRecord\":\"")?;
    push_date(out, failure.last_arrival)?;
    push_bytes(out, b"\",\"batchSize\":")?;
    push_decimal(out, failure.count as u64)?;
    push_bytes(out, b",\"streamArn\":\"")?;
    push_bytes(out, config.source_arn.as_slice())?;
    push_bytes(out, b"\"}}")?;
    Ok(())
}
