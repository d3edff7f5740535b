// Tests: mappings of streams and queues, their updates, and the field that each refusal names.
use esm_config::{ConfigError, Param, merge, read, text};
use esm_fixtures::STREAM_MAPPING;
use esm_model::{Config, Kind};
use serde_json::Value;
use std::alloc::Global;
use std::test::Fail;

/// The mappings of a stream, of a queue and of a FIFO queue, each without its closing brace.
const STREAM: &str = STREAM_MAPPING;

const QUEUE: &str =
    "{\"EventSourceArn\":\"arn:aws:sqs:us-east-1:123456789012:q\",\"FunctionName\":\"f\"";

const FIFO: &str =
    "{\"EventSourceArn\":\"arn:aws:sqs:us-east-1:123456789012:q.fifo\",\"FunctionName\":\"f\"";

/// The beginning of a mapping, what follows it, and the field that is refused. If a name occurs twice, the last value
/// counts.
const ROWS: [(&str, &str, Option<Param>); 42] = [
    (STREAM, "", None),
    (QUEUE, "", None),
    (FIFO, ",\"Colour\":null", None),
    (QUEUE, ",\"Colour\":\"red\"", Some(Param::Unknown)),
    (
        STREAM,
        ",\"EventSourceArn\":\"arn:aws:dynamodb:us-east-1:123456789012:table/t/stream/l\"",
        Some(Param::EventSourceArn),
    ),
    (
        STREAM,
        ",\"FunctionName\":\"f g\",\"BatchSize\":0",
        Some(Param::FunctionName),
    ),
    (STREAM, ",\"Enabled\":1", Some(Param::Enabled)),
    (STREAM, ",\"BatchSize\":10000", None),
    (STREAM, ",\"BatchSize\":10001", Some(Param::BatchSize)),
    (STREAM, ",\"BatchSize\":1.0", Some(Param::BatchSize)),
    (FIFO, ",\"BatchSize\":11", Some(Param::BatchSize)),
    (
        QUEUE,
        ",\"BatchSize\":11",
        Some(Param::MaximumBatchingWindowInSeconds),
    ),
    (
        QUEUE,
        ",\"BatchSize\":11,\"MaximumBatchingWindowInSeconds\":1",
        None,
    ),
    (
        FIFO,
        ",\"MaximumBatchingWindowInSeconds\":1",
        Some(Param::MaximumBatchingWindowInSeconds),
    ),
    (
        STREAM,
        ",\"MaximumBatchingWindowInSeconds\":301",
        Some(Param::MaximumBatchingWindowInSeconds),
    ),
    (
        STREAM,
        ",\"FilterCriteria\":{\"Filters\":[{\"Pattern\":\"{\\\"data\\\":{\\\"n\\\":[1]}}\"}]}",
        None,
    ),
    (
        STREAM,
        ",\"FilterCriteria\":{\"Filters\":[{\"Pattern\":\"{\\\"data\\\":[1]}\"}]}",
        Some(Param::FilterCriteria),
    ),
    (
        QUEUE,
        ",\"FilterCriteria\":{\"Filters\":[{\"Pattern\":\"{\\\"data\\\":[1]}\"}]}",
        None,
    ),
    (
        STREAM,
        ",\"FilterCriteria\":{\"Filters\":[],\"More\":1}",
        Some(Param::FilterCriteria),
    ),
    (
        STREAM,
        ",\"FunctionResponseTypes\":[\"ReportBatchItemFailures\"]",
        None,
    ),
    (
        STREAM,
        ",\"FunctionResponseTypes\":[\"ReportBatchItemFailures\",\"ReportBatchItemFailures\"]",
        Some(Param::FunctionResponseTypes),
    ),
    (
        STREAM,
        ",\"StartingPosition\":null",
        Some(Param::StartingPosition),
    ),
    (
        QUEUE,
        ",\"StartingPosition\":\"LATEST\"",
        Some(Param::StartingPosition),
    ),
    (
        STREAM,
        ",\"StartingPosition\":\"AT_TIMESTAMP\"",
        Some(Param::StartingPositionTimestamp),
    ),
    (
        STREAM,
        ",\"StartingPosition\":\"AT_TIMESTAMP\",\"StartingPositionTimestamp\":253402300799",
        None,
    ),
    (
        STREAM,
        ",\"StartingPosition\":\"AT_TIMESTAMP\",\"StartingPositionTimestamp\":253402300800",
        Some(Param::StartingPositionTimestamp),
    ),
    (
        STREAM,
        ",\"StartingPositionTimestamp\":0",
        Some(Param::StartingPositionTimestamp),
    ),
    (STREAM, ",\"ParallelizationFactor\":10", None),
    (
        STREAM,
        ",\"ParallelizationFactor\":11",
        Some(Param::ParallelizationFactor),
    ),
    (
        STREAM,
        ",\"MaximumRetryAttempts\":10000,\"MaximumRecordAgeInSeconds\":60",
        None,
    ),
    (
        STREAM,
        ",\"MaximumRetryAttempts\":-2",
        Some(Param::MaximumRetryAttempts),
    ),
    (
        STREAM,
        ",\"MaximumRecordAgeInSeconds\":59",
        Some(Param::MaximumRecordAgeInSeconds),
    ),
    (
        QUEUE,
        ",\"MaximumRecordAgeInSeconds\":-1",
        Some(Param::MaximumRecordAgeInSeconds),
    ),
    (
        STREAM,
        ",\"BisectBatchOnFunctionError\":\"true\"",
        Some(Param::BisectBatchOnFunctionError),
    ),
    (STREAM, ",\"TumblingWindowInSeconds\":900", None),
    (
        STREAM,
        ",\"TumblingWindowInSeconds\":1,\"ParallelizationFactor\":2",
        Some(Param::TumblingWindowInSeconds),
    ),
    (
        STREAM,
        ",\"DestinationConfig\":{\"OnFailure\":{\"Destination\":\"arn:aws:sqs:us-east-1:123456789012:d\"}}",
        None,
    ),
    (
        STREAM,
        ",\"DestinationConfig\":{\"OnFailure\":{\"Destination\":\"arn:aws:sns:us-east-1:123456789012:d\"}}",
        Some(Param::DestinationConfig),
    ),
    (
        STREAM,
        ",\"ScalingConfig\":{\"MaximumConcurrency\":2}",
        Some(Param::ScalingConfig),
    ),
    (
        QUEUE,
        ",\"ScalingConfig\":{\"MaximumConcurrency\":1000}",
        None,
    ),
    (
        QUEUE,
        ",\"ScalingConfig\":{\"MaximumConcurrency\":1001}",
        Some(Param::ScalingConfig),
    ),
    (
        QUEUE,
        ",\"ScalingConfig\":{\"MaximumConcurrency\":1}",
        Some(Param::ScalingConfig),
    ),
];

const STREAM_TEXT: &str =
    "{\"EventSourceArn\":\"arn:aws:kinesis:us-east-1:123456789012:stream/s\",\"FunctionName\":\"arn:aws:lambda:us-east-1:123456789012:function:f\",\"Enabled\":true,\"BatchSize\":100,\"MaximumBatchingWindowInSeconds\":0,\"FunctionResponseTypes\":[],\"StartingPosition\":\"TRIM_HORIZON\",\"ParallelizationFactor\":1,\"MaximumRetryAttempts\":-1,\"MaximumRecordAgeInSeconds\":-1,\"BisectBatchOnFunctionError\":false,\"TumblingWindowInSeconds\":0}";

/// Updates of a stream's mapping, each with the field that is refused.
const UPDATES: [(&str, Option<Param>); 7] = [
    ("{}", None),
    ("{\"BatchSize\":7,\"StartingPosition\":null}", None),
    (
        "{\"BatchSize\":0,\"StartingPosition\":\"LATEST\"}",
        Some(Param::BatchSize),
    ),
    (
        "{\"BatchSize\":7,\"StartingPosition\":\"TRIM_HORIZON\"}",
        Some(Param::StartingPosition),
    ),
    (
        "{\"EventSourceArn\":\"arn:aws:kinesis:us-east-1:123456789012:stream/s\",\"BatchSize\":0}",
        Some(Param::EventSourceArn),
    ),
    (
        "{\"ScalingConfig\":{\"MaximumConcurrency\":2},\"Colour\":1}",
        Some(Param::ScalingConfig),
    ),
    ("7", Some(Param::Body)),
];

fn mapping(alloc: Global, first: &str, more: &str) -> Result<Value, Fail> {
    let text = format!(in alloc; "{first}{more}}}")?;
    Ok(Value::from_str(alloc, text.as_str())?)
}

/// The field that the result refuses.
fn refusal(answer: Result<Config, ConfigError>) -> Result<Option<Param>, Fail> {
    match answer {
        Ok(_) => Ok(None),
        Err(ConfigError::BadParam(param)) => Ok(Some(param)),
        Err(ConfigError::OutOfMemory) => Err(Fail::from("no memory")),
    }
}

/// The field of the mapping that is refused.
fn refused(alloc: Global, first: &str, more: &str) -> Result<Option<Param>, Fail> {
    let value = mapping(alloc, first, more)?;
    refusal(read(alloc, &value))
}

/// The field that is refused in an update of the stream's mapping.
fn refused_update(alloc: Global, update: &str) -> Result<Option<Param>, Fail> {
    let value = Value::from_str(alloc, update)?;
    let old = given(alloc, STREAM)?;
    refusal(merge(alloc, &old, &value))
}

fn given(alloc: Global, first: &str) -> Result<Config, Fail> {
    let value = mapping(alloc, first, "")?;
    Ok(read(alloc, &value)?)
}

#[test]
fn judged_rows(rt: HostRuntime) -> Result<(), Fail> {
    for (first, more, expected) in &ROWS {
        assert_eq!(rt;
            refused(rt.alloc(), first, more)?,
            *expected,
            "{first}{more}"
        );
    }
    Ok(())
}

#[test]
fn judged_updates(rt: HostRuntime) -> Result<(), Fail> {
    for (update, expected) in &UPDATES {
        assert_eq!(rt; refused_update(rt.alloc(), update)?, *expected, "{update}");
    }
    Ok(())
}

/// The text of the stream's mapping.
fn written(alloc: Global) -> Result<Vec<u8>, Fail> {
    let config = given(alloc, STREAM)?;
    Ok(text(alloc, &config)?)
}

/// The kind of the FIFO queue's mapping, and its batch size.
fn fifo(alloc: Global) -> Result<(Kind, u32), Fail> {
    let config = given(alloc, FIFO)?;
    Ok((config.kind, config.batch_size))
}

#[test]
fn written_mappings(rt: HostRuntime) -> Result<(), Fail> {
    assert!(rt; written(rt.alloc())?.as_slice() == STREAM_TEXT.as_bytes());
    assert_eq!(rt; fifo(rt.alloc())?, (Kind::Fifo, 10));
    Ok(())
}
