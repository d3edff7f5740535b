// Tests: mappings of the stream of a DynamoDB table, and the field that each refusal names.
use esm_config::{ConfigError, Param, read_dynamo};
use esm_model::{Config, Kind, Start};
use serde_json::Value;
use std::alloc::Global;
use std::test::Fail;

/// The mapping of a table's stream, without its closing brace.
const TABLE: &str =
    "{\"EventSourceArn\":\"arn:aws:dynamodb:us-east-1:123456789012:table/t.1/stream/2026-11-29T00:00:00.000\",\"FunctionName\":\"f\",\"StartingPosition\":\"TRIM_HORIZON\"";

/// What follows the mapping's first members, and the field that is refused. If a name occurs twice, the last value
/// counts.
const ROWS: [(&str, Option<Param>); 14] = [
    ("", None),
    (
        ",\"EventSourceArn\":\"arn:aws:kinesis:us-east-1:123456789012:stream/s\"",
        Some(Param::EventSourceArn),
    ),
    (
        ",\"EventSourceArn\":\"arn:aws:dynamodb:us-east-1:123456789012:table/t.1\"",
        Some(Param::EventSourceArn),
    ),
    (
        ",\"EventSourceArn\":\"arn:aws:dynamodb:us-east-1:12345678901:table/t.1/stream/l\"",
        Some(Param::EventSourceArn),
    ),
    (
        ",\"EventSourceArn\":\"arn:aws:dynamodb:us-east-1:123456789012:table/t:1/stream/l\"",
        Some(Param::EventSourceArn),
    ),
    (
        ",\"EventSourceArn\":\"arn:aws:dynamodb:us-east-1:123456789012:table/t.1/stream/l/m\"",
        Some(Param::EventSourceArn),
    ),
    (
        ",\"StartingPosition\":\"LATEST\"",
        Some(Param::StartingPosition),
    ),
    (
        ",\"StartingPosition\":\"AT_TIMESTAMP\",\"StartingPositionTimestamp\":0",
        Some(Param::StartingPosition),
    ),
    (",\"StartingPosition\":null", Some(Param::StartingPosition)),
    (
        ",\"StartingPositionTimestamp\":0",
        Some(Param::StartingPositionTimestamp),
    ),
    (",\"ParallelizationFactor\":10,\"BatchSize\":10000", None),
    (
        ",\"ScalingConfig\":{\"MaximumConcurrency\":2}",
        Some(Param::ScalingConfig),
    ),
    (",\"Enabled\":false", None),
    (",\"Colour\":\"red\"", Some(Param::Unknown)),
];

/// Lengths of a table's name and of a stream's label, and whether the mapping is accepted.
const LENGTHS: [(usize, usize, bool); 6] = [
    (3, 1, true),
    (255, 64, true),
    (2, 1, false),
    (256, 1, false),
    (3, 0, false),
    (3, 65, false),
];

/// Filter patterns as JSON writes them, and the pattern that is kept for each.
const PATTERNS: [(&str, Option<&str>); 7] = [
    (
        r#"{\"eventName\":[\"INSERT\"]}"#,
        Some(r#"{"data":{"eventName":["INSERT"]}}"#),
    ),
    (
        r#" {\"dynamodb\":{\"NewImage\":{\"n\":{\"N\":[\"1\"]}}}}"#,
        Some(r#"{"data": {"dynamodb":{"NewImage":{"n":{"N":["1"]}}}}}"#),
    ),
    ("[1]", None),
    ("{}", None),
    (r#"{\"a\":[1]},\"b\":{\"c\":[2]}"#, None),
    (r#"{\"a\":1}"#, None),
    ("", None),
];

/// How often a letter occurs in a pattern that has ten other characters, and whether the mapping is accepted.
const LONG_PATTERNS: [(&str, usize, bool); 3] = [
    ("x", 4077, true),
    ("é", 4077, true),
    ("x", 4078, false),
];

/// The configuration of a text, or the field that is refused.
fn judged(alloc: Global, text: &str) -> Result<Result<Config, Param>, Fail> {
    let value = Value::from_str(alloc, text)?;
    match read_dynamo(alloc, &value) {
        Ok(config) => Ok(Ok(config)),
        Err(ConfigError::BadParam(param)) => Ok(Err(param)),
        Err(ConfigError::OutOfMemory) => Err(Fail::from("no memory")),
    }
}

/// The same of the table's mapping with these further members.
fn judged_with(alloc: Global, more: &str) -> Result<Result<Config, Param>, Fail> {
    let text = format!(in alloc; "{TABLE}{more}}}")?;
    judged(alloc, text.as_str())
}

/// The field that is refused in the table's mapping with these further members.
fn refused(alloc: Global, more: &str) -> Result<Option<Param>, Fail> {
    match judged_with(alloc, more)? {
        Ok(_) => Ok(None),
        Err(param) => Ok(Some(param)),
    }
}

/// Whether a name and a label of these lengths are accepted.
fn reads_lengths(alloc: Global, name: usize, label: usize) -> Result<bool, Fail> {
    let name = "a".repeat(alloc, name)?;
    let label = "b".repeat(alloc, label)?;
    let more = format!(in alloc;
        ",\"EventSourceArn\":\"arn:aws:dynamodb:us-east-1:123456789012:table/{name}/stream/{label}\""
    )?;
    Ok(refused(alloc, more.as_str())?.is_none())
}

/// The result for a mapping with this filter pattern.
fn judged_pattern(alloc: Global, pattern: &str) -> Result<Result<Config, Param>, Fail> {
    let more = format!(in alloc;
        ",\"FilterCriteria\":{{\"Filters\":[{{\"Pattern\":\"{pattern}\"}}]}}"
    )?;
    judged_with(alloc, more.as_str())
}

/// Whether the mapping with this filter pattern keeps the expected one, or is refused for its criteria if none is
/// expected.
fn keeps(alloc: Global, pattern: &str, expected: Option<&str>) -> Result<bool, Fail> {
    match (judged_pattern(alloc, pattern)?, expected) {
        (Ok(config), Some(kept)) => match config.filters.as_slice() {
            [only] => Ok(only.as_str() == kept),
            _ => Ok(false),
        },
        (Err(param), None) => Ok(param == Param::FilterCriteria),
        _ => Ok(false),
    }
}

fn reads_long_pattern(alloc: Global, letter: &str, count: usize) -> Result<bool, Fail> {
    let letters = letter.repeat(alloc, count)?;
    let pattern = format!(in alloc; "{{\\\"a\\\":[\\\"{letters}\\\"]}}")?;
    Ok(judged_pattern(alloc, pattern.as_str())?.is_ok())
}

/// The kind of the table's mapping, its start and its batch size.
fn read_as(alloc: Global) -> Result<(Kind, Start, u32), Fail> {
    match judged_with(alloc, "")? {
        Ok(config) => Ok((config.kind, config.start, config.batch_size)),
        Err(_) => Err(Fail::from("refused")),
    }
}

#[test]
fn judged_tables(rt: HostRuntime) -> Result<(), Fail> {
    for (more, expected) in &ROWS {
        assert_eq!(rt; refused(rt.alloc(), more)?, *expected, "{more}");
    }
    assert_eq!(rt;
        read_as(rt.alloc())?,
        (Kind::Stream, Start::TrimHorizon, 100)
    );
    Ok(())
}

#[test]
fn lengths_of_tables(rt: HostRuntime) -> Result<(), Fail> {
    for (name, label, expected) in &LENGTHS {
        assert_eq!(rt;
            reads_lengths(rt.alloc(), *name, *label)?,
            *expected,
            "{name} {label}"
        );
    }
    Ok(())
}

#[test]
fn patterns_of_tables(rt: HostRuntime) -> Result<(), Fail> {
    for (pattern, expected) in &PATTERNS {
        assert!(rt; keeps(rt.alloc(), pattern, *expected)?, "{pattern}");
    }
    Ok(())
}

#[test]
fn long_patterns_of_tables(rt: HostRuntime) -> Result<(), Fail> {
    for (letter, count, expected) in &LONG_PATTERNS {
        assert_eq!(rt;
            reads_long_pattern(rt.alloc(), letter, *count)?,
            *expected,
            "{letter} {count}"
        );
    }
    Ok(())
}
