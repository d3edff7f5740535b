// Tests: rows of the table of fields, a change that is turned into the line of its record, an input in pieces and a whole
// one, events, and a failure line.
ghost use Rattle.std.specs.Prelude.{◌<◌};

use crate::config::read_config;
use crate::dest::DdbDest;
use crate::error::{DdbError, DdbField, DdbLine, Refusal};
use crate::event::ddb_event;
use crate::input::{InputTurned, TurnedInput, turn_input};
use crate::source::Source;
use crate::text_pieces::TextPieces;
use crate::translator::Translator;
use crate::turned::turned;
use esm_io::{Dest, MemDest, MemSource};
use esm_model::{Bytes, Config, Text, parse_json};
use json::Scratch;
use std::alloc::Global;
use std::test::Fail;
use std::thread::Threads;

/// A line up to the end of `dynamodb`, without its closing brace.
const LINE: &str =
    "{\"shardId\":\"shardId-000000000000\",\"approximateArrivalTimestamp\":0,\"eventID\":\"e1\",\"eventName\":\"INSERT\",\"dynamodb\":{\"Keys\":{\"id\":{\"S\":\"a\"}},\"NewImage\":{\"id\":{\"S\":\"a\"}},\"SequenceNumber\":\"1\",\"SizeBytes\":6,\"StreamViewType\":\"NEW_IMAGE\"";

/// What follows that, before the last brace, and the field that is refused. If a name occurs twice, the last value
/// counts.
const ROWS: [(&str, Option<DdbError>); 25] = [
    ("}", None),
    (",\"Colour\":1},\"colour\":1.5", None),
    (
        "},\"shardId\":\"shardId-00000000000\"",
        Some(DdbError::BadField(DdbField::ShardId)),
    ),
    (
        "},\"approximateArrivalTimestamp\":253402300800000",
        Some(DdbError::BadField(DdbField::ApproximateArrivalTimestamp)),
    ),
    ("},\"approximateArrivalTimestamp\":253402300799999", None),
    (
        "},\"eventID\":\"\"",
        Some(DdbError::BadField(DdbField::EventId)),
    ),
    (
        "},\"eventID\":\"a b\"",
        Some(DdbError::BadField(DdbField::EventId)),
    ),
    ("},\"eventID\":\"!~\"", None),
    (
        "},\"eventName\":\"insert\"",
        Some(DdbError::BadField(DdbField::EventName)),
    ),
    ("},\"eventName\":\"REMOVE\"", None),
    (
        "},\"dynamodb\":null",
        Some(DdbError::BadField(DdbField::Dynamodb)),
    ),
    (
        ",\"Keys\":{}}",
        Some(DdbError::BadField(DdbField::Dynamodb)),
    ),
    (
        ",\"Keys\":{\"id\":{\"BOOL\":true}}}",
        Some(DdbError::BadField(DdbField::Dynamodb)),
    ),
    (
        ",\"SequenceNumber\":\"01\"}",
        Some(DdbError::BadField(DdbField::Dynamodb)),
    ),
    (",\"SizeBytes\":9007199254740992}", None),
    (
        ",\"SizeBytes\":9007199254740993}",
        Some(DdbError::BadField(DdbField::Dynamodb)),
    ),
    (
        ",\"SizeBytes\":-0}",
        Some(DdbError::BadField(DdbField::Dynamodb)),
    ),
    (
        ",\"StreamViewType\":\"ALL\"}",
        Some(DdbError::BadField(DdbField::Dynamodb)),
    ),
    (
        ",\"NewImage\":null}",
        Some(DdbError::BadField(DdbField::Dynamodb)),
    ),
    (",\"NewImage\":{}}", None),
    (
        ",\"OldImage\":{\"p\":{\"M\":{\"l\":{\"L\":[{\"NULL\":true},{\"SS\":[\"x\"]}]},\"b\":{\"BOOL\":false}}}}}",
        None,
    ),
    (
        ",\"OldImage\":{\"p\":{\"NULL\":false}}}",
        Some(DdbError::BadField(DdbField::Dynamodb)),
    ),
    (
        ",\"OldImage\":{\"p\":{\"S\":\"x\",\"N\":\"1\"}}}",
        Some(DdbError::BadField(DdbField::Dynamodb)),
    ),
    (
        ",\"OldImage\":{\"p\":{\"NS\":[1]}}}",
        Some(DdbError::BadField(DdbField::Dynamodb)),
    ),
    (
        ",\"OldImage\":{\"p\":{\"L\":[{}]}}}",
        Some(DdbError::BadField(DdbField::Dynamodb)),
    ),
];

/// The line that `LINE` with two braces is turned into.
const TURNED: &str =
    "{\"shardId\":\"shardId-000000000000\",\"sequenceNumber\":\"1\",\"partitionKey\":\"fb6125352ca9254ad76755dc7cbdcacc\",\"data\":\"eyJldmVudElEIjoiZTEiLCJldmVudE5hbWUiOiJJTlNFUlQiLCJldmVudFZlcnNpb24iOiIxLjEiLCJldmVudFNvdXJjZSI6ImF3czpkeW5hbW9kYiIsImF3c1JlZ2lvbiI6InVzLWVhc3QtMSIsImR5bmFtb2RiIjp7IkFwcHJveGltYXRlQ3JlYXRpb25EYXRlVGltZSI6MCwiS2V5cyI6eyJpZCI6eyJTIjoiYSJ9fSwiTmV3SW1hZ2UiOnsiaWQiOnsiUyI6ImEifX0sIlNlcXVlbmNlTnVtYmVyIjoiMSIsIlNpemVCeXRlcyI6NiwiU3RyZWFtVmlld1R5cGUiOiJORVdfSU1BR0UifSwiZXZlbnRTb3VyY2VBUk4iOiJhcm46YXdzOmR5bmFtb2RiOnVzLWVhc3QtMToxMjM0NTY3ODkwMTI6dGFibGUvdGFiL3N0cmVhbS8xIn0=\",\"approximateArrivalTimestamp\":0}";

fn source(alloc: Global) -> Result<Source, Fail> {
    let arn = "arn:aws:dynamodb:us-east-1:123456789012:table/tab/stream/1";
    Ok(Source {
        region: Text::from_vec(String::from_str(alloc, "us-east-1")?),
        arn: Text::from_vec(String::from_str(alloc, arn)?),
    })
}

/// Why the line is refused, if it is.
fn why(alloc: Global, line: &[u8]) -> Result<Option<DdbError>, Fail> {
    let source = source(alloc)?;
    match turned(alloc, &mut Scratch::new(alloc), &source, line) {
        Ok(_) => Ok(None),
        Err(Refusal::Line(why)) => Ok(Some(why)),
        Err(Refusal::OutOfMemory) => Ok(None),
    }
}

#[test]
fn fields(rt: HostRuntime) -> Result<(), Fail> {
    let alloc = rt.alloc();
    for (rest, expected) in ROWS {
        let line = format!(in alloc; "{LINE}{rest}}}")?;
        assert_eq!(rt; why(alloc, line.as_bytes())?, expected);
    }
    Ok(())
}

/// The space keeps the line from being recognized, so it is parsed.
#[test]
fn change_of_a_parsed_item(rt: HostRuntime) -> Result<(), Fail> {
    let alloc = rt.alloc();
    let line = format!(in alloc; "{LINE}}} }}")?;
    let source = source(alloc)?;
    match turned(alloc, &mut Scratch::new(alloc), &source, line.as_bytes()) {
        Ok(text) => assert_eq!(rt; text.as_slice(), TURNED.as_bytes()),
        Err(_) => return Err(Fail::from("refused")),
    }
    Ok(())
}

const MAPPING: &str =
    "{\"EventSourceArn\":\"arn:aws:dynamodb:us-east-1:123456789012:table/tab/stream/1\",\"FunctionName\":\"f\",\"StartingPosition\":\"TRIM_HORIZON\"}";

fn mapping(alloc: Global) -> Result<Config, Fail> {
    let Some(value) = parse_json(alloc, MAPPING.as_bytes())? else {
        return Err(Fail::from("no JSON"));
    };
    match read_config(alloc, &value) {
        Ok(config) => Ok(config),
        Err(_) => Err(Fail::from("refused")),
    }
}

#[test]
fn pieces(rt: HostRuntime) -> Result<(), Fail> {
    let alloc = rt.alloc();
    let mut translator = Translator::new(alloc, &mapping(alloc)?)?;
    let begun = translator.feed(LINE.as_bytes())?;
    assert_eq!(rt; begun.bytes.as_slice(), "".as_bytes());
    let ended = translator.feed(b"}}\n \nx")?;
    let expected = format!(in alloc; "{TURNED}\n\n")?;
    assert_eq!(rt; ended.bytes.as_slice(), expected.as_bytes());
    assert_eq!(rt; ended.bad, None);
    let last = translator.finish()?;
    assert_eq!(rt; last.bytes.as_slice(), "".as_bytes());
    assert_eq!(rt; last.bad.map(|bad| bad.line), Some(3));
    Ok(())
}

/// The bytes of the pieces, 6,400 at most.
fn all_of(alloc: Global, mut pieces: TextPieces) -> Result<Vec<u8>, Fail> {
    let mut all = Vec::new(alloc);
    let mut buffer = [0u8; 64];
    for _ in 0..100 {
        let count = pieces.read(&mut buffer);
        all.extend_from_slice(&buffer[..count])?;
    }
    Ok(all)
}

/// What an input is turned into that is read `step` bytes at a time and whose read number `fail` fails, and why its
/// reading ends.
fn input_of<R: Threads + Sync>(
    rt: &R,
    alloc: Global,
    text: &str,
    step: usize,
    fail: u64,
) -> Result<(TextPieces, InputTurned), Fail>
    requires { 0 < step }
{
    let config = mapping(alloc)?;
    let bytes = Vec::from_slice(alloc, text.as_bytes())?;
    let fails = vec![in alloc; fail]?;
    match turn_input(rt, alloc, &config, MemSource::new(bytes, step, fails)) {
        Ok(input) => {
            let TurnedInput { source, text, end } = input;
            drop(source);
            Ok((text, end))
        }
        Err(_) => Err(Fail::from("no memory")),
    }
}

#[test]
fn whole_input(rt: HostRuntime) -> Result<(), Fail> {
    let alloc = rt.alloc();
    let text = format!(in alloc; "{LINE}}}}}\n \nx\n{LINE}}}}}")?;
    let expected = format!(in alloc; "{TURNED}\n\n")?;
    let bad = DdbLine {
        line: 3,
        why: DdbError::NotJson,
    };
    let (became, end) = input_of(&rt, alloc, text.as_str(), 1, 1_000_000)?;
    assert_eq!(rt; all_of(alloc, became)?.as_slice(), expected.as_bytes());
    assert_eq!(rt; end, InputTurned::BadLine(bad));
    let (became, end) = input_of(&rt, alloc, text.as_str(), 1, LINE.len() as u64 + 5)?;
    assert_eq!(rt; all_of(alloc, became)?.as_slice(), expected.as_bytes());
    assert_eq!(rt; end, InputTurned::Failed);
    Ok(())
}

/// The bad line is in the last block of a long piece, whose lines several threads turn.
#[test]
fn last_block(rt: HostRuntime) -> Result<(), Fail> {
    let alloc = rt.alloc();
    let line = format!(in alloc; "{LINE}}}}}\n")?;
    let mut text = String::new(alloc);
    for _ in 0..1000 {
        text.push_str(line.as_str())?;
    }
    text.push_str("x\n")?;
    let (became, end) = input_of(&rt, alloc, text.as_str(), 1_000_000, 1_000_000)?;
    drop(became);
    let bad = DdbLine {
        line: 1001,
        why: DdbError::NotJson,
    };
    assert_eq!(rt; end, InputTurned::BadLine(bad));
    Ok(())
}

/// Events, and what they are turned into.
const EVENTS: [(&str, &str); 9] = [
    (
        "{\"Records\":[{\"kinesis\":{\"kinesisSchemaVersion\":\"1.0\",\"partitionKey\":\"k\",\"sequenceNumber\":\"1\",\"data\":\"YQ==\",\"approximateArrivalTimestamp\":12.345},\"eventSource\":\"aws:kinesis\",\"eventVersion\":\"1.0\",\"eventID\":\"shardId-000000000000:1\",\"eventName\":\"aws:kinesis:record\",\"invokeIdentityArn\":\"r\",\"awsRegion\":\"us-east-1\",\"eventSourceARN\":\"arn\"},{\"kinesis\":{\"kinesisSchemaVersion\":\"1.0\",\"partitionKey\":\"l\",\"sequenceNumber\":\"1\",\"data\":\"Yg==\",\"approximateArrivalTimestamp\":1.000},\"eventSource\":\"aws:kinesis\",\"eventVersion\":\"1.0\",\"eventID\":\"shardId-000000000000:1\",\"eventName\":\"aws:kinesis:record\",\"invokeIdentityArn\":\"r\",\"awsRegion\":\"us-east-1\",\"eventSourceARN\":\"arn\"}]}",
        "{\"Records\":[a,b]}",
    ),
    (
        "{\"Records\":[{\"kinesis\":{\"kinesisSchemaVersion\":\"1.0\",\"partitionKey\":\"k\",\"sequenceNumber\":\"1\",\"data\":\"YQ==\",\"approximateArrivalTimestamp\":12.345},\"eventSource\":\"aws:kinesis\",\"eventVersion\":\"1.0\",\"eventID\":\"shardId-000000000000:1\",\"eventName\":\"aws:kinesis:record\",\"invokeIdentityArn\":\"r\",\"awsRegion\":\"us-east-1\",\"eventSourceARN\":\"arn\"},{\"kinesis\":{\"kinesisSchemaVersion\":\"1.0\",\"partitionKey\":\"\\\"\",\"sequenceNumber\":\"1\",\"data\":\"Yg==\",\"approximateArrivalTimestamp\":0.005},\"eventSource\":\"aws:kinesis\",\"eventVersion\":\"1.0\",\"eventID\":\"shardId-000000000000:1\",\"eventName\":\"aws:kinesis:record\",\"invokeIdentityArn\":\"r\",\"awsRegion\":\"us-east-1\",\"eventSourceARN\":\"arn\"}]}",
        "{\"Records\":[a,b]}",
    ),
    (
        "{\"Records\":[{\"kinesis\":{\"kinesisSchemaVersion\":\"1.0\",\"partitionKey\":\"k\",\"sequenceNumber\":\"1\",\"data\":\"YQ==\",\"approximateArrivalTimestamp\":12.345},\"eventSource\":\"aws:kinesis\",\"eventVersion\":\"1.0\",\"eventID\":\"shardId-000000000000:1\",\"eventName\":\"aws:kinesis:record\",\"invokeIdentityArn\":\"r\",\"awsRegion\":\"us-east-1\",\"eventSourceARN\":\"arn\"},{\"kinesis\":{\"kinesisSchemaVersion\":\"1.0\",\"partitionKey\":\"l\",\"sequenceNumber\":\"1\",\"data\":\"Yg=\",\"approximateArrivalTimestamp\":1.000},\"eventSource\":\"aws:kinesis\",\"eventVersion\":\"1.0\",\"eventID\":\"shardId-000000000000:1\",\"eventName\":\"aws:kinesis:record\",\"invokeIdentityArn\":\"r\",\"awsRegion\":\"us-east-1\",\"eventSourceARN\":\"arn\"}]}",
        "{\"Records\":[{\"kinesis\":{\"kinesisSchemaVersion\":\"1.0\",\"partitionKey\":\"k\",\"sequenceNumber\":\"1\",\"data\":\"YQ==\",\"approximateArrivalTimestamp\":12.345},\"eventSource\":\"aws:kinesis\",\"eventVersion\":\"1.0\",\"eventID\":\"shardId-000000000000:1\",\"eventName\":\"aws:kinesis:record\",\"invokeIdentityArn\":\"r\",\"awsRegion\":\"us-east-1\",\"eventSourceARN\":\"arn\"},{\"kinesis\":{\"kinesisSchemaVersion\":\"1.0\",\"partitionKey\":\"l\",\"sequenceNumber\":\"1\",\"data\":\"Yg=\",\"approximateArrivalTimestamp\":1.000},\"eventSource\":\"aws:kinesis\",\"eventVersion\":\"1.0\",\"eventID\":\"shardId-000000000000:1\",\"eventName\":\"aws:kinesis:record\",\"invokeIdentityArn\":\"r\",\"awsRegion\":\"us-east-1\",\"eventSourceARN\":\"arn\"}]}",
    ),
    (
        "{\"Records\":[{\"kinesis\":{\"data\":\"YQ==\"},\"x\":[1]} , {\"kinesis\":{\"data\":\"\",\"data\":\"Yw==\"}}],\"window\":{}}",
        "{\"Records\":[a , c],\"window\":{}}",
    ),
    (
        " {\"Records\":[1],\"\\u0052ecords\" : [ {\"kinesis\":{\"data\":\"YQ==\"}} ]}",
        " {\"Records\":[1],\"\\u0052ecords\" : [ a ]}",
    ),
    (
        "{\"Records\":[{\"kinesis\":{\"data\":\"YQ=\"}}]}",
        "{\"Records\":[{\"kinesis\":{\"data\":\"YQ=\"}}]}",
    ),
    (
        "{\"Records\":[{\"kinesis\":{\"data\":\"YQ==\"}},1]}",
        "{\"Records\":[{\"kinesis\":{\"data\":\"YQ==\"}},1]}",
    ),
    (
        "{\"Records\":[],\"x\":1e999}",
        "{\"Records\":[],\"x\":1e999}",
    ),
    (
        "[{\"kinesis\":{\"data\":\"YQ==\"}}]",
        "[{\"kinesis\":{\"data\":\"YQ==\"}}]",
    ),
];

#[test]
fn events(rt: HostRuntime) -> Result<(), Fail> {
    let alloc = rt.alloc();
    for (event, expected) in EVENTS {
        let text = ddb_event(alloc, event.as_bytes())?;
        assert_eq!(rt; text.as_slice(), expected.as_bytes());
    }
    Ok(())
}

#[test]
fn failure_line(rt: HostRuntime) -> Result<(), Fail> {
    let alloc = rt.alloc();
    let mut dest = DdbDest::new(alloc, MemDest::new(alloc, Vec::new(alloc)));
    dest.deliver(alloc, b"{\"KinesisBatchInfo\":{\"KinesisBatchInfo\":1}}")?;
    let inner = dest.into_inner();
    let expected = b"{\"DDBStreamBatchInfo\":{\"KinesisBatchInfo\":1}}";
    assert_eq!(rt;
        inner.lines().first().map(|line| line.as_slice()),
        Some(expected.as_slice())
    );
    Ok(())
}
