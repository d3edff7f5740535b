// A test of lines that several threads parse.
use crate::clocks::callers;
use crate::worlds::told_over;
use esm_io::StepClock;
use std::alloc::Global;
use std::test::Fail;

/// The mapping of a stream with batches of a hundred.
const STREAM: &str =
    r#"{"EventSourceArn":"arn:aws:kinesis:us-east-1:123456789012:stream/s","FunctionName":"f","StartingPosition":"TRIM_HORIZON","BatchSize":100}"#;

/// 3,000 lines of a shard's records, some 130 bytes each, except line 2,501, which is bad. They arrive in one piece, long
/// enough for four threads, and the bad line is in the last thread's block.
fn input(alloc: Global) -> Result<Vec<u8>, Fail> {
    let mut input = Vec::new(alloc);
    for number in 1..3001u32 {
        if number == 2501 {
            input.extend_from_slice(b"{\n")?;
        } else {
            let line = format!(in alloc;
                "{{\"shardId\":\"shardId-000000000000\",\"sequenceNumber\":\"{number}\",\"partitionKey\":\"{number}\",\"data\":\"SGVsbG8=\",\"approximateArrivalTimestamp\":0}}\n"
            )?;
            input.extend_from_slice(line.as_bytes())?;
        }
    }
    Ok(input)
}

/// Blocks that are parsed side by side are judged in order: the records before the bad line arrive, none behind it does,
/// and the line is reported with its number.
#[test]
fn bad_line_in_the_last_block(rt: HostRuntime) -> Result<(), Fail> {
    let alloc = rt.alloc();
    let words = ["run", "--config", STREAM, "--read-first"];
    let told = told_over(
        &rt,
        alloc,
        &words,
        input(alloc)?,
        StepClock::new(0),
        callers(alloc, false)?,
    )?;
    assert_eq!(rt; told.status, 3);
    assert!(rt;
        told.out.starts_with(
            b"shard shardId-000000000000 records 2500 checkpoint 2500 succeeded 2500 "
        )
    );
    assert!(rt; told.out.ends_with(b"calls 25\nbad line 2501: NotJson\n"));
    Ok(())
}
