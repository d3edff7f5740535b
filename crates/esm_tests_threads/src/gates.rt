// Tests of calls that wait for each other: two until the other has begun, and one until all others have begun.
ghost use Rattle.std.specs.Prelude.{◌≡◌, length, IfOk};

use crate::functions::{Gate, GateCaller};
use crate::worlds::told_over;
use esm_host::HostClock;
use esm_io::StepClock;
use esm_model::OutOfMemory;
use std::alloc::Global;
use std::sync::atomic::Ordering;
use std::test::Fail;

fn callers<'a>(
    alloc: Global,
    gate: &'a Gate,
    wants_without: u32,
    wants_with: u32,
) -> Result<Vec<GateCaller<'a>>, OutOfMemory>
    ensures { IfOk result (λ callers. length callers.items ≡ 64) }
{
    let mut callers = Vec::new(alloc);
    for batcher in 0..64usize {
        callers.push(GateCaller {
            gate,
            wants_without,
            wants_with,
        })?;
    }
    Ok(callers)
}

/// The mapping of a stream with two lanes a shard.
const STREAM: &str =
    r#"{"EventSourceArn":"arn:aws:kinesis:us-east-1:123456789012:stream/s","FunctionName":"f","StartingPosition":"TRIM_HORIZON","ParallelizationFactor":2,"MaximumRetryAttempts":1}"#;

/// The same with batches of one.
const ONE_BY_ONE: &str =
    r#"{"EventSourceArn":"arn:aws:kinesis:us-east-1:123456789012:stream/s","FunctionName":"f","StartingPosition":"TRIM_HORIZON","ParallelizationFactor":2,"BatchSize":1}"#;

/// Two records, with the keys `1` and `2`, whose lanes are 1 and 0.
const RECORDS: &[u8] =
    b"{\"shardId\":\"shardId-000000000000\",\"sequenceNumber\":\"1\",\"partitionKey\":\"1\",\"data\":\"SGVsbG8=\",\"approximateArrivalTimestamp\":0}
{\"shardId\":\"shardId-000000000000\",\"sequenceNumber\":\"2\",\"partitionKey\":\"2\",\"data\":\"SGVsbG8=\",\"approximateArrivalTimestamp\":0}
";

#[test]
fn gate_two_lanes(rt: HostRuntime) -> Result<(), Fail> {
    let alloc = rt.alloc();
    let gate = Gate::new("\"partitionKey\":\"1\"");
    let words = ["run", "--config", STREAM, "--read-first"];
    let input = Vec::from_slice(alloc, RECORDS)?;
    let callers = callers(alloc, &gate, 1, 1)?;
    let told = told_over(&rt, alloc, &words, input, StepClock::new(0), callers)?;
    assert!(rt; !gate.missed.load(Ordering::SeqCst));
    assert_eq!(rt;
        told.out.as_slice(),
        b"shard shardId-000000000000 records 2 checkpoint 2 succeeded 2 filtered 0 expired 0 exhausted 0\ncalls 2\ndone\n".as_slice()
    );
    Ok(())
}

/// The mapping of a standard queue with batches of one.
const QUEUE: &str =
    r#"{"EventSourceArn":"arn:aws:sqs:us-east-1:123456789012:q","FunctionName":"f","BatchSize":1}"#;

const MESSAGES: &[u8] = b"{\"messageId\":\"a\",\"body\":\"x\",\"sentTimestamp\":0}
{\"messageId\":\"b\",\"body\":\"x\",\"sentTimestamp\":0}
";

#[test]
fn gate_two_messages(rt: HostRuntime) -> Result<(), Fail> {
    let alloc = rt.alloc();
    let gate = Gate::new("\"messageId\":\"a\"");
    let words = ["run", "--config", QUEUE, "--read-first"];
    let input = Vec::from_slice(alloc, MESSAGES)?;
    let callers = callers(alloc, &gate, 1, 1)?;
    let told = told_over(&rt, alloc, &words, input, HostClock::new(&rt)?, callers)?;
    assert!(rt; !gate.missed.load(Ordering::SeqCst));
    assert_eq!(rt;
        told.out.as_slice(),
        b"queue messages 2 deleted 2 succeeded 2 filtered 0\ncalls 2\ndone\n".as_slice()
    );
    Ok(())
}

/// Adds the line of a record with this number and key.
fn add_line(alloc: Global, input: &mut Vec<u8>, seq: u32, key: &str) -> Result<(), Fail> {
    let line = format!(in alloc;
        "{{\"shardId\":\"shardId-000000000000\",\"sequenceNumber\":\"{seq}\",\"partitionKey\":\"{key}\",\"data\":\"SGVsbG8=\",\"approximateArrivalTimestamp\":0}}\n"
    )?;
    input.extend_from_slice(line.as_bytes())?;
    Ok(())
}

/// The first record of one lane is answered last of all: it does not hold up the nine records of the other lane, which
/// are in batches of one.
#[test]
fn last_of_all(rt: HostRuntime) -> Result<(), Fail> {
    let alloc = rt.alloc();
    let gate = Gate::new("\"partitionKey\":\"1\"");
    let words = ["run", "--config", ONE_BY_ONE, "--read-first"];
    let mut input = Vec::new(alloc);
    add_line(alloc, &mut input, 1, "1")?;
    for seq in 2..11u32 {
        add_line(alloc, &mut input, seq, "2")?;
    }
    let callers = callers(alloc, &gate, 9, 0)?;
    let told = told_over(&rt, alloc, &words, input, StepClock::new(0), callers)?;
    assert!(rt; !gate.missed.load(Ordering::SeqCst));
    assert_eq!(rt;
        told.out.as_slice(),
        b"shard shardId-000000000000 records 10 checkpoint 10 succeeded 10 filtered 0 expired 0 exhausted 0\ncalls 10\ndone\n".as_slice()
    );
    Ok(())
}
