// A test of many lanes with functions that take their time.
ghost use Rattle.std.specs.Prelude.{◌≡◌, length, IfOk};

use crate::functions::{Running, SlowCaller};
use crate::worlds::told_over;
use esm_host::HostClock;
use esm_model::OutOfMemory;
use std::alloc::Global;
use std::sync::atomic::{AtomicU32, Ordering};
use std::test::Fail;
use std::time::Clock;

fn callers<'a, R: Clock>(
    rt: &'a R,
    alloc: Global,
    running: &'a Running,
) -> Result<Vec<SlowCaller<'a, R>>, OutOfMemory>
    ensures { IfOk result (λ callers. length callers.items ≡ 64) }
{
    let mut callers = Vec::new(alloc);
    for batcher in 0..64usize {
        callers.push(SlowCaller {
            rt,
            takes_ms: 10,
            running,
        })?;
    }
    Ok(callers)
}

/// The mapping of a stream with four lanes a shard and batches of one.
const STREAM: &str =
    r#"{"EventSourceArn":"arn:aws:kinesis:us-east-1:123456789012:stream/s","FunctionName":"f","StartingPosition":"TRIM_HORIZON","ParallelizationFactor":4,"BatchSize":1}"#;

/// Sixteen records for each of sixteen shards, each with a key of its own in its shard.
fn input(alloc: Global) -> Result<Vec<u8>, Fail> {
    let mut input = Vec::new(alloc);
    for place in 0..16u32 {
        for shard in 10..26u32 {
            let line = format!(in alloc;
                "{{\"shardId\":\"shardId-0000000000{shard}\",\"sequenceNumber\":\"{place}\",\"partitionKey\":\"{place}\",\"data\":\"SGVsbG8=\",\"approximateArrivalTimestamp\":0}}\n"
            )?;
            input.extend_from_slice(line.as_bytes())?;
        }
    }
    Ok(input)
}

/// 256 calls of 10 milliseconds over 64 lanes, which begin while the input is read: many are running at once.
#[test]
fn sixty_four_lanes(rt: HostRuntime) -> Result<(), Fail> {
    let alloc = rt.alloc();
    let running = Running {
        now: AtomicU32::new(0),
        most: AtomicU32::new(0),
    };
    let callers = callers(&rt, alloc, &running)?;
    let words = ["run", "--config", STREAM];
    let told = told_over(
        &rt,
        alloc,
        &words,
        input(alloc)?,
        HostClock::new(&rt)?,
        callers,
    )?;
    assert_eq!(rt; told.status, 0);
    assert!(rt; told.out.ends_with(b"calls 256\ndone\n"));
    assert!(rt; running.most.load(Ordering::SeqCst) > 8);
    Ok(())
}
