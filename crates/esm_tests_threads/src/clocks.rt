// A test of the delays between calls, by a clock that advances at each reading.
ghost use Rattle.std.specs.Prelude.{◌≡◌, length, true, IfOk};

use crate::worlds::told_over;
use esm_io::{Clock, Script, ScriptCaller};
use esm_model::{Bytes, Entry, OutOfMemory, Reply};
use std::alloc::Global;
use std::sync::atomic::{AtomicU64, Ordering};
use std::test::Fail;

/// A clock that advances by a millisecond at each reading; `pause` raises it.
#[derive(Drop)]
struct TickClock {
    moment: AtomicU64,
}

impl Clock for TickClock {
    ghost gave = { λ moment. true };

    fn now(&self) -> u64 {
        self.moment.fetch_add(1, Ordering::SeqCst)
    }

    fn pause(&self, until: u64) -> u64 {
        self.moment.fetch_max(until, Ordering::SeqCst).max(until)
    }
}

/// Returns callers of a function that always answers, with or without the function error.
pub fn callers(alloc: Global, error: bool) -> Result<Vec<ScriptCaller>, OutOfMemory>
    ensures { IfOk result (λ callers. length callers.items ≡ 64) }
{
    let mut callers = Vec::new(alloc);
    for batcher in 0..64usize {
        let reply = Reply::Answered {
            status: 200,
            error,
            body: Bytes::from_vec(Vec::new(alloc)),
        };
        callers.push(ScriptCaller::new(alloc, Script::Always(reply), Vec::new(alloc)))?;
    }
    Ok(callers)
}

const STREAM: &str =
    r#"{"EventSourceArn":"arn:aws:kinesis:us-east-1:123456789012:stream/s","FunctionName":"f","StartingPosition":"TRIM_HORIZON","MaximumRetryAttempts":2}"#;

const RECORD: &[u8] =
    b"{\"shardId\":\"shardId-000000000000\",\"sequenceNumber\":\"1\",\"partitionKey\":\"1\",\"data\":\"SGVsbG8=\",\"approximateArrivalTimestamp\":0}\n";

/// The moments at which calls begin and end, alternating.
fn moments(alloc: Global, trace: &[Entry]) -> Result<Vec<u64>, OutOfMemory> {
    let mut moments = Vec::new(alloc);
    for entry in trace {
        match entry {
            Entry::Began { moment, .. } | Entry::Ended { moment, .. } => moments.push(*moment)?,
            _ => {}
        }
    }
    Ok(moments)
}

/// Each call ends after it began, and the delays of 250 and of 500 milliseconds count from the end of the call before.
#[test]
fn delays_from_the_end(rt: HostRuntime) -> Result<(), Fail> {
    let alloc = rt.alloc();
    let clock = TickClock {
        moment: AtomicU64::new(0),
    };
    let words = ["run", "--config", STREAM, "--read-first"];
    let told = told_over(
        &rt,
        alloc,
        &words,
        Vec::from_slice(alloc, RECORD)?,
        clock,
        callers(alloc, true)?,
    )?;
    assert_eq!(rt; told.status, 0);
    let moments = moments(alloc, told.trace.as_slice())?;
    assert_eq!(rt; moments.len(), 6);
    assert!(rt; moments[0] < moments[1] && moments[2] < moments[3] && moments[4] < moments[5]);
    assert!(rt;
        moments[2] >= moments[1].saturating_add(250) && moments[2] < moments[1].saturating_add(350)
    );
    assert!(rt;
        moments[4] >= moments[3].saturating_add(500) && moments[4] < moments[3].saturating_add(600)
    );
    Ok(())
}
