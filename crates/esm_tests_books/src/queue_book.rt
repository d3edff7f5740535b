// Tests of a queue's book over disks in memory.
ghost use Rattle.std.specs.Prelude.{◌≡◌, ◌+◌, ◌<◌, true, false, IfOk, OnOk};
ghost use Rattle.esm_model.specs.declared.config.Kind.TheVariants.{Standard};
ghost use Rattle.esm_model.specs.Entries.{is_running, is_shut};
ghost use Rattle.esm_model.specs.ValidMessage.{is_message_id, IsValidMessage};
ghost use Rattle.esm_queue_model.specs.QueueEntries.{queue_lane};
ghost use Rattle.esm_queue_model.specs.WorkedHistories.{queue_mapping};
ghost use Rattle.esm_tests_books.specs.Queues.{Rests, IsReady, IsQueue, Calls};

use esm_event::write_event;
use esm_fixtures::{fresh_pair, queue_mapping, text};
use esm_io::MemDisk;
use esm_journal::Pair;
use esm_model::{BookError, Bytes, CameError, Config, Job, Message, Next, Reply};
use esm_queue_book::QueueBook;
use std::alloc::{AllocError, Global};
use std::test::Fail;

/// The mapping of the queue `q` to the function `f`.
fn mapping(alloc: Global) -> Result<Config, AllocError>
    ensures plain { IfOk result (λ c. c ≡ queue_mapping Standard) }
    ensures is_queue { IfOk result IsQueue }
{
    let config = queue_mapping(alloc)?;
    Ok(config)
}

/// The same mapping, with a function that reports the messages that failed.
fn reporting_mapping(alloc: Global) -> Result<Config, AllocError>
    ensures { IfOk result IsQueue }
{
    let mut config = mapping(alloc)?;
    config.item_failures = true;
    Ok(config)
}

/// A book of this mapping over a pair that is not down.
fn opened(alloc: Global, config: Config, pair: Pair<MemDisk>) -> Result<QueueBook<MemDisk>, Fail>
    requires config { IsQueue config }
    requires up { pair.down ≡ false }
    ensures { IfOk result (λ book. IsReady 0 book.core) }
{
    match QueueBook::open(alloc, config, 100, 30_000, pair) {
        Ok(book) => Ok(book),
        Err(_) => Err("no book".into()),
    }
}

/// The message of a standard queue with this id, which was sent at moment 0.
fn message(alloc: Global, id: &str) -> Result<Message, AllocError>
    requires { is_message_id id.now ≡ true }
    ensures { IfOk result (IsValidMessage Standard) }
{
    let id = text(alloc, id)?;
    let body = text(alloc, "x")?;
    Ok(Message {
        id,
        group: None,
        body,
        sent: 0,
    })
}

/// Brings one message, after `before` others.
fn bring(
    alloc: Global,
    book: &mut QueueBook<MemDisk>,
    before: u32,
    id: &str,
    moment: u64,
) -> Result<(), CameError>
    requires id { is_message_id id.now ≡ true }
    requires few { before < 100 }
    requires ready { IsReady before book.old.core }
    ensures { OnOk result (IsReady (before + 1) book.new.core) }
{
    let Ok(message) = message(alloc, id) else {
        return Err(CameError::OutOfMemory);
    };
    let mut items = Vec::new(alloc);
    if items.push(message).is_err() {
        return Err(CameError::OutOfMemory);
    }
    book.came(alloc, items, moment)
}

/// Has batcher 0 begin a call.
fn begin(alloc: Global, book: &mut QueueBook<MemDisk>, moment: u64) -> Result<Job, Fail>
    requires { is_running book.old.core.past (queue_lane 0) ≡ false }
    ensures runs { IfOk result (Calls book.new.core.past) }
    ensures goes_on { OnOk result (is_shut book.new.core.past ≡ is_shut book.old.core.past) }
{
    let Next::Call(job) = book.next(alloc, 0, moment)? else {
        return Err("no call".into());
    };
    Ok(job)
}

/// Ends the call with status 200 and this body. Returns how many messages are deleted.
fn end(
    alloc: Global,
    book: &mut QueueBook<MemDisk>,
    job: Job,
    body: &str,
    moment: u64,
) -> Result<u32, Fail>
    requires { Calls book.old.core.past job }
    ensures rests { OnOk result (is_running book.new.core.past (queue_lane 0) ≡ false) }
    ensures goes_on { OnOk result (is_shut book.new.core.past ≡ is_shut book.old.core.past) }
{
    let reply = Reply::Answered {
        status: 200,
        error: false,
        body: Bytes::from_vec(Vec::from_slice(alloc, body.as_bytes())?),
    };
    Ok(book.done(alloc, job, reply, moment)?)
}

/// Until when batcher 0, which has no running call, pauses.
fn pause(alloc: Global, book: &mut QueueBook<MemDisk>, moment: u64) -> Result<u64, Fail>
    requires { is_running book.old.core.past (queue_lane 0) ≡ false }
    ensures { OnOk result (is_running book.new.core.past (queue_lane 0) ≡ false) }
{
    let Next::Idle { until } = book.next(alloc, 0, moment)? else {
        return Err("no pause".into());
    };
    Ok(until)
}

/// Ends the input.
fn shut(book: &mut QueueBook<MemDisk>, moment: u64) -> Result<(), BookError>
    requires { Rests book.old.core.past }
    ensures { OnOk result (is_running book.new.core.past (queue_lane 0) ≡ false) }
{
    book.shut(moment)?;
    Ok(())
}

/// Whether batcher 0 finishes.
fn finishes(alloc: Global, book: &mut QueueBook<MemDisk>, moment: u64) -> Result<bool, Fail>
    requires { is_running book.old.core.past (queue_lane 0) ≡ false }
{
    match book.next(alloc, 0, moment)? {
        Next::Finished => Ok(true),
        _ => Ok(false),
    }
}

/// The text of the call's event.
fn event_text(alloc: Global, job: &Job) -> Option<Vec<u8>> {
    let mut room = Vec::new(alloc);
    match write_event(alloc, &mut room, &job.event) {
        Ok(text) => Vec::from_slice(alloc, text).ok(),
        Err(_) => None,
    }
}

/// The event of the message `b` when it is called for the second time.
const SHOWN_AGAIN: &str =
    r#"{"Records":[{"messageId":"b","receiptHandle":"RH-1-2","body":"x","attributes":{"ApproximateReceiveCount":"2","SentTimestamp":"0","ApproximateFirstReceiveTimestamp":"0"},"messageAttributes":{},"md5OfBody":"9dd4e461268c8034f5c8564e155c67a6","eventSource":"aws:sqs","eventSourceARN":"arn:aws:sqs:us-east-1:123456789012:q","awsRegion":"us-east-1"}]}"#;

/// The answer reports one of three messages: it is hidden until its visibility timeout is over, and is then called again.
#[test]
fn queue_item_failures(rt: HostRuntime) -> Result<(), Fail> {
    let alloc = rt.alloc();
    let config = reporting_mapping(alloc)?;
    let mut book = opened(alloc, config, fresh_pair(alloc, &[])?)?;
    bring(alloc, &mut book, 0, "a", 0)?;
    bring(alloc, &mut book, 1, "b", 0)?;
    bring(alloc, &mut book, 2, "c", 0)?;
    shut(&mut book, 0)?;
    let job = begin(alloc, &mut book, 0)?;
    assert_eq!(rt; job.places.as_slice(), [0, 1, 2].as_slice());
    let body = r#"{"batchItemFailures":[{"itemIdentifier":"b"}]}"#;
    assert_eq!(rt; end(alloc, &mut book, job, body, 0)?, 2);
    assert_eq!(rt; pause(alloc, &mut book, 0)?, 30_000);
    let job = begin(alloc, &mut book, 30_000)?;
    assert_eq!(rt; job.places.as_slice(), [1].as_slice());
    let event = event_text(alloc, &job).ok_or("no memory")?;
    assert_eq!(rt; event.as_slice(), SHOWN_AGAIN.as_bytes());
    assert_eq!(rt; end(alloc, &mut book, job, "", 30_000)?, 1);
    assert!(rt; finishes(alloc, &mut book, 30_000)?);
    let parts = book.into_parts();
    assert_eq!(rt; parts.history.len(), 10);
    assert_eq!(rt; parts.pair.payloads().len(), 2);
    Ok(())
}
