// A test of two lanes of a shard, with calls that overlap.
ghost use Rattle.std.specs.Prelude.{◌≡◌, ℕ, ◌≤◌, length, true, false, IfOk, OnOk};
ghost use Rattle.std.specs.List.{All};
ghost use Rattle.esm_model.specs.Entries.{is_shut};
ghost use Rattle.esm_model.specs.Valid.{is_between, char_count, IsValidRecord};
ghost use Rattle.esm_model.specs.declared.limits.TheConstants.{MAX_BATCH, MAX_KEY};
ghost use Rattle.esm_stream_core.specs.Calls.{IsResting};
ghost use Rattle.esm_tests_books.specs.Streams.{lanes_mapping, IsOpen, Runs, KeepsOthers};

use esm_book::Nowhere;
use esm_fixtures::{fresh_pair, record_of, stream_mapping};
use esm_io::MemDisk;
use esm_model::{BookError, Bytes, Config, Entry, Job, Next, Record, Reply};
use esm_stream_book::Book;
use std::alloc::{AllocError, Global};
use std::test::Fail;

type Lanes = Book<MemDisk, Nowhere>;

/// The stream's mapping with two lanes a shard and one retry.
pub(crate) fn mapping(alloc: Global) -> Result<Config, AllocError>
    ensures { IfOk result (λ c. c ≡ lanes_mapping) }
{
    let mut config = stream_mapping(alloc)?;
    config.factor = 2;
    config.retries = Some(1);
    Ok(config)
}

/// A book over new disks, without a destination.
fn opened(alloc: Global) -> Result<Lanes, Fail>
    ensures { IfOk result (λ book. IsOpen book.core.past) }
{
    let config = mapping(alloc)?;
    let pair = fresh_pair(alloc, &[])?;
    match Book::open(alloc, config, 100, pair, Nowhere {}) {
        Ok(book) => Ok(book),
        Err(_) => Err("no book".into()),
    }
}

/// A record of the first shard with this sequence number and key, which arrived at moment 0.
fn item(alloc: Global, seq: &str, key: &str) -> Result<Record, Fail>
    requires { is_between 1 MAX_KEY (char_count key.now) ≡ true }
    ensures { IfOk result IsValidRecord }
{
    Ok(record_of(alloc, seq, key, b"Hello")?)
}

/// The records 1 and 2, with the keys `1` and `2`.
fn items(alloc: Global) -> Result<Vec<Record>, Fail>
    ensures few { IfOk result (λ items. length items.items ≤ MAX_BATCH) }
    ensures valid { IfOk result (λ items. All IsValidRecord items.items) }
{
    let mut items = Vec::new(alloc);
    items.push(item(alloc, "1", "1")?)?;
    items.push(item(alloc, "2", "2")?)?;
    Ok(items)
}

/// Brings the records.
fn bring(alloc: Global, book: &mut Lanes, items: Vec<Record>, moment: u64) -> Result<(), Fail>
    requires no_call { IsOpen book.old.core.past }
    requires few { length items.items ≤ MAX_BATCH }
    requires valid { All IsValidRecord items.items }
    ensures { OnOk result (IsOpen book.new.core.past) }
{
    Ok(book.came(alloc, items, moment)?)
}

/// A running call, and its batcher.
#[derive(Drop)]
struct Call {
    batcher: u32,
    job: Job,
}

/// Has the batcher begin a call.
fn begin(alloc: Global, book: &mut Lanes, batcher: u32, moment: u64) -> Result<Call, Fail>
    requires { IsResting book.old.core batcher }
    ensures mine { IfOk result (λ call. call.batcher ≡ batcher) }
    ensures runs { IfOk result (λ call. Runs book.new.core batcher call.job) }
    ensures others { OnOk result (KeepsOthers batcher book.old.core book.new.core) }
{
    let Next::Call(job) = book.next(alloc, batcher, moment)? else {
        return Err("no call".into());
    };
    Ok(Call { batcher, job })
}

/// Ends the call with status 200 and no body, with or without the function error. Returns how many records get a fate.
fn end(alloc: Global, book: &mut Lanes, call: Call, error: bool, moment: u64) -> Result<u32, Fail>
    requires { Runs book.old.core call.batcher call.job }
    ensures rests { OnOk result (IsResting book.new.core call.batcher) }
    ensures others { OnOk result (KeepsOthers call.batcher book.old.core book.new.core) }
{
    let reply = Reply::Answered {
        status: 200,
        error,
        body: Bytes::from_vec(Vec::new(alloc)),
    };
    Ok(book.done(alloc, call.job, reply, moment)?)
}

/// Until when the batcher pauses.
fn pause(alloc: Global, book: &mut Lanes, batcher: u32, moment: u64) -> Result<u64, Fail>
    requires { IsResting book.old.core batcher }
    ensures rests { OnOk result (IsResting book.new.core batcher) }
    ensures others { OnOk result (KeepsOthers batcher book.old.core book.new.core) }
{
    let Next::Idle { until } = book.next(alloc, batcher, moment)? else {
        return Err("no pause".into());
    };
    Ok(until)
}

/// Ends the input.
fn shut(book: &mut Lanes, moment: u64) -> Result<(), BookError>
    requires { is_shut book.old.core.past ≡ false }
    ensures { OnOk result ((batcher : ℕ) → IsResting book.old.core batcher → IsResting book.new.core batcher) }
{
    book.shut(moment)?;
    Ok(())
}

/// Has the batcher finish.
fn finish(alloc: Global, book: &mut Lanes, batcher: u32, moment: u64) -> Result<(), Fail>
    requires { IsResting book.old.core batcher }
    ensures { OnOk result (KeepsOthers batcher book.old.core book.new.core) }
{
    let Next::Finished = book.next(alloc, batcher, moment)? else {
        return Err("more to do".into());
    };
    Ok(())
}

/// How many calls a history has.
fn calls(history: &[Entry]) -> usize {
    history
        .iter()
        .filter(|entry| matches!(entry, Entry::Began { .. }))
        .count()
}

/// What the journal has: the second record succeeded at 0; the first was tried at 0 and given up at 250.
const PAYLOADS: [&[u8]; 3] = [
    &[
        1, 0, 0, 0, 0, 0, 0, 0, 0, 1, 0, 0, 0, 0, 0, 0, 0, 0, 0, 0, 0, 0, 1, 0, 0, 0, 1, 1, b'2',
    ],
    &[
        5, 0, 0, 0, 0, 0, 0, 0, 0, 0, 0, 0, 0, 0, 0, 0, 0, 0, 0, 0, 1, 0, 0, 0, 1, 0, 0, 0, 0, 1,
        b'1',
    ],
    &[
        1, 0, 0, 0, 0, 0, 0, 0, 0, 4, 0, 0, 0, 0, 0, 0, 0, 250, 0, 0, 0, 0, 1, 0, 0, 0, 0, 1, b'1',
    ],
];

/// Record 1 is in lane 1, and record 2 in lane 0. Both calls are running at the same time. Record 2 succeeds; record 1
/// fails, is called again after 250 milliseconds, fails again and is given up. The checkpoint waits for record 1.
#[test]
fn two_lanes(rt: HostRuntime) -> Result<(), Fail> {
    let alloc = rt.alloc();
    let mut book = opened(alloc)?;
    assert_eq!(rt; (book.checkpoint(0), book.spread(0)), (None, None));
    bring(alloc, &mut book, items(alloc)?, 0)?;
    let first = begin(alloc, &mut book, 1, 0)?;
    let second = begin(alloc, &mut book, 0, 0)?;
    assert_eq!(rt;
        (first.job.lane.lane, first.job.places.as_slice()),
        (1, [0].as_slice())
    );
    assert_eq!(rt;
        (second.job.lane.lane, second.job.places.as_slice()),
        (0, [1].as_slice())
    );
    assert_eq!(rt; end(alloc, &mut book, second, false, 0)?, 1);
    assert_eq!(rt; (book.checkpoint(0), book.spread(0)), (Some(0), Some(1)));
    assert_eq!(rt; end(alloc, &mut book, first, true, 0)?, 0);
    assert_eq!(rt; pause(alloc, &mut book, 1, 0)?, 250);
    let again = begin(alloc, &mut book, 1, 250)?;
    assert_eq!(rt; again.job.places.as_slice(), [0].as_slice());
    assert_eq!(rt; end(alloc, &mut book, again, true, 250)?, 1);
    assert_eq!(rt; (book.checkpoint(0), book.spread(0)), (Some(2), Some(0)));
    shut(&mut book, 250)?;
    finish(alloc, &mut book, 0, 250)?;
    finish(alloc, &mut book, 1, 250)?;
    let parts = book.into_parts();
    assert_eq!(rt; (parts.history.len(), calls(&parts.history)), (11, 3));
    let payloads = parts.pair.payloads();
    assert_eq!(rt; payloads.len(), 3);
    for (payload, wanted) in payloads.iter().zip(PAYLOADS.iter()) {
        assert_eq!(rt; payload.as_slice(), *wanted);
    }
    Ok(())
}
