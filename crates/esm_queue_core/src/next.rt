// Decides what a batcher does next, from what is kept beside the history.
ghost use Rattle.std.specs.Prelude.{◌≡◌, ◌+◌, ◌≤◌, [], All, IfOk, List, None, OnOk, length, take};
ghost use Rattle.esm_model.specs.declared.moment.TheConstants.{MAX_MOMENT};
ghost use Rattle.esm_model.specs.declared.entry.Entry.{Entry};
ghost use Rattle.esm_model.specs.Batches.{longest};
ghost use Rattle.esm_model.specs.QueueEvent.{IsQueueConfig, IsValidReceived, queue_event_text};
ghost use Rattle.esm_queue_model.specs.Queue.{eligible};
ghost use Rattle.esm_queue_model.specs.QueueSetting.{QueueSetting};
ghost use Rattle.esm_queue_model.specs.QueueEntries.{queue_lane};
ghost use Rattle.esm_queue_core.specs.Next.{next_for, lesser_of, IsToldBy, IsValidStored, deleted_number};
ghost use Rattle.esm_queue_core.specs.Kept.{IsBegunBy};
ghost use Rattle.esm_queue_core.specs.Ready.{IsReadyFor};
ghost use Rattle.esm_queue_core.specs.Choosing.{received, fits_in, batch_in, window_of, ready_test, rest_of, pause_with, next_in};

use crate::gather::gather;
use crate::owed::First;
use esm_event::queue_event;
use esm_model::{Config, Event, Job, LaneId, MAX_MOMENT, Next, OutOfMemory, Places, Received};
use esm_queue::Queue;
use std::alloc::Global;

/// What a decision looks at beside the queue: the calls allowed, those that began, the messages that are deleted, and
/// whether the input ended.
#[derive(Clone, Copy, Debug)]
pub struct Counts {
    pub calls: u32,
    pub begun: u64,
    pub deleted: u32,
    pub shut: bool,
}

/// What the batcher does next, by the first rule that holds. Looks at one eligible message more than a batch takes.
pub fn decide_next(
    alloc: Global,
    config: &Config,
    queue: &Queue,
    counts: Counts,
    batcher: u32,
    now: u64,
) -> Result<Next, OutOfMemory>
    requires config { IsQueueConfig config.now }
    requires stored { All (IsValidStored config.now.kind) queue.now.state.messages }
    requires deleted { counts.deleted ≡ deleted_number queue.now.state }
    requires in_time { now ≤ MAX_MOMENT }
    ensures { IfOk result (λ next. (s : QueueSetting) (h : List Entry) → IsToldBy config.now queue.now.state counts s h → next ≡ next_for s h batcher now) }
{
    if counts.deleted == queue.len() {
        return Ok(rest(counts.shut, now));
    }
    if counts.begun >= counts.calls as u64 {
        return Ok(Next::Spent);
    }
    decide_waiting(alloc, config, queue, counts.shut, batcher, now)
}

/// What a batcher does if no message waits.
fn rest(shut: bool, now: u64) -> Next
    requires { now ≤ MAX_MOMENT }
    ensures { result ≡ rest_of shut now }
{
    if shut {
        Next::Finished
    } else {
        Next::Idle {
            until: (now + 20).min(MAX_MOMENT),
        }
    }
}

/// What the batcher does next if a message waits and calls are left.
fn decide_waiting(
    alloc: Global,
    config: &Config,
    queue: &Queue,
    shut: bool,
    batcher: u32,
    now: u64,
) -> Result<Next, OutOfMemory>
    requires config { IsQueueConfig config.now }
    requires stored { All (IsValidStored config.now.kind) queue.now.state.messages }
    requires in_time { now ≤ MAX_MOMENT }
    ensures { IfOk result (λ next. next ≡ next_in config.now queue.now.state shut batcher now (batch_in config.now queue.now.state now)) }
{
    let most = config.batch_size.saturating_add(1);
    let places = queue.peek(alloc, now, most)?;
    let all = places.as_slice();
    let batch = gather(alloc, config, queue, all, now)?;
    choose(
        alloc,
        config,
        queue,
        shut,
        batcher,
        now,
        all,
        batch.as_slice(),
    )
}

/// What the batcher does next with `all`, the first of the eligible messages, of which the first make `batch`.
fn choose(
    alloc: Global,
    config: &Config,
    queue: &Queue,
    shut: bool,
    batcher: u32,
    now: u64,
    all: &[u32],
    batch: &[Received],
) -> Result<Next, OutOfMemory>
    requires config { IsQueueConfig config.now }
    requires stored { All (IsValidStored config.now.kind) queue.now.state.messages }
    requires in_time { now ≤ MAX_MOMENT }
    requires eligible { all.now ≡ take (config.now.batch_size + 1) (eligible queue.now.state now) }
    requires within { length batch.now ≤ length all.now }
    requires longest { take (length batch.now) all.now ≡ longest (fits_in config.now queue.now.state now) [] all.now }
    requires messages { batch.now ≡ received now queue.now.state (take (length batch.now) all.now) }
    ensures { IfOk result (λ next. next ≡ next_in config.now queue.now.state shut batcher now (batch_in config.now queue.now.state now)) }
{
    let count = batch.len();
    if count == 0 {
        let until = pause_end(queue, None, now);
        return Ok(Next::Idle { until });
    }
    let over = window_over(config, queue, all[0]);
    if !is_ready(config.batch_size, count, all.len(), over, shut, now) {
        let until = pause_end(queue, Some(over), now);
        return Ok(Next::Idle { until });
    }
    let job = job_for(alloc, config, batcher, &all[..count], batch)?;
    Ok(Next::Call(job))
}

/// The call of a batch.
fn job_for(
    alloc: Global,
    config: &Config,
    batcher: u32,
    places: &[u32],
    batch: &[Received],
) -> Result<Job, OutOfMemory>
    requires config { IsQueueConfig config.now }
    requires batch { All (IsValidReceived config.now.kind) batch.now }
    ensures { IfOk result (λ job. job
        ≡ record { lane = queue_lane batcher; places = places.now; closing = None; event = queue_event_text config.now batch.now }) }
{
    let event = queue_event(alloc, config, batch)?;
    let copy = Vec::from_slice(alloc, places)?;
    Ok(Job {
        lane: LaneId {
            shard: 0,
            lane: batcher,
        },
        places: Places::from_vec(copy),
        closing: None,
        event: Event::of_text(alloc, event),
    })
}

/// Whether a batch of `count` of the eligible messages is called now.
fn is_ready(batch_size: u32, count: usize, all: usize, over: u64, shut: bool, now: u64) -> bool
    ensures { result ≡ ready_test batch_size count all over shut now }
{
    count == batch_size as usize || count < all || over <= now || shut
}

/// The moment at which the batching window of a batch that begins with the message is over, at most `MAX_MOMENT`.
fn window_over(config: &Config, queue: &Queue, place: u32) -> u64
    ensures { result ≡ window_of config.now queue.now.state place }
{
    let came = queue.arrival(place).unwrap_or(0);
    came.saturating_add(config.window_ms).min(MAX_MOMENT)
}

/// The end of the pause: the next moment at which a message shows or the batch's window is over, or 20 milliseconds later.
fn pause_end(queue: &Queue, over: Option<u64>, now: u64) -> u64
    requires { now ≤ MAX_MOMENT }
    ensures { result ≡ pause_with queue.now.state now over }
{
    match lesser(queue.next_show(now), over) {
        None => (now + 20).min(MAX_MOMENT),
        Some(moment) => moment,
    }
}

fn lesser(one: Option<u64>, other: Option<u64>) -> Option<u64>
    ensures { result ≡ lesser_of one other }
{
    match (one, other) {
        (None, other) => other,
        (Some(one), None) => Some(one),
        (Some(one), Some(other)) => Some(one.min(other)),
    }
}

/// The call that begins, if the answer is one.
pub fn began_by(alloc: Global, next: &Next, moment: u64) -> Result<Option<First>, OutOfMemory>
    ensures { IfOk result (λ first. IsBegunBy next.now moment first) }
{
    match next {
        Next::Call(job) => Ok(Some(First::Began {
            lane: job.lane,
            places: job.places.copy(alloc)?,
            moment,
        })),
        Next::Gave(_) | Next::Idle { .. } | Next::Spent | Next::Finished => Ok(None),
    }
}

/// Prepares memory for the receipt of the call that begins at the moment, if one does. No message changes.
pub(crate) fn prepare_for(
    queue: &mut Queue,
    began: &Option<First>,
    now: u64,
) -> Result<(), OutOfMemory>
    ensures ready { OnOk result (IsReadyFor began.now queue.new now) }
    ensures state { queue.new.state ≡ queue.old.state }
    ensures spare { queue.new.spare ≡ queue.old.spare }
{
    match began {
        None => Ok(()),
        Some(_) => queue.prepare(now),
    }
}
