// Which messages an answer to a call deletes.
ghost use Rattle.std.specs.Prelude.{◌≡◌, ◌+◌, ◌<◌, not, IfOk, filter};
ghost use Rattle.esm_model.specs.declared.verdict.QueueReading.{QueueReading};
ghost use Rattle.esm_queue_model.specs.Queue.{is_deleted_at};
ghost use Rattle.esm_queue_model.specs.QueueStep.{not_failed, succeeded_by};
ghost use Rattle.esm_queue_core.specs.Kept.{IsRisingFrom, HasRisingFailed};

use esm_model::{OutOfMemory, QueueReading};
use esm_queue::Queue;
use std::alloc::Global;

/// The places whose positions are not among the failed ones, which rise, and whose messages are not deleted.
fn kept_places(
    alloc: Global,
    queue: &Queue,
    failed: &[u32],
    places: &[u32],
) -> Result<Vec<u32>, OutOfMemory>
    requires { IsRisingFrom 0 failed.now }
    ensures { IfOk result (λ kept. kept.items ≡ filter (λ i. not (is_deleted_at queue.now.state i)) (not_failed failed.now 0 places.now)) }
{
    let mut kept = Vec::new(alloc);
    let mut passed = 0;
    for position in 0..places.len() {
        let place = places[position];
        if passed < failed.len() && failed[passed] as usize == position {
            passed += 1;
        } else if !queue.is_deleted(place) {
            kept.push(place)?;
        }
    }
    Ok(kept)
}

/// The places of a batch that the reading of its answer counts as succeeded, and whose messages are not deleted.
pub fn succeeded(
    alloc: Global,
    queue: &Queue,
    reading: &QueueReading,
    places: &[u32],
) -> Result<Vec<u32>, OutOfMemory>
    requires { HasRisingFailed reading.now }
    ensures { IfOk result (λ kept. kept.items ≡ filter (λ i. not (is_deleted_at queue.now.state i)) (succeeded_by reading.now places.now)) }
{
    match reading {
        QueueReading::NotRun | QueueReading::Failed => Ok(Vec::new(alloc)),
        QueueReading::Done { failed } => kept_places(alloc, queue, failed.as_slice(), places),
    }
}
