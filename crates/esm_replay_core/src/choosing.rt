// Choosing the call that a replay begins next, or why none begins.
ghost use Rattle.std.specs.Prelude.{◌≡◌, IfOk, All, List, length};
ghost use Rattle.esm_model.specs.declared.entry.Entry.{Entry};
ghost use Rattle.esm_model.specs.Valid.{IsValidRecord, IsStreamConfig};
ghost use Rattle.esm_replay_model.specs.ReplaySetting.{ReplaySetting};
ghost use Rattle.esm_replay.specs.Batch.{IsAmong, batch_records};
ghost use Rattle.esm_replay_core.specs.Choosing.{IsReady, IsChosen, IsBegunOf};

use crate::decisions::ReplayNext;
use crate::owed::Owed;
use esm_event::event_of;
use esm_model::{Config, Job, LaneId, OutOfMemory, Record};
use esm_replay::{Batch, Waiting, names_of};
use std::alloc::Global;

/// What comes next, and what it owes.
#[derive(Drop)]
pub(crate) struct Chosen {
    pub next: ReplayNext,
    pub owed: Owed,
}

/// Begins the call of the batch at the moment.
fn begin(
    alloc: Global,
    config: &Config,
    records: &[Record],
    batch: Batch,
    moment: u64,
) -> Result<Chosen, OutOfMemory>
    requires config { IsStreamConfig config.now }
    requires among { IsAmong (length records.now) batch }
    requires valid { All IsValidRecord (batch_records records.now batch) }
    ensures { IfOk result (IsBegunOf config.now batch.shard batch.places (batch_records records.now batch) moment) }
{
    let Batch {
        shard,
        places,
        records: gathered,
    } = batch;
    let called = gathered.into_records(alloc, records, places.as_slice().len())?;
    let names = names_of(alloc, called.as_slice())?;
    let event = event_of(alloc, config, called, None)?;
    let copy = places.copy(alloc)?;
    let lane = LaneId { shard, lane: 0 };
    let owed = Owed::Began {
        lane,
        places: copy,
        names,
        moment,
    };
    let job = Job {
        lane,
        places,
        closing: None,
        event,
    };
    Ok(Chosen {
        next: ReplayNext::Call(job),
        owed,
    })
}

/// What comes next at the moment: `Finished` if and only if nothing waits; `Spent` if something waits and all calls
/// allowed were made; otherwise the call of a prefix of the first piece.
pub(crate) fn choose(
    alloc: Global,
    config: &Config,
    calls: u32,
    begun: u64,
    waiting: &Waiting,
    records: &[Record],
    moment: u64,
) -> Result<Chosen, OutOfMemory>
    requires config { IsStreamConfig config.now }
    requires valid { All IsValidRecord records.now }
    requires ready { (s : ReplaySetting) × (h : List Entry) × IsReady s h config.now calls begun records.now waiting.now }
    ensures { IfOk result (λ chosen. (s : ReplaySetting) (h : List Entry) →
        IsReady s h config.now calls begun records.now waiting.now → IsChosen s h moment chosen) }
{
    let found = waiting.next_batch(alloc, config, records)?;
    match found {
        None => Ok(Chosen {
            next: ReplayNext::Finished,
            owed: Owed::Nothing,
        }),
        Some(batch) => {
            if begun >= calls as u64 {
                return Ok(Chosen {
                    next: ReplayNext::Spent,
                    owed: Owed::Nothing,
                });
            }
            begin(alloc, config, records, batch, moment)
        }
    }
}
