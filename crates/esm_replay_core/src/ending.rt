// Ruling on the end of a call of a replay, and the payload of the records that it replays.
ghost use Rattle.std.specs.Prelude.{◌≡◌, ◌≤◌, false, true, take, IfOk, length};
ghost use Rattle.std.specs.List.{list_all};
ghost use Rattle.esm_model.specs.declared.limits.TheConstants.{MAX_BATCH};
ghost use Rattle.esm_model.specs.Reading.{reading};
ghost use Rattle.esm_model.specs.Ruling.{ruling};
ghost use Rattle.esm_model.specs.Sequence.{is_sequence};
ghost use Rattle.esm_verdict.specs.Readings.{IsWithin};
ghost use Rattle.esm_journal_record.specs.declared.said.Said.TheVariants as said;
ghost use Rattle.esm_journal_record.specs.Payload.{payload_of, IsSaid};
ghost use Rattle.esm_replay_core.specs.Ending.{IsReplayOf, MayEnd, IsEnding};

use crate::owed::Replay;
use esm_journal_record::{KeptText, replayed_bytes};
use esm_model::{Config, Job, OutOfMemory, Places, Reply, Seq, Verdict};
use esm_replay::{Parts, Waiting};
use esm_verdict::{Answer, Call, judge, read_stream};
use std::alloc::Global;

/// What the end of a call results in: how many of its records succeeded, which parts of the others are called again, and
/// what is replayed.
#[derive(Drop)]
pub(crate) struct Ending {
    pub succeeded: u32,
    pub parts: Parts,
    pub replay: Option<Replay>,
}

/// Copies of the sequence numbers.
fn numbers_of(alloc: Global, names: &[KeptText]) -> Result<Vec<Seq>, OutOfMemory>
    requires { list_all is_sequence names.now ≡ true }
    ensures { IfOk result (λ numbers. numbers.items ≡ names.now) }
{
    let mut numbers = Vec::with_capacity(alloc, names.len())?;
    for name in names {
        let number = Seq::of_digits(alloc, name.as_slice())?;
        numbers.push(number)?;
    }
    Ok(numbers)
}

/// Reads the reply to a call of the records with these sequence numbers; the numbers are used only if single records can
/// be reported.
fn answer_of(
    alloc: Global,
    config: &Config,
    names: &[KeptText],
    reply: &Reply,
) -> Result<Answer, OutOfMemory>
    requires few { length names.now ≤ MAX_BATCH }
    requires spelled { list_all is_sequence names.now ≡ true }
    ensures reading { IfOk result (λ a. a.reading ≡ reading config.now names.now false reply.now) }
    ensures within { IfOk result (λ a. IsWithin (length names.now) a.reading) }
{
    if !config.item_failures {
        return read_stream(alloc, config, &[], Call::OfBatch, reply);
    }
    let numbers = numbers_of(alloc, names)?;
    read_stream(alloc, config, numbers.as_slice(), Call::OfBatch, reply)
}

/// The ruling on a call of the records with these sequence numbers by its reply; none of them was tried before.
fn verdict_of(
    alloc: Global,
    config: &Config,
    names: &[KeptText],
    reply: &Reply,
) -> Result<Verdict, OutOfMemory>
    requires few { length names.now ≤ MAX_BATCH }
    requires spelled { list_all is_sequence names.now ≡ true }
    ensures ruled { IfOk result (λ v. v ≡ ruling config.now (length names.now) 0 (reading config.now names.now false reply.now)) }
    ensures within { IfOk result (λ v. v.succeeded ≤ length names.now) }
{
    let answer = answer_of(alloc, config, names, reply)?;
    Ok(judge(config, names.len() as u32, 0, answer.reading))
}

/// The payload which says that the first `count` records of a call are replayed.
fn replay_payload(
    alloc: Global,
    shard: u64,
    moment: u64,
    places: &[u32],
    names: &[KeptText],
    count: usize,
) -> Result<Vec<u8>, OutOfMemory>
    requires places { count ≤ length places.now }
    requires names { count ≤ length names.now }
    requires said { IsSaid (said.Replayed shard moment (take count places.now) (take count names.now)) }
    ensures { IfOk result (λ payload. payload.items ≡ payload_of (said.Replayed shard moment (take count places.now) (take count names.now))) }
{
    replayed_bytes(alloc, shard, moment, &places[..count], &names[..count])
}

/// What is replayed of the first `count` records of a call, if there are any.
fn replay_of(
    alloc: Global,
    shard: u64,
    moment: u64,
    places: &[u32],
    names: &[KeptText],
    count: usize,
) -> Result<Option<Replay>, OutOfMemory>
    requires few { length places.now ≤ MAX_BATCH }
    requires places { count ≤ length places.now }
    requires names { count ≤ length names.now }
    requires said { 1 ≤ count → IsSaid (said.Replayed shard moment (take count places.now) (take count names.now)) }
    ensures { IfOk result (IsReplayOf shard moment (take count places.now) (take count names.now)) }
{
    if count == 0 {
        return Ok(None);
    }
    let payload = replay_payload(alloc, shard, moment, places, names, count)?;
    let copy = Vec::from_slice(alloc, &places[..count])?;
    Ok(Some(Replay {
        shard,
        places: Places::from_vec(copy),
        moment,
        payload,
    }))
}

/// The result of a call of the first records of the first piece, which have these sequence numbers, by its reply.
pub(crate) fn end_of(
    alloc: Global,
    config: &Config,
    waiting: &Waiting,
    names: &[KeptText],
    job: &Job,
    reply: &Reply,
    moment: u64,
) -> Result<Ending, OutOfMemory>
    requires { MayEnd config.now waiting.now names.now job.now.lane.shard job.now.places reply.now moment }
    ensures { IfOk result (IsEnding config.now waiting.now names.now job.now.lane.shard job.now.places reply.now moment) }
{
    let verdict = verdict_of(alloc, config, names, reply)?;
    let parts = waiting.parts(alloc, names.len() as u32, verdict)?;
    let replay = replay_of(
        alloc,
        job.lane.shard,
        moment,
        job.places.as_slice(),
        names,
        verdict.succeeded as usize,
    )?;
    Ok(Ending {
        succeeded: verdict.succeeded,
        parts,
        replay,
    })
}
