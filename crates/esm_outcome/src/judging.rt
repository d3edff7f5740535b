//! How the reply to a lane's running call is judged.
ghost use Rattle.std.specs.Prelude.{◌≡◌, ◌≤◌, ◌++◌, false, true, length, is_some, option_copied, slice_index, IfOk, OnOk, None};
ghost use Rattle.esm_model.specs.declared.limits.TheConstants.{MAX_BATCH};
ghost use Rattle.esm_model.specs.Setting.{sequences_at};
ghost use Rattle.esm_model.specs.Reading.{reading};
ghost use Rattle.esm_model.specs.Tries.{tries, tries_for, verdict_after};
ghost use Rattle.esm_model.specs.Windows.{has_windows};
ghost use Rattle.esm_model.specs.Owed.{state_in_reply};
ghost use Rattle.esm_verdict.specs.Readings.{IsWithin, IsStateIn, reply_state};
ghost use Rattle.esm_ledger.specs.Ledger.{past_of, setting_of, Keeps};
ghost use Rattle.esm_ledger.specs.Reading.{AreOpen};
ghost use Rattle.esm_outcome.specs.Ending.{SettledOver};
ghost use Rattle.esm_outcome.specs.Parts.{IsRunningCall, sequence_in, text_in};

use esm_ledger::Ledger;
use esm_model::{Answer, LaneId, OutOfMemory, Record, Reply, Seq, StateRead, Verdict};
use esm_verdict::{Call, judge, read_stream};
use std::alloc::Global;

/// How the reply to a call is judged.
#[derive(Clone, Copy, Debug)]
pub struct Judged {
    /// The failed tries of the call before it ended.
    pub tries: u32,
    pub verdict: Verdict,
    /// The state in the answer.
    pub state: StateRead,
}

/// The verdict on the lane's running call, by its failed tries and what the reply says of it.
pub fn judge_reply(
    alloc: Global,
    ledger: &Ledger,
    lane: LaneId,
    places: &[u32],
    closing: Option<u64>,
    reply: &Reply,
) -> Result<Judged, OutOfMemory>
    requires kept { Keeps ledger.now }
    requires settled { SettledOver (setting_of ledger.now) (past_of ledger.now) }
    requires call { IsRunningCall ledger.now lane places.now closing }
    ensures tries { IfOk result (λ j. j.tries ≡ tries_for (setting_of ledger.now) (past_of ledger.now) lane.shard places.now closing) }
    ensures verdict { IfOk result (λ j. j.verdict ≡ verdict_after (setting_of ledger.now) (past_of ledger.now) lane reply.now) }
    ensures within { IfOk result (λ j. j.verdict.succeeded ≤ length places.now) }
    ensures state { IfOk result (λ j. 1 ≤ j.verdict.succeeded → has_windows ledger.now.config ≡ true → text_in reply.now j.state ≡ state_in_reply reply.now) }
    ensures in_answer { IfOk result (λ j. IsStateIn reply.now j.state) }
{
    let tries = tries_of(ledger, lane, places, closing);
    let answer = answer_of(alloc, ledger, lane.shard, places, closing, reply)?;
    let verdict = judge(&ledger.config, places.len() as u32, tries, answer.reading);
    Ok(Judged {
        tries,
        verdict,
        state: answer.state,
    })
}

/// The failed tries of the lane's running call before it ends: those of the window that it closes, or else those of its
/// first record.
fn tries_of(ledger: &Ledger, lane: LaneId, places: &[u32], closing: Option<u64>) -> u32
    requires kept { Keeps ledger.now }
    requires settled { SettledOver (setting_of ledger.now) (past_of ledger.now) }
    requires call { IsRunningCall ledger.now lane places.now closing }
    ensures { result ≡ tries_for (setting_of ledger.now) (past_of ledger.now) lane.shard places.now closing }
{
    match closing {
        None => front_tries(ledger, lane, places),
        Some(window) => ledger.window_tries(lane.shard, window),
    }
}

/// The failed tries of the first record of the lane's running call.
fn front_tries(ledger: &Ledger, lane: LaneId, places: &[u32]) -> u32
    requires kept { Keeps ledger.now }
    requires settled { SettledOver (setting_of ledger.now) (past_of ledger.now) }
    requires call { IsRunningCall ledger.now lane places.now None }
    ensures { result ≡ tries (setting_of ledger.now) (past_of ledger.now) lane.shard (slice_index places.now 0) }
{
    match ledger.front(lane) {
        None => unreachable!(),
        Some(front) => front.tries,
    }
}

/// How the reply to the call of these records, or to the final call of the window, is read. Their sequence numbers matter
/// only for a batch whose item failures are reported.
fn answer_of(
    alloc: Global,
    ledger: &Ledger,
    shard: u64,
    places: &[u32],
    closing: Option<u64>,
    reply: &Reply,
) -> Result<Answer, OutOfMemory>
    requires kept { Keeps ledger.now }
    requires open { AreOpen (setting_of ledger.now) (past_of ledger.now) shard places.now }
    requires few { length places.now ≤ MAX_BATCH }
    ensures reading { IfOk result (λ a. a.reading ≡ reading ledger.now.config (sequences_at (setting_of ledger.now) shard places.now)
        (is_some closing) reply.now) }
    ensures within { IfOk result (λ a. IsWithin (length places.now) a.reading) }
    ensures state { IfOk result (λ a. a.state ≡ reply_state ledger.now.config reply.now) }
    ensures in_answer { IfOk result (λ a. IsStateIn reply.now a.state) }
{
    match closing {
        Some(_) => read_stream(alloc, &ledger.config, &[], Call::OfWindow, reply),
        None => batch_answer(alloc, ledger, shard, places, reply),
    }
}

/// How the reply to the call of these records is read.
fn batch_answer(
    alloc: Global,
    ledger: &Ledger,
    shard: u64,
    places: &[u32],
    reply: &Reply,
) -> Result<Answer, OutOfMemory>
    requires kept { Keeps ledger.now }
    requires open { AreOpen (setting_of ledger.now) (past_of ledger.now) shard places.now }
    requires few { length places.now ≤ MAX_BATCH }
    ensures reading { IfOk result (λ a. a.reading ≡ reading ledger.now.config (sequences_at (setting_of ledger.now) shard places.now) false reply.now) }
    ensures within { IfOk result (λ a. IsWithin (length places.now) a.reading) }
    ensures state { IfOk result (λ a. a.state ≡ reply_state ledger.now.config reply.now) }
    ensures in_answer { IfOk result (λ a. IsStateIn reply.now a.state) }
{
    if !ledger.config.item_failures {
        return read_stream(alloc, &ledger.config, &[], Call::OfBatch, reply);
    }
    let batch = sequences(alloc, ledger, shard, places)?;
    read_stream(
        alloc,
        &ledger.config,
        batch.as_slice(),
        Call::OfBatch,
        reply,
    )
}

/// Copies of the sequence numbers of the records at the places, in order.
fn sequences(
    alloc: Global,
    ledger: &Ledger,
    shard: u64,
    places: &[u32],
) -> Result<Vec<Seq>, OutOfMemory>
    requires kept { Keeps ledger.now }
    requires open { AreOpen (setting_of ledger.now) (past_of ledger.now) shard places.now }
    ensures sequences { IfOk result (λ v. v.items ≡ sequences_at (setting_of ledger.now) shard places.now) }
{
    let mut batch = Vec::with_capacity(alloc, places.len())?;
    for place in places {
        push_sequence(&mut batch, alloc, ledger.record(shard, *place))?;
    }
    Ok(batch)
}

/// Appends a copy of the record's sequence number.
fn push_sequence(
    batch: &mut Vec<Seq>,
    alloc: Global,
    found: Option<&Record>,
) -> Result<(), OutOfMemory>
    ensures { OnOk result (batch.new.items ≡ batch.old.items ++ sequence_in (option_copied found.entry)) }
{
    if let Some(record) = found {
        batch.push(record.sequence_copy(alloc)?)?;
    }
    Ok(())
}
