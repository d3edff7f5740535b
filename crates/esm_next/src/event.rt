// The call of a lane, with its event.
ghost use Rattle.std.specs.Prelude.{◌≡◌, ◌≤◌, ◌++◌, ◌∷◌, [], true, IfOk, OnOk, unwrap_or, codes};
ghost use Rattle.std.specs.Option.{option_copied, ForSome};
ghost use Rattle.esm_model.specs.declared.moment.TheConstants.{MAX_MOMENT};
ghost use Rattle.esm_model.specs.ValidCall.{IsValidWindowCall};
ghost use Rattle.esm_model.specs.Setting.{records_at};
ghost use Rattle.esm_model.specs.Entries.{came_count};
ghost use Rattle.esm_model.specs.Fates.{lacks_fate};
ghost use Rattle.esm_model.specs.Calls.{window_call};
ghost use Rattle.esm_ledger.specs.Ledger.{past_of, setting_of, Keeps};
ghost use Rattle.esm_ledger.specs.Reading.{AreOpen};
ghost use Rattle.esm_next.specs.Following.{job_of};
ghost use Rattle.esm_next.specs.Deciding.{IsWithinBounds};
ghost use Rattle.esm_next.specs.Gathering.{call_in};

use esm_event::event_of;
use esm_ledger::Ledger;
use esm_model::{Bytes, Job, LaneId, OutOfMemory, Places, Record, WindowCall, WindowState};
use std::alloc::Global;

/// The call of the lane with these places, or the one that closes the window.
pub(crate) fn job(
    alloc: Global,
    ledger: &Ledger,
    lane: LaneId,
    places: &[u32],
    closing: Option<u64>,
    window: Option<&WindowCall>,
) -> Result<Job, OutOfMemory>
    requires kept { Keeps ledger.now }
    requires bounds { IsWithinBounds ledger.now }
    requires open { AreOpen (setting_of ledger.now) (past_of ledger.now) lane.shard places.now }
    requires valid { ForSome (option_copied window) IsValidWindowCall }
    requires window { option_copied window ≡ window_call (setting_of ledger.now) (past_of ledger.now) lane.shard places.now closing }
    ensures { IfOk result (λ job. job ≡ job_of (setting_of ledger.now) (past_of ledger.now) lane places.now closing) }
{
    let records = records_of(alloc, ledger, lane.shard, places)?;
    let event = event_of(alloc, &ledger.config, records, window)?;
    Ok(Job {
        lane,
        places: copied(alloc, places)?,
        closing,
        event,
    })
}

/// Copies of the records at the places, in order, which share their texts with the ledger's.
fn records_of(
    alloc: Global,
    ledger: &Ledger,
    shard: u64,
    places: &[u32],
) -> Result<Vec<Record>, OutOfMemory>
    requires kept { Keeps ledger.now }
    requires open { AreOpen (setting_of ledger.now) (past_of ledger.now) shard places.now }
    ensures { IfOk result (λ records. records.items ≡ records_at (setting_of ledger.now) shard places.now) }
{
    let mut records = Vec::with_capacity(alloc, places.len())?;
    for place in places {
        push_place(&mut records, ledger, shard, *place)?;
    }
    Ok(records)
}

fn push_place(
    records: &mut Vec<Record>,
    ledger: &Ledger,
    shard: u64,
    place: u32,
) -> Result<(), OutOfMemory>
    requires kept { Keeps ledger.now }
    requires open { lacks_fate (setting_of ledger.now) (past_of ledger.now) shard place ≡ true }
    ensures { OnOk result (records.new.items ≡ records.old.items ++ records_at (setting_of ledger.now) shard (place ∷ [])) }
{
    match ledger.record(shard, place) {
        None => Ok(()),
        Some(record) => {
            let copy = record.copy()?;
            records.push(copy)?;
            Ok(())
        }
    }
}

/// A copy of the places.
pub(crate) fn copied(alloc: Global, places: &[u32]) -> Result<Places, OutOfMemory>
    ensures { IfOk result (λ copy. copy ≡ places.now) }
{
    let copy = Vec::from_slice(alloc, places)?;
    Ok(Places::from_vec(copy))
}

/// What an event says of the window; `None` if no windows are configured.
#[tactic(auto, using(crate::proofs::Bounds::call_off, crate::proofs::Bounds::call_on, crate::proofs::Bounds::call_valid))]
pub(crate) fn window_call_of(
    alloc: Global,
    ledger: &Ledger,
    shard: u64,
    window: u64,
    closing: bool,
) -> Result<Option<WindowCall>, OutOfMemory>
    requires kept { Keeps ledger.now }
    requires bounds { IsWithinBounds ledger.now }
    requires came { 1 ≤ came_count (past_of ledger.now) shard }
    requires moment { window ≤ MAX_MOMENT }
    ensures value { IfOk result (λ w. w ≡ call_in (setting_of ledger.now) (past_of ledger.now) shard window closing) }
    ensures valid { IfOk result (λ w. ForSome w IsValidWindowCall) }
{
    if ledger.config.tumbling_ms == 0 {
        return Ok(None);
    }
    let text = state_copy(alloc, ledger.state(shard, window))?;
    Ok(Some(WindowCall {
        shard,
        state: WindowState { window, text },
        closing,
    }))
}

/// A copy of the window's state; `{}` if it has none yet.
fn state_copy(alloc: Global, state: Option<&Bytes>) -> Result<Bytes, OutOfMemory>
    ensures { IfOk result (λ text. text ≡ unwrap_or (option_copied state.entry) (codes "{}")) }
{
    match state {
        None => {
            let text = Vec::from_slice(alloc, b"{}")?;
            Ok(Bytes::from_vec(text))
        }
        Some(text) => text.copy(alloc),
    }
}
