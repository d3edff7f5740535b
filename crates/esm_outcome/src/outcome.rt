// What the end of a lane's call requires: fates, counted tries and the close of a tumbling window.
ghost use Rattle.std.specs.Prelude.{◌≡◌, ◌≤◌, ◌∷◌, true, map, IfOk, vec_len};
ghost use Rattle.std.specs.Option.{option_or};
ghost use Rattle.esm_model.specs.declared.moment.TheConstants.{MAX_MOMENT};
ghost use Rattle.esm_model.specs.declared.entry.Entry.{Entry};
ghost use Rattle.esm_model.specs.Entries.{last_moment, last_call, is_running};
ghost use Rattle.esm_shard_index.specs.WindowsLaws.{closing_of};
ghost use Rattle.esm_ledger.specs.Ledger.{past_of, setting_of, Keeps};
ghost use Rattle.esm_outcome.specs.Dues.{due_entry, given_count, window_given};
ghost use Rattle.esm_outcome.specs.Ending.{AreValidRecords, SettledOver, IsVerdictOver, AreOwedOver, MaySettle};
ghost use Rattle.esm_outcome.specs.Preparing.{PreparesEnd, AreOfWindow};

use crate::dues::{dues_of, given_of, state_of, window_for};
use crate::judging::judge_reply;
use crate::line::line_of;
use esm_ledger::Ledger;
use esm_model::{Fate, LaneId, OutOfMemory, Places, Reply, Text, Verdict, WindowState};
use std::alloc::Global;

/// An entry that the end of a call requires, without its lane and its moment.
#[derive(Drop, Debug)]
pub enum Due {
    /// The records at the places get the fate, with the line for the failure destination and the new state of their
    /// window.
    Gave {
        places: Places,
        fate: Fate,
        line: Option<Text>,
        state: Option<WindowState>,
    },
    /// A failed try that counts; `tries` is the number after it, and `closing` the window of a final call.
    Tried {
        places: Places,
        closing: Option<u64>,
        tries: u32,
    },
    /// The tumbling window is closed; it is named by its start in milliseconds.
    Closed {
        window: u64,
    },
}

/// What the end of a call requires.
#[derive(Drop, Debug)]
pub struct Outcome {
    pub verdict: Verdict,
    /// The oldest first; at most two.
    pub dues: Vec<Due>,
    /// How many records get a fate.
    pub given: u32,
    /// The window that needs memory for a state and a try before the end is added: the one that a final call closes,
    /// or the one that gets a new state.
    pub window: Option<u64>,
}

/// What the end of the lane's call with this reply requires, at the moment `now` in milliseconds. (Lambda Developer Guide,
/// error handling for Kinesis: the records that succeeded, retries, bisecting, failure destinations; tumbling windows.)
pub fn outcome_of(
    alloc: Global,
    ledger: &Ledger,
    lane: LaneId,
    reply: &Reply,
    now: u64,
) -> Result<Outcome, OutOfMemory>
    requires kept { Keeps ledger.now }
    requires valid { AreValidRecords (setting_of ledger.now) }
    requires settled { SettledOver (setting_of ledger.now) (past_of ledger.now) }
    requires runs { is_running (past_of ledger.now) lane ≡ true }
    requires later { last_moment (past_of ledger.now) ≤ now }
    requires moment { now ≤ MAX_MOMENT }
    // what the end requires
    ensures verdict { IfOk result (λ o. IsVerdictOver (setting_of ledger.now) (past_of ledger.now) lane reply.now o.verdict) }
    ensures dues { IfOk result (λ o. AreOwedOver (setting_of ledger.now) (past_of ledger.now) lane reply.now now o.dues.items) }
    ensures few { IfOk result (λ o. vec_len o.dues ≤ 2) }
    ensures given { IfOk result (λ o. o.given ≡ given_count o.dues.items) }
    // that it can be added
    ensures legal { IfOk result (λ o. MaySettle (setting_of ledger.now) (past_of ledger.now)
        (Entry.Ended lane reply.now now ∷ map (due_entry lane now) o.dues.items)) }
    ensures window { IfOk result (λ o. o.window ≡ option_or (closing_of (last_call (past_of ledger.now) lane)) (window_given o.dues.items)) }
    ensures prepared { IfOk result (λ o. PreparesEnd (past_of ledger.now) lane o.window) }
    ensures states { IfOk result (λ o. AreOfWindow o.window o.dues.items) }
{
    let places = ledger.called(lane);
    let closing = ledger.closing(lane);
    let judged = judge_reply(alloc, ledger, lane, places, closing, reply)?;
    let verdict = judged.verdict;
    let (good, left) = places.split_at(verdict.succeeded as usize);
    let state = state_of(
        alloc,
        ledger,
        lane.shard,
        good,
        closing,
        reply,
        judged.state,
    )?;
    let line = line_of(alloc, ledger, lane, verdict.rest, left, reply, now)?;
    let window = window_for(closing, &state);
    let given = given_of(verdict.rest, good, left);
    let dues = dues_of(
        alloc,
        verdict.rest,
        good,
        left,
        closing,
        judged.tries,
        state,
        line,
    )?;
    Ok(Outcome {
        verdict,
        dues,
        given,
        window,
    })
}
