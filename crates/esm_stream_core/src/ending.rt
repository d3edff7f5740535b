// Owes the end of a lane's call, and then the entries that it requires.
ghost use Rattle.std.specs.Prelude.{◌≡◌, ◌+◌, ◌≤◌, ◌∷◌, [], true, length, map, OnOk, OnErr, IfSome, vec_len};
ghost use Rattle.esm_model.specs.declared.entry.Entry.{Entry};
ghost use Rattle.esm_model.specs.Tries.{verdict_after};
ghost use Rattle.esm_outcome.specs.Dues.{due_entry};
ghost use Rattle.esm_outcome.specs.Ending.{MaySettle};
ghost use Rattle.esm_ledger.specs.Ledger.{HasRoom, Keeps};
ghost use Rattle.esm_outcome.specs.Preparing.{IsPrepared, PreparesEnd, AreOfWindow};
ghost use Rattle.esm_stream_core.specs.Acts.{AllNameOpen};
ghost use Rattle.esm_stream_core.specs.Kept.{IsSame};
ghost use Rattle.esm_stream_core.specs.Standing.{is_whole};
ghost use Rattle.esm_stream_core.specs.CoreView.{lines_of, LegalAhead, SettledAhead, owing, forgotten};

use crate::owed::{Act, Owed};
use crate::payload::{dues_owed, next_may_be_written};
use crate::stream_core::StreamCore;
use esm_ledger::Ledger;
use esm_model::{LaneId, OutOfMemory, Reply};
use esm_outcome::Outcome;
use std::alloc::Global;
use std::mem;

/// Prepares memory for the end of a call, for `dues` entries that it requires, and for the state and a try of the window, if
/// there is one. After `OutOfMemory` nothing has changed that contracts see.
fn prepare_end(
    ledger: &mut Ledger,
    lane: LaneId,
    dues: usize,
    window: Option<u64>,
) -> Result<(), OutOfMemory>
    requires kept { Keeps ledger.old }
    requires few { dues ≤ 2 }
    ensures same { IsSame ledger.old ledger.new }
    ensures room { OnOk result (HasRoom ledger.new (dues + 1)) }
    ensures window { OnOk result (IfSome window (IsPrepared ledger.new lane.shard)) }
{
    ledger.prepare_entries(dues + 1)?;
    if let Some(window) = window {
        ledger.prepare_window(lane.shard, window)?;
    }
    Ok(())
}

impl StreamCore {
    /// Owes the end of the lane's call, and then what it requires, in its order. After `OutOfMemory` nothing has changed.
    pub(crate) fn owe_end(
        &mut self,
        alloc: Global,
        lane: LaneId,
        reply: Reply,
        outcome: Outcome,
        moment: u64,
    ) -> Result<(), OutOfMemory>
        requires settled { self.old.owed ≡ [] }
        requires whole { is_whole self.old.standing ≡ true }
        requires verdict { outcome.verdict ≡ verdict_after self.old.setting self.old.past lane reply }
        requires few { vec_len outcome.dues ≤ 2 }
        requires may { MaySettle self.old.setting self.old.past (Entry.Ended lane reply moment ∷ map (due_entry lane moment) outcome.dues.items) }
        requires open { AllNameOpen self.old.setting self.old.past (map (due_entry lane moment) outcome.dues.items) }
        requires lines { length (lines_of (map (due_entry lane moment) outcome.dues.items)) ≤ 1 }
        requires prepared { PreparesEnd self.old.past lane outcome.window }
        requires states { AreOfWindow outcome.window outcome.dues.items }
        ensures owes { OnOk result (self.new ≡ owing self.old [] (Entry.Ended lane reply moment ∷ map (due_entry lane moment) outcome.dues.items)) }
        ensures undone { OnOk result (forgotten self.new ≡ self.old) }
        ensures legal { OnOk result (LegalAhead self.new) }
        ensures settled { OnOk result (SettledAhead self.new) }
        ensures unchanged { OnErr result (self.new ≡ self.old) }
    {
        let Outcome {
            verdict,
            dues,
            given: _,
            window,
        } = outcome;
        prepare_end(&mut self.ledger, lane, dues.len(), window)?;
        next_may_be_written();
        let mut owed = dues_owed(alloc, &self.ledger, lane, dues, moment)?;
        let act = Act::Ended {
            lane,
            reply,
            verdict,
            moment,
        };
        owed.push(Owed { act, payload: None })?;
        let _ = mem::replace(&mut self.owed, owed);
        Ok(())
    }
}
