// Owes the start of a call of the function, with the memory for its end, or the expiry of records.
ghost use Rattle.std.specs.Prelude.{◌≡◌, ◌<◌, ◌∷◌, [], Some, None, true, OnOk, OnErr};
ghost use Rattle.esm_model.specs.declared.entry.Entry.{Entry};
ghost use Rattle.esm_model.specs.declared.entry.Fate.{Fate};
ghost use Rattle.esm_ledger.specs.Ledger.{HasRoom, HasSplits, Keeps};
ghost use Rattle.esm_outcome.specs.Ending.{MaySettle};
ghost use Rattle.esm_stream_core.specs.Kept.{IsSame};
ghost use Rattle.esm_stream_core.specs.Standing.{is_whole};
ghost use Rattle.esm_stream_core.specs.CoreView.{LegalAhead, SettledAhead, owing, forgotten};

use crate::owed::{Act, Owed};
use crate::payload::{expired, next_may_be_written};
use crate::stream_core::StreamCore;
use esm_ledger::Ledger;
use esm_model::{LaneId, OutOfMemory, Places, Text};
use std::alloc::Global;

/// Prepares memory for a call that begins, and for its end. After `OutOfMemory` nothing has changed that contracts see.
fn prepare_call(ledger: &mut Ledger, alloc: Global, lane: LaneId) -> Result<(), OutOfMemory>
    requires kept { Keeps ledger.old }
    requires known { lane.lane < ledger.old.config.factor }
    ensures same { IsSame ledger.old ledger.new }
    ensures splits { OnOk result (HasSplits ledger.new lane) }
    ensures room { OnOk result (HasRoom ledger.new 2) }
{
    ledger.prepare_entries(2)?;
    ledger.prepare_call(alloc, lane)?;
    Ok(())
}

impl StreamCore {
    /// Owes a call of the function: of these places, or a final call of the window `closing` with none. Takes the memory for
    /// its end too. After `OutOfMemory` nothing has changed.
    pub(crate) fn owe_call(
        &mut self,
        alloc: Global,
        lane: LaneId,
        places: Places,
        closing: Option<u64>,
        moment: u64,
    ) -> Result<(), OutOfMemory>
        requires settled { self.old.owed ≡ [] }
        requires whole { is_whole self.old.standing ≡ true }
        requires may { MaySettle self.old.setting self.old.past (Entry.Began lane places closing moment ∷ []) }
        ensures owes { OnOk result (self.new ≡ owing self.old [] (Entry.Began lane places closing moment ∷ [])) }
        ensures undone { OnOk result (forgotten self.new ≡ self.old) }
        ensures legal { OnOk result (LegalAhead self.new) }
        ensures settled { OnOk result (SettledAhead self.new) }
        ensures unchanged { OnErr result (self.new ≡ self.old) }
    {
        prepare_call(&mut self.ledger, alloc, lane)?;
        let act = Act::Began {
            lane,
            places,
            closing,
            moment,
        };
        self.owed.push(Owed { act, payload: None })?;
        Ok(())
    }

    /// Owes the expiry of records of the lane, with the line for the failure destination, if one is set. After `OutOfMemory`
    /// nothing has changed.
    pub(crate) fn owe_expiry(
        &mut self,
        alloc: Global,
        lane: LaneId,
        places: Places,
        line: Option<Text>,
        moment: u64,
    ) -> Result<(), OutOfMemory>
        requires settled { self.old.owed ≡ [] }
        requires whole { is_whole self.old.standing ≡ true }
        requires known { lane.lane < self.old.setting.config.factor }
        requires may { MaySettle self.old.setting self.old.past (Entry.Gave (Some lane) lane.shard places Fate.Expired line None moment ∷ []) }
        ensures owes { OnOk result (self.new ≡ owing self.old [] (Entry.Gave (Some lane) lane.shard places Fate.Expired line None moment ∷ [])) }
        ensures undone { OnOk result (forgotten self.new ≡ self.old) }
        ensures legal { OnOk result (LegalAhead self.new) }
        ensures settled { OnOk result (SettledAhead self.new) }
        ensures unchanged { OnErr result (self.new ≡ self.old) }
    {
        self.ledger.prepare_entries(1)?;
        next_may_be_written();
        let owed = expired(alloc, &self.ledger, lane, places, line, moment)?;
        self.owed.push(owed)?;
        Ok(())
    }
}
