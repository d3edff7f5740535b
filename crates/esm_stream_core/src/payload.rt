//! The payloads of owed entries.
ghost use Rattle.std.specs.Prelude.{◌≡◌, ◌++◌, List, Some, None, length, map, reverse, option_copied, IfOk, OnOk};
ghost use Rattle.esm_model.specs.Records.{Record};
ghost use Rattle.esm_model.specs.declared.entry.Fate.{Fate};
ghost use Rattle.esm_model.specs.declared.entry.Entry.{Entry};
ghost use Rattle.esm_model.specs.Setting.{Setting, sequences_at};
ghost use Rattle.esm_model.specs.Valid.{IsStreamConfig};
ghost use Rattle.esm_journal_record.specs.declared.said.Said.{Said};
ghost use Rattle.esm_journal_record.specs.EntryPayload.{entry_payload};
ghost use Rattle.esm_journal_record.specs.Payload.{IsSaid, name_bytes, names_bytes};
ghost use Rattle.esm_ledger.specs.Ledger.{past_of, setting_of, Keeps};
ghost use Rattle.esm_ledger.specs.Reading.{AreOpen};
ghost use Rattle.esm_outcome.specs.Dues.{due_entry};
ghost use Rattle.esm_record_bounds.specs.Bounds.{AreWithinBounds};
ghost use Rattle.esm_stream_core.specs.declared.owed.Act.{Act};
ghost use Rattle.esm_stream_core.specs.Acts.{IsWritten, IsPayloadOf, IsWritable, AreWritable, NamesOpen, AllNameOpen, AreNext, AreDue, due_act};

use crate::owed::{Act, Owed};
use esm_journal_record::{Said, begin_fates, begin_tried, push_sequence, said_bytes};
use esm_ledger::Ledger;
use esm_model::{Bytes, Fate, LaneId, OutOfMemory, Places, Record, Text, WindowState};
use esm_outcome::Due;
use esm_record_bounds::laws::{legal_may_be_said, lines_within, payload_within};
use std::alloc::Global;

/// Entries that may follow a history may be written, over lists within the bounds of a stream.
pub(crate) fn next_may_be_written()
    ensures { (s : Setting) (h es : List Entry) → AreWithinBounds s → IsStreamConfig s.config → AreNext s h es → AreWritable s es }
{
    legal_may_be_said();
    payload_within();
    lines_within();
}

/// Appends the record's place and sequence number, if there is one.
fn push_name(out: &mut Vec<u8>, place: u32, found: Option<&Record>) -> Result<(), OutOfMemory>
    ensures { (r : Record) → option_copied found.entry ≡ Some r → OnOk result (out.new.items ≡ out.old.items ++ name_bytes place r.seq) }
{
    match found {
        None => Ok(()),
        Some(record) => push_sequence(out, place, record),
    }
}

/// Appends each place of the shard with the sequence number of its record, in order.
fn push_names(
    out: &mut Vec<u8>,
    ledger: &Ledger,
    shard: u64,
    places: &[u32],
) -> Result<(), OutOfMemory>
    requires kept { Keeps ledger.now }
    requires open { AreOpen (setting_of ledger.now) (past_of ledger.now) shard places.now }
    requires stand { length (sequences_at (setting_of ledger.now) shard places.now) ≡ length places.now }
    ensures { OnOk result (out.new.items ≡ out.old.items ++ names_bytes places.now (sequences_at (setting_of ledger.now) shard places.now)) }
{
    for place in places {
        push_name(out, *place, ledger.record(shard, *place))?;
    }
    Ok(())
}

/// The act, with its payload.
fn owed_with(act: Act, payload: Vec<u8>) -> Owed
    ensures act { result.act ≡ act }
    ensures payload { result.payload ≡ Some payload.items }
{
    Owed {
        act,
        payload: Some(Bytes::from_vec(payload)),
    }
}

/// The payload of records of the shard that get a fate.
fn fates_payload(
    alloc: Global,
    ledger: &Ledger,
    shard: u64,
    places: &Places,
    fate: Fate,
    state: &Option<WindowState>,
    moment: u64,
) -> Result<Vec<u8>, OutOfMemory>
    requires kept { Keeps ledger.now }
    requires open { AreOpen (setting_of ledger.now) (past_of ledger.now) shard places.now }
    requires said { IsSaid (Said.Fates shard fate moment state.now places.now (sequences_at (setting_of ledger.now) shard places.now)) }
    ensures { IfOk result (IsPayloadOf (Said.Fates shard fate moment state.now places.now (sequences_at (setting_of ledger.now) shard places.now))) }
{
    let places = places.as_slice();
    let mut out = begin_fates(alloc, shard, fate, moment, state, places.len() as u32)?;
    push_names(&mut out, ledger, shard, places)?;
    Ok(out)
}

/// The owed entry by which records of the lane expire.
pub(crate) fn expired(
    alloc: Global,
    ledger: &Ledger,
    lane: LaneId,
    places: Places,
    line: Option<Text>,
    moment: u64,
) -> Result<Owed, OutOfMemory>
    requires kept { Keeps ledger.now }
    requires open { AreOpen (setting_of ledger.now) (past_of ledger.now) lane.shard places }
    requires writable { IsWritable (setting_of ledger.now) (Entry.Gave (Some lane) lane.shard places Fate.Expired line None moment) }
    ensures act { IfOk result (λ owed. owed.act ≡ Act.Expired lane places line moment) }
    ensures written { IfOk result (IsWritten (setting_of ledger.now)) }
{
    let (fate, state) = (Fate::Expired, None);
    let payload = fates_payload(alloc, ledger, lane.shard, &places, fate, &state, moment)?;
    let act = Act::Expired {
        lane,
        places,
        line,
        moment,
    };
    Ok(owed_with(act, payload))
}

/// A copy of the state, if there is one.
fn state_copy(
    alloc: Global,
    state: &Option<WindowState>,
) -> Result<Option<WindowState>, OutOfMemory>
    ensures { IfOk result (λ copy. copy ≡ state.now) }
{
    match state {
        None => Ok(None),
        Some(state) => Ok(Some(WindowState {
            window: state.window,
            text: state.text.copy(alloc)?,
        })),
    }
}

/// The owed entry by which records get a fate at the end of the lane's call.
fn given(
    alloc: Global,
    ledger: &Ledger,
    lane: LaneId,
    places: Places,
    fate: Fate,
    line: Option<Text>,
    state: Option<WindowState>,
    moment: u64,
) -> Result<Owed, OutOfMemory>
    requires kept { Keeps ledger.now }
    requires open { AreOpen (setting_of ledger.now) (past_of ledger.now) lane.shard places }
    requires writable { IsWritable (setting_of ledger.now) (Entry.Gave (Some lane) lane.shard places fate line state moment) }
    ensures act { IfOk result (λ owed. owed.act ≡ Act.Gave (Some lane) lane.shard places fate line state state moment) }
    ensures written { IfOk result (IsWritten (setting_of ledger.now)) }
{
    let payload = fates_payload(alloc, ledger, lane.shard, &places, fate, &state, moment)?;
    let copy = state_copy(alloc, &state)?;
    let act = Act::Gave {
        by: Some(lane),
        shard: lane.shard,
        places,
        fate,
        line,
        state,
        copy,
        moment,
    };
    Ok(owed_with(act, payload))
}

/// The payload of a counted try of the shard's records.
fn records_tried(
    alloc: Global,
    ledger: &Ledger,
    shard: u64,
    places: &Places,
    tries: u32,
    moment: u64,
) -> Result<Vec<u8>, OutOfMemory>
    requires kept { Keeps ledger.now }
    requires open { AreOpen (setting_of ledger.now) (past_of ledger.now) shard places.now }
    requires said { IsSaid (Said.Tried shard moment tries places.now (sequences_at (setting_of ledger.now) shard places.now)) }
    ensures { IfOk result (IsPayloadOf (Said.Tried shard moment tries places.now (sequences_at (setting_of ledger.now) shard places.now))) }
{
    let places = places.as_slice();
    let mut out = begin_tried(alloc, shard, moment, tries, places.len() as u32)?;
    push_names(&mut out, ledger, shard, places)?;
    Ok(out)
}

/// The payload of a counted try, of the lane's records or of a window's final call.
fn tried_payload(
    alloc: Global,
    ledger: &Ledger,
    lane: LaneId,
    places: &Places,
    closing: Option<u64>,
    tries: u32,
    moment: u64,
) -> Result<Vec<u8>, OutOfMemory>
    requires kept { Keeps ledger.now }
    requires open { AreOpen (setting_of ledger.now) (past_of ledger.now) lane.shard places.now }
    requires writable { IsWritable (setting_of ledger.now) (Entry.Tried lane places.now closing tries moment) }
    ensures { IfOk result (λ out. entry_payload (setting_of ledger.now) (Entry.Tried lane places.now closing tries moment) ≡ Some out.items) }
{
    match closing {
        None => records_tried(alloc, ledger, lane.shard, places, tries, moment),
        Some(window) => {
            let said = Said::WindowTried {
                shard: lane.shard,
                window,
                moment,
                tries,
            };
            said_bytes(alloc, &said)
        }
    }
}

/// The owed entry of a counted try, of records or of a window's final call.
fn tried(
    alloc: Global,
    ledger: &Ledger,
    lane: LaneId,
    places: Places,
    closing: Option<u64>,
    tries: u32,
    moment: u64,
) -> Result<Owed, OutOfMemory>
    requires kept { Keeps ledger.now }
    requires open { AreOpen (setting_of ledger.now) (past_of ledger.now) lane.shard places }
    requires writable { IsWritable (setting_of ledger.now) (Entry.Tried lane places closing tries moment) }
    ensures act { IfOk result (λ owed. owed.act ≡ Act.Tried lane places closing tries moment) }
    ensures written { IfOk result (IsWritten (setting_of ledger.now)) }
{
    let payload = tried_payload(alloc, ledger, lane, &places, closing, tries, moment)?;
    let act = Act::Tried {
        lane,
        places,
        closing,
        tries,
        moment,
    };
    Ok(owed_with(act, payload))
}

/// The owed entry by which a window is closed.
fn closed(alloc: Global, lane: LaneId, window: u64, moment: u64) -> Result<Owed, OutOfMemory>
    requires { IsSaid (Said.Closed lane.shard window moment) }
    ensures act { IfOk result (λ owed. owed.act ≡ Act.Closed lane window moment) }
    ensures written { (s : Setting) → IsWritable s (Entry.Closed lane window moment) → IfOk result (IsWritten s) }
{
    let said = Said::Closed {
        shard: lane.shard,
        window,
        moment,
    };
    let payload = said_bytes(alloc, &said)?;
    let act = Act::Closed {
        lane,
        window,
        moment,
    };
    Ok(owed_with(act, payload))
}

/// The owed entry that the end of the lane's call requires, with its payload.
pub(crate) fn due_owed(
    alloc: Global,
    ledger: &Ledger,
    lane: LaneId,
    due: Due,
    moment: u64,
) -> Result<Owed, OutOfMemory>
    requires kept { Keeps ledger.now }
    requires open { NamesOpen (setting_of ledger.now) (past_of ledger.now) (due_entry lane moment due) }
    requires writable { IsWritable (setting_of ledger.now) (due_entry lane moment due) }
    ensures act { IfOk result (λ owed. owed.act ≡ due_act lane moment due) }
    ensures written { IfOk result (IsWritten (setting_of ledger.now)) }
{
    match due {
        Due::Gave {
            places,
            fate,
            line,
            state,
        } => {
            let owed = given(alloc, ledger, lane, places, fate, line, state, moment)?;
            Ok(owed)
        }
        Due::Tried {
            places,
            closing,
            tries,
        } => {
            let owed = tried(alloc, ledger, lane, places, closing, tries, moment)?;
            Ok(owed)
        }
        Due::Closed { window } => {
            let owed = closed(alloc, lane, window, moment)?;
            Ok(owed)
        }
    }
}

/// All that the end of the lane's call requires, the first last.
pub(crate) fn dues_owed(
    alloc: Global,
    ledger: &Ledger,
    lane: LaneId,
    mut dues: Vec<Due>,
    moment: u64,
) -> Result<Vec<Owed>, OutOfMemory>
    requires kept { Keeps ledger.now }
    requires open { AllNameOpen (setting_of ledger.now) (past_of ledger.now) (map (due_entry lane moment) dues.items) }
    requires writable { AreWritable (setting_of ledger.now) (map (due_entry lane moment) dues.items) }
    ensures { IfOk result (λ owed. AreDue (setting_of ledger.now) lane moment dues.items (reverse owed.items)) }
{
    let mut owed = Vec::with_capacity(alloc, dues.len())?;
    while let Some(due) = dues.pop() {
        let one = due_owed(alloc, ledger, lane, due, moment)?;
        owed.push(one)?;
    }
    Ok(owed)
}
