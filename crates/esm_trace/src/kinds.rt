// The object of each kind of entry, without its closing brace.
ghost use Rattle.std.specs.Prelude.{◌≡◌, ◌++◌, OnOk};
ghost use Rattle.esm_trace.specs.Trace.{call_part, came_part, began_part, ended_part, given_part, told_part, gave_part, tried_part, closed_part, replayed_part};

use crate::members::{
    push_by, push_closing, push_fate, push_head, push_lane, push_line, push_number, push_places,
    push_reply, push_shard, push_state,
};
use esm_model::{Fate, Kind, LaneId, OutOfMemory, Places, Reply, Text, WindowState};

/// Records arrived.
pub(crate) fn push_came(
    out: &mut Vec<u8>,
    kind: Kind,
    shard: u64,
    first: u32,
    count: u32,
    moment: u64,
) -> Result<(), OutOfMemory>
    ensures { OnOk result (out.new.items ≡ out.old.items ++ came_part kind shard first count moment) }
{
    push_head(out, b"came", moment)?;
    push_shard(out, kind, shard)?;
    push_number(out, b",\"first\":", first as u64)?;
    push_number(out, b",\"count\":", count as u64)?;
    Ok(())
}

/// Which entry it is, and of which lane.
fn push_call(
    out: &mut Vec<u8>,
    kind: Kind,
    word: &[u8],
    lane: LaneId,
    moment: u64,
) -> Result<(), OutOfMemory>
    ensures { OnOk result (out.new.items ≡ out.old.items ++ call_part kind word.now lane moment) }
{
    push_head(out, word, moment)?;
    push_shard(out, kind, lane.shard)?;
    push_lane(out, lane.lane)?;
    Ok(())
}

/// A call began.
pub(crate) fn push_began(
    out: &mut Vec<u8>,
    kind: Kind,
    lane: LaneId,
    places: &Places,
    closing: Option<u64>,
    moment: u64,
) -> Result<(), OutOfMemory>
    ensures { OnOk result (out.new.items ≡ out.old.items ++ began_part kind lane places.now closing moment) }
{
    push_call(out, kind, b"began", lane, moment)?;
    push_places(out, places)?;
    push_closing(out, closing)?;
    Ok(())
}

/// The lane's call ended with this reply.
pub(crate) fn push_ended(
    out: &mut Vec<u8>,
    kind: Kind,
    lane: LaneId,
    reply: &Reply,
    moment: u64,
) -> Result<(), OutOfMemory>
    ensures { OnOk result (out.new.items ≡ out.old.items ++ ended_part kind lane reply.now moment) }
{
    push_call(out, kind, b"ended", lane, moment)?;
    push_reply(out, reply)?;
    Ok(())
}

/// Records got their fate.
pub(crate) fn push_gave(
    out: &mut Vec<u8>,
    kind: Kind,
    by: Option<LaneId>,
    shard: u64,
    places: &Places,
    fate: Fate,
    line: &Option<Text>,
    state: &Option<WindowState>,
    moment: u64,
) -> Result<(), OutOfMemory>
    ensures { OnOk result (out.new.items
        ≡ out.old.items ++ gave_part kind by shard places.now fate line.now state.now moment) }
{
    push_given(out, kind, by, shard, places, fate, moment)?;
    push_told(out, line, state)?;
    Ok(())
}

fn push_given(
    out: &mut Vec<u8>,
    kind: Kind,
    by: Option<LaneId>,
    shard: u64,
    places: &Places,
    fate: Fate,
    moment: u64,
) -> Result<(), OutOfMemory>
    ensures { OnOk result (out.new.items ≡ out.old.items ++ given_part kind by shard places.now fate moment) }
{
    push_head(out, b"gave", moment)?;
    push_shard(out, kind, shard)?;
    push_by(out, by)?;
    push_places(out, places)?;
    push_fate(out, fate)?;
    Ok(())
}

/// What a fate comes with: a failure line, and the window's new state.
fn push_told(
    out: &mut Vec<u8>,
    line: &Option<Text>,
    state: &Option<WindowState>,
) -> Result<(), OutOfMemory>
    ensures { OnOk result (out.new.items ≡ out.old.items ++ told_part line.now state.now) }
{
    push_line(out, line)?;
    push_state(out, state)?;
    Ok(())
}

/// A failed try that counts.
pub(crate) fn push_tried(
    out: &mut Vec<u8>,
    kind: Kind,
    lane: LaneId,
    places: &Places,
    closing: Option<u64>,
    tries: u32,
    moment: u64,
) -> Result<(), OutOfMemory>
    ensures { OnOk result (out.new.items ≡ out.old.items ++ tried_part kind lane places.now closing tries moment) }
{
    push_call(out, kind, b"tried", lane, moment)?;
    push_places(out, places)?;
    push_number(out, b",\"tries\":", tries as u64)?;
    push_closing(out, closing)?;
    Ok(())
}

/// A tumbling window, named by its start in milliseconds, was closed.
pub(crate) fn push_closed(
    out: &mut Vec<u8>,
    kind: Kind,
    lane: LaneId,
    window: u64,
    moment: u64,
) -> Result<(), OutOfMemory>
    ensures { OnOk result (out.new.items ≡ out.old.items ++ closed_part kind lane window moment) }
{
    push_call(out, kind, b"closed", lane, moment)?;
    push_number(out, b",\"window\":", window)?;
    Ok(())
}

/// Records that had been given up were called again, with success.
pub(crate) fn push_replayed(
    out: &mut Vec<u8>,
    kind: Kind,
    shard: u64,
    places: &Places,
    moment: u64,
) -> Result<(), OutOfMemory>
    ensures { OnOk result (out.new.items ≡ out.old.items ++ replayed_part kind shard places.now moment) }
{
    push_head(out, b"replayed", moment)?;
    push_shard(out, kind, shard)?;
    push_places(out, places)?;
    Ok(())
}
