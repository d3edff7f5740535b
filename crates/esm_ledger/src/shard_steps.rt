//! What one entry does to the windows and the lanes of a shard.
ghost use Rattle.std.specs.Prelude.{◌≡◌, ℕ, ◌+◌, ◌-◌, ◌<◌, ◌≤◌, ◌&&◌, true, Some, length, if◌then◌else◌, IfSome, IfNone};
ghost use Rattle.std.specs.List.{All};
ghost use Rattle.esm_model.specs.Entries.{holds};
ghost use Rattle.esm_model.specs.Ruling.{capped_tries, is_counted};
ghost use Rattle.esm_model.specs.Tries.{is_closed_by};
ghost use Rattle.esm_lanes.specs.Piece.{open_places};
ghost use Rattle.esm_shard_index.specs.LaneView.{lane_in};
ghost use Rattle.esm_shard_index.specs.WindowEntries.{has_entry};
ghost use Rattle.esm_shard_index.specs.Windows.{open_in, state_in, tries_in, times};
ghost use Rattle.esm_model.specs.Windows.{text_for};
ghost use Rattle.esm_ledger.specs.Shard.{closing_in, windows_at};
ghost use Rattle.esm_ledger.specs.Arriving.{IsWithin, landing_count, landed, land_in};

use crate::arriving::Landing;
use crate::measure::Measure;
use esm_model::{Rest, WindowState};
use esm_shard_index::{LaneTable, Running, Windows};
use std::alloc::Global;

/// Counts a failed try for the window that the call closes, if it closes one and the ruling counts a try.
pub fn count_try(windows: &mut Windows, running: Option<Running>, rest: Rest)
    requires { IfSome (closing_in running) (λ w. has_entry windows.old.tries w ≡ true) }
    ensures tries { (w : ℕ) → tries_in windows.new w
        ≡ (if is_closed_by (closing_in running) w && is_counted rest then capped_tries (tries_in windows.old w + 1) else tries_in windows.old w) }
    ensures opened { windows.new.opened ≡ windows.old.opened }
    ensures states { windows.new.states ≡ windows.old.states }
    ensures last { windows.new.last ≡ windows.old.last }
{
    let Some(running) = running else {
        return;
    };
    let Some(window) = running.closing else {
        return;
    };
    if let Rest::Counted = rest {
        windows.tried(window);
    }
}

/// Counts the records at the places as open no more in their windows.
pub fn leave_windows(windows: &mut Windows, measures: &[Measure], places: &[u32])
    requires { (i : ℕ) → holds places.now i ≡ true → i < length measures.now }
    ensures opened { (w : ℕ) → open_in windows.new w ≡ open_in windows.old w - times (windows_at measures.now places.now) w }
    ensures tries { windows.new.tries ≡ windows.old.tries }
    ensures states { windows.new.states ≡ windows.old.states }
    ensures last { windows.new.last ≡ windows.old.last }
{
    for place in places {
        let window = measures[*place as usize].window;
        windows.fated(&[window]);
    }
}

/// Sets the state of its window, if there is one.
pub fn take_state(windows: &mut Windows, state: Option<WindowState>)
    requires { IfSome state (λ x. has_entry windows.old.states x.window ≡ true) }
    ensures states { (w : ℕ) → state_in windows.new w ≡ text_for w (state_in windows.old w) state }
    ensures none { IfNone state (windows.new.states ≡ windows.old.states) }
    ensures opened { windows.new.opened ≡ windows.old.opened }
    ensures tries { windows.new.tries ≡ windows.old.tries }
    ensures last { windows.new.last ≡ windows.old.last }
{
    if let Some(state) = state {
        windows.state_given(state.window, state.text);
    }
}

/// Adds the records from the place `first` on to their lanes.
pub fn land(lanes: &mut LaneTable, alloc: Global, first: u32, landings: &[Option<Landing>])
    requires within { All (IsWithin (length lanes.old.lanes)) landings.now }
    requires room { (k : ℕ) → k < length lanes.old.lanes → landing_count k landings.now ≤ (lane_in lanes.old k).kept.adds }
    requires few { (k : ℕ) → k < length lanes.old.lanes → length (open_places (lane_in lanes.old k).kept.pieces) + length landings.now ≤ u32.MAX }
    requires short { first + length landings.now ≤ u32.MAX }
    ensures lane { (k : ℕ) → lane_in lanes.new k ≡ landed k first landings.now (lane_in lanes.old k) }
    ensures lanes { length lanes.new.lanes ≡ length lanes.old.lanes }
{
    let mut place = first;
    for landing in landings {
        land_one(lanes, alloc, place, *landing);
        place += 1;
    }
}

fn land_one(lanes: &mut LaneTable, alloc: Global, place: u32, landing: Option<Landing>)
    requires within { IsWithin (length lanes.old.lanes) landing }
    requires room { IfSome landing (λ l. 1 ≤ (lane_in lanes.old l.lane).kept.adds) }
    requires few { IfSome landing (λ l. length (open_places (lane_in lanes.old l.lane).kept.pieces) < u32.MAX) }
    ensures lane { (k : ℕ) → lane_in lanes.new k ≡ land_in k place landing (lane_in lanes.old k) }
    ensures lanes { length lanes.new.lanes ≡ length lanes.old.lanes }
{
    if let Some(landing) = landing {
        lanes.add(alloc, landing.lane, place, landing.tries);
    }
}
