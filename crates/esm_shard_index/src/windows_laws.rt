//! How the kept windows of a shard follow the history. Each law is the contract of a function that does nothing. A history
//! is written newest entry first.
ghost use Rattle.std.specs.Prelude.{ℕ, ◌≡◌, ◌≤◌, true, List};
ghost use Rattle.esm_model.specs.declared.lane.LaneId.{LaneId};
ghost use Rattle.esm_model.specs.declared.entry.Entry.{Entry};
ghost use Rattle.esm_model.specs.Setting.{Setting};
ghost use Rattle.esm_model.specs.Entries.{came_count};
ghost use Rattle.esm_model.specs.Windows.{has_windows};
ghost use Rattle.esm_shard_index.specs.Windows.{WindowTable, IsWindows};
ghost use Rattle.esm_shard_index.specs.WindowsLaws.{WindowsBegin, WindowsCome, WindowsGive, WindowsEnd, WindowsClose, WindowsStay};
ghost use Rattle.esm_shard_index.specs.WindowsLaws.{WindowsTell, WindowsRise, WindowFollows};

/// Before anything came, the windows are as the journal had them.
pub fn windows_begin()
    ensures { (s : Setting) (n : ℕ) (t : WindowTable) → WindowsBegin s n t }
{}

/// Records that come without a fate that was found are open in their windows.
pub fn windows_come()
    ensures { (s : Setting) (h : List Entry) (n : ℕ) (t : WindowTable) → WindowsCome s h n t }
{}

/// Records that get a fate are no longer open, and the state that comes with the fate is that of its window.
pub fn windows_give()
    ensures { (s : Setting) (h : List Entry) (n : ℕ) (t : WindowTable) → WindowsGive s h n t }
{}

/// A final call that ends counts as a failed try if its verdict counts one.
pub fn windows_end()
    ensures { (s : Setting) (h : List Entry) (lane : LaneId) (t : WindowTable) → WindowsEnd s h lane t }
{}

/// A window that is closed has no state and no tries.
pub fn windows_close()
    ensures { (s : Setting) (h : List Entry) (lane : LaneId) (t : WindowTable) → WindowsClose s h lane t }
{}

/// No other entry changes a window.
pub fn windows_stay()
    ensures { (s : Setting) (h : List Entry) (n : ℕ) (t : WindowTable) → WindowsStay s h n t }
{}

/// Of a shard of which records came: which windows are outstanding, and which are due.
pub fn windows_tell()
    ensures { (s : Setting) (h : List Entry) (n : ℕ) (t : WindowTable) → has_windows s.config ≡ true → 1 ≤ came_count h n → IsWindows s h n t →
        WindowsTell s h n t }
{}

/// The windows of a shard's records never go back.
pub fn windows_rise()
    ensures { (s : Setting) (n : ℕ) → WindowsRise s n }
{}

/// The window of a record is the later of that of the record before it and the floor of its arrival.
pub fn window_follows()
    ensures { (s : Setting) (n : ℕ) → WindowFollows s n }
{}
