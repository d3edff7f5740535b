// The tumbling windows of a shard: open records, state and failed final calls of each.
ghost use Rattle.std.specs.Prelude.{◌≡◌, ℕ, ◌+◌, ◌-◌, ◌<◌, ◌≤◌, ◌==◌, true, false, length, if◌then◌else◌, option_copied, Some, None, OnOk, OnErr};
ghost use Rattle.std.specs.BTreeMap.{IsOrdered};
ghost use Rattle.std.specs.Ordering.{nat_cmp};
ghost use Rattle.esm_model.specs.Entries.{holds};
ghost use Rattle.esm_model.specs.Ruling.{capped_tries};
ghost use Rattle.esm_shard_index.specs.WindowEntries.{count_at, has_entry, text_at};
ghost use Rattle.esm_shard_index.specs.Windows.{open_in, state_in, tries_in, times, due_from, some_text, IsLeastDue, HasState};

use crate::window_counts::WindowCounts;
use esm_model::{Bytes, MAX_TRIES, OutOfMemory};
use std::alloc::Global;
use std::collections::BTreeMap;
use std::marker::Model;

/// The tumbling windows of a shard, each named by its start in milliseconds: the open records of each, its state, and
/// the failed tries of its final call. What was prepared takes no memory.
#[derive(Drop, Debug)]
pub struct Windows {
    opened: WindowCounts,
    tries: WindowCounts,
    states: BTreeMap<u64, Option<Bytes>>,
    last: u64,
}

impl Model for Windows {
    ghost use Rattle.esm_shard_index.specs.Windows.{WindowTable};

    ghost Value = { WindowTable };

    ghost view = { λ w. record { opened = w.opened; tries = w.tries; states = w.states.entries; last = w.last } };
}

impl Windows {
    /// No record came, and nothing was found.
    pub fn new(alloc: Global) -> Self
        ensures opened { (w : ℕ) → open_in result w ≡ 0 }
        ensures states { (w : ℕ) → state_in result w ≡ None }
        ensures tries { (w : ℕ) → tries_in result w ≡ 0 }
        ensures last { result.last ≡ 0 }
    {
        Windows {
            opened: WindowCounts::new(alloc),
            tries: WindowCounts::new(alloc),
            states: BTreeMap::new(alloc),
            last: 0,
        }
    }

    /// The journal had this state of the window at opening.
    pub fn found_state(&mut self, window: u64, text: Bytes) -> Result<(), OutOfMemory>
        ensures ok { OnOk result ((w : ℕ) → state_in self.new w ≡ (if window == w then Some text else state_in self.old w)) }
        ensures err { OnErr result ((w : ℕ) → state_in self.new w ≡ state_in self.old w) }
        ensures opened { self.new.opened ≡ self.old.opened }
        ensures tries { self.new.tries ≡ self.old.tries }
        ensures last { self.new.last ≡ self.old.last }
    {
        self.states.insert(window, Some(text))?;
        Ok(())
    }

    /// The journal had `tries` failed tries of the window's final call at opening.
    pub fn found_tries(&mut self, window: u64, tries: u32) -> Result<(), OutOfMemory>
        ensures ok { OnOk result ((w : ℕ) → tries_in self.new w ≡ (if window == w then tries else tries_in self.old w)) }
        ensures err { OnErr result ((w : ℕ) → tries_in self.new w ≡ tries_in self.old w) }
        ensures opened { self.new.opened ≡ self.old.opened }
        ensures states { self.new.states ≡ self.old.states }
        ensures last { self.new.last ≡ self.old.last }
    {
        self.tries.prepare_one(window)?;
        self.tries.put(window, tries);
        Ok(())
    }

    /// Prepares memory for records of these windows; what is kept of windows stays.
    pub fn prepare_open(&mut self, windows: &[u64]) -> Result<(), OutOfMemory>
        ensures opened { (w : ℕ) → open_in self.new w ≡ open_in self.old w }
        ensures entries { (w : ℕ) → has_entry self.old.opened w ≡ true → has_entry self.new.opened w ≡ true }
        ensures ok { OnOk result ((w : ℕ) → holds windows.now w ≡ true → has_entry self.new.opened w ≡ true) }
        ensures states { self.new.states ≡ self.old.states }
        ensures tries { self.new.tries ≡ self.old.tries }
        ensures last { self.new.last ≡ self.old.last }
    {
        self.opened.prepare(windows)
    }

    /// Prepares memory for a state of this window, and for a failed try of its final call; what is kept of windows stays.
    pub fn prepare_window(&mut self, window: u64) -> Result<(), OutOfMemory>
        ensures states { (w : ℕ) → state_in self.new w ≡ state_in self.old w }
        ensures tries { (w : ℕ) → tries_in self.new w ≡ tries_in self.old w }
        ensures state_ok { OnOk result (has_entry self.new.states window ≡ true) }
        ensures tries_ok { OnOk result (has_entry self.new.tries window ≡ true) }
        ensures opened { self.new.opened ≡ self.old.opened }
        ensures last { self.new.last ≡ self.old.last }
    {
        self.tries.prepare_one(window)?;
        prepare_state(&mut self.states, window)
    }

    /// Records came: these are the windows of those that are open, one for each, and `last` is that of the last record.
    pub fn came(&mut self, windows: &[u64], last: u64)
        requires prepared { (w : ℕ) → holds windows.now w ≡ true → has_entry self.old.opened w ≡ true }
        requires few { (w : ℕ) → open_in self.old w + length windows.now ≤ u32.MAX }
        ensures opened { (w : ℕ) → open_in self.new w ≡ open_in self.old w + times windows.now w }
        ensures last { self.new.last ≡ last }
        ensures states { self.new.states ≡ self.old.states }
        ensures tries { self.new.tries ≡ self.old.tries }
    {
        for window in windows {
            self.came_one(*window);
        }
        self.last = last;
    }

    fn came_one(&mut self, window: u64)
        requires prepared { has_entry self.old.opened window ≡ true }
        requires few { open_in self.old window < u32.MAX }
        ensures opened { (w : ℕ) → open_in self.new w ≡ (if window == w then open_in self.old w + 1 else open_in self.old w) }
        ensures entries { (w : ℕ) → has_entry self.old.opened w ≡ true → has_entry self.new.opened w ≡ true }
        ensures last { self.new.last ≡ self.old.last }
        ensures states { self.new.states ≡ self.old.states }
        ensures tries { self.new.tries ≡ self.old.tries }
    {
        let count = self.opened.of(window);
        self.opened.put(window, count + 1);
    }

    /// Records got a fate: these are their windows, one for each. A window that has no open record left takes no memory.
    pub fn fated(&mut self, windows: &[u64])
        ensures opened { (w : ℕ) → open_in self.new w ≡ open_in self.old w - times windows.now w }
        ensures last { self.new.last ≡ self.old.last }
        ensures states { self.new.states ≡ self.old.states }
        ensures tries { self.new.tries ≡ self.old.tries }
    {
        for window in windows {
            self.fated_one(*window);
        }
    }

    fn fated_one(&mut self, window: u64)
        ensures opened { (w : ℕ) → open_in self.new w ≡ (if window == w then open_in self.old w - 1 else open_in self.old w) }
        ensures last { self.new.last ≡ self.old.last }
        ensures states { self.new.states ≡ self.old.states }
        ensures tries { self.new.tries ≡ self.old.tries }
    {
        lower(&mut self.opened, window);
    }

    /// The window, which was prepared, has this state now.
    pub fn state_given(&mut self, window: u64, text: Bytes)
        requires { has_entry self.old.states window ≡ true }
        ensures states { (w : ℕ) → state_in self.new w ≡ (if window == w then Some text else state_in self.old w) }
        ensures opened { self.new.opened ≡ self.old.opened }
        ensures tries { self.new.tries ≡ self.old.tries }
        ensures last { self.new.last ≡ self.old.last }
    {
        let _ = self.states.insert(window, Some(text));
    }

    /// One more failed try of the window's final call counts, up to `MAX_TRIES`.
    pub fn tried(&mut self, window: u64)
        requires { has_entry self.old.tries window ≡ true }
        ensures tries { (w : ℕ) → tries_in self.new w ≡ (if window == w then capped_tries (tries_in self.old w + 1) else tries_in self.old w) }
        ensures opened { self.new.opened ≡ self.old.opened }
        ensures states { self.new.states ≡ self.old.states }
        ensures last { self.new.last ≡ self.old.last }
    {
        let tries = one_more_try(self.tries.of(window));
        self.tries.put(window, tries);
    }

    /// The window was closed: its state and its tries are gone, and their memory with them.
    pub fn closed(&mut self, window: u64)
        ensures states { (w : ℕ) → state_in self.new w ≡ (if window == w then None else state_in self.old w) }
        ensures tries { (w : ℕ) → tries_in self.new w ≡ (if window == w then 0 else tries_in self.old w) }
        ensures opened { self.new.opened ≡ self.old.opened }
        ensures last { self.new.last ≡ self.old.last }
    {
        self.tries.remove(window);
        let _ = self.states.remove(&window);
    }

    /// The JSON text of the window's state, if it has one.
    pub fn state(&self, window: u64) -> Option<&Bytes>
        ensures { option_copied result ≡ state_in self.now window }
    {
        match self.states.get(&window) {
            Some(state) => state.as_ref(),
            None => None,
        }
    }

    /// The number of failed tries of the window's final call.
    pub fn tries(&self, window: u64) -> u32
        ensures { result ≡ tries_in self.now window }
    {
        self.tries.of(window)
    }

    /// Whether a window has a state.
    pub fn has_outstanding(&self) -> bool
        ensures some { result ≡ true → HasState self.now }
        ensures none { result ≡ false → (w : ℕ) → state_in self.now w ≡ None }
    {
        has_state(&self.states)
    }

    /// The least window that is due: it has a state, none of its records is open, and a record of a later window came or
    /// the book is shut.
    pub fn least_due(&self, shut: bool) -> Option<u64>
        ensures { IsLeastDue self.now shut result }
    {
        first_due(&self.states, &self.opened, self.last, shut)
    }
}

/// Counts one open record less, if there is one; a window that has none left loses its entry.
fn lower(counts: &mut WindowCounts, window: u64)
    ensures { (w : ℕ) → count_at counts.new w ≡ (if window == w then count_at counts.old w - 1 else count_at counts.old w) }
{
    let count = counts.of(window);
    if count <= 1 {
        counts.remove(window);
    } else {
        counts.put(window, count - 1);
    }
}

/// Makes an entry for the window; no state changes.
fn prepare_state(states: &mut BTreeMap<u64, Option<Bytes>>, window: u64) -> Result<(), OutOfMemory>
    ensures states { (w : ℕ) → text_at states.new.entries w ≡ text_at states.old.entries w }
    ensures ok { OnOk result (has_entry states.new.entries window ≡ true) }
{
    if states.contains_key(&window) {
        return Ok(());
    }
    states.insert(window, None)?;
    Ok(())
}

fn one_more_try(tries: u32) -> u32
    ensures { result ≡ capped_tries (tries + 1) }
{
    if tries < MAX_TRIES {
        tries + 1
    } else {
        MAX_TRIES
    }
}

fn has_state(states: &BTreeMap<u64, Option<Bytes>>) -> bool
    ensures some { result ≡ some_text states.now.entries }
    ensures ordered { IsOrdered nat_cmp states.now }
{
    for (_window, state) in states.iter() {
        if state.is_some() {
            return true;
        }
    }
    false
}

/// The first window that is due. Unless the book is shut, neither the last record's window is, nor any after it.
fn first_due(
    states: &BTreeMap<u64, Option<Bytes>>,
    opened: &WindowCounts,
    last: u64,
    shut: bool,
) -> Option<u64>
    ensures due { result ≡ due_from opened.now last shut states.now.entries }
    ensures ordered { IsOrdered nat_cmp states.now }
{
    for (window, state) in states.iter() {
        if state.is_none() {
            continue;
        }
        if !shut && *window >= last {
            return None;
        }
        if opened.of(*window) == 0 {
            return Some(*window);
        }
    }
    None
}
