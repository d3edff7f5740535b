// A number for each window, in entries that can be prepared.
ghost use Rattle.std.specs.Prelude.{◌≡◌, ℕ, ◌==◌, true, false, [], if◌then◌else◌, OnOk};
ghost use Rattle.esm_model.specs.Entries.{holds};
ghost use Rattle.esm_shard_index.specs.WindowEntries.{count_at, has_entry};

use esm_model::OutOfMemory;
use std::alloc::Global;
use std::collections::BTreeMap;
use std::marker::Model;

/// A number for each window, 0 if none is kept. Putting a number into a prepared entry takes no memory.
#[derive(Drop, Debug)]
pub struct WindowCounts {
    counts: BTreeMap<u64, u32>,
}

impl Model for WindowCounts {
    ghost use Rattle.std.specs.Prelude.{ℕ, List};

    ghost Value = { List (ℕ × ℕ) };

    ghost view = { λ c. c.counts.entries };
}

impl WindowCounts {
    pub fn new(alloc: Global) -> Self
        ensures { result ≡ [] }
    {
        WindowCounts {
            counts: BTreeMap::new(alloc),
        }
    }

    /// Makes an entry for each of the windows; no number changes.
    pub fn prepare(&mut self, windows: &[u64]) -> Result<(), OutOfMemory>
        ensures counts { (w : ℕ) → count_at self.new w ≡ count_at self.old w }
        ensures entries { (w : ℕ) → has_entry self.old w ≡ true → has_entry self.new w ≡ true }
        ensures ok { OnOk result ((w : ℕ) → holds windows.now w ≡ true → has_entry self.new w ≡ true) }
    {
        for window in windows {
            self.prepare_one(*window)?;
        }
        Ok(())
    }

    /// Makes an entry for the window; no number changes.
    pub fn prepare_one(&mut self, window: u64) -> Result<(), OutOfMemory>
        ensures counts { (w : ℕ) → count_at self.new w ≡ count_at self.old w }
        ensures entries { (w : ℕ) → has_entry self.old w ≡ true → has_entry self.new w ≡ true }
        ensures ok { OnOk result (has_entry self.new window ≡ true) }
    {
        let count = self.of(window);
        self.counts.insert(window, count)?;
        Ok(())
    }

    pub fn of(&self, window: u64) -> u32
        ensures { result ≡ count_at self.now window }
    {
        match self.counts.get(&window) {
            Some(count) => *count,
            None => 0,
        }
    }

    /// Keeps the number for the window, which has an entry.
    pub fn put(&mut self, window: u64, count: u32)
        requires { has_entry self.old window ≡ true }
        ensures counts { (w : ℕ) → count_at self.new w ≡ (if window == w then count else count_at self.old w) }
        ensures entries { (w : ℕ) → has_entry self.old w ≡ true → has_entry self.new w ≡ true }
    {
        let _ = self.counts.insert(window, count);
    }

    /// Sets the window's number to 0, and removes its entry.
    pub fn remove(&mut self, window: u64)
        ensures counts { (w : ℕ) → count_at self.new w ≡ (if window == w then 0 else count_at self.old w) }
        ensures entries { (w : ℕ) → (window == w) ≡ false → has_entry self.old w ≡ true → has_entry self.new w ≡ true }
    {
        let _ = self.counts.remove(&window);
    }
}
