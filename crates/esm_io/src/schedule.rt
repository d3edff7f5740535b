// The schedule of a device in memory: which calls are to fail, and the counts of calls and faults.
ghost use Rattle.std.specs.Prelude.{◌≡◌, IsTrue};
ghost use Rattle.esm_io.specs.Faults.{IsCount, Rose};
ghost use Rattle.esm_io.specs.Schedule.{is_due, after_call, after_fault};

use std::marker::Model;

/// Which calls of a form in memory are to fail, by their numbers from 0; and its counts of calls and faults.
#[derive(Drop, Debug)]
pub struct Schedule {
    fails: Vec<u64>,
    calls: u64,
    faults: u64,
}

impl Model for Schedule {
    ghost use Rattle.esm_io.specs.Schedule.{ScheduleState};

    ghost Value = { ScheduleState };

    ghost view = { λ s. record { fails = s.fails.items; calls = s.calls; faults = s.faults } };
}

impl Schedule {
    pub fn new(fails: Vec<u64>) -> Self
        ensures { result ≡ record { fails = fails.items; calls = 0; faults = 0 } }
    {
        Schedule {
            fails,
            calls: 0,
            faults: 0,
        }
    }

    /// The number of calls so far.
    pub fn calls(&self) -> u64
        ensures { result ≡ self.now.calls }
    {
        self.calls
    }

    /// Counts a call, and returns whether it is to fail; if so, it counts a fault too.
    pub fn fails_now(&mut self) -> bool
        ensures due { result ≡ is_due self.old }
        ensures counted { self.new ≡ after_call self.old }
        ensures count { IsCount self.old.faults self.new.faults }
        ensures cause { IsTrue result → Rose self.old.faults self.new.faults }
    {
        let fails = self.fails.as_slice().contains(&self.calls);
        let faults = self.faults;
        self.calls = self.calls.saturating_add(1);
        self.faults = if fails {
            faults.saturating_add(1)
        } else {
            faults
        };
        fails
    }

    /// Counts the fault of a call that ran out of memory.
    pub fn fault(&mut self)
        ensures counted { self.new ≡ after_fault self.old }
        ensures count { IsCount self.old.faults self.new.faults }
        ensures cause { Rose self.old.faults self.new.faults }
    {
        self.faults = self.faults.saturating_add(1);
    }
}
