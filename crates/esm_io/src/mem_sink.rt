// A sink in memory, which takes bytes in pieces, keeps them and fails at chosen writes.
ghost use Rattle.std.specs.Prelude.{◌≡◌, ◌<◌, ◌≤◌, Some, [], length, take, min, true, IfOk, OnOk, OnErr, IsErr};
ghost use Rattle.esm_io.specs.Faults.{IsCount, Rose};
ghost use Rattle.esm_io.specs.Told.{Grows};
ghost use Rattle.esm_io.specs.Schedule.{is_due, after_call, after_failure};

use crate::failed::Failed;
use crate::pieces::take_front;
use crate::schedule::Schedule;
use crate::sink::Sink;
use std::alloc::Global;
use std::marker::Model;

/// A sink in memory. It takes at most `piece` bytes in a write, and shows to contracts what it took.
#[derive(Drop, Debug)]
pub struct MemSink {
    written: Vec<u8>,
    piece: usize,
    schedule: Schedule,
}

impl Model for MemSink {
    ghost use Rattle.std.specs.Prelude.{◌<◌};
    ghost use Rattle.esm_io.specs.Forms.{SinkState};

    ghost Value = { SinkState };

    ghost view = { λ s. record { written = s.written.items; piece = s.piece; schedule = s.schedule } };

    ghost invariant = { λ s. 0 < s.piece };
}

impl MemSink {
    /// Makes a sink. `fails` are the numbers of the writes that are to fail, counted from 0.
    pub fn new(alloc: Global, piece: usize, fails: Vec<u64>) -> Self
        requires { 0 < piece }
        ensures written { result.written ≡ [] }
        ensures piece { result.piece ≡ piece }
        ensures schedule { result.schedule ≡ record { fails = fails.items; calls = 0; faults = 0 } }
    {
        MemSink {
            written: Vec::new(alloc),
            piece,
            schedule: Schedule::new(fails),
        }
    }

    /// The bytes that it took.
    pub fn written(&self) -> &[u8]
        ensures { result.now ≡ self.now.written }
    {
        &self.written
    }
}

impl Sink for MemSink {
    ghost faults = { λ s. s.schedule.faults };

    ghost written = { λ s. Some s.written };

    /// Also fails where memory runs out.
    fn write(&mut self, from: &[u8]) -> Result<usize, Failed>
        ensures within { IfOk result (λ n. n ≤ length from.now) }
        ensures some { IfOk result (λ n. 0 < length from.now → 0 < n) }
        ensures taken { IfOk result (λ n. Grows (Some self.old.written) (Some self.new.written) (take n from.now)) }
        ensures untaken { OnErr result (Some self.new.written ≡ Some self.old.written) }
        ensures count { IsCount self.old.schedule.faults self.new.schedule.faults }
        ensures cause { OnErr result (Rose self.old.schedule.faults self.new.schedule.faults) }
        ensures piece { IfOk result (λ n. n ≡ min (length from.now) self.old.piece) }
        ensures piece_kept { self.new.piece ≡ self.old.piece }
        ensures due { is_due self.old.schedule ≡ true → IsErr result }
        ensures counted { OnOk result (self.new.schedule ≡ after_call self.old.schedule) }
        ensures failed { OnErr result (self.new.schedule ≡ after_failure self.old.schedule) }
    {
        if self.schedule.fails_now() {
            return Err(Failed);
        }
        match take_front(&mut self.written, from, self.piece) {
            Ok(count) => Ok(count),
            Err(_) => {
                self.schedule.fault();
                Err(Failed)
            }
        }
    }
}
