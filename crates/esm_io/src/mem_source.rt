// A source in memory, which gives its bytes in pieces and fails at chosen reads.
ghost use Rattle.std.specs.Prelude.{◌≡◌, ◌<◌, ◌≤◌, Some, length, take, drop, min, true, false, IfOk, OnErr, IsOk, IsErr};
ghost use Rattle.esm_io.specs.Faults.{IsCount, Rose};
ghost use Rattle.esm_io.specs.Told.{TakesFront, IsAtEnd};
ghost use Rattle.esm_io.specs.Schedule.{is_due, after_call};

use crate::failed::Failed;
use crate::pieces::give_front;
use crate::schedule::Schedule;
use crate::source::Source;
use std::marker::Model;

/// A source in memory. It gives at most `piece` bytes in a read, and shows to contracts what is left.
#[derive(Drop, Debug)]
pub struct MemSource {
    bytes: Vec<u8>,
    at: usize,
    piece: usize,
    schedule: Schedule,
}

impl Model for MemSource {
    ghost use Rattle.std.specs.Prelude.{◌≤◌, ◌<◌, drop, length};
    ghost use Rattle.esm_io.specs.Forms.{SourceState};

    ghost Value = { SourceState };

    ghost view = { λ s. record { left = drop s.at s.bytes.items; piece = s.piece; schedule = s.schedule } };

    ghost invariant = { λ s. (s.at ≤ length s.bytes.items) × (0 < s.piece) };
}

impl MemSource {
    /// Makes a source of these bytes. `fails` are the numbers of the reads that are to fail, counted from 0.
    pub fn new(bytes: Vec<u8>, piece: usize, fails: Vec<u64>) -> Self
        requires { 0 < piece }
        ensures left { result.left ≡ bytes.items }
        ensures piece { result.piece ≡ piece }
        ensures schedule { result.schedule ≡ record { fails = fails.items; calls = 0; faults = 0 } }
    {
        MemSource {
            bytes,
            at: 0,
            piece,
            schedule: Schedule::new(fails),
        }
    }
}

impl Source for MemSource {
    ghost faults = { λ s. s.schedule.faults };

    ghost left = { λ s. Some s.left };

    fn is_ready(&mut self, _patience: u64) -> bool
        ensures ready { result ≡ true }
        ensures same { self.new ≡ self.old }
    {
        true
    }

    fn read(&mut self, into: &mut [u8]) -> Result<usize, Failed>
        ensures within { IfOk result (λ n. n ≤ length into.old) }
        ensures taken { IfOk result (λ n. TakesFront (Some self.old.left) (Some self.new.left) (take n into.new)) }
        ensures end { IfOk result (λ n. n ≡ 0 → 0 < length into.old → IsAtEnd (Some self.new.left)) }
        ensures untaken { OnErr result (self.new.left ≡ self.old.left) }
        ensures beyond { IfOk result (λ n. drop n into.new ≡ drop n into.old) }
        ensures unfilled { OnErr result (into.new ≡ into.old) }
        ensures count { IsCount self.old.schedule.faults self.new.schedule.faults }
        ensures cause { OnErr result (Rose self.old.schedule.faults self.new.schedule.faults) }
        ensures scheduled { self.new.schedule ≡ after_call self.old.schedule }
        ensures piece { IfOk result (λ n. n ≡ min (min (length into.old) self.old.piece) (length self.old.left)) }
        ensures piece_kept { self.new.piece ≡ self.old.piece }
        ensures due { is_due self.old.schedule ≡ true → IsErr result }
        ensures not_due { is_due self.old.schedule ≡ false → IsOk result }
    {
        if self.schedule.fails_now() {
            return Err(Failed);
        }
        Ok(give_front(&self.bytes, &mut self.at, self.piece, into))
    }
}
