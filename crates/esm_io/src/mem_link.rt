// A connection in memory, which reads and writes in pieces and fails at chosen calls.
ghost use Rattle.std.specs.Prelude.{◌≡◌, ◌<◌, ◌≤◌, Some, length, take, drop, min, true, false, IfOk, OnOk, OnErr, IsOk, IsErr};
ghost use Rattle.esm_io.specs.Faults.{IsCount, Rose};
ghost use Rattle.esm_io.specs.Talks.{Reads, Writes, IsReadOut};
ghost use Rattle.esm_io.specs.Schedule.{is_due, after_call, after_failure};
ghost use Rattle.esm_io.specs.Forms.{IsUnused};

use crate::failed::Failed;
use crate::link::Link;
use crate::pieces::{give_front, take_front};
use crate::schedule::Schedule;
use std::alloc::Global;
use std::marker::Model;

/// A connection in memory. It gives and takes at most `piece` bytes in a call, and shows to contracts what it has read, has
/// left and has written.
#[derive(Drop, Debug)]
pub struct MemLink {
    bytes: Vec<u8>,
    at: usize,
    written: Vec<u8>,
    piece: usize,
    schedule: Schedule,
}

impl Model for MemLink {
    ghost use Rattle.std.specs.Prelude.{◌≤◌, ◌<◌, take, drop, length};
    ghost use Rattle.esm_io.specs.Forms.{LinkState};

    ghost Value = { LinkState };

    ghost view = { λ s. record {
      talk = record { read = take s.at s.bytes.items; left = drop s.at s.bytes.items; written = s.written.items };
      piece = s.piece;
      schedule = s.schedule;
    } };

    ghost invariant = { λ s. (s.at ≤ length s.bytes.items) × (0 < s.piece) };
}

impl MemLink {
    /// Makes a connection from which `bytes` can be read. `fails` are the numbers of the reads and writes that are to fail,
    /// counted from 0.
    pub fn new(alloc: Global, bytes: Vec<u8>, piece: usize, fails: Vec<u64>) -> Self
        requires { 0 < piece }
        ensures unused { IsUnused result }
        ensures left { result.talk.left ≡ bytes.items }
        ensures piece { result.piece ≡ piece }
        ensures fails { result.schedule.fails ≡ fails.items }
    {
        MemLink {
            bytes,
            at: 0,
            written: Vec::new(alloc),
            piece,
            schedule: Schedule::new(fails),
        }
    }

    /// The bytes that were written.
    pub fn written(&self) -> &[u8]
        ensures { result.now ≡ self.now.talk.written }
    {
        &self.written
    }
}

impl Link for MemLink {
    ghost faults = { λ s. s.schedule.faults };

    ghost told = { λ s. Some s.talk };

    fn read(&mut self, into: &mut [u8]) -> Result<usize, Failed>
        ensures within { IfOk result (λ n. n ≤ length into.old) }
        ensures taken { IfOk result (λ n. Reads (Some self.old.talk) (Some self.new.talk) (take n into.new)) }
        ensures end { IfOk result (λ n. n ≡ 0 → 0 < length into.old → IsReadOut (Some self.new.talk)) }
        ensures untaken { OnErr result (self.new.talk ≡ self.old.talk) }
        ensures beyond { IfOk result (λ n. drop n into.new ≡ drop n into.old) }
        ensures unfilled { OnErr result (into.new ≡ into.old) }
        ensures count { IsCount self.old.schedule.faults self.new.schedule.faults }
        ensures cause { OnErr result (Rose self.old.schedule.faults self.new.schedule.faults) }
        ensures piece { IfOk result (λ n. n ≡ min (min (length into.old) self.old.piece) (length self.old.talk.left)) }
        ensures piece_kept { self.new.piece ≡ self.old.piece }
        ensures due { is_due self.old.schedule ≡ true → IsErr result }
        ensures not_due { is_due self.old.schedule ≡ false → IsOk result }
        ensures counted { self.new.schedule ≡ after_call self.old.schedule }
    {
        if self.schedule.fails_now() {
            return Err(Failed);
        }
        Ok(give_front(&self.bytes, &mut self.at, self.piece, into))
    }

    /// Also fails where memory runs out.
    fn write(&mut self, from: &[u8]) -> Result<usize, Failed>
        ensures within { IfOk result (λ n. n ≤ length from.now) }
        ensures some { IfOk result (λ n. 0 < length from.now → 0 < n) }
        ensures taken { IfOk result (λ n. Writes (Some self.old.talk) (Some self.new.talk) (take n from.now)) }
        ensures untaken { OnErr result (self.new.talk ≡ self.old.talk) }
        ensures count { IsCount self.old.schedule.faults self.new.schedule.faults }
        ensures cause { OnErr result (Rose self.old.schedule.faults self.new.schedule.faults) }
        ensures piece { IfOk result (λ n. n ≡ min (length from.now) self.old.piece) }
        ensures piece_kept { self.new.piece ≡ self.old.piece }
        ensures due { is_due self.old.schedule ≡ true → IsErr result }
        ensures counted { OnOk result (self.new.schedule ≡ after_call self.old.schedule) }
        ensures failed { OnErr result (self.new.schedule ≡ after_failure self.old.schedule) }
    {
        if self.schedule.fails_now() {
            return Err(Failed);
        }
        match take_front(&mut self.written, from, self.piece) {
            Ok(count) => Ok(count),
            Err(_) => {
                self.schedule.fault();
                Err(Failed)
            }
        }
    }
}
