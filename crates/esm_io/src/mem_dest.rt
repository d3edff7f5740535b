// A failure destination in memory, which keeps the lines and fails at chosen deliveries.
ghost use Rattle.std.specs.Prelude.{◌≡◌, ◌<◌, ◌≤◌, ◌++◌, ℕ, Some, [], ◌∷◌, length, vec_len, vec_capacity, true, false, OnOk, OnErr, IsErrOf};
ghost use Rattle.esm_io.specs.Told.{Grows};
ghost use Rattle.esm_io.specs.Faults.{IsCount, Rose};
ghost use Rattle.esm_io.specs.Schedule.{is_due, after_call};

use crate::dest::{Dest, DestError};
use crate::schedule::Schedule;
use esm_model::{Bytes, MAX_PAYLOAD, OutOfMemory};
use std::alloc::{AllocError, Global};
use std::marker::Model;

/// A destination in memory. It keeps the lines, and shows them to contracts. A crash leaves nothing of it.
#[derive(Drop, Debug)]
pub struct MemDest {
    lines: Vec<Bytes>,
    /// Memory for the next line.
    room: Vec<u8>,
    failed: bool,
    schedule: Schedule,
}

impl Model for MemDest {
    ghost use Rattle.std.specs.Prelude.{◌≡◌, ◌+◌, nat_lt, if◌then◌else◌, vec_len, vec_capacity};
    ghost use Rattle.esm_io.specs.Forms.{DestState};

    ghost Value = { DestState };

    ghost view = { λ s. record {
      lines = s.lines.items;
      failed = s.failed;
      room = if nat_lt (vec_len s.lines) (vec_capacity s.lines) then vec_capacity s.room + 1 else 0;
      schedule = s.schedule;
    } };

    ghost invariant = { λ s. vec_len s.room ≡ 0 };
}

impl MemDest {
    /// Makes a destination without lines. `fails` are the numbers of the deliveries that are to fail, counted from 0.
    pub fn new(alloc: Global, fails: Vec<u64>) -> Self
        ensures lines { result.lines ≡ [] }
        ensures usable { result.failed ≡ false }
        ensures schedule { result.schedule ≡ record { fails = fails.items; calls = 0; faults = 0 } }
    {
        MemDest {
            lines: Vec::new(alloc),
            room: Vec::new(alloc),
            failed: false,
            schedule: Schedule::new(fails),
        }
    }

    /// The lines, in order.
    pub fn lines(&self) -> &[Bytes]
        ensures { result.now ≡ self.now.lines }
    {
        &self.lines
    }
}

/// Adds a line, in the reserved memory where that is enough. On an error the lines and at least that memory stay.
fn add_line(
    alloc: Global,
    lines: &mut Vec<Bytes>,
    room: &mut Vec<u8>,
    line: &[u8],
) -> Result<(), AllocError>
    requires { vec_len room.old ≡ 0 }
    ensures added { OnOk result (lines.new.items ≡ lines.old.items ++ line.now ∷ []) }
    ensures unadded { OnErr result (lines.new.items ≡ lines.old.items) }
    ensures full { OnErr result (vec_len lines.old < vec_capacity lines.old → length line.now ≤ vec_capacity room.old → ⊥) }
    ensures lines_room { OnErr result (vec_capacity lines.old ≤ vec_capacity lines.new) }
    ensures line_room { OnErr result (vec_capacity room.old ≤ vec_capacity room.new) }
    ensures room { vec_len room.new ≡ 0 }
{
    lines.reserve(1)?;
    room.extend_from_slice(line)?;
    let bytes = std::mem::replace(room, Vec::new(alloc));
    lines.push(Bytes::from_vec(bytes))?;
    Ok(())
}

impl Dest for MemDest {
    ghost faults = { λ s. s.schedule.faults };

    ghost honest = { λ _. true };

    ghost sends = { λ line. line };

    ghost lines = { λ s. Some s.lines };

    ghost failed = { λ s. s.failed };

    ghost moment = { λ _. 0 };

    ghost image_since = { λ _ _ _. ⊥ };

    ghost reads_as = { λ _ _. ⊥ };

    ghost counts_now = { λ _ _ _ _ _ none. none };

    ghost has_room = { λ s n. n < s.room };

    /// Is not among the calls that may be chosen to fail. After an error nothing has changed.
    fn reserve(&mut self, alloc: Global, bytes: u64) -> Result<(), OutOfMemory>
        ensures room { OnOk result ((n : ℕ) → n ≤ bytes → n < self.new.room) }
        ensures lines_kept { self.new.lines ≡ self.old.lines }
        ensures failed_kept { self.new.failed ≡ self.old.failed }
        ensures count { self.new.schedule ≡ self.old.schedule }
        ensures room_kept { OnErr result (self.new.room ≡ self.old.room) }
    {
        let room = Vec::with_capacity(alloc, bytes as usize)?;
        self.lines.reserve(1)?;
        self.room = room;
        Ok(())
    }

    fn deliver(&mut self, alloc: Global, line: &[u8]) -> Result<(), DestError>
        requires short { length line.now ≤ MAX_PAYLOAD }
        requires usable { self.old.failed ≡ false }
        // The lines.
        ensures sent { OnOk result (Grows (Some self.old.lines) (Some self.new.lines) (line.now ∷ [])) }
        ensures unsent { OnErr result (self.new.lines ≡ self.old.lines) }
        // Whether it takes a further line.
        ensures usable_still { OnOk result (self.new.failed ≡ false) }
        ensures usable_again { IsErrOf result DestError.OutOfMemory → self.new.failed ≡ false }
        ensures down { IsErrOf result DestError.Failed → self.new.failed ≡ true }
        // When memory runs out.
        ensures room { IsErrOf result DestError.OutOfMemory → length line.now < self.old.room → ⊥ }
        ensures room_kept { IsErrOf result DestError.OutOfMemory → (n : ℕ) → n < self.old.room → n < self.new.room }
        ensures uncounted { IsErrOf result DestError.OutOfMemory → self.new.schedule.faults ≡ self.old.schedule.faults }
        // Faults.
        ensures count { IsCount self.old.schedule.faults self.new.schedule.faults }
        ensures cause { IsErrOf result DestError.Failed → Rose self.old.schedule.faults self.new.schedule.faults }
        // Which deliveries fail.
        ensures due { is_due self.old.schedule ≡ true → IsErrOf result DestError.Failed }
        ensures not_due { is_due self.old.schedule ≡ false → IsErrOf result DestError.Failed → ⊥ }
        ensures counted { self.new.schedule ≡ after_call self.old.schedule }
    {
        if self.schedule.fails_now() {
            self.failed = true;
            return Err(DestError::Failed);
        }
        match add_line(alloc, &mut self.lines, &mut self.room, line) {
            Ok(()) => Ok(()),
            Err(_) => Err(DestError::OutOfMemory),
        }
    }
}
