// A door in memory, which gives its connections in order and keeps those that were closed.
ghost use Rattle.std.specs.Prelude.{◌≡◌, ◌<◌, [], ◌∷◌, ◌++◌, length, Some, map, true, false, IfOk, OnOk, OnErr, IsOk, IsErr};
ghost use Rattle.std.specs.List.{All};
ghost use Rattle.esm_io.specs.Faults.{IsCount, Rose};
ghost use Rattle.esm_io.specs.Talks.{Closes, IsFresh};
ghost use Rattle.esm_io.specs.Schedule.{is_due, after_call, after_failure};
ghost use Rattle.esm_io.specs.Forms.{IsUnused, closed_link};

use crate::door::Door;
use crate::failed::Failed;
use crate::mem_link::MemLink;
use crate::schedule::Schedule;
use esm_model::OutOfMemory;
use std::alloc::Global;
use std::collections::VecDeque;
use std::marker::Model;

/// A door in memory. It gives its connections in order, then fails, and keeps those that were closed.
#[derive(Drop, Debug)]
pub struct MemDoor {
    links: VecDeque<MemLink>,
    closed: Vec<MemLink>,
    schedule: Schedule,
}

impl Model for MemDoor {
    ghost use Rattle.std.specs.List.{All};
    ghost use Rattle.esm_io.specs.Forms.{DoorState, IsUnused};

    ghost Value = { DoorState };

    ghost view = { λ s. record { links = s.links.items; closed = s.closed.items; schedule = s.schedule } };

    ghost invariant = { λ s. All IsUnused s.links.items };
}

impl MemDoor {
    /// Makes a door with these connections. `fails` are the numbers of the `accept` calls that are to fail, counted from 0.
    pub fn new(alloc: Global, links: Vec<MemLink>, fails: Vec<u64>) -> Self
        requires { All IsUnused links.items }
        ensures links { result.links ≡ links.items }
        ensures closed { result.closed ≡ [] }
        ensures schedule { result.schedule ≡ record { fails = fails.items; calls = 0; faults = 0 } }
    {
        MemDoor {
            links: VecDeque::from_vec(links),
            closed: Vec::new(alloc),
            schedule: Schedule::new(fails),
        }
    }

    /// The connections that were closed, in order.
    pub fn closed(&self) -> &[MemLink]
        ensures { result.now ≡ self.now.closed }
    {
        &self.closed
    }
}

impl Door for MemDoor {
    type Conn = MemLink;

    ghost faults = { λ s. s.schedule.faults };

    ghost closed = { λ s. Some (map closed_link s.closed) };

    /// Also fails where no connection is left. A call that fails takes none.
    fn accept(&mut self) -> Result<MemLink, Failed>
        // What any door promises.
        ensures fresh { IfOk result (λ conn. IsFresh (Some conn.talk)) }
        ensures faultless { IfOk result (λ conn. conn.schedule.faults ≡ 0) }
        ensures kept { self.new.closed ≡ self.old.closed }
        ensures count { IsCount self.old.schedule.faults self.new.schedule.faults }
        ensures cause { OnErr result (Rose self.old.schedule.faults self.new.schedule.faults) }
        // Which connection it gives.
        ensures in_order { IfOk result (λ conn. self.old.links ≡ conn ∷ self.new.links) }
        ensures untaken { OnErr result (self.new.links ≡ self.old.links) }
        // Which calls fail.
        ensures due { is_due self.old.schedule ≡ true → IsErr result }
        ensures not_due { is_due self.old.schedule ≡ false → 0 < length self.old.links → IsOk result }
        ensures counted { OnOk result (self.new.schedule ≡ after_call self.old.schedule) }
        ensures failed { OnErr result (self.new.schedule ≡ after_failure self.old.schedule) }
    {
        if self.schedule.fails_now() {
            return Err(Failed);
        }
        match self.links.pop_front() {
            Some(link) => Ok(link),
            None => {
                self.schedule.fault();
                Err(Failed)
            }
        }
    }

    fn close(&mut self, _alloc: Global, conn: MemLink) -> Result<(), OutOfMemory>
        ensures listed { OnOk result (Closes (Some (map closed_link self.old.closed)) (Some (map closed_link self.new.closed))
            (Some conn.talk) conn.schedule.faults) }
        ensures unlisted { OnErr result (self.new.closed ≡ self.old.closed) }
        ensures last { OnOk result (self.new.closed ≡ self.old.closed ++ conn ∷ []) }
        ensures links { self.new.links ≡ self.old.links }
        ensures count { self.new.schedule ≡ self.old.schedule }
    {
        self.closed.push(conn)?;
        Ok(())
    }
}
