// The trait of doors, at which connections arrive: accepting the next one and closing one.
ghost use Rattle.std.specs.Prelude.{◌≡◌, ℕ, List, Option, IfOk, OnOk, OnErr};
ghost use Rattle.esm_io.specs.Faults.{IsCount, Rose};
ghost use Rattle.esm_io.specs.Talks.{Closed, Closes, IsFresh};

use crate::failed::Failed;
use crate::link::Link;
use esm_model::OutOfMemory;
use std::alloc::Global;

/// A door, at which connections arrive.
pub trait Door {
    type Conn: Link;

    /// How often it has failed.
    ghost faults: { Self → ℕ };

    /// The connections that were closed, in order, if it shows them.
    ghost closed: { Self → Option (List Closed) };

    /// Accepts the next connection, on which nothing was read or written yet. `Failed` is returned only where the count of
    /// faults rose.
    fn accept(&mut self) -> Result<Self::Conn, Failed>
        ensures fresh { IfOk result (λ conn. IsFresh (Self.Conn.told conn)) }
        ensures faultless { IfOk result (λ conn. Self.Conn.faults conn ≡ 0) }
        ensures kept { closed self.new ≡ closed self.old }
        ensures count { IsCount (faults self.old) (faults self.new) }
        ensures cause { OnErr result (Rose (faults self.old) (faults self.new)) };

    /// Closes a connection and lists it. After `OutOfMemory` it is closed, but not in the list.
    fn close(&mut self, alloc: Global, conn: Self::Conn) -> Result<(), OutOfMemory>
        ensures listed { OnOk result (Closes (closed self.old) (closed self.new) (Self.Conn.told conn) (Self.Conn.faults conn)) }
        ensures unlisted { OnErr result (closed self.new ≡ closed self.old) }
        ensures count { faults self.new ≡ faults self.old };
}
