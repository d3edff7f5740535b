// The trait of callers, which call functions by name, with the log of their calls and their count of faults.
ghost use Rattle.std.specs.Prelude.{◌≡◌, ℕ, List, [], ◌∷◌, Option, IfOk, OnErr};
ghost use Rattle.esm_model.specs.declared.called.Called.{Called};
ghost use Rattle.esm_io.specs.Faults.{IsCount, Rose};
ghost use Rattle.esm_io.specs.Told.{Grows};

use esm_model::{OutOfMemory, Reply};
use std::alloc::Global;

/// A caller, which calls functions by name.
pub trait Caller {
    /// How often it has failed.
    ghost faults: { Self → ℕ };

    /// The bytes that a caller of this kind sends for an event.
    ghost sends: { List ℕ → List ℕ };

    /// The calls made, in order, if it shows them.
    ghost log: { Self → Option (List Called) };

    /// Calls the function with the event, and returns its reply. `Lost` is returned only where the count of faults rose.
    /// After `OutOfMemory` the log is unchanged, though over a real connection the call may have reached the function.
    fn call(&mut self, alloc: Global, name: &str, event: &[u8]) -> Result<Reply, OutOfMemory>
        ensures logged { IfOk result (λ reply. Grows (log self.old) (log self.new)
            (record { name = name.now; event = sends event.now; reply = reply } ∷ [])) }
        ensures unlogged { OnErr result (log self.new ≡ log self.old) }
        ensures count { IsCount (faults self.old) (faults self.new) }
        ensures lost { IfOk result (λ reply. reply ≡ Reply.Lost → Rose (faults self.old) (faults self.new)) };
}
