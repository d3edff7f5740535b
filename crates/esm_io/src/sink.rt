// The trait of sinks, to which bytes are written, such as standard output.
ghost use Rattle.std.specs.Prelude.{◌≡◌, ◌<◌, ◌≤◌, ℕ, List, Option, length, take, IfOk, OnErr};
ghost use Rattle.esm_io.specs.Faults.{IsCount, Rose};
ghost use Rattle.esm_io.specs.Told.{Grows};

use crate::failed::Failed;

/// A sink, to which bytes are written, as to standard output.
pub trait Sink {
    /// How often it has failed.
    ghost faults: { Self → ℕ };

    /// The bytes that it took, if it shows them.
    ghost written: { Self → Option (List ℕ) };

    /// Takes bytes from the front of `from` and returns their number, which is at least 1 if there are any. `Failed` is
    /// returned only where the count of faults rose; nothing was taken then.
    fn write(&mut self, from: &[u8]) -> Result<usize, Failed>
        ensures within { IfOk result (λ n. n ≤ length from.now) }
        ensures some { IfOk result (λ n. 0 < length from.now → 0 < n) }
        ensures taken { IfOk result (λ n. Grows (written self.old) (written self.new) (take n from.now)) }
        ensures untaken { OnErr result (written self.new ≡ written self.old) }
        ensures count { IsCount (faults self.old) (faults self.new) }
        ensures cause { OnErr result (Rose (faults self.old) (faults self.new)) };
}
