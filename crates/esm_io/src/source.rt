// The trait of sources, from which bytes are read, such as standard input or a file.
ghost use Rattle.std.specs.Prelude.{◌≡◌, ◌<◌, ◌≤◌, ℕ, true, List, Option, length, take, IfOk, IsSome, OnErr};
ghost use Rattle.esm_io.specs.Faults.{IsCount, Rose};
ghost use Rattle.esm_io.specs.Told.{TakesFront, IsAtEnd};

use crate::failed::Failed;

/// A source, from which bytes are read, as from standard input or a file.
pub trait Source {
    /// How often it has failed.
    ghost faults: { Self → ℕ };

    /// The bytes that are left to read, if it shows them.
    ghost left: { Self → Option (List ℕ) };

    /// Whether a read would return without waiting. Waits for that itself, for at most `patience` milliseconds. It may open
    /// what is read, or read ahead, but takes nothing of what is left. Also true where this cannot be known, where the next
    /// read fails, and where the source shows its bytes.
    fn is_ready(&mut self, patience: u64) -> bool
        ensures ready { IsSome (left self.old) → result ≡ true }
        ensures left { left self.new ≡ left self.old }
        ensures faultless { faults self.new ≡ faults self.old };

    /// Puts bytes at the front of `into` and returns their number. If `into` is not empty, 0 means the end. `Failed` is
    /// returned only where the count of faults rose; nothing was taken then.
    fn read(&mut self, into: &mut [u8]) -> Result<usize, Failed>
        ensures within { IfOk result (λ n. n ≤ length into.old) }
        ensures taken { IfOk result (λ n. TakesFront (left self.old) (left self.new) (take n into.new)) }
        ensures end { IfOk result (λ n. n ≡ 0 → 0 < length into.old → IsAtEnd (left self.new)) }
        ensures untaken { OnErr result (left self.new ≡ left self.old) }
        ensures count { IsCount (faults self.old) (faults self.new) }
        ensures cause { OnErr result (Rose (faults self.old) (faults self.new)) };
}
