// The trait of links, which are connections: bytes are read and written, a piece at a time.
ghost use Rattle.std.specs.Prelude.{◌≡◌, ◌<◌, ◌≤◌, ℕ, Option, length, take, IfOk, OnErr};
ghost use Rattle.esm_io.specs.Faults.{IsCount, Rose};
ghost use Rattle.esm_io.specs.Talks.{Talk, Reads, Writes, IsReadOut};

use crate::failed::Failed;

/// A connection, from which bytes are read and to which bytes are written.
pub trait Link {
    /// How often it has failed.
    ghost faults: { Self → ℕ };

    /// What it has read, has left to read and has written, if it shows that.
    ghost told: { Self → Option Talk };

    /// Puts bytes at the front of `into` and returns their number. If `into` is not empty, 0 means the end. `Failed` is
    /// returned only where the count of faults rose; nothing was taken then.
    fn read(&mut self, into: &mut [u8]) -> Result<usize, Failed>
        ensures within { IfOk result (λ n. n ≤ length into.old) }
        ensures taken { IfOk result (λ n. Reads (told self.old) (told self.new) (take n into.new)) }
        ensures end { IfOk result (λ n. n ≡ 0 → 0 < length into.old → IsReadOut (told self.new)) }
        ensures untaken { OnErr result (told self.new ≡ told self.old) }
        ensures count { IsCount (faults self.old) (faults self.new) }
        ensures cause { OnErr result (Rose (faults self.old) (faults self.new)) };

    /// Takes bytes from the front of `from` and returns their number, which is at least 1 if there are any. `Failed` is
    /// returned only where the count of faults rose; nothing was taken then.
    fn write(&mut self, from: &[u8]) -> Result<usize, Failed>
        ensures within { IfOk result (λ n. n ≤ length from.now) }
        ensures some { IfOk result (λ n. 0 < length from.now → 0 < n) }
        ensures taken { IfOk result (λ n. Writes (told self.old) (told self.new) (take n from.now)) }
        ensures untaken { OnErr result (told self.new ≡ told self.old) }
        ensures count { IsCount (faults self.old) (faults self.new) }
        ensures cause { OnErr result (Rose (faults self.old) (faults self.new)) };
}
