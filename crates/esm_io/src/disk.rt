// The trait of disks: the bytes of a file, and what a crash may leave of them.
ghost use Rattle.std.specs.Prelude.{◌≡◌, ◌+◌, ◌≤◌, ℕ, Bool, true, List, length, take, drop, IfOk, OnOk, OnErr};
ghost use Rattle.esm_io.specs.Faults.{IsCount, Rose};
ghost use Rattle.esm_io.specs.Images.{overwritten, Torn, Follows, Within, Only, Elapses};

use crate::failed::Failed;

/// A file on a disk: its bytes, and what a crash may leave of them. What the clauses say of either they say only of an
/// honest disk; a real disk may be honest or not.
pub trait Disk {
    /// How often it has failed.
    ghost faults: { Self → ℕ };

    /// It keeps those clauses below that assume it.
    ghost honest: { Self → Bool };

    /// The bytes that reads return.
    ghost content: { Self → List ℕ };

    /// What a crash now may leave.
    ghost image: { Self → List ℕ → Type 0 };

    /// The current moment by its own clock: a number that never falls.
    ghost moment: { Self → ℕ };

    /// What a crash at some time from that moment until now may have left.
    ghost image_since: { Self → ℕ → List ℕ → Type 0 };

    /// The number of bytes. `Failed` is returned only where the count of faults rose.
    fn len(&mut self) -> Result<u64, Failed>
        ensures length { honest self.old ≡ true → IfOk result (λ n. n ≡ length (content self.old)) }
        ensures same { honest self.old ≡ true → content self.new ≡ content self.old }
        ensures images { honest self.old ≡ true → Within (image self.old) (image_since self.new (moment self.old)) }
        ensures time { honest self.old ≡ true → Elapses (moment self.old) (moment self.new) (image_since self.old) (image_since self.new) }
        ensures moment_kept { honest self.old ≡ true → moment self.new ≡ moment self.old }
        ensures honesty { honest self.new ≡ honest self.old }
        ensures count { IsCount (faults self.old) (faults self.new) }
        ensures cause { OnErr result (Rose (faults self.old) (faults self.new)) };

    /// Fills `into` with the bytes from offset `at` on, which have to be there. `Failed` is returned only where the count of
    /// faults rose.
    fn read(&mut self, at: u64, into: &mut [u8]) -> Result<(), Failed>
        requires { honest self.old ≡ true → at + length into.old ≤ length (content self.old) }
        ensures bytes { honest self.old ≡ true → OnOk result (into.new ≡ take (length into.old) (drop at (content self.old))) }
        ensures same { honest self.old ≡ true → content self.new ≡ content self.old }
        ensures images { honest self.old ≡ true → Within (image self.old) (image_since self.new (moment self.old)) }
        ensures time { honest self.old ≡ true → Elapses (moment self.old) (moment self.new) (image_since self.old) (image_since self.new) }
        ensures moment_kept { honest self.old ≡ true → moment self.new ≡ moment self.old }
        ensures honesty { honest self.new ≡ honest self.old }
        ensures count { IsCount (faults self.old) (faults self.new) }
        ensures cause { OnErr result (Rose (faults self.old) (faults self.new)) };

    /// Writes the bytes over those from offset `at` on, and past the end. Until a sync succeeds, a crash may leave any bytes
    /// in that range. `Failed` is returned only where the count of faults rose; the range may then have any bytes.
    fn write_at(&mut self, at: u64, from: &[u8]) -> Result<(), Failed>
        requires { honest self.old ≡ true → at ≤ length (content self.old) }
        ensures written { honest self.old ≡ true → OnOk result (content self.new ≡ overwritten (content self.old) at from.now) }
        ensures torn { honest self.old ≡ true → OnErr result (Torn at (length from.now) (content self.old) (content self.new)) }
        ensures images { honest self.old ≡ true → Follows (Torn at (length from.now)) (image self.old) (image_since self.new (moment self.old)) }
        ensures time { honest self.old ≡ true → Elapses (moment self.old) (moment self.new) (image_since self.old) (image_since self.new) }
        ensures honesty { honest self.new ≡ honest self.old }
        ensures count { IsCount (faults self.old) (faults self.new) }
        ensures cause { OnErr result (Rose (faults self.old) (faults self.new)) };

    /// Syncs: after `Ok` a crash leaves what reads return. `Failed` is returned only where the count of faults rose.
    fn sync(&mut self) -> Result<(), Failed>
        ensures durable { honest self.old ≡ true → OnOk result (Only (content self.old) (image self.new)) }
        ensures same { honest self.old ≡ true → content self.new ≡ content self.old }
        ensures images { honest self.old ≡ true → Within (image self.old) (image_since self.new (moment self.old)) }
        ensures time { honest self.old ≡ true → Elapses (moment self.old) (moment self.new) (image_since self.old) (image_since self.new) }
        ensures honesty { honest self.new ≡ honest self.old }
        ensures count { IsCount (faults self.old) (faults self.new) }
        ensures cause { OnErr result (Rose (faults self.old) (faults self.new)) };

    /// The bytes that reads return are one of the images.
    ghost reads_as_image: { (disk : Self) → honest disk ≡ true → image disk (content disk) };

    /// An image of now is one since now, and since each earlier moment.
    ghost counts_now: { (disk : Self) (t : ℕ) (left : List ℕ) → honest disk ≡ true → t ≤ moment disk → image disk left → image_since disk t left };

    /// Since the current moment there is no other image than those of now.
    ghost only_now: { (disk : Self) (left : List ℕ) → honest disk ≡ true → image_since disk (moment disk) left → image disk left };
}
