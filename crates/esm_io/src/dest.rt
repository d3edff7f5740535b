// The trait of destinations, to which failure lines are delivered, and why a line was not delivered.
ghost use Rattle.std.specs.Prelude.{◌≡◌, ◌≤◌, ◌++◌, ℕ, List, [], ◌∷◌, Bool, true, false, Option, Some, length, IsErrOf, OnOk, OnErr};
ghost use Rattle.esm_io.specs.Faults.{IsCount, Rose};
ghost use Rattle.esm_io.specs.Images.{LeavesOnly, NoOther};
ghost use Rattle.esm_io.specs.Told.{Grows, IsEither};

use esm_model::{MAX_PAYLOAD, OutOfMemory};
use std::alloc::Global;

/// Why a line was not delivered.
#[derive(Clone, Copy, Debug, PartialEq, Eq)]
pub enum DestError {
    /// The destination failed: its count of faults rose, and it accepts no further line.
    Failed,
    /// Out of memory; nothing has changed.
    OutOfMemory,
}

/// A destination, to which failure lines are delivered.
pub trait Dest {
    /// How often it has failed.
    ghost faults: { Self → ℕ };

    /// What it is made of keeps its own rules, if it has any: for a file, its disk is honest.
    ghost honest: { Self → Bool };

    /// What a destination of this kind sends for a line.
    ghost sends: { List ℕ → List ℕ };

    /// What it sent for the lines, in order, if it shows that.
    ghost lines: { Self → Option (List (List ℕ)) };

    /// One of its `deliver` calls returned `Failed`.
    ghost failed: { Self → Bool };

    /// The current moment by its own clock: a number that never falls.
    ghost moment: { Self → ℕ };

    /// What a crash at some time from that moment until now may have left where the lines are kept.
    ghost image_since: { Self → ℕ → List ℕ → Type 0 };

    /// What is left where the lines are kept reads as these lines.
    ghost reads_as: { List ℕ → List (List ℕ) → Type 0 };

    /// The next `deliver` of a line with this number of bytes does not return `OutOfMemory`.
    ghost has_room: { Self → ℕ → Type 0 };

    /// Reserves memory for the next line, of at most `bytes` bytes. After `Ok` the next `deliver` of such a line does not
    /// return `OutOfMemory`.
    fn reserve(&mut self, alloc: Global, bytes: u64) -> Result<(), OutOfMemory>
        ensures room { OnOk result ((n : ℕ) → n ≤ bytes → has_room self.new n) }
        ensures lines_kept { lines self.new ≡ lines self.old }
        ensures failed_kept { failed self.new ≡ failed self.old }
        ensures moment_kept { moment self.new ≡ moment self.old }
        ensures images_kept { NoOther (image_since self.old) (image_since self.new) }
        ensures honesty { honest self.new ≡ honest self.old }
        ensures count { faults self.new ≡ faults self.old };

    /// Delivers a line. `Failed` is returned only where the count of faults rose; the line may then have arrived, though it
    /// is not among the lines shown. If the destination is honest and shows its lines, a crash at any moment leaves the
    /// lines with this one or without it, and after `Ok` with it.
    fn deliver(&mut self, alloc: Global, line: &[u8]) -> Result<(), DestError>
        requires short { length line.now ≤ MAX_PAYLOAD }
        requires usable { failed self.old ≡ false }
        // The lines.
        ensures sent { OnOk result (Grows (lines self.old) (lines self.new) (sends line.now ∷ [])) }
        ensures unsent { OnErr result (lines self.new ≡ lines self.old) }
        // Whether it takes a further line.
        ensures usable_still { OnOk result (failed self.new ≡ false) }
        ensures usable_again { IsErrOf result DestError.OutOfMemory → failed self.new ≡ false }
        ensures down { IsErrOf result DestError.Failed → failed self.new ≡ true }
        // What a crash leaves.
        ensures any_moment { honest self.old ≡ true → (IsErrOf result DestError.OutOfMemory → ⊥) → (held : List (List ℕ)) → lines self.old ≡ Some held →
            LeavesOnly moment image_since self.old self.new (IsEither reads_as held (sends line.now)) }
        ensures durable { honest self.old ≡ true → (held : List (List ℕ)) → lines self.old ≡ Some held →
            OnOk result ((left : List ℕ) → image_since self.new (moment self.new) left → reads_as left (held ++ sends line.now ∷ [])) }
        ensures moment_kept { IsErrOf result DestError.OutOfMemory → moment self.new ≡ moment self.old }
        ensures images_kept { IsErrOf result DestError.OutOfMemory → NoOther (image_since self.old) (image_since self.new) }
        // When memory runs out.
        ensures room { IsErrOf result DestError.OutOfMemory → has_room self.old (length line.now) → ⊥ }
        ensures room_kept { IsErrOf result DestError.OutOfMemory → (n : ℕ) → has_room self.old n → has_room self.new n }
        ensures uncounted { IsErrOf result DestError.OutOfMemory → faults self.new ≡ faults self.old }
        // Honesty and faults.
        ensures honesty { honest self.new ≡ honest self.old }
        ensures count { IsCount (faults self.old) (faults self.new) }
        ensures cause { IsErrOf result DestError.Failed → Rose (faults self.old) (faults self.new) };

    /// What a crash now may leave is among what a crash since an earlier moment may have left.
    ghost counts_now: { (dest : Self) (t : ℕ) (left : List ℕ) → honest dest ≡ true → t ≤ moment dest → image_since dest (moment dest) left →
        image_since dest t left };
}
