//! Laws of every queue, each as the contract of a function that does nothing.
ghost use Rattle.std.specs.Prelude.{ℕ, ◌≡◌, Some};
ghost use Rattle.esm_queue_model.specs.declared.stored.Stored.{Stored};
ghost use Rattle.esm_queue_model.specs.Queue.{QueueState, stored_at};
ghost use Rattle.esm_queue_model.specs.QueueLaws.{EligibleByGroup};

/// A message is eligible if and only if it is neither deleted nor hidden and, in a FIFO queue, each earlier message of its
/// group is deleted or eligible.
pub fn eligible_by_group()
    ensures { (q : QueueState) (m i : ℕ) (x : Stored) → stored_at q i ≡ Some x → EligibleByGroup q m i x }
{}
