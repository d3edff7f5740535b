// The trait of a book that threads pass on: its history, the author of each entry, and whether the book is down.
ghost use Rattle.std.specs.Prelude.{◌≡◌, ℕ, ◌<◌, ◌^◌, Bool, List, Option, length};
ghost use Rattle.esm_model.specs.declared.book.Change.{Change};
ghost use Rattle.esm_model.specs.declared.setup.Setup.{Setup};
ghost use Rattle.esm_model.specs.declared.setup.Told.{Told};

/// A book: a value with a history of entries, which threads pass to one another.
///
/// A history is a list of entries, the oldest first. Each entry has an author: the number of the seat that added it.
pub trait Kept {
    // what the value was opened with
    ghost setup: { Self → Setup };

    ghost history: { Self → List Told };

    // whether the value is down, so that its calls do no more work
    ghost mark: { Self → Bool };

    // the change that took the value down, if one did
    ghost change: { Self → Option Change };

    // the author of this entry if it follows this history
    ghost author: { Setup → List Told → Told → ℕ };

    // this entry may follow this history
    ghost may_follow: { Setup → List Told → Told → Type 0 };

    /// The number of entries of the history. Takes no memory.
    fn entries(&self) -> u64
        ensures same { result ≡ length (history self.now) }
        ensures few { result < 2 ^ 62 };

    /// Whether the value is down. Takes no memory.
    fn marked(&self) -> bool
        ensures { result ≡ mark self.now };
}
