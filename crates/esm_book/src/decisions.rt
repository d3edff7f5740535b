// The trait of a book's core: it decides each call and owes entries until they are written.
ghost use Rattle.std.specs.Prelude.{◌≡◌, ◌<◌, ◌≤◌, ◌∷◌, ◌++◌, [], ℕ, List, Option, length, take, drop, reverse, OnOk, OnErr, IfOk, IfErr, IfSome, IfNone};
ghost use Rattle.esm_model.specs.declared.book.Change.{Change};
ghost use Rattle.esm_book.specs.Decided.{written_of, lengths_of, added, IsLineWithin, IsRefused};

use crate::error::Refusal;
use esm_model::{MAX_PAYLOAD, OutOfMemory};
use std::alloc::Global;

/// A book's decisions without its devices: its core. A call is decided at once; the entries that it adds are then owed,
/// until each is written and paid, one after another. Entries of which nothing is written are owed and paid like the
/// others.
///
/// What contracts see of a core is what it was opened with, its history and what is owed.
pub trait Decisions {
    /// What a core is opened with. Only contracts speak of it: no value is made.
    type Origin;

    /// An entry, with what is written for it. Only contracts speak of it: no value is made.
    type Entry;

    /// A call, with all that it takes.
    type Call;

    type Answer: Drop;

    /// What the core was opened with. No call changes it.
    ghost origin: { Self → Self.Origin };

    /// The entries so far, newest first.
    ghost history: { Self → List Self.Entry };

    /// The entries that were decided and are not yet paid, in the order in which they are to be written.
    ghost owed: { Self → List Self.Entry };

    /// What is owed can be paid. This holds after each decision, until something is noted.
    ghost payable: { Self → Type 0 };

    /// The payload of an entry in the journal, if it has one.
    ghost payload: { Self.Entry → Option (List ℕ) };

    /// The line that is delivered before the payload of an entry is appended, if it has one.
    ghost line: { Self.Entry → Option (List ℕ) };

    /// The call may be made.
    ghost may_ask: { Self → Self.Call → Type 0 };

    /// The call has this answer, and adds these entries, oldest first.
    ghost decides: { Self → Self.Call → Self.Answer → List Self.Entry → Type 0 };

    /// The call is refused for good, since it brings this change.
    ghost refuses: { Self → Self.Call → Change → Type 0 };

    /// What comes may differ in this way from what a core that was opened with this keeps.
    ghost is_change: { Self.Origin → Change → Type 0 };

    /// When nothing is written any more, the call adds these entries, oldest first. They have neither payload nor line.
    ghost notes: { Self → Self.Call → List Self.Entry → Type 0 };

    /// The core once what is owed was discarded.
    ghost forgotten: { Self → Self };

    /// Decides a call, and owes the entries that it adds. Takes all the memory that paying them needs. After a refusal the
    /// core is as before.
    fn decide(&mut self, alloc: Global, call: Self::Call) -> Result<Self::Answer, Refusal>
        requires may { may_ask self.old call }
        requires settled { owed self.old ≡ [] }
        ensures decided { IfOk result (λ answer. decides self.old call answer (owed self.new)) }
        ensures origin { origin self.new ≡ origin self.old }
        ensures history { history self.new ≡ history self.old }
        ensures payable { OnOk result (payable self.new) }
        ensures undone { OnOk result (forgotten self.new ≡ self.old) }
        ensures refused { IfErr result (IsRefused (λ change. refuses self.old call change × is_change (origin self.old) change)) }
        ensures unchanged { OnErr result (self.new ≡ self.old) };

    /// Discards what is owed. Takes no memory.
    fn forget(&mut self)
        ensures { self.new ≡ forgotten self.old };

    /// The lengths in bytes of the owed payloads, in order.
    fn owed_lengths(&self, alloc: Global) -> Result<Vec<u32>, OutOfMemory>
        ensures { IfOk result (λ lengths. lengths.items ≡ lengths_of (written_of payload (owed self.now))) };

    /// An upper bound on the length of the owed line in bytes, if an owed entry has a line. At most one has, since a
    /// destination makes room for one. Takes no memory.
    fn owed_line_bound(&self) -> Option<u64>
        ensures within { IfSome result (IsLineWithin (written_of line (owed self.now))) }
        ensures none { IfNone result (written_of line (owed self.now) ≡ []) };

    /// How many entries are owed. Takes no memory.
    fn owed_count(&self) -> usize
        ensures { result ≡ length (owed self.now) };

    /// The payload of the first owed entry, if it has one. Takes no memory.
    fn first_payload(&self) -> Option<&[u8]>
        requires { 0 < length (owed self.now) }
        ensures payload { IfSome result (λ bytes. written_of payload (take 1 (owed self.now)) ≡ bytes.now ∷ []) }
        ensures short { IfSome result (λ bytes. length bytes.now ≤ MAX_PAYLOAD) }
        ensures none { IfNone result (written_of payload (take 1 (owed self.now)) ≡ []) };

    /// The line of the first owed entry, if it has one. Takes no memory.
    fn first_line(&self) -> Option<&[u8]>
        requires { 0 < length (owed self.now) }
        ensures line { IfSome result (λ bytes. written_of line (take 1 (owed self.now)) ≡ bytes.now ∷ []) }
        ensures short { IfSome result (λ bytes. length bytes.now ≤ MAX_PAYLOAD) }
        ensures none { IfNone result (written_of line (take 1 (owed self.now)) ≡ []) };

    /// Adds the first owed entry, which is written, to the history. Takes no memory.
    fn pay(&mut self)
        requires owes { 0 < length (owed self.old) }
        requires payable { payable self.old }
        ensures payable { payable self.new }
        ensures origin { origin self.new ≡ origin self.old }
        ensures history { history self.new ≡ take 1 (owed self.old) ++ history self.old }
        ensures owed { owed self.new ≡ drop 1 (owed self.old) };

    /// Adds what a call leaves in the history when nothing of it is written. Takes no memory.
    fn note(&mut self, call: Self::Call)
        requires { may_ask self.old call }
        ensures noted { notes self.old call (added (history self.old) (history self.new)) }
        ensures origin { origin self.new ≡ origin self.old }
        ensures history { history self.new ≡ reverse (added (history self.old) (history self.new)) ++ history self.old }
        ensures no_payload { written_of payload (added (history self.old) (history self.new)) ≡ [] }
        ensures no_line { written_of line (added (history self.old) (history self.new)) ≡ [] }
        ensures owed { owed self.new ≡ owed self.old };
}
