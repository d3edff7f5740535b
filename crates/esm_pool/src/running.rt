// A run of a book, with its reader and its batchers as threads.
ghost use Rattle.std.specs.Prelude.{◌≡◌, ◌⊎◌, ◌+◌, ◌<◌, ◌≤◌, ℕ, [], Some, None, true, false, length, is_err, IfOk, OnOk, OnErr, Ok};
ghost use Rattle.esm_model.specs.declared.book.Change.{Change};
ghost use Rattle.esm_model.specs.declared.limits.TheConstants.{MAX_LANES};
ghost use Rattle.esm_model.specs.Books.{entries_told};
ghost use Rattle.esm_model.specs.Entries.{is_shut};
ghost use Rattle.esm_model.specs.Kept.{IsLegal};
ghost use Rattle.esm_input.specs.Reading.{IsInput};
ghost use Rattle.esm_model.specs.GoingOn.{AllGiven, OwnFollowShut};
ghost use Rattle.esm_workers.specs.Working.{outside};
ghost use Rattle.esm_workers.specs.Shared.{HaveCalled};
ghost use Rattle.esm_pool.specs.Ran.{IsSameInput, HasLeftOne, CameSo, EndsSo, IsChangeOf, IsCut};

use crate::reader::Reader;
use esm_input::Input;
use esm_io::{Caller, Clock, Source};
use esm_model::{OutOfMemory, Pooled};
use esm_workers::run_hands;
use std::alloc::Global;
use std::sync::Wait;
use std::thread::Threads;

/// How the run of a book's reader and batchers ended.
#[derive(Clone, Copy, Debug, PartialEq, Eq)]
pub enum RunEnd {
    /// The input has ended, and nothing is left for any batcher.
    Finished,
    /// All calls allowed were made, and something is left, or the input, which does not show its bytes, had not ended.
    Spent,
    /// The book is down, and says why.
    Down,
}

/// What a run of a book leaves: how it ended, the book, the input as it was read, and the callers.
pub struct Ran<B, S: Source, F> {
    pub end: Result<RunEnd, OutOfMemory>,
    pub book: B,
    pub input: Input<S>,
    pub callers: Vec<F>,
}

/// Returns how the run ended, by the book that the threads left and by whether the reader left its input before the end. It
/// asks no batcher. `OutOfMemory` if an allocation failed when the book looked for what is left.
fn end_of<B: Pooled>(book: &B, batchers: u32, left_off: bool) -> Result<RunEnd, OutOfMemory>
    requires batchers { (0 < batchers) × (batchers ≤ MAX_LANES) }
    requires shut { B.mark book.now ≡ false → is_shut (entries_told (B.history book.now)) ≡ true }
    requires rests { (k : ℕ) → B.rests (B.setup book.now) (B.history book.now) k }
    ensures finished { result ≡ Ok RunEnd.Finished → (left_off ≡ false) × (B.mark book.now ≡ false) ×
        ((k : ℕ) → k < batchers → B.finished (B.setup book.now) (B.history book.now) k) }
    ensures spent { result ≡ Ok RunEnd.Spent → (B.mark book.now ≡ false) ×
        (HasLeftOne B.left (B.setup book.now) (B.history book.now) batchers ⊎ (left_off ≡ true)) }
    ensures down { result ≡ Ok RunEnd.Down → B.mark book.now ≡ true }
    ensures short { OnErr result ((B.mark book.now ≡ false) × (left_off ≡ false)) }
{
    if book.marked() {
        return Ok(RunEnd::Down);
    }
    if left_off {
        return Ok(RunEnd::Spent);
    }
    match book.is_over(batchers) {
        Some(true) => Ok(RunEnd::Finished),
        Some(false) => Ok(RunEnd::Spent),
        None => Err(OutOfMemory),
    }
}

/// Reads the input and passes its items to the book, in lists of at most 10,000, and has `batchers` batchers call, caller
/// `k` for batcher `k`, all as threads. With `read_first` the batchers begin once the input was read. The run ends when
/// nothing is left, when all calls allowed were made, or when the book is down. If all calls allowed were made while more is
/// awaited of an input that does not show its bytes, its end is noted and nothing more is read. `name` is the function's.
/// `OutOfMemory` may end the run at any point.
pub fn run_book<
    R: Threads + Wait + Sync,
    B: Pooled + Send,
    S: Source + Send,
    C: Clock + Sync,
    F: Caller + Send,
>(
    rt: &R,
    alloc: Global,
    book: B,
    input: Input<S>,
    batchers: u32,
    name: &str,
    callers: Vec<F>,
    clock: &C,
    read_first: bool,
) -> Ran<B, S, F>
    requires new { B.history book ≡ [] }
    requires unchanged { B.change book ≡ None }
    requires name { name.now ≡ (B.setup book).config.function }
    requires kind { input.kind ≡ B.kind (B.setup book) }
    requires unread { input ≡ record input { found = input.source; bytes = []; whole = false; end = None; failed = false } }
    requires callers { length callers.items ≡ MAX_LANES }
    requires batchers { (0 < batchers) × (batchers ≤ MAX_LANES) }
    requires given { (m : ℕ) → C.gave m ≡ true → B.given m ≡ true }
    // What the book says.
    ensures setup { B.setup result.book ≡ B.setup book }
    ensures legal { IsLegal (B.may_follow (B.setup book)) (B.history result.book) }
    ensures moments { AllGiven C.gave [] (B.history result.book) }
    ensures called { HaveCalled B.calls B.rests B.runs (outside C.gave F.sends F.log) (B.setup book) (B.history result.book)
        (is_err result.end) batchers callers.items result.callers.items }
    ensures later { read_first ≡ true → (k : ℕ) → OwnFollowShut (B.author (B.setup book)) (k + 1) [] (B.history result.book) }
    // How it ended, and what became of the input.
    ensures ended { IfOk result.end (EndsSo B.finished B.spent (B.setup book) (B.history result.book) (B.mark result.book) batchers) }
    ensures left { result.end ≡ Ok RunEnd.Spent → HasLeftOne B.left (B.setup book) (B.history result.book) batchers ⊎ (result.input.end ≡ None) }
    ensures came { IfOk result.end (CameSo S.left result.input (B.items (B.history result.book)) (B.history result.book)) }
    ensures changed { OnOk result.end ((change : Change) → B.change result.book ≡ Some change →
        IsChangeOf B.items B.differs (B.setup book) (B.history result.book) result.input change) }
    ensures read { OnOk result.end (IsInput S.faults S.left result.input) }
    ensures good { OnOk result.end (result.input.failed ≡ false) }
    ensures cut { OnErr result.end (IsCut S.left result.input (B.items (B.history result.book))) }
    ensures input { IsSameInput input result.input }
{
    B::begins();
    B::stays();
    B::excludes();
    let reader = Reader { input };
    match run_hands(
        rt, alloc, book, reader, callers, batchers, name, clock, read_first,
    ) {
        Ok(left) => {
            let esm_workers::Ran {
                book,
                reader,
                callers,
                short,
            } = left;
            let Reader { input } = reader;
            if short {
                return Ran {
                    end: Err(OutOfMemory),
                    book,
                    input,
                    callers,
                };
            }
            let end = end_of(&book, batchers, input.end().is_none());
            Ran {
                end,
                book,
                input,
                callers,
            }
        }
        Err(refused) => {
            let (book, reader, callers) = refused.back;
            Ran {
                end: Err(OutOfMemory),
                book,
                input: reader.input,
                callers,
            }
        }
    }
}
