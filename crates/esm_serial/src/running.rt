// A run of a book whose input is read first, and whose calls one caller makes.
ghost use Rattle.std.specs.Prelude.{◌≡◌, ◌⊎◌, ℕ, List, [], Some, None, false, IfOk, OnOk, OnErr};
ghost use Rattle.esm_model.specs.declared.book.Change.{Change};
ghost use Rattle.esm_model.specs.Coming.{StayAsTheyAre};
ghost use Rattle.esm_input.specs.Reading.{IsInput, handed};
ghost use Rattle.esm_serial.specs.Ran.{IsSameInput, HasCalled, HasOneMore, EndsSo, CameSo, StopsSo, IsChangeOf};
ghost use Rattle.esm_serial.specs.Readings.{EndsReading};

use crate::calling::call_all;
use crate::reading::{Stop, read_all};
use crate::serial::Serial;
use esm_input::Input;
use esm_io::{Caller, Clock, Source};
use esm_model::OutOfMemory;
use std::alloc::Global;
use std::sync::Wait;
use std::thread::Threads;

/// How the run of a book ended.
#[derive(Clone, Copy, Debug, PartialEq, Eq)]
pub enum RunEnd {
    /// The input has ended, and nothing is left.
    Finished,
    /// All calls allowed were made, and something is left.
    Spent,
    /// The book is down, and says why.
    Down,
}

/// What a run of a book leaves: how it ended, the book, and the input as it was read.
pub struct Ran<B, S: Source> {
    pub end: Result<RunEnd, OutOfMemory>,
    pub book: B,
    pub input: Input<S>,
}

/// Notes that the input ended, at the moment of the clock.
fn note_end<B: Serial, C: Clock>(book: &mut B, clock: &C)
    requires going { B.going book.old }
    ensures since { EndsReading B.Serial C.gave book.old book.new }
    ensures rests { B.rests book.new }
    ensures shut { B.down book.new ≡ false → B.shut book.new }
    ensures down { B.down book.new ≡ B.down book.old }
    ensures items { StayAsTheyAre (B.items book.old) (B.items book.new) }
    ensures change { B.change book.new ≡ B.change book.old }
    ensures function { B.function book.new ≡ B.function book.old }
{
    let moment = clock.now();
    book.end_input(moment);
}

/// Reads all of the input, passes its items to the book in lists of at most 10,000, and notes its end. Then it asks the
/// book, calls, one call after the other, and pauses, for at most a second, until nothing is left, all calls allowed were
/// made, or the book is down. If the book went down while the input was read, nothing is asked. `name` is the function's.
/// `OutOfMemory` may end the run at any point; if memory runs out while the input is read, no end of the input is noted, and
/// no call was made.
pub fn run_serial<R: Threads + Wait + Sync, B: Serial, S: Source, C: Clock, F: Caller>(
    rt: &R,
    alloc: Global,
    book: B,
    input: Input<S>,
    name: &str,
    caller: &mut F,
    clock: &C,
) -> Ran<B, S>
    requires fresh { B.fresh book }
    requires name { name.now ≡ B.function book }
    requires kind { input.kind ≡ B.kind book }
    requires unread { handed input ≡ [] }
    requires good { input.failed ≡ false }
    // The calls that were made.
    ensures called { OnOk result.end (HasCalled B.Serial C.gave F.sends book result.book (F.log caller.old) (F.log caller.new)) }
    ensures rests { OnOk result.end (B.rests result.book) }
    ensures stopped { OnErr result.end (HasCalled B.Serial C.gave F.sends book result.book (F.log caller.old) (F.log caller.new)
        ⊎ HasOneMore B.Serial C.gave F.sends book result.book (F.log caller.old) (F.log caller.new)) }
    // How it ended, and what became of the input.
    ensures ended { IfOk result.end (EndsSo B.Serial result.book) }
    ensures came { IfOk result.end (CameSo B.Serial C.gave book result.book result.input (F.log caller.old) (F.log caller.new)) }
    ensures changed { (change : Change) → B.change result.book ≡ Some change → IsChangeOf B.Serial C.gave F.sends book result.book result.input change }
    ensures no_change { OnErr result.end (B.change result.book ≡ None) }
    ensures unasked { (change : Change) → B.change result.book ≡ Some change → F.log caller.new ≡ F.log caller.old }
    ensures uncalled { (change : Change) → B.change result.book ≡ Some change → (sends : List ℕ → List ℕ) → B.since C.gave sends book result.book [] }
    ensures read { OnOk result.end (IsInput S.faults S.left result.input) }
    ensures good { OnOk result.end (result.input.failed ≡ false) }
    ensures cut { OnErr result.end (StopsSo B.Serial C.gave S.faults S.left book result.book result.input (F.log caller.old) (F.log caller.new)) }
    ensures input { IsSameInput input result.input }
{
    book.begins();
    let mut book = book;
    let mut input = input;
    match read_all(rt, alloc, &mut book, &mut input, clock) {
        Ok(()) => {
            note_end(&mut book, clock);
            let end = call_all(rt, alloc, &mut book, name, caller, clock);
            Ran { end, book, input }
        }
        Err(Stop::Down) => {
            note_end(&mut book, clock);
            Ran {
                end: Ok(RunEnd::Down),
                book,
                input,
            }
        }
        Err(Stop::OutOfMemory) => Ran {
            end: Err(OutOfMemory),
            book,
            input,
        },
    }
}
