// Reads all of a book's input before its first call.
ghost use Rattle.std.specs.Prelude.{◌≡◌, ◌≤◌, None, false, length, All, IfErr, OnOk, IsErrOf, IsSome};
ghost use Rattle.esm_model.specs.declared.limits.TheConstants.{MAX_BATCH};
ghost use Rattle.esm_model.specs.Items.{IsValidItem};
ghost use Rattle.esm_model.specs.Coming.{Come, SomeCome, FitBehind, AreCome};
ghost use Rattle.esm_input.specs.Reading.{IsInput, handed};
ghost use Rattle.esm_serial.specs.Ran.{IsSameInput};
ghost use Rattle.esm_serial.specs.Readings.{Brings, IsStopFor, IsStopOf, stop_of};

use crate::serial::Serial;
use esm_input::Input;
use esm_input::laws::handed_is_within;
use esm_io::{Clock, Source};
use esm_model::{CameError, Item, MAX_BATCH, OutOfMemory};
use std::alloc::Global;
use std::sync::Wait;
use std::thread::Threads;

/// Why reading stops, though there may be more to read.
#[derive(Clone, Copy, Debug, PartialEq, Eq)]
pub enum Stop {
    /// The book is down.
    Down,
    OutOfMemory,
}

impl From<OutOfMemory> for Stop {
    ghost use Rattle.std.specs.Prelude.{◌≡◌};
    ghost use Rattle.esm_serial.specs.declared.reading.Stop.{Stop};

    ghost from_gives = { λ _ e. e ≡ Stop.OutOfMemory };

    fn from(_: OutOfMemory) -> Stop {
        Stop::OutOfMemory
    }
}

/// Returns why reading stops if a list was refused for this reason.
fn stopped(came: Result<(), CameError>) -> Result<(), Stop>
    ensures { result ≡ stop_of came }
{
    match came {
        Ok(()) => Ok(()),
        Err(CameError::OutOfMemory) => Err(Stop::OutOfMemory),
        Err(_) => Err(Stop::Down),
    }
}

/// Brings the items to the book.
fn note<B: Serial, C: Clock>(
    alloc: Global,
    book: &mut B,
    list: Vec<Item>,
    clock: &C,
) -> Result<(), Stop>
    requires going { B.going book.old }
    requires unchanged { B.change book.old ≡ None }
    requires few { length list.items ≤ MAX_BATCH }
    requires valid { All (IsValidItem (B.kind book.old)) list.items }
    requires within { FitBehind (B.items book.old) list.items }
    ensures brings { Brings B.Serial C.gave book.old book.new }
    ensures came { OnOk result (Come (B.items book.old) (B.items book.new) list.items) }
    ensures some { SomeCome (B.items book.old) (B.items book.new) list.items }
    ensures up { OnOk result (B.down book.new ≡ false) }
    ensures unchanged { OnOk result (B.change book.new ≡ None) }
    ensures stop { IfErr result (IsStopFor B.Serial C.gave book.old list.items book.new) }
{
    let moment = clock.now();
    let came = book.bring(alloc, list, moment);
    stopped(came)
}

/// Passes the items on, in lists of at most 10,000.
fn hand_on<B: Serial, C: Clock>(
    alloc: Global,
    book: &mut B,
    items: Vec<Item>,
    clock: &C,
) -> Result<(), Stop>
    requires going { B.going book.old }
    requires unchanged { B.change book.old ≡ None }
    requires valid { All (IsValidItem (B.kind book.old)) items.items }
    requires within { FitBehind (B.items book.old) items.items }
    ensures brings { Brings B.Serial C.gave book.old book.new }
    ensures came { OnOk result (Come (B.items book.old) (B.items book.new) items.items) }
    ensures some { SomeCome (B.items book.old) (B.items book.new) items.items }
    ensures up { OnOk result (B.down book.new ≡ false) }
    ensures unchanged { OnOk result (B.change book.new ≡ None) }
    ensures stop { IfErr result (IsStopFor B.Serial C.gave book.old items.items book.new) }
{
    let mut rest = items;
    while rest.len() > MAX_BATCH {
        let Ok(later) = rest.split_off(MAX_BATCH) else {
            return Err(Stop::OutOfMemory);
        };
        note(alloc, book, rest, clock)?;
        rest = later;
    }
    note(alloc, book, rest, clock)
}

/// States what holds of every input. Does nothing.
fn stands<S: Source>(input: &Input<S>)
    ensures { input.now.failed ≡ false → IsInput S.faults S.left input.now }
{
    let _end = input.end();
}

/// Reads the input to its end and passes its items on, piece by piece. It waits for each piece.
pub(crate) fn read_all<R: Threads + Wait + Sync, B: Serial, S: Source, C: Clock>(
    rt: &R,
    alloc: Global,
    book: &mut B,
    input: &mut Input<S>,
    clock: &C,
) -> Result<(), Stop>
    requires going { B.going book.old }
    requires unchanged { B.change book.old ≡ None }
    requires up { B.down book.old ≡ false }
    requires came { AreCome (B.items book.old) (handed input.old) }
    requires kind { input.old.kind ≡ B.kind book.old }
    requires good { input.old.failed ≡ false }
    // What arrived.
    ensures brings { Brings B.Serial C.gave book.old book.new }
    ensures came { OnOk result (AreCome (B.items book.new) (handed input.new)) }
    ensures end { OnOk result (IsSome input.new.end) }
    ensures up { OnOk result (B.down book.new ≡ false) }
    ensures unchanged { OnOk result (B.change book.new ≡ None) }
    ensures stop { IfErr result (IsStopOf B.Serial C.gave S.left book.old input.new book.new) }
    // What was read.
    ensures read { (IsErrOf result Stop.OutOfMemory → ⊥) → IsInput S.faults S.left input.new }
    ensures good { (IsErrOf result Stop.OutOfMemory → ⊥) → input.new.failed ≡ false }
    ensures input { IsSameInput input.old input.new }
{
    handed_is_within();
    for _ in rt.forever() {
        stands(input);
        if input.end().is_some() {
            return Ok(());
        }
        let items = input.read(rt, alloc)?;
        stands(input);
        hand_on(alloc, book, items, clock)?;
    }
    unreachable!()
}
