// What the reader does at its seat between two pieces of the input.
ghost use Rattle.std.specs.Prelude.{◌≡◌, ◌≤◌, ℕ, None, true, false, length, All, IfErr, OnOk};
ghost use mathlib.Core.List.{IsPrefix};
ghost use Rattle.esm_model.specs.declared.limits.TheConstants.{MAX_BATCH};
ghost use Rattle.esm_model.specs.Books.{entries_told};
ghost use Rattle.esm_model.specs.Entries.{is_shut};
ghost use Rattle.esm_model.specs.Items.{IsValidItem};
ghost use Rattle.esm_model.specs.Coming.{Come, SomeCome, StayAsTheyAre, FitBehind};
ghost use Rattle.esm_workers.specs.Seated.{IsSeated};
ghost use Rattle.esm_pool.specs.Readings.{IsStopAt, IsStopFor, MayGoOn, stop_of};

use esm_io::Clock;
use esm_model::{CameError, Item, MAX_BATCH, OutOfMemory, Pooled};
use esm_turn::{Held, Seat, Turn};
use esm_workers::{show, watched};
use std::alloc::Global;
use std::sync::Wait;

/// Why the reader passes on no more items, though there is more to read.
#[derive(Drop, Debug)]
pub enum Stop {
    /// The book is down.
    Down,
    /// All calls allowed were made, while more was awaited.
    Spent,
    OutOfMemory,
}

impl From<OutOfMemory> for Stop {
    ghost use Rattle.std.specs.Prelude.{◌≡◌};
    ghost use Rattle.esm_pool.specs.declared.coming.Stop.{Stop};

    ghost from_gives = { λ _ e. e ≡ Stop.OutOfMemory };

    fn from(_: OutOfMemory) -> Stop {
        Stop::OutOfMemory
    }
}

/// Returns why the reader stops if its list was refused for this reason.
fn stopped(came: Result<(), CameError>) -> Result<(), Stop>
    ensures { result ≡ stop_of came }
{
    match came {
        Ok(()) => Ok(()),
        Err(CameError::OutOfMemory) => Err(Stop::OutOfMemory),
        Err(_) => Err(Stop::Down),
    }
}

/// Brings the items to the book, at the turn.
fn note<R: Wait, B: Pooled, C: Clock>(
    rt: &R,
    alloc: Global,
    turn: &Turn<B>,
    seat: &mut Seat<B>,
    list: Vec<Item>,
    clock: &C,
) -> Result<(), Stop>
    requires seated { IsSeated B.author B.may_follow C.gave turn.now 0 seat.old }
    requires going { is_shut (entries_told seat.old.seen) ≡ false }
    requires unchanged { seat.old.change ≡ None }
    requires few { length list.items ≤ MAX_BATCH }
    requires valid { All (IsValidItem (B.kind turn.now.setup)) list.items }
    requires within { FitBehind (B.items seat.old.seen) list.items }
    requires given { (m : ℕ) → C.gave m ≡ true → B.given m ≡ true }
    ensures seated { IsSeated B.author B.may_follow C.gave turn.now 0 seat.new }
    ensures going { is_shut (entries_told seat.new.seen) ≡ false }
    ensures unchanged { OnOk result (seat.new.change ≡ None) }
    ensures came { OnOk result (Come (B.items seat.old.seen) (B.items seat.new.seen) list.items) }
    ensures some { SomeCome (B.items seat.old.seen) (B.items seat.new.seen) list.items }
    ensures stop { IfErr result (IsStopFor B.items B.differs turn.now.setup seat.old.seen list.items seat.new.seen seat.new.mark seat.new.change) }
{
    B::stays();
    let moment = clock.now();
    let Held { mut value } = turn.take(rt, seat);
    let came = value.bring(alloc, list, moment);
    let progress = watched(clock, &value);
    turn.give(seat, Held { value });
    show(clock, progress);
    stopped(came)
}

/// Passes the items on, in lists of at most 10,000.
pub(crate) fn hand_on<R: Wait, B: Pooled, C: Clock>(
    rt: &R,
    alloc: Global,
    turn: &Turn<B>,
    seat: &mut Seat<B>,
    items: Vec<Item>,
    clock: &C,
) -> Result<(), Stop>
    requires seated { IsSeated B.author B.may_follow C.gave turn.now 0 seat.old }
    requires going { is_shut (entries_told seat.old.seen) ≡ false }
    requires unchanged { seat.old.change ≡ None }
    requires valid { All (IsValidItem (B.kind turn.now.setup)) items.items }
    requires within { FitBehind (B.items seat.old.seen) items.items }
    requires given { (m : ℕ) → C.gave m ≡ true → B.given m ≡ true }
    ensures seated { IsSeated B.author B.may_follow C.gave turn.now 0 seat.new }
    ensures going { is_shut (entries_told seat.new.seen) ≡ false }
    ensures unchanged { OnOk result (seat.new.change ≡ None) }
    ensures came { OnOk result (Come (B.items seat.old.seen) (B.items seat.new.seen) items.items) }
    ensures some { SomeCome (B.items seat.old.seen) (B.items seat.new.seen) items.items }
    ensures stop { IfErr result (IsStopFor B.items B.differs turn.now.setup seat.old.seen items.items seat.new.seen seat.new.mark seat.new.change) }
{
    let mut rest = items;
    while rest.len() > MAX_BATCH {
        let Ok(later) = rest.split_off(MAX_BATCH) else {
            return Err(Stop::OutOfMemory);
        };
        note(rt, alloc, turn, seat, rest, clock)?;
        rest = later;
    }
    note(rt, alloc, turn, seat, rest, clock)
}

/// Returns why the reader that waits for more stops: the book is down, or all calls allowed were made. Otherwise it
/// continues.
fn stop_at<B: Pooled>(book: &B) -> Result<(), Stop>
    ensures stop { IfErr result (IsStopAt B.spent (B.setup book.now) (B.history book.now) (B.mark book.now)) }
    ensures goes_on { OnOk result (MayGoOn B.spent (B.setup book.now) (B.history book.now) (B.mark book.now)) }
{
    if book.marked() {
        return Err(Stop::Down);
    }
    if book.is_spent() {
        return Err(Stop::Spent);
    }
    Ok(())
}

/// Checks whether the reader that waits for more continues: the book is up, and not all calls allowed were made.
pub(crate) fn look<R: Wait, B: Pooled, C: Clock>(
    rt: &R,
    turn: &Turn<B>,
    seat: &mut Seat<B>,
    clock: &C,
) -> Result<(), Stop>
    requires seated { IsSeated B.author B.may_follow C.gave turn.now 0 seat.old }
    requires going { is_shut (entries_told seat.old.seen) ≡ false }
    ensures seated { IsSeated B.author B.may_follow C.gave turn.now 0 seat.new }
    ensures going { is_shut (entries_told seat.new.seen) ≡ false }
    ensures same { StayAsTheyAre (B.items seat.old.seen) (B.items seat.new.seen) }
    ensures unchanged { seat.new.change ≡ seat.old.change }
    ensures stop { IfErr result (IsStopAt B.spent turn.now.setup seat.new.seen seat.new.mark) }
    ensures goes_on { OnOk result (MayGoOn B.spent turn.now.setup seat.new.seen seat.new.mark) }
{
    B::stays();
    let Held { value } = turn.take(rt, seat);
    let stop = stop_at(&value);
    let progress = watched(clock, &value);
    turn.give(seat, Held { value });
    show(clock, progress);
    stop
}

/// Notes the end of the input in the book, at the turn, unless the book is down.
pub(crate) fn note_end<R: Wait, B: Pooled, C: Clock>(
    rt: &R,
    turn: &Turn<B>,
    seat: &mut Seat<B>,
    clock: &C,
)
    requires seated { IsSeated B.author B.may_follow C.gave turn.now 0 seat.old }
    requires going { is_shut (entries_told seat.old.seen) ≡ false }
    requires given { (m : ℕ) → C.gave m ≡ true → B.given m ≡ true }
    ensures seated { IsSeated B.author B.may_follow C.gave turn.now 0 seat.new }
    ensures grows { IsPrefix seat.old.seen seat.new.seen }
    ensures marked { seat.old.mark ≡ true → seat.new.mark ≡ true }
    ensures same { StayAsTheyAre (B.items seat.old.seen) (B.items seat.new.seen) }
    ensures shut { seat.new.mark ≡ false → is_shut (entries_told seat.new.seen) ≡ true }
    ensures unchanged { seat.new.change ≡ seat.old.change }
    ensures spent { B.spent turn.now.setup seat.old.seen → B.spent turn.now.setup seat.new.seen }
{
    B::stays();
    let moment = clock.now();
    let Held { mut value } = turn.take(rt, seat);
    value.end_input(moment);
    turn.give(seat, Held { value });
}
