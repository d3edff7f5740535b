// The batchers' work over a book whose reader has ended.
ghost use Rattle.std.specs.Prelude.{◌≡◌, ◌⊎◌, ◌+◌, ◌≤◌, ◌<◌, [], ℕ, List, true, false, length, Option, vec_capacity};
ghost use Rattle.esm_model.specs.declared.limits.TheConstants.{MAX_LANES};
ghost use Rattle.esm_model.specs.declared.book.Change.{Change};
ghost use Rattle.esm_model.specs.declared.setup.Told.{Told};
ghost use Rattle.esm_model.specs.Books.{entries_told};
ghost use Rattle.esm_model.specs.Entries.{is_shut};
ghost use Rattle.esm_model.specs.Kept.{IsLegal, entries_of};
ghost use Rattle.esm_model.specs.GoingOn.{AllGiven, OwnFollowShut};
ghost use Rattle.esm_workers.specs.Hands.{meanings, HasBegun, GoesOnFrom, TellsOf};

use crate::hand::Hand;
use crate::pack::{pack, unpack};
use crate::working::call_some;
use esm_io::{Caller, Clock};
use esm_model::{MAX_LANES, Pooled, Refused};
use esm_turn::{Seat, Turn};
use std::alloc::Global;
use std::sync::Wait;
use std::thread::Threads;

// What the batchers leave, and whether memory ran out for one of them.
pub(crate) struct Behind<T, F> {
    pub(crate) book: T,
    pub(crate) callers: Vec<F>,
    pub(crate) short: bool,
}

// No batcher begins: all comes back as it was.
fn none_begins<T: Pooled, C: Clock, F: Caller>(
    book: T,
    callers: Vec<F>,
    batchers: u32,
    clock: &C,
    hands: Vec<Hand<T, F>>,
    short: bool,
) -> Behind<T, F>
    requires legal { IsLegal (T.may_follow (T.setup book)) (T.history book) }
    requires moments { AllGiven C.gave [] (T.history book) }
    requires unused { (n : ℕ) → 0 < n → entries_of (T.author (T.setup book)) n (T.history book) ≡ [] }
    requires why { (short ≡ true) ⊎ (T.mark book ≡ true) }
    requires empty { hands.items ≡ [] }
    ensures book { (result.book ≡ book) × (result.callers ≡ callers) × (result.short ≡ short) }
    ensures tells { TellsOf (meanings T.Kept T.Pooled.own C.Clock F.Caller) (T.setup book) batchers
        (T.history result.book) (T.mark result.book) result.short callers.items result.callers.items }
    ensures goes_on { GoesOnFrom T.author T.may_follow (T.setup book) 0 (T.history book) (T.history result.book) }
    ensures later { (k : ℕ) → OwnFollowShut (T.author (T.setup book)) (k + 1) [] (T.history result.book) }
{
    T::begins();
    T::stays();
    hands.destroy_empty();
    Behind {
        book,
        callers,
        short,
    }
}

// Has the first `batchers` batchers work at this turn over the book, and then closes the turn.
fn call_at<R: Threads + Wait + Sync, T: Pooled + Send, C: Clock + Sync, F: Caller + Send>(
    rt: &R,
    alloc: Global,
    turn: Turn<T>,
    mut seats: Vec<Seat<T>>,
    mut callers: Vec<F>,
    batchers: u32,
    name: &str,
    clock: &C,
    mut hands: Vec<Hand<T, F>>,
) -> Behind<T, F>
    requires begun { (h : List Told) × (change : Option Change) × HasBegun (meanings T.Kept T.Pooled.own C.Clock F.Caller) turn h change seats.items }
    requires name { name.now ≡ turn.setup.config.function }
    requires seats { turn.seats ≡ MAX_LANES + 1 }
    requires callers { length callers.items ≡ MAX_LANES }
    requires batchers { batchers ≤ MAX_LANES }
    requires hands { (hands.items ≡ []) × (MAX_LANES ≤ vec_capacity hands) }
    requires given { (m : ℕ) → C.gave m ≡ true → T.given m ≡ true }
    ensures setup { T.setup result.book ≡ turn.setup }
    ensures tells { (h : List Told) (change : Option Change) → HasBegun (meanings T.Kept T.Pooled.own C.Clock F.Caller) turn h change seats.items →
        TellsOf (meanings T.Kept T.Pooled.own C.Clock F.Caller) turn.setup batchers
        (T.history result.book) (T.mark result.book) result.short callers.items result.callers.items }
    ensures goes_on { (h : List Told) (change : Option Change) → HasBegun (meanings T.Kept T.Pooled.own C.Clock F.Caller) turn h change seats.items →
        GoesOnFrom T.author T.may_follow turn.setup 0 h (T.history result.book) }
    ensures later { (h : List Told) (change : Option Change) → HasBegun (meanings T.Kept T.Pooled.own C.Clock F.Caller) turn h change seats.items →
        is_shut (entries_told h) ≡ true → (k : ℕ) → OwnFollowShut (T.author turn.setup) (k + 1) [] (T.history result.book) }
    ensures change { (h : List Told) (change : Option Change) → HasBegun (meanings T.Kept T.Pooled.own C.Clock F.Caller) turn h change seats.items →
        T.change result.book ≡ change }
{
    let first = pack(&mut seats, &mut callers, &mut hands);
    let short = call_some(rt, alloc, &turn, clock, name, batchers as usize, &mut hands);
    unpack(first, hands, &mut seats, &mut callers);
    T::begins();
    T::stays();
    let book = turn.close(seats);
    Behind {
        book,
        callers,
        short,
    }
}

// Has the first `batchers` batchers work over the book, each in a thread of its own, unless the book is down. If there is no
// memory for the turn, none begins.
pub(crate) fn call_behind<
    R: Threads + Wait + Sync,
    T: Pooled + Send,
    C: Clock + Sync,
    F: Caller + Send,
>(
    rt: &R,
    alloc: Global,
    book: T,
    callers: Vec<F>,
    batchers: u32,
    name: &str,
    clock: &C,
    hands: Vec<Hand<T, F>>,
) -> Behind<T, F>
    requires legal { IsLegal (T.may_follow (T.setup book)) (T.history book) }
    requires moments { AllGiven C.gave [] (T.history book) }
    requires unused { (n : ℕ) → 0 < n → entries_of (T.author (T.setup book)) n (T.history book) ≡ [] }
    requires shut { T.mark book ≡ false → is_shut (entries_told (T.history book)) ≡ true }
    requires name { name.now ≡ (T.setup book).config.function }
    requires callers { length callers.items ≡ MAX_LANES }
    requires batchers { batchers ≤ MAX_LANES }
    requires hands { (hands.items ≡ []) × (MAX_LANES ≤ vec_capacity hands) }
    requires given { (m : ℕ) → C.gave m ≡ true → T.given m ≡ true }
    ensures setup { T.setup result.book ≡ T.setup book }
    ensures tells { TellsOf (meanings T.Kept T.Pooled.own C.Clock F.Caller) (T.setup book) batchers
        (T.history result.book) (T.mark result.book) result.short callers.items result.callers.items }
    ensures goes_on { GoesOnFrom T.author T.may_follow (T.setup book) 0 (T.history book) (T.history result.book) }
    ensures later { (k : ℕ) → OwnFollowShut (T.author (T.setup book)) (k + 1) [] (T.history result.book) }
    ensures marked { T.mark book ≡ true → T.mark result.book ≡ true }
    ensures change { T.change result.book ≡ T.change book }
{
    if book.marked() {
        return none_begins(book, callers, batchers, clock, hands, false);
    }
    match Turn::new(alloc, book, MAX_LANES as u32 + 1) {
        Ok((turn, seats)) => call_at(
            rt, alloc, turn, seats, callers, batchers, name, clock, hands,
        ),
        Err(Refused { why: _, back }) => none_begins(back, callers, batchers, clock, hands, true),
    }
}
