// The run of a book's reader and batchers, which takes the book and gives it back.
ghost use Rattle.std.specs.Prelude.{◌≡◌, ◌⊎◌, ◌+◌, ◌<◌, ◌≤◌, [], ℕ, true, false, length, None, IfOk, IfErr, vec_capacity};
ghost use Rattle.esm_model.specs.Books.{entries_told};
ghost use Rattle.esm_model.specs.Entries.{is_shut};
ghost use Rattle.esm_model.specs.Kept.{IsLegal, entries_of};
ghost use Rattle.esm_model.specs.GoingOn.{AllGiven, OwnFollowShut};
ghost use Rattle.esm_turn.specs.Seats.{AreBegun};
ghost use Rattle.esm_workers.specs.Working.{outside};
ghost use Rattle.esm_workers.specs.Hands.{meanings, TellsOf};
ghost use Rattle.esm_workers.specs.Shared.{WasRead, HaveCalled};

use crate::behind::{Behind, call_behind};
use crate::hand::{Hand, ReaderHand};
use crate::pack::{pack, unpack};
use crate::reading::Reading;
use crate::working::{read, read_and_call};
use esm_io::{Caller, Clock};
use esm_model::{MAX_LANES, OutOfMemory, Pooled, Refused};
use esm_turn::{Seat, Turn};
use std::alloc::Global;
use std::sync::Wait;
use std::thread::Threads;

/// What a run of a book's reader and batchers leaves, and whether memory ran out for one of them.
pub struct Ran<T, W, F> {
    pub book: T,
    pub reader: W,
    pub callers: Vec<F>,
    pub short: bool,
}

// Has the reader read alone at this turn, and then closes the turn. Also returns whether memory ran out.
fn read_alone<R: Threads + Wait + Sync, T: Pooled, W: Reading<T>, C: Clock>(
    rt: &R,
    alloc: Global,
    turn: Turn<T>,
    mut seats: Vec<Seat<T>>,
    reader: &mut W,
    clock: &C,
) -> (T, bool)
    requires begun { AreBegun T.author [] None turn seats.items }
    requires seats { turn.seats ≡ MAX_LANES + 1 }
    requires ready { W.ready turn.setup reader.old }
    requires given { (m : ℕ) → C.gave m ≡ true → T.given m ≡ true }
    ensures setup { T.setup result.0 ≡ turn.setup }
    ensures legal { IsLegal (T.may_follow turn.setup) (T.history result.0) }
    ensures moments { AllGiven C.gave [] (T.history result.0) }
    ensures unused { (n : ℕ) → 0 < n → entries_of (T.author turn.setup) n (T.history result.0) ≡ [] }
    ensures read { WasRead T.author T.may_follow (W.read turn.setup reader.old reader.new) turn.setup
        (T.history result.0) (T.mark result.0) (T.change result.0) result.1 }
    ensures shut { T.mark result.0 ≡ false → is_shut (entries_told (T.history result.0)) ≡ true }
{
    let short = read(rt, alloc, &turn, clock, reader, &mut seats[0]);
    (turn.close(seats), short)
}

// Has the reader read, and then the first `batchers` batchers work.
fn read_then_call<
    R: Threads + Wait + Sync,
    T: Pooled + Send,
    W: Reading<T>,
    C: Clock + Sync,
    F: Caller + Send,
>(
    rt: &R,
    alloc: Global,
    turn: Turn<T>,
    seats: Vec<Seat<T>>,
    mut reader: W,
    callers: Vec<F>,
    batchers: u32,
    name: &str,
    clock: &C,
    hands: Vec<Hand<T, F>>,
) -> Ran<T, W, F>
    requires begun { AreBegun T.author [] None turn seats.items }
    requires seats { turn.seats ≡ MAX_LANES + 1 }
    requires ready { W.ready turn.setup reader }
    requires name { name.now ≡ turn.setup.config.function }
    requires callers { length callers.items ≡ MAX_LANES }
    requires batchers { batchers ≤ MAX_LANES }
    requires hands { (hands.items ≡ []) × (MAX_LANES ≤ vec_capacity hands) }
    requires given { (m : ℕ) → C.gave m ≡ true → T.given m ≡ true }
    ensures setup { T.setup result.book ≡ turn.setup }
    ensures read { WasRead T.author T.may_follow (W.read turn.setup reader result.reader) turn.setup
        (T.history result.book) (T.mark result.book) (T.change result.book) result.short }
    ensures tells { TellsOf (meanings T.Kept T.Pooled.own C.Clock F.Caller) turn.setup batchers
        (T.history result.book) (T.mark result.book) result.short callers.items result.callers.items }
    ensures later { (k : ℕ) → OwnFollowShut (T.author turn.setup) (k + 1) [] (T.history result.book) }
{
    let (book, read_short) = read_alone(rt, alloc, turn, seats, &mut reader, clock);
    let Behind {
        book,
        callers,
        short,
    } = call_behind(rt, alloc, book, callers, batchers, name, clock, hands);
    Ran {
        book,
        reader,
        callers,
        short: read_short || short,
    }
}

// Has the reader read, and the first `batchers` batchers work beside it.
fn read_along<
    R: Threads + Wait + Sync,
    T: Pooled + Send,
    W: Reading<T>,
    C: Clock + Sync,
    F: Caller + Send,
>(
    rt: &R,
    alloc: Global,
    turn: Turn<T>,
    mut seats: Vec<Seat<T>>,
    reader: W,
    mut callers: Vec<F>,
    batchers: u32,
    name: &str,
    clock: &C,
    mut hands: Vec<Hand<T, F>>,
) -> Ran<T, W, F>
    requires begun { AreBegun T.author [] None turn seats.items }
    requires seats { turn.seats ≡ MAX_LANES + 1 }
    requires ready { W.ready turn.setup reader }
    requires name { name.now ≡ turn.setup.config.function }
    requires callers { length callers.items ≡ MAX_LANES }
    requires batchers { batchers ≤ MAX_LANES }
    requires hands { (hands.items ≡ []) × (MAX_LANES ≤ vec_capacity hands) }
    requires given { (m : ℕ) → C.gave m ≡ true → T.given m ≡ true }
    ensures setup { T.setup result.book ≡ turn.setup }
    ensures read { WasRead T.author T.may_follow (W.read turn.setup reader result.reader) turn.setup
        (T.history result.book) (T.mark result.book) (T.change result.book) result.short }
    ensures tells { TellsOf (meanings T.Kept T.Pooled.own C.Clock F.Caller) turn.setup batchers
        (T.history result.book) (T.mark result.book) result.short callers.items result.callers.items }
{
    let seat = pack(&mut seats, &mut callers, &mut hands);
    let mut first = ReaderHand { seat, reader };
    let short = read_and_call(
        rt,
        alloc,
        &turn,
        clock,
        name,
        batchers as usize,
        &mut first,
        &mut hands,
    );
    let ReaderHand { seat, reader } = first;
    unpack(seat, hands, &mut seats, &mut callers);
    T::begins();
    T::stays();
    let book = turn.close(seats);
    Ran {
        book,
        reader,
        callers,
        short,
    }
}

// Has the reader read, and the first `batchers` batchers work beside it, or after it with `read_first`.
fn run_at<
    R: Threads + Wait + Sync,
    T: Pooled + Send,
    W: Reading<T>,
    C: Clock + Sync,
    F: Caller + Send,
>(
    rt: &R,
    alloc: Global,
    turn: Turn<T>,
    seats: Vec<Seat<T>>,
    reader: W,
    callers: Vec<F>,
    batchers: u32,
    name: &str,
    clock: &C,
    read_first: bool,
    hands: Vec<Hand<T, F>>,
) -> Ran<T, W, F>
    requires begun { AreBegun T.author [] None turn seats.items }
    requires seats { turn.seats ≡ MAX_LANES + 1 }
    requires ready { W.ready turn.setup reader }
    requires name { name.now ≡ turn.setup.config.function }
    requires callers { length callers.items ≡ MAX_LANES }
    requires batchers { batchers ≤ MAX_LANES }
    requires hands { (hands.items ≡ []) × (MAX_LANES ≤ vec_capacity hands) }
    requires given { (m : ℕ) → C.gave m ≡ true → T.given m ≡ true }
    ensures setup { T.setup result.book ≡ turn.setup }
    ensures read { WasRead T.author T.may_follow (W.read turn.setup reader result.reader) turn.setup
        (T.history result.book) (T.mark result.book) (T.change result.book) result.short }
    ensures tells { TellsOf (meanings T.Kept T.Pooled.own C.Clock F.Caller) turn.setup batchers
        (T.history result.book) (T.mark result.book) result.short callers.items result.callers.items }
    ensures later { read_first ≡ true → (k : ℕ) → OwnFollowShut (T.author turn.setup) (k + 1) [] (T.history result.book) }
{
    if read_first {
        return read_then_call(
            rt, alloc, turn, seats, reader, callers, batchers, name, clock, hands,
        );
    }
    read_along(
        rt, alloc, turn, seats, reader, callers, batchers, name, clock, hands,
    )
}

/// Has the reader and the first `batchers` batchers work on the book until each has ended. Caller `k` is batcher `k`'s, and
/// `name` is the function's. The reader works in this thread, and each batcher in a thread of its own; batchers for which no
/// thread can be made work one after the other. With `read_first` the batchers begin once the reader has ended, unless the
/// book is down. `OutOfMemory`, with everything as it was, if there is no memory to begin; if memory runs out later, `short`
/// says so.
pub fn run_hands<
    R: Threads + Wait + Sync,
    T: Pooled + Send,
    W: Reading<T> + Send,
    C: Clock + Sync,
    F: Caller + Send,
>(
    rt: &R,
    alloc: Global,
    book: T,
    reader: W,
    callers: Vec<F>,
    batchers: u32,
    name: &str,
    clock: &C,
    read_first: bool,
) -> Result<Ran<T, W, F>, Refused<OutOfMemory, (T, W, Vec<F>)>>
    requires new { T.history book ≡ [] }
    requires unchanged { T.change book ≡ None }
    requires ready { W.ready (T.setup book) reader }
    requires name { name.now ≡ (T.setup book).config.function }
    requires callers { length callers.items ≡ MAX_LANES }
    requires batchers { batchers ≤ MAX_LANES }
    requires given { (m : ℕ) → C.gave m ≡ true → T.given m ≡ true }
    // What the book says.
    ensures setup { IfOk result (λ ran. T.setup ran.book ≡ T.setup book) }
    ensures legal { IfOk result (λ ran. IsLegal (T.may_follow (T.setup book)) (T.history ran.book)) }
    ensures moments { IfOk result (λ ran. AllGiven C.gave [] (T.history ran.book)) }
    // What the reader and the batchers did.
    ensures read { IfOk result (λ ran. WasRead T.author T.may_follow (W.read (T.setup book) reader ran.reader) (T.setup book)
        (T.history ran.book) (T.mark ran.book) (T.change ran.book) ran.short) }
    ensures called { IfOk result (λ ran. HaveCalled T.calls T.rests T.runs (outside C.gave F.sends F.log) (T.setup book)
        (T.history ran.book) ran.short batchers callers.items ran.callers.items) }
    ensures later { IfOk result (λ ran. read_first ≡ true → (k : ℕ) → OwnFollowShut (T.author (T.setup book)) (k + 1) [] (T.history ran.book)) }
    ensures ended { IfOk result (λ ran. ran.short ≡ false → T.mark ran.book ≡ false → (k : ℕ) → k < batchers →
        T.finished (T.setup book) (T.history ran.book) k ⊎ T.spent (T.setup book) (T.history ran.book)) }
    // What a refusal hands back.
    ensures back { IfErr result (λ refused. refused.back ≡ (book, reader, callers)) }
{
    let Ok(hands) = Vec::with_capacity(alloc, MAX_LANES) else {
        return Err(Refused {
            why: OutOfMemory,
            back: (book, reader, callers),
        });
    };
    match Turn::new(alloc, book, MAX_LANES as u32 + 1) {
        Ok((turn, seats)) => Ok(run_at(
            rt, alloc, turn, seats, reader, callers, batchers, name, clock, read_first, hands,
        )),
        Err(Refused { why, back }) => {
            hands.destroy_empty();
            Err(Refused {
                why,
                back: (back, reader, callers),
            })
        }
    }
}
