// A batcher's work, from its first question to its end.
ghost use Rattle.std.specs.Prelude.{◌≡◌, ◌<◌, ◌+◌, ◌++◌, ◌∷◌, [], ℕ, List, Ok, IfOk, IfSome, IfNone, OnOk, OnErr, IsErrOf, true};
ghost use mathlib.Core.List.{IsPrefix};
ghost use Rattle.esm_io.specs.Told.{Grows};
ghost use Rattle.esm_model.specs.declared.book.BookError.TheVariants as why;
ghost use Rattle.esm_model.specs.declared.limits.TheConstants.{MAX_LANES};
ghost use Rattle.esm_model.specs.Books.{entries_told};
ghost use Rattle.esm_model.specs.Entries.{is_shut};
ghost use Rattle.esm_model.specs.Kept.{meaning, added};
ghost use Rattle.esm_model.specs.Batching.{Answers, call_of};
ghost use Rattle.esm_model.specs.GoingOn.{AllAt, GoesOn, OwnFollowShut};
ghost use Rattle.esm_workers.specs.Rounds.{GoesOnFrom, IsAnswer, StopsWork, answer_of};
ghost use Rattle.esm_workers.specs.Seated.{IsSeated};
ghost use Rattle.esm_workers.specs.Working.{HasLogged, HasEnded};

use crate::watching::{show, watched};
use esm_event::write_event;
use esm_io::{Caller, Clock};
use esm_model::{BookError, Job, Next, OutOfMemory, Pooled, Reply};
use esm_turn::{Held, Seat, Turn};
use std::alloc::Global;
use std::sync::Wait;

/// The longest pause of a batcher, in milliseconds; then it asks again. This product's own.
const MAX_PAUSE: u64 = 1_000;

/// The longest first pause, in milliseconds, after a call or after records got a fate. Each further pause in a row may be twice
/// as long. This product's own.
const FIRST_PAUSE: u64 = 1;

// What a batcher takes from one round to the next: the memory in which the text of an event is written, and how many
// milliseconds it pauses at most.
#[derive(Drop)]
struct Carried {
    text: Vec<u8>,
    longest_pause: u64,
}

// Asks what the batcher does next. The moment is read before the turn is taken.
fn ask<R: Wait, T: Pooled, C: Clock>(
    rt: &R,
    alloc: Global,
    turn: &Turn<T>,
    seat: &mut Seat<T>,
    clock: &C,
    batcher: u32,
) -> Result<Next, BookError>
    requires number { batcher < MAX_LANES }
    requires seated { IsSeated T.author T.may_follow C.gave turn.now (batcher + 1) seat.old }
    requires rests { T.rests turn.now.setup seat.old.seen batcher }
    requires given { (m : ℕ) → C.gave m ≡ true → T.given m ≡ true }
    ensures seated { IsSeated T.author T.may_follow C.gave turn.now (batcher + 1) seat.new }
    ensures grows { IsPrefix seat.old.seen seat.new.seen }
    ensures no_end { (sends : List ℕ → List ℕ) → T.calls turn.now.setup sends seat.new.seen batcher ≡ T.calls turn.now.setup sends seat.old.seen batcher }
    ensures answer { IsAnswer T.rests T.runs T.finished T.spent turn.now.setup batcher seat.new.seen seat.new.mark result }
{
    T::stays();
    let moment = clock.now();
    let Held { mut value } = turn.take(rt, seat);
    let next = value.ask(alloc, batcher, moment);
    let progress = watched(clock, &value);
    turn.give(seat, Held { value });
    show(clock, progress);
    next
}

// Ends the batcher's call with this reply, and asks what the batcher does next. If there is no memory to note the end,
// nothing is noted or asked.
fn end_and_ask<T: Pooled>(
    book: &mut T,
    alloc: Global,
    batcher: u32,
    job: Job,
    reply: Reply,
    moment: u64,
) -> Result<Result<Next, BookError>, OutOfMemory>
    requires number { batcher < MAX_LANES }
    requires runs { T.runs (T.setup book.old) (T.history book.old) batcher job }
    requires given { T.given moment ≡ true }
    ensures goes_on { GoesOn (meaning T.Kept) (batcher + 1) book.old book.new }
    ensures moments { AllAt moment (T.history book.old) (added (T.history book.old) (T.history book.new)) }
    ensures answer { IfOk result (IsAnswer T.rests T.runs T.finished T.spent (T.setup book.old) batcher (T.history book.new) (T.mark book.new)) }
    ensures called { OnOk result ((sends : List ℕ → List ℕ) →
        T.calls (T.setup book.old) sends (T.history book.new) batcher ≡
        T.calls (T.setup book.old) sends (T.history book.old) batcher ++ call_of (T.setup book.old) sends job.event reply ∷ []) }
    ensures unchanged { OnErr result (T.history book.new ≡ T.history book.old) }
{
    match book.end_call(alloc, batcher, job, reply, moment) {
        Ok(_) => Ok(book.ask(alloc, batcher, moment)),
        Err(BookError::OutOfMemory) => Err(OutOfMemory),
        Err(why) => Ok(Err(why)),
    }
}

// Records at the turn that the batcher's call ended with this reply, and returns what the batcher does next. The moment is
// read before the turn is taken.
fn tell<R: Wait, T: Pooled, C: Clock>(
    rt: &R,
    alloc: Global,
    turn: &Turn<T>,
    seat: &mut Seat<T>,
    clock: &C,
    batcher: u32,
    job: Job,
    reply: Reply,
) -> Result<Result<Next, BookError>, OutOfMemory>
    requires number { batcher < MAX_LANES }
    requires seated { IsSeated T.author T.may_follow C.gave turn.now (batcher + 1) seat.old }
    requires runs { T.runs turn.now.setup seat.old.seen batcher job }
    requires given { (m : ℕ) → C.gave m ≡ true → T.given m ≡ true }
    ensures seated { IsSeated T.author T.may_follow C.gave turn.now (batcher + 1) seat.new }
    ensures grows { IsPrefix seat.old.seen seat.new.seen }
    // If the end is noted.
    ensures called { OnOk result ((sends : List ℕ → List ℕ) →
        T.calls turn.now.setup sends seat.new.seen batcher ≡
        T.calls turn.now.setup sends seat.old.seen batcher ++ call_of turn.now.setup sends job.event reply ∷ []) }
    ensures answer { IfOk result (IsAnswer T.rests T.runs T.finished T.spent turn.now.setup batcher seat.new.seen seat.new.mark) }
    // If it is not.
    ensures no_end { OnErr result ((sends : List ℕ → List ℕ) →
        T.calls turn.now.setup sends seat.new.seen batcher ≡ T.calls turn.now.setup sends seat.old.seen batcher) }
    ensures runs { OnErr result (T.runs turn.now.setup seat.new.seen batcher job) }
{
    T::stays();
    let moment = clock.now();
    let Held { mut value } = turn.take(rt, seat);
    let next = end_and_ask(&mut value, alloc, batcher, job, reply, moment);
    let progress = watched(clock, &value);
    turn.give(seat, Held { value });
    show(clock, progress);
    next
}

// Makes the call that began, with the text of its event, which is written into `text` unless it stands already. Then records
// the end of the call, and returns what the batcher does next.
fn make_call<R: Wait, T: Pooled, C: Clock, F: Caller>(
    rt: &R,
    alloc: Global,
    turn: &Turn<T>,
    seat: &mut Seat<T>,
    caller: &mut F,
    clock: &C,
    name: &str,
    batcher: u32,
    job: Job,
    text: &mut Vec<u8>,
) -> Result<Result<Next, BookError>, OutOfMemory>
    requires number { batcher < MAX_LANES }
    requires name { name.now ≡ turn.now.setup.config.function }
    requires seated { IsSeated T.author T.may_follow C.gave turn.now (batcher + 1) seat.old }
    requires runs { T.runs turn.now.setup seat.old.seen batcher job }
    requires given { (m : ℕ) → C.gave m ≡ true → T.given m ≡ true }
    ensures seated { IsSeated T.author T.may_follow C.gave turn.now (batcher + 1) seat.new }
    ensures grows { IsPrefix seat.old.seen seat.new.seen }
    ensures answer { IfOk result (IsAnswer T.rests T.runs T.finished T.spent turn.now.setup batcher seat.new.seen seat.new.mark) }
    ensures called { OnOk result (GoesOnFrom (T.calls turn.now.setup F.sends seat.old.seen batcher) (F.log caller.old)
        (λ first. Grows first (F.log caller.new) (T.calls turn.now.setup F.sends seat.new.seen batcher))) }
    ensures stopped { OnErr result (GoesOnFrom (T.calls turn.now.setup F.sends seat.old.seen batcher) (F.log caller.old)
        (λ first. HasLogged (T.runs turn.now.setup seat.new.seen batcher) turn.now.setup F.sends
        (T.calls turn.now.setup F.sends seat.new.seen batcher) first (F.log caller.new))) }
{
    let written = write_event(alloc, text, &job.event)?;
    let reply = caller.call(alloc, name, written)?;
    tell(rt, alloc, turn, seat, clock, batcher, job, reply)
}

// Pauses until the moment, in milliseconds, but for at most `longest_pause` milliseconds, and then doubles that, up to
// `MAX_PAUSE`.
fn pause<C: Clock>(clock: &C, until: u64, longest_pause: &mut u64) {
    let latest = clock.now().saturating_add(*longest_pause);
    clock.pause(until.min(latest));
    *longest_pause = longest_pause.saturating_mul(2).min(MAX_PAUSE);
}

// What is left for a batcher to do. An answer that ends its work leaves nothing.
enum Left {
    // Make this call.
    Call(Job),
    // Ask again: this many records got their fate.
    Gave(u32),
    // Pause until this moment, in milliseconds, and ask again.
    Idle { until: u64 },
}

// Returns what is left to do after the answer; nothing if it ends the batcher's work or the book is down.
fn left_after(answer: Result<Next, BookError>) -> Result<Option<Left>, OutOfMemory>
    ensures goes { IfOk result (λ left. IfSome left (λ l. answer ≡ Ok (answer_of l))) }
    ensures stops { IfOk result (λ left. IfNone left (StopsWork answer)) }
    ensures memory { OnErr result (IsErrOf answer why.OutOfMemory) }
{
    match answer {
        Ok(Next::Call(job)) => Ok(Some(Left::Call(job))),
        Ok(Next::Gave(count)) => Ok(Some(Left::Gave(count))),
        Ok(Next::Idle { until }) => Ok(Some(Left::Idle { until })),
        Ok(Next::Spent | Next::Finished) => Ok(None),
        Err(BookError::OutOfMemory) => Err(OutOfMemory),
        Err(_) => Ok(None),
    }
}

// Does what is left for the batcher, and returns what it does next.
fn round<R: Wait, T: Pooled, C: Clock, F: Caller>(
    rt: &R,
    alloc: Global,
    turn: &Turn<T>,
    seat: &mut Seat<T>,
    caller: &mut F,
    clock: &C,
    name: &str,
    batcher: u32,
    left: Left,
    carried: &mut Carried,
) -> Result<Result<Next, BookError>, OutOfMemory>
    requires number { batcher < MAX_LANES }
    requires name { name.now ≡ turn.now.setup.config.function }
    requires seated { IsSeated T.author T.may_follow C.gave turn.now (batcher + 1) seat.old }
    requires answer { Answers T.rests T.runs turn.now.setup seat.old.seen batcher (answer_of left) }
    requires given { (m : ℕ) → C.gave m ≡ true → T.given m ≡ true }
    ensures seated { IsSeated T.author T.may_follow C.gave turn.now (batcher + 1) seat.new }
    ensures grows { IsPrefix seat.old.seen seat.new.seen }
    ensures answer { IfOk result (IsAnswer T.rests T.runs T.finished T.spent turn.now.setup batcher seat.new.seen seat.new.mark) }
    ensures called { OnOk result (GoesOnFrom (T.calls turn.now.setup F.sends seat.old.seen batcher) (F.log caller.old)
        (λ first. Grows first (F.log caller.new) (T.calls turn.now.setup F.sends seat.new.seen batcher))) }
    ensures stopped { OnErr result (GoesOnFrom (T.calls turn.now.setup F.sends seat.old.seen batcher) (F.log caller.old)
        (λ first. HasLogged (T.runs turn.now.setup seat.new.seen batcher) turn.now.setup F.sends
        (T.calls turn.now.setup F.sends seat.new.seen batcher) first (F.log caller.new))) }
{
    match left {
        Left::Call(job) => {
            carried.longest_pause = FIRST_PAUSE;
            let text = &mut carried.text;
            make_call(
                rt, alloc, turn, seat, caller, clock, name, batcher, job, text,
            )
        }
        Left::Gave(_) => {
            carried.longest_pause = FIRST_PAUSE;
            Ok(ask(rt, alloc, turn, seat, clock, batcher))
        }
        Left::Idle { until } => {
            pause(clock, until, &mut carried.longest_pause);
            let answer = ask(rt, alloc, turn, seat, clock, batcher);
            Ok(answer)
        }
    }
}

// States what holds of a batcher whose seat has added nothing. Does nothing.
fn begin<T: Pooled, C: Clock>(turn: &Turn<T>, seat: &Seat<T>, clock: &C, batcher: u32)
    requires seated { IsSeated T.author T.may_follow C.gave turn.now (batcher + 1) seat.now }
    requires unused { seat.now.mine ≡ [] }
    ensures calls { (sends : List ℕ → List ℕ) → T.calls turn.now.setup sends seat.now.seen batcher ≡ [] }
    ensures rests { T.rests turn.now.setup seat.now.seen batcher }
{
    T::begins();
    T::stays();
}

/// Works for the batcher: asks the book, calls the function `name`, and pauses, shortly at first and then twice as long each
/// time, for at most `MAX_PAUSE`. Ends when the book answers that nothing is left or that all calls allowed were made, or
/// when it is down. `OutOfMemory` may end it at any point. The text of each event that is still to be written takes the
/// memory of the one before, so the batcher holds as much as the longest of these takes.
pub fn call_all<R: Wait, T: Pooled, C: Clock, F: Caller>(
    rt: &R,
    alloc: Global,
    turn: &Turn<T>,
    seat: &mut Seat<T>,
    caller: &mut F,
    clock: &C,
    name: &str,
    batcher: u32,
) -> Result<(), OutOfMemory>
    requires number { batcher < MAX_LANES }
    requires name { name.now ≡ turn.now.setup.config.function }
    requires seated { IsSeated T.author T.may_follow C.gave turn.now (batcher + 1) seat.old }
    requires unused { seat.old.mine ≡ [] }
    requires given { (m : ℕ) → C.gave m ≡ true → T.given m ≡ true }
    ensures seated { IsSeated T.author T.may_follow C.gave turn.now (batcher + 1) seat.new }
    ensures later { is_shut (entries_told seat.old.seen) ≡ true → OwnFollowShut (T.author turn.now.setup) (batcher + 1) [] seat.new.seen }
    // How it ends.
    ensures ended { OnOk result (HasEnded T.finished T.spent turn.now.setup batcher seat.new) }
    ensures rests { OnOk result (T.rests turn.now.setup seat.new.seen batcher) }
    ensures called { OnOk result (Grows (F.log caller.old) (F.log caller.new) (T.calls turn.now.setup F.sends seat.new.seen batcher)) }
    ensures stopped { OnErr result (HasLogged (T.runs turn.now.setup seat.new.seen batcher) turn.now.setup F.sends
        (T.calls turn.now.setup F.sends seat.new.seen batcher) (F.log caller.old) (F.log caller.new)) }
{
    begin(turn, seat, clock, batcher);
    let mut carried = Carried {
        text: Vec::new(alloc),
        longest_pause: FIRST_PAUSE,
    };
    let mut answer = ask(rt, alloc, turn, seat, clock, batcher);
    for _ in rt.forever() {
        let Some(left) = left_after(answer)? else {
            return Ok(());
        };
        answer = round(
            rt,
            alloc,
            turn,
            seat,
            caller,
            clock,
            name,
            batcher,
            left,
            &mut carried,
        )?;
    }
    unreachable!()
}
