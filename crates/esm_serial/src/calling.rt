// The calls of a book, one after the other.
ghost use Rattle.std.specs.Prelude.{◌≡◌, ◌∷◌, [], IfOk, IfSome, OnOk, OnErr};
ghost use Rattle.esm_io.specs.Told.{Grows};
ghost use Rattle.esm_serial.specs.Ran.{EndsSo};
ghost use Rattle.esm_serial.specs.Steps.{LeadsOn, LeadsPerhapsOn, IsAsItWas};

use crate::running::RunEnd;
use crate::serial::Serial;
use esm_event::write_event;
use esm_io::{Caller, Clock};
use esm_model::{BookError, Event, Job, Next, OutOfMemory, Reply};
use std::alloc::Global;
use std::sync::Wait;

/// The longest pause, in milliseconds; after it the book is asked again. This product's own.
const MAX_PAUSE: u64 = 1_000;

// Pauses until the moment `until`, but for at most `MAX_PAUSE` milliseconds.
fn pause<C: Clock>(clock: &C, until: u64) {
    let latest = clock.now().saturating_add(MAX_PAUSE);
    clock.pause(until.min(latest));
}

// Calls the function with the text of the event. Unless it stands already it is written into `text`, in the memory of the one
// before.
fn call_written<F: Caller>(
    alloc: Global,
    caller: &mut F,
    name: &str,
    event: &Event,
    text: &mut Vec<u8>,
) -> Result<Reply, OutOfMemory>
    ensures logged { IfOk result (λ reply. Grows (F.log caller.old) (F.log caller.new)
        (record { name = name.now; event = F.sends event.now; reply = reply } ∷ [])) }
    ensures unlogged { OnErr result (F.log caller.new ≡ F.log caller.old) }
{
    let written = write_event(alloc, text, event)?;
    caller.call(alloc, name, written)
}

// Makes the call that began, and records its end. Returns how the run ends if the book is down.
fn make_call<B: Serial, C: Clock, F: Caller>(
    alloc: Global,
    book: &mut B,
    name: &str,
    caller: &mut F,
    clock: &C,
    job: Job,
    text: &mut Vec<u8>,
) -> Result<Option<RunEnd>, OutOfMemory>
    requires name { name.now ≡ B.function book.old }
    requires runs { B.runs book.old job }
    ensures called { OnOk result (LeadsOn B.Serial C.gave F.sends book.old book.new (F.log caller.old) (F.log caller.new)) }
    ensures rests { OnOk result (B.rests book.new) }
    ensures same { IsAsItWas B.Serial book.old book.new }
    ensures ended { IfOk result (λ end. IfSome end (EndsSo B.Serial book.new)) }
    ensures stopped { OnErr result (LeadsPerhapsOn B.Serial C.gave F.sends book.old book.new (F.log caller.old) (F.log caller.new)) }
{
    let reply = call_written(alloc, caller, name, &job.event, text)?;
    let moment = clock.now();
    match book.end_call(alloc, job, reply, moment) {
        Ok(_) => Ok(None),
        Err(BookError::OutOfMemory) => Err(OutOfMemory),
        Err(_) => Ok(Some(RunEnd::Down)),
    }
}

// Asks what is next and does it. Returns how the run ends if nothing more is to be done.
fn step<B: Serial, C: Clock, F: Caller>(
    alloc: Global,
    book: &mut B,
    name: &str,
    caller: &mut F,
    clock: &C,
    text: &mut Vec<u8>,
) -> Result<Option<RunEnd>, OutOfMemory>
    requires name { name.now ≡ B.function book.old }
    requires rests { B.rests book.old }
    ensures called { OnOk result (LeadsOn B.Serial C.gave F.sends book.old book.new (F.log caller.old) (F.log caller.new)) }
    ensures rests { OnOk result (B.rests book.new) }
    ensures same { IsAsItWas B.Serial book.old book.new }
    ensures ended { IfOk result (λ end. IfSome end (EndsSo B.Serial book.new)) }
    ensures stopped { OnErr result (LeadsPerhapsOn B.Serial C.gave F.sends book.old book.new (F.log caller.old) (F.log caller.new)) }
{
    let moment = clock.now();
    match book.ask(alloc, moment) {
        Ok(Next::Call(job)) => make_call(alloc, book, name, caller, clock, job, text),
        Ok(Next::Gave(_)) => Ok(None),
        Ok(Next::Idle { until }) => {
            pause(clock, until);
            Ok(None)
        }
        Ok(Next::Spent) => Ok(Some(RunEnd::Spent)),
        Ok(Next::Finished) => Ok(Some(RunEnd::Finished)),
        Err(BookError::OutOfMemory) => Err(OutOfMemory),
        Err(_) => Ok(Some(RunEnd::Down)),
    }
}

/// Asks the book, calls the function `name` and pauses, for at most `MAX_PAUSE`, until the book answers that nothing is left
/// or that all calls allowed were made, or is down. `OutOfMemory` may end it at any point. The text of each event that is
/// still to be written takes the memory of the one before.
pub(crate) fn call_all<R: Wait, B: Serial, C: Clock, F: Caller>(
    rt: &R,
    alloc: Global,
    book: &mut B,
    name: &str,
    caller: &mut F,
    clock: &C,
) -> Result<RunEnd, OutOfMemory>
    requires name { name.now ≡ B.function book.old }
    requires rests { B.rests book.old }
    ensures called { OnOk result (LeadsOn B.Serial C.gave F.sends book.old book.new (F.log caller.old) (F.log caller.new)) }
    ensures rests { OnOk result (B.rests book.new) }
    ensures same { IsAsItWas B.Serial book.old book.new }
    ensures ended { IfOk result (EndsSo B.Serial book.new) }
    ensures stopped { OnErr result (LeadsPerhapsOn B.Serial C.gave F.sends book.old book.new (F.log caller.old) (F.log caller.new)) }
{
    let mut text = Vec::new(alloc);
    for _ in rt.forever() {
        if let Some(end) = step(alloc, book, name, caller, clock, &mut text)? {
            return Ok(end);
        }
    }
    unreachable!()
}
