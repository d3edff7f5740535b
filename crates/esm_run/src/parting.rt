// Takes the world of a command that runs a mapping apart for the run, and puts it together again once its text is written.
ghost use Rattle.std.specs.Prelude.{◌≡◌, ◌≢◌, ℕ, List, true, reverse, Ok, IfOk};
ghost use Rattle.esm_report.specs.Report.{stands_alone};
ghost use Rattle.esm_report.specs.declared.ending.Ending.{Ending};
ghost use Rattle.esm_report.specs.declared.ending.Ending.TheVariants.{BadWords};
ghost use Rattle.esm_run.specs.Endings.{IsTold};
ghost use Rattle.esm_run.specs.Ran.{IsReport, IsReportBehind};

use crate::left::{Began, Ran, RunDevices};
use crate::output::{OUT_OF_MEMORY, tell};
use crate::reports::{redrive_report, replay_report};
use crate::world::{Ended, World};
use esm_event::bytes::push_bytes;
use esm_io::Sink;
use esm_model::{Entry, OutOfMemory};
use esm_report::{Ending, last_line, queue_report, report};
use std::alloc::Global;

/// The part of a world that the run of a mapping does not use, except for the clock.
pub struct Rest<K, C, L> {
    pub out: K,
    pub clock: C,
    pub door: L,
}

/// Splits the world into the devices of a run and the rest.
pub fn parted<S, K, D, C, F, L>(
    world: World<S, K, D, C, F, L>,
) -> (RunDevices<S, D, F>, Rest<K, C, L>)
    ensures devices { result.0 ≡ record {
      input = world.input;
      journal = world.journal;
      spare = world.spare;
      failures = world.failures;
      registry = world.registry;
      callers = world.callers;
    } }
    ensures rest { result.1 ≡ record { out = world.out; clock = world.clock; door = world.door } }
{
    let World {
        input,
        out,
        journal,
        spare,
        failures,
        registry,
        clock,
        callers,
        door,
        trace: _,
    } = world;
    let devices = RunDevices {
        input,
        journal,
        spare,
        failures,
        registry,
        callers,
    };
    (devices, Rest { out, clock, door })
}

/// Writes the report of an ending, by what began.
fn report_of(
    alloc: Global,
    began: &Began,
    trace: &[Entry],
    ending: &Ending,
) -> Result<Vec<u8>, OutOfMemory>
    requires { began.now ≡ Began.Nothing → stands_alone ending.now ≡ true }
    ensures { IfOk result (λ text. (is : List ℕ) → IsReport (reverse trace.now) ending.now began.now is → text.items ≡ is) }
{
    match began {
        Began::Nothing => last_line(alloc, ending),
        Began::Stream(said) => report(alloc, said, trace, ending),
        Began::Queue(said) => queue_report(alloc, said, trace, ending),
        Began::Redrive(said) => redrive_report(alloc, said, trace, ending),
        Began::Replay(counts) => replay_report(alloc, counts, trace, ending),
    }
}

/// Writes the text of an ending: what is printed of the history (`front`), and then the report, by what began.
fn text_of(
    alloc: Global,
    front: Vec<u8>,
    began: &Began,
    trace: &[Entry],
    ending: &Ending,
) -> Result<Vec<u8>, OutOfMemory>
    requires { began.now ≡ Began.Nothing → stands_alone ending.now ≡ true }
    ensures { IfOk result (λ text. (is : List ℕ) → IsReportBehind front.items (reverse trace.now) ending.now began.now is → text.items ≡ is) }
{
    let report = report_of(alloc, began, trace, ending)?;
    let mut text = front;
    push_bytes(&mut text, &report)?;
    Ok(text)
}

/// Writes how a run ended, and returns the exit status.
fn tell_end<K: Sink>(
    alloc: Global,
    out: &mut K,
    end: &Result<Ending, OutOfMemory>,
    front: Vec<u8>,
    began: &Began,
    trace: &[Entry],
) -> u8
    requires { began.now ≡ Began.Nothing → IfOk end.now (λ ending. stands_alone ending ≡ true) }
    ensures words { result ≡ 2 → end.now ≡ Ok BadWords }
    ensures told { result ≢ 70 → (ending : Ending) × (end.now ≡ Ok ending)
        × ((text : List ℕ) → IsReportBehind front.items (reverse trace.now) ending began.now text →
        IsTold (K.faults out.old) (K.faults out.new) (K.written out.old) (K.written out.new) text ending result) }
    ensures untold { result ≡ 70 → out.new ≡ out.old }
{
    let Ok(ending) = end else {
        return OUT_OF_MEMORY;
    };
    let Ok(text) = text_of(alloc, front, began, trace, ending) else {
        return OUT_OF_MEMORY;
    };
    tell(out, &text, ending)
}

/// Writes how a run ended, and hands the world back with the exit status.
pub fn told<S, K: Sink, D, C, F, L>(
    alloc: Global,
    ran: Ran<S, D, F>,
    rest: Rest<K, C, L>,
) -> Ended<S, K, D, C, F, L>
    requires { ran.began ≡ Began.Nothing → IfOk ran.end (λ ending. stands_alone ending ≡ true) }
    ensures words { result.status ≡ 2 → ran.end ≡ Ok BadWords }
    ensures told { result.status ≢ 70 → (ending : Ending) × (ran.end ≡ Ok ending)
        × ((text : List ℕ) → IsReportBehind ran.front.items (reverse ran.trace.items) ending ran.began text →
        IsTold (K.faults rest.out) (K.faults result.world.out) (K.written rest.out) (K.written result.world.out) text ending result.status) }
    ensures untold { result.status ≡ 70 → result.world.out ≡ rest.out }
    ensures world { result.world ≡ record {
      input = ran.devices.input;
      out = result.world.out;
      journal = ran.devices.journal;
      spare = ran.devices.spare;
      failures = ran.devices.failures;
      registry = ran.devices.registry;
      clock = rest.clock;
      callers = ran.devices.callers;
      door = rest.door;
      trace = ran.trace;
    } }
{
    let Ran {
        end,
        began,
        front,
        trace,
        devices,
    } = ran;
    let Rest { out, clock, door } = rest;
    let mut out = out;
    let status = tell_end(alloc, &mut out, &end, front, &began, &trace);
    Ended {
        status,
        world: World {
            input: devices.input,
            out,
            journal: devices.journal,
            spare: devices.spare,
            failures: devices.failures,
            registry: devices.registry,
            clock,
            callers: devices.callers,
            door,
            trace,
        },
    }
}
