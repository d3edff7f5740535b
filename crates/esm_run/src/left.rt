// What became of a command that runs a mapping, before its text is written.
ghost use Rattle.std.specs.Prelude.{◌≡◌, [], Ok, IfOk};
ghost use Rattle.esm_run.specs.Ran.{IsEndingOf};
ghost use Rattle.esm_run.specs.World.{devices_left};
ghost use Rattle.esm_run.specs.declared.left.Began.TheVariants as began;

use crate::refusal::ending_of;
use esm_journal_state::Says;
use esm_model::{Entry, OutOfMemory};
use esm_replay_run::ReplayCounts;
use esm_report::Ending;
use esm_runner::MappingRun;
use esm_traced::Traced;
use std::alloc::Global;

/// The devices of a run.
#[derive(Drop)]
pub struct RunDevices<S, D, F> {
    pub input: S,
    pub journal: D,
    pub spare: D,
    pub failures: D,
    pub registry: D,
    pub callers: Vec<F>,
}

/// What began, with what its journal said before that.
#[derive(Drop)]
pub enum Began {
    Nothing,
    Stream(Says),
    Queue(Says),
    /// A redrive.
    Redrive(Says),
    /// A replay, with its counts of records.
    Replay(ReplayCounts),
}

/// What became of a command that runs a mapping (`run`, `ddb`, `redrive` or `replay`): how it ended, what began, what is
/// printed of its history before the report, its history (oldest entry first), and the devices as they were left.
#[derive(Drop)]
pub struct Ran<S, D, F> {
    pub end: Result<Ending, OutOfMemory>,
    pub began: Began,
    pub front: Vec<u8>,
    pub trace: Vec<Entry>,
    pub devices: RunDevices<S, D, F>,
}

/// Makes the result of a run that did not begin and left these devices.
pub fn not_begun<S, D, F>(
    alloc: Global,
    end: Result<Ending, OutOfMemory>,
    devices: RunDevices<S, D, F>,
) -> Ran<S, D, F>
    ensures end { result.end ≡ end }
    ensures nothing { result.began ≡ began.Nothing }
    ensures front { result.front.items ≡ [] }
    ensures trace { result.trace.items ≡ [] }
    ensures devices { result.devices ≡ devices }
{
    Ran {
        end,
        began: Began::Nothing,
        front: Vec::new(alloc),
        trace: Vec::new(alloc),
        devices,
    }
}

/// How a run ended, and what is printed before its report.
pub struct Fronted<E> {
    pub end: Result<E, OutOfMemory>,
    pub front: Vec<u8>,
}

/// Joins how a run ended with what is printed before its report. Memory that ran out for either ends the run with
/// `OutOfMemory`.
pub fn with_front<E: Drop>(
    alloc: Global,
    end: Result<E, OutOfMemory>,
    front: Result<Vec<u8>, OutOfMemory>,
) -> Fronted<E>
    ensures { IfOk result.end (λ e. (end ≡ Ok e) × (front ≡ Ok result.front)) }
{
    match (end, front) {
        (Ok(end), Ok(front)) => Fronted {
            end: Ok(end),
            front,
        },
        _ => Fronted {
            end: Err(OutOfMemory),
            front: Vec::new(alloc),
        },
    }
}

/// A run that ended, with what its journal said before, what is printed before its report, and its devices, the registry's
/// disk among them.
struct Left<S, D, F> {
    end: Result<Ending, OutOfMemory>,
    said: Says,
    front: Vec<u8>,
    trace: Vec<Entry>,
    devices: RunDevices<S, D, F>,
}

/// Makes the result of the run of a mapping: how it ended, and the devices that it left.
fn left_by<S, D, F>(alloc: Global, traced: Traced<S, D, F>, registry: D) -> Left<S, D, F>
    ensures ended { IfOk result.end (λ e. IsEndingOf traced.run.end e × (traced.front ≡ Ok result.front)) }
    ensures said { result.said ≡ traced.run.said }
    ensures trace { result.trace ≡ traced.run.trace }
    ensures devices { result.devices ≡ devices_left traced.run registry }
{
    let Traced { run, front } = traced;
    let MappingRun {
        end,
        trace,
        said,
        reading: _,
        input,
        journal,
        spare,
        failures,
        callers,
    } = run;
    let Fronted { end, front } = with_front(alloc, end, front);
    let end = match end {
        Ok(end) => ending_of(alloc, end),
        Err(OutOfMemory) => Err(OutOfMemory),
    };
    Left {
        end,
        said,
        front,
        trace,
        devices: RunDevices {
            input,
            journal,
            spare,
            failures,
            registry,
            callers,
        },
    }
}

/// Makes the result of the run of a stream's mapping: how it ended, and the devices that it left.
pub fn stream_ran<S, D, F>(alloc: Global, traced: Traced<S, D, F>, registry: D) -> Ran<S, D, F>
    ensures ended { IfOk result.end (λ e. IsEndingOf traced.run.end e × (traced.front ≡ Ok result.front)) }
    ensures began { result.began ≡ began.Stream traced.run.said }
    ensures trace { result.trace ≡ traced.run.trace }
    ensures devices { result.devices ≡ devices_left traced.run registry }
{
    let Left {
        end,
        said,
        front,
        trace,
        devices,
    } = left_by(alloc, traced, registry);
    Ran {
        end,
        began: Began::Stream(said),
        front,
        trace,
        devices,
    }
}

/// Makes the result of the run of a queue's mapping: how it ended, and the devices that it left.
pub fn queue_ran<S, D, F>(alloc: Global, traced: Traced<S, D, F>, registry: D) -> Ran<S, D, F>
    ensures ended { IfOk result.end (λ e. IsEndingOf traced.run.end e × (traced.front ≡ Ok result.front)) }
    ensures began { result.began ≡ began.Queue traced.run.said }
    ensures trace { result.trace ≡ traced.run.trace }
    ensures devices { result.devices ≡ devices_left traced.run registry }
{
    let Left {
        end,
        said,
        front,
        trace,
        devices,
    } = left_by(alloc, traced, registry);
    Ran {
        end,
        began: Began::Queue(said),
        front,
        trace,
        devices,
    }
}
