// The run of a replay with its caller recorded.
ghost use Rattle.std.specs.Prelude.{◌≡◌, is_ok, reverse, true, IfOk, OnErr};
ghost use Rattle.esm_io.specs.Meanings.{disk as meaning};
ghost use Rattle.esm_model.specs.declared.config.Kind.TheVariants.{Stream};
ghost use Rattle.esm_model.specs.Valid.{IsStreamConfig};
ghost use Rattle.esm_workers.specs.Working.{outside};
ghost use Rattle.esm_replay_run.specs.Ended.{HasEnded, HasStoppedRun, telling};
ghost use Rattle.esm_traced.specs.Front.{front_text};

use crate::front::front_of;
use esm_io::{Caller, Clock, Disk, Source};
use esm_model::{Config, Kind, OutOfMemory};
use esm_recorder::Recorder;
use esm_recorder::laws::log_tells;
use esm_replay_run::ReplayRun;
use esm_runner::Files;
use std::alloc::Global;
use std::sync::Wait;
use std::thread::Threads;

/// A run of a replay, its caller as the calls left it, and what is printed of its history before its report, if there was
/// memory for it.
pub struct TracedReplay<S, D, F> {
    pub run: ReplayRun<S, D>,
    pub caller: F,
    pub front: Result<Vec<u8>, OutOfMemory>,
}

/// Calls the records again that the lines of the failure file name, by the one caller, which is recorded if the trace is
/// asked for, and writes what is printed of the run's history.
pub fn run_replay<R: Threads + Wait + Sync, S: Source, D: Disk, C: Clock, F: Caller>(
    rt: &R,
    alloc: Global,
    config: Config,
    calls: u32,
    files: Files<D>,
    input: S,
    caller: F,
    clock: &C,
    trace: bool,
) -> TracedReplay<S, D, F>
    requires config { IsStreamConfig config }
    // The run.
    ensures ended { IfOk result.run.end (HasEnded (telling (outside C.gave F.sends F.log) (meaning D.Disk)) S.faults S.left
        config calls files input result.run.input result.run.reading.value caller result.caller (reverse result.run.trace.items) result.run.counts
        (record { journal = result.run.journal; spare = result.run.spare; failures = result.run.failures })) }
    ensures stopped { OnErr result.run.end (HasStoppedRun (telling (outside C.gave F.sends F.log) (meaning D.Disk)) S.faults S.left
        config calls files input result.run.input result.run.reading.value caller result.caller (reverse result.run.trace.items) result.run.counts
        (record { journal = result.run.journal; spare = result.run.spare; failures = result.run.failures })) }
    ensures said { result.run.said ≡ files.said }
    // What is printed before its report.
    ensures front { is_ok result.run.end ≡ true → IfOk result.front (λ front. front.items ≡ front_text trace Stream (reverse result.run.trace.items)) }
{
    log_tells::<F>();
    let mut recorder = Recorder::new(alloc, caller, trace);
    let run = esm_replay_run::run_replay(
        rt,
        alloc,
        config,
        calls,
        files,
        input,
        &mut recorder,
        clock,
    );
    let (caller, kept) = recorder.into_parts();
    let ended = run.end.is_ok();
    let front = front_of(alloc, trace, ended, Kind::Stream, &run.trace, kept);
    TracedReplay { run, caller, front }
}
