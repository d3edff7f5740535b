// The run of a redrive with its caller recorded.
ghost use Rattle.std.specs.Prelude.{◌≡◌, ◌≤◌, is_ok, reverse, true, IfOk, OnErr};
ghost use Rattle.esm_io.specs.Meanings.{disk as meaning};
ghost use Rattle.esm_model.specs.Pattern.{read_patterns};
ghost use Rattle.esm_model.specs.QueueEvent.{IsQueueConfig};
ghost use Rattle.esm_model.specs.Valid.{is_stream};
ghost use Rattle.esm_redrive.specs.declared.limited.TheConstants.{MAX_RECEIVES};
ghost use Rattle.esm_workers.specs.Working.{outside};
ghost use Rattle.esm_redrive_run.specs.Ended.{HasEnded, HasStoppedRun, telling};
ghost use Rattle.esm_traced.specs.Front.{front_text};

use crate::front::front_of;
use esm_io::{Caller, Clock, Disk, Source};
use esm_model::{Config, OutOfMemory};
use esm_recorder::Recorder;
use esm_recorder::laws::log_tells;
use esm_redrive_run::RedriveRun;
use esm_runner::Files;
use std::alloc::Global;
use std::sync::Wait;
use std::thread::Threads;

/// A run of a redrive, its caller as the calls left it, and what is printed of its history before its report, if there was
/// memory for it.
pub struct TracedRedrive<S, D, F> {
    pub run: RedriveRun<S, D>,
    pub caller: F,
    pub front: Result<Vec<u8>, OutOfMemory>,
}

/// Runs the mapping of a queue over the opened files by the one caller, which is recorded if the trace is asked for, and
/// writes what is printed of its history. `visibility_ms` is in milliseconds.
pub fn run_redrive<R: Threads + Wait + Sync, S: Source, D: Disk, C: Clock, F: Caller>(
    rt: &R,
    alloc: Global,
    config: Config,
    calls: u32,
    visibility_ms: u64,
    max_receives: u32,
    files: Files<D>,
    input: S,
    caller: F,
    clock: &C,
    trace: bool,
) -> TracedRedrive<S, D, F>
    requires config { IsQueueConfig config }
    requires patterns { is_ok (read_patterns (is_stream config.kind) config.filters) ≡ true }
    requires some { 1 ≤ max_receives }
    requires few { max_receives ≤ MAX_RECEIVES }
    // The run.
    ensures ended { IfOk result.run.end (HasEnded (telling (outside C.gave F.sends F.log) (meaning D.Disk)) S.faults S.left
        (record { config = config; calls = calls; visibility = visibility_ms; max_receives = max_receives }) files
        input result.run.input result.run.reading.value caller result.caller (reverse result.run.trace.items)
        (record { journal = result.run.journal; spare = result.run.spare; dead = result.run.dead })) }
    ensures stopped { OnErr result.run.end (HasStoppedRun (telling (outside C.gave F.sends F.log) (meaning D.Disk)) S.faults S.left
        (record { config = config; calls = calls; visibility = visibility_ms; max_receives = max_receives }) files
        input result.run.input result.run.reading.value caller result.caller (reverse result.run.trace.items)
        (record { journal = result.run.journal; spare = result.run.spare; dead = result.run.dead })) }
    ensures said { result.run.said ≡ files.said }
    // What is printed before its report.
    ensures front { is_ok result.run.end ≡ true → IfOk result.front (λ front. front.items ≡ front_text trace config.kind (reverse result.run.trace.items)) }
{
    log_tells::<F>();
    let kind = config.kind;
    let mut recorder = Recorder::new(alloc, caller, trace);
    let run = esm_redrive_run::run_redrive(
        rt,
        alloc,
        config,
        calls,
        visibility_ms,
        max_receives,
        files,
        input,
        &mut recorder,
        clock,
    );
    let (caller, kept) = recorder.into_parts();
    let ended = run.end.is_ok();
    let front = front_of(alloc, trace, ended, kind, &run.trace, kept);
    TracedRedrive { run, caller, front }
}
