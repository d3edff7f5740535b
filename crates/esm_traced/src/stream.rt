// The run of a stream's mapping with its callers recorded.
ghost use Rattle.std.specs.Prelude.{◌≡◌, is_ok, length, reverse, true, IfOk, OnErr};
ghost use Rattle.esm_io.specs.Meanings.{disk as meaning};
ghost use Rattle.esm_model.specs.declared.config.Kind.TheVariants.{Stream};
ghost use Rattle.esm_model.specs.declared.limits.TheConstants.{MAX_LANES};
ghost use Rattle.esm_model.specs.Entries.{CallsFollowShut};
ghost use Rattle.esm_model.specs.Pattern.{read_patterns};
ghost use Rattle.esm_model.specs.Valid.{IsStreamConfig, is_stream};
ghost use Rattle.esm_workers.specs.Working.{outside};
ghost use Rattle.esm_runner.specs.Headline.{telling};
ghost use Rattle.esm_runner.specs.Ended.{HasEnded, HasStoppedRun};
ghost use Rattle.esm_traced.specs.Front.{front_text};
ghost use Rattle.esm_traced.specs.Room.{IsRoom};

use crate::front::front_by;
use crate::room::Room;
use crate::traced::{Apart, Traced, taken_apart};
use esm_io::{Caller, Clock, Disk, Source};
use esm_journal::FileDest;
use esm_model::{Config, Kind, Start};
use esm_recorder::laws::logs_tell;
use esm_recorder::record;
use esm_runner::{FailureFile, Files};
use esm_trace::Batchers;
use esm_trace::laws::calls_tell_replies;
use std::alloc::Global;
use std::sync::Wait;
use std::thread::Threads;

/// Runs the mapping of a stream over the opened files, with the callers recorded in this room, and writes what is printed of
/// its history.
pub fn run_stream<
    R: Threads + Wait + Sync,
    S: Source + Send,
    C: Clock + Sync,
    F: Caller + Send,
    D: Disk + Send,
    W: FailureFile<FileDest<D>>,
>(
    rt: &R,
    alloc: Global,
    config: Config,
    start: Start,
    calls: u32,
    files: Files<D>,
    input: S,
    callers: Vec<F>,
    room: Room<F>,
    clock: &C,
    read_first: bool,
) -> Traced<S, D, F>
    requires config { IsStreamConfig config }
    requires patterns { is_ok (read_patterns (is_stream config.kind) config.filters) ≡ true }
    requires callers { length callers.items ≡ MAX_LANES }
    requires room { IsRoom room }
    // The run.
    ensures ended { IfOk result.run.end (HasEnded (telling (outside C.gave F.sends F.log) (meaning D.Disk) W.line) S.faults S.left
        config start calls files input result.run.input result.run.reading.value callers.items (reverse result.run.trace.items)
        (record { journal = result.run.journal; spare = result.run.spare; failures = result.run.failures; callers = result.run.callers.items })) }
    ensures stopped { OnErr result.run.end (HasStoppedRun (telling (outside C.gave F.sends F.log) (meaning D.Disk) W.line) S.left
        config start calls files input result.run.input callers.items (reverse result.run.trace.items)
        (record { journal = result.run.journal; spare = result.run.spare; failures = result.run.failures; callers = result.run.callers.items })) }
    ensures read_first { read_first ≡ true → CallsFollowShut (reverse result.run.trace.items) }
    ensures said { result.run.said ≡ files.said }
    ensures as_many { length result.run.callers.items ≡ MAX_LANES }
    // What is printed before its report.
    ensures front { is_ok result.run.end ≡ true → IfOk result.front (λ front. front.items ≡ front_text room.trace Stream (reverse result.run.trace.items)) }
{
    logs_tell::<F>();
    calls_tell_replies();
    let Room {
        trace,
        mut recorders,
        lists,
    } = room;
    let mut callers = callers;
    let factor = config.factor;
    record(alloc, &mut callers, &mut recorders, trace);
    let run = esm_runner::run_stream::<_, _, _, _, _, W>(
        rt, alloc, config, start, calls, files, input, recorders, clock, read_first,
    );
    let Apart { run, lists } = taken_apart(run, callers, lists);
    let ended = run.end.is_ok();
    let batchers = Batchers::OfStream { factor };
    let front = front_by(
        alloc,
        trace,
        ended,
        Kind::Stream,
        batchers,
        &run.trace,
        lists,
    );
    Traced { run, front }
}
