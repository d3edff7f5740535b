// The run of a queue's mapping with its callers recorded.
ghost use Rattle.std.specs.Prelude.{◌≡◌, is_ok, length, reverse, true, IfOk, OnErr};
ghost use Rattle.esm_io.specs.Meanings.{disk as meaning};
ghost use Rattle.esm_model.specs.declared.limits.TheConstants.{MAX_LANES};
ghost use Rattle.esm_model.specs.Entries.{CallsFollowShut};
ghost use Rattle.esm_model.specs.Pattern.{read_patterns};
ghost use Rattle.esm_model.specs.QueueEvent.{IsQueueConfig};
ghost use Rattle.esm_model.specs.Valid.{is_stream};
ghost use Rattle.esm_workers.specs.Working.{outside};
ghost use Rattle.esm_runner.specs.Headline.{telling};
ghost use Rattle.esm_runner.specs.QueueEnded.{HasEnded, HasStoppedRun};
ghost use Rattle.esm_traced.specs.Front.{front_text};
ghost use Rattle.esm_traced.specs.Room.{IsRoom};

use crate::front::front_by;
use crate::room::Room;
use crate::traced::{Apart, Traced, taken_apart};
use esm_io::{Caller, Clock, Disk, Source};
use esm_model::Config;
use esm_recorder::laws::logs_tell;
use esm_recorder::record;
use esm_runner::Files;
use esm_trace::Batchers;
use esm_trace::laws::calls_tell_replies;
use std::alloc::Global;
use std::sync::Wait;
use std::thread::Threads;

/// Runs the mapping of a queue over the opened files, with the callers recorded in this room, and writes what is printed of
/// its history. `visibility_ms` is in milliseconds.
pub fn run_queue<
    R: Threads + Wait + Sync,
    S: Source + Send,
    D: Disk + Send,
    C: Clock + Sync,
    F: Caller + Send,
>(
    rt: &R,
    alloc: Global,
    config: Config,
    calls: u32,
    visibility_ms: u64,
    files: Files<D>,
    input: S,
    callers: Vec<F>,
    room: Room<F>,
    clock: &C,
    read_first: bool,
) -> Traced<S, D, F>
    requires config { IsQueueConfig config }
    requires patterns { is_ok (read_patterns (is_stream config.kind) config.filters) ≡ true }
    requires callers { length callers.items ≡ MAX_LANES }
    requires room { IsRoom room }
    // The run.
    ensures ended { IfOk result.run.end (HasEnded (telling (outside C.gave F.sends F.log) (meaning D.Disk) (λ line. line)) S.faults S.left
        config calls visibility_ms files input result.run.input result.run.reading.value callers.items (reverse result.run.trace.items)
        (record { journal = result.run.journal; spare = result.run.spare; failures = result.run.failures; callers = result.run.callers.items })) }
    ensures stopped { OnErr result.run.end (HasStoppedRun (telling (outside C.gave F.sends F.log) (meaning D.Disk) (λ line. line)) S.left
        config calls visibility_ms files input result.run.input callers.items (reverse result.run.trace.items)
        (record { journal = result.run.journal; spare = result.run.spare; failures = result.run.failures; callers = result.run.callers.items })) }
    ensures read_first { read_first ≡ true → CallsFollowShut (reverse result.run.trace.items) }
    ensures said { result.run.said ≡ files.said }
    ensures as_many { length result.run.callers.items ≡ MAX_LANES }
    // What is printed before its report.
    ensures front { is_ok result.run.end ≡ true → IfOk result.front (λ front. front.items
        ≡ front_text room.trace config.kind (reverse result.run.trace.items)) }
{
    logs_tell::<F>();
    calls_tell_replies();
    let Room {
        trace,
        mut recorders,
        lists,
    } = room;
    let mut callers = callers;
    let kind = config.kind;
    record(alloc, &mut callers, &mut recorders, trace);
    let run = esm_runner::run_queue(
        rt,
        alloc,
        config,
        calls,
        visibility_ms,
        files,
        input,
        recorders,
        clock,
        read_first,
    );
    let Apart { run, lists } = taken_apart(run, callers, lists);
    let ended = run.end.is_ok();
    let front = front_by(
        alloc,
        trace,
        ended,
        kind,
        Batchers::OfQueue,
        &run.trace,
        lists,
    );
    Traced { run, front }
}
