// The options of `run`: opens the files, reads the mapping, and runs it.
ghost use Rattle.std.specs.Prelude.{◌≡◌, length, reverse, IfOk, OnErr};
ghost use Rattle.esm_io.specs.Meanings.{disk as meaning};
ghost use Rattle.esm_mapping.specs.Named.{IsNamed, MayRun};
ghost use Rattle.esm_model.specs.Valid.{is_stream};
ghost use Rattle.esm_model.specs.declared.limits.TheConstants.{MAX_LANES};
ghost use Rattle.esm_run.specs.Answers.{IsCutOf, RunCause};
ghost use Rattle.esm_run.specs.Asks.{IsRegistryLeft};
ghost use Rattle.esm_run.specs.Ran.{EndsWith};
ghost use Rattle.esm_run.specs.World.{run_tells, seen_by, seen_of};
ghost use Rattle.esm_traced.specs.Room.{IsRoom};

use crate::left::{Ran, RunDevices, not_begun, queue_ran, stream_ran};
use crate::opened::{Opened, closed};
use crate::refusal::{ending_of_files, ending_of_mapping};
use esm_cli::RunWords;
use esm_io::{Caller, Clock, Disk, Source};
use esm_mapping::{MappingRead, NamedMapping, read_mapping};
use esm_model::{Kind, OutOfMemory};
use esm_runner::{Plain, open_files};
use esm_traced::{Room, run_queue, run_stream};
use std::alloc::Global;
use std::sync::Wait;
use std::thread::Threads;

fn is_stream(kind: Kind) -> bool
    ensures { result ≡ is_stream kind }
{
    match kind {
        Kind::Stream => true,
        Kind::Standard => false,
        Kind::Fifo => false,
    }
}

/// Runs the mapping that the words name, a stream's or a queue's, over the opened files, with its callers recorded in this
/// room. A queue's message is hidden for the seconds of `--visibility` once it is received.
fn run_recorded<
    R: Threads + Wait + Sync,
    S: Source + Send,
    D: Disk + Send,
    C: Clock + Sync,
    F: Caller + Send,
>(
    rt: &R,
    alloc: Global,
    words: &RunWords,
    mapping: NamedMapping,
    room: Room<F>,
    opened: Opened<S, D, F>,
    clock: &C,
) -> Ran<S, D, F>
    requires may_run { MayRun mapping }
    requires room { IsRoom room }
    requires asked { room.trace ≡ words.now.trace }
    requires callers { length opened.callers.items ≡ MAX_LANES }
    ensures ended { IfOk result.end (λ ending. (registry : D)
        → IsNamed (meaning D.Disk) words.now.which registry mapping
        → IsRegistryLeft (meaning D.Disk) words.now.which registry opened.registry
        → EndsWith (RunCause (run_tells C.Clock F.Caller D.Disk S.Source) words.now (reverse result.trace.items)
        (seen_of opened.input opened.files.journal opened.files.spare opened.files.failures registry opened.callers.items)
        (seen_by result.devices)) result.front.items (reverse result.trace.items) result.began ending) }
    ensures stopped { OnErr result.end ((registry : D)
        → IsNamed (meaning D.Disk) words.now.which registry mapping
        → IsRegistryLeft (meaning D.Disk) words.now.which registry opened.registry
        → IsCutOf (run_tells C.Clock F.Caller D.Disk S.Source) words.now (reverse result.trace.items)
        (seen_of opened.input opened.files.journal opened.files.spare opened.files.failures registry opened.callers.items)
        (seen_by result.devices)) }
    ensures registry { result.devices.registry ≡ opened.registry }
    ensures as_many { length result.devices.callers.items ≡ MAX_LANES }
{
    let Opened {
        input,
        files,
        registry,
        callers,
    } = opened;
    let NamedMapping { config, start } = mapping;
    let calls = words.calls;
    let read_first = words.read_first;
    files.keeps();
    if is_stream(config.kind) {
        let traced = run_stream::<_, _, _, _, _, Plain>(
            rt, alloc, config, start, calls, files, input, callers, room, clock, read_first,
        );
        stream_ran(alloc, traced, registry)
    } else {
        let visibility_ms = words.visibility as u64 * 1000;
        let traced = run_queue(
            rt,
            alloc,
            config,
            calls,
            visibility_ms,
            files,
            input,
            callers,
            room,
            clock,
            read_first,
        );
        queue_ran(alloc, traced, registry)
    }
}

/// Runs the mapping that the words name, a stream's or a queue's, over the opened files.
fn run_mapping<
    R: Threads + Wait + Sync,
    S: Source + Send,
    D: Disk + Send,
    C: Clock + Sync,
    F: Caller + Send,
>(
    rt: &R,
    alloc: Global,
    words: &RunWords,
    mapping: NamedMapping,
    opened: Opened<S, D, F>,
    clock: &C,
) -> Ran<S, D, F>
    requires may_run { MayRun mapping }
    requires callers { length opened.callers.items ≡ MAX_LANES }
    ensures ended { IfOk result.end (λ ending. (registry : D)
        → IsNamed (meaning D.Disk) words.now.which registry mapping
        → IsRegistryLeft (meaning D.Disk) words.now.which registry opened.registry
        → EndsWith (RunCause (run_tells C.Clock F.Caller D.Disk S.Source) words.now (reverse result.trace.items)
        (seen_of opened.input opened.files.journal opened.files.spare opened.files.failures registry opened.callers.items)
        (seen_by result.devices)) result.front.items (reverse result.trace.items) result.began ending) }
    ensures stopped { OnErr result.end ((registry : D)
        → IsNamed (meaning D.Disk) words.now.which registry mapping
        → IsRegistryLeft (meaning D.Disk) words.now.which registry opened.registry
        → IsCutOf (run_tells C.Clock F.Caller D.Disk S.Source) words.now (reverse result.trace.items)
        (seen_of opened.input opened.files.journal opened.files.spare opened.files.failures registry opened.callers.items)
        (seen_by result.devices)) }
    ensures registry { result.devices.registry ≡ opened.registry }
    ensures as_many { length result.devices.callers.items ≡ MAX_LANES }
{
    match Room::new(alloc, words.trace) {
        Ok(room) => run_recorded(rt, alloc, words, mapping, room, opened, clock),
        Err(OutOfMemory) => closed(alloc, Err(OutOfMemory), opened),
    }
}

/// Reads the mapping that the words name over the opened files, and runs it.
fn run_opened<
    R: Threads + Wait + Sync,
    S: Source + Send,
    D: Disk + Send,
    C: Clock + Sync,
    F: Caller + Send,
>(rt: &R, alloc: Global, words: &RunWords, opened: Opened<S, D, F>, clock: &C) -> Ran<S, D, F>
    requires callers { length opened.callers.items ≡ MAX_LANES }
    ensures ended { IfOk result.end (EndsWith (RunCause (run_tells C.Clock F.Caller D.Disk S.Source) words.now (reverse result.trace.items)
        (seen_of opened.input opened.files.journal opened.files.spare opened.files.failures opened.registry opened.callers.items)
        (seen_by result.devices)) result.front.items (reverse result.trace.items) result.began) }
    ensures stopped { OnErr result.end (IsCutOf (run_tells C.Clock F.Caller D.Disk S.Source) words.now (reverse result.trace.items)
        (seen_of opened.input opened.files.journal opened.files.spare opened.files.failures opened.registry opened.callers.items)
        (seen_by result.devices)) }
    ensures registry { IsRegistryLeft (meaning D.Disk) words.now.which opened.registry result.devices.registry }
    ensures as_many { length result.devices.callers.items ≡ MAX_LANES }
{
    let Opened {
        input,
        files,
        registry,
        callers,
    } = opened;
    let MappingRead { named, registry } = read_mapping(alloc, &words.which, registry);
    let opened = Opened {
        input,
        files,
        registry,
        callers,
    };
    match named {
        Ok(mapping) => run_mapping(rt, alloc, words, mapping, opened, clock),
        Err(why) => closed(alloc, ending_of_mapping(alloc, why), opened),
    }
}

/// Opens the files of a run, reads its mapping, and runs it.
pub fn run_words<
    R: Threads + Wait + Sync,
    S: Source + Send,
    D: Disk + Send,
    C: Clock + Sync,
    F: Caller + Send,
>(rt: &R, alloc: Global, words: RunWords, devices: RunDevices<S, D, F>, clock: &C) -> Ran<S, D, F>
    requires callers { length devices.callers.items ≡ MAX_LANES }
    ensures ended { IfOk result.end (EndsWith (RunCause (run_tells C.Clock F.Caller D.Disk S.Source) words (reverse result.trace.items)
        (seen_by devices) (seen_by result.devices)) result.front.items (reverse result.trace.items) result.began) }
    ensures stopped { OnErr result.end (IsCutOf (run_tells C.Clock F.Caller D.Disk S.Source) words (reverse result.trace.items)
        (seen_by devices) (seen_by result.devices)) }
    ensures registry { IsRegistryLeft (meaning D.Disk) words.which devices.registry result.devices.registry }
    ensures as_many { length result.devices.callers.items ≡ MAX_LANES }
{
    let RunDevices {
        input,
        journal,
        spare,
        failures,
        registry,
        callers,
    } = devices;
    match open_files(alloc, journal, spare, failures) {
        Err(refused) => {
            let (journal, spare, failures) = refused.back;
            let devices = RunDevices {
                input,
                journal,
                spare,
                failures,
                registry,
                callers,
            };
            not_begun(alloc, ending_of_files(refused.why), devices)
        }
        Ok(files) => {
            let opened = Opened {
                input,
                files,
                registry,
                callers,
            };
            run_opened(rt, alloc, &words, opened, clock)
        }
    }
}
