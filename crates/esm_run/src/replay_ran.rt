// The run of `replay`: opens its files, reads its mapping, and calls the records again that failure lines name.
ghost use Rattle.std.specs.Prelude.{◌≡◌, Ok, true, length, reverse, IfOk, OnErr};
ghost use Rattle.esm_mapping.specs.Named.{IsExpected, MayRun};
ghost use Rattle.esm_mapping.specs.declared.expected.Expected.TheVariants.{Stream};
ghost use Rattle.esm_model.specs.Valid.{is_stream};
ghost use Rattle.esm_model.specs.declared.limits.TheConstants.{MAX_LANES};
ghost use Rattle.esm_run.specs.Ran.{EndsWith, IsReplayEndingOf};
ghost use Rattle.esm_run.specs.Replay.{IsReplayCut, ReplayCause};
ghost use Rattle.esm_run.specs.World.{run_tells, seen_by, seen_of};
ghost use Rattle.esm_run.specs.declared.left.Began.TheVariants as began;

use crate::first_caller::{put_first, take_first};
use crate::left::{Began, Fronted, Ran, RunDevices, not_begun, with_front};
use crate::opened::{Opened, closed};
use crate::refusal::{ending_of_files, ending_of_mapping, ending_of_replay};
use esm_io::{Caller, Clock, Disk, Source};
use esm_mapping::{Expected, NamedMapping, read_expected};
use esm_model::{OutOfMemory, Text};
use esm_replay_run::ReplayRun;
use esm_runner::open_files;
use esm_traced::{TracedReplay, run_replay};
use std::alloc::Global;
use std::sync::Wait;
use std::thread::Threads;

/// Makes the result of the replay: how it ended, and the devices that it left.
fn replay_ran<S, D, F>(
    alloc: Global,
    run: ReplayRun<S, D>,
    front: Result<Vec<u8>, OutOfMemory>,
    registry: D,
    callers: Vec<F>,
) -> Ran<S, D, F>
    ensures ended { IfOk result.end (λ e. IsReplayEndingOf run.end e × (front ≡ Ok result.front)) }
    ensures began { result.began ≡ began.Replay run.counts }
    ensures trace { result.trace ≡ run.trace }
    ensures devices { result.devices
        ≡ record { input = run.input; journal = run.journal; spare = run.spare; failures = run.failures; registry = registry; callers = callers } }
{
    let ReplayRun {
        end,
        trace,
        counts,
        said: _,
        reading: _,
        input,
        journal,
        spare,
        failures,
    } = run;
    let Fronted { end, front } = with_front(alloc, end, front);
    let end = match end {
        Ok(end) => ending_of_replay(alloc, end),
        Err(OutOfMemory) => Err(OutOfMemory),
    };
    Ran {
        end,
        began: Began::Replay(counts),
        front,
        trace,
        devices: RunDevices {
            input,
            journal,
            spare,
            failures,
            registry,
            callers,
        },
    }
}

/// Calls the records again, by the first caller, that lines of the opened failure file name.
fn run_mapping<R: Threads + Wait + Sync, S: Source, D: Disk, C: Clock, F: Caller>(
    rt: &R,
    alloc: Global,
    text: &Text,
    calls: u32,
    trace: bool,
    mapping: NamedMapping,
    opened: Opened<S, D, F>,
    clock: &C,
) -> Ran<S, D, F>
    requires named { IsExpected Stream text.now mapping }
    requires may_run { MayRun mapping }
    requires kind { is_stream mapping.config.kind ≡ true }
    requires callers { length opened.callers.items ≡ MAX_LANES }
    ensures ended { IfOk result.end (EndsWith (ReplayCause (run_tells C.Clock F.Caller D.Disk S.Source) text.now calls trace (reverse result.trace.items)
        (seen_of opened.input opened.files.journal opened.files.spare opened.files.failures opened.registry opened.callers.items)
        (seen_by result.devices)) result.front.items (reverse result.trace.items) result.began) }
    ensures stopped { OnErr result.end (IsReplayCut (run_tells C.Clock F.Caller D.Disk S.Source) text.now calls trace (reverse result.trace.items)
        (seen_of opened.input opened.files.journal opened.files.spare opened.files.failures opened.registry opened.callers.items)
        (seen_by result.devices)) }
    ensures registry { result.devices.registry ≡ opened.registry }
    ensures as_many { length result.devices.callers.items ≡ MAX_LANES }
{
    let _ = text;
    let Opened {
        input,
        files,
        registry,
        mut callers,
    } = opened;
    let NamedMapping { config, start: _ } = mapping;
    files.keeps();
    let caller = take_first(&mut callers);
    let TracedReplay { run, caller, front } = run_replay(
        rt, alloc, config, calls, files, input, caller, clock, trace,
    );
    put_first(&mut callers, caller);
    replay_ran(alloc, run, front, registry, callers)
}

/// Reads the mapping that `text` is, over the opened files, and runs it.
fn run_opened<R: Threads + Wait + Sync, S: Source, D: Disk, C: Clock, F: Caller>(
    rt: &R,
    alloc: Global,
    text: &Text,
    calls: u32,
    trace: bool,
    opened: Opened<S, D, F>,
    clock: &C,
) -> Ran<S, D, F>
    requires callers { length opened.callers.items ≡ MAX_LANES }
    ensures ended { IfOk result.end (EndsWith (ReplayCause (run_tells C.Clock F.Caller D.Disk S.Source) text.now calls trace (reverse result.trace.items)
        (seen_of opened.input opened.files.journal opened.files.spare opened.files.failures opened.registry opened.callers.items)
        (seen_by result.devices)) result.front.items (reverse result.trace.items) result.began) }
    ensures stopped { OnErr result.end (IsReplayCut (run_tells C.Clock F.Caller D.Disk S.Source) text.now calls trace (reverse result.trace.items)
        (seen_of opened.input opened.files.journal opened.files.spare opened.files.failures opened.registry opened.callers.items)
        (seen_by result.devices)) }
    ensures registry { result.devices.registry ≡ opened.registry }
    ensures as_many { length result.devices.callers.items ≡ MAX_LANES }
{
    match read_expected(alloc, Expected::Stream, text) {
        Ok(mapping) => run_mapping(rt, alloc, text, calls, trace, mapping, opened, clock),
        Err(why) => closed(alloc, ending_of_mapping(alloc, why), opened),
    }
}

/// Opens the files of a run, reads the mapping of a stream, which `text` is, and calls the records again that lines of the
/// failure file name.
pub fn run_replay_words<R: Threads + Wait + Sync, S: Source, D: Disk, C: Clock, F: Caller>(
    rt: &R,
    alloc: Global,
    text: &Text,
    calls: u32,
    trace: bool,
    devices: RunDevices<S, D, F>,
    clock: &C,
) -> Ran<S, D, F>
    requires callers { length devices.callers.items ≡ MAX_LANES }
    ensures ended { IfOk result.end (EndsWith (ReplayCause (run_tells C.Clock F.Caller D.Disk S.Source) text.now calls trace (reverse result.trace.items)
        (seen_by devices) (seen_by result.devices)) result.front.items (reverse result.trace.items) result.began) }
    ensures stopped { OnErr result.end (IsReplayCut (run_tells C.Clock F.Caller D.Disk S.Source) text.now calls trace (reverse result.trace.items)
        (seen_by devices) (seen_by result.devices)) }
    ensures registry { result.devices.registry ≡ devices.registry }
    ensures as_many { length result.devices.callers.items ≡ MAX_LANES }
{
    let RunDevices {
        input,
        journal,
        spare,
        failures,
        registry,
        callers,
    } = devices;
    match open_files(alloc, journal, spare, failures) {
        Err(refused) => {
            let (journal, spare, failures) = refused.back;
            let devices = RunDevices {
                input,
                journal,
                spare,
                failures,
                registry,
                callers,
            };
            not_begun(alloc, ending_of_files(refused.why), devices)
        }
        Ok(files) => {
            let opened = Opened {
                input,
                files,
                registry,
                callers,
            };
            run_opened(rt, alloc, text, calls, trace, opened, clock)
        }
    }
}
