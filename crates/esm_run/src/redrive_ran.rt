// The run of `redrive`: opens its files, reads its mapping, and runs its queue with a dead-letter file.
ghost use Rattle.std.specs.Prelude.{◌≡◌, Ok, ◌≤◌, false, length, reverse, IfOk, OnErr};
ghost use Rattle.esm_mapping.specs.Named.{IsExpected, MayRun};
ghost use Rattle.esm_mapping.specs.declared.expected.Expected.TheVariants.{Queue};
ghost use Rattle.esm_model.specs.Valid.{is_stream};
ghost use Rattle.esm_model.specs.declared.limits.TheConstants.{MAX_LANES};
ghost use Rattle.esm_redrive.specs.declared.limited.TheConstants.{MAX_RECEIVES};
ghost use Rattle.esm_run.specs.Ran.{EndsWith, IsRedriveEndingOf};
ghost use Rattle.esm_run.specs.Redrive.{IsRedriveCut, RedriveCause};
ghost use Rattle.esm_run.specs.World.{run_tells, seen_by, seen_of};
ghost use Rattle.esm_run.specs.declared.left.Began.TheVariants as began;

use crate::asked::RedriveWords;
use crate::first_caller::{put_first, take_first};
use crate::left::{Began, Fronted, Ran, RunDevices, not_begun, with_front};
use crate::opened::{Opened, closed};
use crate::refusal::{ending_of_files, ending_of_mapping, ending_of_redrive};
use esm_io::{Caller, Clock, Disk, Source};
use esm_mapping::{Expected, NamedMapping, read_expected};
use esm_model::OutOfMemory;
use esm_redrive_run::RedriveRun;
use esm_runner::open_files;
use esm_traced::{TracedRedrive, run_redrive};
use std::alloc::Global;
use std::sync::Wait;
use std::thread::Threads;

/// Makes the result of the redrive: how it ended, and the devices that it left.
fn redrive_ran<S, D, F>(
    alloc: Global,
    run: RedriveRun<S, D>,
    front: Result<Vec<u8>, OutOfMemory>,
    registry: D,
    callers: Vec<F>,
) -> Ran<S, D, F>
    ensures ended { IfOk result.end (λ e. IsRedriveEndingOf run.end e × (front ≡ Ok result.front)) }
    ensures began { result.began ≡ began.Redrive run.said }
    ensures trace { result.trace ≡ run.trace }
    ensures devices { result.devices
        ≡ record { input = run.input; journal = run.journal; spare = run.spare; failures = run.dead; registry = registry; callers = callers } }
{
    let RedriveRun {
        end,
        trace,
        said,
        reading: _,
        input,
        journal,
        spare,
        dead,
    } = run;
    let Fronted { end, front } = with_front(alloc, end, front);
    let end = match end {
        Ok(end) => ending_of_redrive(alloc, end),
        Err(OutOfMemory) => Err(OutOfMemory),
    };
    Ran {
        end,
        began: Began::Redrive(said),
        front,
        trace,
        devices: RunDevices {
            input,
            journal,
            spare,
            failures: dead,
            registry,
            callers,
        },
    }
}

/// Runs the queue's mapping by the first caller over the opened files. A message is hidden for the seconds of `--visibility`
/// once it is received.
fn run_mapping<R: Threads + Wait + Sync, S: Source, D: Disk, C: Clock, F: Caller>(
    rt: &R,
    alloc: Global,
    words: &RedriveWords,
    mapping: NamedMapping,
    opened: Opened<S, D, F>,
    clock: &C,
) -> Ran<S, D, F>
    requires named { IsExpected Queue words.now.config mapping }
    requires may_run { MayRun mapping }
    requires kind { is_stream mapping.config.kind ≡ false }
    requires callers { length opened.callers.items ≡ MAX_LANES }
    requires receives { (1 ≤ words.now.max_receives) × (words.now.max_receives ≤ MAX_RECEIVES) }
    ensures ended { IfOk result.end (EndsWith (RedriveCause (run_tells C.Clock F.Caller D.Disk S.Source) words.now (reverse result.trace.items)
        (seen_of opened.input opened.files.journal opened.files.spare opened.files.failures opened.registry opened.callers.items)
        (seen_by result.devices)) result.front.items (reverse result.trace.items) result.began) }
    ensures stopped { OnErr result.end (IsRedriveCut (run_tells C.Clock F.Caller D.Disk S.Source) words.now (reverse result.trace.items)
        (seen_of opened.input opened.files.journal opened.files.spare opened.files.failures opened.registry opened.callers.items)
        (seen_by result.devices)) }
    ensures registry { result.devices.registry ≡ opened.registry }
    ensures as_many { length result.devices.callers.items ≡ MAX_LANES }
{
    let Opened {
        input,
        files,
        registry,
        mut callers,
    } = opened;
    let NamedMapping { config, start: _ } = mapping;
    files.keeps();
    let caller = take_first(&mut callers);
    let visibility_ms = words.visibility as u64 * 1000;
    let TracedRedrive { run, caller, front } = run_redrive(
        rt,
        alloc,
        config,
        words.calls,
        visibility_ms,
        words.max_receives,
        files,
        input,
        caller,
        clock,
        words.trace,
    );
    put_first(&mut callers, caller);
    redrive_ran(alloc, run, front, registry, callers)
}

/// Reads the mapping that the text of the words is, over the opened files, and runs it.
fn run_opened<R: Threads + Wait + Sync, S: Source, D: Disk, C: Clock, F: Caller>(
    rt: &R,
    alloc: Global,
    words: &RedriveWords,
    opened: Opened<S, D, F>,
    clock: &C,
) -> Ran<S, D, F>
    requires callers { length opened.callers.items ≡ MAX_LANES }
    requires receives { (1 ≤ words.now.max_receives) × (words.now.max_receives ≤ MAX_RECEIVES) }
    ensures ended { IfOk result.end (EndsWith (RedriveCause (run_tells C.Clock F.Caller D.Disk S.Source) words.now (reverse result.trace.items)
        (seen_of opened.input opened.files.journal opened.files.spare opened.files.failures opened.registry opened.callers.items)
        (seen_by result.devices)) result.front.items (reverse result.trace.items) result.began) }
    ensures stopped { OnErr result.end (IsRedriveCut (run_tells C.Clock F.Caller D.Disk S.Source) words.now (reverse result.trace.items)
        (seen_of opened.input opened.files.journal opened.files.spare opened.files.failures opened.registry opened.callers.items)
        (seen_by result.devices)) }
    ensures registry { result.devices.registry ≡ opened.registry }
    ensures as_many { length result.devices.callers.items ≡ MAX_LANES }
{
    match read_expected(alloc, Expected::Queue, &words.config) {
        Ok(mapping) => run_mapping(rt, alloc, words, mapping, opened, clock),
        Err(why) => closed(alloc, ending_of_mapping(alloc, why), opened),
    }
}

/// Opens the files of a run, reads the mapping of a queue, which the text of the words is, and runs it with a dead-letter
/// file.
pub fn run_redrive_words<R: Threads + Wait + Sync, S: Source, D: Disk, C: Clock, F: Caller>(
    rt: &R,
    alloc: Global,
    words: &RedriveWords,
    devices: RunDevices<S, D, F>,
    clock: &C,
) -> Ran<S, D, F>
    requires callers { length devices.callers.items ≡ MAX_LANES }
    requires receives { (1 ≤ words.now.max_receives) × (words.now.max_receives ≤ MAX_RECEIVES) }
    ensures ended { IfOk result.end (EndsWith (RedriveCause (run_tells C.Clock F.Caller D.Disk S.Source) words.now (reverse result.trace.items)
        (seen_by devices) (seen_by result.devices)) result.front.items (reverse result.trace.items) result.began) }
    ensures stopped { OnErr result.end (IsRedriveCut (run_tells C.Clock F.Caller D.Disk S.Source) words.now (reverse result.trace.items)
        (seen_by devices) (seen_by result.devices)) }
    ensures registry { result.devices.registry ≡ devices.registry }
    ensures as_many { length result.devices.callers.items ≡ MAX_LANES }
{
    let RunDevices {
        input,
        journal,
        spare,
        failures,
        registry,
        callers,
    } = devices;
    match open_files(alloc, journal, spare, failures) {
        Err(refused) => {
            let (journal, spare, failures) = refused.back;
            let devices = RunDevices {
                input,
                journal,
                spare,
                failures,
                registry,
                callers,
            };
            not_begun(alloc, ending_of_files(refused.why), devices)
        }
        Ok(files) => {
            let opened = Opened {
                input,
                files,
                registry,
                callers,
            };
            run_opened(rt, alloc, words, opened, clock)
        }
    }
}
