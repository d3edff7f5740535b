// The run of `ddb`: opens its files, reads its mapping, turns its input, and runs the mapping over the turned lines.
ghost use Rattle.std.specs.Prelude.{◌≡◌, ◌≤◌, Ok, true, [], length, reverse, vec_capacity, IfErr, IfOk, OnErr};
ghost use Rattle.esm_ddb.specs.Translating.{source_of};
ghost use Rattle.esm_ddb.specs.TurnedInput.{IsTurnedInput};
ghost use Rattle.esm_mapping.specs.Named.{IsExpected, MayRun};
ghost use Rattle.esm_mapping.specs.declared.expected.Expected.TheVariants.{DynamoDb};
ghost use Rattle.esm_model.specs.Valid.{is_stream};
ghost use Rattle.esm_model.specs.declared.limits.TheConstants.{MAX_LANES};
ghost use Rattle.esm_run.specs.Ddb.{DdbCause, IsDdbCut, IsRead};
ghost use Rattle.esm_run.specs.Ran.{EndsWith, IsDdbEndingOf};
ghost use Rattle.esm_run.specs.Under.{callers_under};
ghost use Rattle.esm_run.specs.World.{run_tells, seen_by, seen_of};
ghost use Rattle.esm_run.specs.declared.left.Began.TheVariants as began;
ghost use Rattle.esm_traced.specs.Room.{IsRoom};

use crate::ddb_callers::{unwrap, wrap};
use crate::left::{Began, Fronted, Ran, RunDevices, not_begun, with_front};
use crate::opened::{Opened, closed};
use crate::refusal::{ending_of_ddb, ending_of_files, ending_of_mapping};
use crate::table_failures::TableFailures;
use crate::turned_text::TurnedText;
use esm_ddb::{DdbCaller, InputTurned, TurnedInput, turn_input};
use esm_io::{Caller, Clock, Disk, Source};
use esm_mapping::{Expected, NamedMapping, read_expected};
use esm_model::{Config, MAX_LANES, OutOfMemory, Refused, Text};
use esm_runner::{MappingRun, open_files};
use esm_traced::{Room, Traced, run_stream};
use std::alloc::Global;
use std::sync::Wait;
use std::thread::Threads;

/// What a run needs besides its opened devices: the turned lines of its input, why the reading of the input ended, room for
/// its callers, and the room that these need while they are recorded.
struct Prepared<F: Caller> {
    lines: TurnedText,
    end: InputTurned,
    wrapped: Vec<DdbCaller<F>>,
    room: Room<DdbCaller<F>>,
}

/// Room for the callers of a run, and the room that they need while they are recorded.
struct CallerRoom<F: Caller> {
    wrapped: Vec<DdbCaller<F>>,
    room: Room<DdbCaller<F>>,
}

/// Reserves the room for callers.
fn caller_room<F: Caller>(alloc: Global, trace: bool) -> Result<CallerRoom<F>, OutOfMemory>
    ensures wrapped { IfOk result (λ r. (r.wrapped.items ≡ []) × (MAX_LANES ≤ vec_capacity r.wrapped)) }
    ensures room { IfOk result (λ r. IsRoom r.room) }
    ensures asked { IfOk result (λ r. r.room.trace ≡ trace) }
{
    let wrapped = Vec::with_capacity(alloc, MAX_LANES)?;
    match Room::new(alloc, trace) {
        Ok(room) => Ok(CallerRoom { wrapped, room }),
        Err(OutOfMemory) => {
            wrapped.destroy_empty();
            Err(OutOfMemory)
        }
    }
}

/// Reads and turns the input of the mapping, reserves the room for callers, and hands the input back as it was left.
fn prepare<R: Threads + Sync, S: Source, F: Caller>(
    rt: &R,
    alloc: Global,
    config: &Config,
    trace: bool,
    input: S,
) -> Result<(Prepared<F>, S), Refused<OutOfMemory, S>>
    ensures turned { IfOk result (λ p. IsTurnedInput S.faults S.left (source_of config.now) input p.1 p.0.lines p.0.end) }
    ensures room { IfOk result (λ p. (p.0.wrapped.items ≡ []) × (MAX_LANES ≤ vec_capacity p.0.wrapped)) }
    ensures recorded { IfOk result (λ p. IsRoom p.0.room) }
    ensures asked { IfOk result (λ p. p.0.room.trace ≡ trace) }
    ensures back { IfErr result (λ refused. IsRead S.faults S.left input refused.back) }
{
    let TurnedInput { source, text, end } = match turn_input(rt, alloc, config, input) {
        Ok(turned) => turned,
        Err(refused) => return Err(refused),
    };
    match caller_room(alloc, trace) {
        Ok(CallerRoom { wrapped, room }) => {
            let lines = TurnedText::new(text);
            Ok((
                Prepared {
                    lines,
                    end,
                    wrapped,
                    room,
                },
                source,
            ))
        }
        Err(_) => Err(Refused {
            why: OutOfMemory,
            back: source,
        }),
    }
}

/// Makes the result of the run over the turned lines: how it ended, and the devices that it left. The callers below go back
/// into `callers`.
fn ddb_ran<S, D, F: Caller>(
    alloc: Global,
    traced: Traced<TurnedText, D, DdbCaller<F>>,
    turned: InputTurned,
    input: S,
    registry: D,
    callers: Vec<F>,
) -> Ran<S, D, F>
    requires empty { callers.items ≡ [] }
    requires room { length traced.run.callers.items ≤ vec_capacity callers }
    ensures ended { IfOk result.end (λ e. IsDdbEndingOf turned traced.run.end e × (traced.front ≡ Ok result.front)) }
    ensures began { result.began ≡ began.Stream traced.run.said }
    ensures trace { result.trace ≡ traced.run.trace }
    // The devices.
    ensures input { result.devices.input ≡ input }
    ensures disks { (result.devices.journal ≡ traced.run.journal) × (result.devices.spare ≡ traced.run.spare)
        × (result.devices.failures ≡ traced.run.failures) }
    ensures registry { result.devices.registry ≡ registry }
    ensures callers { result.devices.callers.items ≡ callers_under traced.run.callers.items }
{
    let Traced { run, front } = traced;
    let MappingRun {
        end,
        trace,
        said,
        reading: _,
        input: _,
        journal,
        spare,
        failures,
        callers: wrapped,
    } = run;
    let mut callers = callers;
    unwrap(wrapped, &mut callers);
    let Fronted { end, front } = with_front(alloc, end, front);
    let end = match end {
        Ok(end) => ending_of_ddb(alloc, turned, end),
        Err(OutOfMemory) => Err(OutOfMemory),
    };
    Ran {
        end,
        began: Began::Stream(said),
        front,
        trace,
        devices: RunDevices {
            input,
            journal,
            spare,
            failures,
            registry,
            callers,
        },
    }
}

/// Runs the mapping over the turned lines and the opened files. No call begins before the end of the lines is noted.
fn run_prepared<
    R: Threads + Wait + Sync,
    S: Source,
    D: Disk + Send,
    C: Clock + Sync,
    F: Caller + Send,
>(
    rt: &R,
    alloc: Global,
    text: &Text,
    calls: u32,
    trace: bool,
    mapping: NamedMapping,
    prepared: Prepared<F>,
    opened: Opened<S, D, F>,
    clock: &C,
) -> Ran<S, D, F>
    requires named { IsExpected DynamoDb text.now mapping }
    requires may_run { MayRun mapping }
    requires kind { is_stream mapping.config.kind ≡ true }
    requires callers { length opened.callers.items ≡ MAX_LANES }
    requires room { (prepared.wrapped.items ≡ []) × (MAX_LANES ≤ vec_capacity prepared.wrapped) }
    requires recorded { IsRoom prepared.room }
    requires asked { prepared.room.trace ≡ trace }
    ensures ended { IfOk result.end (λ ending. (found : S)
        → IsTurnedInput S.faults S.left (source_of mapping.config) found opened.input prepared.lines prepared.end
        → EndsWith (DdbCause (run_tells C.Clock F.Caller D.Disk S.Source) text.now calls trace (reverse result.trace.items)
        (seen_of found opened.files.journal opened.files.spare opened.files.failures opened.registry opened.callers.items)
        (seen_by result.devices)) result.front.items (reverse result.trace.items) result.began ending) }
    ensures stopped { OnErr result.end ((found : S)
        → IsTurnedInput S.faults S.left (source_of mapping.config) found opened.input prepared.lines prepared.end
        → IsDdbCut (run_tells C.Clock F.Caller D.Disk S.Source) text.now calls trace (reverse result.trace.items)
        (seen_of found opened.files.journal opened.files.spare opened.files.failures opened.registry opened.callers.items)
        (seen_by result.devices)) }
    ensures registry { result.devices.registry ≡ opened.registry }
    ensures as_many { length result.devices.callers.items ≡ MAX_LANES }
{
    let _ = text;
    let _ = trace;
    let Opened {
        input,
        files,
        registry,
        mut callers,
    } = opened;
    let NamedMapping { config, start } = mapping;
    let Prepared {
        lines,
        end,
        mut wrapped,
        room,
    } = prepared;
    files.keeps();
    wrap(&mut callers, &mut wrapped);
    let traced = run_stream::<_, _, _, _, _, TableFailures>(
        rt, alloc, config, start, calls, files, lines, wrapped, room, clock, true,
    );
    ddb_ran(alloc, traced, end, input, registry, callers)
}

/// Reads and turns the input of the mapping, and runs it over the turned lines and the opened files.
fn run_mapping<
    R: Threads + Wait + Sync,
    S: Source,
    D: Disk + Send,
    C: Clock + Sync,
    F: Caller + Send,
>(
    rt: &R,
    alloc: Global,
    text: &Text,
    calls: u32,
    trace: bool,
    mapping: NamedMapping,
    opened: Opened<S, D, F>,
    clock: &C,
) -> Ran<S, D, F>
    requires named { IsExpected DynamoDb text.now mapping }
    requires may_run { MayRun mapping }
    requires kind { is_stream mapping.config.kind ≡ true }
    requires callers { length opened.callers.items ≡ MAX_LANES }
    ensures ended { IfOk result.end (EndsWith (DdbCause (run_tells C.Clock F.Caller D.Disk S.Source) text.now calls trace (reverse result.trace.items)
        (seen_of opened.input opened.files.journal opened.files.spare opened.files.failures opened.registry opened.callers.items)
        (seen_by result.devices)) result.front.items (reverse result.trace.items) result.began) }
    ensures stopped { OnErr result.end (IsDdbCut (run_tells C.Clock F.Caller D.Disk S.Source) text.now calls trace (reverse result.trace.items)
        (seen_of opened.input opened.files.journal opened.files.spare opened.files.failures opened.registry opened.callers.items)
        (seen_by result.devices)) }
    ensures registry { result.devices.registry ≡ opened.registry }
    ensures as_many { length result.devices.callers.items ≡ MAX_LANES }
{
    let Opened {
        input,
        files,
        registry,
        callers,
    } = opened;
    match prepare(rt, alloc, &mapping.config, trace, input) {
        Ok((prepared, input)) => {
            let opened = Opened {
                input,
                files,
                registry,
                callers,
            };
            run_prepared(
                rt, alloc, text, calls, trace, mapping, prepared, opened, clock,
            )
        }
        Err(refused) => {
            let opened = Opened {
                input: refused.back,
                files,
                registry,
                callers,
            };
            closed(alloc, Err(OutOfMemory), opened)
        }
    }
}

/// Reads the mapping that `text` is, over the opened files, and runs it.
fn run_opened<
    R: Threads + Wait + Sync,
    S: Source,
    D: Disk + Send,
    C: Clock + Sync,
    F: Caller + Send,
>(
    rt: &R,
    alloc: Global,
    text: &Text,
    calls: u32,
    trace: bool,
    opened: Opened<S, D, F>,
    clock: &C,
) -> Ran<S, D, F>
    requires callers { length opened.callers.items ≡ MAX_LANES }
    ensures ended { IfOk result.end (EndsWith (DdbCause (run_tells C.Clock F.Caller D.Disk S.Source) text.now calls trace (reverse result.trace.items)
        (seen_of opened.input opened.files.journal opened.files.spare opened.files.failures opened.registry opened.callers.items)
        (seen_by result.devices)) result.front.items (reverse result.trace.items) result.began) }
    ensures stopped { OnErr result.end (IsDdbCut (run_tells C.Clock F.Caller D.Disk S.Source) text.now calls trace (reverse result.trace.items)
        (seen_of opened.input opened.files.journal opened.files.spare opened.files.failures opened.registry opened.callers.items)
        (seen_by result.devices)) }
    ensures registry { result.devices.registry ≡ opened.registry }
    ensures as_many { length result.devices.callers.items ≡ MAX_LANES }
{
    match read_expected(alloc, Expected::DynamoDb, text) {
        Ok(mapping) => run_mapping(rt, alloc, text, calls, trace, mapping, opened, clock),
        Err(why) => closed(alloc, ending_of_mapping(alloc, why), opened),
    }
}

/// Opens the files of a run, reads the mapping of a DynamoDB stream, which `text` is, and runs it with its input read first.
pub fn run_ddb<
    R: Threads + Wait + Sync,
    S: Source,
    D: Disk + Send,
    C: Clock + Sync,
    F: Caller + Send,
>(
    rt: &R,
    alloc: Global,
    text: &Text,
    calls: u32,
    trace: bool,
    devices: RunDevices<S, D, F>,
    clock: &C,
) -> Ran<S, D, F>
    requires callers { length devices.callers.items ≡ MAX_LANES }
    ensures ended { IfOk result.end (EndsWith (DdbCause (run_tells C.Clock F.Caller D.Disk S.Source) text.now calls trace (reverse result.trace.items)
        (seen_by devices) (seen_by result.devices)) result.front.items (reverse result.trace.items) result.began) }
    ensures stopped { OnErr result.end (IsDdbCut (run_tells C.Clock F.Caller D.Disk S.Source) text.now calls trace (reverse result.trace.items)
        (seen_by devices) (seen_by result.devices)) }
    ensures registry { result.devices.registry ≡ devices.registry }
    ensures as_many { length result.devices.callers.items ≡ MAX_LANES }
{
    let RunDevices {
        input,
        journal,
        spare,
        failures,
        registry,
        callers,
    } = devices;
    match open_files(alloc, journal, spare, failures) {
        Err(refused) => {
            let (journal, spare, failures) = refused.back;
            let devices = RunDevices {
                input,
                journal,
                spare,
                failures,
                registry,
                callers,
            };
            not_begun(alloc, ending_of_files(refused.why), devices)
        }
        Ok(files) => {
            let opened = Opened {
                input,
                files,
                registry,
                callers,
            };
            run_opened(rt, alloc, text, calls, trace, opened, clock)
        }
    }
}
