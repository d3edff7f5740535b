// The run of a generated stream.
ghost use Rattle.std.specs.Prelude.{◌≡◌, ℕ, reverse, Ok, IfOk};
ghost use Rattle.esm_gen.specs.Nothing.{SaysNothing};
ghost use Rattle.esm_gen.specs.Prepared.{IsPrepared, MayRun};
ghost use Rattle.esm_gen.specs.Report as spec;
ghost use Rattle.esm_gen.specs.Run.{HasRun, HasFinished, HasTold};
ghost use Rattle.esm_folder.specs.Init.{fresh_bytes};
ghost use Rattle.esm_model.specs.declared.names.FileName.TheVariants.{Journal, Spare};
ghost use Rattle.esm_input.specs.declared.ending.InputEnd.TheVariants.{End};
ghost use Rattle.esm_model.specs.Setting.{Setting};
ghost use Rattle.esm_runner.specs.declared.run.MappingEnd.TheVariants.{Finished};

use crate::disks::fresh_disks;
use crate::function::{FunctionCaller, all_keep, function_callers};
use crate::lines::generated_lines;
use crate::mapping::generated_mapping;
use crate::report::generated_report;
use esm_folder::Disks;
use esm_input::InputEnd;
use esm_io::{MemDisk, MemSource, StepClock};
use esm_model::{Config, Entry, OutOfMemory, Start};
use esm_runner::{Files, MappingEnd, MappingRun, Plain, open_files, run_stream};
use std::alloc::Global;
use std::sync::Wait;
use std::thread::Threads;

/// The calls allowed. The run of the longest generated stream makes fewer.
pub const CALLS: u32 = 1_000_000;

/// How many bytes of the input are given at once, at most.
const PIECE: usize = 65_536;

/// What became of the run of a generated stream: its report, if every record has its fate, and its history (oldest entry
/// first).
#[derive(Drop)]
pub struct GeneratedRun {
    pub report: Result<Vec<u8>, OutOfMemory>,
    pub trace: Vec<Entry>,
}

/// What the run begins with: its mapping, files, input and callers.
#[derive(Drop)]
struct Prepared {
    config: Config,
    files: Files<MemDisk>,
    input: MemSource,
    callers: Vec<FunctionCaller>,
}

/// Opens the files of the run over fresh disks.
fn open_fresh(alloc: Global, disks: Disks<MemDisk>) -> Result<Files<MemDisk>, OutOfMemory>
    requires journal { disks.journal.content ≡ fresh_bytes Journal }
    requires spare { disks.spare.content ≡ fresh_bytes Spare }
    ensures { IfOk result (λ files. SaysNothing files.said) }
{
    match open_files(alloc, disks.journal, disks.spare, disks.failures) {
        Ok(files) => {
            files.keeps();
            Ok(files)
        }
        Err(_) => Err(OutOfMemory),
    }
}

/// Makes what a run of `records` records begins with.
fn prepare(alloc: Global, records: u32) -> Result<Prepared, OutOfMemory>
    ensures prepared { IfOk result (IsPrepared records) }
    ensures may_run { IfOk result MayRun }
{
    let config = generated_mapping(alloc)?;
    let disks = fresh_disks(alloc)?;
    let files = open_fresh(alloc, disks)?;
    let lines = generated_lines(alloc, records)?;
    let callers = function_callers(alloc)?;
    Ok(Prepared {
        config,
        files,
        input: MemSource::new(lines, PIECE, Vec::new(alloc)),
        callers,
    })
}

/// Runs the mapping by `run_stream`, which runs every stream's.
fn run_prepared<R: Threads + Wait + Sync>(
    rt: &R,
    alloc: Global,
    prepared: Prepared,
) -> MappingRun<MemSource, MemDisk, FunctionCaller>
    requires { MayRun prepared }
    ensures run { (records : ℕ) → IsPrepared records prepared → HasRun records (reverse result.trace.items) }
    ensures finished { (records : ℕ) → IsPrepared records prepared → result.end ≡ Ok (Finished End) → HasFinished records (reverse result.trace.items) }
    ensures said { result.said ≡ prepared.files.said }
{
    let Prepared {
        config,
        files,
        input,
        callers,
    } = prepared;
    let clock = StepClock::new(0);
    let start = Start::TrimHorizon;
    let read_first = true;
    let run = run_stream::<_, _, _, _, _, Plain>(
        rt, alloc, config, start, CALLS, files, input, callers, &clock, read_first,
    );
    all_keep(&run.callers);
    run
}

/// Adds its report to the run if every record has its fate. Any other end is reported as `OutOfMemory`.
fn told(alloc: Global, run: MappingRun<MemSource, MemDisk, FunctionCaller>) -> GeneratedRun
    ensures trace { result.trace ≡ run.trace }
    ensures finished { IfOk result.report (λ text. run.end ≡ Ok (Finished End)) }
    ensures text { IfOk result.report (λ text. (s : Setting) → s.fates ≡ run.said.fates
        → text.items ≡ spec.generated_report s (reverse run.trace.items)) }
{
    let report = match &run.end {
        Ok(MappingEnd::Finished(InputEnd::End)) => generated_report(alloc, &run.said, &run.trace),
        _ => Err(OutOfMemory),
    };
    GeneratedRun {
        report,
        trace: run.trace,
    }
}

/// Runs a generated stream of `records` records over disks, a clock and callers of its own, which are in memory and none of
/// whose calls fails. It reads the input to its end before the first call. The report is `OutOfMemory` if an allocation
/// failed, and also if the run had ended without a fate for every record.
pub fn run_generated<R: Threads + Wait + Sync>(rt: &R, alloc: Global, records: u32) -> GeneratedRun
    ensures run { HasRun records (reverse result.trace.items) }
    ensures told { IfOk result.report (λ text. HasTold records (reverse result.trace.items) text.items) }
{
    match prepare(alloc, records) {
        Ok(prepared) => told(alloc, run_prepared(rt, alloc, prepared)),
        Err(OutOfMemory) => GeneratedRun {
            report: Err(OutOfMemory),
            trace: Vec::new(alloc),
        },
    }
}
