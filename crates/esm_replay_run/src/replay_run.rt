// The run of a replay over opened files.
ghost use Rattle.std.specs.Prelude.{◌≡◌, true, false, reverse, IfOk, IfErr, OnErr};
ghost use Rattle.esm_io.specs.Meanings.{disk as meaning};
ghost use Rattle.esm_model.specs.Valid.{IsStreamConfig};
ghost use Rattle.esm_journal_state.specs.Meaning.{history, are_good};
ghost use Rattle.esm_journal_state.specs.SaidLists.{IsInOrder};
ghost use Rattle.esm_journal_state.specs.Tells.{Tells};
ghost use Rattle.esm_workers.specs.Working.{outside};
ghost use Rattle.esm_runner.specs.Files.{IsOpenedFiles};
ghost use Rattle.esm_replay_run.specs.Ended.{telling, HasEnded, HasStoppedRun};
ghost use Rattle.esm_replay_run.specs.Runs.{IsBegun, IsRefusal, IsOfLine, refusal_of, files_of};

use crate::laws::laws_hold;
use crate::report::{ReplayCounts, counts_of};
use crate::run::{ReplayEnd, ReplayRun, closed, end_of};
use esm_input::{Input, InputEnd};
use esm_io::{Caller, Clock, Disk, Source};
use esm_journal::{Journal, Pair};
use esm_journal_state::Says;
use esm_model::{Bytes, Config, LineKind, OutOfMemory, Text};
use esm_replay_book::{Replay, ReplayOpen, ReplayParts};
use esm_runner::{Files, FilesParts};
use esm_serial::{Ran, run_serial};
use std::alloc::Global;
use std::snapshot::Snapshot;
use std::sync::Wait;
use std::thread::Threads;

/// The mapping and the disks as they were passed in, for the contracts alone.
#[derive(Drop)]
struct Before<D> {
    config: Snapshot<Config>,
    journal: Snapshot<D>,
    spare: Snapshot<D>,
    failures: Snapshot<D>,
}

/// A run that is about to begin: its book, its input and the function's name.
struct Opened<S: Source, D: Disk> {
    book: Replay<D>,
    input: Input<S>,
    name: Text,
}

/// Why a run did not begin, and what it was given.
struct NotBegun<S, D: Disk> {
    why: Result<ReplayEnd, OutOfMemory>,
    pair: Pair<D>,
    said: Says,
    input: S,
}

/// How a run ends whose book was not opened; the payloads of its journal are good.
fn refusal(why: ReplayOpen) -> Result<ReplayEnd, OutOfMemory>
    requires { IsOfLine why }
    ensures { result ≡ refusal_of why }
{
    match why {
        ReplayOpen::BadPayload(_) => unreachable!(),
        ReplayOpen::BadLine(index) => Ok(ReplayEnd::BadLine(index)),
        ReplayOpen::OutOfMemory => Err(OutOfMemory),
    }
}

/// Opens the book over the journal, which said this, and over the lines of the failure file, and opens the input. Nothing
/// is read or written.
fn begin<S: Source, D: Disk>(
    alloc: Global,
    config: Config,
    calls: u32,
    said: Says,
    pair: Pair<D>,
    lines: &[Bytes],
    input: S,
) -> Result<Opened<S, D>, NotBegun<S, D>>
    requires config { IsStreamConfig config }
    requires up { pair.down ≡ false }
    requires good { are_good (reverse pair.payloads) ≡ true }
    requires tells { Tells said (history (reverse pair.payloads)) }
    requires order { IsInOrder said }
    ensures begun { IfOk result (λ run. IsBegun config calls said pair lines.now input run.book run.input run.name) }
    ensures why { IfErr result (λ refused. IfOk refused.why (IsRefusal lines.now)) }
    ensures back { IfErr result (λ refused. (refused.pair ≡ pair) × (refused.input ≡ input) × (refused.said ≡ said)) }
{
    let Ok(name) = config.function.copy(alloc) else {
        return Err(NotBegun {
            why: Err(OutOfMemory),
            pair,
            said,
            input,
        });
    };
    match Input::new(alloc, input, LineKind::Stream, config.factor, config.start) {
        Ok(input) => match Replay::open_over(alloc, config, calls, said, pair, lines) {
            Ok(book) => Ok(Opened { book, input, name }),
            Err(refused) => {
                let (pair, said) = refused.back;
                Err(NotBegun {
                    why: refusal(refused.why),
                    pair,
                    said,
                    input: input.into_source(),
                })
            }
        },
        Err(refused) => Err(NotBegun {
            why: Err(OutOfMemory),
            pair,
            said,
            input: refused.back,
        }),
    }
}

/// Runs a replay that was opened.
fn run_opened<R: Threads + Wait + Sync, S: Source, D: Disk, C: Clock, F: Caller>(
    rt: &R,
    alloc: Global,
    run: Opened<S, D>,
    lines: Journal<D>,
    caller: &mut F,
    clock: &C,
    before: &Before<D>,
) -> ReplayRun<S, D>
    requires config { IsStreamConfig before.now.config.value }
    requires begun { IsBegun before.now.config.value run.book.core.opened.calls run.book.core.opened.said run.book.pair lines.payloads run.input.source run.book run.input run.name }
    requires files { IsOpenedFiles (meaning D.Disk)
        (files_of before.now.journal.value before.now.spare.value before.now.failures.value run.book.core.opened.said run.book.pair lines) }
    ensures ended { IfOk result.end (HasEnded (telling (outside C.gave F.sends F.log) (meaning D.Disk)) S.faults S.left
        before.now.config.value run.book.core.opened.calls
        (files_of before.now.journal.value before.now.spare.value before.now.failures.value run.book.core.opened.said run.book.pair lines)
        run.input.source result.input result.reading.value caller.old caller.new (reverse result.trace.items) result.counts
        (record { journal = result.journal; spare = result.spare; failures = result.failures })) }
    ensures stopped { OnErr result.end (HasStoppedRun (telling (outside C.gave F.sends F.log) (meaning D.Disk)) S.faults S.left
        before.now.config.value run.book.core.opened.calls
        (files_of before.now.journal.value before.now.spare.value before.now.failures.value run.book.core.opened.said run.book.pair lines)
        run.input.source result.input result.reading.value caller.old caller.new (reverse result.trace.items) result.counts
        (record { journal = result.journal; spare = result.spare; failures = result.failures })) }
    ensures said { result.said ≡ run.book.core.opened.said }
{
    let Opened { book, input, name } = run;
    let Ran {
        end: ran,
        book,
        input,
    } = run_serial(rt, alloc, book, input, name.as_str(), caller, clock);
    laws_hold();
    book.since_before(&before.journal, &before.spare);
    let _ = book.trouble();
    let named = book.named();
    let (source, reading) = input.into_parts();
    let read_to = Snapshot::of(&reading);
    let ReplayParts {
        history,
        said,
        trouble,
        pair,
    } = book.into_parts();
    let end = end_of(ran, trouble, reading);
    let counts = counts_of(named, history.as_slice());
    closed(end, history, counts, pair, lines, said, read_to, source)
}

/// Runs a replay. It reads the input to its end. Then it calls again, one call after the other, the records that were
/// given up, are named by a line of the failure file and were not yet replayed. It batches and halves as the mapping
/// says, but without retries and windows. What succeeds is written to the journal before the next call. The failure file
/// is only read. `calls` is how many calls may be made in all. An `end` of `OutOfMemory` means that memory ran out.
pub fn run_replay<R: Threads + Wait + Sync, S: Source, D: Disk, C: Clock, F: Caller>(
    rt: &R,
    alloc: Global,
    config: Config,
    calls: u32,
    files: Files<D>,
    input: S,
    caller: &mut F,
    clock: &C,
) -> ReplayRun<S, D>
    requires { IsStreamConfig config }
    ensures ended { IfOk result.end (HasEnded (telling (outside C.gave F.sends F.log) (meaning D.Disk)) S.faults S.left
        config calls files input result.input result.reading.value caller.old caller.new (reverse result.trace.items) result.counts
        (record { journal = result.journal; spare = result.spare; failures = result.failures })) }
    ensures stopped { OnErr result.end (HasStoppedRun (telling (outside C.gave F.sends F.log) (meaning D.Disk)) S.faults S.left
        config calls files input result.input result.reading.value caller.old caller.new (reverse result.trace.items) result.counts
        (record { journal = result.journal; spare = result.spare; failures = result.failures })) }
    ensures said { result.said ≡ files.said }
{
    let FilesParts {
        pair,
        said,
        dest,
        journal,
        spare,
        failures,
    } = files.into_parts();
    let before = Before {
        config: Snapshot::of(&config),
        journal,
        spare,
        failures,
    };
    let lines = dest.into_journal();
    match begin(alloc, config, calls, said, pair, lines.payloads(), input) {
        Ok(run) => run_opened(rt, alloc, run, lines, caller, clock, &before),
        Err(refused) => {
            let NotBegun {
                why,
                pair,
                said,
                input,
            } = refused;
            let none: Option<InputEnd> = None;
            let read_to = Snapshot::of(&none);
            let counts = ReplayCounts {
                named: 0,
                replayed: 0,
                left: 0,
            };
            closed(
                why,
                Vec::new(alloc),
                counts,
                pair,
                lines,
                said,
                read_to,
                input,
            )
        }
    }
}
