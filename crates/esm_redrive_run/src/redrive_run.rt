// The run of a redrive over opened files.
ghost use Rattle.std.specs.Prelude.{◌≡◌, ◌≤◌, true, false, is_ok, reverse, IfOk, IfErr, OnErr};
ghost use Rattle.esm_io.specs.Meanings.{disk as meaning};
ghost use Rattle.esm_model.specs.Pattern.{read_patterns};
ghost use Rattle.esm_model.specs.QueueEvent.{IsQueueConfig};
ghost use Rattle.esm_model.specs.Valid.{is_stream};
ghost use Rattle.esm_model.specs.declared.item.LineKind.{LineKind};
ghost use Rattle.esm_journal_state.specs.Meaning.{history, are_good};
ghost use Rattle.esm_journal_state.specs.SaidLists.{IsInOrder};
ghost use Rattle.esm_journal_state.specs.Tells.{Tells};
ghost use Rattle.esm_queue_model.specs.QueueSetting.{is_fifo};
ghost use Rattle.esm_redrive.specs.declared.limited.TheConstants.{MAX_RECEIVES};
ghost use Rattle.esm_workers.specs.Working.{outside};
ghost use Rattle.esm_runner.specs.Files.{IsOpenedFiles};
ghost use Rattle.esm_redrive_run.specs.Ended.{telling, HasEnded, HasStopped, HasStoppedRun, HasRun};
ghost use Rattle.esm_redrive_run.specs.Runs.{IsBegun, IsNoBadPayload, IsRefusal, why_of, words_of, files_of};

use crate::book::SerialRedrive;
use crate::laws::laws_hold;
use crate::run::{RedriveEnd, RedriveRun, closed, end_of};
use esm_input::{Input, InputEnd};
use esm_io::{Caller, Clock, Disk, Source};
use esm_journal::{FileDest, Journal, Pair};
use esm_journal_state::Says;
use esm_journal_state::laws::same_told;
use esm_model::{Config, Kind, LineKind, OutOfMemory, Text};
use esm_redrive_book::{RedriveOpen, RedriveParts, RedriveRefused, open_redrive};
use esm_runner::{Files, FilesParts};
use esm_serial::{Ran, run_serial};
use std::alloc::Global;
use std::snapshot::Snapshot;
use std::sync::Wait;
use std::thread::Threads;

/// The disks as they were passed in, for the contracts alone.
#[derive(Drop)]
struct Before<D> {
    journal: Snapshot<D>,
    spare: Snapshot<D>,
    failures: Snapshot<D>,
}

/// A run that is about to begin: its book, its input and the function's name.
struct Opened<S: Source, D: Disk> {
    book: SerialRedrive<D>,
    input: Input<S>,
    name: Text,
}

/// Why a run did not begin, and what it was given.
struct NotBegun<S, D: Disk> {
    why: Result<RedriveEnd, OutOfMemory>,
    pair: Pair<D>,
    dead: Journal<D>,
    input: S,
}

/// The lines of the input of a queue of this kind.
fn line_kind(kind: Kind) -> LineKind
    ensures { result ≡ LineKind.Queue (is_fifo kind) }
{
    match kind {
        Kind::Fifo => LineKind::Queue { fifo: true },
        Kind::Standard | Kind::Stream => LineKind::Queue { fifo: false },
    }
}

/// Why a run did not begin whose book was not opened.
fn not_begun<S, D: Disk>(refused: RedriveRefused<D>, input: S) -> NotBegun<S, D>
    requires good { IsNoBadPayload refused.why }
    ensures why { result.why ≡ why_of refused.why }
    ensures back { (result.pair ≡ refused.pair) × (result.dead ≡ refused.dead) × (result.input ≡ input) }
{
    let RedriveRefused { why, pair, dead } = refused;
    let why = match why {
        RedriveOpen::BadPayload(_) => unreachable!(),
        RedriveOpen::BadLine(index) => Ok(RedriveEnd::BadLine(index)),
        RedriveOpen::OutOfMemory => Err(OutOfMemory),
    };
    NotBegun {
        why,
        pair,
        dead,
        input,
    }
}

/// Opens the book over the journal and the dead-letter file, and opens the input. Nothing is read or written.
#[tactic(auto, using(crate::proofs::Begins::no_bad, crate::proofs::Begins::refusal_so))]
fn begin<S: Source, D: Disk>(
    alloc: Global,
    config: Config,
    calls: u32,
    visibility_ms: u64,
    max_receives: u32,
    said: &Says,
    pair: Pair<D>,
    dead: Journal<D>,
    input: S,
) -> Result<Opened<S, D>, NotBegun<S, D>>
    requires config { IsQueueConfig config }
    requires patterns { is_ok (read_patterns (is_stream config.kind) config.filters) ≡ true }
    requires some { 1 ≤ max_receives }
    requires few { max_receives ≤ MAX_RECEIVES }
    requires up { pair.down ≡ false }
    requires usable { dead.down ≡ false }
    requires good { are_good (reverse pair.payloads) ≡ true }
    requires tells { Tells said.now (history (reverse pair.payloads)) }
    requires order { IsInOrder said.now }
    ensures begun { IfOk result (λ run. IsBegun (record { config = config; calls = calls; visibility = visibility_ms; max_receives = max_receives })
        said.now pair dead input run.book.redrive run.input run.name) }
    ensures refused { IfErr result (λ refused. IsRefusal
        (record { config = config; calls = calls; visibility = visibility_ms; max_receives = max_receives }) dead.payloads refused.why) }
    ensures back { IfErr result (λ refused. (refused.pair ≡ pair) × (refused.dead ≡ dead) × (refused.input ≡ input)) }
{
    let Ok(name) = config.function.copy(alloc) else {
        return Err(NotBegun {
            why: Err(OutOfMemory),
            pair,
            dead,
            input,
        });
    };
    let kind = line_kind(config.kind);
    same_told();
    match Input::new(alloc, input, kind, config.factor, config.start) {
        Ok(input) => match open_redrive(
            alloc,
            config,
            calls,
            visibility_ms,
            max_receives,
            pair,
            dead,
        ) {
            Ok(redrive) => Ok(Opened {
                book: SerialRedrive { redrive },
                input,
                name,
            }),
            Err(refused) => Err(not_begun(refused, input.into_source())),
        },
        Err(refused) => Err(NotBegun {
            why: Err(OutOfMemory),
            pair,
            dead,
            input: refused.back,
        }),
    }
}

/// Runs the redrive of an opened book.
fn run_opened<R: Threads + Wait + Sync, S: Source, D: Disk, C: Clock, F: Caller>(
    rt: &R,
    alloc: Global,
    run: Opened<S, D>,
    said: Says,
    caller: &mut F,
    clock: &C,
    before: &Before<D>,
) -> RedriveRun<S, D>
    requires begun { IsBegun (words_of run.book.redrive) said run.book.redrive.pair run.book.redrive.dest run.input.source
        run.book.redrive run.input run.name }
    requires files { IsOpenedFiles (meaning D.Disk)
        (files_of before.now.journal.value before.now.spare.value before.now.failures.value said run.book.redrive) }
    ensures ended { IfOk result.end (HasRun (telling (outside C.gave F.sends F.log) (meaning D.Disk)) S.faults S.left
        (words_of run.book.redrive) (files_of before.now.journal.value before.now.spare.value before.now.failures.value said run.book.redrive)
        run.input.source result.input result.reading.value caller.old caller.new (reverse result.trace.items)
        (record { journal = result.journal; spare = result.spare; dead = result.dead })) }
    ensures stopped { OnErr result.end (HasStopped (telling (outside C.gave F.sends F.log) (meaning D.Disk)) S.faults S.left
        (words_of run.book.redrive) (files_of before.now.journal.value before.now.spare.value before.now.failures.value said run.book.redrive)
        run.input.source result.input result.reading.value caller.old caller.new (reverse result.trace.items)
        (record { journal = result.journal; spare = result.spare; dead = result.dead })) }
    ensures said { result.said ≡ said }
{
    let Opened { book, input, name } = run;
    let Ran {
        end: ran,
        book,
        input,
    } = run_serial(rt, alloc, book, input, name.as_str(), caller, clock);
    laws_hold();
    let SerialRedrive { redrive } = book;
    redrive.since_before(&before.journal, &before.spare);
    let _ = redrive.trouble();
    let (source, reading) = input.into_parts();
    let read_to = Snapshot::of(&reading);
    let RedriveParts {
        history,
        trouble,
        pair,
        dead,
    } = redrive.into_parts();
    let end = end_of(ran, trouble, reading);
    closed(
        end,
        history,
        pair,
        dead.into_journal(),
        said,
        read_to,
        source,
    )
}

/// Runs a redrive. It reads the input to its end; then one batcher calls, one call after the other. A message that was
/// received `max_receives` times, 1 to 1,000, without being deleted is moved: its line is written to the dead-letter
/// file, and then its deletion to the journal. The dead-letter file is the failure file of `files`. `calls` is how many
/// calls may be made in all, `visibility_ms` the visibility timeout in milliseconds. An `end` of `OutOfMemory` means that
/// memory ran out.
pub fn run_redrive<R: Threads + Wait + Sync, S: Source, D: Disk, C: Clock, F: Caller>(
    rt: &R,
    alloc: Global,
    config: Config,
    calls: u32,
    visibility_ms: u64,
    max_receives: u32,
    files: Files<D>,
    input: S,
    caller: &mut F,
    clock: &C,
) -> RedriveRun<S, D>
    requires config { IsQueueConfig config }
    requires patterns { is_ok (read_patterns (is_stream config.kind) config.filters) ≡ true }
    requires some { 1 ≤ max_receives }
    requires few { max_receives ≤ MAX_RECEIVES }
    ensures ended { IfOk result.end (HasEnded (telling (outside C.gave F.sends F.log) (meaning D.Disk)) S.faults S.left
        (record { config = config; calls = calls; visibility = visibility_ms; max_receives = max_receives }) files
        input result.input result.reading.value caller.old caller.new (reverse result.trace.items)
        (record { journal = result.journal; spare = result.spare; dead = result.dead })) }
    ensures stopped { OnErr result.end (HasStoppedRun (telling (outside C.gave F.sends F.log) (meaning D.Disk)) S.faults S.left
        (record { config = config; calls = calls; visibility = visibility_ms; max_receives = max_receives }) files
        input result.input result.reading.value caller.old caller.new (reverse result.trace.items)
        (record { journal = result.journal; spare = result.spare; dead = result.dead })) }
    ensures said { result.said ≡ files.said }
{
    let FilesParts {
        pair,
        said,
        dest,
        journal,
        spare,
        failures,
    } = files.into_parts();
    let before = Before {
        journal,
        spare,
        failures,
    };
    match begin(
        alloc,
        config,
        calls,
        visibility_ms,
        max_receives,
        &said,
        pair,
        dest.into_journal(),
        input,
    ) {
        Ok(run) => run_opened(rt, alloc, run, said, caller, clock, &before),
        Err(refused) => {
            let NotBegun {
                why,
                pair,
                dead,
                input,
            } = refused;
            let none: Option<InputEnd> = None;
            let read_to = Snapshot::of(&none);
            closed(why, Vec::new(alloc), pair, dead, said, read_to, input)
        }
    }
}
