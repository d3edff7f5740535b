// The run of a queue's mapping over opened files.
ghost use Rattle.std.specs.Prelude.{◌≡◌, true, false, is_ok, length, reverse, IfOk, IfErr, OnErr};
ghost use Rattle.esm_io.specs.Meanings.{disk as meaning};
ghost use Rattle.esm_model.specs.declared.limits.TheConstants.{MAX_LANES};
ghost use Rattle.esm_model.specs.Entries.{CallsFollowShut};
ghost use Rattle.esm_model.specs.Pattern.{read_patterns};
ghost use Rattle.esm_model.specs.QueueEvent.{IsQueueConfig};
ghost use Rattle.esm_model.specs.Valid.{is_stream};
ghost use Rattle.esm_model.specs.declared.item.LineKind.{LineKind};
ghost use Rattle.esm_journal_state.specs.Meaning.{history, are_good};
ghost use Rattle.esm_journal_state.specs.SaidLists.{IsInOrder};
ghost use Rattle.esm_journal_state.specs.Tells.{Tells};
ghost use Rattle.esm_queue_model.specs.QueueSetting.{is_fifo};
ghost use Rattle.esm_queue_book.specs.Opening.{IsOpened};
ghost use Rattle.esm_workers.specs.Working.{outside};
ghost use Rattle.esm_runner.specs.Files.{IsOpenedFiles};
ghost use Rattle.esm_runner.specs.Headline.{telling};
ghost use Rattle.esm_runner.specs.QueueEnded.{HasEnded, HasStoppedRun};
ghost use Rattle.esm_runner.specs.QueueRuns.{IsBegun, files_of};

use crate::files::{Files, FilesParts};
use crate::number::batchers_of;
use crate::queue_laws::laws_hold;
use crate::queue_running::{Ran, run_batchers};
use crate::run::{Before, MappingRun, closed, end_of};
use crate::stream_laws::disks_count_now;
use esm_input::{Input, InputEnd};
use esm_io::{Caller, Clock, Disk, Source};
use esm_journal::{FileDest, Pair};
use esm_journal_state::Says;
use esm_journal_state::laws::same_told;
use esm_model::{BookOpen, Config, Kind, LineKind, OutOfMemory, Refused, Text};
use esm_queue_book::{QueueBook, QueueParts};
use std::alloc::Global;
use std::snapshot::Snapshot;
use std::sync::Wait;
use std::thread::Threads;

/// A run that is about to begin: its book, its input, the function's name and the number of its batchers.
struct Opened<S: Source, D: Disk> {
    book: QueueBook<D>,
    input: Input<S>,
    name: Text,
    batchers: u32,
}

/// Returns the kind of lines of a queue of this kind.
fn line_kind(kind: Kind) -> LineKind
    ensures { result ≡ LineKind.Queue (is_fifo kind) }
{
    match kind {
        Kind::Fifo => LineKind::Queue { fifo: true },
        Kind::Standard | Kind::Stream => LineKind::Queue { fifo: false },
    }
}

/// Opens the book over a journal whose payloads are good. `OutOfMemory` if an allocation failed, with the pair.
fn open_book<D: Disk>(
    alloc: Global,
    config: Config,
    calls: u32,
    visibility_ms: u64,
    pair: Pair<D>,
) -> Result<QueueBook<D>, Refused<OutOfMemory, Pair<D>>>
    requires config { IsQueueConfig config }
    requires patterns { is_ok (read_patterns (is_stream config.kind) config.filters) ≡ true }
    requires up { pair.down ≡ false }
    requires good { are_good (reverse pair.payloads) ≡ true }
    ensures opened { IfOk result (IsOpened config calls visibility_ms pair) }
    ensures back { IfErr result (λ refused. refused.back ≡ pair) }
{
    match QueueBook::open(alloc, config, calls, visibility_ms, pair) {
        Ok(book) => Ok(book),
        Err(refused) => match refused.why {
            BookOpen::BadPayload(_) => unreachable!(),
            BookOpen::OutOfMemory => Err(Refused {
                why: OutOfMemory,
                back: refused.back,
            }),
        },
    }
}

/// Opens the book over the files, and the input. Nothing is read or written. `OutOfMemory` if an allocation failed.
fn begin<S: Source, D: Disk>(
    alloc: Global,
    config: Config,
    calls: u32,
    visibility_ms: u64,
    said: &Says,
    pair: Pair<D>,
    input: S,
) -> Result<Opened<S, D>, Refused<OutOfMemory, (Pair<D>, S)>>
    requires config { IsQueueConfig config }
    requires patterns { is_ok (read_patterns (is_stream config.kind) config.filters) ≡ true }
    requires up { pair.down ≡ false }
    requires good { are_good (reverse pair.payloads) ≡ true }
    requires tells { Tells said.now (history (reverse pair.payloads)) }
    requires order { IsInOrder said.now }
    ensures begun { IfOk result (λ run. IsBegun config calls visibility_ms said.now pair input run.book run.input run.name run.batchers) }
    ensures back { IfErr result (λ refused. refused.back ≡ (pair, input)) }
{
    let Ok(name) = config.function.copy(alloc) else {
        return Err(Refused {
            why: OutOfMemory,
            back: (pair, input),
        });
    };
    let batchers = batchers_of(&config);
    let kind = line_kind(config.kind);
    same_told();
    match Input::new(alloc, input, kind, config.factor, config.start) {
        Ok(input) => match open_book(alloc, config, calls, visibility_ms, pair) {
            Ok(book) => Ok(Opened {
                book,
                input,
                name,
                batchers,
            }),
            Err(refused) => Err(Refused {
                why: OutOfMemory,
                back: (refused.back, input.into_source()),
            }),
        },
        Err(refused) => Err(Refused {
            why: OutOfMemory,
            back: (pair, refused.back),
        }),
    }
}

/// Runs the mapping of an opened book.
fn run_opened<
    R: Threads + Wait + Sync,
    S: Source + Send,
    C: Clock + Sync,
    F: Caller + Send,
    D: Disk + Send,
>(
    rt: &R,
    alloc: Global,
    run: Opened<S, D>,
    dest: FileDest<D>,
    said: Says,
    callers: Vec<F>,
    clock: &C,
    read_first: bool,
    before: &Before<D>,
) -> MappingRun<S, D, F>
    requires config { IsQueueConfig run.book.core.setting.config }
    requires begun { IsBegun run.book.core.setting.config run.book.core.setting.calls run.book.core.setting.visibility
        said run.book.pair run.input.source run.book run.input run.name run.batchers }
    requires files { IsOpenedFiles (meaning D.Disk)
        (files_of before.now.journal.value before.now.spare.value before.now.failures.value said run.book dest) }
    requires callers { length callers.items ≡ MAX_LANES }
    ensures ended { IfOk result.end (HasEnded (telling (outside C.gave F.sends F.log) (meaning D.Disk) (λ line. line)) S.faults S.left
        run.book.core.setting.config run.book.core.setting.calls run.book.core.setting.visibility
        (files_of before.now.journal.value before.now.spare.value before.now.failures.value said run.book dest)
        run.input.source result.input result.reading.value callers.items (reverse result.trace.items)
        (record { journal = result.journal; spare = result.spare; failures = result.failures; callers = result.callers.items })) }
    ensures stopped { OnErr result.end (HasStoppedRun (telling (outside C.gave F.sends F.log) (meaning D.Disk) (λ line. line)) S.left
        run.book.core.setting.config run.book.core.setting.calls run.book.core.setting.visibility
        (files_of before.now.journal.value before.now.spare.value before.now.failures.value said run.book dest)
        run.input.source result.input callers.items (reverse result.trace.items)
        (record { journal = result.journal; spare = result.spare; failures = result.failures; callers = result.callers.items })) }
    ensures read_first { read_first ≡ true → CallsFollowShut (reverse result.trace.items) }
    ensures said { result.said ≡ said }
    ensures as_many { length result.callers.items ≡ MAX_LANES }
{
    let Opened {
        book,
        input,
        name,
        batchers,
    } = run;
    let Ran {
        end: ran,
        book,
        input,
        callers,
    } = run_batchers(
        rt,
        alloc,
        book,
        input,
        name.as_str(),
        batchers,
        callers,
        clock,
        read_first,
    );
    laws_hold();
    book.since_before(&before.journal, &before.spare);
    let _ = book.trouble();
    let (source, reading) = input.into_parts();
    let read_to = Snapshot::of(&reading);
    let QueueParts {
        history,
        trouble,
        pair,
    } = book.into_parts();
    let end = end_of(ran, trouble, reading);
    closed(end, history, pair, dest, said, read_to, source, callers)
}

/// Runs the mapping, with its reader and its batchers as threads. With `read_first` no call begins before the end of the
/// input is noted. A deletion is written to the journal before it counts. The failure file is left as it was opened, since a
/// queue delivers no lines. `calls` is how many calls may be made in all; `visibility_ms` is the visibility timeout in
/// milliseconds.
pub fn run_queue<
    R: Threads + Wait + Sync,
    S: Source + Send,
    D: Disk + Send,
    C: Clock + Sync,
    F: Caller + Send,
>(
    rt: &R,
    alloc: Global,
    config: Config,
    calls: u32,
    visibility_ms: u64,
    files: Files<D>,
    input: S,
    callers: Vec<F>,
    clock: &C,
    read_first: bool,
) -> MappingRun<S, D, F>
    requires config { IsQueueConfig config }
    requires patterns { is_ok (read_patterns (is_stream config.kind) config.filters) ≡ true }
    requires callers { length callers.items ≡ MAX_LANES }
    ensures ended { IfOk result.end (HasEnded (telling (outside C.gave F.sends F.log) (meaning D.Disk) (λ line. line)) S.faults S.left
        config calls visibility_ms files input result.input result.reading.value callers.items (reverse result.trace.items)
        (record { journal = result.journal; spare = result.spare; failures = result.failures; callers = result.callers.items })) }
    ensures stopped { OnErr result.end (HasStoppedRun (telling (outside C.gave F.sends F.log) (meaning D.Disk) (λ line. line)) S.left
        config calls visibility_ms files input result.input callers.items (reverse result.trace.items)
        (record { journal = result.journal; spare = result.spare; failures = result.failures; callers = result.callers.items })) }
    ensures read_first { read_first ≡ true → CallsFollowShut (reverse result.trace.items) }
    ensures said { result.said ≡ files.said }
    ensures as_many { length result.callers.items ≡ MAX_LANES }
{
    let FilesParts {
        pair,
        said,
        dest,
        journal,
        spare,
        failures,
    } = files.into_parts();
    let before = Before {
        journal,
        spare,
        failures,
    };
    laws_hold();
    disks_count_now::<D>();
    match begin(alloc, config, calls, visibility_ms, &said, pair, input) {
        Ok(run) => run_opened(
            rt, alloc, run, dest, said, callers, clock, read_first, &before,
        ),
        Err(refused) => {
            let (pair, input) = refused.back;
            let stopped = Err(OutOfMemory);
            let none: Option<InputEnd> = None;
            let read_to = Snapshot::of(&none);
            closed(
                stopped,
                Vec::new(alloc),
                pair,
                dest,
                said,
                read_to,
                input,
                callers,
            )
        }
    }
}
