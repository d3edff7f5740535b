// The run of a stream's mapping over opened files, with its failure lines delivered either way.
ghost use Rattle.std.specs.Prelude.{◌≡◌, true, false, is_ok, length, reverse, IfOk, IfErr, OnErr};
ghost use Rattle.esm_io.specs.Meanings.{disk as meaning};
ghost use Rattle.esm_model.specs.declared.limits.TheConstants.{MAX_LANES};
ghost use Rattle.esm_model.specs.Entries.{CallsFollowShut};
ghost use Rattle.esm_model.specs.Pattern.{read_patterns};
ghost use Rattle.esm_model.specs.Valid.{IsStreamConfig, is_stream};
ghost use Rattle.esm_journal_state.specs.Meaning.{history, are_good};
ghost use Rattle.esm_journal_state.specs.SaidLists.{IsInOrder};
ghost use Rattle.esm_journal_state.specs.Tells.{Tells};
ghost use Rattle.esm_stream_book.specs.Opening.{IsOpened};
ghost use Rattle.esm_workers.specs.Working.{outside};
ghost use Rattle.esm_runner.specs.Files.{IsOpenedFiles};
ghost use Rattle.esm_runner.specs.Headline.{telling};
ghost use Rattle.esm_runner.specs.Ended.{HasEnded, HasStoppedRun};
ghost use Rattle.esm_runner.specs.Runs.{IsBegun, files_of, over_file};

use crate::failure_file::FailureFile;
use crate::files::Files;
use crate::run::{Before, MappingRun, closed, end_of};
use crate::stream_laws::{disks_count_now, laws_hold};
use crate::stream_running::{Ran, run_lanes};
use esm_input::{Input, InputEnd};
use esm_io::{Caller, Clock, Dest, Disk, Source};
use esm_journal::{FileDest, Pair};
use esm_journal_state::Says;
use esm_journal_state::laws::same_told;
use esm_model::{BookOpen, Config, LineKind, OutOfMemory, Refused, Start, Text};
use esm_stream_book::{Book, Parts};
use std::alloc::Global;
use std::snapshot::Snapshot;
use std::sync::Wait;
use std::thread::Threads;

/// A run that is about to begin: its book, its input and the function's name.
struct Opened<S: Source, D: Disk, T: Dest> {
    book: Book<D, T>,
    input: Input<S>,
    name: Text,
}

/// Opens the book over a journal whose payloads are good. `OutOfMemory` if an allocation failed, with the pair and the
/// destination.
fn open_book<D: Disk, T: Dest>(
    alloc: Global,
    config: Config,
    calls: u32,
    pair: Pair<D>,
    dest: T,
) -> Result<Book<D, T>, Refused<OutOfMemory, (Pair<D>, T)>>
    requires config { IsStreamConfig config }
    requires patterns { is_ok (read_patterns (is_stream config.kind) config.filters) ≡ true }
    requires up { pair.down ≡ false }
    requires usable { T.failed dest ≡ false }
    requires good { are_good (reverse pair.payloads) ≡ true }
    ensures opened { IfOk result (IsOpened config calls pair dest) }
    ensures back { IfErr result (λ refused. refused.back ≡ (pair, dest)) }
{
    match Book::open(alloc, config, calls, pair, dest) {
        Ok(book) => Ok(book),
        Err(refused) => match refused.why {
            BookOpen::BadPayload(_) => unreachable!(),
            BookOpen::OutOfMemory => Err(Refused {
                why: OutOfMemory,
                back: refused.back,
            }),
        },
    }
}

/// Opens the book over the files, and the input. Nothing is read or written. `OutOfMemory` if an allocation failed.
fn begin<S: Source, D: Disk, W: FailureFile<FileDest<D>>>(
    alloc: Global,
    config: Config,
    start: Start,
    calls: u32,
    said: &Says,
    pair: Pair<D>,
    dest: FileDest<D>,
    input: S,
) -> Result<Opened<S, D, W::Dest>, Refused<OutOfMemory, (Pair<D>, FileDest<D>, S)>>
    requires config { IsStreamConfig config }
    requires patterns { is_ok (read_patterns (is_stream config.kind) config.filters) ≡ true }
    requires up { pair.down ≡ false }
    requires usable { dest.down ≡ false }
    requires good { are_good (reverse pair.payloads) ≡ true }
    requires tells { Tells said.now (history (reverse pair.payloads)) }
    requires order { IsInOrder said.now }
    ensures begun { IfOk result (λ run. IsBegun config start calls said.now pair dest input
        (over_file W.file run.book) run.input run.name) }
    ensures back { IfErr result (λ refused. refused.back ≡ (pair, dest, input)) }
{
    let Ok(name) = config.function.copy(alloc) else {
        return Err(Refused {
            why: OutOfMemory,
            back: (pair, dest, input),
        });
    };
    same_told();
    W::means();
    match Input::new(alloc, input, LineKind::Stream, config.factor, start) {
        Ok(input) => match open_book(alloc, config, calls, pair, W::over(alloc, dest)) {
            Ok(book) => Ok(Opened { book, input, name }),
            Err(refused) => {
                let (pair, dest) = refused.back;
                Err(Refused {
                    why: OutOfMemory,
                    back: (pair, W::file(dest), input.into_source()),
                })
            }
        },
        Err(refused) => Err(Refused {
            why: OutOfMemory,
            back: (pair, dest, refused.back),
        }),
    }
}

/// Runs the mapping of an opened book.
fn run_opened<
    R: Threads + Wait + Sync,
    S: Source + Send,
    C: Clock + Sync,
    F: Caller + Send,
    D: Disk + Send,
    W: FailureFile<FileDest<D>>,
>(
    rt: &R,
    alloc: Global,
    run: Opened<S, D, W::Dest>,
    said: Says,
    callers: Vec<F>,
    clock: &C,
    read_first: bool,
    before: &Before<D>,
) -> MappingRun<S, D, F>
    requires config { IsStreamConfig run.book.core.setting.config }
    requires begun { IsBegun run.book.core.setting.config run.input.start run.book.core.setting.calls
        said run.book.pair (W.file run.book.dest) run.input.source (over_file W.file run.book) run.input run.name }
    requires files { IsOpenedFiles (meaning D.Disk)
        (files_of before.now.journal.value before.now.spare.value before.now.failures.value said (over_file W.file run.book)) }
    requires callers { length callers.items ≡ MAX_LANES }
    ensures ended { IfOk result.end (HasEnded (telling (outside C.gave F.sends F.log) (meaning D.Disk) W.line) S.faults S.left
        run.book.core.setting.config run.input.start run.book.core.setting.calls
        (files_of before.now.journal.value before.now.spare.value before.now.failures.value said (over_file W.file run.book))
        run.input.source result.input result.reading.value callers.items (reverse result.trace.items)
        (record { journal = result.journal; spare = result.spare; failures = result.failures; callers = result.callers.items })) }
    ensures stopped { OnErr result.end (HasStoppedRun (telling (outside C.gave F.sends F.log) (meaning D.Disk) W.line) S.left
        run.book.core.setting.config run.input.start run.book.core.setting.calls
        (files_of before.now.journal.value before.now.spare.value before.now.failures.value said (over_file W.file run.book))
        run.input.source result.input callers.items (reverse result.trace.items)
        (record { journal = result.journal; spare = result.spare; failures = result.failures; callers = result.callers.items })) }
    ensures read_first { read_first ≡ true → CallsFollowShut (reverse result.trace.items) }
    ensures said { result.said ≡ said }
    ensures as_many { length result.callers.items ≡ MAX_LANES }
{
    let Opened { book, input, name } = run;
    let Ran {
        end: ran,
        book,
        input,
        callers,
    } = run_lanes(
        rt,
        alloc,
        book,
        input,
        name.as_str(),
        callers,
        clock,
        read_first,
    );
    laws_hold();
    disks_count_now::<D>();
    W::means();
    book.since_before(&before.journal, &before.spare);
    let _ = book.trouble();
    let (source, reading) = input.into_parts();
    let read_to = Snapshot::of(&reading);
    let Parts {
        history,
        trouble,
        pair,
        dest,
    } = book.into_parts();
    let end = end_of(ran, trouble, reading);
    closed(
        end,
        history,
        pair,
        W::file(dest),
        said,
        read_to,
        source,
        callers,
    )
}

/// Runs the mapping from this starting position on, with its reader and its batchers as threads. With `read_first` no call
/// begins before the end of the input is noted. Everything is written before it counts: each failure line to the failure
/// file, in the form that `W` gives it, and then each fate, state and failed try to the journal. `calls` is how many calls
/// may be made in all.
pub fn run_stream<
    R: Threads + Wait + Sync,
    S: Source + Send,
    C: Clock + Sync,
    F: Caller + Send,
    D: Disk + Send,
    W: FailureFile<FileDest<D>>,
>(
    rt: &R,
    alloc: Global,
    config: Config,
    start: Start,
    calls: u32,
    files: Files<D>,
    input: S,
    callers: Vec<F>,
    clock: &C,
    read_first: bool,
) -> MappingRun<S, D, F>
    requires config { IsStreamConfig config }
    requires patterns { is_ok (read_patterns (is_stream config.kind) config.filters) ≡ true }
    requires callers { length callers.items ≡ MAX_LANES }
    ensures ended { IfOk result.end (HasEnded (telling (outside C.gave F.sends F.log) (meaning D.Disk) W.line) S.faults S.left
        config start calls files input result.input result.reading.value callers.items (reverse result.trace.items)
        (record { journal = result.journal; spare = result.spare; failures = result.failures; callers = result.callers.items })) }
    ensures stopped { OnErr result.end (HasStoppedRun (telling (outside C.gave F.sends F.log) (meaning D.Disk) W.line) S.left
        config start calls files input result.input callers.items (reverse result.trace.items)
        (record { journal = result.journal; spare = result.spare; failures = result.failures; callers = result.callers.items })) }
    ensures read_first { read_first ≡ true → CallsFollowShut (reverse result.trace.items) }
    ensures said { result.said ≡ files.said }
    ensures as_many { length result.callers.items ≡ MAX_LANES }
{
    let Files {
        pair,
        said,
        dest,
        journal,
        spare,
        failures,
    } = files;
    let before = Before {
        journal,
        spare,
        failures,
    };
    laws_hold();
    disks_count_now::<D>();
    match begin::<_, _, W>(alloc, config, start, calls, &said, pair, dest, input) {
        Ok(run) => run_opened::<_, _, _, _, _, W>(
            rt, alloc, run, said, callers, clock, read_first, &before,
        ),
        Err(refused) => {
            let (pair, dest, input) = refused.back;
            let stopped = Err(OutOfMemory);
            let none: Option<InputEnd> = None;
            let read_to = Snapshot::of(&none);
            closed(
                stopped,
                Vec::new(alloc),
                pair,
                dest,
                said,
                read_to,
                input,
                callers,
            )
        }
    }
}
