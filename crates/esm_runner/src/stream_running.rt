// A run of an opened stream's book, with its reader and its batchers as threads, in the terms of the book.
ghost use Rattle.std.specs.Prelude.{◌≡◌, ◌<◌, ◌≤◌, ◌*◌, [], None, true, false, length, min, IfOk, OnOk, OnErr};
ghost use Rattle.esm_model.specs.declared.limits.TheConstants.{MAX_LANES, MAX_SHARDS};
ghost use Rattle.esm_model.specs.Entries.{CallsFollowShut};
ghost use Rattle.esm_model.specs.Valid.{IsStreamConfig};
ghost use Rattle.esm_model.specs.declared.item.LineKind.{LineKind};
ghost use Rattle.esm_input.specs.Reading.{IsInput};
ghost use Rattle.esm_workers.specs.Working.{outside};
ghost use Rattle.esm_stream_book.specs.Keeping.{IsSound};
ghost use Rattle.esm_stream_book.specs.Moments.{IsTimedView};
ghost use Rattle.esm_runner.specs.Ran.{HasRun, HasStopped, EndsSo, CameSo, IsCutInput};

use esm_input::Input;
use esm_input::laws::handed_is_within;
use esm_io::{Caller, Clock, Dest, Disk, Source};
use esm_model::{MAX_LANES, MAX_SHARDS, OutOfMemory};
use esm_pool::{RunEnd, run_book};
use esm_stream_book::Book;
use esm_workers::OnTime;
use std::alloc::Global;
use std::sync::Wait;
use std::thread::Threads;

/// What a run of a stream's book leaves: how it ended, and everything that was handed in, as it is then.
pub(crate) struct Ran<S: Source, D: Disk, T: Dest, F> {
    pub end: Result<RunEnd, OutOfMemory>,
    pub book: Book<D, T>,
    pub input: Input<S>,
    pub callers: Vec<F>,
}

/// Returns how many batchers a stream has: as many as its shards can have lanes, and at most `MAX_LANES`.
fn batchers_for(factor: u32) -> u32
    requires some { 0 < factor }
    requires few { factor ≤ 10 }
    ensures count { result ≡ min (MAX_SHARDS * factor) MAX_LANES }
    ensures some { 0 < result }
    ensures few { result ≤ MAX_LANES }
{
    (MAX_SHARDS as u32 * factor).min(MAX_LANES as u32)
}

/// States what holds of every book. Does nothing.
fn know<D: Disk, T: Dest>(book: &Book<D, T>)
    ensures { IsSound book.now }
{
    let _trouble = book.trouble();
}

/// Reads the input and passes its records to the book, in lists of at most 10,000, while the batchers call, each with its
/// own caller, all as threads. With `read_first` the batchers begin once the input was read, and no call begins before its
/// end was noted. The run ends when nothing is left, when all calls allowed were made, also while more of the input is
/// awaited, or when the book is down. `name` is the function's. `OutOfMemory` may end the run at any point.
pub(crate) fn run_lanes<
    R: Threads + Wait + Sync,
    S: Source + Send,
    C: Clock + Sync,
    F: Caller + Send,
    D: Disk + Send,
    T: Dest + Send,
>(
    rt: &R,
    alloc: Global,
    book: Book<D, T>,
    input: Input<S>,
    name: &str,
    callers: Vec<F>,
    clock: &C,
    read_first: bool,
) -> Ran<S, D, T, F>
    requires config { IsStreamConfig book.core.setting.config }
    requires up { book.trouble ≡ None }
    requires new { book.core.past ≡ [] }
    requires none_came { book.core.setting.streams ≡ [] }
    requires timed { IsTimedView C.gave book.core }
    requires name { name.now ≡ book.core.setting.config.function }
    requires kind { input.kind ≡ LineKind.Stream }
    requires factor { input.factor ≡ book.core.setting.config.factor }
    requires unread { input ≡ record input { found = input.source; bytes = []; whole = false; end = None; failed = false } }
    requires callers { length callers.items ≡ MAX_LANES }
    ensures run { OnOk result.end (HasRun (outside C.gave F.sends F.log) book result.book callers.items result.callers.items) }
    ensures came { IfOk result.end (CameSo result.input result.book) }
    ensures ended { IfOk result.end (EndsSo S.left result.input result.book) }
    ensures read { OnOk result.end (IsInput S.faults S.left result.input) }
    ensures good { OnOk result.end (result.input.failed ≡ false) }
    ensures stopped { OnErr result.end (HasStopped (outside C.gave F.sends F.log) book result.book callers.items result.callers.items) }
    ensures cut { OnErr result.end (IsCutInput S.left result.input result.book) }
    ensures later { read_first ≡ true → CallsFollowShut result.book.core.past }
    ensures input { (result.input.kind ≡ input.kind) × (result.input.factor ≡ input.factor) ×
        (result.input.start ≡ input.start) × (result.input.found ≡ input.found) }
{
    let batchers = batchers_for(input.factor());
    let on_time = OnTime::<Book<D, T>, C>::new(book);
    let esm_pool::Ran {
        end,
        book,
        input,
        callers,
    } = run_book(
        rt, alloc, on_time, input, batchers, name, callers, clock, read_first,
    );
    let book = book.into_book();
    know(&book);
    handed_is_within();
    Ran {
        end,
        book,
        input,
        callers,
    }
}
