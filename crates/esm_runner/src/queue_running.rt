// A run of an opened queue's book, with its reader and its batchers as threads, in the terms of the book.
ghost use Rattle.std.specs.Prelude.{◌≡◌, [], None, true, false, length, IfOk, OnOk, OnErr};
ghost use Rattle.esm_model.specs.declared.limits.TheConstants.{MAX_LANES};
ghost use Rattle.esm_model.specs.Entries.{CallsFollowShut};
ghost use Rattle.esm_model.specs.QueueEvent.{IsQueueConfig};
ghost use Rattle.esm_model.specs.declared.item.LineKind.{LineKind};
ghost use Rattle.esm_input.specs.Reading.{IsInput};
ghost use Rattle.esm_workers.specs.Working.{outside};
ghost use Rattle.esm_queue_model.specs.QueueSetting.{is_fifo};
ghost use Rattle.esm_queue_book.specs.Keeping.{IsSound};
ghost use Rattle.esm_queue_book.specs.Moments.{IsTimedView};
ghost use Rattle.esm_runner.specs.Number.{batchers_in};
ghost use Rattle.esm_runner.specs.QueueRan.{HasRun, HasStopped, EndsSo, CameSo, IsCutInput};

use esm_input::Input;
use esm_io::{Caller, Clock, Disk, Source};
use esm_model::OutOfMemory;
use esm_pool::{RunEnd, run_book};
use esm_queue_book::QueueBook;
use esm_workers::OnTime;
use std::alloc::Global;
use std::sync::Wait;
use std::thread::Threads;

/// What a run of a queue's book leaves: how it ended, and everything that was handed in, as it is then.
pub(crate) struct Ran<S: Source, D: Disk, F> {
    pub end: Result<RunEnd, OutOfMemory>,
    pub book: QueueBook<D>,
    pub input: Input<S>,
    pub callers: Vec<F>,
}

/// States what holds of every book. Does nothing.
fn know<D: Disk>(book: &QueueBook<D>)
    ensures { IsSound book.now }
{
    let _trouble = book.trouble();
}

/// Runs the reader and the batchers on the book, each in a thread of its own. The reader reads the input, passes its
/// messages to the book in lists of at most 10,000, and notes the end of the input. Each batcher asks the book, and calls
/// with its own caller or pauses, until nothing is left, all calls allowed were made, or the book is down. With `read_first`
/// no call begins before the input has ended. `name` is the function's, and `batchers` the number of the queue's batchers,
/// as `batchers_of` returns it; the callers past that number are not used. `OutOfMemory` may end the run at any point.
pub(crate) fn run_batchers<
    R: Threads + Wait + Sync,
    S: Source + Send,
    C: Clock + Sync,
    F: Caller + Send,
    D: Disk + Send,
>(
    rt: &R,
    alloc: Global,
    book: QueueBook<D>,
    input: Input<S>,
    name: &str,
    batchers: u32,
    callers: Vec<F>,
    clock: &C,
    read_first: bool,
) -> Ran<S, D, F>
    requires config { IsQueueConfig book.core.setting.config }
    requires up { book.trouble ≡ None }
    requires new { book.core.past ≡ [] }
    requires none_came { book.core.setting.messages ≡ [] }
    requires timed { IsTimedView C.gave book.core }
    requires name { name.now ≡ book.core.setting.config.function }
    requires batchers { batchers ≡ batchers_in book.core.setting.config }
    requires kind { input.kind ≡ LineKind.Queue (is_fifo book.core.setting.config.kind) }
    requires unread { input ≡ record input { found = input.source; bytes = []; whole = false; end = None; failed = false } }
    requires callers { length callers.items ≡ MAX_LANES }
    ensures run { OnOk result.end (HasRun (outside C.gave F.sends F.log) book result.book callers.items result.callers.items) }
    ensures came { IfOk result.end (CameSo result.input result.book) }
    ensures ended { IfOk result.end (EndsSo S.left result.input result.book) }
    ensures read { OnOk result.end (IsInput S.faults S.left result.input) }
    ensures good { OnOk result.end (result.input.failed ≡ false) }
    ensures stopped { OnErr result.end (HasStopped (outside C.gave F.sends F.log) book result.book callers.items result.callers.items) }
    ensures cut { OnErr result.end (IsCutInput S.left result.input result.book) }
    ensures later { read_first ≡ true → CallsFollowShut result.book.core.past }
    ensures input { (result.input.kind ≡ input.kind) × (result.input.factor ≡ input.factor) ×
        (result.input.start ≡ input.start) × (result.input.found ≡ input.found) }
{
    let on_time = OnTime::<QueueBook<D>, C>::new(book);
    let esm_pool::Ran {
        end,
        book,
        input,
        callers,
    } = run_book(
        rt, alloc, on_time, input, batchers, name, callers, clock, read_first,
    );
    let book = book.into_book();
    know(&book);
    Ran {
        end,
        book,
        input,
        callers,
    }
}
