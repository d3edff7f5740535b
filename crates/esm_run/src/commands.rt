// Running the mapping that the words name, and refusing bad words.
ghost use Rattle.std.specs.Prelude.{◌≡◌, ◌≢◌, true, length, reverse};
ghost use Rattle.esm_model.specs.declared.limits.TheConstants.{MAX_LANES};
ghost use Rattle.esm_io.specs.Meanings.{disk as meaning};
ghost use Rattle.esm_report.specs.declared.ending.Ending.{Ending};
ghost use Rattle.esm_report.specs.declared.ending.Ending.TheVariants.{BadWords};
ghost use Rattle.esm_report.specs.Report.{last_line, stands_alone};
ghost use Rattle.esm_run.specs.Endings.{IsTold};
ghost use Rattle.esm_run.specs.Answers.{RunOutcome, IsCutOf};
ghost use Rattle.esm_run.specs.Asks.{IsRegistryLeft};
ghost use Rattle.esm_run.specs.World.{run_tells, seen, written_of};

use crate::output::{OUT_OF_MEMORY, tell};
use crate::parting::{parted, told};
use crate::ran::run_words;
use crate::world::{Ended, World};
use esm_cli::{RunWords, WordsError};
use esm_io::{Caller, Clock, Disk, Door, Sink, Source};
use esm_report::{Ending, last_line};
use std::alloc::Global;
use std::sync::Wait;
use std::thread::Threads;

/// Writes the report of an ending that is the last line alone, and returns the exit status.
fn tell_alone<K: Sink>(alloc: Global, out: &mut K, ending: &Ending) -> u8
    requires { stands_alone ending.now ≡ true }
    ensures told { result ≢ 70 → IsTold (K.faults out.old) (K.faults out.new) (K.written out.old) (K.written out.new) (last_line ending.now) ending.now result }
    ensures words { result ≡ 2 → ending.now ≡ BadWords }
    ensures untold { result ≡ 70 → out.new ≡ out.old }
{
    let Ok(text) = last_line(alloc, ending) else {
        return OUT_OF_MEMORY;
    };
    tell(out, &text, ending)
}

/// Writes why the words were refused, and returns the exit status.
fn tell_refusal<K: Sink>(alloc: Global, out: &mut K, why: WordsError) -> u8
    ensures told { result ≢ 70 → (why ≡ WordsError.BadWords) × IsTold (K.faults out.old) (K.faults out.new)
        (K.written out.old) (K.written out.new) (last_line BadWords) BadWords result }
    ensures untold { result ≡ 70 → out.new ≡ out.old }
{
    match why {
        WordsError::BadWords => tell_alone(alloc, out, &Ending::BadWords),
        WordsError::OutOfMemory => OUT_OF_MEMORY,
    }
}

/// Writes that the words spell no command that is built, or nothing if memory ran out, and hands the world back with the
/// exit status. Only the output changes.
pub fn refuse<S, K: Sink, D, C, F, L>(
    alloc: Global,
    why: WordsError,
    world: World<S, K, D, C, F, L>,
) -> Ended<S, K, D, C, F, L>
    ensures told { result.status ≢ 70 → (why ≡ WordsError.BadWords) × IsTold (K.faults world.out)
        (K.faults result.world.out) (K.written world.out) (K.written result.world.out)
        (last_line BadWords) BadWords result.status }
    ensures untold { result.status ≡ 70 → result.world.out ≡ world.out }
    ensures same { result.world ≡ record world { out = result.world.out } }
{
    let mut world = world;
    let status = tell_refusal(alloc, &mut world.out, why);
    Ended { status, world }
}

/// Runs the mapping that the words name, writes its report, and hands the world back with the exit status.
pub fn run<
    R: Threads + Wait + Sync,
    S: Source + Send,
    K: Sink,
    D: Disk + Send,
    C: Clock + Sync,
    F: Caller + Send,
    L: Door,
>(rt: &R, alloc: Global, words: RunWords, world: World<S, K, D, C, F, L>) -> Ended<S, K, D, C, F, L>
    requires { length world.callers.items ≡ MAX_LANES }
    ensures outcome { result.status ≢ 70 → RunOutcome (run_tells C.Clock F.Caller D.Disk S.Source) words
        (written_of K.faults K.written world.out result.world.out) (reverse result.world.trace.items)
        (seen world) (seen result.world) result.status }
    ensures want_of_memory { result.status ≡ 70 → IsCutOf (run_tells C.Clock F.Caller D.Disk S.Source) words (reverse result.world.trace.items)
        (seen world) (seen result.world) }
    ensures good_words { result.status ≢ 2 }
    ensures untold { result.status ≡ 70 → result.world.out ≡ world.out }
    ensures kept { result.world ≡ record world {
      input = result.world.input;
      out = result.world.out;
      journal = result.world.journal;
      spare = result.world.spare;
      failures = result.world.failures;
      registry = result.world.registry;
      callers = result.world.callers;
      trace = result.world.trace;
    } }
    ensures registry { IsRegistryLeft (meaning D.Disk) words.which world.registry result.world.registry }
    ensures as_many { length result.world.callers.items ≡ MAX_LANES }
{
    let (devices, rest) = parted(world);
    let ran = run_words(rt, alloc, words, devices, &rest.clock);
    told(alloc, ran, rest)
}
