// The command `gen`: runs a generated stream over devices of its own, prints its report and returns the exit status.
ghost use Rattle.std.specs.Prelude.{◌≡◌, ◌≢◌, reverse, IsOkAnd};
ghost use Rattle.esm_gen.specs.Run.{HasRun};
ghost use Rattle.esm_run.specs.Endings.{IsToldWith};
ghost use Rattle.esm_run.specs.Generated.{GenOutcome};
ghost use Rattle.esm_run.specs.World.{written_of};

use crate::output::{OUT_OF_MEMORY, OUTPUT_FAULT, write_all};
use crate::world::{Ended, World};
use esm_gen::{GeneratedRun, run_generated};
use esm_io::Sink;
use esm_model::OutOfMemory;
use std::alloc::Global;
use std::sync::Wait;
use std::thread::Threads;

/// The exit status if every record has its fate and the report was written.
const DONE: u8 = 0;

/// Writes the report, and returns the exit status.
fn tell_report<K: Sink>(out: &mut K, report: Result<Vec<u8>, OutOfMemory>) -> u8
    ensures told { result ≢ 70 → IsOkAnd report (λ text. IsToldWith (K.faults out.old) (K.faults out.new)
        (K.written out.old) (K.written out.new) text.items 0 OUTPUT_FAULT result) }
    ensures untold { result ≡ 70 → out.new ≡ out.old }
    ensures good_words { result ≢ 2 }
{
    let Ok(text) = report else {
        return OUT_OF_MEMORY;
    };
    match write_all(out, &text) {
        Ok(()) => DONE,
        Err(_) => OUTPUT_FAULT,
    }
}

/// Runs a generated stream of `records` records, writes its report, and hands the world back with the exit status. Only the
/// output and the history change.
pub fn generate<R: Threads + Wait + Sync, S, K: Sink, D, C, F, L>(
    rt: &R,
    alloc: Global,
    records: u32,
    world: World<S, K, D, C, F, L>,
) -> Ended<S, K, D, C, F, L>
    ensures outcome { result.status ≢ 70 → GenOutcome records (written_of K.faults K.written world.out result.world.out)
        (reverse result.world.trace.items) result.status }
    ensures want_of_memory { result.status ≡ 70 → HasRun records (reverse result.world.trace.items) }
    ensures untold { result.status ≡ 70 → result.world.out ≡ world.out }
    ensures good_words { result.status ≢ 2 }
    ensures kept { result.world ≡ record world { out = result.world.out; trace = result.world.trace } }
{
    let GeneratedRun { report, trace } = run_generated(rt, alloc, records);
    let mut world = world;
    let status = tell_report(&mut world.out, report);
    world.trace = trace;
    Ended { status, world }
}
