// The command `ddb`: runs the mapping of a DynamoDB stream, and writes how the run ended.
ghost use Rattle.std.specs.Prelude.{◌≡◌, ◌≢◌, length, reverse};
ghost use Rattle.esm_model.specs.declared.limits.TheConstants.{MAX_LANES};
ghost use Rattle.esm_run.specs.Ddb.{DdbOutcome, IsDdbCut};
ghost use Rattle.esm_run.specs.World.{run_tells, seen, written_of};

use crate::ddb_ran::run_ddb;
use crate::parting::{parted, told};
use crate::world::{Ended, World};
use esm_io::{Caller, Clock, Disk, Door, Sink, Source};
use esm_model::Text;
use std::alloc::Global;
use std::sync::Wait;
use std::thread::Threads;

/// Runs the mapping of a DynamoDB stream, which `text` is, writes how it ended, and hands the world back with the exit
/// status.
pub fn ddb<
    R: Threads + Wait + Sync,
    S: Source,
    K: Sink,
    D: Disk + Send,
    C: Clock + Sync,
    F: Caller + Send,
    L: Door,
>(
    rt: &R,
    alloc: Global,
    text: Text,
    calls: u32,
    trace: bool,
    world: World<S, K, D, C, F, L>,
) -> Ended<S, K, D, C, F, L>
    requires { length world.callers.items ≡ MAX_LANES }
    ensures outcome { result.status ≢ 70 → DdbOutcome (run_tells C.Clock F.Caller D.Disk S.Source) text calls trace
        (written_of K.faults K.written world.out result.world.out) (reverse result.world.trace.items)
        (seen world) (seen result.world) result.status }
    ensures want_of_memory { result.status ≡ 70 → IsDdbCut (run_tells C.Clock F.Caller D.Disk S.Source) text calls trace (reverse result.world.trace.items)
        (seen world) (seen result.world) }
    ensures good_words { result.status ≢ 2 }
    ensures untold { result.status ≡ 70 → result.world.out ≡ world.out }
    ensures registry { result.world.registry ≡ world.registry }
    ensures as_many { length result.world.callers.items ≡ MAX_LANES }
    ensures kept { (result.world.clock ≡ world.clock) × (result.world.door ≡ world.door) }
{
    let (devices, rest) = parted(world);
    let ran = run_ddb(rt, alloc, &text, calls, trace, devices, &rest.clock);
    told(alloc, ran, rest)
}
