// The command `redrive`: runs a queue's mapping with a dead-letter file, and writes how the run ended.
ghost use Rattle.std.specs.Prelude.{◌≡◌, ◌≢◌, ◌≤◌, length, reverse};
ghost use Rattle.esm_model.specs.declared.limits.TheConstants.{MAX_LANES};
ghost use Rattle.esm_redrive.specs.declared.limited.TheConstants.{MAX_RECEIVES};
ghost use Rattle.esm_run.specs.Redrive.{IsRedriveCut, RedriveOutcome};
ghost use Rattle.esm_run.specs.World.{run_tells, seen, written_of};

use crate::asked::RedriveWords;
use crate::parting::{parted, told};
use crate::redrive_ran::run_redrive_words;
use crate::world::{Ended, World};
use esm_io::{Caller, Clock, Disk, Door, Sink, Source};
use std::alloc::Global;
use std::sync::Wait;
use std::thread::Threads;

/// Runs the mapping of a queue, which the text of the words is, and moves each message that was received as often as it may
/// be to the dead-letter file. Then writes how the run ended, and hands the world back with the exit status.
pub fn redrive<R: Threads + Wait + Sync, S: Source, K: Sink, D: Disk, C: Clock, F: Caller, L: Door>(
    rt: &R,
    alloc: Global,
    words: RedriveWords,
    world: World<S, K, D, C, F, L>,
) -> Ended<S, K, D, C, F, L>
    requires callers { length world.callers.items ≡ MAX_LANES }
    requires receives { (1 ≤ words.max_receives) × (words.max_receives ≤ MAX_RECEIVES) }
    ensures outcome { result.status ≢ 70 → RedriveOutcome (run_tells C.Clock F.Caller D.Disk S.Source) words
        (written_of K.faults K.written world.out result.world.out) (reverse result.world.trace.items)
        (seen world) (seen result.world) result.status }
    ensures want_of_memory { result.status ≡ 70 → IsRedriveCut (run_tells C.Clock F.Caller D.Disk S.Source) words (reverse result.world.trace.items)
        (seen world) (seen result.world) }
    ensures good_words { result.status ≢ 2 }
    ensures untold { result.status ≡ 70 → result.world.out ≡ world.out }
    ensures registry { result.world.registry ≡ world.registry }
    ensures as_many { length result.world.callers.items ≡ MAX_LANES }
    ensures kept { (result.world.clock ≡ world.clock) × (result.world.door ≡ world.door) }
{
    let (devices, rest) = parted(world);
    let ran = run_redrive_words(rt, alloc, &words, devices, &rest.clock);
    told(alloc, ran, rest)
}
