// The whole program over the life of a mapping, of a stream's or of a queue's.
ghost use Rattle.std.specs.Prelude.{◌≡◌, ℕ, Bool, List, [], length, map};
ghost use Rattle.std.specs.String.{string_bytes};
ghost use Rattle.esm_cli.specs.declared.command.Command.{Command};
ghost use Rattle.esm_cli.specs.declared.command.Command.TheVariants.{Compact, Init, Migrate};
ghost use Rattle.esm_life.specs.Life.{Stage};
ghost use Rattle.esm_model.specs.declared.limits.TheConstants.{MAX_LANES};
ghost use Rattle.esm_program_life.specs.Queues.{BeginsLife as BeginsQueueLife, CompactsLife as CompactsQueueLife};
ghost use Rattle.esm_program_life.specs.Queues.{KeepsLife as KeepsQueueLife, KeepsUntouched as KeepsQueueUntouched};
ghost use Rattle.esm_program_life.specs.Queues.{KeepsWhole as KeepsQueueWhole, MayRun as MayQueueRun, MigratesLife as MigratesQueueLife};
ghost use Rattle.esm_program_life.specs.Streams.{BeginsLife, CompactsLife, IsSaid, KeepsLife, KeepsUntouched, KeepsWhole, MayRun, MigratesLife};
ghost use Rattle.esm_queue_life.specs.Life.{Stage as QueueStage};
ghost use Rattle.esm_run.specs.Built.{SpellsBuilt};
ghost use Rattle.esm_run.specs.World.{devices};

use crate::queues::{
    command_keeps_queue_life, command_keeps_queue_whole, command_runs_queue,
    compact_rewrites_queue_life, init_begins_queue_life, migrate_keeps_queue_life,
    refusal_keeps_queue_life,
};
use crate::streams::{
    command_keeps_life, command_keeps_whole, command_runs, compact_rewrites_life, init_begins_life,
    migrate_keeps_life, refusal_keeps_life,
};
use esm_io::{Caller, Clock, Disk, Door, Sink, Source};
use esm_run::{Ended, World, esm};
use std::alloc::Global;
use std::sync::Wait;
use std::thread::Threads;

/// Calls `esm`, of which only the clauses are used here. States what it leaves of the life of a mapping, whatever the words
/// spell and whatever status it returns.
pub fn esm_keeps_life<
    R: Threads + Wait + Sync,
    S: Source + Send,
    K: Sink,
    D: Disk + Send,
    C: Clock + Sync,
    F: Caller + Send,
    L: Door,
>(
    rt: &R,
    alloc: Global,
    words: &[String],
    world: World<S, K, D, C, F, L>,
) -> Ended<S, K, D, C, F, L>
    requires callers { length world.callers.items ≡ MAX_LANES }
    requires trace { world.trace.items ≡ [] }
    ensures said { IsSaid (devices C.Clock F.Caller D.Disk S.Source K.Sink L.Door L.Conn.Link)
        (map string_bytes words.now) world result.world result.status }
    // A command that runs a mapping ran it over files that it had opened; or nothing happened, and nothing was written.
    ensures runs { (c : Command) → SpellsBuilt (map string_bytes words.now) c →
        MayRun (devices C.Clock F.Caller D.Disk S.Source K.Sink L.Door L.Conn.Link) c world result.world result.status }
    // Whatever a crash leaves of the journal and its spare, at any moment since the files were opened, and since the call
    // began if they were synced before, opens to the life that they held, or to it with the one stage that the command may
    // add. If anything happened in the run of a mapping, that stage is there.
    ensures keeps { (c : Command) (life : List Stage) (epoch : ℕ) → SpellsBuilt (map string_bytes words.now) c →
        KeepsLife (devices C.Clock F.Caller D.Disk S.Source K.Sink L.Door L.Conn.Link) c world result.world result.status life epoch }
    // If no disk of them failed and a mapping ran, everything that happened is in the journal.
    ensures whole { (c : Command) (life : List Stage) (epoch : ℕ) → SpellsBuilt (map string_bytes words.now) c →
        KeepsWhole (devices C.Clock F.Caller D.Disk S.Source K.Sink L.Door L.Conn.Link) c world result.world result.status life epoch }
    // The same of a queue's mapping, and of its dead-letter file.
    ensures runs_queue { (c : Command) (fifo : Bool) → SpellsBuilt (map string_bytes words.now) c →
        MayQueueRun (devices C.Clock F.Caller D.Disk S.Source K.Sink L.Door L.Conn.Link) fifo c world result.world result.status }
    ensures keeps_queue { (c : Command) (fifo : Bool) (life : List QueueStage) (epoch : ℕ) → SpellsBuilt (map string_bytes words.now) c →
        KeepsQueueLife (devices C.Clock F.Caller D.Disk S.Source K.Sink L.Door L.Conn.Link) fifo c world result.world result.status life epoch }
    ensures whole_queue { (c : Command) (fifo : Bool) (life : List QueueStage) (epoch : ℕ) → SpellsBuilt (map string_bytes words.now) c →
        KeepsQueueWhole (devices C.Clock F.Caller D.Disk S.Source K.Sink L.Door L.Conn.Link) fifo c world result.world result.status life epoch }
    // Words that spell no command leave the life as it is.
    ensures refused { (life : List Stage) (epoch : ℕ) → ((c : Command) → ¬ SpellsBuilt (map string_bytes words.now) c) →
        KeepsUntouched (devices C.Clock F.Caller D.Disk S.Source K.Sink L.Door L.Conn.Link) world result.world life epoch }
    ensures refused_queue { (fifo : Bool) (life : List QueueStage) (epoch : ℕ) → ((c : Command) → ¬ SpellsBuilt (map string_bytes words.now) c) →
        KeepsQueueUntouched (devices C.Clock F.Caller D.Disk S.Source K.Sink L.Door L.Conn.Link) fifo world result.world life epoch }
    // A `compact` that ended with 0 adds the list that it wrote.
    ensures compacts { (life : List Stage) (epoch : ℕ) → SpellsBuilt (map string_bytes words.now) Compact →
        CompactsLife (devices C.Clock F.Caller D.Disk S.Source K.Sink L.Door L.Conn.Link) world result.world result.status life epoch }
    ensures compacts_queue { (fifo : Bool) (life : List QueueStage) (epoch : ℕ) → SpellsBuilt (map string_bytes words.now) Compact →
        CompactsQueueLife (devices C.Clock F.Caller D.Disk S.Source K.Sink L.Door L.Conn.Link) fifo world result.world result.status life epoch }
    // A life begins with `init`; if it has a pair of version 1, `migrate` continues it.
    ensures begins { SpellsBuilt (map string_bytes words.now) Init →
        BeginsLife (devices C.Clock F.Caller D.Disk S.Source K.Sink L.Door L.Conn.Link) world result.world result.status }
    ensures begins_queue { (fifo : Bool) → SpellsBuilt (map string_bytes words.now) Init →
        BeginsQueueLife (devices C.Clock F.Caller D.Disk S.Source K.Sink L.Door L.Conn.Link) fifo world result.world result.status }
    ensures migrates { (life : List Stage) (epoch : ℕ) → SpellsBuilt (map string_bytes words.now) Migrate →
        MigratesLife (devices C.Clock F.Caller D.Disk S.Source K.Sink L.Door L.Conn.Link) world result.world life epoch }
    ensures migrates_queue { (fifo : Bool) (life : List QueueStage) (epoch : ℕ) → SpellsBuilt (map string_bytes words.now) Migrate →
        MigratesQueueLife (devices C.Clock F.Caller D.Disk S.Source K.Sink L.Door L.Conn.Link) fifo world result.world life epoch }
{
    command_runs::<S, K, D, C, F, L>();
    command_keeps_life::<S, K, D, C, F, L>();
    command_keeps_whole::<S, K, D, C, F, L>();
    compact_rewrites_life::<S, K, D, C, F, L>();
    refusal_keeps_life::<S, K, D, C, F, L>();
    init_begins_life::<S, K, D, C, F, L>();
    migrate_keeps_life::<S, K, D, C, F, L>();
    command_runs_queue::<S, K, D, C, F, L>();
    command_keeps_queue_life::<S, K, D, C, F, L>();
    command_keeps_queue_whole::<S, K, D, C, F, L>();
    compact_rewrites_queue_life::<S, K, D, C, F, L>();
    refusal_keeps_queue_life::<S, K, D, C, F, L>();
    init_begins_queue_life::<S, K, D, C, F, L>();
    migrate_keeps_queue_life::<S, K, D, C, F, L>();
    esm(rt, alloc, words, world)
}
