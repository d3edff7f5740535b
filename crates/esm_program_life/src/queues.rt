// Each command of the program keeps the life of a queue's mapping, or adds one stage to it.
ghost use Rattle.std.specs.Prelude.{ℕ, Bool, List};
ghost use Rattle.esm_cli.specs.declared.command.Command.{Command};
ghost use Rattle.esm_cli.specs.declared.command.Command.TheVariants.{Compact, Init, Migrate};
ghost use Rattle.esm_program_life.specs.Queues.{BeginsLife, CompactsLife, KeepsLife, KeepsUntouched, KeepsWhole, MayRun, MigratesLife};
ghost use Rattle.esm_program_life.specs.Streams.{IsSaid};
ghost use Rattle.esm_queue_life.specs.Life.{Stage};
ghost use Rattle.esm_run.specs.Built.{SpellsBuilt};
ghost use Rattle.esm_run.specs.World.{devices};
ghost use Rattle.esm_run.specs.declared.world.World.{World};

use esm_cli::laws::one_command;
use esm_io::{Caller, Clock, Disk, Door, Sink, Source};
use esm_life::queues::{
    compacted_life_goes_on, ended_is_whole, life_begins, life_goes_on, life_is_found,
    migrating_life_stays,
};
use esm_life::redrives::{
    ended_is_whole as redrive_is_whole, life_goes_on as redriven_life_goes_on,
};
use esm_redrive_run::stages::run_is_stage;

/// A command that runs a queue's mapping ran it over files that it had opened, and the clauses of `esm` hold of that run; or
/// nothing happened, and nothing was written.
pub fn command_runs_queue<S: Source, K: Sink, D: Disk, C: Clock, F: Caller, L: Door>()
    ensures { (words : List (List ℕ)) (old new : World S K D C F L) (status : ℕ) (c : Command) (fifo : Bool) →
        IsSaid (devices C.Clock F.Caller D.Disk S.Source K.Sink L.Door L.Conn.Link) words old new status → SpellsBuilt words c →
        MayRun (devices C.Clock F.Caller D.Disk S.Source K.Sink L.Door L.Conn.Link) fifo c old new status }
{
    one_command();
}

/// Whatever the words spell, and whatever status `esm` returns: what a crash leaves of the journal, its spare and the
/// dead-letter file opens to the life that they held before, or to it with one further stage, which is there if anything
/// happened in the run of a mapping. For `run` this stage is a run with the history that the command left, over the messages
/// that it read of its input; for `redrive` it is such a redrive; and for `compact` it is the list that it wrote. The
/// mapping that the words name must be a queue's, of one kind throughout, and the disks must be honest. This holds of a
/// crash at any moment since a run's files were opened, and since the command began if the disks were synced before; of the
/// dead-letter file after a redrive, at the redrive's end.
pub fn command_keeps_queue_life<S: Source, K: Sink, D: Disk, C: Clock, F: Caller, L: Door>()
    ensures { (words : List (List ℕ)) (old new : World S K D C F L) (status : ℕ) (c : Command) (fifo : Bool) (life : List Stage) (epoch : ℕ) →
        IsSaid (devices C.Clock F.Caller D.Disk S.Source K.Sink L.Door L.Conn.Link) words old new status → SpellsBuilt words c →
        KeepsLife (devices C.Clock F.Caller D.Disk S.Source K.Sink L.Door L.Conn.Link) fifo c old new status life epoch }
{
    one_command();
    life_is_found::<D>();
    life_goes_on::<D, F>();
    ended_is_whole::<D, F>();
    redriven_life_goes_on::<D>();
    redrive_is_whole::<D>();
    run_is_stage::<D>();
    compacted_life_goes_on::<D>();
}

/// If none of the three disks failed, by their counts of faults or by the status, a command that runs a queue's mapping
/// leaves its run whole: the disks themselves open to the life with everything that happened, and a crash leaves nothing
/// else.
pub fn command_keeps_queue_whole<S: Source, K: Sink, D: Disk, C: Clock, F: Caller, L: Door>()
    ensures { (words : List (List ℕ)) (old new : World S K D C F L) (status : ℕ) (c : Command) (fifo : Bool) (life : List Stage) (epoch : ℕ) →
        IsSaid (devices C.Clock F.Caller D.Disk S.Source K.Sink L.Door L.Conn.Link) words old new status → SpellsBuilt words c →
        KeepsWhole (devices C.Clock F.Caller D.Disk S.Source K.Sink L.Door L.Conn.Link) fifo c old new status life epoch }
{
    one_command();
    life_is_found::<D>();
    life_goes_on::<D, F>();
    ended_is_whole::<D, F>();
    redriven_life_goes_on::<D>();
    redrive_is_whole::<D>();
    run_is_stage::<D>();
    compacted_life_goes_on::<D>();
}

/// A `compact` that ended with 0 adds the list that it wrote, whatever a crash might have left of the journal's disks
/// before: the files themselves open to the life with the list, and a crash leaves nothing else of the journal.
pub fn compact_rewrites_queue_life<S: Source, K: Sink, D: Disk, C: Clock, F: Caller, L: Door>()
    ensures { (words : List (List ℕ)) (old new : World S K D C F L) (status : ℕ) (fifo : Bool) (life : List Stage) (epoch : ℕ) →
        IsSaid (devices C.Clock F.Caller D.Disk S.Source K.Sink L.Door L.Conn.Link) words old new status → SpellsBuilt words Compact →
        CompactsLife (devices C.Clock F.Caller D.Disk S.Source K.Sink L.Door L.Conn.Link) fifo old new status life epoch }
{
    one_command();
}

/// If the words spell no command, the life stays as it is.
pub fn refusal_keeps_queue_life<S: Source, K: Sink, D: Disk, C: Clock, F: Caller, L: Door>()
    ensures { (words : List (List ℕ)) (old new : World S K D C F L) (status : ℕ) (fifo : Bool) (life : List Stage) (epoch : ℕ) →
        IsSaid (devices C.Clock F.Caller D.Disk S.Source K.Sink L.Door L.Conn.Link) words old new status →
        ((c : Command) → ¬ SpellsBuilt words c) →
        KeepsUntouched (devices C.Clock F.Caller D.Disk S.Source K.Sink L.Door L.Conn.Link) fifo old new life epoch }
{}

/// A life begins with an `init` that ended with 0, on honest disks.
pub fn init_begins_queue_life<S: Source, K: Sink, D: Disk, C: Clock, F: Caller, L: Door>()
    ensures { (words : List (List ℕ)) (old new : World S K D C F L) (status : ℕ) (fifo : Bool) →
        IsSaid (devices C.Clock F.Caller D.Disk S.Source K.Sink L.Door L.Conn.Link) words old new status → SpellsBuilt words Init →
        BeginsLife (devices C.Clock F.Caller D.Disk S.Source K.Sink L.Door L.Conn.Link) fifo old new status }
{
    one_command();
    life_begins::<D>();
}

/// Whatever a crash leaves of a pair of version 1 and of a dead-letter file, at any moment since `migrate` began, opens to
/// the life that they held: as the pair that it was, or as one of version 2 with the next epoch. The disks must be honest
/// and have been synced before.
pub fn migrate_keeps_queue_life<S: Source, K: Sink, D: Disk, C: Clock, F: Caller, L: Door>()
    ensures { (words : List (List ℕ)) (old new : World S K D C F L) (status : ℕ) (fifo : Bool) (life : List Stage) (epoch : ℕ) →
        IsSaid (devices C.Clock F.Caller D.Disk S.Source K.Sink L.Door L.Conn.Link) words old new status → SpellsBuilt words Migrate →
        MigratesLife (devices C.Clock F.Caller D.Disk S.Source K.Sink L.Door L.Conn.Link) fifo old new life epoch }
{
    migrating_life_stays::<D>();
}
