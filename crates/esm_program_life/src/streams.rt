// Each command of the program keeps the life of a stream's mapping, or adds one stage to it.
ghost use Rattle.std.specs.Prelude.{ℕ, List};
ghost use Rattle.esm_cli.specs.declared.command.Command.{Command};
ghost use Rattle.esm_cli.specs.declared.command.Command.TheVariants.{Compact, Init, Migrate};
ghost use Rattle.esm_life.specs.Life.{Stage};
ghost use Rattle.esm_program_life.specs.Streams.{BeginsLife, CompactsLife, IsSaid, KeepsLife, KeepsUntouched, KeepsWhole, MayRun, MigratesLife};
ghost use Rattle.esm_run.specs.Built.{SpellsBuilt};
ghost use Rattle.esm_run.specs.World.{devices};
ghost use Rattle.esm_run.specs.declared.world.World.{World};

use esm_cli::laws::one_command;
use esm_io::{Caller, Clock, Disk, Door, Sink, Source};
use esm_life::replays::run_is_stage;
use esm_life::streams::{
    compacted_life_goes_on, ended_is_whole, life_begins, life_goes_on, life_is_found,
    migrating_life_stays, replay_goes_on, unwritten_life_stays,
};

/// A command that runs a mapping ran it over files that it had opened, and the clauses of `esm` hold of that run; or nothing
/// happened, and nothing was written.
pub fn command_runs<S: Source, K: Sink, D: Disk, C: Clock, F: Caller, L: Door>()
    ensures { (words : List (List ℕ)) (old new : World S K D C F L) (status : ℕ) (c : Command) →
        IsSaid (devices C.Clock F.Caller D.Disk S.Source K.Sink L.Door L.Conn.Link) words old new status → SpellsBuilt words c →
        MayRun (devices C.Clock F.Caller D.Disk S.Source K.Sink L.Door L.Conn.Link) c old new status }
{
    one_command();
}

/// Whatever the words spell, and whatever status `esm` returns: what a crash leaves of the journal and its spare opens to
/// the life that they held before, or to it with one further stage, which is there if anything happened in the run of a
/// mapping. For `run` and `ddb` this stage is a run with the history that the command left, over the records that it read of
/// its input; for `replay` it is such a replay; and for `compact` it is the list that it wrote. The mapping that the words
/// name must be a stream's, and the disks must be honest. This holds of a crash at any moment since a run's files were
/// opened, and since the command began if the disks were synced before.
pub fn command_keeps_life<S: Source, K: Sink, D: Disk, C: Clock, F: Caller, L: Door>()
    ensures { (words : List (List ℕ)) (old new : World S K D C F L) (status : ℕ) (c : Command) (life : List Stage) (epoch : ℕ) →
        IsSaid (devices C.Clock F.Caller D.Disk S.Source K.Sink L.Door L.Conn.Link) words old new status → SpellsBuilt words c →
        KeepsLife (devices C.Clock F.Caller D.Disk S.Source K.Sink L.Door L.Conn.Link) c old new status life epoch }
{
    one_command();
    unwritten_life_stays::<D>();
    life_is_found::<D>();
    life_goes_on::<D, F>();
    ended_is_whole::<D, F>();
    replay_goes_on::<D>();
    run_is_stage::<D>();
    compacted_life_goes_on::<D>();
}

/// If no disk of the journal failed, by its count of faults or by the status, a command that runs a mapping leaves its run
/// whole: the disks themselves open to the life with everything that happened, and a crash leaves nothing else. If the
/// status reports no other trouble either, nothing is owed after it.
pub fn command_keeps_whole<S: Source, K: Sink, D: Disk, C: Clock, F: Caller, L: Door>()
    ensures { (words : List (List ℕ)) (old new : World S K D C F L) (status : ℕ) (c : Command) (life : List Stage) (epoch : ℕ) →
        IsSaid (devices C.Clock F.Caller D.Disk S.Source K.Sink L.Door L.Conn.Link) words old new status → SpellsBuilt words c →
        KeepsWhole (devices C.Clock F.Caller D.Disk S.Source K.Sink L.Door L.Conn.Link) c old new status life epoch }
{
    one_command();
    unwritten_life_stays::<D>();
    life_is_found::<D>();
    life_goes_on::<D, F>();
    ended_is_whole::<D, F>();
    replay_goes_on::<D>();
    run_is_stage::<D>();
    compacted_life_goes_on::<D>();
}

/// A `compact` that ended with 0 adds the list that it wrote, whatever a crash might have left of the disks before: the
/// disks themselves open to the life with the list, and a crash leaves nothing else of them.
pub fn compact_rewrites_life<S: Source, K: Sink, D: Disk, C: Clock, F: Caller, L: Door>()
    ensures { (words : List (List ℕ)) (old new : World S K D C F L) (status : ℕ) (life : List Stage) (epoch : ℕ) →
        IsSaid (devices C.Clock F.Caller D.Disk S.Source K.Sink L.Door L.Conn.Link) words old new status → SpellsBuilt words Compact →
        CompactsLife (devices C.Clock F.Caller D.Disk S.Source K.Sink L.Door L.Conn.Link) old new status life epoch }
{
    one_command();
}

/// If the words spell no command, the life stays as it is.
pub fn refusal_keeps_life<S: Source, K: Sink, D: Disk, C: Clock, F: Caller, L: Door>()
    ensures { (words : List (List ℕ)) (old new : World S K D C F L) (status : ℕ) (life : List Stage) (epoch : ℕ) →
        IsSaid (devices C.Clock F.Caller D.Disk S.Source K.Sink L.Door L.Conn.Link) words old new status →
        ((c : Command) → ¬ SpellsBuilt words c) →
        KeepsUntouched (devices C.Clock F.Caller D.Disk S.Source K.Sink L.Door L.Conn.Link) old new life epoch }
{}

/// A life begins with an `init` that ended with 0, on honest disks.
pub fn init_begins_life<S: Source, K: Sink, D: Disk, C: Clock, F: Caller, L: Door>()
    ensures { (words : List (List ℕ)) (old new : World S K D C F L) (status : ℕ) →
        IsSaid (devices C.Clock F.Caller D.Disk S.Source K.Sink L.Door L.Conn.Link) words old new status → SpellsBuilt words Init →
        BeginsLife (devices C.Clock F.Caller D.Disk S.Source K.Sink L.Door L.Conn.Link) old new status }
{
    one_command();
    life_begins::<D>();
}

/// Whatever a crash leaves of a pair of version 1, at any moment since `migrate` began, opens to the life that it held: as
/// the pair that it was, or as one of version 2 with the next epoch. The disks must be honest and have been synced before.
pub fn migrate_keeps_life<S: Source, K: Sink, D: Disk, C: Clock, F: Caller, L: Door>()
    ensures { (words : List (List ℕ)) (old new : World S K D C F L) (status : ℕ) (life : List Stage) (epoch : ℕ) →
        IsSaid (devices C.Clock F.Caller D.Disk S.Source K.Sink L.Door L.Conn.Link) words old new status → SpellsBuilt words Migrate →
        MigratesLife (devices C.Clock F.Caller D.Disk S.Source K.Sink L.Door L.Conn.Link) old new life epoch }
{
    migrating_life_stays::<D>();
}
