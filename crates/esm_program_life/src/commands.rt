// What commands leave of the life of a mapping, of a stream's or of a queue's, one after the other.
ghost use Rattle.std.specs.Prelude.{ℕ, Bool, List};
ghost use Rattle.esm_life.specs.Life.{Stage};
ghost use Rattle.esm_program_life.specs.Commands.{PairBytes, Step, StepsKeepLife, StepsMigrateLife};
ghost use Rattle.esm_program_life.specs.QueueCommands.{FileBytes, StepsKeepLife as StepsKeepQueueLife, StepsMigrateLife as StepsMigrateQueueLife};
ghost use Rattle.esm_queue_life.specs.Life.{Stage as QueueStage};
ghost use Rattle.esm_run.specs.World.{devices};

use esm_cli::laws::one_command;
use esm_io::{Caller, Clock, Disk, Door, Sink, Source};
use esm_life::queues::{
    compacted_life_goes_on as compacted_queue_goes_on, ended_is_whole as queue_is_whole,
    life_goes_on as queue_goes_on, life_is_found as queue_is_found,
    migrating_life_stays as migrating_queue_stays,
};
use esm_life::redrives::{
    ended_is_whole as redrive_is_whole, life_goes_on as redriven_life_goes_on,
};
use esm_life::replays::run_is_stage;
use esm_life::streams::{
    compacted_life_goes_on, ended_is_whole, life_goes_on, life_is_found, migrating_life_stays,
    replay_goes_on, unwritten_life_stays,
};
use esm_redrive_run::stages::run_is_stage as redrive_is_stage;

/// Over any list of commands, refused words among them, each of which begins on what the one before it left, and ends or is
/// stopped: what is left opens to the life that was found, with the stages that the commands added, in their order. Each
/// command adds at most one, and a command that runs a mapping adds one if anything happened in it. A run may be stopped at
/// any moment since it opened its files. If a command is stopped before that, or a `compact` while it writes, the disks must
/// have been synced when it began.
pub fn commands_keep_life<S: Source, K: Sink, D: Disk, C: Clock, F: Caller, L: Door>()
    ensures { (found : PairBytes) (steps : List (Step S K D C F L PairBytes)) (life : List Stage) (epoch : ℕ) →
        StepsKeepLife (devices C.Clock F.Caller D.Disk S.Source K.Sink L.Door L.Conn.Link) found steps life epoch }
{
    one_command();
    unwritten_life_stays::<D>();
    life_is_found::<D>();
    life_goes_on::<D, F>();
    ended_is_whole::<D, F>();
    replay_goes_on::<D>();
    run_is_stage::<D>();
    compacted_life_goes_on::<D>();
}

/// The same of a queue's files: the pair and the dead-letter file. A redrive leaves of the dead-letter file what it has at
/// the redrive's end. If a command is stopped before it opened its files, that file too must have been synced when the
/// command began.
pub fn commands_keep_queue_life<S: Source, K: Sink, D: Disk, C: Clock, F: Caller, L: Door>()
    ensures { (fifo : Bool) (found : FileBytes) (steps : List (Step S K D C F L FileBytes)) (life : List QueueStage) (epoch : ℕ) →
        StepsKeepQueueLife (devices C.Clock F.Caller D.Disk S.Source K.Sink L.Door L.Conn.Link) fifo found steps life epoch }
{
    one_command();
    queue_is_found::<D>();
    queue_goes_on::<D, F>();
    queue_is_whole::<D, F>();
    redriven_life_goes_on::<D>();
    redrive_is_whole::<D>();
    redrive_is_stage::<D>();
    compacted_queue_goes_on::<D>();
}

/// Over any list of commands that begins on a pair of version 1, refused words among them, each of which is `migrate` or one
/// that writes no journal, and ends, or is stopped at any moment if its disks were synced when it began: what is left opens
/// to the same life, as the pair that it was or as one of version 2, over which the commands that follow keep it.
pub fn migrations_keep_life<S: Source, K: Sink, D: Disk, C: Clock, F: Caller, L: Door>()
    ensures { (found : PairBytes) (steps : List (Step S K D C F L PairBytes)) (life : List Stage) (epoch : ℕ) →
        StepsMigrateLife (devices C.Clock F.Caller D.Disk S.Source K.Sink L.Door L.Conn.Link) found steps life epoch }
{
    one_command();
    migrating_life_stays::<D>();
    unwritten_life_stays::<D>();
    life_is_found::<D>();
    life_goes_on::<D, F>();
    ended_is_whole::<D, F>();
    replay_goes_on::<D>();
    run_is_stage::<D>();
    compacted_life_goes_on::<D>();
}

/// The same of a queue's files.
pub fn migrations_keep_queue_life<S: Source, K: Sink, D: Disk, C: Clock, F: Caller, L: Door>()
    ensures { (fifo : Bool) (found : FileBytes) (steps : List (Step S K D C F L FileBytes)) (life : List QueueStage) (epoch : ℕ) →
        StepsMigrateQueueLife (devices C.Clock F.Caller D.Disk S.Source K.Sink L.Door L.Conn.Link) fifo found steps life epoch }
{
    one_command();
    migrating_queue_stays::<D>();
    queue_is_found::<D>();
    queue_goes_on::<D, F>();
    queue_is_whole::<D, F>();
    redriven_life_goes_on::<D>();
    redrive_is_whole::<D>();
    redrive_is_stage::<D>();
    compacted_queue_goes_on::<D>();
}
