// Each call of `ddb` is of exactly the elements of its batch, over the life of a mapping.
ghost use Rattle.std.specs.Prelude.{ℕ, Bool, List};
ghost use Rattle.esm_cli.specs.declared.command.Command.TheVariants.{Ddb};
ghost use Rattle.esm_life.specs.Life.{IsLife, Run, Stage, content};
ghost use Rattle.esm_model.specs.declared.entry.Entry.{Entry};
ghost use Rattle.esm_program_life.specs.DdbElements.{RunSendsElements, SaysStates, SendsElements, StageSendsElements};
ghost use Rattle.esm_program_life.specs.Streams.{IsSaid};
ghost use Rattle.esm_report.specs.declared.ending.Ending.{Ending};
ghost use Rattle.esm_run.specs.Built.{SpellsBuilt};
ghost use Rattle.esm_run.specs.World.{Seen, devices, run_tells};
ghost use Rattle.esm_run.specs.declared.world.World.{World};

use esm_cli::laws::one_command;
use esm_ddb::laws::{
    calls_have_their_elements, ended_lines_are_whole, event_has_its_elements, records_are_of_lines,
};
use esm_io::{Caller, Clock, Disk, Door, Sink, Source};
use esm_life::replays::life_is_under_replays;
use esm_life::streams::life_is_found;
use esm_replay_life::life::fates_and_tries_stay;

/// Over the life of a mapping, each state of a window that its journal has reads as an object, because an answer of the
/// function gave it.
pub fn life_says_states()
    ensures { (life : List Stage) → IsLife life → SaysStates (content life) }
{
    calls_have_their_elements();
    life_is_under_replays();
    fates_and_tries_stay();
}

/// Each call of a run of `ddb` was of exactly the elements of its batch, in their order, and of what its event says of its
/// tumbling window, however the reading of the input ended. For a mapping with windows this requires that the states in its
/// journal read as objects.
pub fn run_sends_elements<S: Source, D: Disk, C: Clock, F: Caller>()
    ensures { (config : List ℕ) (calls : ℕ) (traced : Bool) (h : List Entry) (old new : Seen S D F) (text : List ℕ) (ending : Ending) →
        RunSendsElements (run_tells C.Clock F.Caller D.Disk S.Source) config calls traced h old new text ending }
{
    records_are_of_lines();
    ended_lines_are_whole();
    event_has_its_elements();
    calls_have_their_elements();
}

/// So was each call of a run that `ddb` adds to the life of a mapping, also if memory ran out. Nothing is required of its
/// journal here.
pub fn stage_sends_elements<S: Source, K: Sink, D: Disk, C: Clock, F: Caller, L: Door>()
    ensures { (config : List ℕ) (calls timeout : ℕ) (traced : Bool) (old new : World S K D C F L) (status : ℕ) (life : List Stage) (run : Run) →
        StageSendsElements (devices C.Clock F.Caller D.Disk S.Source K.Sink L.Door L.Conn.Link) config calls timeout traced old new status life run }
{
    records_are_of_lines();
    ended_lines_are_whole();
    event_has_its_elements();
    calls_have_their_elements();
    life_says_states();
}

/// By the words, whatever the status: in a `ddb` over a journal that opens to a life nothing happens, or each caller's log,
/// if it is visible, grows by calls of exactly the elements of their batches. The journal's disks must be honest.
pub fn ddb_sends_elements<S: Source, K: Sink, D: Disk, C: Clock, F: Caller, L: Door>()
    ensures { (words : List (List ℕ)) (old new : World S K D C F L) (status : ℕ) (config : List ℕ) (calls timeout : ℕ) (traced : Bool)
        (life : List Stage) (epoch : ℕ) →
        IsSaid (devices C.Clock F.Caller D.Disk S.Source K.Sink L.Door L.Conn.Link) words old new status →
        SpellsBuilt words (Ddb config calls timeout traced) →
        SendsElements (devices C.Clock F.Caller D.Disk S.Source K.Sink L.Door L.Conn.Link) config calls old new status life epoch }
{
    one_command();
    records_are_of_lines();
    ended_lines_are_whole();
    event_has_its_elements();
    calls_have_their_elements();
    life_is_found::<D>();
    life_says_states();
}
