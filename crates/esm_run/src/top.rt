// The whole program: runs the command that the words of the command line spell, and returns the exit status.
ghost use Rattle.std.specs.Prelude.{◌≡◌, ◌≢◌, ℕ, [], length, map};
ghost use Rattle.std.specs.String.{string_bytes};
ghost use Rattle.esm_model.specs.declared.limits.TheConstants.{MAX_LANES};
ghost use Rattle.esm_cli.specs.declared.command.Command.{Command};
ghost use Rattle.esm_run.specs.Built.{SpellsBuilt};
ghost use Rattle.esm_run.specs.Commands.{IsComplete, IsLeft, IsStopped, NoneFailed, Outcome};
ghost use Rattle.esm_run.specs.World.{devices};

use crate::asked::{Asked, asked_by};
use crate::commands::{refuse, run};
use crate::ddb::ddb;
use crate::generating::generate;
use crate::redrive::redrive;
use crate::replay::replay;
use crate::serving::serve;
use crate::tending::tend;
use crate::world::{Ended, World};
use esm_cli::laws::one_command;
use esm_history::completeness::bound_is_not_reached;
use esm_io::{Caller, Clock, Disk, Door, Sink, Source};
use esm_journal_state::laws::same_told;
use esm_mapping::laws::{one_answer, one_expected};
use esm_record::laws::whole_goes_on;
use std::alloc::Global;
use std::sync::Wait;
use std::thread::Threads;

/// Runs the command that the words of the command line spell, and hands the world back with the exit status:
/// 0 if `init` made the files; `show` printed what the journal says, or `failures` its lines; `compact` or `migrate` wrote
/// the journal anew, or found it of version 2; `run`, `ddb` or `redrive` read the input to its end, and every record has its
/// fate or every message is deleted; `replay` read it to its end, and each named record was replayed or its last call left
/// it; `serve` served as many connections as it was asked to; or every record of the stream of `gen` has its fate.
/// 1 if the calls allowed were spent before that, also while more of the input was awaited. 2 if the words spell no command
/// that is built. 3 at a bad line. 4 if the input failed. 5 if the output failed, except after bad words. 6 if a disk failed.
/// 7 if the failure file failed in a run. 8 if `init` found a file that is not empty, if another command found one that is no
/// journal, is damaged or has a bad payload, or if a record or message differs from the one that the journal kept. 9 if the
/// mapping is unknown or disabled, or a parameter is refused. 10 if the input exceeds a limit. 11 if the door failed. 70 if
/// memory ran out; then nothing is printed.
/// 4, 5, 6, 7 and 11 are returned only if the device's count of faults rose. With `--trace` the history of `run`, `ddb`,
/// `redrive` or `replay` is printed before its report, if it began.
pub fn esm<
    R: Threads + Wait + Sync,
    S: Source + Send,
    K: Sink,
    D: Disk + Send,
    C: Clock + Sync,
    F: Caller + Send,
    L: Door,
>(
    rt: &R,
    alloc: Global,
    words: &[String],
    world: World<S, K, D, C, F, L>,
) -> Ended<S, K, D, C, F, L>
    requires callers { length world.callers.items ≡ MAX_LANES }
    requires trace { world.trace.items ≡ [] }
    // The command that the words spell ended with this status, and if no device failed, with no other one.
    ensures outcome { result.status ≢ 70 → Outcome (devices C.Clock F.Caller D.Disk S.Source K.Sink L.Door L.Conn.Link)
        (map string_bytes words.now) world result.world result.status }
    ensures exact { result.status ≢ 70 → NoneFailed (devices C.Clock F.Caller D.Disk S.Source K.Sink L.Door L.Conn.Link)
        (map string_bytes words.now) world result.world
        → (other : ℕ) → Outcome (devices C.Clock F.Caller D.Disk S.Source K.Sink L.Door L.Conn.Link)
        (map string_bytes words.now) world result.world other → other ≡ result.status }
    ensures complete { result.status ≢ 70 → IsComplete (devices C.Clock F.Caller D.Disk S.Source K.Sink L.Door L.Conn.Link)
        (map string_bytes words.now) world result.world result.status }
    ensures bad_words { result.status ≡ 2 → (c : Command) → ¬ SpellsBuilt (map string_bytes words.now) c }
    ensures spelled { result.status ≢ 2 → result.status ≢ 70 → (c : Command) × SpellsBuilt (map string_bytes words.now) c }
    // Out of memory.
    ensures want_of_memory { result.status ≡ 70 → IsStopped (devices C.Clock F.Caller D.Disk S.Source K.Sink L.Door L.Conn.Link)
        (map string_bytes words.now) world result.world }
    // What stays, whatever the status.
    ensures left { (c : Command) → SpellsBuilt (map string_bytes words.now) c →
        IsLeft (devices C.Clock F.Caller D.Disk S.Source K.Sink L.Door L.Conn.Link) c world result.world }
    ensures untouched { ((c : Command) → ¬ SpellsBuilt (map string_bytes words.now) c) → result.world ≡ record world { out = result.world.out } }
    ensures clock { result.world.clock ≡ world.clock }
    ensures as_many { length result.world.callers.items ≡ MAX_LANES }
    ensures door { ((requests : ℕ) → ¬ SpellsBuilt (map string_bytes words.now) (Command.Serve requests)) → result.world.door ≡ world.door }
{
    one_command();
    bound_is_not_reached();
    whole_goes_on();
    same_told();
    one_answer::<D>();
    one_expected();
    match asked_by(alloc, words) {
        Asked::Files(command) => tend(alloc, command, world),
        Asked::Serve { requests } => serve(alloc, requests, world),
        Asked::Gen { records } => generate(rt, alloc, records, world),
        Asked::Run(options) => run(rt, alloc, options, world),
        Asked::Ddb {
            config,
            calls,
            timeout: _,
            trace,
        } => ddb(rt, alloc, config, calls, trace, world),
        Asked::Redrive(words) => redrive(rt, alloc, words, world),
        Asked::Replay {
            config,
            calls,
            timeout: _,
            trace,
        } => replay(rt, alloc, config, calls, trace, world),
        Asked::Nothing(why) => refuse(alloc, why, world),
    }
}
