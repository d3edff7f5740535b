//! The program: it reads the folder, the functions and the door from the first three words, makes the real world and runs
//! the command that the other words spell. The output goes to standard output; what to do about a refusal, and on a terminal
//! how far a run has come, goes to standard error.
#![tactic(auto)]

ghost use Rattle.std.specs.Prelude.{◌≡◌, ◌≢◌, ◌⊎◌, [], map, length};
ghost use Rattle.std.specs.String.{string_bytes};
ghost use Rattle.esm_run.specs.World.{devices};
ghost use Rattle.esm.specs.Done.{HasDone};
ghost use Rattle.esm.specs.Opening.{Opens, IsRefused};

mod advice;
mod callers;
mod disks;
mod functions;
mod opening;
mod tail_sink;
mod timeouts;
mod words;
mod worlds;

use advice::{advise, out_of_memory};
use esm_host::fill_streams;
use esm_io::{Caller, Clock, Disk, Door, Sink, Source};
use esm_model::{MAX_LANES, OutOfMemory};
use esm_run::{World, esm};
use functions::Functions;
use opening::{Folder, Opening, read_opening};
use std::alloc::Global;
use std::io::Eprint;
use std::process::ExitCode;
use std::sync::Wait;
use std::thread::Threads;
use tail_sink::Remembers;
use words::words;
use worlds::{folder_world, memory_world};

#[cfg(test)]
mod tests;

/// Reads what the first three words name, and the words of the command. If the three are refused, no words are left for the
/// command, and no words spell none.
fn opened(words: &[String]) -> Opening<'_>
    ensures opens { Opens (map string_bytes words.now) result.folder result.functions result.door (map string_bytes result.command.now)
        ⊎ IsRefused (map string_bytes words.now) }
    ensures refused { IsRefused (map string_bytes words.now) → map string_bytes result.command.now ≡ [] }
{
    let opening = read_opening(words).unwrap_or(Opening {
        folder: Folder::Memory,
        functions: Functions::Succeed,
        door: 0,
        command: &[],
    });
    opening
}

/// Runs the command in this world and returns the exit status. If the command was refused, or memory ran
/// out, prints on standard error what to do about it. `opening` is what `words` open; `rt` makes the threads.
fn perform<
    R: Threads + Wait + Sync + Eprint,
    S: Source + Drop + Send,
    K: Sink + Remembers + Drop,
    D: Disk + Drop + Send,
    C: Clock + Drop + Sync,
    F: Caller + Drop + Send,
    L: Door + Drop,
>(
    rt: &R,
    alloc: Global,
    words: &[String],
    opening: Opening<'_>,
    world: World<S, K, D, C, F, L>,
) -> u8
    requires opens { Opens (map string_bytes words.now) opening.folder opening.functions opening.door (map string_bytes opening.command.now)
        ⊎ IsRefused (map string_bytes words.now) }
    requires none { IsRefused (map string_bytes words.now) → map string_bytes opening.command.now ≡ [] }
    requires callers { length world.callers.items ≡ MAX_LANES }
    requires trace { world.trace.items ≡ [] }
    ensures done { result ≢ 70 → HasDone (devices C.Clock F.Caller D.Disk S.Source K.Sink L.Door L.Conn.Link)
        (map string_bytes opening.entry.command.now) world result }
    ensures refused { IsRefused (map string_bytes words.now) → result ≢ 70 → result ≡ 2 }
{
    let ended = esm(rt, alloc, opening.command, world);
    advise(rt, words, ended.status, ended.world.out.tail());
    ended.status
}

fn main(rt: HostRuntime) -> ExitCode {
    fill_streams(&rt);
    let alloc = rt.alloc();
    let Ok(words) = words(&rt) else {
        return ExitCode::from(out_of_memory(&rt));
    };
    let words = words.as_slice();
    let opening = opened(words);
    let status = match opening.folder {
        Folder::Memory => match memory_world(&rt, alloc, opening) {
            Ok(world) => perform(&rt, alloc, words, opening, world),
            Err(OutOfMemory) => out_of_memory(&rt),
        },
        Folder::Files(folder) => match folder_world(&rt, alloc, opening, folder) {
            Ok(world) => perform(&rt, alloc, words, opening, world),
            Err(OutOfMemory) => out_of_memory(&rt),
        },
    };
    ExitCode::from(status)
}
