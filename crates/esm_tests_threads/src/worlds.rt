// Worlds of devices in memory, with a clock and callers that the test chooses.
ghost use Rattle.std.specs.Prelude.{◌≡◌, [], length, IfOk};

use esm_fixtures::{FRESH, NO_LINES, SPARE, disk};
use esm_io::{Caller, Clock, MemDisk, MemDoor, MemSink, MemSource};
use esm_model::{Entry, OutOfMemory};
use esm_run::{Ended, World, esm};
use std::alloc::Global;
use std::sync::Wait;
use std::thread::Threads;

/// How a command ended: its status, what it printed, and the history that it left.
#[derive(Drop)]
pub struct Told {
    pub status: u8,
    pub out: Vec<u8>,
    pub trace: Vec<Entry>,
}

fn words(alloc: Global, texts: &[&str]) -> Result<Vec<String>, OutOfMemory> {
    let mut words = Vec::new(alloc);
    for text in texts {
        words.push(String::from_str(alloc, text)?)?;
    }
    Ok(words)
}

/// A world with this input, whose files are as `init` makes them.
fn world<C: Clock + Drop, F: Caller + Drop>(
    alloc: Global,
    input: Vec<u8>,
    clock: C,
    callers: Vec<F>,
) -> Result<World<MemSource, MemSink, MemDisk, C, F, MemDoor>, OutOfMemory>
    requires { length callers.items ≡ 64 }
    ensures callers { IfOk result (λ world. length world.callers.items ≡ 64) }
    ensures trace { IfOk result (λ world. world.trace.items ≡ []) }
{
    Ok(World {
        input: MemSource::new(input, 1_048_576, Vec::new(alloc)),
        out: MemSink::new(alloc, 65536, Vec::new(alloc)),
        journal: disk(alloc, &FRESH, &[])?,
        spare: disk(alloc, &SPARE, &[])?,
        failures: disk(alloc, &NO_LINES, &[])?,
        registry: disk(alloc, &NO_LINES, &[])?,
        clock,
        callers,
        door: MemDoor::new(alloc, Vec::new(alloc), Vec::new(alloc)),
        trace: Vec::new(alloc),
    })
}

/// Runs the command of these words over this input, with this clock and these callers. Returns how it ended.
pub fn told_over<R: Threads + Wait + Sync, C: Clock + Drop + Sync, F: Caller + Drop + Send>(
    rt: &R,
    alloc: Global,
    texts: &[&str],
    input: Vec<u8>,
    clock: C,
    callers: Vec<F>,
) -> Result<Told, OutOfMemory>
    requires { length callers.items ≡ 64 }
{
    let words = words(alloc, texts)?;
    let world = world(alloc, input, clock, callers)?;
    let Ended { status, world } = esm(rt, alloc, words.as_slice(), world);
    let World { out, trace, .. } = world;
    let out = Vec::from_slice(alloc, out.written())?;
    Ok(Told { status, out, trace })
}
