// The command `serve`: serves its connections, prints its lines and returns the exit status.
ghost use Rattle.std.specs.Prelude.{◌≡◌, ◌≢◌, Ok, IfOk};
ghost use Rattle.esm_run.specs.Endings.{IsToldWith};
ghost use Rattle.esm_run.specs.Serve.{IsServeCut, ServeOutcome, last_line, serve_status, serve_text, served_text, stop_status};
ghost use Rattle.esm_run.specs.World.{door_of, serve_tells, written_of};
ghost use Rattle.esm_run.specs.declared.registry_file.ServeEnd.{ServeEnd};

use crate::connections::Stop;
use crate::output::{OUT_OF_MEMORY, OUTPUT_FAULT, write_all};
use crate::registry_file::{ServeEnd, ServedFile, serve_file};
use crate::world::{Ended, World};
use esm_io::{Clock, Disk, Door, Sink};
use esm_model::{FileName, OutOfMemory};
use std::alloc::Global;

/// The exit status if a file is no journal, is damaged, or has a bad payload.
const BAD_FILE: u8 = 8;

/// The exit status if a disk failed.
const DISK_FAULT: u8 = 6;

/// The exit status if the door failed.
const DOOR_FAULT: u8 = 11;

/// Returns the exit status for why no more connections were accepted.
fn stop_status(stop: Stop) -> u8
    ensures value { result ≡ stop_status stop }
    ensures good_words { result ≢ 2 }
    ensures known { result ≢ 70 }
{
    match stop {
        Stop::Done => 0,
        Stop::DiskFault => DISK_FAULT,
        Stop::DoorFault => DOOR_FAULT,
    }
}

/// Returns the exit status for the end of `serve`.
fn serve_status(end: ServeEnd) -> u8
    ensures value { result ≡ serve_status end }
    ensures good_words { result ≢ 2 }
    ensures known { result ≢ 70 }
{
    match end {
        ServeEnd::NotAJournal => BAD_FILE,
        ServeEnd::Damaged { .. } => BAD_FILE,
        ServeEnd::BadPayload { .. } => BAD_FILE,
        ServeEnd::OpenFault => DISK_FAULT,
        ServeEnd::Served(accepted) => stop_status(accepted.stop),
    }
}

/// The last line, if the registry's file opened.
fn last_line(stop: Stop) -> &'static str
    ensures { result.now ≡ last_line stop }
{
    match stop {
        Stop::Done => "done",
        Stop::DiskFault => "disk fault",
        Stop::DoorFault => "door fault",
    }
}

/// Writes the two lines that are printed if `count` connections were accepted.
fn served_text(alloc: Global, count: u32, line: &str) -> Result<Vec<u8>, OutOfMemory>
    ensures { IfOk result (λ text. text.items ≡ served_text count line.now) }
{
    Ok(format!(in alloc; "served {count}\n{line}\n")?.into_bytes())
}

/// Writes what `serve` prints.
fn serve_text(alloc: Global, end: ServeEnd) -> Result<Vec<u8>, OutOfMemory>
    ensures { IfOk result (λ text. text.items ≡ serve_text end) }
{
    let name = FileName::Registry.name();
    match end {
        ServeEnd::NotAJournal => Ok(format!(in alloc; "not a journal {name}\n")?.into_bytes()),
        ServeEnd::Damaged { place } => {
            Ok(format!(in alloc; "damaged {name} {place}\n")?.into_bytes())
        }
        ServeEnd::BadPayload { index } => {
            Ok(format!(in alloc; "bad payload {name} {index}\n")?.into_bytes())
        }
        ServeEnd::OpenFault => Ok(String::from_str(alloc, "disk fault\n")?.into_bytes()),
        ServeEnd::Served(accepted) => served_text(alloc, accepted.count, last_line(accepted.stop)),
    }
}

/// Writes how `serve` ended, and returns the exit status.
fn tell_serve<K: Sink>(alloc: Global, out: &mut K, end: Result<ServeEnd, OutOfMemory>) -> u8
    ensures told { result ≢ 70 → (e : ServeEnd) × (end ≡ Ok e) × IsToldWith (K.faults out.old) (K.faults out.new)
        (K.written out.old) (K.written out.new) (serve_text e) (serve_status e) OUTPUT_FAULT result }
    ensures untold { result ≡ 70 → out.new ≡ out.old }
    ensures good_words { result ≢ 2 }
{
    let Ok(end) = end else {
        return OUT_OF_MEMORY;
    };
    let Ok(text) = serve_text(alloc, end) else {
        return OUT_OF_MEMORY;
    };
    match write_all(out, &text) {
        Ok(()) => serve_status(end),
        Err(_) => OUTPUT_FAULT,
    }
}

/// Serves `requests` connections of the world's door over its registry, writes how that ended, and hands the world back with
/// the exit status.
pub fn serve<S, K: Sink, D: Disk, C: Clock, F, L: Door>(
    alloc: Global,
    requests: u32,
    world: World<S, K, D, C, F, L>,
) -> Ended<S, K, D, C, F, L>
    ensures outcome { result.status ≢ 70 → ServeOutcome (serve_tells C.Clock L.Conn.Link D.Disk)
        world.registry result.world.registry (door_of L.faults L.closed world.door result.world.door)
        (written_of K.faults K.written world.out result.world.out) requests result.status }
    ensures want_of_memory { result.status ≡ 70 → IsServeCut (serve_tells C.Clock L.Conn.Link D.Disk)
        world.registry result.world.registry (door_of L.faults L.closed world.door result.world.door) }
    ensures untold { result.status ≡ 70 → result.world.out ≡ world.out }
    ensures good_words { result.status ≢ 2 }
    ensures kept { result.world ≡ record world
        { out = result.world.out; registry = result.world.registry; door = result.world.door } }
{
    let World {
        input,
        out,
        journal,
        spare,
        failures,
        registry,
        clock,
        callers,
        door,
        trace,
    } = world;
    let mut door = door;
    let ServedFile { end, disk } = serve_file(alloc, requests, &clock, &mut door, registry);
    let mut out = out;
    let status = tell_serve(alloc, &mut out, end);
    Ended {
        status,
        world: World {
            input,
            out,
            journal,
            spare,
            failures,
            registry: disk,
            clock,
            callers,
            door,
            trace,
        },
    }
}
