// The tables: a command with each call of a device failing in turn, with a crash after that, and over each prefix of a
// file.
use crate::kept::{called_again, failure_lines, said_in};
use crate::looks::{add, add_told};
use crate::script::{Device, Fault};
use crate::settings::{Files, Setting};
use crate::worlds::{MemEnded, enacted};
use esm_io::MemDisk;
use esm_model::OutOfMemory;
use std::alloc::Global;
use std::str::from_utf8;
use std::sync::Wait;
use std::thread::Threads;

/// More calls than a device gets in a command.
const MANY: u64 = 10_000;

/// What crashes leave of the bytes written since the last sync: none, all, and those at some of the places.
const CHOICES: [u64; 3] = [0, 1, 165];

/// The statuses that report that an input, or an output, failed.
const INPUT_FAULT: u8 = 4;

const OUTPUT_FAULT: u8 = 5;

/// Whether the command made the call that was to fail.
fn is_met(ended: &MemEnded, fault: Fault) -> bool {
    let Fault { device, call } = fault;
    match device {
        Device::Input => ended.status == INPUT_FAULT,
        Device::Output => ended.status == OUTPUT_FAULT,
        Device::Journal => call < ended.world.journal.calls(),
        Device::Spare => call < ended.world.spare.calls(),
        Device::Failures => call < ended.world.failures.calls(),
        Device::Registry => call < ended.world.registry.calls(),
        Device::Caller => match ended.world.callers.first() {
            Some(caller) => call < caller.log().unwrap_or(&[]).len() as u64,
            None => false,
        },
    }
}

/// The statuses of the command with the first, the second and so on call of the device failing.
fn statuses<R: Threads + Wait + Sync>(
    rt: &R,
    alloc: Global,
    setting: &Setting,
    device: Device,
    words: &[String],
) -> Result<Vec<u8>, OutOfMemory> {
    let mut statuses = Vec::new(alloc);
    for call in 0..MANY {
        let fault = Fault { device, call };
        let ended = enacted(rt, alloc, setting, &setting.files, Some(fault), words)?;
        if !is_met(&ended, fault) {
            break;
        }
        statuses.push(ended.status)?;
    }
    Ok(statuses)
}

/// Commands that ended alike, and their number.
#[derive(Drop)]
struct Outcome {
    status: u8,
    told: Vec<u8>,
    times: u64,
}

/// Appends what these commands printed, and their number.
fn add_outcome(alloc: Global, page: &mut Vec<u8>, outcome: &Outcome) -> Result<(), OutOfMemory> {
    add_told(page, outcome.told.as_slice())?;
    let (status, times) = (outcome.status, outcome.times);
    let line = format!(in alloc; "status {status}: {times} times\n")?;
    add(page, line.as_str())
}

fn add_outcomes(
    alloc: Global,
    page: &mut Vec<u8>,
    outcomes: &[Outcome],
) -> Result<(), OutOfMemory> {
    for outcome in outcomes {
        add_outcome(alloc, page, outcome)?;
    }
    Ok(())
}

/// Counts one more command, among the outcomes from this index on.
fn count(
    outcomes: &mut Vec<Outcome>,
    from: usize,
    status: u8,
    told: Vec<u8>,
) -> Result<(), OutOfMemory> {
    for outcome in outcomes.iter_mut().skip(from) {
        if outcome.status == status && outcome.told.as_slice() == told.as_slice() {
            outcome.times = outcome.times.saturating_add(1);
            return Ok(());
        }
    }
    outcomes.push(Outcome {
        status,
        told,
        times: 1,
    })?;
    Ok(())
}

/// The statuses in order; equal ones that follow each other are one row.
fn rows(alloc: Global, statuses: &[u8]) -> Result<Vec<Outcome>, OutOfMemory> {
    let mut rows = Vec::new(alloc);
    for status in statuses {
        let last = rows.len().saturating_sub(1);
        count(&mut rows, last, *status, Vec::new(alloc))?;
    }
    Ok(rows)
}

/// Runs the command again and again, each time with the next call of the device failing. Appends how many calls there
/// were, and the statuses.
pub fn add_each<R: Threads + Wait + Sync>(
    rt: &R,
    alloc: Global,
    page: &mut Vec<u8>,
    setting: &Setting,
    device: Device,
    words: &[String],
) -> Result<(), OutOfMemory> {
    let statuses = statuses(rt, alloc, setting, device, words)?;
    let faults = statuses.len();
    let line = format!(in alloc; "{faults} faults\n")?;
    add(page, line.as_str())?;
    let rows = rows(alloc, statuses.as_slice())?;
    add_outcomes(alloc, page, rows.as_slice())
}

/// The bytes of a disk after a crash.
fn crashed(alloc: Global, disk: MemDisk, choice: u64) -> Result<Vec<u8>, OutOfMemory> {
    match disk.crash(alloc, choice) {
        Ok(disk) => Ok(Vec::from_slice(alloc, disk.bytes())?),
        Err(_) => Err(OutOfMemory),
    }
}

/// What a crash after a command leaves of the files.
fn crashed_files(alloc: Global, ended: MemEnded, choice: u64) -> Result<Files, OutOfMemory> {
    let world = ended.world;
    Ok(Files {
        journal: crashed(alloc, world.journal, choice)?,
        spare: crashed(alloc, world.spare, choice)?,
        failures: crashed(alloc, world.failures, choice)?,
        registry: crashed(alloc, world.registry, choice)?,
    })
}

/// What a command printed, without the line of its calls, and the number of failure lines then.
fn told_of(alloc: Global, ended: &MemEnded) -> Result<Vec<u8>, OutOfMemory> {
    let mut told = Vec::new(alloc);
    for line in from_utf8(ended.world.out.written()).unwrap_or("").lines() {
        if !line.starts_with("calls ") {
            add(&mut told, line)?;
            add(&mut told, "\n")?;
        }
    }
    let lines = failure_lines(alloc, ended.world.failures.bytes())?;
    let line = format!(in alloc; "failure lines {lines}\n")?;
    add(&mut told, line.as_str())?;
    Ok(told)
}

/// A command that is stopped at the calls of a device, and the command that follows each stop.
#[derive(Clone, Copy)]
pub struct Stops<'a> {
    pub device: Device,
    pub words: &'a [String],
    pub then: &'a [String],
}

/// What the second command left, and how many records it called that were not to be called any more.
#[derive(Drop)]
struct Resumed {
    ended: MemEnded,
    again: usize,
}

/// Runs the second command over the files that a crash left of the first.
fn go_on<R: Threads + Wait + Sync>(
    rt: &R,
    alloc: Global,
    setting: &Setting,
    files: &Files,
    then: &[String],
) -> Result<Resumed, OutOfMemory> {
    let said = said_in(alloc, files)?;
    let ended = enacted(rt, alloc, setting, files, None, then)?;
    let command = match then.first() {
        Some(word) => word.as_str(),
        None => "",
    };
    let again = match &said {
        Some(said) => called_again(said, command, ended.world.trace.as_slice()),
        None => 0,
    };
    Ok(Resumed { ended, again })
}

/// Runs the first command with this call of the device failing, then a crash of this choice, and then the second command
/// over the files. `None` if there was no such call.
fn stopped<R: Threads + Wait + Sync>(
    rt: &R,
    alloc: Global,
    setting: &Setting,
    stops: Stops<'_>,
    call: u64,
    choice: u64,
) -> Result<Option<Resumed>, OutOfMemory> {
    let Stops {
        device,
        words,
        then,
    } = stops;
    let fault = Fault { device, call };
    let ended = enacted(rt, alloc, setting, &setting.files, Some(fault), words)?;
    if !is_met(&ended, fault) {
        return Ok(None);
    }
    let files = crashed_files(alloc, ended, choice)?;
    Ok(Some(go_on(rt, alloc, setting, &files, then)?))
}

/// Counts how the second command ends after each stop of the first, with crashes of this choice. Returns how many records
/// it called that were not to be called any more.
fn count_stops<R: Threads + Wait + Sync>(
    rt: &R,
    alloc: Global,
    setting: &Setting,
    stops: Stops<'_>,
    choice: u64,
    outcomes: &mut Vec<Outcome>,
) -> Result<usize, OutOfMemory> {
    let mut again = 0usize;
    for call in 0..MANY {
        let Some(resumed) = stopped(rt, alloc, setting, stops, call, choice)? else {
            break;
        };
        let Resumed { ended, again: more } = resumed;
        count(outcomes, 0, ended.status, told_of(alloc, &ended)?)?;
        again = again.saturating_add(more);
    }
    Ok(again)
}

/// Runs the command again and again, each time with the next call of the device failing, then a crash and the second
/// command. Appends what that printed without its calls, the number of failure lines then, and how often this happened;
/// and how many records it called in all that were not to be called any more.
pub fn add_stops<R: Threads + Wait + Sync>(
    rt: &R,
    alloc: Global,
    page: &mut Vec<u8>,
    setting: &Setting,
    stops: Stops<'_>,
) -> Result<(), OutOfMemory> {
    let mut outcomes = Vec::new(alloc);
    let mut again = 0usize;
    for choice in CHOICES {
        let more = count_stops(rt, alloc, setting, stops, choice, &mut outcomes)?;
        again = again.saturating_add(more);
    }
    add_outcomes(alloc, page, outcomes.as_slice())?;
    let line = format!(in alloc; "called again {again}\n")?;
    add(page, line.as_str())
}

/// The files, with this one cut to its first `count` bytes.
fn cut_files(
    alloc: Global,
    files: &Files,
    device: Device,
    count: usize,
) -> Result<Files, OutOfMemory> {
    let front = match files.get(device) {
        Some(bytes) => bytes.get(..count).unwrap_or(bytes),
        None => &[],
    };
    let front = Vec::from_slice(alloc, front)?;
    let mut cut = files.copy(alloc)?;
    cut.set(device, front);
    Ok(cut)
}

/// Appends how many bytes are left of a file, and the status and the last line of the command over it.
fn add_cut(
    alloc: Global,
    page: &mut Vec<u8>,
    count: usize,
    ended: &MemEnded,
) -> Result<(), OutOfMemory> {
    let told = from_utf8(ended.world.out.written()).unwrap_or("");
    let last = told.lines().last().unwrap_or("");
    let status = ended.status;
    let line = format!(in alloc; "{count} bytes: status {status}, {last}\n")?;
    add(page, line.as_str())
}

/// Runs the command over each prefix of the file's bytes. Appends its status and its last line.
pub fn add_cuts<R: Threads + Wait + Sync>(
    rt: &R,
    alloc: Global,
    page: &mut Vec<u8>,
    setting: &Setting,
    device: Device,
    words: &[String],
) -> Result<(), OutOfMemory> {
    let bytes = setting.files.get(device).unwrap_or(&[]);
    for count in 0..=bytes.len() {
        let files = cut_files(alloc, &setting.files, device, count)?;
        let ended = enacted(rt, alloc, setting, &files, None, words)?;
        add_cut(alloc, page, count, &ended)?;
    }
    Ok(())
}
