// Writing down what a command left: what it printed, its calls, its events and its files.
use crate::script::{Device, Look};
use crate::worlds::MemEnded;
use esm_io::{MemDoor, ScriptCaller};
use esm_model::{Entry, OutOfMemory};
use std::alloc::Global;
use std::str::from_utf8;

/// Appends a text.
pub fn add(page: &mut Vec<u8>, text: &str) -> Result<(), OutOfMemory> {
    page.extend_from_slice(text.as_bytes())?;
    Ok(())
}

/// Appends these bytes as a line: without a second line feed, and nothing if there are no bytes.
pub fn add_told(page: &mut Vec<u8>, told: &[u8]) -> Result<(), OutOfMemory> {
    page.extend_from_slice(told)?;
    match told.last() {
        Some(b'\n') => Ok(()),
        Some(_) => add(page, "\n"),
        None => Ok(()),
    }
}

/// Appends what a command printed, and its status.
pub fn add_ended(alloc: Global, page: &mut Vec<u8>, ended: &MemEnded) -> Result<(), OutOfMemory> {
    add_told(page, ended.world.out.written())?;
    let status = ended.status;
    let line = format!(in alloc; "status {status}\n")?;
    add(page, line.as_str())
}

/// Appends when a call began, its number of records, and the places of the first and the last one.
fn add_call(
    alloc: Global,
    page: &mut Vec<u8>,
    moment: u64,
    places: &[u32],
) -> Result<(), OutOfMemory> {
    let count = places.len();
    let line = match places {
        [] => format!(in alloc; "at {moment}: no record\n")?,
        [place] => format!(in alloc; "at {moment}: 1 record, place {place}\n")?,
        [first, .., last] => {
            format!(in alloc; "at {moment}: {count} records, places {first} to {last}\n")?
        }
    };
    add(page, line.as_str())
}

fn add_calls(alloc: Global, page: &mut Vec<u8>, trace: &[Entry]) -> Result<(), OutOfMemory> {
    for entry in trace {
        if let Entry::Began { places, moment, .. } = entry {
            add_call(alloc, page, *moment, places.as_slice())?;
        }
    }
    Ok(())
}

/// Appends each event of a caller.
fn add_events_of(page: &mut Vec<u8>, caller: &ScriptCaller) -> Result<(), OutOfMemory> {
    for called in caller.log().unwrap_or(&[]) {
        add_told(page, called.event.as_slice())?;
    }
    Ok(())
}

fn add_events(page: &mut Vec<u8>, callers: &[ScriptCaller]) -> Result<(), OutOfMemory> {
    for caller in callers {
        add_events_of(page, caller)?;
    }
    Ok(())
}

/// Appends the length in bytes of each event of a caller.
fn add_sizes_of(
    alloc: Global,
    page: &mut Vec<u8>,
    caller: &ScriptCaller,
) -> Result<(), OutOfMemory> {
    for called in caller.log().unwrap_or(&[]) {
        let count = called.event.as_slice().len();
        let line = format!(in alloc; "{count}\n")?;
        add(page, line.as_str())?;
    }
    Ok(())
}

fn add_sizes(
    alloc: Global,
    page: &mut Vec<u8>,
    callers: &[ScriptCaller],
) -> Result<(), OutOfMemory> {
    for caller in callers {
        add_sizes_of(alloc, page, caller)?;
    }
    Ok(())
}

/// Appends the answer to each connection, without its carriage returns.
fn add_answers(alloc: Global, page: &mut Vec<u8>, door: &MemDoor) -> Result<(), OutOfMemory> {
    for link in door.closed() {
        let text = from_utf8(link.written()).unwrap_or("");
        let text = text.replace(alloc, "\r", "")?;
        if text.is_empty() {
            add(page, "no answer\n")?;
        } else {
            add_told(page, text.as_bytes())?;
        }
    }
    Ok(())
}

/// The file of this name as a command left it; `None` if the device is not a file.
pub fn file_of(ended: &MemEnded, device: Device) -> Option<&[u8]> {
    match device {
        Device::Journal => Some(ended.world.journal.bytes()),
        Device::Spare => Some(ended.world.spare.bytes()),
        Device::Failures => Some(ended.world.failures.bytes()),
        Device::Registry => Some(ended.world.registry.bytes()),
        _ => None,
    }
}

fn add_bytes(
    alloc: Global,
    page: &mut Vec<u8>,
    ended: &MemEnded,
    device: Device,
) -> Result<(), OutOfMemory> {
    let bytes = file_of(ended, device).unwrap_or(&[]);
    let line = hex::encode(alloc, bytes)?;
    add(page, line.as_str())?;
    add(page, "\n")
}

/// Appends what the line looks at.
pub fn add_look(
    alloc: Global,
    page: &mut Vec<u8>,
    ended: &MemEnded,
    look: Look,
) -> Result<(), OutOfMemory> {
    match look {
        Look::Calls => add_calls(alloc, page, ended.world.trace.as_slice()),
        Look::Events => add_events(page, ended.world.callers.as_slice()),
        Look::Sizes => add_sizes(alloc, page, ended.world.callers.as_slice()),
        Look::Entries => {
            let count = ended.world.trace.len();
            let line = format!(in alloc; "{count}\n")?;
            add(page, line.as_str())
        }
        Look::Bytes(device) => add_bytes(alloc, page, ended, device),
        Look::Answered => add_answers(alloc, page, &ended.world.door),
    }
}
