//! The worked examples of whole commands: the program reads a text of examples from standard input, carries out each of
//! its commands over a world of devices in memory, and prints the commands with their output. The exit status is 0; 2 at
//! a line that has none of the forms, 5 if the output failed, and 70 if memory runs out.
#![tactic(auto)]

mod commands;
mod kept;
mod looks;
mod script;
mod settings;
mod tables;
mod texts;
mod worlds;

use commands::{Stage, play};
use esm_model::OutOfMemory;
use script::read_line;
use std::alloc::Global;
use std::io;
use std::process::ExitCode;
use std::sync::Wait;
use std::thread::Threads;

/// Why the text was not carried out to its end.
enum Stop {
    BadLine,
    OutputFault,
    OutOfMemory,
}

impl Stop {
    /// The exit status.
    fn status(self) -> u8 {
        match self {
            Stop::BadLine => 2,
            Stop::OutputFault => 5,
            Stop::OutOfMemory => 70,
        }
    }
}

impl From<OutOfMemory> for Stop {
    fn from(_: OutOfMemory) -> Self {
        Stop::OutOfMemory
    }
}

/// Prints bytes.
fn print(rt: &impl Print, page: &[u8]) -> Result<(), Stop> {
    match rt.write_all(page) {
        Ok(()) => Ok(()),
        Err(_) => Err(Stop::OutputFault),
    }
}

/// Prints that the line with this number, counted from 0, has none of the forms.
fn bad_line(rt: &impl Print, alloc: Global, index: usize) -> Stop {
    let number = index.saturating_add(1);
    let Ok(line) = format!(in alloc; "bad line {number}\n") else {
        return Stop::OutOfMemory;
    };
    match print(rt, line.as_bytes()) {
        Ok(()) => Stop::BadLine,
        Err(stop) => stop,
    }
}

/// Carries out the line with this number, counted from 0, and prints the result.
fn play_line<R: Threads + Wait + Sync + Print>(
    rt: &R,
    alloc: Global,
    stage: &mut Stage,
    index: usize,
    text: &str,
) -> Result<(), Stop> {
    let written_out = stage.written_out(alloc, text)?;
    let Some(line) = read_line(written_out.as_str()) else {
        return Err(bad_line(rt, alloc, index));
    };
    let mut page = Vec::new(alloc);
    play(rt, alloc, stage, &mut page, line, text)?;
    print(rt, page.as_slice())
}

/// Carries out the lines of the text.
fn play_all<R: Threads + Wait + Sync + Print>(
    rt: &R,
    alloc: Global,
    text: &str,
) -> Result<(), Stop> {
    let mut stage = Stage::new(alloc)?;
    for (index, line) in text.lines().enumerate() {
        play_line(rt, alloc, &mut stage, index, line)?;
    }
    Ok(())
}

fn main(rt: HostRuntime) -> ExitCode {
    let alloc = rt.alloc();
    let Ok(text) = io::read_to_string(alloc, rt.reader()) else {
        return ExitCode::from(Stop::OutOfMemory.status());
    };
    match play_all(&rt, alloc, text.as_str()) {
        Ok(()) => ExitCode::from(0),
        Err(stop) => ExitCode::from(stop.status()),
    }
}
