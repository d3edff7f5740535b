// Carrying out the lines of the text, one after the other, and writing down what they print.
use crate::looks::{add, add_ended, add_look};
use crate::script::{Deed, Line};
use crate::settings::{Files, Setting, set};
use crate::tables::{Stops, add_cuts, add_each, add_stops};
use crate::texts::words_of;
use crate::worlds::{MemEnded, enacted};
use esm_io::Clock;
use esm_model::OutOfMemory;
use std::alloc::Global;
use std::sync::Wait;
use std::thread::Threads;

/// A name that stands for a text.
#[derive(Drop)]
struct Named {
    name: String,
    text: String,
}

/// The state of the text: its names, the world of the example, and what the last command left.
#[derive(Drop)]
pub struct Stage {
    names: Vec<Named>,
    setting: Setting,
    last: Option<MemEnded>,
    /// Whether an example has begun.
    begun: bool,
}

impl Stage {
    pub fn new(alloc: Global) -> Result<Stage, OutOfMemory> {
        Ok(Stage {
            names: Vec::new(alloc),
            setting: Setting::new(alloc)?,
            last: None,
            begun: false,
        })
    }

    /// Returns the line with each name replaced by its text, in the order in which the names were given.
    pub fn written_out(&self, alloc: Global, line: &str) -> Result<String, OutOfMemory> {
        let mut line = String::from_str(alloc, line)?;
        for named in &self.names {
            line = line
                .as_str()
                .replace(alloc, named.name.as_str(), named.text.as_str())?;
        }
        Ok(line)
    }

    /// Gives the text this name.
    fn call(&mut self, alloc: Global, name: &str, text: &str) -> Result<(), OutOfMemory> {
        let name = String::from_str(alloc, name)?;
        let text = String::from_str(alloc, text)?;
        self.names.push(Named { name, text })?;
        Ok(())
    }

    /// Begins an example, in a new world.
    fn begin(&mut self, alloc: Global, page: &mut Vec<u8>, line: &str) -> Result<(), OutOfMemory> {
        if self.begun {
            add(page, "\n")?;
        }
        add_line(page, line)?;
        self.setting = Setting::new(alloc)?;
        self.last = None;
        self.begun = true;
        Ok(())
    }
}

/// Adds a line as the text has it.
fn add_line(page: &mut Vec<u8>, line: &str) -> Result<(), OutOfMemory> {
    add(page, line)?;
    add(page, "\n")
}

/// The bytes of the files as a command left them.
fn files_of(alloc: Global, ended: &MemEnded) -> Result<Files, OutOfMemory> {
    let world = &ended.world;
    Ok(Files {
        journal: Vec::from_slice(alloc, world.journal.bytes())?,
        spare: Vec::from_slice(alloc, world.spare.bytes())?,
        failures: Vec::from_slice(alloc, world.failures.bytes())?,
        registry: Vec::from_slice(alloc, world.registry.bytes())?,
    })
}

/// Keeps the files and the moment as a command left them, for the next one.
fn keep(alloc: Global, setting: &mut Setting, ended: &MemEnded) -> Result<(), OutOfMemory> {
    setting.files = files_of(alloc, ended)?;
    setting.moment = ended.world.clock.now();
    setting.connections = Vec::new(alloc);
    setting.fault = None;
    Ok(())
}

/// Carries out the command of the words, and writes down what it printed.
fn command<R: Threads + Wait + Sync>(
    rt: &R,
    alloc: Global,
    stage: &mut Stage,
    page: &mut Vec<u8>,
    words: &[String],
) -> Result<(), OutOfMemory> {
    let setting = &mut stage.setting;
    let ended = enacted(rt, alloc, setting, &setting.files, setting.fault, words)?;
    keep(alloc, setting, &ended)?;
    add_ended(alloc, page, &ended)?;
    stage.last = Some(ended);
    Ok(())
}

/// Carries out what a line requires, and writes it down.
fn carry_out<R: Threads + Wait + Sync>(
    rt: &R,
    alloc: Global,
    stage: &mut Stage,
    page: &mut Vec<u8>,
    deed: Deed<'_>,
) -> Result<(), OutOfMemory> {
    match deed {
        Deed::Command(words) => {
            let words = words_of(alloc, words)?;
            command(rt, alloc, stage, page, words.as_slice())
        }
        Deed::Each { device, words } => {
            let words = words_of(alloc, words)?;
            add_each(rt, alloc, page, &stage.setting, device, words.as_slice())
        }
        Deed::Stops {
            device,
            words,
            then,
        } => {
            let words = words_of(alloc, words)?;
            let then = words_of(alloc, then)?;
            let stops = Stops {
                device,
                words: words.as_slice(),
                then: then.as_slice(),
            };
            add_stops(rt, alloc, page, &stage.setting, stops)
        }
        Deed::Cuts { device, words } => {
            let words = words_of(alloc, words)?;
            add_cuts(rt, alloc, page, &stage.setting, device, words.as_slice())
        }
    }
}

/// Applies or carries out the line, which reads `text` in the examples, and writes down what it prints.
pub fn play<R: Threads + Wait + Sync>(
    rt: &R,
    alloc: Global,
    stage: &mut Stage,
    page: &mut Vec<u8>,
    line: Line<'_>,
    text: &str,
) -> Result<(), OutOfMemory> {
    match line {
        Line::Nothing => Ok(()),
        Line::Example => stage.begin(alloc, page, text),
        Line::Name { name, text } => stage.call(alloc, name, text),
        Line::Given(given) => set(alloc, &mut stage.setting, given),
        Line::Deed(deed) => {
            add_line(page, text)?;
            carry_out(rt, alloc, stage, page, deed)
        }
        Line::Look(look) => {
            add_line(page, text)?;
            match &stage.last {
                Some(ended) => add_look(alloc, page, ended, look),
                None => Ok(()),
            }
        }
    }
}
