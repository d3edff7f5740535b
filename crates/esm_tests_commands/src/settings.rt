// The world of an example as its lines have set it so far, and the bytes of its files.
use crate::script::{Device, Fault, Given};
use crate::texts::padded;
use esm_fixtures::{FRESH, NO_LINES, SPARE};
use esm_model::OutOfMemory;
use std::alloc::Global;

/// The bytes of the four files.
#[derive(Drop)]
pub struct Files {
    pub journal: Vec<u8>,
    pub spare: Vec<u8>,
    pub failures: Vec<u8>,
    pub registry: Vec<u8>,
}

impl Files {
    fn empty(alloc: Global) -> Files {
        Files {
            journal: Vec::new(alloc),
            spare: Vec::new(alloc),
            failures: Vec::new(alloc),
            registry: Vec::new(alloc),
        }
    }

    /// The files as `init` makes them.
    fn fresh(alloc: Global) -> Result<Files, OutOfMemory> {
        Ok(Files {
            journal: Vec::from_slice(alloc, &FRESH)?,
            spare: Vec::from_slice(alloc, &SPARE)?,
            failures: Vec::from_slice(alloc, &NO_LINES)?,
            registry: Vec::from_slice(alloc, &NO_LINES)?,
        })
    }

    pub fn copy(&self, alloc: Global) -> Result<Files, OutOfMemory> {
        Ok(Files {
            journal: Vec::from_slice(alloc, self.journal.as_slice())?,
            spare: Vec::from_slice(alloc, self.spare.as_slice())?,
            failures: Vec::from_slice(alloc, self.failures.as_slice())?,
            registry: Vec::from_slice(alloc, self.registry.as_slice())?,
        })
    }

    /// The file of this name; `None` if the device is not a file.
    pub fn get(&self, device: Device) -> Option<&[u8]> {
        match device {
            Device::Journal => Some(self.journal.as_slice()),
            Device::Spare => Some(self.spare.as_slice()),
            Device::Failures => Some(self.failures.as_slice()),
            Device::Registry => Some(self.registry.as_slice()),
            _ => None,
        }
    }

    /// Gives the file of this name these bytes; does nothing if the device is not a file.
    pub fn set(&mut self, device: Device, bytes: Vec<u8>) {
        match device {
            Device::Journal => self.journal = bytes,
            Device::Spare => self.spare = bytes,
            Device::Failures => self.failures = bytes,
            Device::Registry => self.registry = bytes,
            _ => {}
        }
    }
}

/// An answer of the function, without the function error.
#[derive(Drop)]
pub struct Answer {
    pub status: u16,
    pub body: Vec<u8>,
}

/// What the function answers.
#[derive(Drop)]
pub enum Functions {
    /// These answers in order, and then status 200 with no body.
    Answer(Vec<Answer>),
    /// The function error if the event has the text, otherwise status 200 with no body.
    Fail(Vec<u8>),
}

/// The world of an example between its commands.
#[derive(Drop)]
pub struct Setting {
    /// The bytes of the input; each command reads them from their beginning.
    pub input: Vec<u8>,
    pub files: Files,
    /// Milliseconds since 1970.
    pub moment: u64,
    pub functions: Functions,
    /// What the connections of the next command send.
    pub connections: Vec<String>,
    /// The call that fails in the next command.
    pub fault: Option<Fault>,
}

impl Setting {
    /// Makes a world without input and connections, with files as `init` makes them, at moment 0, in which the function
    /// succeeds.
    pub fn new(alloc: Global) -> Result<Setting, OutOfMemory> {
        Ok(Setting {
            input: Vec::new(alloc),
            files: Files::fresh(alloc)?,
            moment: 0,
            functions: Functions::Answer(Vec::new(alloc)),
            connections: Vec::new(alloc),
            fault: None,
        })
    }
}

/// Appends lines to the input, one for each of the numbers, which replaces each `%` of the text.
fn add_many(
    alloc: Global,
    input: &mut Vec<u8>,
    numbers: (u64, u64),
    digits: usize,
    text: &str,
) -> Result<(), OutOfMemory> {
    for number in numbers.0..=numbers.1 {
        let number = padded(alloc, number, digits)?;
        let line = text.replace(alloc, "%", number.as_str())?;
        input.extend_from_slice(line.as_bytes())?;
        input.extend_from_slice(b"\n")?;
    }
    Ok(())
}

/// Appends an answer to those of the function; a function that failed answers from now on.
fn add_answer(
    alloc: Global,
    functions: &mut Functions,
    status: u16,
    body: &str,
) -> Result<(), OutOfMemory> {
    let body = Vec::from_slice(alloc, body.as_bytes())?;
    let answer = Answer { status, body };
    match functions {
        Functions::Answer(answers) => answers.push(answer)?,
        Functions::Fail(_) => {
            let mut answers = Vec::new(alloc);
            answers.push(answer)?;
            *functions = Functions::Answer(answers);
        }
    }
    Ok(())
}

/// What a connection sends; its text has the escapes `\r` and `\n`.
fn unescaped(alloc: Global, text: &str) -> Result<String, OutOfMemory> {
    let text = text.replace(alloc, "\\r", "\r")?;
    Ok(text.as_str().replace(alloc, "\\n", "\n")?)
}

/// Applies what a line says of the input.
fn set_input(alloc: Global, input: &mut Vec<u8>, given: Given<'_>) -> Result<(), OutOfMemory> {
    match given {
        Given::InputLine(text) => {
            input.extend_from_slice(text.as_bytes())?;
            input.extend_from_slice(b"\n")?;
        }
        Given::InputPart(text) => input.extend_from_slice(text.as_bytes())?,
        Given::Many {
            first,
            last,
            digits,
            text,
        } => add_many(alloc, input, (first, last), digits, text)?,
        Given::Spaces(count) => input.resize(input.len().saturating_add(count), b' ')?,
        _ => input.clear(),
    }
    Ok(())
}

/// Applies what a line says of the world.
pub fn set(alloc: Global, setting: &mut Setting, given: Given<'_>) -> Result<(), OutOfMemory> {
    match given {
        Given::Bare => setting.files = Files::empty(alloc),
        Given::File { device, hex } => {
            let bytes = hex::decode(alloc, hex).map_err(|_| OutOfMemory)?;
            setting.files.set(device, bytes);
        }
        Given::Succeeds => setting.functions = Functions::Answer(Vec::new(alloc)),
        Given::Answers { status, body } => {
            add_answer(alloc, &mut setting.functions, status, body)?;
        }
        Given::Fails(text) => {
            let text = Vec::from_slice(alloc, text.as_bytes())?;
            setting.functions = Functions::Fail(text);
        }
        Given::Clock(moment) => setting.moment = moment,
        Given::Fault(fault) => setting.fault = Some(fault),
        Given::Connection(text) => setting.connections.push(unescaped(alloc, text)?)?,
        _ => set_input(alloc, &mut setting.input, given)?,
    }
    Ok(())
}
