// Worlds of devices in memory, made from what an example says, and the one call of the program.
ghost use Rattle.std.specs.Prelude.{◌≡◌, [], length, IfOk};
ghost use Rattle.esm_io.specs.Script.{HasNoLost};
ghost use Rattle.esm_model.specs.declared.entry.Reply.TheVariants as Reply;

use crate::script::{Device, Fault};
use crate::settings::{Answer, Files, Functions, Setting};
use esm_io::{MemDisk, MemDoor, MemLink, MemSink, MemSource, Script, ScriptCaller, StepClock};
use esm_model::{Bytes, MAX_LANES, OutOfMemory, Reply};
use esm_run::{Ended, World, esm};
use std::alloc::Global;
use std::sync::Wait;
use std::thread::Threads;

/// How many bytes a read of the input returns at most.
const INPUT_PIECE: usize = 65536;

/// How many bytes a write to the output takes at most.
const OUTPUT_PIECE: usize = 5;

/// How many bytes a call of a connection reads or writes at most.
const LINK_PIECE: usize = 7;

pub type MemWorld = World<MemSource, MemSink, MemDisk, StepClock, ScriptCaller, MemDoor>;

pub type MemEnded = Ended<MemSource, MemSink, MemDisk, StepClock, ScriptCaller, MemDoor>;

/// The numbers of the calls of the device that are to fail.
fn fails(alloc: Global, fault: Option<Fault>, of: Device) -> Result<Vec<u64>, OutOfMemory> {
    let mut numbers = Vec::new(alloc);
    if let Some(Fault { device, call }) = fault
        && device == of
    {
        numbers.push(call)?;
    }
    Ok(numbers)
}

/// The reply with this answer.
fn reply(alloc: Global, answer: &Answer) -> Result<Reply, OutOfMemory>
    ensures { IfOk result (λ reply. reply ≡ Reply.Lost → ⊥) }
{
    let body = Vec::from_slice(alloc, answer.body.as_slice())?;
    Ok(Reply::Answered {
        status: answer.status,
        error: false,
        body: Bytes::from_vec(body),
    })
}

/// A script with these answers in order.
fn in_order(alloc: Global, answers: &[Answer]) -> Result<Script, OutOfMemory>
    ensures { IfOk result HasNoLost }
{
    let mut replies = Vec::new(alloc);
    for answer in answers {
        replies.push(reply(alloc, answer)?)?;
    }
    Ok(Script::Each(replies))
}

fn script(alloc: Global, functions: &Functions) -> Result<Script, OutOfMemory>
    ensures { IfOk result HasNoLost }
{
    match functions {
        Functions::Answer(answers) => in_order(alloc, answers.as_slice()),
        Functions::Fail(text) => {
            let text = Vec::from_slice(alloc, text.as_slice())?;
            Ok(Script::Poison(Bytes::from_vec(text)))
        }
    }
}

/// The caller of a batcher; the first one has the fault.
fn caller(
    alloc: Global,
    functions: &Functions,
    fault: Option<Fault>,
    batcher: usize,
) -> Result<ScriptCaller, OutOfMemory> {
    let fault = if batcher == 0 { fault } else { None };
    let fails = fails(alloc, fault, Device::Caller)?;
    let script = script(alloc, functions)?;
    Ok(ScriptCaller::recording(alloc, script, fails))
}

fn callers(
    alloc: Global,
    functions: &Functions,
    fault: Option<Fault>,
) -> Result<Vec<ScriptCaller>, OutOfMemory>
    ensures { IfOk result (λ callers. length callers.items ≡ MAX_LANES) }
{
    let mut callers = Vec::new(alloc);
    for batcher in 0..MAX_LANES {
        callers.push(caller(alloc, functions, fault, batcher)?)?;
    }
    Ok(callers)
}

/// A door whose connections send these texts.
fn door(alloc: Global, texts: &[String]) -> Result<MemDoor, OutOfMemory> {
    let mut links = Vec::new(alloc);
    for text in texts {
        let bytes = Vec::from_slice(alloc, text.as_bytes())?;
        let link = MemLink::new(alloc, bytes, LINK_PIECE, Vec::new(alloc));
        links.push(link)?;
    }
    Ok(MemDoor::new(alloc, links, Vec::new(alloc)))
}

/// A disk with these bytes; it has the fault if that is of this device.
fn disk(
    alloc: Global,
    bytes: &[u8],
    fault: Option<Fault>,
    device: Device,
) -> Result<MemDisk, OutOfMemory> {
    let bytes = Vec::from_slice(alloc, bytes)?;
    Ok(MemDisk::new(alloc, bytes, fails(alloc, fault, device)?))
}

fn source(alloc: Global, bytes: &[u8], fault: Option<Fault>) -> Result<MemSource, OutOfMemory> {
    let bytes = Vec::from_slice(alloc, bytes)?;
    let fails = fails(alloc, fault, Device::Input)?;
    Ok(MemSource::new(bytes, INPUT_PIECE, fails))
}

fn sink(alloc: Global, fault: Option<Fault>) -> Result<MemSink, OutOfMemory> {
    let fails = fails(alloc, fault, Device::Output)?;
    Ok(MemSink::new(alloc, OUTPUT_PIECE, fails))
}

/// The world of the setting over these files, with this fault.
fn world(
    alloc: Global,
    setting: &Setting,
    files: &Files,
    fault: Option<Fault>,
) -> Result<MemWorld, OutOfMemory>
    ensures callers { IfOk result (λ world. length world.callers.items ≡ MAX_LANES) }
    ensures trace { IfOk result (λ world. world.trace.items ≡ []) }
{
    Ok(World {
        input: source(alloc, setting.input.as_slice(), fault)?,
        out: sink(alloc, fault)?,
        journal: disk(alloc, files.journal.as_slice(), fault, Device::Journal)?,
        spare: disk(alloc, files.spare.as_slice(), fault, Device::Spare)?,
        failures: disk(alloc, files.failures.as_slice(), fault, Device::Failures)?,
        registry: disk(alloc, files.registry.as_slice(), fault, Device::Registry)?,
        clock: StepClock::new(setting.moment),
        callers: callers(alloc, &setting.functions, fault)?,
        door: door(alloc, setting.connections.as_slice())?,
        trace: Vec::new(alloc),
    })
}

/// Runs the command of the words. Only this function makes the top call, so its contract is read once.
fn enact<R: Threads + Wait + Sync>(
    rt: &R,
    alloc: Global,
    words: &[String],
    world: MemWorld,
) -> MemEnded
    requires callers { length world.callers.items ≡ MAX_LANES }
    requires trace { world.trace.items ≡ [] }
{
    esm(rt, alloc, words, world)
}

/// Returns what the command of the words leaves of the setting's world over these files, with this fault.
pub fn enacted<R: Threads + Wait + Sync>(
    rt: &R,
    alloc: Global,
    setting: &Setting,
    files: &Files,
    fault: Option<Fault>,
    words: &[String],
) -> Result<MemEnded, OutOfMemory> {
    let world = world(alloc, setting, files, fault)?;
    Ok(enact(rt, alloc, words, world))
}
