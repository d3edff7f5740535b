// Tests of what a FIFO queue and a standard queue return, call by call.
use esm_fixtures::{message_of, text};
use esm_model::{Message, OutOfMemory};
use esm_queue::Queue;
use std::alloc::{AllocError, Global};
use std::test::Fail;

/// A call of a queue.
#[derive(Clone, Copy)]
enum Call {
    Receive(u64, u32),
    Peek(u64, u32),
    /// The place has to be that of a message.
    Delete(u32),
    Count(u32),
    First(u32),
    Next(u64),
    Id(u32),
}

use Call::{Count, Delete, First, Id, Next, Peek, Receive};

/// A message with this number as its id.
fn message(alloc: Global, number: u32, group: Option<&str>) -> Result<Message, AllocError> {
    let id = number.to_string(alloc)?;
    let mut message = message_of(alloc, id.as_str(), "x")?;
    if let Some(name) = group {
        message.group = Some(text(alloc, name)?);
    }
    Ok(message)
}

/// A queue at which messages of these groups arrived at moment 0, with the ids `0`, `1` and so on.
fn queue_of(alloc: Global, groups: &[Option<&str>]) -> Result<Queue, OutOfMemory> {
    let fifo = groups.iter().any(|group| group.is_some());
    let mut queue = Queue::new(alloc, fifo, 30000)?;
    queue.reserve(alloc, 3)?;
    for group in groups {
        if queue.len() < u32::MAX {
            let message = message(alloc, queue.len(), *group)?;
            queue.came(alloc, message, 0)?;
        }
    }
    Ok(queue)
}

fn listed(alloc: Global, places: &[u32]) -> Result<String, AllocError> {
    let mut line = String::from_str(alloc, "")?;
    for place in places {
        line.push_str(place.to_string(alloc)?.as_str())?;
        line.push_str(" ")?;
    }
    Ok(line)
}

fn told(alloc: Global, number: Option<u64>) -> Result<String, AllocError> {
    match number {
        None => String::from_str(alloc, "none"),
        Some(number) => number.to_string(alloc),
    }
}

fn received(queue: &mut Queue, alloc: Global, now: u64, max: u32) -> Result<String, OutOfMemory> {
    let mut places = Vec::new(alloc);
    for received in &queue.receive(alloc, now, max)? {
        places.push(received.place)?;
    }
    Ok(listed(alloc, &places)?)
}

fn peeked(queue: &Queue, alloc: Global, now: u64, max: u32) -> Result<String, OutOfMemory> {
    let places = queue.peek(alloc, now, max)?;
    Ok(listed(alloc, places.as_slice())?)
}

fn id_of(queue: &Queue, alloc: Global, place: u32) -> Result<String, AllocError> {
    match queue.message(place) {
        None => String::from_str(alloc, "none"),
        Some(message) => String::from_str(alloc, message.id.as_str()),
    }
}

fn deleted(queue: &mut Queue, place: u32) -> bool {
    place < queue.len() && queue.delete(place)
}

/// What the call returns as text: places, each followed by a blank, or one word.
fn answer(queue: &mut Queue, alloc: Global, call: Call) -> Result<String, OutOfMemory> {
    match call {
        Receive(now, max) => received(queue, alloc, now, max),
        Peek(now, max) => peeked(queue, alloc, now, max),
        Delete(place) => Ok(deleted(queue, place).to_string(alloc)?),
        Count(place) => Ok(queue.count(place).to_string(alloc)?),
        First(place) => Ok(told(alloc, queue.first(place))?),
        Next(now) => Ok(told(alloc, queue.next_show(now))?),
        Id(place) => Ok(id_of(queue, alloc, place)?),
    }
}

/// Makes the calls one after the other. Returns whether each returns what its row says.
fn answers(queue: &mut Queue, alloc: Global, rows: &[(Call, &str)]) -> Result<bool, OutOfMemory> {
    for (call, wanted) in rows {
        let line = answer(queue, alloc, *call)?;
        if line.as_str() != *wanted {
            return Ok(false);
        }
    }
    Ok(true)
}

/// Whether the calls of a queue with messages of these groups return what the rows say.
fn are_answered(
    alloc: Global,
    groups: &[Option<&str>],
    rows: &[(Call, &str)],
) -> Result<bool, OutOfMemory> {
    let mut queue = queue_of(alloc, groups)?;
    answers(&mut queue, alloc, rows)
}

const GROUPS: [Option<&str>; 3] = [Some("A"), Some("B"), Some("A")];

#[test]
fn fifo_receive(rt: HostRuntime) -> Result<(), Fail> {
    let rows = [
        (Receive(0, 1), "0 "),
        (Receive(0, 10), "1 "),
        (Receive(30000, 1), "0 "),
        (Count(0), "2"),
        (Delete(0), "true"),
        (Delete(0), "false"),
        (Receive(30000, 10), "1 2 "),
    ];
    assert!(rt; are_answered(rt.alloc(), &GROUPS, &rows)?);
    assert!(rt; are_answered(rt.alloc(), &GROUPS, &[(Receive(0, 10), "0 1 2 ")])?);
    Ok(())
}

#[test]
fn queue_peek(rt: HostRuntime) -> Result<(), Fail> {
    let rows = [
        (Peek(0, 10), "0 1 2 "),
        (Receive(0, 1), "0 "),
        (Peek(0, 10), "1 "),
        (Count(0), "1"),
        (First(0), "0"),
        (First(1), "none"),
        (Next(0), "30000"),
        (Id(2), "2"),
        (Id(3), "none"),
    ];
    assert!(rt; are_answered(rt.alloc(), &GROUPS, &rows)?);
    Ok(())
}

/// A standard queue; a moment may be earlier than the one before it.
#[test]
fn standard_receive(rt: HostRuntime) -> Result<(), Fail> {
    let rows = [
        (Receive(1000, 2), "0 1 "),
        (Delete(1), "true"),
        (Next(1000), "31000"),
        (Next(31000), "none"),
        (Receive(500, 10), "2 "),
        (Next(1000), "30500"),
        (Peek(30499, 10), ""),
        (Peek(30500, 10), "2 "),
        (Peek(31000, 1), "0 "),
        (Receive(31000, 10), "0 2 "),
        (Count(0), "2"),
        (First(0), "1000"),
    ];
    assert!(rt; are_answered(rt.alloc(), &[None, None, None], &rows)?);
    Ok(())
}
