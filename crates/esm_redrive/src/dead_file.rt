// Reading the messages of the dead-letter file, and their ids.
ghost use Rattle.std.specs.Prelude.{◌≡◌, ℕ, ◌<◌, ◌≤◌, ◌||◌, List, [], ◌∷◌, length, option_map, IfOk, IfErr, OnOk};
ghost use Rattle.std.specs.List.{list_any};
ghost use Rattle.std.specs.String.{string_bytes};
ghost use Rattle.std.specs.BTreeSet.{contains_text};
ghost use Rattle.esm_record.specs.Input.{is_line_feed};
ghost use Rattle.esm_redrive_model.specs.RedriveSetting.{stands_among, HaveSameIds};
ghost use Rattle.esm_redrive.specs.DeadFile.{AreItemsAlone, message_in, dead_message, dead_id, dead_ids, AreLetters, IsNoFile};

use esm_model::{Bytes, Item, LineKind, Message, OutOfMemory, Text};
use esm_record::Lines;
use std::alloc::Global;
use std::collections::BTreeSet;
use std::marker::Model;

/// The ids of the messages of a dead-letter file, each once; a look-up takes logarithmic time.
#[derive(Drop, Debug)]
pub struct DeadIds {
    ids: BTreeSet<String>,
}

impl Model for DeadIds {
    ghost use Rattle.std.specs.Prelude.{ℕ, List};
    ghost use Rattle.esm_redrive.specs.DeadFile.{ids_in};

    ghost Value = { List (List ℕ) };

    ghost view = { λ d. ids_in d.ids };
}

impl DeadIds {
    /// Whether the id is one of them. Takes no memory.
    pub fn contains(&self, id: &Text) -> bool
        ensures { result ≡ stands_among self.now id.now }
    {
        self.ids.contains(id.as_str())
    }
}

/// Why the ids of a dead-letter file could not be read.
#[derive(Clone, Copy, Debug, PartialEq, Eq)]
pub enum DeadFileError {
    /// The payload with this index, counted from 0, is the first that is not a line of the queue's kind.
    BadLine(u32),
    OutOfMemory,
}

impl From<OutOfMemory> for DeadFileError {
    ghost use Rattle.std.specs.Prelude.{◌≡◌};
    ghost use Rattle.esm_redrive.specs.declared.dead_file.DeadFileError.{DeadFileError};

    ghost from_gives = { λ _ e. e ≡ DeadFileError.OutOfMemory };

    fn from(_: OutOfMemory) -> Self {
        DeadFileError::OutOfMemory
    }
}

fn has_line_feed(payload: &[u8]) -> bool
    ensures { result ≡ list_any is_line_feed payload.now }
{
    payload.iter().any(|byte| *byte == b'\n')
}

/// The items that the payload reads as on its own.
fn items_alone(alloc: Global, fifo: bool, payload: &[u8]) -> Result<Vec<Item>, OutOfMemory>
    ensures { IfOk result (λ items. AreItemsAlone fifo payload.now items.items) }
{
    let mut lines = Lines::new(alloc, LineKind::Queue { fifo })?;
    let _ = lines.feed(payload)?;
    let fed = lines.finish()?;
    Ok(fed.items)
}

/// The message of an item, if it has one.
fn message_of(item: Item) -> Option<Message>
    ensures { result ≡ message_in (item ∷ []) }
{
    match item {
        Item::Queue(message) => Some(message),
        Item::Stream(_) => None,
    }
}

/// The message of the only item, if there is one.
fn only_message(mut items: Vec<Item>) -> Option<Message>
    requires { length items.items ≤ 1 }
    ensures { result ≡ message_in items.items }
{
    match items.pop() {
        None => None,
        Some(item) => message_of(item),
    }
}

/// Returns the message of a payload of the dead-letter file; `None` if and only if the payload, on its own, is not one
/// good line of the queue's kind.
pub fn dead_message(
    alloc: Global,
    fifo: bool,
    payload: &[u8],
) -> Result<Option<Message>, OutOfMemory>
    ensures { IfOk result (λ message. message ≡ dead_message fifo payload.now) }
{
    if has_line_feed(payload) {
        return Ok(None);
    }
    let items = items_alone(alloc, fifo, payload)?;
    Ok(only_message(items))
}

/// The id of the message of a payload, if it has one.
fn dead_id(alloc: Global, fifo: bool, payload: &[u8]) -> Result<Option<String>, OutOfMemory>
    ensures { IfOk result (λ id. option_map string_bytes id ≡ dead_id fifo payload.now) }
{
    match dead_message(alloc, fifo, payload)? {
        Some(message) => Ok(Some(String::from_str(alloc, message.id.as_str())?)),
        None => Ok(None),
    }
}

fn add_id(ids: &mut BTreeSet<String>, id: String) -> Result<(), OutOfMemory>
    ensures { OnOk result ((it : List ℕ) → contains_text ids.new it ≡ (stands_among (string_bytes id ∷ []) it || contains_text ids.old it)) }
{
    let _ = ids.insert(id)?;
    Ok(())
}

/// Returns the ids of the messages of a dead-letter file. `BadLine` names the first payload without a message.
pub fn dead_ids(alloc: Global, fifo: bool, payloads: &[Bytes]) -> Result<DeadIds, DeadFileError>
    requires few { length payloads.now < u32.MAX }
    ensures ids { IfOk result (λ ids. HaveSameIds ids (dead_ids fifo payloads.now)) }
    ensures good { OnOk result (AreLetters fifo payloads.now (length payloads.now)) }
    ensures bad { IfErr result (IsNoFile fifo payloads.now) }
{
    let mut ids = BTreeSet::new(alloc);
    for place in 0..payloads.len() {
        let found = dead_id(alloc, fifo, payloads[place].as_slice())?;
        match found {
            None => return Err(DeadFileError::BadLine(place as u32)),
            Some(id) => add_id(&mut ids, id)?,
        }
    }
    Ok(DeadIds { ids })
}
