// What the files of a world hold: the fates that the journal records, and the failure lines.
use crate::settings::Files;
use esm_fixtures::disk;
use esm_io::MemDisk;
use esm_journal::{Journal, OpenError, Pair};
use esm_journal_state::{Says, SaysError, says};
use esm_model::{Entry, OutOfMemory};
use std::alloc::Global;

/// What a journal's payloads say; `None` if one of them is bad.
fn said_by(alloc: Global, pair: &Pair<MemDisk>) -> Result<Option<Says>, OutOfMemory> {
    match says(alloc, pair.payloads()) {
        Ok(said) => Ok(Some(said)),
        Err(SaysError::BadPayload(_)) => Ok(None),
        Err(SaysError::OutOfMemory) => Err(OutOfMemory),
    }
}

/// What the journal says; `None` if it is not a journal of version 2, or has a bad payload.
pub fn said_in(alloc: Global, files: &Files) -> Result<Option<Says>, OutOfMemory> {
    let journal = disk(alloc, files.journal.as_slice(), &[])?;
    let spare = disk(alloc, files.spare.as_slice(), &[])?;
    match Pair::open(alloc, journal, spare) {
        Ok(pair) => said_by(alloc, &pair),
        Err(refused) => match refused.why {
            OpenError::OutOfMemory => Err(OutOfMemory),
            _ => Ok(None),
        },
    }
}

/// Whether the journal says that the command has nothing more to call at the place: a replay calls no record that was
/// replayed, a redrive no message that is deleted, and every other command no record that has a fate.
fn is_over(said: &Says, command: &str, shard: u64, place: u32) -> bool {
    match command {
        "replay" => said.replayed(shard, place),
        "redrive" => said.deleted(place).is_some(),
        _ => said.fate(shard, place).is_some(),
    }
}

/// At how many of these places the command has nothing more to call.
fn over_among(said: &Says, command: &str, shard: u64, places: &[u32]) -> usize {
    let mut count = 0usize;
    for place in places {
        if is_over(said, command, shard, *place) {
            count = count.saturating_add(1);
        }
    }
    count
}

/// How many records the calls of the command's history have that were not to be called any more.
pub fn called_again(said: &Says, command: &str, history: &[Entry]) -> usize {
    let mut count = 0usize;
    for entry in history {
        if let Entry::Began { lane, places, .. } = entry {
            let over = over_among(said, command, lane.shard, places.as_slice());
            count = count.saturating_add(over);
        }
    }
    count
}

/// How many failure lines a file has, or 0 if it is not a journal.
pub fn failure_lines(alloc: Global, bytes: &[u8]) -> Result<usize, OutOfMemory> {
    match Journal::open(alloc, disk(alloc, bytes, &[])?) {
        Ok(journal) => Ok(journal.payloads().len()),
        Err(refused) => match refused.why {
            OpenError::OutOfMemory => Err(OutOfMemory),
            _ => Ok(0),
        },
    }
}
