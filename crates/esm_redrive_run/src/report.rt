// Writing the line of a redrive's report on its messages.
ghost use Rattle.std.specs.Prelude.{◌≡◌, ◌+◌, ◌++◌, ℕ, ◌==◌, ◌&&◌, List, ◌∷◌, Some, None, get_or, length, filter, is_some, reverse, IfOk, OnOk, if◌then◌else◌};
ghost use Rattle.std.specs.Option.{option_or};
ghost use Rattle.esm_model.specs.declared.entry.Entry.{Entry};
ghost use Rattle.esm_model.specs.Entries.{holds};
ghost use Rattle.esm_model.specs.Fates.{below, is_fate};
ghost use Rattle.esm_queue_model.specs.QueueEntries.{queue_count};
ghost use Rattle.esm_report.specs.Counts.{AreGiven, told_fate, number_part};
ghost use Rattle.esm_redrive_model.specs.RedriveSetting.{RedriveSetting};
ghost use Rattle.esm_redrive_model.specs.RedriveStep.{LegalRedrive};
ghost use Rattle.esm_redrive_model.specs.RedriveReport.{redrive_text};
ghost use Rattle.esm_redrive_run.specs.Report.{message_fate, redrive_counts};

use esm_event::bytes::push_bytes;
use esm_event::digits::push_decimal;
use esm_journal_state::Says;
use esm_model::{Entry, Fate, OutOfMemory, Places};
use esm_report::fates::{Fates, is_fate};
use std::alloc::Global;

/// Returns the line of the report of a redrive whose history is `trace`, oldest entry first, and whose journal said
/// `said` at opening: how many messages arrived, how many are deleted, and how many of these succeeded, were filtered and
/// were moved, including found ones; without the line feed. The time is linear in the entries, the places that they name
/// and the messages, times the logarithm of the number of found deletions.
pub fn messages_text(alloc: Global, said: &Says, trace: &[Entry]) -> Result<Vec<u8>, OutOfMemory>
    ensures { IfOk result (λ text. (s : RedriveSetting) → s.queue.deletions ≡ said.now.deletions → LegalRedrive s (reverse trace.now)
        → text.items ≡ redrive_text s (reverse trace.now)) }
{
    let messages = messages_in(trace)?;
    let given = fates_of(alloc, trace)?;
    let deletions = Deletions {
        found: said,
        given: &given,
    };
    let mut out = Vec::new(alloc);
    push_counts(&mut out, &deletions, messages)?;
    Ok(out)
}

/// The fates of a queue's messages: that of a found deletion, or else the one that the history gave.
#[derive(Drop)]
struct Deletions<'a> {
    found: &'a Says,
    given: &'a Fates,
}

impl Deletions<'_> {
    /// How many of the first messages are deleted.
    fn count(&self, messages: u32) -> u32
        ensures { result ≡ length (filter (λ i. is_some (message_fate self.now i)) (below messages)) }
    {
        let mut total = 0;
        for place in 0..messages {
            if self.at(place).is_some() {
                total += 1;
            }
        }
        total
    }

    /// How many of the first messages are deleted with this fate.
    fn count_with(&self, messages: u32, fate: Fate) -> u32
        ensures { result ≡ length (filter (λ i. is_fate fate (message_fate self.now i)) (below messages)) }
    {
        let mut total = 0;
        for place in 0..messages {
            if is_fate(fate, self.at(place)) {
                total += 1;
            }
        }
        total
    }

    fn at(&self, place: u32) -> Option<Fate>
        ensures { result ≡ message_fate self.now place }
    {
        match found_at(self.found, place) {
            None => self.given.get(place),
            Some(fate) => Some(fate),
        }
    }
}

fn found_at(found: &Says, place: u32) -> Option<Fate>
    ensures { result ≡ told_fate found.now place }
{
    match found.deleted(place) {
        None => None,
        Some(told) => Some(told.fate),
    }
}

/// The number of messages that arrived. More of them than 32 bits count do not fit into memory.
fn messages_in(trace: &[Entry]) -> Result<u32, OutOfMemory>
    ensures { IfOk result (λ count. count ≡ queue_count (reverse trace.now)) }
{
    let mut messages = 0u32;
    for entry in trace {
        let Some(after) = messages.checked_add(messages_with(entry)) else {
            return Err(OutOfMemory);
        };
        messages = after;
    }
    Ok(messages)
}

fn messages_with(entry: &Entry) -> u32
    ensures { (h : List Entry) → queue_count (entry.now ∷ h) ≡ result + queue_count h }
{
    match entry {
        Entry::Came { shard, count, .. } if *shard == 0 => *count,
        _ => 0,
    }
}

/// The fates that the history gave, by the place of the message; the history is oldest entry first.
fn fates_of(alloc: Global, trace: &[Entry]) -> Result<Fates, OutOfMemory>
    ensures { IfOk result (λ fates. AreGiven fates (reverse trace.now)) }
{
    let mut fates = Fates::new(alloc);
    for entry in trace {
        add(&mut fates, entry)?;
    }
    Ok(fates)
}

/// Adds one more entry of the history.
fn add(fates: &mut Fates, entry: &Entry) -> Result<(), OutOfMemory>
    ensures { OnOk result ((h : List Entry) → AreGiven fates.old h → AreGiven fates.new (entry.now ∷ h)) }
{
    match entry {
        Entry::Gave {
            shard,
            places,
            fate,
            ..
        } => give(fates, *shard, places, *fate),
        _ => Ok(()),
    }
}

/// Gives this fate to those of the places that have none, if the shard is 0, which a queue is.
fn give(fates: &mut Fates, shard: u64, places: &Places, fate: Fate) -> Result<(), OutOfMemory>
    ensures { OnOk result ((i : ℕ) → get_or fates.new i None
        ≡ option_or (get_or fates.old i None) (if (shard == 0) && holds places.now i then Some fate else None)) }
{
    if shard == 0 {
        return fates.give_all(places, fate);
    }
    Ok(())
}

fn push_counts(
    out: &mut Vec<u8>,
    deletions: &Deletions<'_>,
    messages: u32,
) -> Result<(), OutOfMemory>
    ensures { OnOk result (out.new.items ≡ out.old.items ++ redrive_counts messages (message_fate deletions.now)) }
{
    let deleted = deletions.count(messages);
    let succeeded = deletions.count_with(messages, Fate::Succeeded);
    let filtered = deletions.count_with(messages, Fate::Filtered);
    let moved = deletions.count_with(messages, Fate::Exhausted);
    push_number(out, b"queue messages ", messages)?;
    push_number(out, b" deleted ", deleted)?;
    push_number(out, b" succeeded ", succeeded)?;
    push_number(out, b" filtered ", filtered)?;
    push_number(out, b" moved ", moved)?;
    Ok(())
}

fn push_number(out: &mut Vec<u8>, words: &[u8], number: u32) -> Result<(), OutOfMemory>
    ensures { OnOk result (out.new.items ≡ out.old.items ++ number_part words.now number) }
{
    push_bytes(out, words)?;
    push_decimal(out, number as u64)?;
    Ok(())
}
