// The report of a queue's run.
ghost use Rattle.std.specs.Prelude.{◌≡◌, ◌+◌, ◌++◌, List, ◌∷◌, reverse, IfOk, OnOk};
ghost use Rattle.esm_model.specs.declared.entry.Entry.{Entry};
ghost use Rattle.esm_report.specs.Report.{line, calls_text};
ghost use Rattle.esm_queue_model.specs.QueueSetting.{QueueSetting};
ghost use Rattle.esm_queue_model.specs.QueueEntries.{queue_count};
ghost use Rattle.esm_queue_model.specs.QueueStep.{LegalQueue};
ghost use Rattle.esm_queue_model.specs.QueueReport.{queue_text};
ghost use Rattle.esm_report.specs.Queue.{change_text, last_line, queue_report_text};
ghost use Rattle.esm_report.specs.Counts.{message_fate, number_part, counts_text};

use crate::deletions::Deletions;
use crate::ending::Ending;
use crate::output::{push_calls_line, push_last_line, push_texts, stands_alone};
use crate::queue_fates::fates_of;
use esm_event::bytes::push_bytes;
use esm_event::digits::push_decimal;
use esm_journal_state::Says;
use esm_model::{Change, Entry, Fate, OutOfMemory};
use std::alloc::Global;

/// Writes the report of a queue's run whose history is `trace` (oldest entry first) and whose ending is `ending`; `said` is
/// what the journal said when the run opened it. Linear in the entries, the places that they name and the messages that
/// arrived, times the logarithm of the number of deletions in the journal. `OutOfMemory` if an allocation failed.
pub fn queue_report(
    alloc: Global,
    said: &Says,
    trace: &[Entry],
    ending: &Ending,
) -> Result<Vec<u8>, OutOfMemory>
    ensures { IfOk result (λ text. (s : QueueSetting) → s.deletions ≡ said.now.deletions → LegalQueue s (reverse trace.now)
        → text.items ≡ queue_report_text s (reverse trace.now) ending.now) }
{
    let mut out = Vec::new(alloc);
    if stands_alone(ending) {
        push_queue_last_line(&mut out, ending)?;
        return Ok(out);
    }
    push_history(alloc, &mut out, said, trace)?;
    push_queue_last_line(&mut out, ending)?;
    Ok(out)
}

fn push_history(
    alloc: Global,
    out: &mut Vec<u8>,
    said: &Says,
    trace: &[Entry],
) -> Result<(), OutOfMemory>
    ensures { OnOk result ((s : QueueSetting) → s.deletions ≡ said.now.deletions → LegalQueue s (reverse trace.now)
        → out.new.items ≡ out.old.items ++ line (queue_text s (reverse trace.now)) ++ line (calls_text (reverse trace.now))) }
{
    let messages = messages_in(trace)?;
    let given = fates_of(alloc, trace)?;
    let deletions = Deletions {
        found: said,
        given: &given,
    };
    push_messages_line(out, &deletions, messages)?;
    push_calls_line(out, trace)?;
    Ok(())
}

/// Returns how many messages arrived. Places have 32 bits; a larger count would not fit into memory and is reported as such.
fn messages_in(trace: &[Entry]) -> Result<u32, OutOfMemory>
    ensures { IfOk result (λ count. count ≡ queue_count (reverse trace.now)) }
{
    let mut messages = 0u32;
    for entry in trace {
        let Some(after) = messages.checked_add(messages_with(entry)) else {
            return Err(OutOfMemory);
        };
        messages = after;
    }
    Ok(messages)
}

fn messages_with(entry: &Entry) -> u32
    ensures { (h : List Entry) → queue_count (entry.now ∷ h) ≡ result + queue_count h }
{
    match entry {
        Entry::Came { shard, count, .. } if *shard == 0 => *count,
        _ => 0,
    }
}

fn push_messages_line(
    out: &mut Vec<u8>,
    deletions: &Deletions<'_>,
    messages: u32,
) -> Result<(), OutOfMemory>
    ensures { OnOk result (out.new.items ≡ out.old.items ++ line (counts_text messages (message_fate deletions.now))) }
{
    push_counts(out, deletions, messages)?;
    push_bytes(out, b"\n")?;
    Ok(())
}

fn push_counts(
    out: &mut Vec<u8>,
    deletions: &Deletions<'_>,
    messages: u32,
) -> Result<(), OutOfMemory>
    ensures { OnOk result (out.new.items ≡ out.old.items ++ counts_text messages (message_fate deletions.now)) }
{
    let deleted = deletions.count(messages);
    let succeeded = deletions.count_with(messages, Fate::Succeeded);
    let filtered = deletions.count_with(messages, Fate::Filtered);
    push_number(out, b"queue messages ", messages)?;
    push_number(out, b" deleted ", deleted)?;
    push_number(out, b" succeeded ", succeeded)?;
    push_number(out, b" filtered ", filtered)?;
    Ok(())
}

fn push_number(out: &mut Vec<u8>, words: &[u8], number: u32) -> Result<(), OutOfMemory>
    ensures { OnOk result (out.new.items ≡ out.old.items ++ number_part words.now number) }
{
    push_bytes(out, words)?;
    push_decimal(out, number as u64)?;
    Ok(())
}

fn push_queue_last_line(out: &mut Vec<u8>, ending: &Ending) -> Result<(), OutOfMemory>
    ensures { OnOk result (out.new.items ≡ out.old.items ++ last_line ending.now) }
{
    match ending {
        Ending::StreamChanged(change) => push_change_line(out, change),
        _ => push_last_line(out, ending),
    }
}

fn push_change_line(out: &mut Vec<u8>, change: &Change) -> Result<(), OutOfMemory>
    ensures { OnOk result (out.new.items ≡ out.old.items ++ line (change_text change.now)) }
{
    push_change(out, change)?;
    push_bytes(out, b"\n")?;
    Ok(())
}

fn push_change(out: &mut Vec<u8>, change: &Change) -> Result<(), OutOfMemory>
    ensures { OnOk result (out.new.items ≡ out.old.items ++ change_text change.now) }
{
    push_number(out, b"stream changed queue place ", change.place)?;
    push_texts(out, &change.kept, &change.given)?;
    Ok(())
}
