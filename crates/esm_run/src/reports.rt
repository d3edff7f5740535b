// The reports of a redrive and of a replay.
ghost use Rattle.std.specs.Prelude.{◌≡◌, ◌++◌, reverse, IfOk, OnOk};
ghost use Rattle.esm_redrive_model.specs.RedriveReport.{redrive_text};
ghost use Rattle.esm_redrive_model.specs.RedriveSetting.{RedriveSetting};
ghost use Rattle.esm_redrive_model.specs.RedriveStep.{LegalRedrive};
ghost use Rattle.esm_replay_run.specs.Counts.{counts_text};
ghost use Rattle.esm_report.specs.Queue.{change_text, last_line};
ghost use Rattle.esm_report.specs.Report.{calls_text, line};
ghost use Rattle.esm_run.specs.Reports.{redrive_report_text, replay_report_text};

use esm_event::bytes::push_bytes;
use esm_event::digits::push_decimal;
use esm_journal_state::Says;
use esm_model::{Change, Entry, OutOfMemory};
use esm_redrive_run::messages_text;
use esm_replay_run::{ReplayCounts, push_replay_line};
use esm_report::{Ending, push_calls_line, push_last_line, push_texts, stands_alone};
use std::alloc::Global;

fn push_replay(out: &mut Vec<u8>, counts: &ReplayCounts, trace: &[Entry]) -> Result<(), OutOfMemory>
    ensures { OnOk result (out.new.items ≡ out.old.items ++ line (counts_text counts.now) ++ line (calls_text (reverse trace.now))) }
{
    push_replay_line(out, counts)?;
    push_calls_line(out, trace)?;
    Ok(())
}

/// Writes the report of a replay with these counts of records, whose history is `trace` (oldest entry first), and which
/// ended so.
pub fn replay_report(
    alloc: Global,
    counts: &ReplayCounts,
    trace: &[Entry],
    ending: &Ending,
) -> Result<Vec<u8>, OutOfMemory>
    ensures { IfOk result (λ text. text.items ≡ replay_report_text counts.now (reverse trace.now) ending.now) }
{
    let mut out = Vec::new(alloc);
    if stands_alone(ending) {
        push_last_line(&mut out, ending)?;
        return Ok(out);
    }
    push_replay(&mut out, counts, trace)?;
    push_last_line(&mut out, ending)?;
    Ok(out)
}

fn push_change(out: &mut Vec<u8>, change: &Change) -> Result<(), OutOfMemory>
    ensures { OnOk result (out.new.items ≡ out.old.items ++ line (change_text change.now)) }
{
    push_bytes(out, b"stream changed queue place ")?;
    push_decimal(out, change.place as u64)?;
    push_texts(out, &change.kept, &change.given)?;
    push_bytes(out, b"\n")?;
    Ok(())
}

/// Appends the last line of a redrive's report, in which a message that changed is one of a queue.
fn push_redrive_end(out: &mut Vec<u8>, ending: &Ending) -> Result<(), OutOfMemory>
    ensures { OnOk result (out.new.items ≡ out.old.items ++ last_line ending.now) }
{
    match ending {
        Ending::StreamChanged(change) => push_change(out, change),
        _ => push_last_line(out, ending),
    }
}

fn push_messages(
    alloc: Global,
    out: &mut Vec<u8>,
    said: &Says,
    trace: &[Entry],
) -> Result<(), OutOfMemory>
    ensures { OnOk result ((s : RedriveSetting) → s.queue.deletions ≡ said.now.deletions → LegalRedrive s (reverse trace.now)
        → out.new.items ≡ out.old.items ++ line (redrive_text s (reverse trace.now)) ++ line (calls_text (reverse trace.now))) }
{
    let text = messages_text(alloc, said, trace)?;
    push_bytes(out, &text)?;
    push_bytes(out, b"\n")?;
    push_calls_line(out, trace)?;
    Ok(())
}

/// Writes the report of a redrive whose history is `trace` (oldest entry first) and which ended so; `said` is what the
/// journal said before.
pub fn redrive_report(
    alloc: Global,
    said: &Says,
    trace: &[Entry],
    ending: &Ending,
) -> Result<Vec<u8>, OutOfMemory>
    ensures { IfOk result (λ text. (s : RedriveSetting) → s.queue.deletions ≡ said.now.deletions → LegalRedrive s (reverse trace.now)
        → text.items ≡ redrive_report_text s (reverse trace.now) ending.now) }
{
    let mut out = Vec::new(alloc);
    if stands_alone(ending) {
        push_redrive_end(&mut out, ending)?;
        return Ok(out);
    }
    push_messages(alloc, &mut out, said, trace)?;
    push_redrive_end(&mut out, ending)?;
    Ok(out)
}
