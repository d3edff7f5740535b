// The report of a stream's run.
ghost use Rattle.std.specs.Prelude.{◌≡◌, ◌++◌, List, true, codes, reverse, IfOk, OnOk};
ghost use Rattle.esm_model.specs.declared.entry.Entry.{Entry};
ghost use Rattle.esm_model.specs.Setting.{Setting};
ghost use Rattle.esm_model.specs.Entries.{calls_begun};
ghost use Rattle.esm_model.specs.Numbers.{decimal};
ghost use Rattle.esm_model.specs.Names.{file_name, limit_name};
ghost use Rattle.esm_report.specs.Report.{report_text, shard_lines, calls_text, line, place_part, texts_part, change_text, last_line};
ghost use Rattle.esm_report.specs.Report.{ending_text, stands_alone};
ghost use Rattle.esm_report.specs.Totals.{place_fate, numbers_part, count_part, counts_part, count_text, total_line, total_lines};

use crate::ending::Ending;
use crate::shard::ShardFates;
use crate::totals::{Totals, records_of, totals_of};
use esm_event::bytes::push_bytes;
use esm_event::digits::push_decimal;
use esm_event::record::push_shard_id;
use esm_journal_state::Says;
use esm_model::{Change, Entry, Fate, FileName, LimitName, OutOfMemory, Text};
use std::alloc::Global;

/// Writes the report of a stream's run whose history is `trace` (oldest entry first) and whose ending is `ending`; `said` is
/// what the journal said when the run opened it. Linear in the entries, the places that they name and the records that
/// arrived, times the logarithms of the numbers of shards and of fates in the journal. `OutOfMemory` if an allocation
/// failed.
pub fn report(
    alloc: Global,
    said: &Says,
    trace: &[Entry],
    ending: &Ending,
) -> Result<Vec<u8>, OutOfMemory>
    ensures { IfOk result (λ text. (s : Setting) → s.fates ≡ said.now.fates
        → text.items ≡ report_text s (reverse trace.now) ending.now) }
{
    if stands_alone(ending) {
        return last_line(alloc, ending);
    }
    let mut out = Vec::new(alloc);
    push_history(alloc, &mut out, said, trace)?;
    push_last_line(&mut out, ending)?;
    Ok(out)
}

/// Writes the report if nothing ran: the last line alone.
pub fn last_line(alloc: Global, ending: &Ending) -> Result<Vec<u8>, OutOfMemory>
    requires { stands_alone ending.now ≡ true }
    ensures { IfOk result (λ text. (s : Setting) (h : List Entry) → text.items ≡ report_text s h ending.now) }
{
    let mut text = Vec::new(alloc);
    push_last_line(&mut text, ending)?;
    Ok(text)
}

fn push_history(
    alloc: Global,
    out: &mut Vec<u8>,
    said: &Says,
    trace: &[Entry],
) -> Result<(), OutOfMemory>
    ensures { OnOk result ((s : Setting) → s.fates ≡ said.now.fates → out.new.items ≡ out.old.items
        ++ shard_lines s (reverse trace.now) ++ line (calls_text (reverse trace.now))) }
{
    let totals = totals_of(alloc, trace)?;
    push_totals(out, said, &totals)?;
    push_calls_line(out, trace)?;
    Ok(())
}

/// Appends the line of the calls: how many began in a history (oldest entry first).
pub fn push_calls_line(out: &mut Vec<u8>, trace: &[Entry]) -> Result<(), OutOfMemory>
    ensures { OnOk result (out.new.items ≡ out.old.items ++ line (calls_text (reverse trace.now))) }
{
    push_calls(out, calls_begun(trace))
}

/// Whether the last line is the whole report, because nothing ran.
pub fn stands_alone(ending: &Ending) -> bool
    ensures { result ≡ stands_alone ending.now }
{
    match ending {
        Ending::BadWords
        | Ending::OpenFault
        | Ending::NotAJournal { .. }
        | Ending::Damaged { .. }
        | Ending::BadPayload { .. }
        | Ending::UnknownMapping
        | Ending::DisabledMapping
        | Ending::BadParameter { .. } => true,
        _ => false,
    }
}

fn push_totals(out: &mut Vec<u8>, said: &Says, totals: &Totals) -> Result<(), OutOfMemory>
    ensures { OnOk result (out.new.items ≡ out.old.items ++ total_lines said.now totals.now) }
{
    for shard in &totals.shards {
        push_shard(out, said, totals, *shard)?;
    }
    Ok(())
}

#[tactic(auto, unfolding(crate::specs::Totals::total_line))]
fn push_shard(
    out: &mut Vec<u8>,
    said: &Says,
    totals: &Totals,
    shard: u64,
) -> Result<(), OutOfMemory>
    ensures { OnOk result (out.new.items ≡ out.old.items ++ total_line said.now totals.now shard) }
{
    let records = records_of(&totals.records, shard);
    let fates = ShardFates {
        shard,
        found: said,
        given: totals.fates.get(&shard),
    };
    push_shard_text(out, &fates, records)?;
    push_bytes(out, b"\n")?;
    Ok(())
}

#[tactic(auto, unfolding(crate::specs::Totals::count_text))]
fn push_shard_text(
    out: &mut Vec<u8>,
    fates: &ShardFates<'_>,
    records: u32,
) -> Result<(), OutOfMemory>
    ensures { OnOk result (out.new.items
        ≡ out.old.items ++ count_text fates.now.shard records (place_fate fates.now)) }
{
    push_numbers(out, fates.shard, records, fates.checkpoint(records))?;
    push_counts(out, fates, records)?;
    Ok(())
}

fn push_numbers(
    out: &mut Vec<u8>,
    shard: u64,
    records: u32,
    checkpoint: u32,
) -> Result<(), OutOfMemory>
    ensures { OnOk result (out.new.items ≡ out.old.items ++ numbers_part shard records checkpoint) }
{
    push_bytes(out, b"shard ")?;
    push_shard_id(out, shard)?;
    push_bytes(out, b" records ")?;
    push_decimal(out, records as u64)?;
    push_bytes(out, b" checkpoint ")?;
    push_decimal(out, checkpoint as u64)?;
    Ok(())
}

fn push_counts(out: &mut Vec<u8>, fates: &ShardFates<'_>, records: u32) -> Result<(), OutOfMemory>
    ensures { OnOk result (out.new.items ≡ out.old.items ++ counts_part records (place_fate fates.now)) }
{
    push_count(out, b"succeeded", fates, records, Fate::Succeeded)?;
    push_count(out, b"filtered", fates, records, Fate::Filtered)?;
    push_count(out, b"expired", fates, records, Fate::Expired)?;
    push_count(out, b"exhausted", fates, records, Fate::Exhausted)?;
    Ok(())
}

fn push_count(
    out: &mut Vec<u8>,
    word: &[u8],
    fates: &ShardFates<'_>,
    records: u32,
    fate: Fate,
) -> Result<(), OutOfMemory>
    ensures { OnOk result (out.new.items
        ≡ out.old.items ++ count_part word.now fate records (place_fate fates.now)) }
{
    push_bytes(out, b" ")?;
    push_bytes(out, word)?;
    push_bytes(out, b" ")?;
    push_decimal(out, fates.count(records, fate) as u64)?;
    Ok(())
}

fn push_calls(out: &mut Vec<u8>, calls: u64) -> Result<(), OutOfMemory>
    ensures { OnOk result (out.new.items ≡ out.old.items ++ line (codes "calls " ++ decimal calls)) }
{
    push_bytes(out, b"calls ")?;
    push_decimal(out, calls)?;
    push_bytes(out, b"\n")?;
    Ok(())
}

/// Returns how many calls began.
fn calls_begun(trace: &[Entry]) -> u64
    ensures { result ≡ calls_begun (reverse trace.now) }
{
    let mut calls = 0;
    for entry in trace {
        if let Entry::Began { .. } = entry {
            calls += 1;
        }
    }
    calls
}

/// Appends the last line of a report: how the run ended, and a line feed.
pub fn push_last_line(out: &mut Vec<u8>, ending: &Ending) -> Result<(), OutOfMemory>
    ensures { OnOk result (out.new.items ≡ out.old.items ++ last_line ending.now) }
{
    push_ending_text(out, ending)?;
    push_bytes(out, b"\n")?;
    Ok(())
}

fn push_ending_text(out: &mut Vec<u8>, ending: &Ending) -> Result<(), OutOfMemory>
    ensures { OnOk result (out.new.items ≡ out.old.items ++ ending_text ending.now) }
{
    match ending {
        Ending::Done => push_bytes(out, b"done"),
        Ending::CallsSpent => push_bytes(out, b"calls spent"),
        Ending::BadWords => push_bytes(out, b"bad words"),
        Ending::BadLine { number, why } => push_bad_line(out, *number, why),
        Ending::InputFault => push_bytes(out, b"input fault"),
        Ending::DiskFault => push_bytes(out, b"disk fault"),
        Ending::OpenFault => push_bytes(out, b"disk fault"),
        Ending::DestFault => push_bytes(out, b"destination fault"),
        Ending::NotAJournal { file } => push_not_a_journal(out, *file),
        Ending::Damaged { file, place } => push_damaged(out, *file, *place),
        Ending::BadPayload { file, index } => push_bad_payload(out, *file, *index),
        Ending::StreamChanged(change) => push_change(out, change),
        Ending::UnknownMapping => push_bytes(out, b"unknown mapping"),
        Ending::DisabledMapping => push_bytes(out, b"disabled mapping"),
        Ending::BadParameter { name } => push_parameter(out, name),
        Ending::Limit(name) => push_limit(out, *name),
    }
}

fn push_bad_line(out: &mut Vec<u8>, number: u64, why: &Text) -> Result<(), OutOfMemory>
    ensures { OnOk result (out.new.items
        ≡ out.old.items ++ codes "bad line " ++ decimal number ++ codes ": " ++ why.now) }
{
    push_bytes(out, b"bad line ")?;
    push_decimal(out, number)?;
    push_bytes(out, b": ")?;
    push_bytes(out, why.as_slice())?;
    Ok(())
}

fn push_not_a_journal(out: &mut Vec<u8>, file: FileName) -> Result<(), OutOfMemory>
    ensures { OnOk result (out.new.items ≡ out.old.items ++ codes "not a journal " ++ file_name file) }
{
    push_bytes(out, b"not a journal ")?;
    push_bytes(out, file.name().as_bytes())?;
    Ok(())
}

fn push_damaged(out: &mut Vec<u8>, file: FileName, place: u64) -> Result<(), OutOfMemory>
    ensures { OnOk result (out.new.items
        ≡ out.old.items ++ codes "damaged " ++ file_name file ++ codes " " ++ decimal place) }
{
    push_bytes(out, b"damaged ")?;
    push_bytes(out, file.name().as_bytes())?;
    push_bytes(out, b" ")?;
    push_decimal(out, place)?;
    Ok(())
}

fn push_bad_payload(out: &mut Vec<u8>, file: FileName, index: u32) -> Result<(), OutOfMemory>
    ensures { OnOk result (out.new.items
        ≡ out.old.items ++ codes "bad payload " ++ file_name file ++ codes " " ++ decimal index) }
{
    push_bytes(out, b"bad payload ")?;
    push_bytes(out, file.name().as_bytes())?;
    push_bytes(out, b" ")?;
    push_decimal(out, index as u64)?;
    Ok(())
}

fn push_change(out: &mut Vec<u8>, change: &Change) -> Result<(), OutOfMemory>
    ensures { OnOk result (out.new.items ≡ out.old.items ++ change_text change.now) }
{
    push_bytes(out, b"stream changed ")?;
    push_place(out, change.shard, change.place)?;
    push_texts(out, &change.kept, &change.given)?;
    Ok(())
}

fn push_place(out: &mut Vec<u8>, shard: u64, place: u32) -> Result<(), OutOfMemory>
    ensures { OnOk result (out.new.items ≡ out.old.items ++ place_part shard place) }
{
    push_shard_id(out, shard)?;
    push_bytes(out, b" place ")?;
    push_decimal(out, place as u64)?;
    Ok(())
}

/// Appends the two texts of a change: the one that was kept, and the one that the input gave.
pub fn push_texts(out: &mut Vec<u8>, kept: &Text, given: &Text) -> Result<(), OutOfMemory>
    ensures { OnOk result (out.new.items ≡ out.old.items ++ texts_part kept.now given.now) }
{
    push_bytes(out, b" kept ")?;
    push_bytes(out, kept.as_slice())?;
    push_bytes(out, b" given ")?;
    push_bytes(out, given.as_slice())?;
    Ok(())
}

fn push_parameter(out: &mut Vec<u8>, name: &Text) -> Result<(), OutOfMemory>
    ensures { OnOk result (out.new.items ≡ out.old.items ++ codes "bad parameter " ++ name.now) }
{
    push_bytes(out, b"bad parameter ")?;
    push_bytes(out, name.as_slice())?;
    Ok(())
}

fn push_limit(out: &mut Vec<u8>, name: LimitName) -> Result<(), OutOfMemory>
    ensures { OnOk result (out.new.items ≡ out.old.items ++ codes "limit " ++ limit_name name) }
{
    push_bytes(out, b"limit ")?;
    match name {
        LimitName::Records => push_bytes(out, b"records"),
        LimitName::Bytes => push_bytes(out, b"bytes"),
        LimitName::Shards => push_bytes(out, b"shards"),
        LimitName::Lanes => push_bytes(out, b"lanes"),
    }
}
