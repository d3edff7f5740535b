// Counting what the report of a replay says, and writing its line.
ghost use Rattle.std.specs.Prelude.{◌≡◌, ◌≤◌, ◌++◌, ◌-◌, OnOk};
ghost use Rattle.esm_report.specs.Report.{line};
ghost use Rattle.esm_replay_model.specs.ReplayReport.{replayed_in};
ghost use Rattle.esm_replay_run.specs.Counts.{count_text, counts_text};

use esm_event::bytes::push_bytes;
use esm_event::digits::push_decimal;
use esm_model::{Entry, OutOfMemory};

/// How many records a replay named, how many of them it replayed, and how many are left.
#[derive(Clone, Copy, Debug, PartialEq, Eq)]
pub struct ReplayCounts {
    pub named: u32,
    pub replayed: u32,
    pub left: u32,
}

/// Appends the words and the number.
fn push_count(out: &mut Vec<u8>, words: &[u8], count: u32) -> Result<(), OutOfMemory>
    ensures { OnOk result (out.new.items ≡ out.old.items ++ count_text words.now count) }
{
    push_bytes(out, words)?;
    push_decimal(out, count as u64)?;
    Ok(())
}

/// Appends `replay named N replayed R left L` and a line feed. After an `Err` a part of it may have been appended.
pub fn push_replay_line(out: &mut Vec<u8>, counts: &ReplayCounts) -> Result<(), OutOfMemory>
    ensures { OnOk result (out.new.items ≡ out.old.items ++ line (counts_text counts.now)) }
{
    push_count(out, b"replay named ", counts.named)?;
    push_count(out, b" replayed ", counts.replayed)?;
    push_count(out, b" left ", counts.left)?;
    push_bytes(out, b"\n")?;
    Ok(())
}

/// How many records the history replays; they are at most `named`.
fn replayed_in(trace: &[Entry], named: u32) -> u32
    requires { replayed_in trace.now ≤ named }
    ensures { result ≡ replayed_in trace.now }
{
    let _ = named;
    let mut count = 0;
    for entry in trace {
        if let Entry::Replayed { places, .. } = entry {
            count += places.as_slice().len() as u32;
        }
    }
    count
}

/// The counts of a history that replays some of the `named` records.
pub(crate) fn counts_of(named: u32, trace: &[Entry]) -> ReplayCounts
    requires { replayed_in trace.now ≤ named }
    ensures named { result.named ≡ named }
    ensures replayed { result.replayed ≡ replayed_in trace.now }
    ensures left { result.left ≡ named - replayed_in trace.now }
{
    let replayed = replayed_in(trace, named);
    ReplayCounts {
        named,
        replayed,
        left: named - replayed,
    }
}
