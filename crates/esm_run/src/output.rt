// Writes the text of a command to its output, and returns the exit status of its ending.
ghost use Rattle.std.specs.Prelude.{◌≡◌, ◌≤◌, OnOk, OnErr};
ghost use Rattle.esm_io.specs.Told.{Grows};
ghost use Rattle.esm_report.specs.declared.ending.Ending.TheVariants.{BadWords};
ghost use Rattle.esm_run.specs.Endings.{status_of, failed_status_of, IsCutShort, IsTold};

use esm_io::{Failed, Sink};
use esm_report::Ending;

/// The exit status of bad words.
const BAD_WORDS: u8 = 2;

/// The exit status if the output failed.
pub const OUTPUT_FAULT: u8 = 5;

/// The exit status if memory ran out.
pub const OUT_OF_MEMORY: u8 = 70;

/// Returns the exit status of an ending.
fn status_of(ending: &Ending) -> u8
    ensures value { result ≡ status_of ending.now }
    ensures words { result ≡ 2 → ending.now ≡ BadWords }
    ensures known { result ≤ 10 }
{
    match ending {
        Ending::Done => 0,
        Ending::CallsSpent => 1,
        Ending::BadWords => BAD_WORDS,
        Ending::BadLine { .. } => 3,
        Ending::InputFault => 4,
        Ending::DiskFault => 6,
        Ending::OpenFault => 6,
        Ending::DestFault => 7,
        Ending::NotAJournal { .. } => 8,
        Ending::Damaged { .. } => 8,
        Ending::BadPayload { .. } => 8,
        Ending::StreamChanged(_) => 8,
        Ending::UnknownMapping => 9,
        Ending::DisabledMapping => 9,
        Ending::BadParameter { .. } => 9,
        Ending::Limit(_) => 10,
    }
}

/// Returns the exit status if the output failed.
fn failed_status_of(ending: &Ending) -> u8
    ensures value { result ≡ failed_status_of ending.now }
    ensures words { result ≡ 2 → ending.now ≡ BadWords }
    ensures known { result ≤ 10 }
{
    match ending {
        Ending::BadWords => BAD_WORDS,
        _ => OUTPUT_FAULT,
    }
}

/// Writes all of the text. After a failed write, the output took a prefix of it.
pub fn write_all<K: Sink>(out: &mut K, text: &[u8]) -> Result<(), Failed>
    ensures written { OnOk result (Grows (K.written out.old) (K.written out.new) text.now) }
    ensures cut_short { OnErr result (IsCutShort (K.faults out.old) (K.faults out.new)
        (K.written out.old) (K.written out.new) text.now) }
{
    let mut at = 0;
    while at < text.len() {
        let count = out.write(&text[at..])?;
        at += count;
    }
    Ok(())
}

/// Writes the text of an ending, and returns the exit status: 5 if the output fails, unless the ending is bad words.
pub fn tell<K: Sink>(out: &mut K, text: &[u8], ending: &Ending) -> u8
    ensures told { IsTold (K.faults out.old) (K.faults out.new) (K.written out.old) (K.written out.new)
        text.now ending.now result }
    ensures words { result ≡ 2 → ending.now ≡ BadWords }
    ensures known { result ≤ 10 }
{
    match write_all(out, text) {
        Ok(()) => status_of(ending),
        Err(_) => failed_status_of(ending),
    }
}
