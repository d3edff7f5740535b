// The report of a generated stream's run.
ghost use Rattle.std.specs.Prelude.{◌≡◌, ◌++◌, reverse, IfOk};
ghost use Rattle.esm_model.specs.Setting.{Setting};
ghost use Rattle.esm_report.specs.Report.{calls_text, last_line, line};
ghost use Rattle.esm_report.specs.declared.ending.Ending.TheVariants.{Done};
ghost use Rattle.esm_gen.specs.Report as spec;

use esm_journal_state::Says;
use esm_model::{Entry, OutOfMemory};
use esm_report::{Ending, push_calls_line, push_last_line, report};
use std::alloc::Global;

/// Writes the line of the calls and the last line of a run that ended with `Done`.
fn calls_and_end(alloc: Global, trace: &[Entry]) -> Result<Vec<u8>, OutOfMemory>
    ensures { IfOk result (λ text. text.items ≡ line (calls_text (reverse trace.now)) ++ last_line Done) }
{
    let mut text = Vec::new(alloc);
    push_calls_line(&mut text, trace)?;
    push_last_line(&mut text, &Ending::Done)?;
    Ok(text)
}

/// Writes the report of a run that ended with `Done` and whose history is `trace` (oldest entry first); `said` is what the
/// journal said when the run opened it. It has a line for each shard of which records arrived, and the last line, but not
/// the number of calls.
pub fn generated_report(alloc: Global, said: &Says, trace: &[Entry]) -> Result<Vec<u8>, OutOfMemory>
    ensures { IfOk result (λ text. (s : Setting) → s.fates ≡ said.now.fates
        → text.items ≡ spec.generated_report s (reverse trace.now)) }
{
    let mut text = report(alloc, said, trace, &Ending::Done)?;
    let calls = calls_and_end(alloc, trace)?;
    text.truncate(text.len().saturating_sub(calls.len()));
    push_last_line(&mut text, &Ending::Done)?;
    Ok(text)
}
