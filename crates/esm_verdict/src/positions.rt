//! What the positions that an answer reports say of a batch.
ghost use Rattle.std.specs.Prelude.{◌≡◌, ℕ, ◌≤◌, length, Bool, Some, IfOk, filter, min};
ghost use Rattle.std.specs.List.{fold};
ghost use Rattle.esm_model.specs.Entries.{holds};
ghost use Rattle.esm_model.specs.Fates.{below};
ghost use Rattle.esm_model.specs.Reading.{least_reading, reading_before};
ghost use Rattle.esm_verdict.specs.Flags.{AreFlags};

use esm_model::{MAX_BATCH, OutOfMemory, Places, Reading};
use std::alloc::Global;

fn least(first: u32, others: &[u32]) -> u32
    ensures { result ≡ fold min first others.now }
{
    let mut least = first;
    for position in others {
        least = least.min(*position);
    }
    least
}

fn reading_before(position: u32) -> Reading
    ensures { result ≡ reading_before position }
{
    if position == 0 {
        Reading::Failed
    } else {
        Reading::UpTo(position)
    }
}

/// The reading of a stream's answer that reports these positions: the least counts.
pub fn least_reading(reported: &[u32]) -> Reading
    ensures { result ≡ least_reading (Some reported.now) }
{
    match reported {
        [] => Reading::Whole,
        [first, others @ ..] => reading_before(least(*first, others)),
    }
}

/// A flag for each position of a batch of `count` messages, set where it is reported.
fn flags(alloc: Global, reported: &[u32], count: usize) -> Result<Vec<bool>, OutOfMemory>
    ensures { IfOk result (λ flags. AreFlags (holds reported.now) count flags.items) }
{
    let mut flags = vec![in alloc; false; count]?;
    for position in reported {
        let at = *position as usize;
        if at < flags.len() {
            flags[at] = true;
        }
    }
    Ok(flags)
}

/// The positions whose flag is set, rising.
fn flagged(alloc: Global, flags: &[bool]) -> Result<Places, OutOfMemory>
    requires { length flags.now ≤ MAX_BATCH }
    ensures { (test : ℕ → Bool) → AreFlags test (length flags.now) flags.now → IfOk result (λ places. places ≡ filter test (below (length flags.now))) }
{
    let mut places = Vec::new(alloc);
    for i in 0..flags.len() {
        if flags[i] {
            places.push(i as u32)?;
        }
    }
    Ok(Places::from_vec(places))
}

/// The reported positions in a batch of `count` messages, rising, each once.
pub fn failed_positions(
    alloc: Global,
    reported: &[u32],
    count: usize,
) -> Result<Places, OutOfMemory>
    requires { count ≤ MAX_BATCH }
    ensures { IfOk result (λ places. places ≡ filter (holds reported.now) (below count)) }
{
    let flags = flags(alloc, reported, count)?;
    flagged(alloc, flags.as_slice())
}
