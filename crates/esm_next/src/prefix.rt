// The longest prefix of a lane's items that one call may take.
ghost use Rattle.std.specs.Prelude.{◌≡◌, ◌<◌, ◌≤◌, ◌+◌, IsTrue, ◌↔◌};
ghost use Rattle.esm_model.specs.Moment.{moment_after};
ghost use Rattle.esm_next.specs.Cuts.{CanBegin, IsLongestPrefix, first_window, first_came, is_expired, why_of};
ghost use Rattle.esm_next.specs.Steps.{GoesOn};

use crate::piece::{Cut, Limits, SizedItem, Why};
use esm_model::MAX_MOMENT;

/// The longest prefix of the items within the limits at the moment `now`, and why it may begin or how long it waits.
/// Takes no memory.
pub fn cut(items: &[SizedItem], limits: &Limits, now: u64) -> Cut
    requires { CanBegin limits.now now items.now }
    ensures prefix { IsLongestPrefix limits.now now items.now result.count }
    ensures why { result.why ≡ why_of limits.now now items.now result.count }
    ensures some { 0 < limits.now.count → 0 < result.count }
{
    let count = fitting(items, limits, now);
    let why = why(items, limits, now, count);
    Cut { count, why }
}

fn fitting(items: &[SizedItem], limits: &Limits, now: u64) -> u32
    ensures { IsLongestPrefix limits.now now items.now result }
{
    let window = window_of_first(items);
    let mut used = 0;
    let mut count = 0;
    for item in items {
        if count == limits.count || !goes_on(item, limits, now, window, used) {
            return count;
        }
        used += u64::from(item.bytes) + 1;
        count += 1;
    }
    count
}

fn window_of_first(items: &[SizedItem]) -> u64
    ensures { result ≡ first_window items.now }
{
    match items {
        [] => 0,
        [first, ..] => first.window,
    }
}

/// Whether the batch may take the item too; `used` are the bytes of its items, each with a comma.
fn goes_on(item: &SizedItem, limits: &Limits, now: u64, window: u64, used: u64) -> bool
    requires { used ≤ limits.now.payload + 1 }
    ensures { IsTrue result ↔ GoesOn limits.now now window used item.now }
{
    let payload = u64::from(limits.payload);
    used + u64::from(item.bytes) <= payload
        && item.window == window
        && !is_expired(item, limits.age_ms, now)
}

fn is_expired(item: &SizedItem, age_ms: Option<u64>, now: u64) -> bool
    ensures { result ≡ is_expired age_ms now item.now }
{
    match age_ms {
        None => false,
        Some(age) => now.saturating_sub(item.arrival) > age,
    }
}

fn why(items: &[SizedItem], limits: &Limits, now: u64, count: u32) -> Why
    ensures { result ≡ why_of limits.now now items.now count }
{
    if count == limits.count || (count as usize) < items.len() {
        return Why::Full;
    }
    if limits.shut {
        return Why::Shut;
    }
    let until = wait_end(items, limits);
    if now >= until {
        Why::Waited
    } else {
        Why::Waiting { until }
    }
}

fn wait_end(items: &[SizedItem], limits: &Limits) -> u64
    ensures { result ≡ moment_after (first_came items.now) limits.now.window_ms }
{
    let came = match items {
        [] => 0,
        [first, ..] => first.came,
    };
    came.saturating_add(limits.window_ms).min(MAX_MOMENT)
}
