// A limit of time by the steady clock.
ghost use Rattle.std.specs.Prelude.{◌≡◌, ◌-◌, ◌<◌, ◌≤◌, ◌↔◌, max, None, IfOk, OnOk, IfSome, IsSome, IsNone};
ghost use Rattle.std.specs.Duration.{as_nanos};
ghost use Rattle.esm_host.specs.Limits.{GoesOn};

use std::io;
use std::io::ErrorKind;
use std::rt::Clock;
use std::time::Duration;

/// The shortest time that a call of the system gets, in milliseconds.
const LEAST: u64 = 1;

/// A limit of time, by the steady clock, from when it began.
#[derive(Clone, Copy)]
pub struct Deadline {
    pub limit: Duration,
    /// The reading of the steady clock when it began; none before.
    pub begun: Option<Duration>,
}

impl Deadline {
    /// Makes a limit of time that has not begun.
    pub fn new(limit: Duration) -> Self
        ensures limit { result.limit ≡ limit }
        ensures unbegun { result.begun ≡ None }
    {
        Deadline { limit, begun: None }
    }

    /// Makes a limit of time that begins now. If the steady clock cannot be read, it began at that clock's zero.
    pub fn from_now<R: Clock>(rt: &R, limit: Duration) -> Self
        ensures limit { result.limit ≡ limit }
        ensures running { IsSome result.begun }
    {
        Deadline {
            limit,
            begun: Some(rt.monotonic().unwrap_or(Duration::ZERO)),
        }
    }

    /// Begins the limit, unless it has begun. An error if the steady clock cannot be read.
    pub fn begin<R: Clock>(&mut self, rt: &R) -> io::Result<()>
        ensures limit { self.new.limit ≡ self.old.limit }
        ensures begun { OnOk result (IsSome self.new.begun) }
        ensures once { GoesOn self.old.begun self.new.begun }
    {
        if self.begun.is_none() {
            self.begun = Some(rt.monotonic()?);
        }
        Ok(())
    }

    /// Ends the limit, so that it can begin again.
    pub fn end(&mut self)
        ensures limit { self.new.limit ≡ self.old.limit }
        ensures unbegun { self.new.begun ≡ None }
    {
        self.begun = None;
    }

    /// Returns what is left of the limit, and at least a millisecond if anything is. A limit that has not begun is left
    /// whole. An error if nothing is left, or if the steady clock cannot be read.
    pub fn left<R: Clock>(&self, rt: &R) -> io::Result<Duration>
        ensures some { IfOk result (λ left. 0 < as_nanos left) }
        ensures bounded { IfOk result (λ left. as_nanos left ≤ max (as_nanos self.now.limit) 1_000_000) }
    {
        let now = rt.monotonic()?;
        let gone = now.saturating_sub(self.begun.unwrap_or(now));
        match time_left(self.limit, gone) {
            Some(left) => Ok(left),
            None => Err(io::Error::from(ErrorKind::TimedOut)),
        }
    }
}

/// Returns what is left of a limit, and at least a millisecond if anything is.
fn time_left(limit: Duration, gone: Duration) -> Option<Duration>
    ensures none { IsNone result ↔ (as_nanos limit - as_nanos gone ≡ 0) }
    ensures some { IfSome result (λ left. as_nanos left ≡ max (as_nanos limit - as_nanos gone) 1_000_000) }
{
    let left = limit.saturating_sub(gone);
    if left.is_zero() {
        return None;
    }
    Some(longer(left, Duration::from_millis(LEAST)))
}

/// Returns the longer of two times.
fn longer(one: Duration, other: Duration) -> Duration
    ensures { as_nanos result ≡ max (as_nanos one) (as_nanos other) }
{
    match one.checked_sub(other) {
        Some(_) => one,
        None => other,
    }
}
