// The clock of the host, which gives the moment, pauses, and shows on a terminal how far a run has come.
ghost use Rattle.std.specs.Prelude.{◌≡◌, ◌+◌, ◌/◌, ◌≤◌, ◌^◌, ◌-◌, min, true};
ghost use Rattle.std.specs.Duration.{as_nanos};

use crate::terminal::{Shown, is_in_front, is_terminal};
use esm_io::Clock;
use esm_model::{OutOfMemory, Progress};
use std::alloc::Global;
use std::io::Eprint;
use std::marker::Model;
use std::sync::atomic::{AtomicU64, Ordering};
use std::time::Duration;

/// The least time between two shows, in milliseconds.
const SHOW_EVERY: u64 = 1_000;

/// The moment of the next show if nobody watches, and while a thread shows something.
const NEVER: u64 = u64::MAX;

/// The host's clock. It reads the date once, when it is made, and continues by the steady clock: a date that is set
/// afterwards changes nothing. The steady clock stops while the machine is suspended, so this clock then lags behind the
/// date by that time.
///
/// It may be watched at the terminal of standard error. There it shows how far a run has come, when the book makes a step,
/// at most once a second, and only while this process is in the terminal's foreground.
#[derive(Drop)]
pub struct HostClock<R: std::rt::Clock + Eprint + Clone> {
    rt: R,
    /// When it was made, in milliseconds since 1970.
    date: u64,
    /// The reading of the steady clock then, if it could be read.
    begun: Option<Duration>,
    /// The moment from which something may be shown again, in milliseconds since 1970, or `NEVER`.
    next_show: AtomicU64,
    /// Whether a line is on the terminal; none if nobody watches.
    shown: Option<Shown>,
}

impl<R: std::rt::Clock + Eprint + Clone> Model for HostClock<R> {
    ghost use Rattle.esm_host.specs.Forms.{HostClockState};

    ghost Value = { HostClockState };

    ghost view = { λ s. record { date = s.date } };
}

impl<R: std::rt::Clock + Eprint + Clone> HostClock<R> {
    /// Makes the clock of this host, which nobody watches. If the date cannot be read, it counts from 0. `OutOfMemory` if
    /// the runtime's handle cannot be copied.
    pub fn new(rt: &R) -> Result<Self, OutOfMemory> {
        HostClock::made(rt, None)
    }

    /// Makes the clock of this host, watched if standard error is a terminal. The first show comes a second after that, so a
    /// short run shows nothing.
    pub fn watched(rt: &R, alloc: Global) -> Result<Self, OutOfMemory> {
        if is_terminal(libc::STDERR_FILENO) {
            return HostClock::made(rt, Some(Shown::new(alloc)?));
        }
        HostClock::made(rt, None)
    }

    /// The same for a run that reads standard input. If that is a terminal too, nobody watches, since a show would wipe
    /// typed lines off the screen.
    pub fn watched_at_input(rt: &R, alloc: Global) -> Result<Self, OutOfMemory> {
        if is_terminal(libc::STDIN_FILENO) {
            return HostClock::made(rt, None);
        }
        HostClock::watched(rt, alloc)
    }

    /// Makes the clock of this host, which shows lines if it gets a `Shown` to note them in.
    fn made(rt: &R, shown: Option<Shown>) -> Result<Self, OutOfMemory> {
        let date = match rt.since_1970() {
            Ok(since) => after(0, since),
            Err(_) => 0,
        };
        Ok(HostClock {
            rt: rt.clone()?,
            date,
            begun: rt.monotonic().ok(),
            next_show: AtomicU64::new(first_show(date, shown.is_some())),
            shown,
        })
    }

    /// Returns what says whether a line is on the terminal, for whoever is to erase it; none if nobody watches.
    pub fn shown(&self) -> Result<Option<Shown>, OutOfMemory> {
        match &self.shown {
            None => Ok(None),
            Some(shown) => Ok(Some(shown.share()?)),
        }
    }

    /// Lets nothing be shown for the next second.
    fn rest(&self) {
        let next = self.now().saturating_add(SHOW_EVERY);
        self.next_show.store(next, Ordering::SeqCst);
    }
}

/// Returns the moment of the first show of a clock that was made at this date, in milliseconds since 1970.
fn first_show(date: u64, is_watched: bool) -> u64 {
    if is_watched {
        return date.saturating_add(SHOW_EVERY);
    }
    NEVER
}

/// Returns the moment `gone` after a date, both in milliseconds, and at most the last moment.
fn after(date: u64, gone: Duration) -> u64
    ensures { result ≡ min (date + as_nanos gone / 1_000_000) (2 ^ 64 - 1) }
{
    date.saturating_add(u64::try_from(gone.as_millis()).unwrap_or(u64::MAX))
}

impl<R: std::rt::Clock + Eprint + Clone> Clock for HostClock<R> {
    ghost gave = { λ moment. true };

    /// The date when it was made, if the steady clock cannot be read.
    fn now(&self) -> u64
        ensures since_made { self.now.date ≤ result }
    {
        match (self.begun, self.rt.monotonic()) {
            (Some(begun), Ok(now)) => after(self.date, now.saturating_sub(begun)),
            _ => self.date,
        }
    }

    fn pause(&self, until: u64) -> u64
        ensures not_before { until ≤ result }
        ensures since_made { self.now.date ≤ result }
    {
        let now = self.now();
        if now < until {
            self.rt.sleep(Duration::from_millis(until - now));
        }
        self.now().max(until)
    }

    /// At most once a second, whoever asks, first a second after the clock was made, and not while a line is being shown: so
    /// a terminal that blocks holds up only one thread.
    fn takes_show(&self) -> bool {
        let due = self.next_show.load(Ordering::SeqCst);
        if due == NEVER {
            return false;
        }
        if self.now() < due {
            return false;
        }
        let mine = self
            .next_show
            .compare_exchange(due, NEVER, Ordering::SeqCst, Ordering::SeqCst);
        if mine.is_err() {
            return false;
        }
        if is_in_front() {
            return true;
        }
        self.rest();
        false
    }

    /// Writes on standard error, in a line that the next show overwrites, and that is erased before the output continues.
    fn show(&self, progress: Progress) {
        if let Some(shown) = &self.shown {
            shown.tell(&self.rt, progress);
            self.rest();
        }
    }
}
