// The trait of clocks, which give moments in milliseconds since 1970, wait until one, and show, as time passes, how far a
// run has come.
ghost use Rattle.std.specs.Prelude.{◌≡◌, ◌≤◌, ℕ, Bool, true};

use esm_model::Progress;

/// A clock, which gives moments in milliseconds since 1970-01-01T00:00:00Z. It is shared, and no clause relates two of its
/// answers.
pub trait Clock {
    /// Holds of each moment that a clock of this kind gave. Code that is generic over the clock knows it of no other moment.
    ghost gave: { ℕ → Bool };

    /// The current moment.
    fn now(&self) -> u64
        ensures { gave result ≡ true };

    /// Waits until the moment `until`, and returns the moment then, which is not before it.
    fn pause(&self, until: u64) -> u64
        ensures given { gave result ≡ true }
        ensures not_before { until ≤ result };

    /// Whether a show of progress is due; one caller gets `true`, and then shows it. No show is due unless a clock overrides
    /// this.
    fn takes_show(&self) -> bool {
        false
    }

    /// Shows how far the run has come to whoever watches it. No contract speaks of it.
    fn show(&self, progress: Progress) {
        let _ = progress;
    }
}
