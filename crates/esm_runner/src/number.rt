// How many batchers a queue has.
ghost use Rattle.std.specs.Prelude.{◌≡◌, ◌<◌, ◌≤◌};
ghost use Rattle.esm_model.specs.QueueEvent.{IsQueueConfig};
ghost use Rattle.esm_runner.specs.Number.{batchers_in};

use esm_model::Config;

/// The greatest number of batchers of a queue; this product's own.
pub const MAX_BATCHERS: u32 = 32;

/// The number of batchers of a queue whose mapping does not bound its concurrency (Lambda Developer Guide, "Using Lambda
/// with Amazon SQS": Lambda begins with five batches at a time).
pub const DEFAULT_BATCHERS: u32 = 5;

/// Returns how many batchers a queue with the configuration has: its maximum concurrency, but at most 32; five if it has
/// none. There is at least one.
pub fn batchers_of(config: &Config) -> u32
    requires config { IsQueueConfig config.now }
    ensures number { result ≡ batchers_in config.now }
    ensures some { 0 < result }
    ensures most { result ≤ MAX_BATCHERS }
{
    match config.concurrency {
        Some(most) => most.min(MAX_BATCHERS),
        None => DEFAULT_BATCHERS,
    }
}
