// The ruling on a batch by what the reply says of it: success, a retry, a split or giving up.
ghost use Rattle.std.specs.Prelude.{◌≡◌};
ghost use Rattle.esm_model.specs.Ruling.{ruling, after_try};
ghost use Rattle.esm_verdict.specs.Readings.{IsWithin};

use esm_model::{Config, Reading, Rest, Verdict};

/// Rules on a batch of `count` records, which failed `tries` times before, from what the reply says of it. For a window's
/// final call `count` is 0. If the mapping bisects, a failed batch of at least two records is split after its first `count -
/// count / 2` records, the rest after item failures becomes a piece of its own, and a split counts no try. Otherwise the
/// rest is given up if one more try exceeds the retries, and else is called again with one more try. (Lambda Developer
/// Guide, error handling for Kinesis. That a call which was not run counts no try, and where a batch is split, is this
/// product's own.)
pub fn judge(config: &Config, count: u32, tries: u32, reading: Reading) -> Verdict
    requires { IsWithin count reading }
    ensures { result ≡ ruling config.now count tries reading }
{
    match reading {
        Reading::Whole => Verdict {
            succeeded: count,
            rest: Rest::Nothing,
        },
        Reading::NotRun => Verdict {
            succeeded: 0,
            rest: Rest::Again,
        },
        Reading::Failed if config.bisect && count > 1 => Verdict {
            succeeded: 0,
            rest: Rest::Split(count - count / 2),
        },
        Reading::Failed => Verdict {
            succeeded: 0,
            rest: after_try(config.retries, tries),
        },
        Reading::UpTo(p) if config.bisect => Verdict {
            succeeded: p,
            rest: Rest::Split(count - p),
        },
        Reading::UpTo(p) => Verdict {
            succeeded: p,
            rest: after_try(config.retries, tries),
        },
    }
}

/// The rest of a batch that failed once more, after `tries` failed tries.
fn after_try(retries: Option<u32>, tries: u32) -> Rest
    ensures { result ≡ after_try retries tries }
{
    match retries {
        Some(limit) if tries >= limit => Rest::Exhausted,
        _ => Rest::Counted,
    }
}
