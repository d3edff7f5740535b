// What is kept of a lane beside its pieces: the call that runs, and what the delay is computed from.
ghost use Rattle.std.specs.Prelude.{◌≡◌, ◌<◌, ◌≤◌};
ghost use Rattle.esm_model.specs.declared.moment.TheConstants.{MAX_MOMENT};
ghost use Rattle.esm_model.specs.Batches.{delay_from, failures_by};
ghost use Rattle.esm_shard_index.specs.LaneView as spec;

use esm_model::{MAX_MOMENT, Rest};

/// A running call: the number of its places, which are the first of the lane's front piece, and the start of the window that
/// a final call closes, in milliseconds. A final call has no places.
#[derive(Clone, Copy, Debug, PartialEq, Eq)]
pub struct Running {
    pub count: u32,
    pub closing: Option<u64>,
}

/// What is kept of a lane beside its pieces.
#[derive(Clone, Copy, Debug)]
pub struct LaneState {
    /// The running call, if there is one.
    pub running: Option<Running>,
    /// How many of the lane's last calls in a row ended so that the lane waits.
    pub failures: u64,
    /// The moment at which the lane's last call ended, in milliseconds; 0 before the first.
    pub last_end: u64,
}

impl LaneState {
    /// No call runs, and none has ended.
    pub const IDLE: LaneState = LaneState {
        running: None,
        failures: 0,
        last_end: 0,
    };

    /// The number of places of the running call; 0 if none runs.
    pub fn running_count(self) -> u32
        ensures { result ≡ spec.running_count self.running }
    {
        match self.running {
            None => 0,
            Some(running) => running.count,
        }
    }

    /// A call begins.
    pub fn began(self, running: Running) -> LaneState
        ensures { result ≡ spec.began running self }
    {
        LaneState {
            running: Some(running),
            failures: self.failures,
            last_end: self.last_end,
        }
    }

    /// The call ends at this moment, in milliseconds, with this ruling on its rest.
    pub fn ended(self, rest: Rest, moment: u64) -> LaneState
        requires { self.failures < u64.MAX }
        ensures running { result.running ≡ None }
        ensures failures { result.failures ≡ failures_by rest self.failures }
        ensures last_end { result.last_end ≡ moment }
    {
        let failures = match rest {
            Rest::Again | Rest::Counted => self.failures + 1,
            Rest::Nothing | Rest::Split(_) | Rest::Exhausted => 0,
        };
        LaneState {
            running: None,
            failures,
            last_end: moment,
        }
    }

    /// The moment at which the lane's delay runs out, in milliseconds: a quarter of a second after one failure, twice as
    /// long after each further one, a minute at most; 0 if there is none.
    pub fn delay_end(self) -> u64
        requires { self.last_end ≤ MAX_MOMENT }
        ensures { result ≡ delay_from self.failures self.last_end }
    {
        if self.failures == 0 {
            0
        } else if self.failures >= 9 {
            (self.last_end + 60000).min(MAX_MOMENT)
        } else {
            (self.last_end + (250u64 << (self.failures - 1)).min(60000)).min(MAX_MOMENT)
        }
    }
}
