// The runs of a lane, one for each piece: its number of open places and its standing.
ghost use Rattle.std.specs.Prelude.{◌≡◌, ◌+◌, ◌-◌, ◌<◌, ◌≤◌};
ghost use Rattle.std.specs.VecDeque.{deque_len, deque_capacity};
ghost use Rattle.esm_lanes.specs.Run as spec;

use crate::standing::Standing;
use std::collections::VecDeque;

/// A run of the lane's open places that are one piece: their number and their standing.
#[derive(Clone, Copy, Debug)]
pub struct Run {
    pub count: u32,
    pub standing: Standing,
}

impl Run {
    fn without(self, count: u32) -> Run
        requires { count ≤ self.count }
        ensures { result ≡ spec.without count self }
    {
        Run {
            count: self.count - count,
            standing: self.standing,
        }
    }
}

/// Adds a place at the end: it joins the last run where that accepts it, and otherwise begins one.
pub fn add_one(runs: &mut VecDeque<Run>, standing: Standing)
    requires room { deque_len runs.old < deque_capacity runs.old }
    requires few { spec.total runs.old.items < 4294967295 }
    ensures runs { runs.new.items ≡ spec.one_added standing runs.old.items }
    ensures len { deque_len runs.new ≤ deque_len runs.old + 1 }
    ensures capacity { deque_capacity runs.new ≡ deque_capacity runs.old }
{
    let one = Run { count: 1, standing };
    match runs.pop_back() {
        None => runs.push_back_reserved(one),
        Some(last) => {
            if last.standing.takes(standing) {
                runs.push_back_reserved(Run {
                    count: last.count + 1,
                    standing: last.standing,
                });
            } else {
                runs.push_back_reserved(last);
                runs.push_back_reserved(one);
            }
        }
    }
}

/// Splits the first run: its first places with this number of tries, and the rest, if there is one.
pub fn split_first(runs: &mut VecDeque<Run>, first: u32, tries: u32)
    requires room { deque_len runs.old < deque_capacity runs.old }
    requires within { first ≤ spec.first_count runs.old.items }
    ensures runs { runs.new.items ≡ spec.first_split first tries runs.old.items }
    ensures len { deque_len runs.new ≤ deque_len runs.old + 1 }
    ensures capacity { deque_capacity runs.new ≡ deque_capacity runs.old }
{
    match runs.pop_front() {
        None => {}
        Some(run) => {
            if first < run.count {
                runs.push_front_reserved(run.without(first));
            }
            runs.push_front_reserved(Run {
                count: first,
                standing: Standing::Split(tries),
            });
        }
    }
}

/// Shortens the first run by its first places; it goes if none is left.
pub fn shorten_first(runs: &mut VecDeque<Run>, count: u32)
    requires within { count ≤ spec.first_count runs.old.items }
    ensures runs { runs.new.items ≡ spec.first_shortened count runs.old.items }
    ensures len { deque_len runs.new ≤ deque_len runs.old }
    ensures capacity { deque_capacity runs.new ≡ deque_capacity runs.old }
{
    match runs.pop_front() {
        None => {}
        Some(run) => {
            if count < run.count {
                runs.push_front_reserved(run.without(count));
            }
        }
    }
}
