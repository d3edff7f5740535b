// Tests: seats that take a log in turn, on two threads, and with waiting seats that sleep.
ghost use Rattle.std.specs.Prelude.{◌≡◌, ℕ, ◌<◌, ◌≤◌, ◌^◌, ◌++◌, [], ◌∷◌, false, length, MatchBool, slice_index_or};
ghost use Rattle.esm_turn.specs.TestLogs.{entry_of};
ghost use Rattle.esm_turn.specs.Seats.{IsFreeSeat, SeatView};

use crate::turn::{Held, Seat, Turn};
use esm_model::{Entry, Kept};
use std::alloc::Global;
use std::sync::Wait;
use std::test::Fail;
use std::thread;
use std::thread::Threads;
use std::time::{Clock, Duration};

/// A list of entries, each of which names the seat that added it.
#[derive(Drop)]
struct Log {
    entries: Vec<Entry>,
    ghost few: { length entries.items < 2 ^ 62 },
}

impl Kept for Log {
    ghost use Rattle.std.specs.Prelude.{map, false, None};
    ghost use Rattle.esm_model.specs.Setup.{no_setup};
    ghost use Rattle.esm_turn.specs.TestLogs.{told, seat_of};

    ghost setup = { λ _. no_setup };

    ghost history = { λ log. map told log.entries.items };

    ghost mark = { λ _. false };

    ghost change = { λ _. None };

    ghost author = { λ _ _ told. seat_of told.entry };

    ghost may_follow = { λ _ _ _. Unit {0} };

    fn entries(&self) -> u64 {
        self.entries.len() as u64
    }

    fn marked(&self) -> bool {
        false
    }
}

const MOST: usize = 1 << 40;

impl Log {
    // Adds an entry of the seat; false if there is no room.
    fn add(&mut self, seat: u64) -> bool
        ensures { MatchBool result (self.new.entries.items ≡ self.old.entries.items ++ entry_of seat ∷ []) (self.new.entries.items ≡ self.old.entries.items) }
    {
        if self.entries.len() >= MOST {
            return false;
        }
        let entry = Entry::Came {
            shard: seat,
            first: 0,
            count: 1,
            moment: 0,
        };
        self.entries.push(entry).is_ok()
    }
}

// How often each seat takes the turn, and how long it keeps the value, in milliseconds.
#[derive(Clone, Copy)]
struct Turns {
    count: u32,
    held_ms: u64,
}

// One turn of the seat with this number, in which it adds an entry.
fn once<R: Wait + Clock>(rt: &R, turn: &Turn<Log>, seat: &mut Seat<Log>, number: u64, held_ms: u64)
    requires at { seat.old.at ≡ turn.now.at }
    requires free { seat.old.holds ≡ false }
    requires number { seat.old.number ≡ number }
    ensures setup { seat.new.setup ≡ seat.old.setup }
    ensures number { seat.new.number ≡ seat.old.number }
    ensures at { seat.new.at ≡ seat.old.at }
    ensures free { seat.new.holds ≡ false }
{
    let Held { mut value } = turn.take(rt, seat);
    value.add(number);
    if held_ms > 0 {
        thread::sleep(rt, Duration::from_millis(held_ms));
    }
    turn.give(seat, Held { value });
}

// Takes all turns of seat k.
fn often<R: Wait + Clock>(rt: &R, turn: &Turn<Log>, seat: &mut Seat<Log>, k: usize, turns: Turns)
    requires { IsFreeSeat turn.now k seat.old }
    ensures { IsFreeSeat turn.now k seat.new }
{
    for _i in 0..turns.count {
        once(rt, turn, seat, k as u64, turns.held_ms);
    }
}

// Takes the turns of all seats, each in a thread of its own.
fn all_often<R: Threads + Wait + Clock + Sync>(
    rt: &R,
    turn: &Turn<Log>,
    seats: &mut [Seat<Log>],
    turns: Turns,
)
    requires { (k : ℕ) (d : SeatView) → k < length seats.old → IsFreeSeat turn.now k (slice_index_or seats.old k d) }
    ensures { (k : ℕ) (d : SeatView) → k < length seats.old → IsFreeSeat turn.now k (slice_index_or seats.new k d) }
{
    let threads = seats.len().max(1);
    thread::for_each_mut(
        rt,
        seats,
        threads,
        &|k: usize, seat: &mut Seat<Log>|
            requires { IsFreeSeat turn.now k seat.now }
            ensures { IsFreeSeat turn.entry.now k seat.exit.now }
        { often(rt, turn, seat, k, turns) },
    );
}

fn empty(alloc: Global) -> Log
    ensures { length result.entries.items ≡ 0 }
{
    Log {
        entries: Vec::new(alloc),
    }
}

// The number of entries after `seats` seats had their turns.
fn count_of_entries<R: Threads + Wait + Clock + Sync>(
    rt: &R,
    alloc: Global,
    seats: u32,
    turns: Turns,
) -> Option<usize>
    requires { (0 < seats) × (seats ≤ 65) }
{
    match Turn::new(alloc, empty(alloc), seats) {
        Ok((turn, mut seats)) => {
            all_often(rt, &turn, seats.as_mut_slice(), turns);
            Some(turn.close(seats).entries.len())
        }
        Err(_) => None,
    }
}

#[test]
fn two_seats_with_two_threads(rt: HostRuntime) -> Result<(), Fail> {
    let turns = Turns {
        count: 100,
        held_ms: 0,
    };
    let count = count_of_entries(&rt, rt.alloc(), 2, turns).ok_or("no memory")?;
    assert_eq!(rt; count, 200);
    Ok(())
}

// A seat that waits soon sleeps. So all seats but the one that has the value sleep, and each is woken three times.
#[test]
fn sleeping_seats_are_woken(rt: HostRuntime) -> Result<(), Fail> {
    let turns = Turns {
        count: 3,
        held_ms: 20,
    };
    let count = count_of_entries(&rt, rt.alloc(), 6, turns).ok_or("no memory")?;
    assert_eq!(rt; count, 18);
    Ok(())
}

// How many entries seat 1 found after seat 0's turn, and how many there were at the end.
fn found_by_second<R: Wait + Clock>(rt: &R, alloc: Global) -> Option<(usize, usize)> {
    match Turn::new(alloc, empty(alloc), 2) {
        Ok((turn, mut seats)) => {
            once(rt, &turn, &mut seats[0], 0, 0);
            let seat = &mut seats[1];
            let held = turn.take(rt, seat);
            let found = held.value.entries.len();
            turn.give(seat, held);
            Some((found, turn.close(seats).entries.len()))
        }
        Err(_) => None,
    }
}

#[test]
fn two_seats_in_turn(rt: HostRuntime) -> Result<(), Fail> {
    let (found, last) = found_by_second(&rt, rt.alloc()).ok_or("no memory")?;
    assert_eq!(rt; found, 1);
    assert_eq!(rt; last, 1);
    Ok(())
}
