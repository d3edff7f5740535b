// A value that one seat at a time has out, while the threads at the other seats wait.
ghost use Rattle.std.specs.Prelude.{◌≡◌, ℕ, true, false, [], ◌++◌, ◌<◌, ◌≤◌, length, None, IfSome, IfNone, IfOk, IfErr, vec_len, vec_capacity};
ghost use Rattle.std.specs.List.{All};
ghost use mathlib.Core.List.{IsPrefix};
ghost use Rattle.esm_model.specs.Kept.{meaning, entries_of, IsLegal, MayFollowAll, AllBy, added};
ghost use Rattle.esm_turn.specs.Parts.{begun_parts, Each, Within};
ghost use Rattle.esm_turn.specs.Rule.{IsTaken, word_of};
ghost use Rattle.esm_turn.specs.Seats.{AreAllSeats, AreBegun, turn_view, part_of};

use crate::part::{Part, Terms};
use crate::rule::{Deals, Gathers, Gives, Rule, Takes};
use atomic_table::{Shared, Table};
use crossbeam_utils::Backoff;
use esm_model::{Kept, OutOfMemory, Refused};
use std::alloc::Global;
use std::collections::LinkedList;
use std::marker::Model;
use std::snapshot::Snapshot;
use std::sync::Wait;
use std::sync::atomic::{AtomicU32, Ordering};

/// A value that one seat at a time has out.
///
/// Whenever the value is at home it has the setup that it was made with, its history is legal and begins with what each seat
/// has seen, and the entries of each author are those that the author's seat added. Contracts see which turn it is, the
/// setup and the number of seats.
pub struct Turn<T: Kept> {
    table: Table<Option<T>, LinkedList<Part>, Terms<T>, Rule<T>, Global>,
    // How many seats sleep or are about to.
    sleeping: AtomicU32,
}

impl<T: Kept> Model for Turn<T> {
    ghost use Rattle.std.specs.Prelude.{◌≡◌, ◌<◌};
    ghost use Rattle.esm_turn.specs.Seats.{TurnView, turn_view};

    ghost Value = { TurnView };

    ghost view = { λ t. turn_view t.table.shared.table_id (T.setup t.table.shared.key.made.value) t.table.shared.key.seats };

    ghost invariant = { λ t. (t.table.shared.table_id.words ≡ 1) × (t.table.shared.table_id.slots ≡ 1) × (0 < t.table.shared.key.seats) };
}

/// A thread's place at a turn. It takes no bytes.
///
/// Contracts see which turn it belongs to, its number, what it has seen, its own entries, whether it has seen the mark true,
/// the change as it saw it last, and whether it has the value out. It cannot be dropped, so a turn is closed with all its
/// seats.
pub struct Seat<T> {
    inner: atomic_table::Seat<Option<T>, LinkedList<Part>>,
}

impl<T> Model for Seat<T> {
    ghost use Rattle.std.specs.Prelude.{◌≡◌};
    ghost use Rattle.esm_turn.specs.Parts.{first_part};
    ghost use Rattle.esm_turn.specs.Seats.{SeatView, seat_view, IsSeat};

    ghost Value = { SeatView };

    ghost view = { λ s. seat_view s.inner.table_id (first_part s.inner.me.0) };

    ghost invariant = { λ s. IsSeat (first_part s.inner.me.0) s.inner.me };
}

/// The value while it is out. It cannot be dropped, so it can only go back by `give`.
pub struct Held<T> {
    pub value: T,
}

type Board<T> = Shared<Option<T>, LinkedList<Part>, Terms<T>, Rule<T>>;

type Place<T> = atomic_table::Seat<Option<T>, LinkedList<Part>>;

// Deals a part to each of the seats; the one that had all parts has none in the end.
fn seat_all<T: Kept>(shared: &Board<T>, mut first: Place<T>, all: &mut Vec<Seat<T>>, seats: u32)
    requires at { (first.table_id ≡ shared.now.table_id) × (shared.now.table_id.words ≡ 1) }
    requires first { first.me ≡ (
      begun_parts T.author (T.setup shared.now.key.made.value) (T.history shared.now.key.made.value)
          (T.change shared.now.key.made.value) 0 seats,
      [],
    ) }
    requires key { shared.now.key.seats ≡ seats }
    requires room { (vec_len all.old ≡ 0) × (seats ≤ vec_capacity all.old) }
    ensures { AreBegun T.author (T.history shared.now.key.made.value) (T.change shared.now.key.made.value)
        (turn_view shared.now.table_id (T.setup shared.now.key.made.value) seats) all.new.items }
{
    for _i in 0..seats {
        let inner = shared.split_seat::<Deals>(&mut first);
        all.push_reserved(Seat { inner });
    }
}

// Gathers the parts of all seats in the last one.
fn join_all<T: Kept>(shared: &Board<T>, mut seats: Vec<Seat<T>>) -> Place<T>
    requires at { shared.now.table_id.words ≡ 1 }
    requires some { 0 < length seats.items }
    requires here { All (λ s. s.at ≡ shared.now.table_id) seats.items }
    requires free { All (λ s. s.holds ≡ false) seats.items }
    ensures at { (result.table_id ≡ shared.now.table_id) × (result.me.1 ≡ []) }
    ensures free { Each (λ p. p.holds ≡ false) result.me.0 }
    ensures all { All (λ s. Within (part_of s) result.me.0) seats.items }
{
    let Seat { inner: mut all } = seats.pop().unwrap();
    while let Some(seat) = seats.pop() {
        let Seat { inner } = seat;
        shared.join_seat::<Gathers>(&mut all, inner);
    }
    seats.destroy_empty();
    all
}

// The word for the value at home.
fn word_at_home<T: Kept>(value: &T) -> u64
    ensures { result ≡ word_of (T.history value.now) (T.mark value.now) None }
{
    value.entries() * 4 + if value.marked() { 2 } else { 0 }
}

impl<T: Kept> Turn<T> {
    /// Makes a turn with this value at home, and its seats: the seat at index `s` has the number `s`, and has seen the
    /// history and the change that the value has. If an allocation failed, the value is handed back.
    pub fn new(
        alloc: Global,
        value: T,
        seats: u32,
    ) -> Result<(Turn<T>, Vec<Seat<T>>), Refused<OutOfMemory, T>>
        requires seats { (0 < seats) × (seats ≤ 65) }
        requires legal { IsLegal (T.may_follow (T.setup value)) (T.history value) }
        requires others { (n : ℕ) → seats ≤ n → entries_of (T.author (T.setup value)) n (T.history value) ≡ [] }
        ensures setup { IfOk result (λ r. r.0.setup ≡ T.setup value) }
        ensures count { IfOk result (λ r. r.0.seats ≡ seats) }
        ensures seats { IfOk result (λ r. AreBegun T.author (T.history value) (T.change value) r.0 r.1.items) }
        ensures refused { IfErr result (λ r. r.back ≡ value) }
    {
        let word = word_at_home(&value);
        let Ok(mut all) = Vec::with_capacity(alloc, seats as usize) else {
            return Err(Refused {
                why: OutOfMemory,
                back: value,
            });
        };
        let Ok(mut slots) = Vec::with_capacity(alloc, 1) else {
            all.destroy_empty();
            return Err(Refused {
                why: OutOfMemory,
                back: value,
            });
        };
        let terms = Terms {
            made: Snapshot::of(&value),
            seats: seats as u64,
        };
        slots.push_reserved(Some(value));
        let made = Table::new(alloc, &[word], slots, &terms);
        let Terms { made: _, seats: _ } = terms;
        match made {
            Ok((table, first)) => {
                seat_all(&table.shared, first, &mut all, seats);
                let turn = Turn {
                    table,
                    sleeping: AtomicU32::new(0),
                };
                Ok((turn, all))
            }
            Err(atomic_table::Refused { mut slots }) => {
                let back = slots.pop().unwrap().unwrap();
                slots.destroy_empty();
                all.destroy_empty();
                Err(Refused {
                    why: OutOfMemory,
                    back,
                })
            }
        }
    }

    // Takes the value if it is at home.
    fn try_take(&self, seat: &mut Seat<T>) -> Option<Held<T>>
        requires at { seat.old.at ≡ self.now.at }
        requires free { seat.old.holds ≡ false }
        ensures taken { IfSome result (λ h. IsTaken (meaning T.Kept) (part_of seat.old) h.value) }
        ensures seat { IfSome result (λ h. seat.new
            ≡ record seat.old { seen = T.history h.value; mark = T.mark h.value; change = T.change h.value; holds = true }) }
        ensures none { IfNone result (seat.new ≡ seat.old) }
    {
        let shared = &self.table.shared;
        let word = shared.peek(0);
        if word % 2 == 1 {
            return None;
        }
        let found = shared.compare_exchange::<Takes<T>>(&mut seat.inner, 0, word, word + 1);
        if found != word {
            return None;
        }
        let value = shared.exchange(&mut seat.inner, 0, None).unwrap();
        Some(Held { value })
    }

    // Sleeps until a `give` if the value is out; otherwise returns at once. The seat is counted before it checks whether the
    // value is out, and `give` checks the count after the value is home. So if a `give` finds no seat counted, this check
    // comes after it, and finds the value home, or out again by a seat whose `give` is still to come.
    fn sleep<R: Wait>(&self, rt: &R) {
        let shared = &self.table.shared;
        self.sleeping.fetch_add(1, Ordering::SeqCst);
        let word = shared.peek(0);
        if word % 2 == 1 {
            shared.park(rt, 0, (word % 4294967296) as u32);
        }
        self.sleeping.fetch_sub(1, Ordering::SeqCst);
    }

    /// Takes the value out for this seat. While another seat has it, it backs off, and then sleeps until a `give` wakes it,
    /// so that many waiting seats cost no processor time.
    pub fn take<R: Wait>(&self, rt: &R, seat: &mut Seat<T>) -> Held<T>
        requires at { seat.old.at ≡ self.now.at }
        requires free { seat.old.holds ≡ false }
        ensures setup { T.setup result.value ≡ seat.old.setup }
        ensures legal { IsLegal (T.may_follow seat.old.setup) (T.history result.value) }
        ensures begins { IsPrefix seat.old.seen (T.history result.value) }
        ensures mine { entries_of (T.author seat.old.setup) seat.old.number (T.history result.value) ≡ seat.old.mine }
        ensures marked { seat.old.mark ≡ true → T.mark result.value ≡ true }
        ensures change { seat.old.number ≡ 0 → T.change result.value ≡ seat.old.change }
        ensures seat { seat.new ≡ record seat.old { seen = T.history result.value; mark = T.mark result.value; change = T.change result.value; holds = true } }
    {
        let backoff = Backoff::new();
        for _ in rt.forever() {
            if let Some(held) = self.try_take(seat) {
                return held;
            }
            if backoff.is_completed() {
                self.sleep(rt);
            } else {
                backoff.snooze();
            }
        }
        unreachable!()
    }

    /// Gives the value back, and wakes one seat if some sleep. Only seat 0 may have recorded a change in it. Takes no
    /// memory.
    pub fn give(&self, seat: &mut Seat<T>, held: Held<T>)
        requires at { seat.old.at ≡ self.now.at }
        requires holds { seat.old.holds ≡ true }
        requires setup { T.setup held.value ≡ seat.old.setup }
        requires goes_on { T.history held.value ≡ seat.old.seen ++ added seat.old.seen (T.history held.value) }
        requires legal { MayFollowAll (T.may_follow seat.old.setup) seat.old.seen (added seat.old.seen (T.history held.value)) }
        requires own { AllBy (T.author seat.old.setup) seat.old.number seat.old.seen (added seat.old.seen (T.history held.value)) }
        requires marked { seat.old.mark ≡ true → T.mark held.value ≡ true }
        requires unchanged { (seat.old.number ≡ 0 → ⊥) → T.change held.value ≡ seat.old.change }
        ensures { seat.new ≡ record seat.old {
          seen = T.history held.value;
          mine = seat.old.mine
              ++ added seat.old.seen (T.history held.value);
          mark = T.mark held.value;
          change = T.change held.value;
          holds = false;
        } }
    {
        let Held { value } = held;
        let word = word_at_home(&value);
        let shared = &self.table.shared;
        let empty = shared.exchange(&mut seat.inner, 0, Some(value));
        let None = empty else { unreachable!() };
        shared.store::<Gives<T>>(&mut seat.inner, 0, word);
        if self.sleeping.load(Ordering::SeqCst) > 0 {
            shared.wake_one(0);
        }
    }

    /// Closes the turn with all its seats, and returns the value. Takes no memory.
    pub fn close(self, seats: Vec<Seat<T>>) -> T
        requires all { AreAllSeats self seats.items }
        ensures setup { T.setup result ≡ self.setup }
        ensures legal { IsLegal (T.may_follow self.setup) (T.history result) }
        ensures begins { All (λ s. IsPrefix s.seen (T.history result)) seats.items }
        ensures mine { All (λ s. entries_of (T.author self.setup) s.number (T.history result) ≡ s.mine) seats.items }
        ensures others { (n : ℕ) → self.seats ≤ n → entries_of (T.author self.setup) n (T.history result) ≡ [] }
        ensures marked { All (λ s. s.mark ≡ true → T.mark result ≡ true) seats.items }
        ensures change { All (λ s. s.number ≡ 0 → T.change result ≡ s.change) seats.items }
    {
        let Turn { table, sleeping: _ } = self;
        let all = join_all(&table.shared, seats);
        let mut closed = table.close_with(all);
        let value = closed.take(0).unwrap();
        closed.free();
        value
    }
}
