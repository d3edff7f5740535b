// Seats and callers move into hands, and back.
ghost use Rattle.std.specs.Prelude.{◌≡◌, ◌+◌, ◌≤◌, [], ◌∷◌, length, vec_capacity};
ghost use Rattle.esm_workers.specs.Packs.{seats_of, callers_of};

use crate::hand::Hand;
use esm_turn::Seat;

// Moves the seats after the first, and the callers, into hands, in order. Returns the first seat.
pub(crate) fn pack<T, F>(
    seats: &mut Vec<Seat<T>>,
    callers: &mut Vec<F>,
    hands: &mut Vec<Hand<T, F>>,
) -> Seat<T>
    requires count { length seats.old.items ≡ length callers.old.items + 1 }
    requires room { (hands.old.items ≡ []) × (length callers.old.items ≤ vec_capacity hands.old) }
    ensures seats { (seats.new.items ≡ []) × (result ∷ seats_of hands.new.items ≡ seats.old.items) }
    ensures callers { (callers.new.items ≡ []) × (callers_of hands.new.items ≡ callers.old.items) }
    ensures room { (vec_capacity seats.new ≡ vec_capacity seats.old) × (vec_capacity callers.new ≡ vec_capacity callers.old) }
{
    while let Some(caller) = callers.pop() {
        let seat = seats.pop().unwrap();
        hands.push_reserved(Hand {
            seat,
            caller,
            short: false,
        });
    }
    hands.reverse();
    seats.pop().unwrap()
}

// Moves the first seat, and the seats and callers of the hands, back into their vectors, in order.
pub(crate) fn unpack<T, F>(
    first: Seat<T>,
    mut worked: Vec<Hand<T, F>>,
    seats: &mut Vec<Seat<T>>,
    callers: &mut Vec<F>,
)
    requires empty { (seats.old.items ≡ []) × (callers.old.items ≡ []) }
    requires room { (length worked.items + 1 ≤ vec_capacity seats.old) × (length worked.items ≤ vec_capacity callers.old) }
    ensures seats { seats.new.items ≡ first ∷ seats_of worked.items }
    ensures callers { callers.new.items ≡ callers_of worked.items }
{
    seats.push_reserved(first);
    worked.reverse();
    while let Some(hand) = worked.pop() {
        let Hand {
            seat,
            caller,
            short: _,
        } = hand;
        seats.push_reserved(seat);
        callers.push_reserved(caller);
    }
    worked.destroy_empty();
}
