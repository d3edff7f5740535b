//! The rule that the turn keeps, and what each of its steps says.
ghost use Rattle.esm_model.specs.Kept.{meaning};

use crate::part::{Part, Terms};
use atomic_table::{Join, Play, Split, TableRule};
use esm_model::Kept;
use std::collections::LinkedList;
use std::marker::PhantomData;

/// One word has the history's length, the mark, and whether the value is out; one slot has the value while it is not out.
/// Only seat 0 records a change in the value, so what that seat saw last is what the value has.
pub struct Rule<T> {
    of: PhantomData<T>,
}

impl<T: Kept> TableRule<Option<T>, LinkedList<Part>, Terms<T>> for Rule<T> {
    ghost use Rattle.esm_turn.specs.Rule.{IsKept};
    ghost use Rattle.esm_turn.specs.Parts.{begun_parts};

    ghost holds = { λ key. IsKept (meaning T.Kept) (T.setup key.made.value) key.seats };

    ghost first = { λ key. begun_parts T.author (T.setup key.made.value) (T.history key.made.value) (T.change key.made.value) 0 key.seats };
}

/// Takes the value if the word is still the one that was read.
pub(crate) struct Takes<T> {
    of: PhantomData<T>,
}

impl<T: Kept> Play<Option<T>, LinkedList<Part>> for Takes<T> {
    ghost use Rattle.esm_turn.specs.Rule.{Took};

    ghost then = { λ st m n after. Took (meaning T.Kept) st m n after };
}

/// Gives the value back.
pub(crate) struct Gives<T> {
    of: PhantomData<T>,
}

impl<T: Kept> Play<Option<T>, LinkedList<Part>> for Gives<T> {
    ghost use Rattle.esm_turn.specs.Rule.{Gave};

    ghost then = { λ st m n after. Gave (meaning T.Kept) m after };
}

/// Gives a new seat the first part.
pub(crate) struct Deals;

impl Split<LinkedList<Part>> for Deals {
    ghost use Rattle.esm_turn.specs.Parts.{but_first, first_of_parts};

    ghost left = { but_first };

    ghost right = { first_of_parts };
}

/// Takes the parts of another seat.
pub(crate) struct Gathers;

impl Join<LinkedList<Part>> for Gathers {
    ghost use Rattle.std.specs.Prelude.{[], ◌++◌};

    ghost both = { λ v w. v ++ w };

    ghost spent = { [] };
}
