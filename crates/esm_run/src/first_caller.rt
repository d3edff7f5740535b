// Takes the first caller out of the callers, and puts it back.
ghost use Rattle.std.specs.Prelude.{◌≡◌, ◌<◌, ◌∷◌, length, reverse, vec_capacity};

/// Takes the first caller out, and leaves the others in reverse order. Takes no memory.
pub fn take_first<F>(callers: &mut Vec<F>) -> F
    requires { 0 < length callers.old.items }
    ensures first { callers.old.items ≡ result ∷ reverse callers.new.items }
    ensures room { length callers.new.items < vec_capacity callers.new }
{
    callers.reverse();
    callers.pop().unwrap()
}

/// Puts the first caller back before the others, which are in reverse order. Takes no memory.
pub fn put_first<F>(callers: &mut Vec<F>, first: F)
    requires { length callers.old.items < vec_capacity callers.old }
    ensures { callers.new.items ≡ first ∷ reverse callers.old.items }
{
    callers.push_reserved(first);
    callers.reverse();
}
