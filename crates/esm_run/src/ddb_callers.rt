// Wraps the world's callers for the run of a DynamoDB stream, and unwraps them.
ghost use Rattle.std.specs.Prelude.{◌≡◌, ◌≤◌, [], length, vec_capacity};
ghost use Rattle.esm_run.specs.Under.{callers_under};

use esm_ddb::DdbCaller;
use esm_io::Caller;

/// Moves the callers into callers over them, in their order. Takes no memory, and the callers' vector keeps its capacity.
pub fn wrap<F: Caller>(callers: &mut Vec<F>, wrapped: &mut Vec<DdbCaller<F>>)
    requires room { (wrapped.old.items ≡ []) × (length callers.old.items ≤ vec_capacity wrapped.old) }
    ensures taken { callers.new.items ≡ [] }
    ensures callers { callers_under wrapped.new.items ≡ callers.old.items }
    ensures room { vec_capacity callers.new ≡ vec_capacity callers.old }
{
    while let Some(caller) = callers.pop() {
        wrapped.push_reserved(DdbCaller::new(caller));
    }
    wrapped.reverse();
}

/// Moves the callers below back into their vector, in their order. Takes no memory.
pub fn unwrap<F: Caller>(mut wrapped: Vec<DdbCaller<F>>, callers: &mut Vec<F>)
    requires empty { callers.old.items ≡ [] }
    requires room { length wrapped.items ≤ vec_capacity callers.old }
    ensures { callers.new.items ≡ callers_under wrapped.items }
{
    wrapped.reverse();
    while let Some(caller) = wrapped.pop() {
        callers.push_reserved(caller.into_inner());
    }
    wrapped.destroy_empty();
}
