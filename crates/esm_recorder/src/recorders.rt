// Wraps the callers of a run in recorders, and unwraps them again.
ghost use Rattle.std.specs.Prelude.{◌≡◌, ℕ, ◌+◌, ◌<◌, ◌≤◌, [], All, Some, None, IfSome, map, option_map, length, is_some, vec_capacity, vec_len, if◌then◌else◌};
ghost use Rattle.esm_recorder.specs.Lists.{with_last};
ghost use Rattle.esm_recorder.specs.Recorder.{IsRecorder, all_kept, new_recorder};

use crate::recorder::Recorder;
use esm_io::Caller;
use esm_model::Reply;
use std::alloc::Global;

/// Moves the callers into recorders over them, in their order. Takes no memory, and the callers' vector keeps its capacity.
pub fn record<F: Caller>(
    alloc: Global,
    callers: &mut Vec<F>,
    recorders: &mut Vec<Recorder<F>>,
    keeps: bool,
)
    requires room { (recorders.old.items ≡ []) × (length callers.old.items ≤ vec_capacity recorders.old) }
    ensures taken { callers.new.items ≡ [] }
    ensures recorders { recorders.new.items ≡ map (new_recorder keeps) callers.old.items }
    ensures room { vec_capacity callers.new ≡ vec_capacity callers.old }
{
    while let Some(caller) = callers.pop() {
        recorders.push_reserved(Recorder::new(alloc, caller, keeps));
    }
    recorders.reverse();
}

/// Moves the callers below back into their vector, in their order. Returns the replies of each, if `room` is given and every
/// recorder kept its own. Takes no memory.
pub fn take_apart<F: Caller>(
    mut recorders: Vec<Recorder<F>>,
    callers: &mut Vec<F>,
    room: Option<Vec<Vec<Reply>>>,
) -> Option<Vec<Vec<Reply>>>
    requires callers { (callers.old.items ≡ []) × (length recorders.items ≤ vec_capacity callers.old) }
    requires room { IfSome room (λ v. (v.items ≡ []) × (length recorders.items ≤ vec_capacity v)) }
    ensures callers { callers.new.items ≡ map (λ r. r.caller) recorders.items }
    ensures kept { option_map (λ v. map (λ rs. rs.items) v.items) result
        ≡ (if is_some room then all_kept recorders.items else None) }
    ensures recorded { All (IsRecorder F.log) recorders.items }
{
    let mut lists = room;
    recorders.reverse();
    while let Some(recorder) = recorders.pop() {
        let (caller, kept) = recorder.into_parts();
        callers.push_reserved(caller);
        lists = with_list(lists, kept);
    }
    recorders.destroy_empty();
    lists
}

/// Appends one more list, if both are there; `None` otherwise. Takes no memory.
fn with_list(lists: Option<Vec<Vec<Reply>>>, kept: Option<Vec<Reply>>) -> Option<Vec<Vec<Reply>>>
    requires room { IfSome lists (λ v. vec_len v < vec_capacity v) }
    ensures lists { option_map (λ v. map (λ rs. rs.items) v.items) result
        ≡ with_last (option_map (λ v. map (λ rs. rs.items) v.items) lists) (option_map (λ rs. rs.items) kept) }
    ensures room { (left : ℕ) → IfSome lists (λ v. vec_len v + (left + 1) ≤ vec_capacity v)
        → IfSome result (λ v. vec_len v + left ≤ vec_capacity v) }
{
    match (lists, kept) {
        (Some(mut lists), Some(kept)) => {
            lists.push_reserved(kept);
            Some(lists)
        }
        _ => None,
    }
}
