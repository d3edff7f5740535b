// The room that a run's callers need while they are recorded.
ghost use Rattle.std.specs.Prelude.{◌≡◌, ◌≤◌, [], is_some, vec_capacity, IfOk, IfSome};
ghost use Rattle.esm_model.specs.declared.limits.TheConstants.{MAX_LANES};
ghost use Rattle.esm_traced.specs.Room.{IsRoom};

use esm_io::Caller;
use esm_model::{MAX_LANES, OutOfMemory, Reply};
use esm_recorder::Recorder;
use std::alloc::Global;

/// Room for the callers of a run while they are recorded and, if its trace is asked for, for the replies of each.
pub struct Room<F: Caller> {
    /// Whether the trace is asked for.
    pub trace: bool,
    pub(crate) recorders: Vec<Recorder<F>>,
    pub(crate) lists: Option<Vec<Vec<Reply>>>,
}

/// Reserves room for the replies of each caller, if the trace is asked for.
fn lists(alloc: Global, trace: bool) -> Result<Option<Vec<Vec<Reply>>>, OutOfMemory>
    ensures listed { IfOk result (λ lists. is_some lists ≡ trace) }
    ensures room { IfOk result (λ lists. IfSome lists (λ v. (v.items ≡ []) × (MAX_LANES ≤ vec_capacity v))) }
{
    if !trace {
        return Ok(None);
    }
    let lists = Vec::with_capacity(alloc, MAX_LANES)?;
    Ok(Some(lists))
}

impl<F: Caller> Room<F> {
    /// Reserves the room for a run; `trace` says whether its trace is asked for. `OutOfMemory` if an allocation failed.
    pub fn new(alloc: Global, trace: bool) -> Result<Room<F>, OutOfMemory>
        ensures room { IfOk result IsRoom }
        ensures asked { IfOk result (λ room. room.trace ≡ trace) }
    {
        let lists = lists(alloc, trace)?;
        let recorders = Vec::with_capacity(alloc, MAX_LANES)?;
        Ok(Room {
            trace,
            recorders,
            lists,
        })
    }
}
