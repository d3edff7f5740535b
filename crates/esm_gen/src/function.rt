// The function of a generated stream, and its callers.
ghost use Rattle.std.specs.Prelude.{◌≡◌, Some, [], ◌∷◌, length, IfOk, OnErr};
ghost use Rattle.std.specs.List.{All};
ghost use Rattle.esm_model.specs.declared.limits.TheConstants.{MAX_LANES};
ghost use Rattle.esm_io.specs.Faults.{IsCount, Rose};
ghost use Rattle.esm_io.specs.Told.{Grows};
ghost use Rattle.esm_io.specs.Caller.{CallerState};
ghost use Rattle.esm_gen.specs.Function.{IsFunction};

use crate::mapping::poisoned_key;
use esm_io::{Caller, Script, ScriptCaller};
use esm_model::{MAX_LANES, OutOfMemory, Reply};
use std::alloc::Global;
use std::marker::Model;

/// A caller, in memory, of the function of a generated stream. It fails each event that holds a record of one key and loses
/// no call. Contracts see all calls.
#[derive(Drop)]
pub struct FunctionCaller {
    caller: ScriptCaller,
}

impl Model for FunctionCaller {
    ghost use Rattle.esm_io.specs.Caller.{CallerState};
    ghost use Rattle.esm_gen.specs.Function.{IsFunction};

    ghost Value = { CallerState };

    ghost view = { λ f. f.caller };

    ghost invariant = { λ f. IsFunction f.caller };
}

impl FunctionCaller {
    /// Makes a caller that has made no call.
    fn new(alloc: Global) -> Result<Self, OutOfMemory>
        ensures { IfOk result (λ f. f.log ≡ []) }
    {
        let script = Script::Poison(poisoned_key(alloc)?);
        Ok(FunctionCaller {
            caller: ScriptCaller::new(alloc, script, Vec::new(alloc)),
        })
    }

    /// States what is true of every caller of the function. Does nothing.
    fn keeps(&self)
        ensures { IsFunction self.now }
    {
        let _ = &self.caller;
    }
}

impl Caller for FunctionCaller {
    ghost faults = { λ f. f.schedule.faults };

    ghost sends = { λ event. event };

    ghost log = { λ f. Some f.log };

    fn call(&mut self, alloc: Global, name: &str, event: &[u8]) -> Result<Reply, OutOfMemory>
        ensures logged { IfOk result (λ reply. Grows (Some self.old.log) (Some self.new.log)
            (record { name = name.now; event = event.now; reply = reply } ∷ [])) }
        ensures unlogged { OnErr result (Some self.new.log ≡ Some self.old.log) }
        ensures count { IsCount self.old.schedule.faults self.new.schedule.faults }
        ensures lost { IfOk result (λ reply. reply ≡ Reply.Lost → Rose self.old.schedule.faults self.new.schedule.faults) }
    {
        self.caller.call(alloc, name, event)
    }
}

/// Makes the callers of the function, one for each batcher, which have made no call. `OutOfMemory` if an allocation failed.
pub fn function_callers(alloc: Global) -> Result<Vec<FunctionCaller>, OutOfMemory>
    ensures count { IfOk result (λ callers. length callers.items ≡ MAX_LANES) }
    ensures unused { IfOk result (λ callers. All (λ f. f.log ≡ []) callers.items) }
{
    let mut callers = Vec::with_capacity(alloc, MAX_LANES)?;
    for batcher in 0..MAX_LANES {
        let caller = FunctionCaller::new(alloc)?;
        callers.push(caller)?;
    }
    Ok(callers)
}

/// States what is true of callers of the function, whatever they called. Does nothing.
pub fn all_keep(callers: &[FunctionCaller])
    ensures { All IsFunction callers.now }
{
    for caller in callers {
        caller.keeps();
    }
}
