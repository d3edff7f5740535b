// The callers of functions for the batchers of a run, scripted in memory or over HTTP.
ghost use Rattle.std.specs.Prelude.{◌≡◌, [], false, length, IfOk};
ghost use Rattle.std.specs.List.{All};
ghost use Rattle.esm_io.specs.Script.{HasNoLost};
ghost use Rattle.esm_io.specs.Caller.{new_caller};
ghost use Rattle.esm_invoke.specs.declared.program_caller.ProgramCaller.TheVariants as kind;
ghost use Rattle.esm.specs.Callers.{IsCaller, answerer};

use crate::functions::Functions;
use esm_invoke::{HttpCaller, ProgramCaller};
use esm_io::{Script, ScriptCaller};
use esm_model::{Bytes, MAX_LANES, OutOfMemory, Reply};
use std::alloc::Global;
use std::net::Net;
use std::rt::Clock;
use std::time::Duration;

/// Makes a caller in memory that answers by the script.
fn scripted<R: Net + Clock + Clone>(alloc: Global, script: Script) -> ProgramCaller<R>
    requires { HasNoLost script }
    ensures { elim result [ kind.Script caller ↦ caller ≡ new_caller script [] false | kind.Http caller ↦ ⊥ ] }
{
    ProgramCaller::Script(ScriptCaller::new(alloc, script, Vec::new(alloc)))
}

/// Makes a caller that answers as the functions say. Over HTTP it limits each call to `timeout` seconds.
fn caller<R: Net + Clock + Clone>(
    rt: &R,
    alloc: Global,
    functions: Functions<'_>,
    timeout: u32,
) -> Result<ProgramCaller<R>, OutOfMemory>
    ensures { IfOk result (λ c. IsCaller functions.entry timeout (answerer c)) }
{
    match functions {
        Functions::Succeed => Ok(scripted(
            alloc,
            Script::Always(Reply::Answered {
                status: 200,
                error: false,
                body: Bytes::from_vec(Vec::new(alloc)),
            }),
        )),
        Functions::Poison(text) => {
            let bytes = Vec::from_slice(alloc, text.as_bytes())?;
            Ok(scripted(alloc, Script::Poison(Bytes::from_vec(bytes))))
        }
        Functions::Port(port) => {
            let limit = Duration::from_secs(u64::from(timeout));
            Ok(ProgramCaller::Http(HttpCaller::new(rt, alloc, port, limit)?))
        }
    }
}

/// Makes the callers that answer as the functions say, one for each batcher. Over HTTP each call is limited to `timeout`
/// seconds. `OutOfMemory` if an allocation failed.
pub fn callers<R: Net + Clock + Clone>(
    rt: &R,
    alloc: Global,
    functions: Functions<'_>,
    timeout: u32,
) -> Result<Vec<ProgramCaller<R>>, OutOfMemory>
    ensures count { IfOk result (λ callers. length callers.items ≡ MAX_LANES) }
    ensures each { IfOk result (λ callers. All (λ c. IsCaller functions.entry timeout (answerer c)) callers.items) }
{
    let mut callers = Vec::with_capacity(alloc, MAX_LANES)?;
    for batcher in 0..MAX_LANES {
        let caller = caller(rt, alloc, functions, timeout)?;
        callers.push(caller)?;
    }
    Ok(callers)
}
