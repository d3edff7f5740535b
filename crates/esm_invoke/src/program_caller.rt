// The caller that the words of the program choose: scripted in memory, or over HTTP.
ghost use Rattle.std.specs.Prelude.{Some, None};

use crate::http_caller::HttpCaller;
use esm_io::{Caller, ScriptCaller};
use esm_model::{OutOfMemory, Reply};
use std::alloc::Global;
use std::net::Net;
use std::rt::Clock;

/// The caller that the program's words choose.
#[derive(Drop)]
pub enum ProgramCaller<R: Net + Clock + Clone> {
    /// Replies in memory.
    Script(ScriptCaller),
    /// Functions that a server on this machine runs.
    Http(HttpCaller<R>),
}

impl<R: Net + Clock + Clone> Caller for ProgramCaller<R> {
    ghost use Rattle.esm_invoke.specs.declared.program_caller.ProgramCaller.TheVariants.{Script, Http};

    ghost faults = { λ c. elim c [ Script caller ↦ caller.schedule.faults | Http caller ↦ caller.faults ] };

    ghost sends = { λ event. event };

    ghost log = { λ c. elim c [ Script caller ↦ Some caller.log | Http caller ↦ None ] };

    fn call(&mut self, alloc: Global, name: &str, event: &[u8]) -> Result<Reply, OutOfMemory> {
        match self {
            ProgramCaller::Script(caller) => caller.call(alloc, name, event),
            ProgramCaller::Http(caller) => caller.call(alloc, name, event),
        }
    }
}
