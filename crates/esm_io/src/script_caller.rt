// A caller in memory that answers by a script, and keeps copies of its calls if asked to.
ghost use Rattle.std.specs.Prelude.{◌≡◌, Some, [], ◌∷◌, ◌++◌, map, true, false, if◌then◌else◌, is_some, IfOk, IfSome, OnOk, OnErr};
ghost use Rattle.esm_io.specs.Faults.{IsCount, Rose};
ghost use Rattle.esm_io.specs.Told.{Grows};
ghost use Rattle.esm_io.specs.Schedule.{is_due, one_more, after_call};
ghost use Rattle.esm_io.specs.Caller.{new_caller};
ghost use Rattle.esm_io.specs.Script.{answer_of, HasNoLost};
ghost use Rattle.esm_model.specs.declared.called.Called.{Called};

use crate::caller::Caller;
use crate::schedule::Schedule;
use crate::script::{Script, answer, copy_reply};
use esm_model::{Bytes, Called, OutOfMemory, Reply, Text};
use std::alloc::Global;
use std::marker::Model;
use std::mem;
use std::snapshot::Snapshot;

/// A caller in memory that answers by a script. Contracts see all calls made. Copies that a program can read are kept only
/// by a caller that `recording` made, so a long run does not keep the events that it sent.
#[derive(Drop)]
pub struct ScriptCaller {
    script: Script,
    given: usize,
    log: Vec<Snapshot<Called>>,
    copies: Option<Vec<Called>>,
    schedule: Schedule,
    // Memory for the event of the next call, reused from that of the last one.
    spare: Vec<u8>,
}

impl Model for ScriptCaller {
    ghost use Rattle.std.specs.Prelude.{map, ◌≡◌, IfSome, is_some};
    ghost use Rattle.esm_io.specs.Caller.{CallerState};
    ghost use Rattle.esm_io.specs.Script.{HasNoLost};

    ghost Value = { CallerState };

    ghost view = { λ s. record {
      script = s.script;
      given = s.given;
      log = map
          (λ c. c.value) s.log.items;
      keeps_copies = is_some s.copies;
      schedule = s.schedule;
    } };

    ghost invariant = { λ s. HasNoLost s.script × IfSome s.copies (λ c. c.items ≡ map (λ c. c.value) s.log.items) };
}

impl ScriptCaller {
    /// Makes a caller that keeps no copies. `fails` are the numbers of the calls that are to be lost, counted from 0.
    pub fn new(alloc: Global, script: Script, fails: Vec<u64>) -> Self
        requires { HasNoLost script }
        ensures { result ≡ new_caller script fails.items false }
    {
        Self::with_copies(alloc, script, fails, None)
    }

    /// Makes a caller like `new` does, which keeps copies of its calls.
    pub fn recording(alloc: Global, script: Script, fails: Vec<u64>) -> Self
        requires { HasNoLost script }
        ensures { result ≡ new_caller script fails.items true }
    {
        Self::with_copies(alloc, script, fails, Some(Vec::new(alloc)))
    }

    fn with_copies(
        alloc: Global,
        script: Script,
        fails: Vec<u64>,
        copies: Option<Vec<Called>>,
    ) -> Self
        requires script { HasNoLost script }
        requires copies { IfSome copies (λ c. c.items ≡ []) }
        ensures { result ≡ new_caller script fails.items (is_some copies) }
    {
        ScriptCaller {
            script,
            given: 0,
            log: Vec::new(alloc),
            copies,
            schedule: Schedule::new(fails),
            spare: Vec::new(alloc),
        }
    }

    /// The calls made, in order, where it keeps copies of them.
    pub fn log(&self) -> Option<&[Called]>
        ensures log { IfSome result (λ log. log.now ≡ self.now.log) }
        ensures some { is_some result ≡ self.now.keeps_copies }
    {
        match &self.copies {
            Some(copies) => Some(copies.as_slice()),
            None => None,
        }
    }
}

/// A call as it is logged. Its event is written into the memory of `spare`.
fn called(
    alloc: Global,
    mut spare: Vec<u8>,
    name: &str,
    event: &[u8],
    reply: &Reply,
) -> Result<Called, OutOfMemory>
    ensures { IfOk result (λ called. called ≡ record { name = name.now; event = event.now; reply = reply.now }) }
{
    spare.clear();
    spare.extend_from_slice(event)?;
    Ok(Called {
        name: Text::from_vec(String::from_str(alloc, name)?),
        event: Bytes::from_vec(spare),
        reply: copy_reply(alloc, reply)?,
    })
}

/// The memory of the event of a call.
fn memory_of(called: Called) -> Vec<u8> {
    called.event.into_vec()
}

/// Adds a call to the end of the log, and of the copies if there are any; otherwise its event's memory is returned for
/// reuse.
fn log_call(
    alloc: Global,
    log: &mut Vec<Snapshot<Called>>,
    copies: &mut Option<Vec<Called>>,
    called: Called,
) -> Result<Vec<u8>, OutOfMemory>
    requires { IfSome copies.old (λ c. c.items ≡ map (λ c. c.value) log.old.items) }
    ensures logged { OnOk result (map (λ c. c.value) log.new.items ≡ map (λ c. c.value) log.old.items ++ called ∷ []) }
    ensures unlogged { OnErr result (map (λ c. c.value) log.new.items ≡ map (λ c. c.value) log.old.items) }
    ensures copies { IfSome copies.new (λ c. c.items ≡ map (λ c. c.value) log.new.items) }
    ensures keeps { is_some copies.new ≡ is_some copies.old }
{
    log.reserve(1)?;
    let told = Snapshot::of(&called);
    let spare = match copies {
        Some(copies) => {
            copies.push(called)?;
            Vec::new(alloc)
        }
        None => memory_of(called),
    };
    log.push_reserved(told);
    Ok(spare)
}

impl Caller for ScriptCaller {
    ghost faults = { λ s. s.schedule.faults };

    ghost sends = { λ event. event };

    ghost log = { λ s. Some s.log };

    fn call(&mut self, alloc: Global, name: &str, event: &[u8]) -> Result<Reply, OutOfMemory>
        ensures logged { IfOk result (λ reply. Grows (Some self.old.log) (Some self.new.log)
            (record { name = name.now; event = event.now; reply = reply } ∷ [])) }
        ensures unlogged { OnErr result (Some self.new.log ≡ Some self.old.log) }
        ensures count { IsCount self.old.schedule.faults self.new.schedule.faults }
        ensures lost { IfOk result (λ reply. reply ≡ Reply.Lost → Rose self.old.schedule.faults self.new.schedule.faults) }
        ensures due { IfOk result (λ reply. is_due self.old.schedule ≡ true → reply ≡ Reply.Lost) }
        ensures scripted { IfOk result (λ reply. is_due self.old.schedule ≡ false → reply ≡ answer_of self.old.script self.old.given event.now) }
        ensures given { OnOk result (self.new.given ≡ (if is_due self.old.schedule then self.old.given else one_more self.old.given)) }
        ensures given_kept { OnErr result (self.new.given ≡ self.old.given) }
        ensures script { self.new.script ≡ self.old.script }
        ensures copies { self.new.keeps_copies ≡ self.old.keeps_copies }
        ensures counted { self.new.schedule ≡ after_call self.old.schedule }
    {
        let spare = mem::replace(&mut self.spare, Vec::new(alloc));
        if self.schedule.fails_now() {
            let called = called(alloc, spare, name, event, &Reply::Lost)?;
            self.spare = log_call(alloc, &mut self.log, &mut self.copies, called)?;
            return Ok(Reply::Lost);
        }
        let reply = answer(alloc, &self.script, self.given, event)?;
        let called = called(alloc, spare, name, event, &reply)?;
        self.spare = log_call(alloc, &mut self.log, &mut self.copies, called)?;
        self.given = self.given.saturating_add(1);
        Ok(reply)
    }
}
