// The caller that keeps replies.
ghost use Rattle.std.specs.Prelude.{◌≡◌, option_map};
ghost use Rattle.esm_recorder.specs.Recorder.{IsRecorder, log_of, new_recorder};

use crate::call::{Call, no_calls, note_call};
use crate::keeping::keep;
use esm_io::Caller;
use esm_model::{Called, OutOfMemory, Reply};
use std::alloc::Global;
use std::collections::LinkedList;
use std::marker::Model;
use std::snapshot::Snapshot;

/// A caller over another one. Each of its calls is one call of the caller below. If it was told to, it keeps a copy of each
/// reply, in the order of the calls. If memory for a copy runs out, it keeps no replies from then on, and the calls
/// continue.
///
/// Contracts see the caller below as it is now and as it was handed in, the calls made since, and the replies that are kept.
#[derive(Drop)]
pub struct Recorder<F: Caller> {
    caller: F,
    kept: Option<Vec<Reply>>,
    /// The caller as it was handed in, and the calls made since, only for the contracts.
    found: Snapshot<F>,
    calls: Snapshot<LinkedList<Called>>,
}

impl<F: Caller> Model for Recorder<F> {
    ghost use Rattle.std.specs.Prelude.{option_map};
    ghost use Rattle.esm_recorder.specs.Recorder.{RecorderState, IsRecorder, as_sent};

    ghost Value = { RecorderState F };

    ghost view = { λ r. record { caller = r.caller; found = r.found.value; logged = as_sent F.sends r.calls.value; kept = option_map (λ v. v.items) r.kept } };

    ghost invariant = { λ r. IsRecorder F.log
        (record { caller = r.caller; found = r.found.value; logged = as_sent F.sends r.calls.value; kept = option_map (λ v. v.items) r.kept }) };
}

impl<F: Caller> Recorder<F> {
    /// Makes a recorder that has made no call; `keeps` says whether it keeps replies. Takes no memory.
    pub fn new(alloc: Global, caller: F, keeps: bool) -> Recorder<F>
        ensures { result ≡ new_recorder keeps caller }
    {
        let kept = if keeps { Some(Vec::new(alloc)) } else { None };
        let found = Snapshot::of(&caller);
        Recorder {
            caller,
            kept,
            found,
            calls: no_calls(alloc),
        }
    }

    /// Returns the caller below, as the calls left it, and the replies to all of them, if they are kept. Takes no memory.
    pub fn into_parts(self) -> (F, Option<Vec<Reply>>)
        ensures caller { result.0 ≡ self.caller }
        ensures kept { option_map (λ v. v.items) result.1 ≡ self.kept }
        ensures recorded { IsRecorder F.log self }
    {
        let Recorder {
            caller,
            kept,
            found: _,
            calls: _,
        } = self;
        (caller, kept)
    }
}

impl<F: Caller> Caller for Recorder<F> {
    ghost faults = { λ r. F.faults r.caller };

    ghost sends = { F.sends };

    ghost log = { λ r. log_of F.log r };

    fn call(&mut self, alloc: Global, name: &str, event: &[u8]) -> Result<Reply, OutOfMemory> {
        let reply = self.caller.call(alloc, name, event)?;
        let call = Call {
            name,
            event,
            reply: &reply,
        };
        note_call(&mut self.calls, alloc, &call);
        keep(alloc, &mut self.kept, &reply);
        Ok(reply)
    }
}
