// Tests: the replies that are kept are those to the calls, and the callers come back.
use crate::{Recorder, record, take_apart};
use esm_io::{Caller, Script, ScriptCaller};
use esm_model::{Bytes, OutOfMemory, Reply};
use std::alloc::Global;
use std::test::Fail;

/// A caller whose function fails if the event has a `b`.
fn caller(alloc: Global) -> Result<ScriptCaller, OutOfMemory> {
    let text = Bytes::from_vec(vec![in alloc; b'b']?);
    Ok(ScriptCaller::new(alloc, Script::Poison(text), Vec::new(alloc)))
}

/// Whether the reply is of a function that failed.
fn has_failed(reply: &Reply) -> bool {
    match reply {
        Reply::Answered { error, .. } => *error,
        _ => false,
    }
}

#[test]
fn replies_in_order(rt: HostRuntime) -> Result<(), Fail> {
    let alloc = rt.alloc();
    let mut recorder = Recorder::new(alloc, caller(alloc)?, true);
    recorder.call(alloc, "f", b"a")?;
    recorder.call(alloc, "f", b"b")?;
    let (_, kept) = recorder.into_parts();
    let replies = kept.expect(&rt, "the replies are kept");
    assert_eq!(rt; replies.len(), 2);
    assert!(rt; !has_failed(&replies[0]));
    assert!(rt; has_failed(&replies[1]));
    Ok(())
}

#[test]
fn callers_come_back(rt: HostRuntime) -> Result<(), Fail> {
    let alloc = rt.alloc();
    let mut callers = vec![in alloc; caller(alloc)?, caller(alloc)?]?;
    let mut recorders = Vec::with_capacity(alloc, 2)?;
    record(alloc, &mut callers, &mut recorders, true);
    let kept = take_apart(recorders, &mut callers, Some(Vec::with_capacity(alloc, 2)?));
    assert_eq!(rt; callers.len(), 2);
    assert!(rt; kept.is_some());
    Ok(())
}
