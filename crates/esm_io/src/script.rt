// The scripts of a caller in memory: which reply it gives to each event.
ghost use Rattle.std.specs.Prelude.{◌≡◌, slice_index_or, IfOk};
ghost use Rattle.esm_io.specs.Script.{answer_of, is_within, plain_reply, error_reply};

use esm_model::{Bytes, OutOfMemory, Reply};
use memchr::memmem;
use std::alloc::Global;

/// What a scripted caller answers. A `ScriptCaller` requires that no reply of its script is `Lost`.
#[derive(Drop, Debug)]
pub enum Script {
    /// This reply to each call.
    Always(Reply),
    /// These replies in order, and afterwards status 200 with no body. A call that is lost uses up none of them.
    Each(Vec<Reply>),
    /// Status 200 with the function error if the event contains the text; otherwise status 200. There is no body.
    Poison(Bytes),
}

/// The reply to an event, after `given` replies.
pub fn answer(
    alloc: Global,
    script: &Script,
    given: usize,
    event: &[u8],
) -> Result<Reply, OutOfMemory>
    ensures { IfOk result (λ reply. reply ≡ answer_of script.now given event.now) }
{
    match script {
        Script::Always(reply) => copy_reply(alloc, reply),
        Script::Each(replies) => reply_at(alloc, replies, given),
        Script::Poison(text) => Ok(empty_reply(alloc, contains(event, text.as_slice()))),
    }
}

/// The reply with this number, or status 200 with no body past the last one.
fn reply_at(alloc: Global, replies: &[Reply], given: usize) -> Result<Reply, OutOfMemory>
    ensures { IfOk result (λ reply. reply ≡ slice_index_or replies.now given plain_reply) }
{
    if given < replies.len() {
        copy_reply(alloc, &replies[given])
    } else {
        Ok(empty_reply(alloc, false))
    }
}

/// Status 200 with no body, with or without the function error.
fn empty_reply(alloc: Global, error: bool) -> Reply
    ensures { result ≡ error_reply error }
{
    Reply::Answered {
        status: 200,
        error,
        body: Bytes::from_vec(Vec::new(alloc)),
    }
}

/// Whether the text occurs in the event.
fn contains(event: &[u8], text: &[u8]) -> bool
    ensures { result ≡ is_within text.now event.now }
{
    memmem::find(event, text).is_some()
}

/// A copy of a reply.
pub fn copy_reply(alloc: Global, reply: &Reply) -> Result<Reply, OutOfMemory>
    ensures { IfOk result (λ copy. copy ≡ reply.now) }
{
    match reply {
        Reply::Answered {
            status,
            error,
            body,
        } => {
            let body = Bytes::from_vec(Vec::from_slice(alloc, body.as_slice())?);
            Ok(Reply::Answered {
                status: *status,
                error: *error,
                body,
            })
        }
        Reply::Garbled { bytes } => {
            let bytes = Bytes::from_vec(Vec::from_slice(alloc, bytes.as_slice())?);
            Ok(Reply::Garbled { bytes })
        }
        Reply::Lost => Ok(Reply::Lost),
    }
}
