// Keeping replies while memory lasts.
ghost use Rattle.std.specs.Prelude.{◌≡◌, [], ◌∷◌, ◌++◌, Some, None, IfOk, IfSome};

use esm_model::{OutOfMemory, Reply};
use std::alloc::Global;

/// A copy of a reply.
fn copied(alloc: Global, reply: &Reply) -> Result<Reply, OutOfMemory>
    ensures { IfOk result (λ copy. copy ≡ reply.now) }
{
    match reply {
        Reply::Answered {
            status,
            error,
            body,
        } => Ok(Reply::Answered {
            status: *status,
            error: *error,
            body: body.copy(alloc)?,
        }),
        Reply::Garbled { bytes } => Ok(Reply::Garbled {
            bytes: bytes.copy(alloc)?,
        }),
        Reply::Lost => Ok(Reply::Lost),
    }
}

/// Appends a copy of the reply to the kept ones, if replies are kept. If memory runs out, none are kept from then on, so
/// replies that are kept are always all of them.
pub(crate) fn keep(alloc: Global, kept: &mut Option<Vec<Reply>>, reply: &Reply)
    ensures none { kept.old ≡ None → kept.new ≡ None }
    ensures more { IfSome kept.old (λ before. IfSome kept.new (λ now. now.items ≡ before.items ++ reply.now ∷ [])) }
{
    let Some(mut replies) = kept.take() else {
        return;
    };
    let Ok(copy) = copied(alloc, reply) else {
        return;
    };
    if replies.push(copy).is_ok() {
        *kept = Some(replies);
    }
}
