// Applying a judged request to the registry, and the answer to it.
ghost use Rattle.std.specs.Prelude.{◌≡◌, ◌≤◌, false, IfOk, OnErr};
ghost use Rattle.esm_io.specs.Meanings.{disk as meaning};
ghost use Rattle.esm_api.specs.Judged.{judgement_of};
ghost use Rattle.esm_api.specs.Response.{applied_status, applied_text, failed_text};
ghost use Rattle.esm_api.specs.Given.{Gives, Stands};

use crate::answer::{answer, refusal};
use crate::judge::Judged;
use esm_io::Disk;
use esm_model::OutOfMemory;
use esm_registry::{Applied, ErrorName, Registry, RegistryError};
use std::alloc::Global;

/// An answer: its status code and all of its bytes.
#[derive(Drop)]
pub struct Response {
    pub status: u16,
    pub text: Vec<u8>,
}

/// Applies a judged request to the registry and returns the answer. If the registry's disk fails, that is the refusal
/// with status 500. `OutOfMemory`: an allocation failed; a command that was already accepted stays.
pub fn respond<D: Disk>(
    alloc: Global,
    registry: &mut Registry<D>,
    judged: Judged,
    moment: u64,
) -> Result<Response, OutOfMemory>
    requires { registry.old.journal.down ≡ false }
    ensures given { IfOk result (Gives (meaning D.Disk) registry.old registry.new (judgement_of judged) moment) }
    ensures unanswered { OnErr result (Stands (meaning D.Disk) registry.old registry.new (judgement_of judged) moment) }
    ensures honesty { D.honest registry.new.journal.disk ≡ D.honest registry.old.journal.disk }
    ensures never_falls { D.faults registry.old.journal.disk ≤ D.faults registry.new.journal.disk }
{
    match judged {
        Judged::Refused(row) => Ok(Response {
            status: row.status(),
            text: refusal(alloc, row.status(), row.error(), row.message())?,
        }),
        Judged::Asks(command) => match registry.apply(alloc, command, moment) {
            Ok(applied) => answer_to(alloc, &applied),
            Err(RegistryError::DiskFault) => disk_failed(alloc),
            Err(RegistryError::Down) => unreachable!(),
            Err(RegistryError::OutOfMemory) => Err(OutOfMemory),
        },
    }
}

/// The answer with the result of a command.
fn answer_to(alloc: Global, applied: &Applied) -> Result<Response, OutOfMemory>
    ensures status { IfOk result (λ response. response.status ≡ applied_status applied.now) }
    ensures text { IfOk result (λ response. response.text.items ≡ applied_text applied.now) }
{
    match applied {
        Applied::One { status, mapping } => Ok(Response {
            status: *status,
            text: answer(alloc, *status, mapping.as_slice())?,
        }),
        Applied::Many { mappings } => Ok(Response {
            status: 200,
            text: answer(alloc, 200, mappings.as_slice())?,
        }),
        Applied::Refused {
            status,
            error,
            message,
        } => Ok(Response {
            status: *status,
            text: refusal(alloc, *status, error.name(), message.as_str())?,
        }),
    }
}

/// The answer if the registry's disk failed: status 500.
fn disk_failed(alloc: Global) -> Result<Response, OutOfMemory>
    ensures status { IfOk result (λ response. response.status ≡ 500) }
    ensures text { IfOk result (λ response. response.text.items ≡ failed_text) }
{
    Ok(Response {
        status: 500,
        text: refusal(alloc, 500, ErrorName::ServiceException.name(), "disk")?,
    })
}
