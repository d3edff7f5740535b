// Judging a whole request: the command that it asks for, or its refusal.
ghost use Rattle.std.specs.Prelude.{◌≡◌, ◌≤◌, length, option_map, IfOk};
ghost use Rattle.serde_json.specs.View.{view};
ghost use Rattle.esm_api.specs.Plan.{body_bytes};
ghost use Rattle.esm_api.specs.Request.{judged, changing};
ghost use Rattle.esm_api.specs.Judged.{judgement_of};

use crate::plan::{Change, Plan};
use crate::refusal::Refusal;
use esm_model::{OutOfMemory, parse_json};
use esm_registry::Command;
use serde_json::Value;
use std::alloc::Global;

/// What a whole request is judged to be before its command is applied.
#[derive(Drop)]
pub enum Judged {
    Refused(Refusal),
    Asks(Command),
}

/// Judges the bytes behind the head by its plan.
pub fn judge(alloc: Global, plan: Plan, after: &[u8]) -> Result<Judged, OutOfMemory>
    requires { body_bytes plan ≤ length after.now }
    ensures { IfOk result (λ judgement. judgement_of judgement ≡ judged plan after.now) }
{
    match plan {
        Plan::Refuse(row) => Ok(Judged::Refused(row)),
        Plan::List => Ok(Judged::Asks(Command::List)),
        Plan::Get(id) => Ok(Judged::Asks(Command::Get(id))),
        Plan::Delete(id) => Ok(Judged::Asks(Command::Delete(id))),
        Plan::Read(change, count) => {
            let (body, _) = after.split_at(count);
            Ok(changing(change, parse_json(alloc, body)?))
        }
    }
}

/// The command of the change with its body's value. `Refused` where the body is not JSON (`None`), or the path ends in no
/// UUID.
fn changing(change: Change, value: Option<Value>) -> Judged
    ensures { judgement_of result ≡ changing change (option_map view value) }
{
    let Some(value) = value else {
        return Judged::Refused(Refusal::Json);
    };
    match change {
        Change::Create => Judged::Asks(Command::Create(value)),
        Change::Update(None) => Judged::Refused(Refusal::Mapping),
        Change::Update(Some(id)) => Judged::Asks(Command::Update(id, value)),
    }
}
