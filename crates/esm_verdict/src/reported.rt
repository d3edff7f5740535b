//! The positions that an answer reports as failed.
ghost use Rattle.std.specs.Prelude.{◌≡◌, ℕ, List, IfOk, Some, option_map, option_copied};
ghost use Rattle.serde_json.specs.View.{view, items_view};
ghost use Rattle.esm_model.specs.Reading.{reported, all_reported};
ghost use Rattle.esm_verdict.specs.Indexed.{Indexes};
ghost use Rattle.esm_verdict.specs.Reported.{listed, listed_at};

use crate::index::Index;
use esm_model::{OutOfMemory, Places};
use serde_json::Value;
use std::alloc::Global;

/// The failures in the value of `batchItemFailures`; `None` where it is no list.
fn listed_at(value: Option<&Value>) -> Option<&[Value]>
    ensures { option_map (λ failures. items_view failures.now) result ≡ listed_at (option_map view (option_copied value.entry)) }
{
    match value {
        None | Some(Value::Null) => Some(&[]),
        Some(Value::Array(failures)) => Some(failures.as_slice()),
        Some(_) => None,
    }
}

/// The failures that an answer lists; `None` where it does not say what failed.
pub fn listed(answer: &Value) -> Option<&[Value]>
    ensures { option_map (λ failures. items_view failures.now) result ≡ listed (view answer.now) }
{
    match answer {
        Value::Null => Some(&[]),
        Value::Object(_) => listed_at(answer.get("batchItemFailures")),
        Value::Bool(_) | Value::Number(_) | Value::String(_) | Value::Array(_) => None,
    }
}

/// The position in the batch that a failure reports, if it reports one.
fn position_of(index: &Index, failure: &Value) -> Option<u32>
    ensures { (ids : List (List ℕ)) → Indexes ids index.now → result ≡ reported ids (view failure.now) }
{
    index.find(failure.get("itemIdentifier")?.as_str()?)
}

/// The positions that the failures report; `None` if one of them reports no position of the batch.
pub fn positions_of(
    alloc: Global,
    index: &Index,
    failures: &[Value],
) -> Result<Option<Places>, OutOfMemory>
    ensures { (ids : List (List ℕ)) → Indexes ids index.now → IfOk result (λ found. found ≡ all_reported ids (items_view failures.now)) }
{
    let mut positions = Vec::new(alloc);
    for failure in failures {
        match position_of(index, failure) {
            Some(position) => positions.push(position)?,
            None => return Ok(None),
        }
    }
    Ok(Some(Places::from_vec(positions)))
}
