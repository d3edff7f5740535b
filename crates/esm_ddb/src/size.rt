//! How many lexemes a JSON value has.
ghost use Rattle.std.specs.Prelude.{◌≡◌, ◌+◌, IfOk};
ghost use Rattle.json.specs.Value.{items_view, members_view, value_view};
ghost use Rattle.esm_model.specs.State.{items_size, members_size, size};

use esm_model::OutOfMemory;
use json::Value;

/// The sum of the three; `OutOfMemory` if it does not fit.
pub fn passed(at: usize, more: usize, end: usize) -> Result<usize, OutOfMemory>
    ensures { IfOk result (λ n. n ≡ at + more + end) }
{
    let Some(before) = at.checked_add(more) else {
        return Err(OutOfMemory);
    };
    match before.checked_add(end) {
        Some(number) => Ok(number),
        None => Err(OutOfMemory),
    }
}

/// The number of the value's lexemes.
#[cycle(sizes)]
pub fn size(value: &Value<'_>) -> Result<usize, OutOfMemory>
    ensures { IfOk result (λ n. n ≡ size (value_view value.now)) }
{
    match value {
        Value::Null | Value::Bool(_) | Value::Number(_) | Value::String(_) => Ok(1),
        Value::Array(items) => items_size(items),
        Value::Object(members) => members_size(members),
    }
}

/// The number of a list's lexemes: its bracket, and each item with the comma or bracket behind it.
#[cycle(sizes)]
fn items_size(items: &Vec<Value<'_>>) -> Result<usize, OutOfMemory>
    ensures { IfOk result (λ n. n ≡ 1 + items_size (items_view items.now.items)) }
{
    let mut total = 1;
    for item in items {
        let more = size(item)?;
        total = passed(total, more, 1)?;
    }
    Ok(total.max(2))
}

/// The number of an object's lexemes: its brace, and each member with the comma or brace behind it.
#[cycle(sizes)]
fn members_size(members: &Vec<(&str, Value<'_>)>) -> Result<usize, OutOfMemory>
    ensures { IfOk result (λ n. n ≡ 1 + members_size (members_view members.now.items)) }
{
    let mut total = 1;
    for member in members {
        let more = size(&member.1)?;
        total = passed(total, more, 3)?;
    }
    Ok(total.max(2))
}
