//! Writing the texts of an item's keys and images.
ghost use Rattle.std.specs.Prelude.{◌≡◌, ◌++◌, false, OnOk, codes};
ghost use Rattle.json.specs.Value.{items_view, members_view, value_view};
ghost use Rattle.esm_model.specs.JsonText.{quoted};
ghost use Rattle.esm_ddb.specs.ItemText.{comma_if, items_text, members_text, value_text};
ghost use Rattle.esm_ddb.specs.Tree.{data_in, items_in, members_in};

use crate::quoted::push_quoted;
use esm_event::bytes::push_bytes;
use esm_event::json::push_truth;
use esm_model::OutOfMemory;
use json::Value;

fn push_comma(out: &mut Vec<u8>, later: bool) -> Result<(), OutOfMemory>
    ensures { OnOk result (out.new.items ≡ out.old.items ++ comma_if later) }
{
    if later {
        push_bytes(out, b",")?;
    }
    Ok(())
}

/// Appends the name of a member, with the comma before it and the colon behind it.
fn push_name(out: &mut Vec<u8>, later: bool, name: &str) -> Result<(), OutOfMemory>
    ensures { OnOk result (out.new.items ≡ out.old.items ++ (comma_if later ++ (quoted name.now ++ codes ":"))) }
{
    push_comma(out, later)?;
    push_quoted(out, name.as_bytes())?;
    push_bytes(out, b":")?;
    Ok(())
}

/// Appends the value's text. After an `Err` a part of it may have been appended.
#[cycle(values)]
pub fn push_value(out: &mut Vec<u8>, value: &Value<'_>) -> Result<(), OutOfMemory>
    ensures { OnOk result (out.new.items ≡ out.old.items ++ value_text (data_in (value_view value.now))) }
{
    match value {
        Value::Null => push_bytes(out, b"null"),
        Value::Bool(truth) => push_truth(out, *truth),
        Value::Number(_) => Ok(()),
        Value::String(text) => push_quoted(out, text.as_bytes()),
        Value::Array(items) => push_items(out, items),
        Value::Object(members) => push_members(out, members),
    }
}

#[cycle(values)]
fn push_items(out: &mut Vec<u8>, items: &Vec<Value<'_>>) -> Result<(), OutOfMemory>
    ensures { OnOk result (out.new.items ≡ out.old.items ++ (codes "[" ++ items_text false (items_in (items_view items.now.items)))) }
{
    push_bytes(out, b"[")?;
    let mut later = false;
    for item in items {
        push_comma(out, later)?;
        push_value(out, item)?;
        later = true;
    }
    push_bytes(out, b"]")
}

#[cycle(values)]
fn push_members(out: &mut Vec<u8>, members: &Vec<(&str, Value<'_>)>) -> Result<(), OutOfMemory>
    ensures { OnOk result (out.new.items ≡ out.old.items ++ (codes "{" ++ members_text false (members_in (members_view members.now.items)))) }
{
    push_bytes(out, b"{")?;
    let mut later = false;
    for member in members {
        push_name(out, later, member.0)?;
        push_value(out, &member.1)?;
        later = true;
    }
    push_bytes(out, b"}")
}
