//! Reading object patterns.
ghost use Rattle.std.specs.Prelude.{◌≡◌, ◌==◌, if◌then◌else◌, length, Err, false, string_bytes};
ghost use Rattle.serde_json.specs.View.{view, items_view, members_view};
ghost use Rattle.esm_model.specs.Pattern.{bad_test, is_data, is_or, nested, one_of, tests, reads_map, read_all, read_test, read_rule, read_fields, read_choices, read_choice, unless_no_items, unless_no_members};
ghost use Rattle.esm_filter.specs.ReadOutcome.{Tells};
ghost use Rattle.esm_filter.specs.View.{choices_view, fields_in, fields_view, rule_view};

use crate::error::{PatternError, ReadError};
use crate::operator::read_tests;
use crate::pattern::Rule;
use crate::scalar::refusal_of;
use serde_json::{Map, Value};
use std::alloc::Global;

fn has_no_items(items: &Vec<Value>) -> bool
    ensures { result ≡ (length items.now.items == 0) }
{
    items.as_slice().is_empty()
}

fn has_no_members(members: &Map<String, Value>) -> bool
    ensures { result ≡ (length members.now.entries == 0) }
{
    members.len() == 0
}

/// Whether the key is that of a record's data, for which a list of tests is refused.
fn is_data(outer: bool, key: &str) -> bool
    ensures { result ≡ is_data outer key.now }
{
    outer && key == "data"
}

/// Reads the rule in the value at a key. `outer` says that the keys are those of a stream's record.
#[cycle(read_rules)]
fn read_rule(alloc: Global, outer: bool, key: &str, value: &Value) -> Result<Rule, ReadError>
    ensures { Tells rule_view result (read_rule outer key.now (view value.now)) }
{
    match value {
        Value::Array(items) => read_list_rule(alloc, outer, key, items),
        Value::Object(members) => read_nested_rule(alloc, key, members),
        Value::Null | Value::Bool(_) | Value::Number(_) | Value::String(_) => {
            Err(ReadError::Refused(PatternError::BadTest))
        }
    }
}

#[cycle(read_rules)]
fn read_list_rule(
    alloc: Global,
    outer: bool,
    key: &str,
    items: &Vec<Value>,
) -> Result<Rule, ReadError>
    ensures { Tells rule_view result (unless_no_items (items_view items.now.items)
        (if is_or key.now then reads_map one_of (read_choices outer (items_view items.now.items))
        else (if is_data outer key.now then Err bad_test else reads_map tests (read_all read_test (items_view items.now.items))))) }
{
    let none = has_no_items(items);
    if none {
        return Err(ReadError::Refused(PatternError::Empty));
    }
    read_items_rule(alloc, outer, key, items)
}

#[cycle(read_rules)]
fn read_items_rule(
    alloc: Global,
    outer: bool,
    key: &str,
    items: &Vec<Value>,
) -> Result<Rule, ReadError>
    ensures { Tells rule_view result
        (if is_or key.now then reads_map one_of (read_choices outer (items_view items.now.items))
        else (if is_data outer key.now then Err bad_test else reads_map tests (read_all read_test (items_view items.now.items)))) }
{
    if key == "$or" {
        return Ok(Rule::OneOf(read_choices(alloc, outer, items)?));
    }
    if is_data(outer, key) {
        return Err(ReadError::Refused(PatternError::BadTest));
    }
    Ok(Rule::Tests(read_tests(alloc, items.as_slice())?))
}

#[cycle(read_rules)]
fn read_nested_rule(
    alloc: Global,
    key: &str,
    members: &Map<String, Value>,
) -> Result<Rule, ReadError>
    ensures { Tells rule_view result (unless_no_members (members_view members.now.entries)
        (if is_or key.now then Err bad_test else reads_map nested (read_fields false (members_view members.now.entries)))) }
{
    let none = has_no_members(members);
    if none {
        return Err(ReadError::Refused(PatternError::Empty));
    }
    read_members_rule(alloc, key, members)
}

#[cycle(read_rules)]
fn read_members_rule(
    alloc: Global,
    key: &str,
    members: &Map<String, Value>,
) -> Result<Rule, ReadError>
    ensures { Tells rule_view result
        (if is_or key.now then Err bad_test else reads_map nested (read_fields false (members_view members.now.entries))) }
{
    if key == "$or" {
        return Err(ReadError::Refused(PatternError::BadTest));
    }
    Ok(Rule::Nested(read_fields(alloc, false, members)?))
}

#[cycle(read_rules)]
fn read_fields(
    alloc: Global,
    outer: bool,
    members: &Map<String, Value>,
) -> Result<Vec<(String, Rule)>, ReadError>
    ensures { Tells (λ v. fields_view v.items) result (read_fields outer (members_view members.now.entries)) }
{
    let mut fields = Vec::new(alloc);
    for (name, value) in members.iter() {
        let rule = read_rule(alloc, outer, name.as_str(), value)?;
        let key = name.clone()?;
        fields.push((key, rule))?;
    }
    Ok(fields)
}

#[cycle(read_rules)]
fn read_choices(alloc: Global, outer: bool, items: &Vec<Value>) -> Result<Vec<Rule>, ReadError>
    ensures { Tells (λ v. choices_view v.items) result (read_choices outer (items_view items.now.items)) }
{
    let mut choices = Vec::new(alloc);
    for item in items {
        let choice = read_choice(alloc, outer, item)?;
        choices.push(Rule::Nested(choice))?;
    }
    Ok(choices)
}

/// Reads the members of an object pattern.
#[cycle(read_rules)]
pub(crate) fn read_choice(
    alloc: Global,
    outer: bool,
    value: &Value,
) -> Result<Vec<(String, Rule)>, ReadError>
    ensures { Tells (λ v. fields_view v.items) result (read_choice outer (view value.now)) }
{
    match value {
        Value::Object(members) => read_some_fields(alloc, outer, members),
        Value::Array(_) => Err(ReadError::Refused(refusal_of(value))),
        Value::Null | Value::Bool(_) | Value::Number(_) | Value::String(_) => {
            Err(ReadError::Refused(PatternError::BadTest))
        }
    }
}

#[cycle(read_rules)]
fn read_some_fields(
    alloc: Global,
    outer: bool,
    members: &Map<String, Value>,
) -> Result<Vec<(String, Rule)>, ReadError>
    ensures { Tells (λ v. fields_view v.items) result
        (unless_no_members (members_view members.now.entries) (read_fields outer (members_view members.now.entries))) }
{
    let none = has_no_members(members);
    if none {
        return Err(ReadError::Refused(PatternError::Empty));
    }
    read_fields(alloc, outer, members)
}
