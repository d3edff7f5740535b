//! A line as a tree of JSON values: whether its objects have their members in the order of their names, and what is in
//! it.
ghost use Rattle.std.specs.Prelude.{◌≡◌, is_some, option_and_then, option_map, true, IfSome};
ghost use Rattle.json.specs.Value.{items_view, members_view, value_view};
ghost use Rattle.serde_json.specs.Find.{as_number, as_object, as_str, as_u64, get};
ghost use Rattle.esm_ddb.specs.Gives.{Gives};
ghost use Rattle.esm_ddb.specs.Tree.{are_ordered, are_ranged, data_in, follows, is_before, is_in_order, is_ordered, is_ranged, members_in};
ghost use Rattle.esm_ddb.specs.Tree.{members_ranged, tree_of};

use crate::error::{DdbError, Refusal};
use crate::number::{is_in_range, whole_number};
use json::{Error, Reader, Value};
use std::alloc::Global;
use std::cmp::Ordering;

/// How deep arrays and objects may be nested.
const MAX_DEPTH: usize = 127;

/// Reads the one value that a text is; `NotJson` if it is not one value, and `OutOfMemory` if an allocation failed.
pub fn read_value<'a>(alloc: Global, reader: &mut Reader<'a>) -> Result<Value<'a>, Refusal>
    ensures { Gives (λ v. value_view v) result (tree_of reader.old) }
{
    let value = match Value::read(alloc, reader, MAX_DEPTH) {
        Ok(value) => value,
        Err(Error::OutOfMemory) => return Err(Refusal::OutOfMemory),
        Err(_) => return Err(Refusal::Line(DdbError::NotJson)),
    };
    match reader.next() {
        Some(_) => Err(Refusal::Line(DdbError::NotJson)),
        None => Ok(value),
    }
}

/// Whether the name comes before the other one.
fn is_before(name: &str, other: &str) -> bool
    ensures { result ≡ is_before name.now other.now }
{
    matches!(name.as_bytes().cmp(other.as_bytes()), Ordering::Less)
}

/// Whether the name may follow the one before it.
fn follows(before: Option<&str>, name: &str) -> bool
    ensures { result ≡ follows (option_map (λ s. s.now) before.entry) name.now }
{
    match before {
        Some(before) => is_before(before, name),
        None => true,
    }
}

/// Whether each number is in range, and the names of each object are in ascending order.
#[cycle(orders)]
pub fn is_ordered(value: &Value<'_>) -> bool
    ensures { result ≡ is_ordered (value_view value.now) }
{
    match value {
        Value::Null | Value::Bool(_) | Value::String(_) => true,
        Value::Number(text) => is_in_range(text),
        Value::Array(items) => are_ordered(items),
        Value::Object(members) => is_in_order(members),
    }
}

#[cycle(orders)]
fn are_ordered(items: &Vec<Value<'_>>) -> bool
    ensures { result ≡ are_ordered (items_view items.now.items) }
{
    for item in items {
        if !is_ordered(item) {
            return false;
        }
    }
    true
}

#[cycle(orders)]
fn is_in_order(members: &Vec<(&str, Value<'_>)>) -> bool
    ensures { result ≡ is_in_order (members_view members.now.items) }
{
    let mut before = None;
    for member in members {
        if !follows(before, member.0) {
            return false;
        }
        if !is_ordered(&member.1) {
            return false;
        }
        before = Some(member.0);
    }
    true
}

/// Whether each number is in range.
#[cycle(ranges)]
pub fn is_ranged(value: &Value<'_>) -> bool
    ensures { result ≡ is_ranged (value_view value.now) }
{
    match value {
        Value::Null | Value::Bool(_) | Value::String(_) => true,
        Value::Number(text) => is_in_range(text),
        Value::Array(items) => are_ranged(items),
        Value::Object(members) => members_ranged(members),
    }
}

#[cycle(ranges)]
fn are_ranged(items: &Vec<Value<'_>>) -> bool
    ensures { result ≡ are_ranged (items_view items.now.items) }
{
    for item in items {
        if !is_ranged(item) {
            return false;
        }
    }
    true
}

#[cycle(ranges)]
fn members_ranged(members: &Vec<(&str, Value<'_>)>) -> bool
    ensures { result ≡ members_ranged (members_view members.now.items) }
{
    for member in members {
        if !is_ranged(&member.1) {
            return false;
        }
    }
    true
}

/// The text that the value is; `None` if it is no string.
pub fn text_in<'t>(value: &Value<'t>) -> Option<&'t str>
    ensures { option_map (λ s. s.now) result ≡ as_str (data_in (value_view value.entry.now)) }
{
    match value {
        Value::String(text) => Some(*text),
        Value::Null | Value::Bool(_) | Value::Number(_) => None,
        Value::Array(_) | Value::Object(_) => None,
    }
}

/// The whole number from 0 to 2^64 - 1 that the value is; `None` if it is not one.
pub fn whole_in(value: &Value<'_>) -> Option<u64>
    ensures { result ≡ option_and_then as_u64 (as_number (data_in (value_view value.now))) }
{
    match value {
        Value::Number(text) => whole_number(text),
        Value::Null | Value::Bool(_) | Value::String(_) => None,
        Value::Array(_) | Value::Object(_) => None,
    }
}

/// Whether the value is an object.
pub fn is_object(value: &Value<'_>) -> bool
    ensures { result ≡ is_some (as_object (data_in (value_view value.now))) }
{
    matches!(value, Value::Object(_))
}

/// The members of the object that the value is; `None` if it is no object.
pub fn members_of<'a, 't>(value: &'a Value<'t>) -> Option<&'a Vec<(&'t str, Value<'t>)>>
    ensures { option_map (λ m. members_in (members_view m.now.items)) result ≡ as_object (data_in (value_view value.entry.now)) }
{
    match value {
        Value::Object(members) => Some(members),
        Value::Null | Value::Bool(_) | Value::Number(_) => None,
        Value::String(_) | Value::Array(_) => None,
    }
}

/// The member with this name, if the value is an object that has one.
pub fn member<'a, 't>(value: &'a Value<'t>, name: &str) -> Option<&'a Value<'t>>
    requires { is_ordered (value_view value.now) ≡ true }
    ensures found { option_map (λ v. data_in (value_view v.now)) result ≡ get name.now (data_in (value_view value.entry.now)) }
    ensures ordered { IfSome result (λ v. is_ordered (value_view v.now) ≡ true) }
{
    value.get(name)
}
