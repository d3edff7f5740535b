//! Validating a value as an attribute value, as an item or as the keys of one.
ghost use Rattle.std.specs.Prelude.{◌≡◌};
ghost use Rattle.serde_json.specs.Data.{array};
ghost use Rattle.json.specs.Value.{items_view, members_view, value_view};
ghost use Rattle.esm_ddb.specs.Attribute.{are_attributes, are_key_values, are_keys, are_texts, is_attribute, is_item, is_key_typed};
ghost use Rattle.esm_ddb.specs.Attribute.{is_key_value, is_of_type, is_set_type, is_text_type, is_typed};
ghost use Rattle.esm_ddb.specs.Tree.{data_in, items_in, members_in};

use crate::tree::{members_of, text_in};
use json::Value;

fn is_text_type(tag: &str) -> bool
    ensures { result ≡ is_text_type tag.now }
{
    tag == "S" || tag == "N" || tag == "B"
}

fn is_set_type(tag: &str) -> bool
    ensures { result ≡ is_set_type tag.now }
{
    tag == "SS" || tag == "NS" || tag == "BS"
}

fn are_texts(items: &Vec<Value<'_>>) -> bool
    ensures { result ≡ are_texts (items_in (items_view items.now.items)) }
{
    for item in items {
        if text_in(item).is_none() {
            return false;
        }
    }
    true
}

/// Whether the value is an object with one member, named by the type of its value.
#[cycle(attributes)]
pub fn is_attribute(value: &Value<'_>) -> bool
    ensures { result ≡ is_attribute (data_in (value_view value.now)) }
{
    match value {
        Value::Object(members) => is_typed(members),
        Value::Null | Value::Bool(_) | Value::Number(_) => false,
        Value::String(_) | Value::Array(_) => false,
    }
}

#[cycle(attributes)]
fn is_typed(members: &Vec<(&str, Value<'_>)>) -> bool
    ensures { result ≡ is_typed (members_in (members_view members.now.items)) }
{
    let mut entries = members.iter();
    let Some(member) = entries.next() else {
        return false;
    };
    match entries.next() {
        None => is_of_type(member.0, &member.1),
        Some(_) => false,
    }
}

#[cycle(attributes)]
fn is_of_type(tag: &str, value: &Value<'_>) -> bool
    ensures { result ≡ is_of_type tag.now (data_in (value_view value.now)) }
{
    match value {
        Value::Bool(truth) => tag == "BOOL" || (*truth && tag == "NULL"),
        Value::String(_) => is_text_type(tag),
        Value::Array(items) => is_list_of_type(tag, items),
        Value::Object(members) => tag == "M" && is_item(members),
        Value::Null | Value::Number(_) => false,
    }
}

#[cycle(attributes)]
fn is_list_of_type(tag: &str, items: &Vec<Value<'_>>) -> bool
    ensures { result ≡ is_of_type tag.now (array (items_in (items_view items.now.items))) }
{
    if is_set_type(tag) && are_texts(items) {
        return true;
    }
    tag == "L" && are_attributes(items)
}

#[cycle(attributes)]
fn are_attributes(items: &Vec<Value<'_>>) -> bool
    ensures { result ≡ are_attributes (items_in (items_view items.now.items)) }
{
    for item in items {
        if !is_attribute(item) {
            return false;
        }
    }
    true
}

/// Whether each member is the name and the value of an attribute.
#[cycle(attributes)]
pub fn is_item(members: &Vec<(&str, Value<'_>)>) -> bool
    ensures { result ≡ is_item (members_in (members_view members.now.items)) }
{
    for member in members {
        if !is_attribute(&member.1) {
            return false;
        }
    }
    true
}

fn is_key_typed(members: &Vec<(&str, Value<'_>)>) -> bool
    ensures { result ≡ is_key_typed (members_in (members_view members.now.items)) }
{
    let mut entries = members.iter();
    let Some(member) = entries.next() else {
        return false;
    };
    match entries.next() {
        None => is_text_type(member.0) && text_in(&member.1).is_some(),
        Some(_) => false,
    }
}

fn is_key_value(value: &Value<'_>) -> bool
    ensures { result ≡ is_key_value (data_in (value_view value.now)) }
{
    match members_of(value) {
        Some(members) => is_key_typed(members),
        None => false,
    }
}

fn are_key_values(members: &Vec<(&str, Value<'_>)>) -> bool
    ensures { result ≡ are_key_values (members_in (members_view members.now.items)) }
{
    for member in members {
        if !is_key_value(&member.1) {
            return false;
        }
    }
    true
}

/// Whether each member is the name and the value of a key attribute, and there is at least one.
pub fn are_keys(members: &Vec<(&str, Value<'_>)>) -> bool
    ensures { result ≡ are_keys (members_in (members_view members.now.items)) }
{
    members.len() != 0 && are_key_values(members)
}
