//! Looking into a JSON value.
ghost use Rattle.std.specs.Prelude.{◌≡◌, ◌≤◌, option_and_then, option_map, IfSome};
ghost use Rattle.serde_json.specs.Find.{as_bool, as_str};
ghost use Rattle.serde_json.specs.View.{members_view, view};
ghost use Rattle.esm_config.specs.Fields.{field, not_null, only_member, only_of, or_missing, whole_in};
ghost use Rattle.esm_config.specs.View.{data_of};

use serde_json::{Map, Value};

/// The value, unless it is `null`.
pub fn not_null(value: &Value) -> Option<&Value>
    ensures { data_of result ≡ not_null (view value.entry.now) }
{
    if value.is_null() { None } else { Some(value) }
}

/// The field with this name, if it is there and not `null`.
pub fn field<'a>(value: &'a Value, name: &str) -> Option<&'a Value>
    ensures { data_of result ≡ field name.now (view value.entry.now) }
{
    match value.get(name) {
        Some(found) => not_null(found),
        None => None,
    }
}

fn only_of<'a>(members: &'a Map<String, Value>, name: &str) -> Option<&'a Value>
    ensures { data_of result ≡ only_of name.now (members_view members.entry.now.entries) }
{
    let mut entries = members.iter();
    let Some((key, value)) = entries.next() else {
        return None;
    };
    match entries.next() {
        None => {
            if key.as_str() == name {
                Some(value)
            } else {
                None
            }
        }
        Some(_) => None,
    }
}

/// The value of the object's only member, if that has this name.
pub fn only_member<'a>(value: &'a Value, name: &str) -> Option<&'a Value>
    ensures { data_of result ≡ only_member name.now (view value.entry.now) }
{
    match value.as_object() {
        Some(members) => only_of(members, name),
        None => None,
    }
}

/// The text of the object's only member, if that has this name and is a text.
pub fn only_text<'a>(value: &'a Value, name: &str) -> Option<&'a str>
    ensures { option_map (λ s. s.now) result ≡ option_and_then as_str (only_member name.now (view value.entry.now)) }
{
    match only_member(value, name) {
        Some(found) => found.as_str(),
        None => None,
    }
}

/// The number, if it is one from `low` to `high` without fraction and exponent.
pub fn whole_in(value: &Value, low: u64, high: u64) -> Option<u64>
    ensures number { result ≡ whole_in low high (view value.now) }
    ensures within { IfSome result (λ n. n ≤ high) }
{
    match value.as_u64() {
        Some(n) => { if low <= n && n <= high { Some(n) } else { None } }
        None => None,
    }
}

/// The same, but `missing` where the field is absent.
pub fn whole_or(field: Option<&Value>, missing: u64, low: u64, high: u64) -> Option<u64>
    requires { missing ≤ high }
    ensures number { result ≡ or_missing missing (whole_in low high) (data_of field.entry) }
    ensures within { IfSome result (λ n. n ≤ high) }
{
    match field {
        Some(found) => whole_in(found, low, high),
        None => Some(missing),
    }
}

/// A truth value, or `missing` where the field is absent.
pub fn truth_or(field: Option<&Value>, missing: bool) -> Option<bool>
    ensures { result ≡ or_missing missing as_bool (data_of field.entry) }
{
    match field {
        Some(found) => found.as_bool(),
        None => Some(missing),
    }
}
