//! Reading texts, numbers and comparisons of a pattern.
ghost use Rattle.std.specs.Prelude.{◌≡◌, ◌==◌, if◌then◌else◌, string_bytes, option_map, option_and_then};
ghost use Rattle.serde_json.specs.Find.{as_str};
ghost use Rattle.serde_json.specs.View.{view};
ghost use Rattle.esm_model.specs.Pattern.{empty, bad_test, refusal_of, read_text, read_whole, read_bool, read_scalar, read_comparison, comparison_named};
ghost use Rattle.esm_filter.specs.ReadOutcome.{refusal_view, Tells};
ghost use Rattle.esm_filter.specs.View.{scalar_view, comparison_view};

use crate::error::{PatternError, ReadError};
use crate::pattern::{Comparison, Scalar};
use serde_json::Value;
use std::alloc::Global;

fn empty_or_bad(count: usize) -> PatternError
    ensures { refusal_view result ≡ (if count == 0 then empty else bad_test) }
{
    if count == 0 {
        PatternError::Empty
    } else {
        PatternError::BadTest
    }
}

/// Why a value is refused that the grammar does not allow where it is.
pub(crate) fn refusal_of(value: &Value) -> PatternError
    ensures { refusal_view result ≡ refusal_of (view value.now) }
{
    match value {
        Value::Array(items) => empty_or_bad(items.as_slice().len()),
        Value::Object(members) => empty_or_bad(members.len()),
        Value::Null | Value::Bool(_) | Value::Number(_) | Value::String(_) => PatternError::BadTest,
    }
}

pub(crate) fn read_text(alloc: Global, value: &Value) -> Result<String, ReadError>
    ensures { Tells string_bytes result (read_text (view value.now)) }
{
    match value.as_str() {
        Some(text) => Ok(String::from_str(alloc, text)?),
        None => Err(ReadError::Refused(refusal_of(value))),
    }
}

pub(crate) fn read_whole(value: &Value) -> Result<i64, ReadError>
    ensures { Tells (λ z. z) result (read_whole (view value.now)) }
{
    match value.as_i64() {
        Some(number) => Ok(number),
        None => Err(ReadError::Refused(refusal_of(value))),
    }
}

pub(crate) fn read_bool(value: &Value) -> Result<bool, ReadError>
    ensures { Tells (λ b. b) result (read_bool (view value.now)) }
{
    match value.as_bool() {
        Some(truth) => Ok(truth),
        None => Err(ReadError::Refused(refusal_of(value))),
    }
}

fn comparison_named(name: &str) -> Option<Comparison>
    ensures { option_map comparison_view result ≡ comparison_named name.now }
{
    if name == "=" {
        Some(Comparison::Equal)
    } else if name == "<" {
        Some(Comparison::Below)
    } else if name == "<=" {
        Some(Comparison::AtMost)
    } else if name == ">" {
        Some(Comparison::Above)
    } else if name == ">=" {
        Some(Comparison::AtLeast)
    } else {
        None
    }
}

fn comparison_of(value: &Value) -> Option<Comparison>
    ensures { option_map comparison_view result ≡ option_and_then comparison_named (as_str (view value.now)) }
{
    match value.as_str() {
        Some(name) => comparison_named(name),
        None => None,
    }
}

pub(crate) fn read_comparison(value: &Value) -> Result<Comparison, ReadError>
    ensures { Tells comparison_view result (read_comparison (view value.now)) }
{
    match comparison_of(value) {
        Some(comparison) => Ok(comparison),
        None => Err(ReadError::Refused(refusal_of(value))),
    }
}

pub(crate) fn read_scalar(alloc: Global, value: &Value) -> Result<Scalar, ReadError>
    ensures { Tells scalar_view result (read_scalar (view value.now)) }
{
    match value {
        Value::String(text) => Ok(Scalar::Text(text.clone()?)),
        Value::Number(number) => match number.as_i64() {
            Some(whole) => Ok(Scalar::Whole(whole)),
            None => Err(ReadError::Refused(PatternError::BadTest)),
        },
        Value::Array(_) | Value::Object(_) => Err(ReadError::Refused(refusal_of(value))),
        Value::Null | Value::Bool(_) => Err(ReadError::Refused(PatternError::BadTest)),
    }
}
