//! Reading the text of a pattern.
ghost use Rattle.std.specs.Prelude.{◌≡◌};
ghost use Rattle.serde_json.specs.Read.{read as read_text};
ghost use Rattle.serde_json.specs.View.{view};
ghost use Rattle.esm_model.specs.Valid.{char_count};
ghost use Rattle.esm_model.specs.Pattern.{read_object, read_pattern, read_value};
ghost use Rattle.esm_filter.specs.ReadOutcome.{Tells};
ghost use Rattle.esm_filter.specs.View.{fields_view};

use crate::error::{PatternError, ReadError};
use crate::pattern::Rule;
use crate::rules::read_choice;
use esm_model::{MAX_PATTERN, OutOfMemory, parse_json_text};
use serde_json::Value;
use std::alloc::Global;

fn read_object(
    alloc: Global,
    for_stream: bool,
    value: &Value,
) -> Result<Vec<(String, Rule)>, ReadError>
    ensures { Tells (λ v. fields_view v.items) result (read_object for_stream (view value.now)) }
{
    match value {
        Value::Object(_) => read_choice(alloc, for_stream, value),
        Value::Null | Value::Bool(_) | Value::Number(_) => Err(ReadError::Refused(
            PatternError::NotObject,
        )),
        Value::String(_) | Value::Array(_) => Err(ReadError::Refused(PatternError::NotObject)),
    }
}

/// Reads the pattern in a JSON text.
pub(crate) fn read_value(
    alloc: Global,
    for_stream: bool,
    text: &str,
) -> Result<Vec<(String, Rule)>, ReadError>
    ensures { Tells (λ v. fields_view v.items) result (read_value for_stream (read_text text.now)) }
{
    match parse_json_text(alloc, text) {
        Ok(Some(value)) => read_object(alloc, for_stream, &value),
        Ok(None) => Err(ReadError::Refused(PatternError::NotJson)),
        Err(OutOfMemory) => Err(ReadError::OutOfMemory),
    }
}

/// The number of characters of a UTF-8 text.
fn char_count(text: &str) -> usize
    ensures { result ≡ char_count text.now }
{
    text.as_bytes()
        .iter()
        .filter(|b| **b < 128 || **b >= 192)
        .count()
}

#[tactic(auto, unfolding(esm_model::specs::Pattern::read_pattern))]
pub(crate) fn read_pattern(
    alloc: Global,
    for_stream: bool,
    text: &str,
) -> Result<Vec<(String, Rule)>, ReadError>
    ensures { Tells (λ v. fields_view v.items) result (read_pattern for_stream text.now) }
{
    let count = char_count(text);
    if count > MAX_PATTERN {
        return Err(ReadError::Refused(PatternError::TooLong));
    }
    read_value(alloc, for_stream, text)
}
