//! The filter criteria.
ghost use Rattle.std.specs.Prelude.{◌≡◌, codes, IfOk, option_and_then, option_map};
ghost use Rattle.serde_json.specs.Find.{as_array};
ghost use Rattle.serde_json.specs.View.{items_view, view};
ghost use Rattle.esm_config.specs.Arn.{kept};
ghost use Rattle.esm_config.specs.Fields.{are_criteria, criteria_of, data_pattern, data_pattern_of, data_patterns, filters_in};
ghost use Rattle.esm_config.specs.Fields.{is_object_text, only_member, pattern_text, pattern_texts, patterns_among};
ghost use Rattle.esm_config.specs.View.{data_of};

use crate::sources::Sources;
use crate::value::{only_member, only_text};
use esm_filter::{Criteria, FilterError};
use esm_model::config::Kind;
use esm_model::text::{Text, Texts};
use esm_model::{MAX_FILTERS, OutOfMemory, parse_json_text};
use serde_json::Value;
use std::alloc::{AllocError, Global};

fn pattern_text(alloc: Global, value: &Value) -> Result<Option<Text>, AllocError>
    ensures { IfOk result (λ t. t ≡ pattern_text (view value.now)) }
{
    match only_text(value, "Pattern") {
        Some(text) => Ok(Some(Text::from_vec(String::from_str(alloc, text)?))),
        None => Ok(None),
    }
}

fn pattern_texts(alloc: Global, items: &[Value]) -> Result<Option<Vec<Text>>, OutOfMemory>
    ensures { IfOk result (λ o. option_map (λ v. v.items) o ≡ pattern_texts (items_view items.now)) }
{
    let mut texts = Vec::new(alloc);
    for item in items {
        match pattern_text(alloc, item)? {
            Some(text) => texts.push(text)?,
            None => return Ok(None),
        }
    }
    Ok(Some(texts))
}

/// Whether the texts are at most ten, each a filter pattern.
fn are_criteria(alloc: Global, kind: Kind, texts: &[Text]) -> Result<bool, OutOfMemory>
    ensures { IfOk result (λ b. b ≡ are_criteria kind texts.now) }
{
    if texts.len() > MAX_FILTERS {
        return Ok(false);
    }
    match Criteria::read(alloc, kind, texts) {
        Ok(_) => Ok(true),
        Err(FilterError::BadPattern { .. }) => Ok(false),
        Err(FilterError::OutOfMemory) => Err(OutOfMemory),
    }
}

fn is_object_text(alloc: Global, text: &str) -> Result<bool, OutOfMemory>
    ensures { IfOk result (λ b. b ≡ is_object_text text.now) }
{
    match parse_json_text(alloc, text)? {
        Some(value) => Ok(value.is_object()),
        None => Ok(false),
    }
}

fn data_pattern(alloc: Global, text: &str) -> Result<Text, AllocError>
    ensures { IfOk result (λ t. t ≡ data_pattern text.now) }
{
    let mut kept = String::from_str(alloc, "{\"data\":")?;
    kept.push_str(text)?;
    kept.push_str("}")?;
    Ok(Text::from_vec(kept))
}

/// The pattern over the data of a record; `None` where the text by itself does not read as a JSON object.
fn data_pattern_of(alloc: Global, text: &Text) -> Result<Option<Text>, OutOfMemory>
    ensures { IfOk result (λ o. o ≡ data_pattern_of text.now) }
{
    if is_object_text(alloc, text.as_str())? {
        Ok(Some(data_pattern(alloc, text.as_str())?))
    } else {
        Ok(None)
    }
}

/// The patterns over the data of a record; `None` where a text by itself does not read as a JSON object.
fn data_patterns(alloc: Global, texts: &[Text]) -> Result<Option<Vec<Text>>, OutOfMemory>
    ensures { IfOk result (λ o. option_map (λ v. v.items) o ≡ data_patterns texts.now) }
{
    let mut kept = Vec::new(alloc);
    for text in texts {
        match data_pattern_of(alloc, text)? {
            Some(pattern) => kept.push(pattern)?,
            None => return Ok(None),
        }
    }
    Ok(Some(kept))
}

/// The patterns as the configuration keeps them; `None` where one is refused.
fn patterns_among(
    alloc: Global,
    sources: Sources,
    texts: Vec<Text>,
) -> Result<Option<Vec<Text>>, OutOfMemory>
    ensures { IfOk result (λ o. option_map (λ v. v.items) o ≡ patterns_among sources texts.items) }
{
    match sources {
        Sources::KinesisOrSqs => Ok(Some(texts)),
        Sources::DynamoDb => data_patterns(alloc, texts.as_slice()),
    }
}

/// The patterns of the items, as the configuration keeps them; `None` where one is refused.
fn patterns_in(
    alloc: Global,
    sources: Sources,
    items: &[Value],
) -> Result<Option<Vec<Text>>, OutOfMemory>
    ensures { IfOk result (λ o. option_map (λ v. v.items) o ≡ option_and_then (patterns_among sources) (pattern_texts (items_view items.now))) }
{
    match pattern_texts(alloc, items)? {
        Some(texts) => patterns_among(alloc, sources, texts),
        None => Ok(None),
    }
}

fn criteria_in(
    alloc: Global,
    sources: Sources,
    kind: Kind,
    items: &[Value],
) -> Result<Option<Texts>, OutOfMemory>
    ensures { IfOk result (λ o. o ≡ kept (are_criteria kind) (option_and_then (patterns_among sources) (pattern_texts (items_view items.now)))) }
{
    match patterns_in(alloc, sources, items)? {
        Some(texts) => {
            if are_criteria(alloc, kind, texts.as_slice())? {
                Ok(Some(Texts::from_vec(texts)))
            } else {
                Ok(None)
            }
        }
        None => Ok(None),
    }
}

fn filters_of(value: &Value) -> Option<&[Value]>
    ensures { option_map (λ s. items_view s.now) result ≡ option_and_then as_array (only_member (codes "Filters") (view value.entry.now)) }
{
    match only_member(value, "Filters") {
        Some(found) => match found.as_array() {
            Some(items) => Some(items.as_slice()),
            None => None,
        },
        None => None,
    }
}

fn criteria_of(
    alloc: Global,
    sources: Sources,
    kind: Kind,
    value: &Value,
) -> Result<Option<Texts>, OutOfMemory>
    ensures { IfOk result (λ o. o ≡ criteria_of sources kind (view value.now)) }
{
    match filters_of(value) {
        Some(items) => criteria_in(alloc, sources, kind, items),
        None => Ok(None),
    }
}

/// The filter patterns; none where the field is absent. `None` where the field's value is refused.
pub fn filters_in(
    alloc: Global,
    sources: Sources,
    kind: Kind,
    field: Option<&Value>,
) -> Result<Option<Texts>, OutOfMemory>
    ensures { IfOk result (λ o. o ≡ filters_in sources kind (data_of field.entry)) }
{
    match field {
        Some(found) => criteria_of(alloc, sources, kind, found),
        None => Ok(Some(Texts::from_vec(Vec::new(alloc)))),
    }
}
