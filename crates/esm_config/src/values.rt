//! The JSON values of a configuration's fields.
ghost use Rattle.std.specs.Prelude.{◌≡◌, codes, IfOk, option_map};
ghost use Rattle.serde_json.specs.Data.{string};
ghost use Rattle.serde_json.specs.View.{items_view, view};
ghost use Rattle.esm_config.specs.Text.{criteria, on_failure, one_member, pattern_items, position, response_types, scaling, seconds};
ghost use Rattle.esm_config.specs.Text.{seconds_or_none, timestamp, whole_or_none};

use esm_model::OutOfMemory;
use esm_model::config::Start;
use esm_model::text::Text;
use serde_json::{Value, json};
use std::alloc::{AllocError, Global};

/// The milliseconds as whole seconds.
pub fn seconds(ms: u64) -> Value
    ensures { view result ≡ seconds ms }
{
    Value::from(ms / 1000)
}

/// The number, or -1 for none.
pub fn whole_or_none(number: Option<u32>) -> Value
    ensures { view result ≡ whole_or_none number }
{
    match number {
        Some(n) => Value::from(n),
        None => Value::from(-1i32),
    }
}

/// The milliseconds as whole seconds, or -1 for none.
pub fn seconds_or_none(ms: Option<u64>) -> Value
    ensures { view result ≡ seconds_or_none ms }
{
    match ms {
        Some(ms) => seconds(ms),
        None => Value::from(-1i32),
    }
}

fn pattern(alloc: Global, text: &str) -> Result<Value, AllocError>
    ensures { IfOk result (λ v. view v ≡ one_member (codes "Pattern") (string text.now)) }
{
    json!(in alloc; {"Pattern": text})
}

fn pattern_items(alloc: Global, texts: &[Text]) -> Result<Vec<Value>, OutOfMemory>
    ensures { IfOk result (λ items. items_view items.items ≡ pattern_items texts.now) }
{
    let mut items = Vec::new(alloc);
    for text in texts {
        items.push(pattern(alloc, text.as_str())?)?;
    }
    Ok(items)
}

/// The filter criteria, if there are patterns.
pub fn criteria(alloc: Global, texts: &[Text]) -> Result<Option<Value>, OutOfMemory>
    ensures { IfOk result (λ o. option_map view o ≡ criteria texts.now) }
{
    match texts {
        [] => Ok(None),
        [_, ..] => {
            let items = Value::from(pattern_items(alloc, texts)?);
            Ok(Some(filters(alloc, items)?))
        }
    }
}

fn filters(alloc: Global, items: Value) -> Result<Value, AllocError>
    ensures { IfOk result (λ v. view v ≡ one_member (codes "Filters") (view items)) }
{
    json!(in alloc; {"Filters": items})
}

/// What answers report: item failures, or nothing.
pub fn response_types(alloc: Global, item_failures: bool) -> Result<Value, AllocError>
    ensures { IfOk result (λ v. view v ≡ response_types item_failures) }
{
    if item_failures {
        json!(in alloc; ["ReportBatchItemFailures"])
    } else {
        json!(in alloc; [])
    }
}

fn position_name(start: Start) -> &'static str
    ensures { string result.now ≡ position start }
{
    match start {
        Start::TrimHorizon => "TRIM_HORIZON",
        Start::Latest => "LATEST",
        Start::At(_) => "AT_TIMESTAMP",
    }
}

/// The position from which the stream is read.
pub fn position(alloc: Global, start: Start) -> Result<Value, AllocError>
    ensures { IfOk result (λ v. view v ≡ position start) }
{
    Value::try_from_str(alloc, position_name(start))
}

/// The moment of the position in seconds, if it is a position at a moment.
pub fn timestamp(start: Start) -> Option<Value>
    ensures { option_map view result ≡ timestamp start }
{
    match start {
        Start::At(ms) => Some(seconds(ms)),
        Start::TrimHorizon | Start::Latest => None,
    }
}

fn on_failure(alloc: Global, text: &str) -> Result<Value, AllocError>
    ensures { IfOk result (λ v. view v ≡ on_failure text.now) }
{
    json!(in alloc; {"OnFailure": {"Destination": text}})
}

/// The failure destination, if there is one.
pub fn destination(alloc: Global, text: &Option<Text>) -> Result<Option<Value>, AllocError>
    ensures { IfOk result (λ o. option_map view o ≡ option_map on_failure text.now) }
{
    match text {
        Some(text) => Ok(Some(on_failure(alloc, text.as_str())?)),
        None => Ok(None),
    }
}

fn scaling(alloc: Global, most: u32) -> Result<Value, AllocError>
    ensures { IfOk result (λ v. view v ≡ scaling most) }
{
    json!(in alloc; {"MaximumConcurrency": most})
}

/// The maximum concurrency, if there is one.
pub fn concurrency(alloc: Global, most: Option<u32>) -> Result<Option<Value>, AllocError>
    ensures { IfOk result (λ o. option_map view o ≡ option_map scaling most) }
{
    match most {
        Some(most) => Ok(Some(scaling(alloc, most)?)),
        None => Ok(None),
    }
}
