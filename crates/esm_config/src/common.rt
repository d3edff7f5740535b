//! The fields that every mapping may have. Each function returns `None` where the field's value is not allowed.
ghost use Rattle.std.specs.Prelude.{◌≡◌, ◌≤◌, IsTrue};
ghost use Rattle.serde_json.specs.View.{items_view};
ghost use Rattle.esm_model.specs.declared.limits.TheConstants.{MAX_BATCH};
ghost use Rattle.esm_model.specs.Valid.{is_batch_size};
ghost use Rattle.esm_config.specs.Fields.{batch_size_in, enabled_in, is_window_for, item_failures_in, reports_of, usual_batch_size, window_in};
ghost use Rattle.esm_config.specs.View.{data_of};

use crate::value::{truth_or, whole_or};
use esm_model::MAX_BATCH;
use esm_model::config::Kind;
use serde_json::Value;

/// Whether the mapping is enabled; `true` where the field is absent.
pub fn enabled_in(field: Option<&Value>) -> Option<bool>
    ensures { result ≡ enabled_in (data_of field.entry) }
{
    truth_or(field, true)
}

fn usual_batch_size(kind: Kind) -> u32
    ensures { result ≡ usual_batch_size kind }
{
    match kind {
        Kind::Stream => 100,
        Kind::Standard | Kind::Fifo => 10,
    }
}

fn is_batch_size(kind: Kind, size: u64) -> bool
    ensures size { result ≡ is_batch_size kind size }
    ensures within { IsTrue result → size ≤ MAX_BATCH }
{
    match kind {
        Kind::Fifo => 1 <= size && size <= 10,
        Kind::Stream | Kind::Standard => 1 <= size && size <= MAX_BATCH as u64,
    }
}

/// The maximum number of records or messages in a batch: 1 to 10,000, and for a FIFO queue 1 to 10. Where the field is
/// absent it is 100 for a stream and 10 for a queue.
pub fn batch_size_in(kind: Kind, field: Option<&Value>) -> Option<u32>
    ensures { result ≡ batch_size_in kind (data_of field.entry) }
{
    match field {
        Some(found) => match found.as_u64() {
            Some(n) => {
                if is_batch_size(kind, n) {
                    Some(n as u32)
                } else {
                    None
                }
            }
            None => None,
        },
        None => Some(usual_batch_size(kind)),
    }
}

fn is_window_for(kind: Kind, size: u32, seconds: u64) -> bool
    ensures { result ≡ is_window_for kind size seconds }
{
    match kind {
        Kind::Stream => true,
        Kind::Standard => size <= 10 || 0 < seconds,
        Kind::Fifo => seconds == 0,
    }
}

/// The batching window in milliseconds, from 0 to 300 seconds; 0 where the field is absent.
pub fn window_in(kind: Kind, size: u32, field: Option<&Value>) -> Option<u64>
    ensures { result ≡ window_in kind size (data_of field.entry) }
{
    match whole_or(field, 0, 0, 300) {
        Some(seconds) => {
            if is_window_for(kind, size, seconds) {
                Some(seconds * 1000)
            } else {
                None
            }
        }
        None => None,
    }
}

#[tactic(auto, using(crate::proofs::Lists::two_reports))]
fn reports_of(items: &[Value]) -> Option<bool>
    ensures { result ≡ reports_of (items_view items.now) }
{
    match items {
        [] => Some(false),
        [only] => match only.as_str() {
            Some(text) => {
                if text == "ReportBatchItemFailures" {
                    Some(true)
                } else {
                    None
                }
            }
            None => None,
        },
        [_, _, ..] => None,
    }
}

/// Whether answers report item failures; `false` where the field is absent.
pub fn item_failures_in(field: Option<&Value>) -> Option<bool>
    ensures { result ≡ item_failures_in (data_of field.entry) }
{
    match field {
        Some(found) => match found.as_array() {
            Some(items) => reports_of(items.as_slice()),
            None => None,
        },
        None => Some(false),
    }
}
