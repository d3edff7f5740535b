//! The fields that only a stream's mapping may have, and the one that only a queue's may. Each function returns `None` where
//! the field's value is not allowed; a field of the other kind has to be absent.
ghost use Rattle.std.specs.Prelude.{◌≡◌, codes, option_and_then, option_map};
ghost use Rattle.serde_json.specs.Find.{as_str};
ghost use Rattle.serde_json.specs.View.{view};
ghost use Rattle.esm_config.specs.Fields.{age_in, age_within, attempts_within, bisect_in, concurrency_in, concurrency_of, destination_in};
ghost use Rattle.esm_config.specs.Fields.{destination_of, factor_in, first_position, is_tumbling_for, limit_in, milliseconds, only_member};
ghost use Rattle.esm_config.specs.Fields.{or_missing, position_among, position_in, position_of, retries_in, start_in, start_of};
ghost use Rattle.esm_config.specs.Fields.{tumbling_in, whole_in};
ghost use Rattle.esm_model.specs.Valid.{is_destination};
ghost use Rattle.esm_config.specs.Arn.{kept};
ghost use Rattle.esm_config.specs.View.{data_of};

use crate::position::Position;
use crate::sources::Sources;
use crate::value::{only_member, only_text, truth_or, whole_in, whole_or};
use esm_model::config::{Kind, Start};
use esm_model::{MAX_MOMENT, MAX_RETRIES};
use serde_json::Value;

fn position_of(text: &str) -> Option<Position>
    ensures { result ≡ position_of text.now }
{
    if text == "TRIM_HORIZON" {
        Some(Position::TrimHorizon)
    } else if text == "LATEST" {
        Some(Position::Latest)
    } else if text == "AT_TIMESTAMP" {
        Some(Position::AtTimestamp)
    } else {
        None
    }
}

fn first_position(text: &str) -> Option<Position>
    ensures { result ≡ first_position text.now }
{
    if text == "TRIM_HORIZON" {
        Some(Position::TrimHorizon)
    } else {
        None
    }
}

fn position_among(sources: Sources, text: &str) -> Option<Position>
    ensures { result ≡ position_among sources text.now }
{
    match sources {
        Sources::KinesisOrSqs => position_of(text),
        Sources::DynamoDb => first_position(text),
    }
}

/// Where a stream's mapping begins to read; a table's stream only at its first record.
pub fn position_in(sources: Sources, kind: Kind, field: Option<&Value>) -> Option<Position>
    ensures { result ≡ position_in sources kind (data_of field.entry) }
{
    match (kind, field) {
        (Kind::Stream, Some(found)) => match found.as_str() {
            Some(text) => position_among(sources, text),
            None => None,
        },
        (Kind::Stream, None) => None,
        (Kind::Standard | Kind::Fifo, Some(_)) => None,
        (Kind::Standard | Kind::Fifo, None) => Some(Position::TrimHorizon),
    }
}

fn start_at(value: &Value) -> Option<Start>
    ensures { result ≡ start_of Position.AtTimestamp (Some (view value.now)) }
{
    match whole_in(value, 0, MAX_MOMENT / 1000) {
        Some(seconds) => Some(Start::At(seconds * 1000)),
        None => None,
    }
}

fn start_of(position: Position, field: Option<&Value>) -> Option<Start>
    ensures { result ≡ start_of position (data_of field.entry) }
{
    match (position, field) {
        (Position::AtTimestamp, Some(found)) => start_at(found),
        (Position::AtTimestamp, None) => None,
        (Position::TrimHorizon | Position::Latest, Some(_)) => None,
        (Position::TrimHorizon, None) => Some(Start::TrimHorizon),
        (Position::Latest, None) => Some(Start::Latest),
    }
}

/// The position with its moment in milliseconds, which is given if and only if the position is `AT_TIMESTAMP`.
pub fn start_in(kind: Kind, position: Position, field: Option<&Value>) -> Option<Start>
    ensures { result ≡ start_in kind position (data_of field.entry) }
{
    match (kind, field) {
        (Kind::Stream, _) => start_of(position, field),
        (Kind::Standard | Kind::Fifo, Some(_)) => None,
        (Kind::Standard | Kind::Fifo, None) => Some(Start::TrimHorizon),
    }
}

/// The number of lanes of a shard: 1 to 10, and 1 where the field is absent.
pub fn factor_in(kind: Kind, field: Option<&Value>) -> Option<u32>
    ensures { result ≡ factor_in kind (data_of field.entry) }
{
    match (kind, field) {
        (Kind::Stream, _) => match whole_or(field, 1, 1, 10) {
            Some(n) => Some(n as u32),
            None => None,
        },
        (Kind::Standard | Kind::Fifo, Some(_)) => None,
        (Kind::Standard | Kind::Fifo, None) => Some(1),
    }
}

fn retries_of(field: Option<&Value>) -> Option<Option<u32>>
    ensures { result ≡ or_missing None (limit_in attempts_within) (data_of field.entry) }
{
    match field {
        Some(found) => match found.as_i64() {
            Some(n) => {
                if n == -1 {
                    Some(None)
                } else if 0 <= n && n <= MAX_RETRIES as i64 {
                    Some(Some(n as u32))
                } else {
                    None
                }
            }
            None => None,
        },
        None => Some(None),
    }
}

/// The maximum number of retry attempts, 0 to 10,000. The inner `None` means any number: for -1, and where the field is
/// absent.
pub fn retries_in(kind: Kind, field: Option<&Value>) -> Option<Option<u32>>
    ensures { result ≡ retries_in kind (data_of field.entry) }
{
    match (kind, field) {
        (Kind::Stream, _) => retries_of(field),
        (Kind::Standard | Kind::Fifo, Some(_)) => None,
        (Kind::Standard | Kind::Fifo, None) => Some(None),
    }
}

fn age_of(field: Option<&Value>) -> Option<Option<u64>>
    ensures { result ≡ or_missing None (limit_in age_within) (data_of field.entry) }
{
    match field {
        Some(found) => match found.as_i64() {
            Some(n) => {
                if n == -1 {
                    Some(None)
                } else if 60 <= n && n <= 604_800 {
                    Some(Some(n as u64 * 1000))
                } else {
                    None
                }
            }
            None => None,
        },
        None => Some(None),
    }
}

/// The maximum age of a record in milliseconds, from 60 to 604,800 seconds. The inner `None` means any age: for -1, and
/// where the field is absent.
pub fn age_in(kind: Kind, field: Option<&Value>) -> Option<Option<u64>>
    ensures { result ≡ age_in kind (data_of field.entry) }
{
    match (kind, field) {
        (Kind::Stream, _) => age_of(field),
        (Kind::Standard | Kind::Fifo, Some(_)) => None,
        (Kind::Standard | Kind::Fifo, None) => Some(None),
    }
}

/// Whether a failed batch is halved; `false` where the field is absent.
pub fn bisect_in(kind: Kind, field: Option<&Value>) -> Option<bool>
    ensures { result ≡ bisect_in kind (data_of field.entry) }
{
    match (kind, field) {
        (Kind::Stream, _) => truth_or(field, false),
        (Kind::Standard | Kind::Fifo, Some(_)) => None,
        (Kind::Standard | Kind::Fifo, None) => Some(false),
    }
}

fn tumbling_of(factor: u32, field: Option<&Value>) -> Option<u64>
    ensures { result ≡ milliseconds (kept (is_tumbling_for factor) (or_missing 0 (whole_in 0 900) (data_of field.entry))) }
{
    match whole_or(field, 0, 0, 900) {
        Some(seconds) => {
            if seconds == 0 || factor == 1 {
                Some(seconds * 1000)
            } else {
                None
            }
        }
        None => None,
    }
}

/// The length of a tumbling window in milliseconds, from 0 to 900 seconds; above 0 only with one lane; 0 where the field is
/// absent.
pub fn tumbling_in(kind: Kind, factor: u32, field: Option<&Value>) -> Option<u64>
    ensures { result ≡ tumbling_in kind factor (data_of field.entry) }
{
    match (kind, field) {
        (Kind::Stream, _) => tumbling_of(factor, field),
        (Kind::Standard | Kind::Fifo, Some(_)) => None,
        (Kind::Standard | Kind::Fifo, None) => Some(0),
    }
}

fn is_destination(text: &[u8]) -> bool
    ensures { result ≡ is_destination (Some text.now) }
{
    text.starts_with(b"arn:aws:sqs:") && text.len() <= 350
}

fn on_failure(value: &Value) -> Option<&str>
    ensures { option_map (λ s. s.now) result
        ≡ option_and_then as_str (option_and_then (only_member (codes "Destination")) (only_member (codes "OnFailure") (view value.entry.now))) }
{
    match only_member(value, "OnFailure") {
        Some(found) => only_text(found, "Destination"),
        None => None,
    }
}

fn destination_of(value: &Value) -> Option<Option<&str>>
    ensures { option_map (λ o. option_map (λ s. s.now) o) result ≡ destination_of (view value.entry.now) }
{
    match on_failure(value) {
        Some(text) => {
            if is_destination(text.as_bytes()) {
                Some(Some(text))
            } else {
                None
            }
        }
        None => None,
    }
}

/// The failure destination: a text that begins with `arn:aws:sqs:`, of at most 350 bytes. The inner `None` means that the
/// field is absent.
pub fn destination_in(kind: Kind, field: Option<&Value>) -> Option<Option<&str>>
    ensures { option_map (λ o. option_map (λ s. s.now) o) result ≡ destination_in kind (data_of field.entry) }
{
    match (kind, field) {
        (Kind::Stream, Some(found)) => destination_of(found),
        (Kind::Standard | Kind::Fifo, Some(_)) => None,
        (_, None) => Some(None),
    }
}

fn concurrency_of(value: &Value) -> Option<Option<u32>>
    ensures { result ≡ concurrency_of (view value.now) }
{
    match only_member(value, "MaximumConcurrency") {
        Some(found) => match whole_in(found, 2, 1000) {
            Some(n) => Some(Some(n as u32)),
            None => None,
        },
        None => None,
    }
}

/// The maximum concurrency of a queue's mapping, 2 to 1,000. The inner `None` means that the field is absent.
pub fn concurrency_in(kind: Kind, field: Option<&Value>) -> Option<Option<u32>>
    ensures { result ≡ concurrency_in kind (data_of field.entry) }
{
    match (kind, field) {
        (Kind::Standard | Kind::Fifo, Some(found)) => concurrency_of(found),
        (Kind::Stream, Some(_)) => None,
        (_, None) => Some(None),
    }
}
