//! The change of an item that a line of a DynamoDB stream states.
ghost use Rattle.std.specs.Prelude.{◌≡◌, option_and_then, option_map, true};
ghost use Rattle.std.specs.List.{list_all};
ghost use Rattle.std.specs.Result.{result_map_both};
ghost use Rattle.json.specs.Value.{value_view};
ghost use Rattle.esm_model.specs.Valid.{is_word};
ghost use Rattle.esm_record.specs.Line.{moment, of_text, sequence_number, shard_number};
ghost use Rattle.esm_ddb.specs.Change as spec;
ghost use Rattle.esm_ddb.specs.Said.{change_view, data_of, record_view};
ghost use Rattle.esm_ddb.specs.Tree.{data_in, is_ordered};

use crate::attribute::{are_keys, is_item};
use crate::error::{DdbError, DdbField};
use crate::tree::{member, members_of, text_in, whole_in};
use esm_model::MAX_MOMENT;
use esm_model::spelling::is_sequence;
use esm_record::shard_number;
use json::Value;

/// The greatest size of an item that a line may state, in bytes.
pub const MAX_SIZE: u64 = 9_007_199_254_740_992;

/// What the table's stream says of the item: the member `dynamodb`.
#[derive(Clone, Copy)]
pub struct StreamRecord<'a, 't> {
    pub keys: &'a Value<'t>,
    pub new_image: Option<&'a Value<'t>>,
    pub old_image: Option<&'a Value<'t>>,
    pub seq: &'t str,
    /// In bytes.
    pub size: u64,
    pub view: &'t str,
}

/// The change of an item, borrowed from the parsed line.
#[derive(Clone, Copy)]
pub struct Change<'a, 't> {
    pub shard: u64,
    /// Milliseconds since 1970.
    pub arrival: u64,
    pub id: &'t str,
    pub name: &'t str,
    pub item: StreamRecord<'a, 't>,
}

fn are_visible(text: &[u8]) -> bool
    ensures { result ≡ list_all spec.is_visible text.now }
{
    text.iter().all(|b| 33 <= *b && *b <= 126)
}

pub fn is_event_id(text: &[u8]) -> bool
    ensures { result ≡ is_word spec.is_visible 1 100 text.now }
{
    1 <= text.len() && text.len() <= 100 && are_visible(text)
}

pub fn is_event_name(text: &[u8]) -> bool
    ensures { result ≡ spec.is_event_name text.now }
{
    text == b"INSERT".as_slice() || text == b"MODIFY".as_slice() || text == b"REMOVE".as_slice()
}

pub fn is_view_type(text: &[u8]) -> bool
    ensures { result ≡ spec.is_view_type text.now }
{
    text == b"KEYS_ONLY".as_slice()
        || text == b"NEW_IMAGE".as_slice()
        || text == b"OLD_IMAGE".as_slice()
        || text == b"NEW_AND_OLD_IMAGES".as_slice()
}

fn shard_in(value: &Value<'_>) -> Option<u64>
    ensures { result ≡ of_text shard_number (data_in (value_view value.now)) }
{
    match text_in(value) {
        Some(text) => shard_number(text.as_bytes()),
        None => None,
    }
}

fn moment_in(value: &Value<'_>) -> Option<u64>
    ensures { result ≡ moment (data_in (value_view value.now)) }
{
    match whole_in(value) {
        Some(moment) => {
            if moment <= MAX_MOMENT {
                Some(moment)
            } else {
                None
            }
        }
        None => None,
    }
}

fn event_id_in<'t>(value: &Value<'t>) -> Option<&'t str>
    ensures { option_map (λ s. s.now) result ≡ of_text spec.event_id (data_in (value_view value.entry.now)) }
{
    match text_in(value) {
        Some(text) => {
            if is_event_id(text.as_bytes()) {
                Some(text)
            } else {
                None
            }
        }
        None => None,
    }
}

fn event_name_in<'t>(value: &Value<'t>) -> Option<&'t str>
    ensures { option_map (λ s. s.now) result ≡ of_text spec.event_name (data_in (value_view value.entry.now)) }
{
    match text_in(value) {
        Some(text) => {
            if is_event_name(text.as_bytes()) {
                Some(text)
            } else {
                None
            }
        }
        None => None,
    }
}

fn view_type_in<'t>(field: Option<&Value<'t>>) -> Option<&'t str>
    ensures { option_map (λ s. s.now) result ≡ option_and_then (of_text spec.view_type) (data_of field.entry) }
{
    match field {
        Some(value) => match text_in(value) {
            Some(text) => {
                if is_view_type(text.as_bytes()) {
                    Some(text)
                } else {
                    None
                }
            }
            None => None,
        },
        None => None,
    }
}

fn sequence_number_in<'t>(field: Option<&Value<'t>>) -> Option<&'t str>
    ensures { option_map (λ s. s.now) result ≡ option_and_then (of_text sequence_number) (data_of field.entry) }
{
    match field {
        Some(value) => match text_in(value) {
            Some(text) => {
                if is_sequence(text.as_bytes()) {
                    Some(text)
                } else {
                    None
                }
            }
            None => None,
        },
        None => None,
    }
}

fn size_in(field: Option<&Value<'_>>) -> Option<u64>
    ensures { result ≡ option_and_then spec.size_of (data_of field.entry) }
{
    match field {
        Some(value) => match whole_in(value) {
            Some(size) => { if size <= MAX_SIZE { Some(size) } else { None } }
            None => None,
        },
        None => None,
    }
}

fn keys_in<'a, 't>(field: Option<&'a Value<'t>>) -> Option<&'a Value<'t>>
    ensures { data_of result ≡ option_and_then spec.keys_of (data_of field.entry) }
{
    match field {
        Some(value) => match members_of(value) {
            Some(members) => { if are_keys(members) { Some(value) } else { None } }
            None => None,
        },
        None => None,
    }
}

/// An image, which may be absent; `None` if it is present and not an item.
fn image_in<'a, 't>(field: Option<&'a Value<'t>>) -> Option<Option<&'a Value<'t>>>
    ensures { option_map data_of result ≡ spec.image_of (data_of field.entry) }
{
    match field {
        Some(value) => match members_of(value) {
            Some(members) => {
                if is_item(members) {
                    Some(Some(value))
                } else {
                    None
                }
            }
            None => None,
        },
        None => Some(None),
    }
}

/// What the member `dynamodb` says; `None` if one of its fields is absent or bad.
fn stream_record<'a, 't>(value: &'a Value<'t>) -> Option<StreamRecord<'a, 't>>
    requires { is_ordered (value_view value.now) ≡ true }
    ensures { option_map record_view result ≡ spec.stream_record (data_in (value_view value.entry.now)) }
{
    let Some(keys) = keys_in(member(value, "Keys")) else {
        return None;
    };
    let Some(new_image) = image_in(member(value, "NewImage")) else {
        return None;
    };
    let Some(old_image) = image_in(member(value, "OldImage")) else {
        return None;
    };
    let Some(seq) = sequence_number_in(member(value, "SequenceNumber")) else {
        return None;
    };
    let Some(size) = size_in(member(value, "SizeBytes")) else {
        return None;
    };
    match view_type_in(member(value, "StreamViewType")) {
        Some(view) => Some(StreamRecord {
            keys,
            new_image,
            old_image,
            seq,
            size,
            view,
        }),
        None => None,
    }
}

fn shard_of(line: &Value<'_>) -> Result<u64, DdbError>
    requires { is_ordered (value_view line.now) ≡ true }
    ensures { result ≡ spec.field_of DdbField.ShardId (of_text shard_number) (data_in (value_view line.now)) }
{
    match member(line, "shardId") {
        Some(value) => shard_in(value).ok_or(DdbError::BadField(DdbField::ShardId)),
        None => Err(DdbError::Missing(DdbField::ShardId)),
    }
}

fn arrival_of(line: &Value<'_>) -> Result<u64, DdbError>
    requires { is_ordered (value_view line.now) ≡ true }
    ensures { result ≡ spec.field_of DdbField.ApproximateArrivalTimestamp moment (data_in (value_view line.now)) }
{
    let field = DdbField::ApproximateArrivalTimestamp;
    match member(line, "approximateArrivalTimestamp") {
        Some(value) => moment_in(value).ok_or(DdbError::BadField(field)),
        None => Err(DdbError::Missing(field)),
    }
}

fn event_id_of<'t>(line: &Value<'t>) -> Result<&'t str, DdbError>
    requires { is_ordered (value_view line.now) ≡ true }
    ensures { result_map_both (λ s. s.now) (λ e. e) result ≡ spec.field_of DdbField.EventId (of_text spec.event_id) (data_in (value_view line.entry.now)) }
{
    match member(line, "eventID") {
        Some(value) => match event_id_in(value) {
            Some(id) => Ok(id),
            None => Err(DdbError::BadField(DdbField::EventId)),
        },
        None => Err(DdbError::Missing(DdbField::EventId)),
    }
}

fn event_name_of<'t>(line: &Value<'t>) -> Result<&'t str, DdbError>
    requires { is_ordered (value_view line.now) ≡ true }
    ensures { result_map_both (λ s. s.now) (λ e. e) result ≡ spec.field_of DdbField.EventName (of_text spec.event_name) (data_in (value_view line.entry.now)) }
{
    match member(line, "eventName") {
        Some(value) => match event_name_in(value) {
            Some(name) => Ok(name),
            None => Err(DdbError::BadField(DdbField::EventName)),
        },
        None => Err(DdbError::Missing(DdbField::EventName)),
    }
}

fn item_of<'a, 't>(line: &'a Value<'t>) -> Result<StreamRecord<'a, 't>, DdbError>
    requires { is_ordered (value_view line.now) ≡ true }
    ensures { result_map_both record_view (λ e. e) result ≡ spec.field_of DdbField.Dynamodb spec.stream_record (data_in (value_view line.entry.now)) }
{
    match member(line, "dynamodb") {
        Some(value) => match stream_record(value) {
            Some(item) => Ok(item),
            None => Err(DdbError::BadField(DdbField::Dynamodb)),
        },
        None => Err(DdbError::Missing(DdbField::Dynamodb)),
    }
}

/// Returns the change that the object states, or the first of its fields that is absent or bad.
pub fn change_of<'a, 't>(line: &'a Value<'t>) -> Result<Change<'a, 't>, DdbError>
    requires { is_ordered (value_view line.now) ≡ true }
    ensures { result_map_both change_view (λ e. e) result ≡ spec.change_of (data_in (value_view line.entry.now)) }
{
    let shard = shard_of(line)?;
    let arrival = arrival_of(line)?;
    let id = event_id_of(line)?;
    let name = event_name_of(line)?;
    let item = item_of(line)?;
    Ok(Change {
        shard,
        arrival,
        id,
        name,
        item,
    })
}
