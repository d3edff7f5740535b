//! Recognizing a line in the form that needs no parsing, cut into what is copied from it.
ghost use Rattle.std.specs.Prelude.{◌≡◌, ◌++◌, ℕ, List, codes, IfSome, IsTrue};
ghost use Rattle.esm_model.specs.Numbers.{decimal};
ghost use Rattle.esm_ddb.specs.OwnLine.{IsTold, PassesArrival, PassesEvent, PassesImages, PassesPlace, PassesShard};

use crate::change::{MAX_SIZE, is_event_id, is_event_name, is_view_type};
use crate::own_element::after_part;
use crate::own_item::{after_image, after_item, split_text};
use esm_model::MAX_MOMENT;
use esm_model::spelling::is_sequence;
use esm_record::shard_number;
use itoa::Buffer;

/// What is copied from a line.
#[derive(Clone, Copy)]
pub struct OwnLine<'a> {
    pub shard: u64,
    /// Milliseconds since 1970.
    pub arrival: u64,
    /// The members `eventID` and `eventName`.
    pub event: &'a [u8],
    pub keys: &'a [u8],
    pub seq: &'a [u8],
    /// The members of `dynamodb`.
    pub item: &'a [u8],
}

/// What precedes this end of the text.
fn front_of<'a>(text: &'a [u8], end: &[u8]) -> &'a [u8]
    ensures { (front : List ℕ) → text.entry.now ≡ front ++ end.now → result.now ≡ front }
{
    &text[..text.len().saturating_sub(end.len())]
}

/// The number whose digits the text begins with, or `u64::MAX` if it is greater.
fn digits_at(text: &[u8]) -> u64 {
    let mut number: u64 = 0;
    for byte in text {
        if !byte.is_ascii_digit() {
            return number;
        }
        number = number
            .saturating_mul(10)
            .saturating_add((*byte - b'0') as u64);
    }
    number
}

/// The number that the text begins with, in its shortest decimal form, and what follows it.
fn split_whole(text: &[u8]) -> Option<(u64, &[u8])>
    ensures { IfSome result (λ p. text.now ≡ decimal p.0 ++ p.1.now) }
{
    let number = digits_at(text);
    let mut buffer = Buffer::new();
    let rest = after_part(text, buffer.format(number).as_bytes())?;
    Some((number, rest))
}

/// The shard's number, and what follows its id.
fn split_shard(text: &[u8]) -> Option<(u64, &[u8])>
    ensures { IfSome result (λ p. PassesShard text.now p.0 p.1.now) }
{
    let id = after_part(text, b"{\"shardId\":\"")?;
    let (shard, rest) = split_text(id)?;
    let number = shard_number(shard)?;
    Some((number, rest))
}

/// The moment of arrival in milliseconds since 1970, and what follows its comma.
fn split_arrival(text: &[u8]) -> Option<(u64, &[u8])>
    ensures { IfSome result (λ p. PassesArrival text.now p.0 p.1.now) }
{
    let moment = after_part(text, b",\"approximateArrivalTimestamp\":")?;
    let (arrival, behind) = split_whole(moment)?;
    let rest = after_part(behind, b",")?;
    if arrival <= MAX_MOMENT {
        Some((arrival, rest))
    } else {
        None
    }
}

/// The members `eventID` and `eventName`, and what follows them.
fn split_event(text: &[u8]) -> Option<(&[u8], &[u8])>
    ensures { IfSome result (λ p. PassesEvent text.now p.0.now p.1.now) }
{
    let begun = after_part(text, b"\"eventID\":\"")?;
    let (id, behind_id) = split_text(begun)?;
    let named = after_part(behind_id, b",\"eventName\":\"")?;
    let (name, rest) = split_text(named)?;
    if is_event_id(id) && is_event_name(name) {
        Some((front_of(text, rest), rest))
    } else {
        None
    }
}

/// The text of the keys, and what follows the images.
fn split_images(text: &[u8]) -> Option<(&[u8], &[u8])>
    ensures { IfSome result (λ p. PassesImages text.now p.0.now p.1.now) }
{
    let keys = after_part(text, b"\"Keys\":")?;
    let behind_keys = after_item(keys)?;
    let behind_new = after_image(behind_keys, b",\"NewImage\":")?;
    let rest = after_image(behind_new, b",\"OldImage\":")?;
    Some((front_of(keys, behind_keys), rest))
}

/// The sequence number, and what follows the members of `dynamodb` behind the images.
fn split_place(text: &[u8]) -> Option<(&[u8], &[u8])>
    ensures { IfSome result (λ p. PassesPlace text.now p.0.now p.1.now) }
{
    let begun = after_part(text, b",\"SequenceNumber\":\"")?;
    let (seq, behind_seq) = split_text(begun)?;
    let sized = after_part(behind_seq, b",\"SizeBytes\":")?;
    let (size, behind_size) = split_whole(sized)?;
    let viewed = after_part(behind_size, b",\"StreamViewType\":\"")?;
    let (view, rest) = split_text(viewed)?;
    if is_sequence(seq) && size <= MAX_SIZE && is_view_type(view) {
        Some((seq, rest))
    } else {
        None
    }
}

fn is_end(text: &[u8]) -> bool
    ensures { IsTrue result → text.now ≡ codes "}}" }
{
    text == b"}}".as_slice()
}

/// Returns what is copied from the line, if it has this form.
pub fn own_line(text: &[u8]) -> Option<OwnLine<'_>>
    ensures { IfSome result (λ o. IsTold text.now o) }
{
    let (shard, behind_shard) = split_shard(text)?;
    let (arrival, behind_arrival) = split_arrival(behind_shard)?;
    let (event, behind_event) = split_event(behind_arrival)?;
    let members = after_part(behind_event, b",\"dynamodb\":{")?;
    let (keys, behind_images) = split_images(members)?;
    let (seq, end) = split_place(behind_images)?;
    if !is_end(end) {
        return None;
    }
    let item = front_of(members, end);
    Some(OwnLine {
        shard,
        arrival,
        event,
        keys,
        seq,
        item,
    })
}
