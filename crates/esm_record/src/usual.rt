//! Reading a stream's line in the form in which programs write it: five members in one order, without white space and
//! escapes. It is read without an index and without tokens.
ghost use Rattle.std.specs.Prelude.{◌≡◌, ◌++◌, true, false, None, Ok, length, IfSome};
ghost use Rattle.std.specs.List.{list_all};
ghost use Rattle.esm_record.specs.Leaf.{leaf_at, IsObjectOf};
ghost use Rattle.esm_record.specs.declared.error.Field.{Field};
ghost use Rattle.esm_record.specs.Usual.{is_plain, PassesMember, PassesMoment, IsUsual};

use crate::decimal::{is_whole, number_of};
use crate::error::Field;
use crate::object::{Found, Leaf};
use crate::plain::Plain;
use memchr::memchr;

/// The texts and the moment of such a line.
#[derive(Clone, Copy, Drop)]
pub struct UsualLine<'a> {
    shard: Plain<'a>,
    seq: Plain<'a>,
    key: Plain<'a>,
    /// The text of the member `data`, which in a record's line is base64.
    payload: Plain<'a>,
    /// The arrival, in milliseconds since 1970.
    arrival: u64,
}

/// What comes after the literal, if the text begins with it.
fn after_literal<'a>(text: &'a [u8], literal: &[u8]) -> Option<&'a [u8]>
    ensures { IfSome result (λ rest. text.entry.now ≡ literal.now ++ rest.now) }
{
    text.strip_prefix(literal)
}

/// What comes before the literal, if the text ends with it.
fn before_literal<'a>(text: &'a [u8], literal: &[u8]) -> Option<&'a [u8]>
    ensures { IfSome result (λ front. text.entry.now ≡ front.now ++ literal.now) }
{
    text.strip_suffix(literal)
}

/// Whether the byte is an ASCII character that represents itself in a JSON text.
fn is_plain(byte: u8) -> bool
    ensures { result ≡ is_plain byte }
{
    (32 <= byte) & (byte < 128) & (byte != b'"') & (byte != b'\\')
}

/// Whether each byte is such a character. Reads all bytes, so the loop can use vector instructions.
fn are_plain(text: &[u8]) -> bool
    ensures { result ≡ list_all is_plain text.now }
{
    let mut passes = true;
    for byte in text {
        passes &= is_plain(*byte);
    }
    passes
}

/// The text after the literal, up to its quotation mark, and what comes after that.
fn split_member<'a>(text: &'a [u8], literal: &[u8]) -> Option<(Plain<'a>, &'a [u8])>
    ensures { IfSome result (λ p. PassesMember text.entry.now literal.now p.0.bytes.now p.1.now) }
{
    let begun = after_literal(text, literal)?;
    let at = memchr(b'"', begun)?;
    let bytes = &begun[..at];
    if are_plain(bytes) {
        Some((Plain { bytes }, &begun[at + 1..]))
    } else {
        None
    }
}

/// The moment at the end of the object, in milliseconds since 1970.
fn last_moment(text: &[u8]) -> Option<u64>
    ensures { IfSome result (λ moment. PassesMoment text.now moment) }
{
    let begun = after_literal(text, b",\"approximateArrivalTimestamp\":")?;
    let digits = before_literal(begun, b"}")?;
    if is_whole(digits) {
        Some(number_of(digits))
    } else {
        None
    }
}

/// The texts and the moment of the line, if it has this form.
fn usual_line(line: &[u8]) -> Option<UsualLine<'_>>
    ensures { IfSome result (λ u. IsUsual line.now u) }
{
    let (shard, behind_shard) = split_member(line, b"{\"shardId\":\"")?;
    let (seq, behind_seq) = split_member(behind_shard, b",\"sequenceNumber\":\"")?;
    let (key, behind_key) = split_member(behind_seq, b",\"partitionKey\":\"")?;
    let (payload, behind_payload) = split_member(behind_key, b",\"data\":\"")?;
    let arrival = last_moment(behind_payload)?;
    Some(UsualLine {
        shard,
        seq,
        key,
        payload,
        arrival,
    })
}

/// Reads the members of the line's object into `found`, which has none yet, if the line has this form. Returns whether it
/// did.
pub fn read_usual<'a>(line: &'a [u8], found: &mut Found<'a>) -> bool
    requires empty { (f : Field) → leaf_at f found.old ≡ None }
    requires sized { length found.old.leaves ≡ 9 }
    ensures read { result ≡ true → IsObjectOf line.now (Ok tt) found.new }
    ensures unread { result ≡ false → found.new ≡ found.old }
{
    let Some(usual) = usual_line(line) else {
        return false;
    };
    found.keep_field(Field::ShardId, Leaf::Plain(usual.shard));
    found.keep_field(Field::SequenceNumber, Leaf::Plain(usual.seq));
    found.keep_field(Field::PartitionKey, Leaf::Plain(usual.key));
    found.keep_field(Field::Data, Leaf::Plain(usual.payload));
    found.keep_field(
        Field::ApproximateArrivalTimestamp,
        Leaf::Whole(usual.arrival),
    );
    true
}
