//! Recognizing keys and images that a line has in the form in which they are written.
ghost use Rattle.std.specs.Prelude.{◌≡◌, IfSome};
ghost use Rattle.esm_ddb.specs.Attribute.{is_text_type};
ghost use Rattle.esm_ddb.specs.OwnLine.{PassesAttribute, PassesAttributes, PassesImage, PassesItem, PassesText};
ghost use Rattle.esm_ddb.specs.Tree.{is_before};

use crate::own_element::after_part;
use crate::quoted::are_kept;
use memchr::memchr;
use std::cmp::Ordering;

/// Returns the text before the next quotation mark, and what follows the mark; `None` if a byte before it needs an
/// escape.
pub fn split_text(text: &[u8]) -> Option<(&[u8], &[u8])>
    ensures { IfSome result (λ p. PassesText text.now p.0.now p.1.now) }
{
    let at = memchr(b'"', text)?;
    if are_kept(&text[..at]) {
        Some((&text[..at], &text[at + 1..]))
    } else {
        None
    }
}

fn is_text_type(tag: &[u8]) -> bool
    ensures { result ≡ is_text_type tag.now }
{
    tag == b"S".as_slice() || tag == b"N".as_slice() || tag == b"B".as_slice()
}

/// The name of an attribute whose value is a text, and what follows the attribute.
fn split_attribute(text: &[u8]) -> Option<(&[u8], &[u8])>
    ensures { IfSome result (λ p. PassesAttribute text.now p.0.now p.1.now) }
{
    let begun = after_part(text, b"\"")?;
    let (name, behind_name) = split_text(begun)?;
    let typed = after_part(behind_name, b":{\"")?;
    let (tag, behind_tag) = split_text(typed)?;
    let content = after_part(behind_tag, b":\"")?;
    let (_content, behind_content) = split_text(content)?;
    let rest = after_part(behind_content, b"}")?;
    if is_text_type(tag) {
        Some((name, rest))
    } else {
        None
    }
}

/// Whether the name comes before the other one.
fn is_before(name: &[u8], other: &[u8]) -> bool
    ensures { result ≡ is_before name.now other.now }
{
    matches!(name.cmp(other), Ordering::Less)
}

/// What follows one attribute or more, in the order of their names, and the brace that closes them.
fn after_attributes(text: &[u8]) -> Option<&[u8]>
    ensures { IfSome result (λ rest. PassesAttributes text.now rest.now) }
{
    let (first, behind_first) = split_attribute(text)?;
    let mut before = first;
    let mut left = behind_first;
    while let Some(next) = after_part(left, b",") {
        let (name, rest) = split_attribute(next)?;
        if !is_before(before, name) {
            return None;
        }
        before = name;
        left = rest;
    }
    after_part(left, b"}")
}

/// Returns what follows the object of attributes.
pub fn after_item(text: &[u8]) -> Option<&[u8]>
    ensures { IfSome result (λ rest. PassesItem text.now rest.now) }
{
    let attributes = after_part(text, b"{")?;
    after_attributes(attributes)
}

/// Returns what follows the image and its name, if there is one; otherwise the whole text.
pub fn after_image<'a>(text: &'a [u8], name: &[u8]) -> Option<&'a [u8]>
    ensures { IfSome result (λ rest. PassesImage name.now text.entry.now rest.now) }
{
    match after_part(text, name) {
        Some(image) => after_item(image),
        None => Some(text),
    }
}
