//! Reading from a document's tokens the fields that the patterns name, without building a tree of the rest.
ghost use Rattle.std.specs.Prelude.{◌≡◌, ◌≢◌, ◌<◌, ◌&&◌, ◌∷◌, ◌++◌, [], length, Err, None, option_map, true, false, IfOk, OnOk};
ghost use Rattle.json.specs.Json.{value, items, members};
ghost use Rattle.serde_json.specs.Data.{no_members};
ghost use Rattle.serde_json.specs.Read.{of_json, of_items, of_members, converted, read as read_text};
ghost use Rattle.esm_model.specs.Json.{read_json};
ghost use Rattle.esm_filter.specs.Criteria.{patterns_view};
ghost use Rattle.esm_filter.specs.Found.{found_view, items_view, members_view, with_member};
ghost use Rattle.esm_filter.specs.Named.{is_named, AreFew, KeepsItems, KeepsMembers, KeepsValue, Like};

use crate::error::DocumentError;
use crate::found::{Found, put_member};
use crate::names::is_named;
use crate::number::number_of;
use crate::pattern::Rule;
use crate::work::Work;
use esm_model::OutOfMemory;
use json::{Reader, Token};
use std::alloc::Global;
use std::str::from_utf8;

/// How deep arrays and objects may nest.
const MAX_DEPTH: usize = 127;

fn keep_item<'a>(
    found: &mut Vec<Found<'a>>,
    item: Found<'a>,
    kept: bool,
) -> Result<(), DocumentError>
    ensures ok { OnOk result (kept ≡ true → found.new.items ≡ found.old.items ++ item.entry ∷ []) }
    ensures memory { result ≢ Err DocumentError.NotJson }
{
    if kept {
        found.push(item)?;
    }
    Ok(())
}

fn keep_member<'a>(
    found: &mut Vec<(&'a str, Found<'a>)>,
    name: &'a str,
    member: Found<'a>,
    kept: bool,
) -> Result<(), DocumentError>
    ensures ok { OnOk result (kept ≡ true → found.new.items ≡ with_member (name.entry, member.entry) found.old.items) }
    ensures passed { kept ≡ false → found.new.items ≡ found.old.items }
    ensures memory { result ≢ Err DocumentError.NotJson }
{
    if kept {
        put_member(found, name, member)?;
    }
    Ok(())
}

fn is_wanted(patterns: &[Vec<(String, Rule)>], name: &str, kept: bool) -> bool
    ensures { result ≡ (kept && is_named (patterns_view patterns.now) name.now) }
{
    if kept {
        is_named(patterns, name)
    } else {
        false
    }
}

#[cycle(read)]
#[inline(always)]
fn read<'a>(
    alloc: Global,
    reader: &mut Reader<'a>,
    depth: usize,
    patterns: &[Vec<(String, Rule)>],
    kept: bool,
) -> Result<Found<'a>, DocumentError>
    ensures ok { IfOk result
        (λ v. KeepsValue (is_named (patterns_view patterns.now)) kept depth reader.old (found_view v) reader.new) }
    ensures shorter { OnOk result (length reader.new < length reader.old) }
    ensures err { result ≡ Err DocumentError.NotJson → converted of_json (value depth reader.old) ≡ None }
{
    let token = reader.next().ok_or(DocumentError::NotJson)?;
    match token {
        Token::String(text) => Ok(Found::Text(text)),
        Token::Number(text) => match number_of(text) {
            Some(number) => Ok(Found::Number(number)),
            None => Err(DocumentError::NotJson),
        },
        Token::Bool(b) => Ok(Found::Bool(b)),
        Token::Null => Ok(Found::Null),
        Token::EndObject | Token::EndArray | Token::Key(_) | Token::Bad => {
            Err(DocumentError::NotJson)
        }
        Token::BeginArray => {
            if depth == 0 {
                return Err(DocumentError::NotJson);
            }
            Ok(Found::Array(read_items(alloc, reader, depth - 1, patterns, kept)?))
        }
        Token::BeginObject => {
            if depth == 0 {
                return Err(DocumentError::NotJson);
            }
            Ok(Found::Object(read_members(alloc, reader, depth - 1, patterns, kept)?))
        }
    }
}

#[cycle(read)]
#[inline(never)]
fn read_items<'a>(
    alloc: Global,
    reader: &mut Reader<'a>,
    depth: usize,
    patterns: &[Vec<(String, Rule)>],
    kept: bool,
) -> Result<Vec<Found<'a>>, DocumentError>
    ensures ok { IfOk result (λ v. KeepsItems kept depth reader.old (items_view v.items) reader.new) }
    ensures shorter { OnOk result (length reader.new < length reader.old) }
    ensures err { result ≡ Err DocumentError.NotJson
        → converted of_items (items (value depth) (length reader.old) reader.old) ≡ None }
{
    let mut found = Vec::new(alloc);
    'items: while !reader.take_end_array() {
        let item = read(alloc, reader, depth, patterns, kept)?;
        keep_item(&mut found, item, kept)?;
    }
    Ok(found)
}

#[cycle(read)]
#[inline(never)]
fn read_members<'a>(
    alloc: Global,
    reader: &mut Reader<'a>,
    depth: usize,
    patterns: &[Vec<(String, Rule)>],
    kept: bool,
) -> Result<Vec<(&'a str, Found<'a>)>, DocumentError>
    ensures ok { IfOk result (λ m. KeepsMembers (is_named (patterns_view patterns.now)) kept depth
        reader.old (members_view m.items) reader.new) }
    ensures few { IfOk result (λ m. AreFew (is_named (patterns_view patterns.now)) m.items) }
    ensures shorter { OnOk result (length reader.new < length reader.old) }
    ensures err { result ≡ Err DocumentError.NotJson → converted (λ ms. of_members ms no_members)
        (members (value depth) (length reader.old) reader.old) ≡ None }
{
    let mut found = Vec::new(alloc);
    'members: while let Some(name) = reader.next_key()? {
        let wanted = is_wanted(patterns, name, kept);
        let member = read(alloc, reader, depth, patterns, wanted)?;
        keep_member(&mut found, name, member, wanted)?;
    }
    Ok(found)
}

/// The part of the text with the fields that the patterns name; `None` where the text is no JSON.
pub(crate) fn read_document<'a>(
    alloc: Global,
    patterns: &[Vec<(String, Rule)>],
    work: &'a mut Work,
    text: &'a str,
) -> Result<Option<Found<'a>>, OutOfMemory>
    ensures { IfOk result (λ json. Like (is_named (patterns_view patterns.now)) (read_text text.now) (option_map found_view json)) }
{
    let scratch = work.scratch(alloc)?;
    let Ok(mut reader) = Reader::new(text, scratch) else {
        return Err(OutOfMemory);
    };
    let value = match read(alloc, &mut reader, MAX_DEPTH, patterns, true) {
        Ok(value) => value,
        Err(DocumentError::NotJson) => return Ok(None),
        Err(DocumentError::OutOfMemory) => return Err(OutOfMemory),
    };
    match reader.next() {
        None => Ok(Some(value)),
        Some(_) => Ok(None),
    }
}

/// The same for bytes; `None` also where they are no UTF-8.
pub(crate) fn read_bytes<'a>(
    alloc: Global,
    patterns: &[Vec<(String, Rule)>],
    work: &'a mut Work,
    bytes: &'a [u8],
) -> Result<Option<Found<'a>>, OutOfMemory>
    ensures { IfOk result (λ json. Like (is_named (patterns_view patterns.now)) (read_json bytes.now) (option_map found_view json)) }
{
    match from_utf8(bytes) {
        Ok(text) => read_document(alloc, patterns, work, text),
        Err(_) => Ok(None),
    }
}
