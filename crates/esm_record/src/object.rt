//! Reading the members of a line's object that fields name from its tokens, without building a tree.
ghost use Rattle.std.specs.Prelude.{◌≡◌, ◌<◌, ◌∷◌, false, length, Some, None, option_map, IfSome, IsUtf8, IfOk, OnOk, OnErr};
ghost use Rattle.std.specs.Bool.{MatchBool};
ghost use Rattle.json.specs.Json.{value, items, members};
ghost use Rattle.json.specs.Token as token;
ghost use Rattle.serde_json.specs.Data.{Data, Members, no_members, put};
ghost use Rattle.serde_json.specs.Read.{of_json, of_items, of_members, converted, read};
ghost use Rattle.esm_record.specs.Line.{name_of};
ghost use Rattle.esm_record.specs.Leaf.{
  text_in,
  whole_in,
  IsLeafOf,
  ReadsLeaf,
  PassesItems,
  PassesMembers,
  ReadsMembers,
  opens_object,
  leaf_at,
  AreFound,
  IsObjectRead,
};

use crate::error::Field;
use crate::number::whole_number;
use crate::plain::Plain;
use esm_model::OutOfMemory;
use json::{Invalid, Reader, Scratch, Token};
use std::str::from_utf8;

/// How deep arrays and objects may nest within the object of a line.
const MAX_DEPTH: usize = 126;

/// What a field uses of a value.
#[derive(Clone, Copy, Drop)]
pub enum Leaf<'a> {
    /// A text that the reader of tokens returned.
    Text(&'a str),
    /// A text of a line in the usual form.
    Plain(Plain<'a>),
    /// A number without sign, fraction and exponent, below 2^64.
    Whole(u64),
    Other,
}

impl<'a> Leaf<'a> {
    pub fn text(self) -> Option<&'a str>
        ensures { option_map (λ t. t.now) result ≡ text_in self.entry }
    {
        match self {
            Leaf::Text(text) => Some(text),
            Leaf::Plain(plain) => match from_utf8(plain.bytes) {
                Ok(text) => Some(text),
                Err(_) => unreachable!(),
            },
            Leaf::Whole(_) | Leaf::Other => None,
        }
    }

    /// The bytes of its text. They are not checked again to be UTF-8.
    pub fn bytes(self) -> Option<&'a [u8]>
        ensures value { option_map (λ b. b.now) result ≡ text_in self.entry }
        ensures utf8 { IfSome result (λ b. IsUtf8 b.now) }
    {
        match self {
            Leaf::Text(text) => Some(text.as_bytes()),
            Leaf::Plain(plain) => Some(plain.bytes),
            Leaf::Whole(_) | Leaf::Other => None,
        }
    }

    pub fn whole(self) -> Option<u64>
        ensures { result ≡ whole_in self.entry }
    {
        match self {
            Leaf::Whole(number) => Some(number),
            Leaf::Text(_) | Leaf::Plain(_) | Leaf::Other => None,
        }
    }
}

/// The values of the members that fields name; of a name that occurs twice, the last.
#[derive(Drop)]
pub struct Found<'a> {
    leaves: [Option<Leaf<'a>>; 9],
}

impl<'a> Found<'a> {
    /// No member was read yet.
    pub fn nothing() -> Found<'a>
        ensures empty { (f : Field) → leaf_at f result ≡ None }
        ensures sized { length result.leaves ≡ 9 }
    {
        Found { leaves: [None; 9] }
    }

    pub fn leaf(&self, field: Field) -> Option<Leaf<'a>>
        ensures { result ≡ leaf_at field self.now }
    {
        let leaves = &self.leaves[..];
        leaves[field.slot()]
    }

    /// Adds the next member of the object, which has this field's name.
    pub fn keep_field(&mut self, field: Field, leaf: Leaf<'a>)
        requires { length self.old.leaves ≡ 9 }
        ensures kept { (d : Data) (ms : Members) → IsLeafOf d leaf.entry → AreFound ms self.old → AreFound (put (name_of field) d ms) self.new }
        ensures sized { length self.new.leaves ≡ 9 }
    {
        let at = field.slot();
        let leaves = &mut self.leaves[..];
        leaves[at] = Some(leaf);
    }

    /// Adds the next member of the object.
    fn keep(&mut self, name: &str, leaf: Leaf<'a>)
        requires { length self.old.leaves ≡ 9 }
        ensures kept { (d : Data) (ms : Members) → IsLeafOf d leaf.entry → AreFound ms self.old → AreFound (put name.now d ms) self.new }
        ensures sized { length self.new.leaves ≡ 9 }
    {
        if let Some(field) = Field::of_name(name) {
            self.keep_field(field, leaf);
        }
    }
}

#[cycle(leaf)]
#[inline(always)]
fn read_leaf<'a>(reader: &mut Reader<'a>, depth: usize) -> Result<Leaf<'a>, Invalid>
    ensures ok { IfOk result (λ l. ReadsLeaf depth reader.old l reader.new) }
    ensures shorter { OnOk result (length reader.new < length reader.old) }
    ensures err { OnErr result (converted of_json (value depth reader.old) ≡ None) }
{
    let token = reader.next().ok_or(Invalid)?;
    match token {
        Token::String(text) => Ok(Leaf::Text(text)),
        Token::Number(text) => match whole_number(text) {
            Some(Some(number)) => Ok(Leaf::Whole(number)),
            Some(None) => Ok(Leaf::Other),
            None => Err(Invalid),
        },
        Token::Bool(_) => Ok(Leaf::Other),
        Token::Null => Ok(Leaf::Other),
        Token::EndObject | Token::EndArray | Token::Key(_) | Token::Bad => Err(Invalid),
        Token::BeginArray => {
            if depth == 0 {
                return Err(Invalid);
            }
            pass_items(reader, depth - 1)?;
            Ok(Leaf::Other)
        }
        Token::BeginObject => {
            if depth == 0 {
                return Err(Invalid);
            }
            pass_members(reader, depth - 1)?;
            Ok(Leaf::Other)
        }
    }
}

#[cycle(leaf)]
#[inline(never)]
fn pass_items(reader: &mut Reader<'_>, depth: usize) -> Result<(), Invalid>
    ensures ok { OnOk result (PassesItems depth reader.old reader.new) }
    ensures shorter { OnOk result (length reader.new < length reader.old) }
    ensures err { OnErr result (converted of_items (items (value depth) (length reader.old) reader.old) ≡ None) }
{
    'items: while !reader.take_end_array() {
        let _ = read_leaf(reader, depth)?;
    }
    Ok(())
}

#[cycle(leaf)]
#[inline(never)]
fn pass_members(reader: &mut Reader<'_>, depth: usize) -> Result<(), Invalid>
    ensures ok { OnOk result (PassesMembers depth reader.old reader.new) }
    ensures shorter { OnOk result (length reader.new < length reader.old) }
    ensures err { OnErr result (converted (λ ms. of_members ms no_members)
        (members (value depth) (length reader.old) reader.old) ≡ None) }
{
    'members: while let Some(_) = reader.next_key()? {
        let _ = read_leaf(reader, depth)?;
    }
    Ok(())
}

/// Reads the members up to the brace that closes the object.
fn read_members<'a>(reader: &mut Reader<'a>, found: &mut Found<'a>) -> Result<(), Invalid>
    requires empty { (f : Field) → leaf_at f found.old ≡ None }
    requires sized { length found.old.leaves ≡ 9 }
    ensures ok { OnOk result (ReadsMembers MAX_DEPTH reader.old found.new reader.new) }
    ensures err { OnErr result (converted (λ ms. of_members ms no_members)
        (members (value MAX_DEPTH) (length reader.old) reader.old) ≡ None) }
{
    'members: while let Some(name) = reader.next_key()? {
        let leaf = read_leaf(reader, MAX_DEPTH)?;
        found.keep(name, leaf);
    }
    Ok(())
}

/// Takes the brace that opens an object. `false` means that the tokens are no object.
fn opens_object(reader: &mut Reader<'_>) -> bool
    ensures { MatchBool result (reader.old ≡ token.begin_object ∷ reader.new) (opens_object reader.old ≡ false) }
{
    match reader.next() {
        Some(token) => matches!(token, Token::BeginObject),
        None => false,
    }
}

/// Reads the members of the text's object into `found`, which has none yet. `false` means that the text is no object.
pub fn read_object<'a>(
    text: &'a str,
    scratch: &'a mut Scratch,
    found: &mut Found<'a>,
) -> Result<bool, OutOfMemory>
    requires empty { (f : Field) → leaf_at f found.old ≡ None }
    requires sized { length found.old.leaves ≡ 9 }
    ensures { IfOk result (λ is. IsObjectRead (read text.now) is found.new) }
{
    let Ok(mut reader) = Reader::new(text, scratch) else {
        return Err(OutOfMemory);
    };
    if !opens_object(&mut reader) {
        return Ok(false);
    }
    let Ok(()) = read_members(&mut reader, found) else {
        return Ok(false);
    };
    match reader.next() {
        None => Ok(true),
        Some(_) => Ok(false),
    }
}
