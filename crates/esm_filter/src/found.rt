// The part of a document with the fields that the patterns name; its texts borrow from the document.
ghost use Rattle.std.specs.Prelude.{◌≡◌, ◌≢◌, Err, option_map, position, OnOk};
ghost use Rattle.std.specs.Str.{bytes_eq};
ghost use Rattle.serde_json.specs.Find.{as_array, get, get_member};
ghost use Rattle.esm_model.specs.Leaves.{is_leaf};
ghost use Rattle.esm_filter.specs.Found.{found_view, items_view, members_view, value_of, with_member};

use crate::error::DocumentError;
use serde_json::Number;

/// A value of a document.
#[derive(Drop)]
pub(crate) enum Found<'a> {
    Null,
    Bool(bool),
    Number(Number),
    Text(&'a str),
    Array(Vec<Found<'a>>),
    /// The members, each name once with the last value that the text gives it, in the order in which the names first occur.
    Object(Vec<(&'a str, Found<'a>)>),
}

/// The place of the member of that name.
fn place_of(members: &[(&str, Found<'_>)], name: &str) -> Option<usize>
    ensures { result ≡ position (λ m. bytes_eq name.now m.0.now) members.now }
{
    members.iter().position(|member| name == member.0)
}

/// The member of that name.
fn named<'v, 'a>(members: &'v Vec<(&'a str, Found<'a>)>, name: &str) -> Option<&'v Found<'a>>
    ensures { value_of result ≡ get_member name.now (members_view members.now.items) }
{
    match place_of(members.as_slice(), name) {
        Some(place) => {
            let member = &members[place];
            Some(&member.1)
        }
        None => None,
    }
}

/// Keeps the member, in the place of the one of its name.
pub(crate) fn put_member<'a>(
    members: &mut Vec<(&'a str, Found<'a>)>,
    name: &'a str,
    value: Found<'a>,
) -> Result<(), DocumentError>
    ensures ok { OnOk result (members.new.items ≡ with_member (name.entry, value.entry) members.old.items) }
    ensures memory { result ≢ Err DocumentError.NotJson }
{
    match place_of(members.as_slice(), name) {
        Some(place) => {
            members[place] = (name, value);
            Ok(())
        }
        None => {
            members.push((name, value))?;
            Ok(())
        }
    }
}

impl<'a> Found<'a> {
    /// Whether it is neither an array nor an object.
    pub(crate) fn is_leaf(&self) -> bool
        ensures { result ≡ is_leaf (found_view self.now) }
    {
        match self {
            Found::Null | Found::Bool(_) | Found::Number(_) | Found::Text(_) => true,
            Found::Array(_) | Found::Object(_) => false,
        }
    }

    /// The items, if it is an array.
    pub(crate) fn items(&self) -> Option<&[Found<'a>]>
        ensures { option_map (λ s. items_view s.now) result ≡ as_array (found_view self.now) }
    {
        match self {
            Found::Array(items) => Some(items.as_slice()),
            Found::Null | Found::Bool(_) | Found::Number(_) => None,
            Found::Text(_) | Found::Object(_) => None,
        }
    }

    /// The value of the member with this name; `None` if it is no object or has none.
    pub(crate) fn get(&self, name: &str) -> Option<&Found<'a>>
        ensures { value_of result ≡ get name.now (found_view self.now) }
    {
        match self {
            Found::Object(members) => named(members, name),
            Found::Null | Found::Bool(_) | Found::Number(_) => None,
            Found::Text(_) | Found::Array(_) => None,
        }
    }
}
