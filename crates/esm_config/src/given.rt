// The fields that a new mapping or an update gives, and those that no update may give.
ghost use Rattle.std.specs.Prelude.{◌≡◌};
ghost use Rattle.serde_json.specs.Data.{object};
ghost use Rattle.serde_json.specs.Find.{get_member};
ghost use Rattle.esm_config.specs.Fields.{field};
ghost use Rattle.esm_config.specs.Member.{members_of};
ghost use Rattle.esm_config.specs.Merge.{is_fixed};
ghost use Rattle.esm_config.specs.View.{data_of, fields_view};

use crate::member::Member;
use crate::param::Param;
use crate::sources::Sources;
use crate::value::{field, not_null};
use serde_json::Value;

/// Where the values of a mapping's fields come from.
#[derive(Clone, Copy, Debug)]
pub enum Fields<'a> {
    /// A new mapping's object, and the sources of which it may name one.
    New(Sources, &'a Value),
    /// An update's object, and the members of the old mapping's object.
    Update(&'a Value, &'a [Member]),
}

#[tactic(auto, using(crate::proofs::Looking::get_here, crate::proofs::Looking::get_later))]
fn get_member<'a>(members: &'a [Member], name: &str) -> Option<&'a Value>
    ensures { data_of result ≡ get_member name.now (members_of members.entry.now) }
{
    match members {
        [] => None,
        [first, rest @ ..] => {
            if name == first.name {
                Some(&first.value)
            } else {
                get_member(rest, name)
            }
        }
    }
}

fn member_field<'a>(members: &'a [Member], name: &str) -> Option<&'a Value>
    ensures { data_of result ≡ field name.now (object (members_of members.entry.now)) }
{
    match get_member(members, name) {
        Some(found) => not_null(found),
        None => None,
    }
}

/// Whether no update may give the field.
fn is_fixed(param: Param) -> bool
    ensures { result ≡ is_fixed param }
{
    match param {
        Param::EventSourceArn | Param::StartingPosition | Param::StartingPositionTimestamp => true,
        _ => false,
    }
}

impl<'a> Fields<'a> {
    /// The sources of which the mapping may name one.
    pub fn sources(self) -> Sources
        ensures { result ≡ (fields_view self.entry).sources }
    {
        match self {
            Fields::New(sources, _) => sources,
            Fields::Update(_, _) => Sources::KinesisOrSqs,
        }
    }

    /// The field's value, if it is there and not `null`; an absent field of an update has the old mapping's value.
    pub fn look(self, param: Param) -> Option<&'a Value>
        ensures { data_of result ≡ (fields_view self.entry).look param }
    {
        let name = param.name();
        match self {
            Fields::New(_, value) => field(value, name),
            Fields::Update(value, old) => match field(value, name) {
                Some(found) => Some(found),
                None => member_field(old, name),
            },
        }
    }

    /// Whether the field is given though it may not be.
    pub fn is_barred(self, param: Param) -> bool
        ensures { result ≡ (fields_view self.entry).is_barred param }
    {
        match self {
            Fields::New(_, _) => false,
            Fields::Update(value, _) => is_fixed(param) && field(value, param.name()).is_some(),
        }
    }
}
