// Writing the JSON texts of answers.
ghost use Rattle.std.specs.Prelude.{◌≡◌, ◌++◌, false, IfOk, OnOk};
ghost use Rattle.serde_json.specs.Data.{string};
ghost use Rattle.serde_json.specs.View.{view};
ghost use Rattle.serde_json.specs.Written.{comma_if, members_have_float};
ghost use Rattle.esm_config.specs.Member.{members_of};
ghost use Rattle.esm_registry.specs.Texts.{first_members, mapping_text};

use crate::mapping::Mapping;
use esm_config::{Member, object_text, settings};
use esm_model::OutOfMemory;
use serde_json::Value;
use std::alloc::Global;
use uuid::Uuid;

/// A member whose value is a string.
fn text_member(alloc: Global, name: &'static str, text: &str) -> Result<Member, OutOfMemory>
    ensures name { IfOk result (λ m. m.name.now ≡ name.now) }
    ensures value { IfOk result (λ m. view m.value ≡ string text.now) }
{
    let value = Value::try_from_str(alloc, text)?;
    Ok(Member { name, value })
}

/// The members before a mapping's settings.
#[tactic(auto, unfolding(crate::specs::Texts::first_members))]
fn first_members(alloc: Global, mapping: &Mapping) -> Result<Vec<Member>, OutOfMemory>
    ensures members { IfOk result (λ members. members_of members.items ≡ first_members mapping.now) }
    ensures no_float { IfOk result (λ members. members_have_float (members_of members.items) ≡ false) }
{
    let config = &mapping.config;
    let state = if config.enabled {
        "Enabled"
    } else {
        "Disabled"
    };
    let mut buffer = Uuid::encode_buffer();
    let id = mapping.id.hyphenated();
    let id = id.encode_lower(&mut buffer);
    let id = text_member(alloc, "UUID", id)?;
    let source = text_member(alloc, "EventSourceArn", config.source_arn.as_str())?;
    let function = text_member(alloc, "FunctionArn", config.function_arn.as_str())?;
    let state = text_member(alloc, "State", state)?;
    let modified = Member {
        name: "LastModified",
        value: Value::from(mapping.modified / 1000),
    };
    Ok(vec![in alloc; id, source, function, state, modified]?)
}

/// The answer's body for one mapping.
#[tactic(auto, unfolding(crate::specs::Texts::mapping_text))]
pub(crate) fn mapping_text(alloc: Global, mapping: &Mapping) -> Result<Vec<u8>, OutOfMemory>
    ensures { IfOk result (λ text. text.items ≡ mapping_text mapping.now) }
{
    let before = first_members(alloc, mapping)?;
    let members = settings(alloc, before, &mapping.config)?;
    object_text(alloc, &members)
}

/// Appends a mapping to the text of a list, after a comma if `later`.
pub(crate) fn push_mapping(
    alloc: Global,
    text: &mut Vec<u8>,
    later: bool,
    mapping: &Mapping,
) -> Result<(), OutOfMemory>
    ensures { OnOk result (text.new.items ≡ text.old.items ++ (comma_if later ++ mapping_text mapping.now)) }
{
    if later {
        text.push(b',')?;
    }
    text.extend_from_slice(&mapping_text(alloc, mapping)?)?;
    Ok(())
}
