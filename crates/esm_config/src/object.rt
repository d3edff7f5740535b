// Writing JSON objects whose members keep their order.
ghost use Rattle.std.specs.Prelude.{◌≡◌, ◌++◌, ◌∷◌, false, IfOk, OnOk};
ghost use Rattle.std.specs.String.{string_bytes};
ghost use Rattle.json.specs.Print.{quoted};
ghost use Rattle.serde_json.specs.Data.{object};
ghost use Rattle.serde_json.specs.View.{view};
ghost use Rattle.serde_json.specs.Written.{comma_if, compact_text, has_float, members_have_float};
ghost use Rattle.esm_config.specs.Member.{members_of};

use crate::member::Member;
use esm_model::OutOfMemory;
use serde_json::Value;
use std::alloc::{AllocError, Global};

fn push_value(alloc: Global, out: &mut String, value: &Value) -> Result<(), AllocError>
    requires { has_float (view value.now) ≡ false }
    ensures { OnOk result (string_bytes out.new ≡ string_bytes out.old ++ compact_text (view value.now)) }
{
    let text = value.to_string(alloc)?;
    out.push_str(text.as_str())
}

fn push_name(alloc: Global, out: &mut String, name: &str) -> Result<(), AllocError>
    ensures { OnOk result (string_bytes out.new ≡ string_bytes out.old ++ quoted name.now) }
{
    let value = Value::try_from_str(alloc, name)?;
    push_value(alloc, out, &value)
}

fn push_comma(out: &mut String, later: bool) -> Result<(), AllocError>
    ensures { OnOk result (string_bytes out.new ≡ string_bytes out.old ++ comma_if later) }
{
    if later { out.push_str(",") } else { Ok(()) }
}

fn push_member(
    alloc: Global,
    out: &mut String,
    later: bool,
    member: &Member,
) -> Result<(), AllocError>
    requires { has_float (view member.now.value) ≡ false }
    ensures { OnOk result (string_bytes out.new ≡ string_bytes out.old
        ++ (comma_if later ++ (quoted member.now.name.now ++ (58 ∷ compact_text (view member.now.value))))) }
{
    push_comma(out, later)?;
    push_name(alloc, out, member.name)?;
    out.push_str(":")?;
    push_value(alloc, out, &member.value)
}

/// The JSON text of the object with these members, in their order, with no white space.
pub fn object_string(alloc: Global, members: &[Member]) -> Result<String, OutOfMemory>
    requires { members_have_float (members_of members.now) ≡ false }
    ensures { IfOk result (λ text. string_bytes text ≡ compact_text (object (members_of members.now))) }
{
    let mut out = String::from_str(alloc, "{")?;
    let mut later = false;
    for member in members {
        push_member(alloc, &mut out, later, member)?;
        later = true;
    }
    out.push_str("}")?;
    Ok(out)
}

/// The bytes of that text.
pub fn object_text(alloc: Global, members: &[Member]) -> Result<Vec<u8>, OutOfMemory>
    requires { members_have_float (members_of members.now) ≡ false }
    ensures { IfOk result (λ text. text.items ≡ compact_text (object (members_of members.now))) }
{
    let text = object_string(alloc, members)?;
    Ok(text.into_bytes())
}
