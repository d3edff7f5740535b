//! Reading the object of a line, and the moment in one of its fields.
ghost use Rattle.std.specs.Prelude.{◌≡◌, None, length};
ghost use Rattle.esm_record.specs.Leaf.{moment_in, field_in, leaf_at, IsObjectOf};

use crate::error::{Field, LineError, Refusal};
use crate::object::{Found, Leaf, read_object};
use crate::usual::read_usual;
use esm_model::MAX_MOMENT;
use json::Scratch;
use std::str::from_utf8;

/// Reads the members of the line's object into `found`, which has none yet.
pub fn read_line<'a>(
    scratch: &'a mut Scratch,
    line: &'a [u8],
    found: &mut Found<'a>,
) -> Result<(), Refusal>
    requires empty { (f : Field) → leaf_at f found.old ≡ None }
    requires sized { length found.old.leaves ≡ 9 }
    ensures { IsObjectOf line.now result found.new }
{
    if read_usual(line, found) {
        return Ok(());
    }
    let Ok(text) = from_utf8(line) else {
        return Err(Refusal::Line(LineError::NotJson));
    };
    match read_object(text, scratch, found) {
        Ok(true) => Ok(()),
        Ok(false) => Err(Refusal::Line(LineError::NotJson)),
        Err(_) => Err(Refusal::OutOfMemory),
    }
}

fn moment_in(leaf: Leaf<'_>) -> Option<u64>
    ensures { result ≡ moment_in leaf.entry }
{
    match leaf.whole() {
        Some(moment) if moment <= MAX_MOMENT => Some(moment),
        _ => None,
    }
}

/// The moment in the field, in milliseconds since 1970.
pub fn moment_of(line: &Found<'_>, field: Field) -> Result<u64, LineError>
    ensures { result ≡ field_in field moment_in (leaf_at field line.now) }
{
    match line.leaf(field) {
        Some(leaf) => moment_in(leaf).ok_or(LineError::BadField(field)),
        None => Err(LineError::Missing(field)),
    }
}
