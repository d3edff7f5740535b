//! Reading the tests of a pattern.
ghost use Rattle.std.specs.Prelude.{◌≡◌, ◌∷◌, [], map};
ghost use Rattle.serde_json.specs.View.{view, items_view, members_view};
ghost use Rattle.esm_model.specs.Pattern.{may_follow, read_following, read_second, read_bounds, read_numeric, read_scalar, read_all, reads_map, unless_no_items, read_anything_but, read_named, read_only, read_test};
ghost use Rattle.esm_filter.specs.ReadOutcome.{Tells};
ghost use Rattle.esm_filter.specs.View.{bound_view, comparison_view, scalar_view, test_view};

use crate::error::{PatternError, ReadError};
use crate::pattern::{Bound, Comparison, Scalar, Test};
use crate::scalar::{read_bool, read_comparison, read_scalar, read_text, read_whole, refusal_of};
use serde_json::{Map, Value};
use std::alloc::Global;

fn read_all_scalars(alloc: Global, items: &[Value]) -> Result<Vec<Scalar>, ReadError>
    ensures { Tells (λ v. map scalar_view v.items) result (read_all read_scalar (items_view items.now)) }
{
    let mut scalars = Vec::new(alloc);
    for item in items {
        let scalar = read_scalar(alloc, item)?;
        scalars.push(scalar)?;
    }
    Ok(scalars)
}

fn read_some_scalars(alloc: Global, items: &[Value]) -> Result<Vec<Scalar>, ReadError>
    ensures { Tells (λ v. map scalar_view v.items) result
        (unless_no_items (items_view items.now) (read_all read_scalar (items_view items.now))) }
{
    if items.is_empty() {
        return Err(ReadError::Refused(PatternError::Empty));
    }
    read_all_scalars(alloc, items)
}

fn read_one_scalar(alloc: Global, value: &Value) -> Result<Vec<Scalar>, ReadError>
    ensures { Tells (λ v. map scalar_view v.items) result (reads_map (λ x. x ∷ []) (read_scalar (view value.now))) }
{
    let mut scalars = Vec::new(alloc);
    let scalar = read_scalar(alloc, value)?;
    scalars.push(scalar)?;
    Ok(scalars)
}

/// Reads the values that a leaf may not equal: one, or a list of some.
fn read_anything_but(alloc: Global, value: &Value) -> Result<Vec<Scalar>, ReadError>
    ensures { Tells (λ v. map scalar_view v.items) result (read_anything_but (view value.now)) }
{
    match value {
        Value::Array(items) => read_some_scalars(alloc, items.as_slice()),
        Value::String(_) | Value::Number(_) => read_one_scalar(alloc, value),
        Value::Object(_) => Err(ReadError::Refused(refusal_of(value))),
        Value::Null | Value::Bool(_) => Err(ReadError::Refused(PatternError::BadTest)),
    }
}

/// Whether the second comparison may follow the first: only an upper bound may follow a lower one.
fn may_follow(first: Comparison, second: Comparison) -> bool
    ensures { result ≡ may_follow (comparison_view first) (comparison_view second) }
{
    match (first, second) {
        (Comparison::Above, Comparison::Below) => true,
        (Comparison::Above, Comparison::AtMost) => true,
        (Comparison::AtLeast, Comparison::Below) => true,
        (Comparison::AtLeast, Comparison::AtMost) => true,
        (Comparison::Above | Comparison::AtLeast, _) => false,
        (Comparison::Equal | Comparison::Below | Comparison::AtMost, _) => false,
    }
}

fn read_following(first: Comparison, value: &Value) -> Result<Comparison, ReadError>
    ensures { Tells comparison_view result (read_following (comparison_view first) (view value.now)) }
{
    let second = read_comparison(value)?;
    let allowed = may_follow(first, second);
    if allowed {
        Ok(second)
    } else {
        Err(ReadError::Refused(PatternError::BadTest))
    }
}

fn read_named(alloc: Global, name: &str, value: &Value) -> Result<Test, ReadError>
    ensures { Tells test_view result (read_named name.now (view value.now)) }
{
    if name == "equals-ignore-case" {
        Ok(Test::EqualsIgnoreCase(read_text(alloc, value)?))
    } else if name == "anything-but" {
        Ok(Test::AnythingBut(read_anything_but(alloc, value)?))
    } else if name == "numeric" {
        Ok(Test::Numeric(read_numeric(alloc, value)?))
    } else if name == "prefix" {
        Ok(Test::Prefix(read_text(alloc, value)?))
    } else if name == "suffix" {
        Ok(Test::Suffix(read_text(alloc, value)?))
    } else if name == "exists" {
        Ok(Test::Exists(read_bool(value)?))
    } else {
        Err(ReadError::Refused(PatternError::BadTest))
    }
}

/// Reads the test that is the only member of an object.
fn read_only(alloc: Global, members: &Map<String, Value>) -> Result<Test, ReadError>
    ensures { Tells test_view result (read_only (members_view members.now.entries)) }
{
    let mut entries = members.iter();
    let Some((name, value)) = entries.next() else {
        return Err(ReadError::Refused(PatternError::Empty));
    };
    match entries.next() {
        None => read_named(alloc, name.as_str(), value),
        Some(_) => Err(ReadError::Refused(PatternError::BadTest)),
    }
}

pub(crate) fn read_test(alloc: Global, value: &Value) -> Result<Test, ReadError>
    ensures { Tells test_view result (read_test (view value.now)) }
{
    match value {
        Value::Null => Ok(Test::Nothing),
        Value::Bool(truth) => Ok(Test::Truth(*truth)),
        Value::Number(_) | Value::String(_) => Ok(Test::Equals(read_scalar(alloc, value)?)),
        Value::Array(_) => Err(ReadError::Refused(refusal_of(value))),
        Value::Object(members) => read_only(alloc, members),
    }
}

/// Reads the tests of a list, in order.
pub(crate) fn read_tests(alloc: Global, items: &[Value]) -> Result<Vec<Test>, ReadError>
    ensures { Tells (λ v. map test_view v.items) result (read_all read_test (items_view items.now)) }
{
    let mut tests = Vec::new(alloc);
    for item in items {
        let test = read_test(alloc, item)?;
        tests.push(test)?;
    }
    Ok(tests)
}

fn one_bound(alloc: Global, first: Bound) -> Result<Vec<Bound>, ReadError>
    ensures { Tells (λ v. map bound_view v.items) result (Ok (bound_view first ∷ [])) }
{
    let mut bounds = Vec::with_capacity(alloc, 1)?;
    bounds.push(first)?;
    Ok(bounds)
}

fn two_bounds(alloc: Global, first: Bound, second: Bound) -> Result<Vec<Bound>, ReadError>
    ensures { Tells (λ v. map bound_view v.items) result (Ok (bound_view first ∷ bound_view second ∷ [])) }
{
    let mut bounds = Vec::with_capacity(alloc, 2)?;
    bounds.push(first)?;
    bounds.push(second)?;
    Ok(bounds)
}

/// Reads what follows the first bound: nothing, or an upper bound.
fn read_second(alloc: Global, first: Bound, rest: &[Value]) -> Result<Vec<Bound>, ReadError>
    ensures { Tells (λ v. map bound_view v.items) result
        (read_second (comparison_view first.comparison) first.value (items_view rest.now)) }
{
    if rest.is_empty() {
        return one_bound(alloc, first);
    }
    let comparison = read_following(first.comparison, &rest[0])?;
    if rest.len() == 1 {
        return Err(ReadError::Refused(PatternError::BadTest));
    }
    let value = read_whole(&rest[1])?;
    if rest.len() > 2 {
        return Err(ReadError::Refused(refusal_of(&rest[2])));
    }
    two_bounds(alloc, first, Bound { comparison, value })
}

fn read_bounds(alloc: Global, items: &[Value]) -> Result<Vec<Bound>, ReadError>
    ensures { Tells (λ v. map bound_view v.items) result (read_bounds (items_view items.now)) }
{
    if items.is_empty() {
        return Err(ReadError::Refused(PatternError::Empty));
    }
    let comparison = read_comparison(&items[0])?;
    if items.len() == 1 {
        return Err(ReadError::Refused(PatternError::BadTest));
    }
    let value = read_whole(&items[1])?;
    read_second(alloc, Bound { comparison, value }, &items[2..])
}

fn read_numeric(alloc: Global, value: &Value) -> Result<Vec<Bound>, ReadError>
    ensures { Tells (λ v. map bound_view v.items) result (read_numeric (view value.now)) }
{
    match value {
        Value::Array(items) => read_bounds(alloc, items.as_slice()),
        Value::Object(_) => Err(ReadError::Refused(refusal_of(value))),
        Value::Null | Value::Bool(_) | Value::Number(_) | Value::String(_) => Err(
            ReadError::Refused(PatternError::BadTest),
        ),
    }
}
