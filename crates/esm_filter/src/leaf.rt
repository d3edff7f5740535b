//! Which tests pass for a leaf, for the leaves of a value, and for a text.
ghost use Rattle.std.specs.Prelude.{◌≡◌, ◌&&◌};
ghost use Rattle.std.specs.List.{list_any, list_all};
ghost use Rattle.serde_json.specs.Data as json;
ghost use Rattle.serde_json.specs.Find.{as_i64};
ghost use Rattle.serde_json.specs.View.{number_view};
ghost use Rattle.esm_model.specs.Leaves.{leaf_passes, is_leaf, is_absence, is_scalar, meets, some_passes};
ghost use Rattle.esm_filter.specs.Found.{found_view};
ghost use Rattle.esm_filter.specs.View.{bound_view, scalar_view, test_view};

use crate::found::Found;
use crate::pattern::{Bound, Comparison, Scalar, Test};
use serde_json::Number;

/// Whether the number is within the bound.
fn meets(number: i64, bound: &Bound) -> bool
    ensures { result ≡ meets number (bound_view bound.now) }
{
    match bound.comparison {
        Comparison::Equal => number == bound.value,
        Comparison::Below => number < bound.value,
        Comparison::AtMost => number <= bound.value,
        Comparison::Above => number > bound.value,
        Comparison::AtLeast => number >= bound.value,
    }
}

fn text_equals(text: &str, scalar: &Scalar) -> bool
    ensures { result ≡ is_scalar (json.string text.now) (scalar_view scalar.now) }
{
    match scalar {
        Scalar::Text(wanted) => text == wanted.as_str(),
        Scalar::Whole(_) => false,
    }
}

fn text_equals_any(text: &str, scalars: &[Scalar]) -> bool
    ensures { result ≡ list_any (λ s. is_scalar (json.string text.now) (scalar_view s)) scalars.now }
{
    scalars.iter().any(|s| text_equals(text, s))
}

fn number_equals(number: &Number, scalar: &Scalar) -> bool
    ensures { result ≡ is_scalar (json.number (number_view number.now)) (scalar_view scalar.now) }
{
    match (number.as_i64(), scalar) {
        (Some(whole), Scalar::Whole(wanted)) => whole == *wanted,
        _ => false,
    }
}

fn number_equals_any(number: &Number, scalars: &[Scalar]) -> bool
    ensures { result ≡ list_any (λ s. is_scalar (json.number (number_view number.now)) (scalar_view s)) scalars.now }
{
    scalars.iter().any(|s| number_equals(number, s))
}

fn meets_all(number: i64, bounds: &[Bound]) -> bool
    ensures { result ≡ list_all (λ b. meets number (bound_view b)) bounds.now }
{
    bounds.iter().all(|b| meets(number, b))
}

fn number_meets(number: &Number, bounds: &[Bound]) -> bool
    ensures { result ≡ some_passes (λ z. list_all (λ b. meets z (bound_view b)) bounds.now) (as_i64 (number_view number.now)) }
{
    match number.as_i64() {
        Some(whole) => meets_all(whole, bounds),
        None => false,
    }
}

pub(crate) fn text_passes(text: &str, test: &Test) -> bool
    ensures { result ≡ leaf_passes (test_view test.now) (json.string text.now) }
{
    match test {
        Test::Equals(scalar) => text_equals(text, scalar),
        Test::EqualsIgnoreCase(wanted) => text.eq_ignore_ascii_case(wanted.as_str()),
        Test::AnythingBut(scalars) => !text_equals_any(text, scalars),
        Test::Prefix(wanted) => text.starts_with(wanted.as_str()),
        Test::Suffix(wanted) => text.ends_with(wanted.as_str()),
        Test::Exists(wanted) => *wanted,
        Test::Truth(_) | Test::Nothing | Test::Numeric(_) => false,
    }
}

fn number_passes(number: &Number, test: &Test) -> bool
    ensures { result ≡ leaf_passes (test_view test.now) (json.number (number_view number.now)) }
{
    match test {
        Test::Equals(scalar) => number_equals(number, scalar),
        Test::AnythingBut(scalars) => !number_equals_any(number, scalars),
        Test::Numeric(bounds) => number_meets(number, bounds),
        Test::Exists(wanted) => *wanted,
        Test::EqualsIgnoreCase(_) | Test::Prefix(_) | Test::Suffix(_) => false,
        Test::Truth(_) | Test::Nothing => false,
    }
}

fn truth_passes(truth: bool, test: &Test) -> bool
    ensures { result ≡ leaf_passes (test_view test.now) (json.boolean truth) }
{
    match test {
        Test::Truth(wanted) => truth == *wanted,
        Test::AnythingBut(_) => true,
        Test::Exists(wanted) => *wanted,
        Test::Equals(_) | Test::Nothing | Test::Numeric(_) => false,
        Test::EqualsIgnoreCase(_) | Test::Prefix(_) | Test::Suffix(_) => false,
    }
}

fn null_passes(test: &Test) -> bool
    ensures { result ≡ leaf_passes (test_view test.now) json.null }
{
    match test {
        Test::Nothing => true,
        Test::AnythingBut(_) => true,
        Test::Exists(wanted) => *wanted,
        Test::Equals(_) | Test::Truth(_) | Test::Numeric(_) => false,
        Test::EqualsIgnoreCase(_) | Test::Prefix(_) | Test::Suffix(_) => false,
    }
}

/// Whether the value is a leaf that passes; a list or an object never is.
pub(crate) fn is_passing_leaf(value: &Found<'_>, test: &Test) -> bool
    ensures { result ≡ (is_leaf (found_view value.now) && leaf_passes (test_view test.now) (found_view value.now)) }
{
    match value {
        Found::Null => null_passes(test),
        Found::Bool(truth) => truth_passes(*truth, test),
        Found::Number(number) => number_passes(number, test),
        Found::Text(text) => text_passes(text, test),
        Found::Array(_) | Found::Object(_) => false,
    }
}

/// Whether the test is `"exists":false`, which passes where there is no leaf.
pub(crate) fn is_absence(test: &Test) -> bool
    ensures { result ≡ is_absence (test_view test.now) }
{
    match test {
        Test::Exists(wanted) => !*wanted,
        Test::Equals(_) | Test::Truth(_) | Test::Nothing | Test::AnythingBut(_) => false,
        Test::EqualsIgnoreCase(_) | Test::Prefix(_) | Test::Suffix(_) | Test::Numeric(_) => false,
    }
}
