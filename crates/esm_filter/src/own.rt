//! What a record's own fields decide, whatever its data is.
ghost use Rattle.std.specs.Prelude.{◌≡◌};
ghost use Rattle.std.specs.List.{list_any};
ghost use Rattle.esm_filter.specs.Judged.{judged_view};
ghost use Rattle.esm_filter.specs.Own.{fields_may_pass, one_may_pass, rule_may_pass};
ghost use Rattle.esm_filter.specs.View.{choices_view, fields_in, fields_view, rule_view};

use crate::judge::{Judged, rule_passes};
use crate::pattern::Rule;

#[cycle(own)]
fn rule_may_pass(rule: &Rule, key: &str, found: Judged<'_, '_>) -> bool
    ensures { result ≡ rule_may_pass (rule_view rule.now) key.now (judged_view found.entry) }
{
    match rule {
        Rule::Tests(_) | Rule::Nested(_) => key == "data" || rule_passes(rule, key, found),
        Rule::OneOf(choices) => one_may_pass(choices, found),
    }
}

#[cycle(own)]
fn fields_may_pass(fields: &Vec<(String, Rule)>, found: Judged<'_, '_>) -> bool
    ensures { result ≡ fields_may_pass (fields_view fields.now.items) (judged_view found.entry) }
{
    for member in fields {
        if !rule_may_pass(&member.1, member.0.as_str(), found) {
            return false;
        }
    }
    true
}

#[cycle(own)]
fn one_may_pass(choices: &Vec<Rule>, found: Judged<'_, '_>) -> bool
    ensures { result ≡ one_may_pass (choices_view choices.now.items) (judged_view found.entry) }
{
    for choice in choices {
        if choice_may_pass(choice, found) {
            return true;
        }
    }
    false
}

#[cycle(own)]
fn choice_may_pass(choice: &Rule, found: Judged<'_, '_>) -> bool
    ensures { result ≡ fields_may_pass (fields_in (rule_view choice.now)) (judged_view found.entry) }
{
    match choice {
        Rule::Nested(fields) => fields_may_pass(fields, found),
        Rule::Tests(_) | Rule::OneOf(_) => true,
    }
}

/// Whether one of the patterns may pass, whatever the record's data is; `found` shows the record without it.
pub(crate) fn one_pattern_may_pass(patterns: &[Vec<(String, Rule)>], found: Judged<'_, '_>) -> bool
    ensures { result ≡ list_any (λ p. fields_may_pass (fields_view p.items) (judged_view found.entry)) patterns.now }
{
    patterns.iter().any(|p| fields_may_pass(p, found))
}
