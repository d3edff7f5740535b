//! The names that occur in patterns, at any depth.
ghost use Rattle.std.specs.Prelude.{◌≡◌};
ghost use Rattle.std.specs.List.{list_any};
ghost use Rattle.esm_filter.specs.Criteria.{patterns_view};
ghost use Rattle.esm_filter.specs.Named.{is_named, named_by_choices, named_by_rule, named_in};
ghost use Rattle.esm_filter.specs.View.{choices_view, fields_in, fields_view, rule_view};

use crate::pattern::Rule;

/// Whether a field of one of the patterns has this name.
pub(crate) fn is_named(patterns: &[Vec<(String, Rule)>], name: &str) -> bool
    ensures { result ≡ is_named (patterns_view patterns.now) name.now }
{
    one_names(patterns, name)
}

fn one_names(patterns: &[Vec<(String, Rule)>], name: &str) -> bool
    ensures { result ≡ list_any (λ p. named_in name.now (fields_view p.items)) patterns.now }
{
    patterns.iter().any(|p| fields_name(p, name))
}

#[cycle(names)]
fn rule_names(rule: &Rule, name: &str) -> bool
    ensures { result ≡ named_by_rule name.now (rule_view rule.now) }
{
    match rule {
        Rule::Tests(_) => false,
        Rule::Nested(fields) => fields_name(fields, name),
        Rule::OneOf(choices) => choices_name(choices, name),
    }
}

#[cycle(names)]
fn fields_name(fields: &Vec<(String, Rule)>, name: &str) -> bool
    ensures { result ≡ named_in name.now (fields_view fields.now.items) }
{
    for member in fields {
        if name == member.0.as_str() || rule_names(&member.1, name) {
            return true;
        }
    }
    false
}

#[cycle(names)]
fn choices_name(choices: &Vec<Rule>, name: &str) -> bool
    ensures { result ≡ named_by_choices name.now (choices_view choices.now.items) }
{
    for choice in choices {
        if choice_names(choice, name) {
            return true;
        }
    }
    false
}

#[cycle(names)]
fn choice_names(choice: &Rule, name: &str) -> bool
    ensures { result ≡ named_in name.now (fields_in (rule_view choice.now)) }
{
    match choice {
        Rule::Nested(fields) => fields_name(fields, name),
        Rule::Tests(_) | Rule::OneOf(_) => false,
    }
}
