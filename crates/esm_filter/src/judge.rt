//! Whether an object passes a pattern.
ghost use Rattle.std.specs.Prelude.{◌≡◌, if◌then◌else◌, ◌&&◌, ◌∷◌, [], map, option_map};
ghost use Rattle.std.specs.List.{list_any};
ghost use Rattle.serde_json.specs.Data as json_data;
ghost use Rattle.serde_json.specs.Find.{get_member};
ghost use Rattle.esm_model.specs.Filter.{members_in, json_members, is_text_body, record_field, message_text, rule_passes, fields_pass, one_passes};
ghost use Rattle.esm_model.specs.Leaves.{is_leaf, leaf_passes, leaves, some_passes, test_passes, tests_pass};
ghost use Rattle.esm_filter.specs.Found.{found_view, value_of};
ghost use Rattle.esm_filter.specs.Judged.{judged_view, text_of};
ghost use Rattle.esm_filter.specs.View.{test_view, rule_view, fields_in, fields_view, choices_view};

use crate::found::Found;
use crate::leaf::{is_absence, is_passing_leaf, text_passes};
use crate::pattern::{Rule, Test};
use esm_model::{Message, Record};

/// The object that a pattern is judged over.
#[derive(Clone, Copy, Drop)]
pub(crate) enum Judged<'a, 'd> {
    /// The members of a JSON object; a value of another kind, or an absent one, has no members.
    Within(Option<&'a Found<'d>>),
    /// A stream's record, and its data where that is JSON.
    OfRecord(&'a Record, Option<&'a Found<'d>>),
    /// A queue's message, and its body where that is JSON.
    OfMessage(&'a Message, Option<&'a Found<'d>>),
}

/// Whether one leaf of the value passes.
fn leaves_pass(value: &Found<'_>, test: &Test) -> bool
    ensures { result ≡ list_any (leaf_passes (test_view test.now)) (leaves (Some (found_view value.now))) }
{
    match value.items() {
        Some(items) => items_pass(items, test),
        None => is_passing_leaf(value, test),
    }
}

fn items_pass(items: &[Found<'_>], test: &Test) -> bool
    ensures { result ≡ list_any (λ v. is_leaf (found_view v) && leaf_passes (test_view test.now) (found_view v)) items.now }
{
    items.iter().any(|item| is_passing_leaf(item, test))
}

fn value_leaves_pass(value: Option<&Found<'_>>, test: &Test) -> bool
    ensures { result ≡ list_any (leaf_passes (test_view test.now)) (leaves (value_of value.entry)) }
{
    match value {
        Some(found) => leaves_pass(found, test),
        None => false,
    }
}

fn value_passes(value: Option<&Found<'_>>, test: &Test) -> bool
    ensures { result ≡ test_passes (leaves (value_of value.entry)) (test_view test.now) }
{
    let absence = is_absence(test);
    if absence {
        !value_leaves_pass(value, &Test::Exists(true))
    } else {
        value_leaves_pass(value, test)
    }
}

fn value_passes_any(value: Option<&Found<'_>>, tests: &[Test]) -> bool
    ensures { result ≡ list_any (λ t. test_passes (leaves (value_of value.entry)) (test_view t)) tests.now }
{
    tests.iter().any(|test| value_passes(value, test))
}

/// Whether one of the tests passes for the leaves of a field with this value.
fn value_tests_pass(value: Option<&Found<'_>>, tests: &[Test]) -> bool
    ensures { result ≡ tests_pass (map test_view tests.now) (leaves (value_of value.entry)) }
{
    value_passes_any(value, tests)
}

/// Whether the test passes for a field whose only leaf is this text.
fn text_passes_test(text: &str, test: &Test) -> bool
    ensures { result ≡ test_passes (json_data.string text.now ∷ []) (test_view test.now) }
{
    let absence = is_absence(test);
    if absence {
        false
    } else {
        text_passes(text, test)
    }
}

fn text_passes_any(text: &str, tests: &[Test]) -> bool
    ensures { result ≡ list_any (λ t. test_passes (json_data.string text.now ∷ []) (test_view t)) tests.now }
{
    tests.iter().any(|test| text_passes_test(text, test))
}

fn text_tests_pass(text: &str, tests: &[Test]) -> bool
    ensures { result ≡ tests_pass (map test_view tests.now) (json_data.string text.now ∷ []) }
{
    text_passes_any(text, tests)
}

/// Whether one of the tests passes for a field that is this text or is absent.
fn text_or_none_tests_pass(text: Option<&str>, tests: &[Test]) -> bool
    ensures { result ≡ tests_pass (map test_view tests.now) (leaves (text_of text.entry)) }
{
    match text {
        Some(found) => text_tests_pass(found, tests),
        None => value_tests_pass(None, tests),
    }
}

fn record_field<'r>(item: &'r Record, key: &str) -> Option<&'r str>
    ensures { text_of result ≡ record_field item.now key.now }
{
    if key == "kinesisSchemaVersion" {
        Some("1.0")
    } else if key == "partitionKey" {
        Some(item.key_text())
    } else if key == "sequenceNumber" {
        Some(item.seq_text())
    } else {
        None
    }
}

fn message_text<'m>(message: &'m Message, key: &str) -> Option<&'m str>
    ensures { text_of result ≡ message_text message.now key.now }
{
    if key == "messageId" {
        Some(message.id.as_str())
    } else {
        None
    }
}

fn is_text_body(json: Option<&Found<'_>>) -> bool
    ensures { result ≡ is_text_body (value_of json.entry) }
{
    match json {
        Some(value) => value.is_leaf(),
        None => true,
    }
}

/// The member with this key, if the value is an object.
fn member<'v, 'd>(value: Option<&'v Found<'d>>, key: &str) -> Option<&'v Found<'d>>
    ensures { value_of result ≡ get_member key.now (members_in (value_of value.entry)) }
{
    match value {
        Some(found) => found.get(key),
        None => None,
    }
}

fn body_tests_pass(message: &Message, json: Option<&Found<'_>>, tests: &[Test]) -> bool
    ensures { result ≡ some_passes (tests_pass (map test_view tests.now))
        (if is_text_body (value_of json.entry) then Some (json_data.string message.now.body ∷ []) else None) }
{
    let plain = is_text_body(json);
    if plain {
        text_tests_pass(message.body.as_str(), tests)
    } else {
        false
    }
}

impl<'a, 'd> Judged<'a, 'd> {
    /// Whether one of the tests passes for the field's leaves.
    fn tests_pass(self, key: &str, tests: &[Test]) -> bool
        ensures { result ≡ some_passes (tests_pass (map test_view tests.now)) (judged_view self.entry key.now).leaves }
    {
        match self {
            Judged::Within(value) => value_tests_pass(member(value, key), tests),
            Judged::OfRecord(item, _) => {
                if key == "data" {
                    false
                } else {
                    text_or_none_tests_pass(record_field(item, key), tests)
                }
            }
            Judged::OfMessage(message, json) => {
                if key == "body" {
                    body_tests_pass(message, json, tests)
                } else {
                    text_or_none_tests_pass(message_text(message, key), tests)
                }
            }
        }
    }

    /// The field's value for an object pattern; the outer `None` means that any object pattern fails for it.
    fn inner(self, key: &str) -> Option<Option<&'a Found<'d>>>
        ensures { option_map (λ v. members_in (value_of v)) result ≡ (judged_view self.entry key.now).members }
    {
        match self {
            Judged::Within(value) => Some(member(value, key)),
            Judged::OfRecord(_, json) => {
                if key == "data" {
                    some_json(json)
                } else {
                    Some(None)
                }
            }
            Judged::OfMessage(_, json) => {
                if key == "body" {
                    some_json(json)
                } else {
                    Some(None)
                }
            }
        }
    }
}

fn some_json<'v, 'd>(json: Option<&'v Found<'d>>) -> Option<Option<&'v Found<'d>>>
    ensures { option_map (λ v. members_in (value_of v)) result ≡ json_members (value_of json.entry) }
{
    match json {
        Some(value) => Some(Some(value)),
        None => None,
    }
}

/// Whether the object's field with this key meets the rule.
#[cycle(judge)]
pub(crate) fn rule_passes(rule: &Rule, key: &str, found: Judged<'_, '_>) -> bool
    ensures { result ≡ rule_passes (rule_view rule.now) key.now (judged_view found.entry) }
{
    match rule {
        Rule::Tests(tests) => found.tests_pass(key, tests.as_slice()),
        Rule::Nested(fields) => match found.inner(key) {
            Some(value) => fields_pass(fields, Judged::Within(value)),
            None => false,
        },
        Rule::OneOf(choices) => one_passes(choices, found),
    }
}

/// Whether the object passes the object pattern with these members.
#[cycle(judge)]
pub(crate) fn fields_pass(fields: &Vec<(String, Rule)>, found: Judged<'_, '_>) -> bool
    ensures { result ≡ fields_pass (fields_view fields.now.items) (judged_view found.entry) }
{
    for member in fields {
        if !rule_passes(&member.1, member.0.as_str(), found) {
            return false;
        }
    }
    true
}

#[cycle(judge)]
fn one_passes(choices: &Vec<Rule>, found: Judged<'_, '_>) -> bool
    ensures { result ≡ one_passes (choices_view choices.now.items) (judged_view found.entry) }
{
    for choice in choices {
        if choice_passes(choice, found) {
            return true;
        }
    }
    false
}

#[cycle(judge)]
fn choice_passes(choice: &Rule, found: Judged<'_, '_>) -> bool
    ensures { result ≡ fields_pass (fields_in (rule_view choice.now)) (judged_view found.entry) }
{
    match choice {
        Rule::Nested(fields) => fields_pass(fields, found),
        Rule::Tests(_) | Rule::OneOf(_) => true,
    }
}
