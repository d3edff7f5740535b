// What a head decides alone, before its body is read.
ghost use Rattle.std.specs.Prelude.{◌≡◌, length, map, All, IfOk, Some, bytes_eq, IsUtf8};
ghost use Rattle.httparse.specs.Spans.{IsHeaderWithin, header_bytes};
ghost use Rattle.uuid.specs.Text.{parsed_hyphenated};
ghost use Rattle.esm_api.specs.Plan.{plan_with, plan_by, plan_for_mappings, plan_for_mapping, reading, getting, deleting, id_in, has_query};
ghost use Rattle.esm_api.specs.Plan.{body_bytes, route_of};

use crate::host::is_foreign;
use crate::length::{BodyLength, body_length};
use crate::refusal::Refusal;
use crate::route::{Route, route_of};
use esm_model::OutOfMemory;
use http::Method;
use httparse::spans::HeaderSpan;
use std::alloc::Global;
use std::str::from_utf8;
use uuid::Uuid;

/// The length in bytes of the mappings' path with a slash behind it.
const LAST_PART: usize = "/2015-03-31/event-source-mappings/".len();

/// A command that takes a body.
#[derive(Clone, Copy)]
pub enum Change {
    /// `CreateEventSourceMapping`.
    Create,
    /// `UpdateEventSourceMapping` of the mapping with this UUID; `None` where the path does not end in one.
    Update(Option<Uuid>),
}

/// What a head decides alone.
#[derive(Clone, Copy)]
pub enum Plan {
    Refuse(Refusal),
    /// `ListEventSourceMappings`.
    List,
    /// `GetEventSourceMapping`.
    Get(Uuid),
    /// `DeleteEventSourceMapping`.
    Delete(Uuid),
    /// A body of this many bytes is read for the change.
    Read(Change, usize),
}

impl Plan {
    /// How many bytes of a body are expected.
    pub fn body_bytes(&self) -> usize
        ensures { result ≡ body_bytes self.now }
    {
        match self {
            Plan::Read(_, count) => *count,
            _ => 0,
        }
    }
}

/// The plan of a head with these fields, this target and this method.
pub fn plan_with(
    alloc: Global,
    bytes: &[u8],
    fields: &[HeaderSpan],
    target: &[u8],
    method: &[u8],
) -> Result<Plan, OutOfMemory>
    requires fields { All (IsHeaderWithin (length bytes.now)) fields.now }
    requires target { IsUtf8 target.now }
    ensures { IfOk result (λ plan. plan ≡ plan_with (map (header_bytes bytes.now) fields.now) target.now method.now) }
{
    if is_foreign(bytes, fields) {
        return Ok(Plan::Refuse(Refusal::Host));
    }
    plan_by(alloc, target, method, body_length(bytes, fields))
}

/// The plan of a head with this target, method and body length, once the request is not foreign.
fn plan_by(
    alloc: Global,
    target: &[u8],
    method: &[u8],
    length: BodyLength,
) -> Result<Plan, OutOfMemory>
    requires { IsUtf8 target.now }
    ensures { IfOk result (λ plan. plan ≡ plan_by target.now method.now length) }
{
    if has_query(target) {
        return Ok(Plan::Refuse(Refusal::Query));
    }
    let path = match from_utf8(target) {
        Ok(path) => path,
        Err(_) => unreachable!(),
    };
    match route_of(alloc, path)? {
        None => Ok(Plan::Refuse(Refusal::Path)),
        Some(Route::Mappings) => Ok(plan_for_mappings(method, length)),
        Some(Route::Mapping) => Ok(plan_for_mapping(method, id_in(target), length)),
    }
}

/// Whether the target has a `?`.
fn has_query(target: &[u8]) -> bool
    ensures { result ≡ has_query target.now }
{
    target.iter().any(|b| *b == b'?')
}

/// The UUID in hyphenated form, in either case of letters, at the end of the path.
fn id_in(path: &[u8]) -> Option<Uuid>
    ensures { result ≡ id_in path.now }
{
    let (_, part) = path.split_at(LAST_PART.min(path.len()));
    hyphenated(part)
}

/// The UUID that the whole text is, in hyphenated form (RFC 9562, section 4); `None` where it is not one.
fn hyphenated(text: &[u8]) -> Option<Uuid>
    ensures { result ≡ parsed_hyphenated text.now }
{
    if text.len() != 36 {
        return None;
    }
    match Uuid::try_parse_ascii(text) {
        Ok(id) => Some(id),
        Err(_) => None,
    }
}

/// The plan by the method, for the path of all mappings.
fn plan_for_mappings(method: &[u8], length: BodyLength) -> Plan
    ensures { result ≡ plan_for_mappings method.now length }
{
    if is_method(method, &Method::POST) {
        return reading(Change::Create, length);
    }
    if is_method(method, &Method::GET) {
        return Plan::List;
    }
    Plan::Refuse(Refusal::Method)
}

/// The plan by the method, for the path of one mapping.
fn plan_for_mapping(method: &[u8], id: Option<Uuid>, length: BodyLength) -> Plan
    ensures { result ≡ plan_for_mapping method.now id length }
{
    if is_method(method, &Method::GET) {
        return getting(id);
    }
    if is_method(method, &Method::PUT) {
        return reading(Change::Update(id), length);
    }
    if is_method(method, &Method::DELETE) {
        return deleting(id);
    }
    Plan::Refuse(Refusal::Method)
}

/// Whether the name is that of the method; its case counts (RFC 9110, section 9.1).
fn is_method(name: &[u8], method: &Method) -> bool
    ensures { result ≡ bytes_eq name.now method.now }
{
    name == method.as_str().as_bytes()
}

/// A body of this length is read for the change, or the length is refused.
fn reading(change: Change, length: BodyLength) -> Plan
    ensures { result ≡ reading change length }
{
    match length {
        BodyLength::Missing => Plan::Refuse(Refusal::Length),
        BodyLength::TooLong => Plan::Refuse(Refusal::Body),
        BodyLength::Bytes(count) => Plan::Read(change, count),
    }
}

/// The mapping with this UUID is returned; a path without one is refused.
fn getting(id: Option<Uuid>) -> Plan
    ensures { result ≡ getting id }
{
    match id {
        None => Plan::Refuse(Refusal::Mapping),
        Some(id) => Plan::Get(id),
    }
}

/// The mapping with this UUID is deleted; a path without one is refused.
fn deleting(id: Option<Uuid>) -> Plan
    ensures { result ≡ deleting id }
{
    match id {
        None => Plan::Refuse(Refusal::Mapping),
        Some(id) => Plan::Delete(id),
    }
}
