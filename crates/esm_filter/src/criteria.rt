// The filter criteria of a mapping, and which records and messages pass them.
ghost use Rattle.std.specs.Prelude.{◌≡◌, ◌==◌, ◌<◌, ◌^◌, length, option_map, IfOk, IfSome, Option};
ghost use Rattle.std.specs.List.{list_any};
ghost use Rattle.serde_json.specs.Data.{Data};
ghost use Rattle.serde_json.specs.Read.{read as read_text};
ghost use Rattle.esm_model.specs.Json.{read_json};
ghost use Rattle.esm_model.specs.Valid.{is_stream};
ghost use Rattle.esm_model.specs.Filter.{fields_pass, in_message, in_record, patterns_pass};
ghost use Rattle.esm_model.specs.Pattern.{read_pattern, read_patterns};
ghost use Rattle.esm_filter.specs.Criteria.{IsOneRead, IsRead, JudgesMessages, JudgesRecords, patterns_of, patterns_view};
ghost use Rattle.esm_filter.specs.Found.{found_view, value_of};
ghost use Rattle.esm_filter.specs.Judged.{judged_view};
ghost use Rattle.esm_filter.specs.Own.{decided_by_own};
ghost use Rattle.esm_filter.specs.View.{fields_view};

use crate::document::{read_bytes, read_document};
use crate::error::{FilterError, ReadError};
use crate::found::Found;
use crate::judge::{Judged, fields_pass};
use crate::own::one_pattern_may_pass;
use crate::pattern::Rule;
use crate::read::read_pattern;
use crate::work::Work;
use esm_model::{Kind, Message, OutOfMemory, Record, Text};
use std::alloc::Global;

/// The filter criteria of a mapping. A record or message passes if it passes one of the patterns, or if there are none.
/// (Lambda Developer Guide, event filtering; EventBridge event pattern syntax.)
#[derive(Drop)]
pub struct Criteria {
    patterns: Vec<Vec<(String, Rule)>>,
}

fn is_stream(kind: Kind) -> bool
    ensures { result ≡ is_stream kind }
{
    match kind {
        Kind::Stream => true,
        Kind::Standard | Kind::Fifo => false,
    }
}

/// Reads the pattern in the text, which has the index `filter`.
fn read_one(
    alloc: Global,
    for_stream: bool,
    filter: u32,
    text: &str,
) -> Result<Vec<(String, Rule)>, FilterError>
    ensures { IsOneRead filter result (read_pattern for_stream text.now) }
{
    match read_pattern(alloc, for_stream, text) {
        Ok(pattern) => Ok(pattern),
        Err(ReadError::Refused(why)) => Err(FilterError::BadPattern { filter, why }),
        Err(ReadError::OutOfMemory) => Err(FilterError::OutOfMemory),
    }
}

fn read_all(alloc: Global, for_stream: bool, texts: &[Text]) -> Result<Criteria, FilterError>
    requires { length texts.now < 2 ^ 32 }
    ensures { IsRead result (read_patterns for_stream texts.now) }
{
    let mut patterns = Vec::new(alloc);
    let mut filter: u32 = 0;
    for text in texts {
        let pattern = read_one(alloc, for_stream, filter, text.as_str())?;
        patterns.push(pattern)?;
        filter += 1;
    }
    Ok(Criteria { patterns })
}

fn lent<'v, 'd>(json: &'v Option<Found<'d>>) -> Option<&'v Found<'d>>
    ensures { value_of result ≡ option_map found_view json.now }
{
    match json {
        Some(value) => Some(value),
        None => None,
    }
}

fn one_passes(patterns: &[Vec<(String, Rule)>], found: Judged<'_, '_>) -> bool
    ensures { result ≡ list_any (λ p. fields_pass (fields_view p.items) (judged_view found.entry)) patterns.now }
{
    patterns.iter().any(|p| fields_pass(p, found))
}

fn patterns_pass(patterns: &[Vec<(String, Rule)>], found: Judged<'_, '_>) -> bool
    ensures { result ≡ patterns_pass (patterns_view patterns.now) (judged_view found.entry) }
{
    let none = patterns.is_empty();
    if none {
        return true;
    }
    one_passes(patterns, found)
}

fn record_passes<'a, 'd>(
    patterns: &[Vec<(String, Rule)>],
    item: &'a Record,
    json: &'a Option<Found<'d>>,
) -> bool
    ensures { result ≡ patterns_pass (patterns_view patterns.now) (in_record item.now (option_map found_view json.now)) }
{
    let data = lent(json);
    let found = Judged::OfRecord(item, data);
    patterns_pass(patterns, found)
}

fn message_passes<'a, 'd>(
    patterns: &[Vec<(String, Rule)>],
    item: &'a Message,
    json: &'a Option<Found<'d>>,
) -> bool
    ensures { result ≡ patterns_pass (patterns_view patterns.now) (in_message item.now (option_map found_view json.now)) }
{
    let body = lent(json);
    let found = Judged::OfMessage(item, body);
    patterns_pass(patterns, found)
}

/// Whether the record passes, if its own fields decide that; `None` if a pattern may still pass by its data.
fn passes_without_data(patterns: &[Vec<(String, Rule)>], item: &Record) -> Option<bool>
    ensures right { IfSome result (λ b. (json : Option Data) → b ≡ patterns_pass (patterns_view patterns.now) (in_record item.now json)) }
    ensures decided { result ≡ decided_by_own (patterns_view patterns.now) item.now }
{
    let found = Judged::OfRecord(item, None);
    let passes = patterns_pass(patterns, found);
    if passes {
        return Some(true);
    }
    let may_pass = one_pattern_may_pass(patterns, found);
    if may_pass { None } else { Some(false) }
}

impl Criteria {
    /// Reads the criteria from the texts of patterns, for what a mapping of this kind reads. `BadPattern` names the first
    /// text that is no pattern, and the first reason why it is none.
    pub fn read(alloc: Global, kind: Kind, texts: &[Text]) -> Result<Criteria, FilterError>
        requires { length texts.now < 2 ^ 32 }
        ensures patterns { IsRead result (read_patterns (is_stream kind) texts.now) }
        ensures records { IfOk result (λ c. JudgesRecords kind texts.now c) }
        ensures messages { IfOk result (λ c. JudgesMessages kind texts.now c) }
    {
        read_all(alloc, is_stream(kind), texts)
    }

    fn has_no_patterns(&self) -> bool
        ensures { result ≡ (length self.now.patterns.items == 0) }
    {
        self.patterns.as_slice().is_empty()
    }

    /// Whether a stream's record passes. Its data is decoded and read at most once, and not at all if there are no patterns
    /// or its own fields decide. `work` is the memory for reading it.
    pub fn passes_record(
        &self,
        alloc: Global,
        work: &mut Work,
        item: &Record,
    ) -> Result<bool, OutOfMemory>
        ensures { IfOk result (λ b. b ≡ patterns_pass (patterns_of self.now) (in_record item.now (read_json item.now.payload))) }
    {
        let patterns = self.patterns.as_slice();
        if let Some(passes) = passes_without_data(patterns, item) {
            return Ok(passes);
        }
        let decoded = item.decoded(alloc)?;
        let json = read_bytes(alloc, patterns, work, decoded.as_slice())?;
        Ok(record_passes(patterns, item, &json))
    }

    /// Whether a queue's message passes. Its body is read at most once, and not at all if there are no patterns. `work` is
    /// the memory for reading it.
    pub fn passes_message(
        &self,
        alloc: Global,
        work: &mut Work,
        item: &Message,
    ) -> Result<bool, OutOfMemory>
        ensures { IfOk result (λ b. b ≡ patterns_pass (patterns_of self.now) (in_message item.now (read_text item.now.body))) }
    {
        let none = self.has_no_patterns();
        if none {
            return Ok(true);
        }
        let patterns = self.patterns.as_slice();
        let json = read_document(alloc, patterns, work, item.body.as_str())?;
        Ok(message_passes(patterns, item, &json))
    }
}
