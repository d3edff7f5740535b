// Reading which records a line of a failure file names.
ghost use Rattle.std.specs.Prelude.{◌≡◌, codes, IfOk, Some, option_and_then, option_copied};
ghost use Rattle.serde_json.specs.View.{view};
ghost use Rattle.esm_replay_model.specs.ReplaySetting.{is_up_to};
ghost use Rattle.esm_record.specs.Line.{sequence_number};
ghost use Rattle.esm_replay_model.specs.FailureRange.{member_text, member_shard, range_between, range_in, failure_range};

use esm_model::{OutOfMemory, Seq, SeqError, parse_json};
use esm_record::shard_number;
use esm_replay_model::Range;
use serde_json::Value;
use std::alloc::Global;

fn shard_in(info: &Value) -> Option<u64>
    ensures { result ≡ member_shard (codes "shardId") (view info.now) }
{
    shard_number(info.get("shardId")?.as_str()?.as_bytes())
}

/// The sequence number that the text is, if it is one.
fn sequence_of(alloc: Global, text: Option<&str>) -> Result<Option<Seq>, OutOfMemory>
    ensures { IfOk result (λ seq. seq ≡ option_and_then sequence_number (option_copied text.entry)) }
{
    let Some(text) = text else {
        return Ok(None);
    };
    match Seq::read(alloc, text) {
        Ok(seq) => Ok(Some(seq)),
        Err(SeqError::BadSeq) => Ok(None),
        Err(SeqError::OutOfMemory) => Err(OutOfMemory),
    }
}

fn first_in(info: &Value) -> Option<&str>
    ensures { option_copied result ≡ member_text (codes "startSequenceNumber") (view info.now) }
{
    info.get("startSequenceNumber")?.as_str()
}

fn last_in(info: &Value) -> Option<&str>
    ensures { option_copied result ≡ member_text (codes "endSequenceNumber") (view info.now) }
{
    info.get("endSequenceNumber")?.as_str()
}

fn is_up_to(first: &Seq, last: &Seq) -> bool
    ensures { result ≡ is_up_to first.now last.now }
{
    first.order(last).is_le()
}

/// The range from the one number to the other; `None` if the first is greater.
fn range_between(shard: u64, first: Seq, last: Seq) -> Option<Range>
    ensures { result ≡ range_between (Some shard) (Some first) (Some last) }
{
    if is_up_to(&first, &last) {
        Some(Range { shard, first, last })
    } else {
        None
    }
}

/// The range that a line's `KinesisBatchInfo` names, if it is complete.
fn range_in(alloc: Global, info: &Value) -> Result<Option<Range>, OutOfMemory>
    ensures { IfOk result (λ range. range ≡ range_in (view info.now)) }
{
    let Some(shard) = shard_in(info) else {
        return Ok(None);
    };
    let Some(first) = sequence_of(alloc, first_in(info))? else {
        return Ok(None);
    };
    let Some(last) = sequence_of(alloc, last_in(info))? else {
        return Ok(None);
    };
    Ok(range_between(shard, first, last))
}

/// Reads which records a line of a failure file names. `None` if and only if the line is not a JSON object whose
/// `KinesisBatchInfo` has a shard id and two sequence numbers, the first not after the last (Lambda Developer Guide,
/// "Retaining discarded batch records").
pub fn read_failure(alloc: Global, line: &[u8]) -> Result<Option<Range>, OutOfMemory>
    ensures { IfOk result (λ range. range ≡ failure_range line.now) }
{
    let Some(value) = parse_json(alloc, line)? else {
        return Ok(None);
    };
    match value.get("KinesisBatchInfo") {
        Some(info) => range_in(alloc, info),
        None => Ok(None),
    }
}
