//! Reads the entries that are owed, and the fates of a shard.
ghost use Rattle.std.specs.Prelude.{◌≡◌, ◌<◌, ◌≤◌, ◌++◌, Some, slice_get, [], All, IfOk, IfSome, IfNone, OnOk, length, reverse, option_copied};
ghost use Rattle.std.specs.List.{cons_option};
ghost use Rattle.esm_model.specs.declared.limits.TheConstants.{MAX_PAYLOAD};
ghost use Rattle.esm_model.specs.Books.{entry_line};
ghost use Rattle.esm_ledger.specs.declared.shard.ShardLedger.{ShardLedger};
ghost use Rattle.esm_ledger.specs.Ledger.{IsAt};
ghost use Rattle.esm_book.specs.Decided.{lengths_of, IsLineWithin};
ghost use Rattle.esm_stream_core.specs.CoreView.{lines_of};
ghost use Rattle.esm_stream_core.specs.Acts.{act_entry, entries_of, payloads_in, HasShortPayload};

use crate::owed::{Act, Owed};
use esm_ledger::{Ledger, ShardLedger};
use esm_model::{Bytes, OutOfMemory, Text};
use std::alloc::Global;

/// Appends the length of the payload, if there is one.
fn push_length(lengths: &mut Vec<u32>, payload: &Option<Bytes>) -> Result<(), OutOfMemory>
    requires { IfSome payload.now (λ bytes. length bytes ≤ MAX_PAYLOAD) }
    ensures { OnOk result (lengths.new.items ≡ lengths.old.items ++ lengths_of (cons_option payload.now [])) }
{
    if let Some(bytes) = payload {
        lengths.push(bytes.as_slice().len() as u32)?;
    }
    Ok(())
}

/// The lengths of the payloads in bytes, from the last entry to the first.
pub(crate) fn lengths_in(alloc: Global, owed: &[Owed]) -> Result<Vec<u32>, OutOfMemory>
    requires { All HasShortPayload owed.now }
    ensures { IfOk result (λ lengths. lengths.items ≡ lengths_of (payloads_in (reverse owed.now))) }
{
    let mut lengths = Vec::new(alloc);
    let mut index = owed.len();
    while index > 0 {
        index -= 1;
        push_length(&mut lengths, &owed[index].payload)?;
    }
    Ok(lengths)
}

/// The bytes of the text, if there is one.
fn bytes_in(line: &Option<Text>) -> Option<&[u8]>
    ensures { option_copied result ≡ line.entry.now }
{
    match line {
        None => None,
        Some(text) => Some(text.as_slice()),
    }
}

/// The line of the entry, if it has one.
pub(crate) fn line_in(act: &Act) -> Option<&[u8]>
    ensures { option_copied result ≡ entry_line (act_entry act.entry.now) }
{
    match act {
        Act::Gave {
            by: _,
            shard: _,
            places: _,
            fate: _,
            line,
            state: _,
            copy: _,
            moment: _,
        } => bytes_in(line),
        Act::Expired {
            lane: _,
            places: _,
            line,
            moment: _,
        } => bytes_in(line),
        _ => None,
    }
}

/// The length of the line in bytes, if one of the entries has one; at most one has. The first entry is last.
pub(crate) fn line_bound(owed: &[Owed]) -> Option<u64>
    requires { length (lines_of (entries_of (reverse owed.now))) ≤ 1 }
    ensures within { IfSome result (IsLineWithin (lines_of (entries_of (reverse owed.now)))) }
    ensures none { IfNone result (lines_of (entries_of (reverse owed.now)) ≡ []) }
{
    for entry in owed {
        if let Some(line) = line_in(&entry.act) {
            return Some(line.len() as u64);
        }
    }
    None
}

/// The index of the shard among those that came, if it came.
fn place_of(ledger: &Ledger, shard: u64) -> Option<usize>
    ensures at { IfSome result (λ i. (i < length ledger.now.shards.items)
        × ((x : ShardLedger) → slice_get ledger.now.shards.items i ≡ Some x → x.shard ≡ shard)) }
    ensures none { IfNone result ((x : ShardLedger) → IsAt ledger.now shard x → ⊥) }
{
    ledger
        .shards
        .as_slice()
        .iter()
        .position(|kept| kept.shard == shard)
}

/// What is kept of the shard, if it came.
pub(crate) fn kept_in(ledger: &Ledger, shard: u64) -> Option<&ShardLedger>
    ensures at { IfSome result (λ x. IsAt ledger.entry.now shard x.now) }
    ensures none { IfNone result ((x : ShardLedger) → IsAt ledger.entry.now shard x → ⊥) }
{
    match place_of(ledger, shard) {
        None => None,
        Some(at) => Some(&ledger.shards[at]),
    }
}
