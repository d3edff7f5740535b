// Ranges of sequence numbers, which find a record in logarithmic time.
ghost use Rattle.std.specs.Prelude.{◌≡◌, ◌≤◌, ◌==◌, ◌&&◌, not, List, None, IfOk, length, true, false, option_copied};
ghost use Rattle.std.specs.List.Sorted.{IsPermutation, IsSortedBy, IsPartitionPoint};
ghost use Rattle.esm_replay_model.specs.declared.range.Range.{Range};
ghost use Rattle.esm_replay_model.specs.ReplaySetting.{is_up_to, is_in_range, is_in_ranges};
ghost use Rattle.esm_replay.specs.Ranges.{start_of, start_cmp, starts_before, starts_by, reaching, all_reaching, last_range, AllLead};

use esm_model::{OutOfMemory, number_order};
use esm_replay_model::Range;
use std::alloc::Global;
use std::cmp::Ordering;
use std::marker::Model;
use std::snapshot::Snapshot;

/// Ranges of sequence numbers; contracts see the list that they were made from. They are ordered by their starts, and
/// each extends as far as those before it in its shard. So the last one that starts at a record or before it decides
/// whether any range holds the record.
#[derive(Drop)]
pub struct Ranges {
    ranges: Vec<Range>,
    /// The list that they were made from, for the contracts alone.
    given: Snapshot<Vec<Range>>,
}

impl Model for Ranges {
    ghost use Rattle.std.specs.Prelude.{List};
    ghost use Rattle.esm_replay_model.specs.declared.range.Range.{Range};
    ghost use Rattle.esm_replay.specs.Ranges.{AllLead, HoldAlike};

    ghost Value = { List Range };

    ghost view = { λ r. r.given.value.items };

    ghost invariant = { λ r. AllLead r.ranges.items × HoldAlike r.ranges.items r.given.value.items };
}

fn order(a: &Range, shard: u64, number: &[u8]) -> Ordering
    ensures { result ≡ start_cmp (start_of a.now) (shard, number.now) }
{
    a.shard
        .cmp(&shard)
        .then(number_order(a.first.digits(), number))
}

fn sort(ranges: &mut Vec<Range>)
    ensures permutation { IsPermutation ranges.old.items ranges.new.items }
    ensures sorted { IsSortedBy starts_before ranges.new.items }
{
    ranges.sort_unstable_by(|a, b| order(a, b.shard, b.first.digits()));
}

/// Whether the range ends before the one ahead of it in the same shard does.
fn falls_short(before: &Range, range: &Range) -> bool
    ensures { result ≡ ((before.now.shard == range.now.shard) && not (is_up_to before.now.last range.now.last)) }
{
    before.shard == range.shard && !before.last.order(&range.last).is_le()
}

/// The range, extended as far as the one before it in its shard.
fn reaching(alloc: Global, before: Option<&Range>, range: Range) -> Result<Range, OutOfMemory>
    ensures { IfOk result (λ r. r ≡ reaching (option_copied before.entry) range) }
{
    match before {
        None => Ok(range),
        Some(before) => {
            if falls_short(before, &range) {
                Ok(Range {
                    shard: range.shard,
                    first: range.first,
                    last: before.last.copy(alloc)?,
                })
            } else {
                Ok(range)
            }
        }
    }
}

fn last_of(ranges: &[Range]) -> Option<&Range>
    ensures { option_copied result ≡ last_range ranges.now }
{
    ranges.last()
}

/// The ranges, each extended as far as the one before it in its shard.
fn all_reaching(alloc: Global, ranges: Vec<Range>) -> Result<Vec<Range>, OutOfMemory>
    ensures { IfOk result (λ v. v.items ≡ all_reaching None ranges.items) }
{
    let mut all = Vec::new(alloc);
    for range in ranges {
        let next = reaching(alloc, last_of(all.as_slice()), range)?;
        all.push(next)?;
    }
    Ok(all)
}

/// The number of ranges that start at this number of the shard or before it, by binary search.
fn started_by(ranges: &[Range], shard: u64, number: &[u8]) -> usize
    requires lead { AllLead ranges.now }
    ensures bound { result ≤ length ranges.now }
    ensures point { IsPartitionPoint (λ (r : Range). starts_by (shard, number.now) r ≡ true)
        (λ (r : Range). starts_by (shard, number.now) r ≡ false) ranges.now result }
{
    ranges.partition_point(|range| !order(range, shard, number).is_gt())
}

/// Whether the range holds this number of the shard.
fn holds(range: &Range, shard: u64, number: &[u8]) -> bool
    ensures { result ≡ is_in_range shard number.now range.now }
{
    range.shard == shard
        && (number_order(range.first.digits(), number).is_le()
            && number_order(number, range.last.digits()).is_le())
}

/// Whether there is a range at this index, and it holds the number of the shard.
fn holds_at(ranges: &[Range], place: usize, shard: u64, number: &[u8]) -> bool
    ensures { result ≡ true → is_in_ranges ranges.now shard number.now ≡ true }
{
    match ranges.get(place) {
        None => false,
        Some(range) => holds(range, shard, number),
    }
}

/// Whether the range is of the shard and does not end before the number.
fn reaches(range: &Range, shard: u64, number: &[u8]) -> bool
    ensures { result ≡ ((range.now.shard == shard) && is_up_to number.now range.now.last) }
{
    range.shard == shard && number_order(number, range.last.digits()).is_le()
}

impl Ranges {
    /// Makes an index of the ranges, in the time of sorting them.
    pub fn new(alloc: Global, ranges: Vec<Range>) -> Result<Ranges, OutOfMemory>
        ensures { IfOk result (λ index. index ≡ ranges.items) }
    {
        let given = Snapshot::of(&ranges);
        let mut sorted = ranges;
        sort(&mut sorted);
        let reaching = all_reaching(alloc, sorted)?;
        Ok(Ranges {
            ranges: reaching,
            given,
        })
    }

    /// Whether a range holds this sequence number of the shard, in time logarithmic in the ranges. Takes no memory.
    pub fn hold(&self, shard: u64, number: &[u8]) -> bool
        ensures { result ≡ is_in_ranges self.now shard number.now }
    {
        let mut near = 0;
        self.hold_near(&mut near, shard, number)
    }

    /// The same, for asking about many records in turn: the range at index `near` is tried first. If it does not hold the
    /// number, `near` is set to the range at which the search ended, if there is one. Any `near` is allowed. Takes no
    /// memory.
    pub fn hold_near(&self, near: &mut usize, shard: u64, number: &[u8]) -> bool
        ensures { result ≡ is_in_ranges self.now shard number.now }
    {
        if holds_at(self.ranges.as_slice(), *near, shard, number) {
            return true;
        }
        let count = started_by(self.ranges.as_slice(), shard, number);
        if count == 0 {
            return false;
        }
        *near = count - 1;
        reaches(&self.ranges[count - 1], shard, number)
    }
}
