// The moments at which places of a queue show, counted in order, for finding the next one after a moment.
ghost use Rattle.std.specs.Prelude.{◌≡◌, ℕ, ◌+◌, ◌-◌, ◌<◌, ◌≤◌, ◌==◌, ◌&&◌, length, slice_index, slice_set, ◌++◌, ◌∷◌, [], if◌then◌else◌};
ghost use Rattle.std.specs.Prelude.{filter, Some, None, IfSome, IfNone, IsSome, OnOk, OnErr, IsOk, IsTrue, ◌↔◌, true, false};
ghost use Rattle.std.specs.Vec.{vec_len, vec_capacity};
ghost use Rattle.std.specs.Ordering.{nat_cmp};
ghost use Rattle.std.specs.BTreeMap.{get};
ghost use Rattle.esm_queue.specs.declared.moment_tree.TheConstants.{NEVER};
ghost use Rattle.esm_queue_model.specs.Queue.{least};
ghost use Rattle.esm_queue.specs.Moments.{is_set, is_after};
ghost use Rattle.esm_queue.specs.Counted.{times, IsNextKey, KeepsKeys, KeepsOtherKeys, AddsNoZero, LeavesNoZero};

use crate::moment_tree::NEVER;
use esm_model::OutOfMemory;
use std::alloc::Global;
use std::collections::BTreeMap;
use std::marker::Model;

/// Moments by place, and how many places have each, in order of moments. A place has 0 before its first moment, and `NEVER`
/// once it has none for good.
#[derive(Drop, Debug)]
pub struct Timeline {
    moments: Vec<u64>,
    /// How many places have each moment that one has; the ready moment is in it too.
    counts: BTreeMap<u64, u32>,
    /// The moment that a place may be set to without memory.
    ready: u64,
}

impl Model for Timeline {
    ghost use Rattle.std.specs.Prelude.{◌-◌};
    ghost use Rattle.std.specs.Vec.{vec_len, vec_capacity};
    ghost use Rattle.esm_queue.specs.Moments.{Timed};
    ghost use Rattle.esm_queue.specs.Timeline.{IsTimeline};

    ghost Value = { Timed };

    ghost view = { λ t. record { moments = t.moments.items; spare = vec_capacity t.moments - vec_len t.moments; ready = t.ready } };

    ghost invariant = { λ t. IsTimeline t };
}

fn is_set(moment: u64) -> bool
    ensures { result ≡ is_set moment }
{
    moment != 0 && moment < NEVER
}

fn moment_at(moments: &Vec<u64>, place: u32) -> u64
    requires { place < length moments.now.items }
    ensures { result ≡ slice_index moments.now.items place }
{
    moments[place as usize]
}

fn set_moment(moments: &mut Vec<u64>, place: u32, moment: u64)
    requires { place < length moments.old.items }
    ensures items { moments.new.items ≡ slice_set moments.old.items place moment }
    ensures len { vec_len moments.new ≡ vec_len moments.old }
    ensures capacity { vec_capacity moments.new ≡ vec_capacity moments.old }
{
    moments[place as usize] = moment;
}

/// Counts one more place with the moment.
fn add_one(counts: &mut BTreeMap<u64, u32>, moment: u64) -> Result<(), OutOfMemory>
    requires few { times counts.old moment < u32.MAX }
    ensures ok { OnOk result ((v : ℕ) → times counts.new v ≡ (if is_set moment && (v == moment) then times counts.old v + 1 else times counts.old v)) }
    ensures err { OnErr result ((v : ℕ) → times counts.new v ≡ times counts.old v) }
    ensures zero { AddsNoZero counts.old counts.new }
    ensures keys { KeepsKeys counts.old counts.new }
    ensures succeeds { IsSome (get nat_cmp counts.old moment) → IsOk result }
    ensures blank { is_set moment ≡ false → IsOk result }
{
    if !is_set(moment) {
        return Ok(());
    }
    let n = counts.get(&moment).copied().unwrap_or(0);
    counts.insert(moment, n + 1)?;
    Ok(())
}

/// Counts one place less with the moment.
fn remove_one(counts: &mut BTreeMap<u64, u32>, moment: u64)
    ensures times { (v : ℕ) → times counts.new v ≡ (if is_set moment && (v == moment) then times counts.old v - 1 else times counts.old v) }
    ensures zero { AddsNoZero counts.old counts.new }
    ensures gone { is_set moment ≡ true → LeavesNoZero counts.new moment }
    ensures keys { KeepsOtherKeys moment counts.old counts.new }
{
    if !is_set(moment) {
        return;
    }
    let n = counts.get(&moment).copied().unwrap_or(0);
    if n <= 1 {
        let _ = counts.remove(&moment);
        return;
    }
    if let Some(count) = counts.get_mut(&moment) {
        *count = n - 1;
    }
}

/// Makes sure that the moment is in the map, even if no place has it.
fn keep_key(counts: &mut BTreeMap<u64, u32>, moment: u64) -> Result<(), OutOfMemory>
    ensures times { (v : ℕ) → times counts.new v ≡ times counts.old v }
    ensures zero { (v : ℕ) → (v ≡ moment → ⊥) → get nat_cmp counts.new v ≡ Some 0 → get nat_cmp counts.old v ≡ Some 0 }
    ensures keys { KeepsKeys counts.old counts.new }
    ensures ok { OnOk result (is_set moment ≡ true → IsSome (get nat_cmp counts.new moment)) }
    ensures err { OnErr result (AddsNoZero counts.old counts.new) }
{
    if is_set(moment) && !counts.contains_key(&moment) {
        counts.insert(moment, 0)?;
    }
    Ok(())
}

/// Whether the moment is in the map and no place has it.
fn is_blank(counts: &BTreeMap<u64, u32>, moment: u64) -> bool
    ensures { IsTrue result ↔ (get nat_cmp counts.now moment ≡ Some 0) }
{
    match counts.get(&moment) {
        None => false,
        Some(n) => *n == 0,
    }
}

/// Removes the moment from the map, if no place has it.
fn drop_blank(counts: &mut BTreeMap<u64, u32>, moment: u64)
    ensures times { (v : ℕ) → times counts.new v ≡ times counts.old v }
    ensures zero { AddsNoZero counts.old counts.new }
    ensures gone { LeavesNoZero counts.new moment }
    ensures keys { KeepsOtherKeys moment counts.old counts.new }
{
    if is_blank(counts, moment) {
        let _ = counts.remove(&moment);
    }
}

/// The first moment after `at` that is in the map.
fn key_after(counts: &BTreeMap<u64, u32>, at: u64) -> Option<u64>
    requires { at < NEVER }
    ensures none { IfNone result ((q : ℕ) → at < q → get nat_cmp counts.now q ≡ None) }
    ensures some { IfSome result (IsNextKey counts.now at) }
{
    match counts.range(at + 1..).next() {
        None => None,
        Some((moment, _)) => Some(*moment),
    }
}

/// The moment that is ready after a place lost the moment `old`: 0, which stands for none, if that was the ready one.
fn still_ready(ready: u64, old: u64) -> u64
    ensures { result ≡ (if ready == old then 0 else ready) }
{
    if ready == old { 0 } else { ready }
}

impl Timeline {
    /// A timeline without places.
    pub fn new(alloc: Global) -> Timeline
        ensures { result.moments ≡ [] }
    {
        Timeline {
            moments: Vec::new(alloc),
            counts: BTreeMap::new(alloc),
            ready: 0,
        }
    }

    /// Reserves room for `n` more places.
    pub fn reserve(&mut self, n: u32) -> Result<(), OutOfMemory>
        ensures moments { self.new.moments ≡ self.old.moments }
        ensures ok { OnOk result (n ≤ self.new.spare) }
        ensures kept { self.old.spare ≤ self.new.spare }
        ensures ready { self.new.ready ≡ self.old.ready }
        ensures succeeds { n ≤ self.old.spare → IsOk result }
    {
        self.moments.reserve(n as usize)?;
        Ok(())
    }

    /// Makes the moment ready: a place may be set to it without memory.
    pub fn prepare(&mut self, moment: u64) -> Result<(), OutOfMemory>
        requires { moment < NEVER }
        ensures ok { OnOk result (self.new.ready ≡ moment) }
        ensures moments { self.new.moments ≡ self.old.moments }
        ensures spare { self.new.spare ≡ self.old.spare }
    {
        if self.ready == moment {
            return Ok(());
        }
        keep_key(&mut self.counts, moment)?;
        drop_blank(&mut self.counts, self.ready);
        self.ready = moment;
        Ok(())
    }

    /// Appends a place, with the moment 0 or `NEVER`.
    pub fn push(&mut self, moment: u64)
        requires room { 0 < self.old.spare }
        requires few { length self.old.moments < u32.MAX }
        requires blank { is_set moment ≡ false }
        ensures moments { self.new.moments ≡ self.old.moments ++ moment ∷ [] }
        ensures spare { self.new.spare + 1 ≡ self.old.spare }
    {
        self.moments.push_reserved(moment);
    }

    /// Sets the moment at the place. Takes no memory if the moment is 0 or `NEVER`, or is ready; a ready one then stays so.
    pub fn set(&mut self, place: u32, moment: u64) -> Result<(), OutOfMemory>
        requires { place < length self.old.moments }
        ensures ok { OnOk result (self.new.moments ≡ slice_set self.old.moments place moment) }
        ensures err { OnErr result (self.new.moments ≡ self.old.moments) }
        ensures spare { self.new.spare ≡ self.old.spare }
        ensures succeeds { moment ≡ self.old.ready → IsOk result }
        ensures ready { moment ≡ self.old.ready → self.new.ready ≡ self.old.ready }
    {
        let old = moment_at(&self.moments, place);
        if old == moment {
            return Ok(());
        }
        add_one(&mut self.counts, moment)?;
        remove_one(&mut self.counts, old);
        self.ready = still_ready(self.ready, old);
        set_moment(&mut self.moments, place, moment);
        Ok(())
    }

    /// Sets the place to `NEVER`.
    pub fn clear(&mut self, place: u32)
        requires { place < length self.old.moments }
        ensures moments { self.new.moments ≡ slice_set self.old.moments place NEVER }
        ensures spare { self.new.spare ≡ self.old.spare }
    {
        let old = moment_at(&self.moments, place);
        remove_one(&mut self.counts, old);
        self.ready = still_ready(self.ready, old);
        set_moment(&mut self.moments, place, NEVER);
    }

    /// The least moment after `at`.
    pub fn next_after(&self, at: u64) -> Option<u64>
        requires early { at < NEVER }
        ensures { result ≡ least (filter (is_after at) self.now.moments) }
    {
        match key_after(&self.counts, at) {
            None => None,
            Some(moment) => {
                if is_blank(&self.counts, moment) {
                    return key_after(&self.counts, moment);
                }
                Some(moment)
            }
        }
    }
}
