// A disk in memory, which fails at chosen calls and shows what a crash may leave of its bytes.
ghost use Rattle.std.specs.Prelude.{◌≡◌, ◌+◌, ◌≤◌, true, false, [], ◌∷◌, ◌++◌, length, take, drop, OnOk, OnErr, IfOk, IfErr, IsOk, IsErr};
ghost use Rattle.esm_io.specs.Faults.{IsCount, Rose};
ghost use Rattle.esm_io.specs.Images.{overwritten, Torn, Follows, Within, Only, Elapses};
ghost use Rattle.esm_io.specs.Schedule.{is_due, after_call, after_failure};
ghost use Rattle.esm_io.specs.Crashes.{crashed};
ghost use Rattle.esm_io.specs.Steps.{IsImage, IsImageSince, reads_as_image, counts_now, only_now};

use crate::crash::crashed;
use crate::disk::Disk;
use crate::disk_step::DiskStep;
use crate::failed::Failed;
use crate::schedule::Schedule;
use esm_model::{Bytes, OutOfMemory, Refused};
use std::alloc::{AllocError, Global};
use std::marker::Model;

/// A disk in memory. It shows to contracts what reads return and what a crash may leave, and counts its calls.
#[derive(Drop, Debug)]
pub struct MemDisk {
    alloc: Global,
    bytes: Vec<u8>,
    steps: Vec<DiskStep>,
    schedule: Schedule,
}

impl Model for MemDisk {
    ghost use Rattle.std.specs.Prelude.{reverse};
    ghost use Rattle.esm_io.specs.Steps.{DiskState, AreSteps};

    ghost Value = { DiskState };

    ghost view = { λ s. record { content = s.bytes.items; steps = reverse s.steps.items; schedule = s.schedule } };

    ghost invariant = { λ s. AreSteps s.bytes.items (reverse s.steps.items) };
}

impl MemDisk {
    /// Makes a disk with these bytes, all of them synced. `fails` are the numbers of the calls that are to fail, counted
    /// from 0.
    pub fn new(alloc: Global, bytes: Vec<u8>, fails: Vec<u64>) -> Self
        ensures content { result.content ≡ bytes.items }
        ensures steps { result.steps ≡ [] }
        ensures schedule { result.schedule ≡ record { fails = fails.items; calls = 0; faults = 0 } }
    {
        MemDisk {
            alloc,
            bytes,
            steps: Vec::new(alloc),
            schedule: Schedule::new(fails),
        }
    }

    /// The disk after a crash. With choice 0 no byte written since the last sync has arrived, and with choice 1 all have.
    /// With any other choice the byte at place `p` has arrived if bit `p mod 8` of the choice is set; the length is the new
    /// one, and bytes past the synced end that have not arrived are 0. No call of the new disk is to fail. After
    /// `OutOfMemory` the disk comes back unchanged.
    pub fn crash(self, alloc: Global, choice: u64) -> Result<MemDisk, Refused<OutOfMemory, MemDisk>>
        ensures left { IfOk result (λ disk. disk.content ≡ crashed choice self.content self.steps) }
        ensures image { IfOk result (λ disk. IsImage self.content self.steps disk.content) }
        ensures synced { IfOk result (λ disk. disk.steps ≡ []) }
        ensures fresh { IfOk result (λ disk. disk.schedule ≡ record { fails = []; calls = 0; faults = 0 }) }
        ensures back { IfErr result (λ refused. refused.back ≡ self) }
    {
        match crashed(alloc, choice, &self.bytes, &self.steps) {
            Ok(bytes) => Ok(MemDisk::new(alloc, bytes, Vec::new(alloc))),
            Err(_) => Err(Refused {
                why: OutOfMemory,
                back: self,
            }),
        }
    }

    /// The bytes that reads return.
    pub fn bytes(&self) -> &[u8]
        ensures { result.now ≡ self.now.content }
    {
        &self.bytes
    }

    /// The number of calls made so far.
    pub fn calls(&self) -> u64
        ensures { result ≡ self.now.schedule.calls }
    {
        self.schedule.calls()
    }
}

/// Writes over bytes and past their end, and returns the bytes that were in the range before; on an error nothing has
/// changed.
fn overwrite(
    alloc: Global,
    bytes: &mut Vec<u8>,
    at: usize,
    from: &[u8],
) -> Result<Vec<u8>, AllocError>
    requires { at ≤ length bytes.old.items }
    ensures written { OnOk result (bytes.new.items ≡ overwritten bytes.old.items at from.now) }
    ensures before { IfOk result (λ before. before.items ≡ take (length from.now) (drop at bytes.old.items)) }
    ensures err { OnErr result (bytes.new.items ≡ bytes.old.items) }
{
    let (_, rest) = bytes.as_slice().split_at(at);
    let overlap = from.len().min(rest.len());
    let (front, _) = rest.split_at(overlap);
    let before = Vec::from_slice(alloc, front)?;
    let (over, past) = from.split_at(overlap);
    bytes.extend_from_slice(past)?;
    bytes[at..at + overlap].copy_from_slice(over);
    Ok(before)
}

/// Writes over bytes and records the step; on an error nothing has changed.
fn record_write(
    alloc: Global,
    bytes: &mut Vec<u8>,
    steps: &mut Vec<DiskStep>,
    at: usize,
    from: &[u8],
) -> Result<(), AllocError>
    requires { at ≤ length bytes.old.items }
    ensures written { OnOk result (bytes.new.items ≡ overwritten bytes.old.items at from.now) }
    ensures recorded { OnOk result (steps.new.items ≡ steps.old.items
        ++ DiskStep.Wrote at (length from.now) (take (length from.now) (drop at bytes.old.items)) ∷ []) }
    ensures err { OnErr result (bytes.new.items ≡ bytes.old.items) }
    ensures unrecorded { OnErr result (steps.new.items ≡ steps.old.items) }
{
    steps.reserve(1)?;
    let before = overwrite(alloc, bytes, at, from)?;
    steps.push(DiskStep::Wrote {
        at,
        count: from.len(),
        before: Bytes::from_vec(before),
    })?;
    Ok(())
}

/// Records a sync; on an error nothing has changed.
fn record_sync(steps: &mut Vec<DiskStep>) -> Result<(), AllocError>
    ensures recorded { OnOk result (steps.new.items ≡ steps.old.items ++ DiskStep.Synced ∷ []) }
    ensures unrecorded { OnErr result (steps.new.items ≡ steps.old.items) }
{
    steps.push(DiskStep::Synced)?;
    Ok(())
}

impl Disk for MemDisk {
    ghost faults = { λ s. s.schedule.faults };

    ghost honest = { λ s. true };

    ghost content = { λ s. s.content };

    ghost image = { λ s. IsImage s.content s.steps };

    ghost moment = { λ s. length s.steps };

    ghost image_since = { λ s. IsImageSince s.content s.steps };

    ghost reads_as_image = { λ s h. reads_as_image s.content s.steps };

    ghost counts_now = { λ s t left h le now. counts_now s.content s.steps t left now };

    ghost only_now = { λ s left h since. only_now s.content s.steps left since };

    fn len(&mut self) -> Result<u64, Failed>
        ensures length { IfOk result (λ n. n ≡ length self.old.content) }
        ensures same { self.new.content ≡ self.old.content }
        ensures steps { self.new.steps ≡ self.old.steps }
        ensures images { Within (IsImage self.old.content self.old.steps) (IsImageSince self.new.content self.new.steps (length self.old.steps)) }
        ensures time { Elapses (length self.old.steps) (length self.new.steps) (IsImageSince self.old.content self.old.steps)
            (IsImageSince self.new.content self.new.steps) }
        ensures count { IsCount self.old.schedule.faults self.new.schedule.faults }
        ensures cause { OnErr result (Rose self.old.schedule.faults self.new.schedule.faults) }
        ensures due { is_due self.old.schedule ≡ true → IsErr result }
        ensures not_due { is_due self.old.schedule ≡ false → IsOk result }
        ensures counted { self.new.schedule ≡ after_call self.old.schedule }
    {
        if self.schedule.fails_now() {
            return Err(Failed);
        }
        Ok(self.bytes.len() as u64)
    }

    fn read(&mut self, at: u64, into: &mut [u8]) -> Result<(), Failed>
        requires { at + length into.old ≤ length self.old.content }
        // What a read returns.
        ensures bytes { OnOk result (into.new ≡ take (length into.old) (drop at self.old.content)) }
        ensures unfilled { OnErr result (into.new ≡ into.old) }
        ensures same { self.new.content ≡ self.old.content }
        ensures steps { self.new.steps ≡ self.old.steps }
        // What a crash may leave.
        ensures images { Within (IsImage self.old.content self.old.steps) (IsImageSince self.new.content self.new.steps (length self.old.steps)) }
        ensures time { Elapses (length self.old.steps) (length self.new.steps) (IsImageSince self.old.content self.old.steps)
            (IsImageSince self.new.content self.new.steps) }
        // Faults, and which calls fail.
        ensures count { IsCount self.old.schedule.faults self.new.schedule.faults }
        ensures cause { OnErr result (Rose self.old.schedule.faults self.new.schedule.faults) }
        ensures due { is_due self.old.schedule ≡ true → IsErr result }
        ensures not_due { is_due self.old.schedule ≡ false → IsOk result }
        ensures counted { self.new.schedule ≡ after_call self.old.schedule }
    {
        if self.schedule.fails_now() {
            return Err(Failed);
        }
        let (_, rest) = self.bytes.as_slice().split_at(at as usize);
        let (front, _) = rest.split_at(into.len());
        into.copy_from_slice(front);
        Ok(())
    }

    /// Also fails, and changes nothing, where memory runs out.
    fn write_at(&mut self, at: u64, from: &[u8]) -> Result<(), Failed>
        requires { at ≤ length self.old.content }
        // What reads return, and the record of the write.
        ensures written { OnOk result (self.new.content ≡ overwritten self.old.content at from.now) }
        ensures recorded { OnOk result (self.new.steps
            ≡ DiskStep.Wrote at (length from.now) (take (length from.now) (drop at self.old.content)) ∷ self.old.steps) }
        ensures torn { OnErr result (Torn at (length from.now) self.old.content self.new.content) }
        ensures unwritten { OnErr result (self.new.content ≡ self.old.content) }
        ensures unrecorded { OnErr result (self.new.steps ≡ self.old.steps) }
        // What a crash may leave.
        ensures images { Follows (Torn at (length from.now)) (IsImage self.old.content self.old.steps)
            (IsImageSince self.new.content self.new.steps (length self.old.steps)) }
        ensures time { Elapses (length self.old.steps) (length self.new.steps) (IsImageSince self.old.content self.old.steps)
            (IsImageSince self.new.content self.new.steps) }
        // Faults, and which calls fail.
        ensures count { IsCount self.old.schedule.faults self.new.schedule.faults }
        ensures cause { OnErr result (Rose self.old.schedule.faults self.new.schedule.faults) }
        ensures due { is_due self.old.schedule ≡ true → IsErr result }
        ensures counted { OnOk result (self.new.schedule ≡ after_call self.old.schedule) }
        ensures failed { OnErr result (self.new.schedule ≡ after_failure self.old.schedule) }
    {
        if self.schedule.fails_now() {
            return Err(Failed);
        }
        match record_write(
            self.alloc,
            &mut self.bytes,
            &mut self.steps,
            at as usize,
            from,
        ) {
            Ok(()) => Ok(()),
            Err(_) => {
                self.schedule.fault();
                Err(Failed)
            }
        }
    }

    /// Also fails where memory runs out.
    fn sync(&mut self) -> Result<(), Failed>
        // What a crash leaves, and the record of the sync.
        ensures durable { OnOk result (Only self.old.content (IsImage self.new.content self.new.steps)) }
        ensures recorded { OnOk result (self.new.steps ≡ DiskStep.Synced ∷ self.old.steps) }
        ensures same { self.new.content ≡ self.old.content }
        ensures unrecorded { OnErr result (self.new.steps ≡ self.old.steps) }
        // What a crash may leave meanwhile.
        ensures images { Within (IsImage self.old.content self.old.steps) (IsImageSince self.new.content self.new.steps (length self.old.steps)) }
        ensures time { Elapses (length self.old.steps) (length self.new.steps) (IsImageSince self.old.content self.old.steps)
            (IsImageSince self.new.content self.new.steps) }
        // Faults, and which calls fail.
        ensures count { IsCount self.old.schedule.faults self.new.schedule.faults }
        ensures cause { OnErr result (Rose self.old.schedule.faults self.new.schedule.faults) }
        ensures due { is_due self.old.schedule ≡ true → IsErr result }
        ensures counted { OnOk result (self.new.schedule ≡ after_call self.old.schedule) }
        ensures failed { OnErr result (self.new.schedule ≡ after_failure self.old.schedule) }
    {
        if self.schedule.fails_now() {
            return Err(Failed);
        }
        match record_sync(&mut self.steps) {
            Ok(()) => Ok(()),
            Err(_) => {
                self.schedule.fault();
                Err(Failed)
            }
        }
    }
}
