// A disk without a file: it counts what is written, and keeps only the first bytes.
ghost use Rattle.std.specs.Prelude.{◌≡◌, ◌+◌, ◌≤◌, ◌^◌, [], take, drop, length, replicate, max, min, false, IfOk, IsOk, OnOk, OnErr};
ghost use Rattle.esm_io.specs.Faults.{IsCount, Rose};
ghost use Rattle.esm_io.specs.Images.{overwritten};
ghost use Rattle.esm_io.specs.Schedule.{one_more};

use esm_io::{Disk, Failed};
use std::marker::Model;

/// How many bytes are kept: as many as the file of a journal without entries has, so that such a file can be opened.
const KEPT: usize = 18;

/// A disk for a run without a folder, whose journal is never read again. It takes any number of bytes, and keeps the first
/// `KEPT` of them and the length, so its memory does not grow. Nothing of it outlasts this value, and contracts say nothing
/// of what it holds as a whole.
///
/// A read within the kept bytes returns what was written there, or 0 where nothing was. Any other read is a fault, and so is
/// a write that ends past 2^64 - 1 bytes.
#[derive(Drop)]
pub struct FleetingDisk {
    kept: [u8; KEPT],
    len: u64,
    faults: u64,
}

impl Model for FleetingDisk {
    ghost use Rattle.std.specs.Prelude.{◌≡◌, length};
    ghost use Rattle.esm_host.specs.Forms.{FleetingDiskState};
    ghost use Rattle.esm_host.specs.declared.fleeting_disk.TheConstants.{KEPT};

    ghost Value = { FleetingDiskState };

    ghost view = { λ s. record { kept = s.kept; len = s.len; faults = s.faults } };

    ghost invariant = { λ s. length s.kept ≡ KEPT };
}

/// Overwrites the kept bytes, as far as they extend.
fn keep(kept: &mut [u8; KEPT], at: u64, from: &[u8])
    requires { length kept.old ≡ KEPT }
    ensures { kept.new ≡ take KEPT (overwritten kept.old at from.now) }
{
    if at >= KEPT as u64 {
        return;
    }
    let at = at as usize;
    let count = from.len().min(KEPT - at);
    kept[at..at + count].copy_from_slice(&from[..count]);
}

impl FleetingDisk {
    /// Makes an empty disk.
    pub fn new() -> Self
        ensures kept { result.kept ≡ replicate KEPT 0 }
        ensures empty { result.len ≡ 0 }
        ensures faultless { result.faults ≡ 0 }
    {
        FleetingDisk {
            kept: [0; KEPT],
            len: 0,
            faults: 0,
        }
    }

    /// Counts a call that failed.
    fn fail<T>(&mut self) -> Result<T, Failed>
        ensures failed { OnOk result ⊥ }
        ensures counted { self.new ≡ record self.old { faults = one_more self.old.faults } }
        ensures count { IsCount self.old.faults self.new.faults }
        ensures cause { Rose self.old.faults self.new.faults }
    {
        self.faults = self.faults.saturating_add(1);
        Err(Failed)
    }
}

impl Disk for FleetingDisk {
    ghost faults = { λ s. s.faults };

    ghost honest = { λ s. false };

    ghost content = { λ s. [] };

    ghost image = { λ s left. Unit {0} };

    ghost moment = { λ s. 0 };

    ghost image_since = { λ s t left. Unit {0} };

    ghost reads_as_image = { λ s h. tt };

    ghost counts_now = { λ s t left h le now. tt };

    ghost only_now = { λ s left h since. tt };

    fn len(&mut self) -> Result<u64, Failed>
        ensures length { IfOk result (λ n. n ≡ self.old.len) }
        ensures done { IsOk result }
        ensures same { self.new ≡ self.old }
        ensures count { IsCount self.old.faults self.new.faults }
        ensures cause { OnErr result (Rose self.old.faults self.new.faults) }
    {
        Ok(self.len)
    }

    fn read(&mut self, at: u64, into: &mut [u8]) -> Result<(), Failed>
        // What a read returns, and when it succeeds.
        ensures bytes { OnOk result (into.new ≡ take (length into.old) (drop at self.old.kept)) }
        ensures known { at + length into.old ≤ min self.old.len KEPT → IsOk result }
        ensures forgotten { OnOk result (at + length into.old ≤ min self.old.len KEPT) }
        ensures same { OnOk result (self.new ≡ self.old) }
        // What a fault leaves.
        ensures unfilled { OnErr result (into.new ≡ into.old) }
        ensures counted { OnErr result (self.new ≡ record self.old { faults = one_more self.old.faults }) }
        ensures count { IsCount self.old.faults self.new.faults }
        ensures cause { OnErr result (Rose self.old.faults self.new.faults) }
    {
        let known = self.len.min(KEPT as u64);
        if at > known || into.len() as u64 > known - at {
            return self.fail();
        }
        let at = at as usize;
        into.copy_from_slice(&self.kept[at..at + into.len()]);
        Ok(())
    }

    fn write_at(&mut self, at: u64, from: &[u8]) -> Result<(), Failed>
        // What is kept of the bytes, and the length.
        ensures written { OnOk result (self.new ≡ record self.old {
          kept = take KEPT (overwritten self.old.kept at from.now);
          len = max self.old.len (at + length from.now);
        }) }
        // When a write is a fault, and what that leaves.
        ensures too_long { OnErr result (2 ^ 64 ≤ at + length from.now) }
        ensures counted { OnErr result (self.new ≡ record self.old { faults = one_more self.old.faults }) }
        ensures count { IsCount self.old.faults self.new.faults }
        ensures cause { OnErr result (Rose self.old.faults self.new.faults) }
    {
        let Some(end) = at.checked_add(from.len() as u64) else {
            return self.fail();
        };
        keep(&mut self.kept, at, from);
        self.len = self.len.max(end);
        Ok(())
    }

    /// Does nothing: nothing outlasts this value.
    fn sync(&mut self) -> Result<(), Failed>
        ensures done { IsOk result }
        ensures same { self.new ≡ self.old }
        ensures count { IsCount self.old.faults self.new.faults }
        ensures cause { OnErr result (Rose self.old.faults self.new.faults) }
    {
        let _faults = self.faults;
        Ok(())
    }
}
