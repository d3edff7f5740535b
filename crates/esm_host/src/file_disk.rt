// A file of the host as a disk: its first call opens and locks the file, and it syncs the file and its folder.
ghost use Rattle.std.specs.Prelude.{◌≡◌, [], true, false, IfOk, IsErr, OnOk, OnErr};
ghost use Rattle.esm_io.specs.Faults.{IsCount, Rose};
ghost use Rattle.esm_host.specs.Streams.{IsAboveStreams};

use crate::real::counted;
use crate::streams::above_streams;
use esm_io::{Disk, Failed};
use esm_model::{OutOfMemory, Text};
use std::fs::{File, OpenOptions};
use std::marker::Model;
use std::os::unix::fs::FileExt;
use std::path::Path;
use std::rt::Files;
use std::{fs, io};

/// A file as a disk. To the contracts it may be any disk: they say nothing of what it holds.
///
/// The first call opens the file, makes a missing one with length 0, and takes an exclusive advisory lock (`flock`) that is
/// kept until this value is dropped. If that fails, as in a missing folder or for a file that another open has locked, the
/// call is a fault; after a `len` or a `read` the next call tries again. The disk never uses the descriptor of a standard
/// stream: an open that gave one is a fault too.
///
/// A `sync` syncs the file's bytes and its length (`fdatasync`). The first one also syncs the file's folder, so that a new
/// file is still found there after a crash. After a `write_at` or a `sync` that failed, every later call is a fault: what
/// the system still holds of the bytes is then unknown, and a further sync could return Ok without them.
#[derive(Drop)]
pub struct FileDisk<R: Files<File = File> + Clone> {
    rt: R,
    path: Text,
    file: Option<File>,
    folder_synced: bool,
    down: bool,
    faults: u64,
}

impl<R: Files<File = File> + Clone> Model for FileDisk<R> {
    ghost use Rattle.std.specs.Prelude.{IfSome};
    ghost use Rattle.esm_host.specs.Forms.{FileDiskState};
    ghost use Rattle.esm_host.specs.Streams.{IsAboveStreams};

    ghost Value = { FileDiskState };

    ghost view = { λ s. record { down = s.down; faults = s.faults } };

    ghost invariant = { λ s. IfSome s.file IsAboveStreams };
}

/// Opens and locks the file, and makes a missing one.
fn open_locked<R: Files<File = File>>(rt: &R, path: &str) -> io::Result<File>
    ensures above { IfOk result IsAboveStreams }
{
    let opened = OpenOptions::new()
        .read(true)
        .write(true)
        .create(true)
        .open(rt, path)?;
    let file = above_streams(opened)?;
    file.try_lock()?;
    Ok(file)
}

/// Returns the folder that has the path's last name.
fn folder_of(path: &str) -> &str {
    match Path::new(path).parent() {
        Some(folder) if !folder.as_str().is_empty() => folder.as_str(),
        _ => ".",
    }
}

fn sync_folder<R: Files<File = File>>(rt: &R, path: &str) -> io::Result<()> {
    above_streams(fs::open(rt, folder_of(path))?)?.sync_all()
}

impl<R: Files<File = File> + Clone> FileDisk<R> {
    /// Makes a disk over the file at this path. It opens nothing yet. `OutOfMemory` if the runtime's handle cannot be
    /// copied.
    pub fn new(rt: &R, path: Text) -> Result<Self, OutOfMemory>
        ensures faultless { IfOk result (λ disk. disk.faults ≡ 0) }
        ensures up { IfOk result (λ disk. disk.down ≡ false) }
    {
        Ok(FileDisk {
            rt: rt.clone()?,
            path,
            file: None,
            folder_synced: false,
            down: false,
            faults: 0,
        })
    }

    /// Takes the open file out for one call; `file` must be set again.
    fn take_file(&mut self) -> io::Result<File>
        ensures above { IfOk result IsAboveStreams }
        ensures same { self.new ≡ self.old }
        ensures down { self.old.down ≡ true → IsErr result }
    {
        if self.down {
            return Err(io::Error::from(io::ErrorKind::Other));
        }
        match self.file.take() {
            Some(file) => Ok(file),
            None => open_locked(&self.rt, self.path.as_str()),
        }
    }

    fn length(&mut self) -> io::Result<u64>
        ensures same { self.new ≡ self.old }
        ensures down { self.old.down ≡ true → IsErr result }
    {
        let file = self.take_file()?;
        let metadata = file.metadata();
        self.file = Some(file);
        Ok(metadata?.len())
    }

    fn read_bytes(&mut self, at: u64, into: &mut [u8]) -> io::Result<()>
        ensures same { self.new ≡ self.old }
        ensures down { self.old.down ≡ true → IsErr result }
    {
        let file = self.take_file()?;
        let done = file.read_exact_at(into, at);
        self.file = Some(file);
        done
    }

    fn write_bytes(&mut self, at: u64, from: &[u8]) -> io::Result<()>
        ensures same { self.new ≡ self.old }
        ensures down { self.old.down ≡ true → IsErr result }
    {
        let file = self.take_file()?;
        let done = file.write_all_at(from, at);
        self.file = Some(file);
        done
    }

    fn sync_file_and_folder(&mut self) -> io::Result<()>
        ensures same { self.new ≡ self.old }
        ensures down { self.old.down ≡ true → IsErr result }
    {
        let file = self.take_file()?;
        let done = file.sync_data();
        self.file = Some(file);
        done?;
        if !self.folder_synced {
            sync_folder(&self.rt, self.path.as_str())?;
            self.folder_synced = true;
        }
        Ok(())
    }
}

impl<R: Files<File = File> + Clone> Disk for FileDisk<R> {
    ghost faults = { λ s. s.faults };

    ghost honest = { λ s. false };

    ghost content = { λ s. [] };

    ghost image = { λ s left. Unit {0} };

    ghost moment = { λ s. 0 };

    ghost image_since = { λ s t left. Unit {0} };

    ghost reads_as_image = { λ s h. tt };

    ghost counts_now = { λ s t left h le now. tt };

    ghost only_now = { λ s left h since. tt };

    fn len(&mut self) -> Result<u64, Failed>
        ensures count { IsCount self.old.faults self.new.faults }
        ensures cause { OnErr result (Rose self.old.faults self.new.faults) }
        ensures down { self.old.down ≡ true → IsErr result }
        ensures down_kept { self.new.down ≡ self.old.down }
    {
        let length = self.length();
        counted(&mut self.faults, length)
    }

    fn read(&mut self, at: u64, into: &mut [u8]) -> Result<(), Failed>
        ensures count { IsCount self.old.faults self.new.faults }
        ensures cause { OnErr result (Rose self.old.faults self.new.faults) }
        ensures down { self.old.down ≡ true → IsErr result }
        ensures down_kept { self.new.down ≡ self.old.down }
    {
        let done = self.read_bytes(at, into);
        counted(&mut self.faults, done)
    }

    fn write_at(&mut self, at: u64, from: &[u8]) -> Result<(), Failed>
        ensures count { IsCount self.old.faults self.new.faults }
        ensures cause { OnErr result (Rose self.old.faults self.new.faults) }
        ensures down { self.old.down ≡ true → IsErr result }
        ensures goes_down { OnErr result (self.new.down ≡ true) }
        ensures stays_up { OnOk result (self.new.down ≡ false) }
    {
        let done = self.write_bytes(at, from);
        self.down = done.is_err();
        counted(&mut self.faults, done)
    }

    fn sync(&mut self) -> Result<(), Failed>
        ensures count { IsCount self.old.faults self.new.faults }
        ensures cause { OnErr result (Rose self.old.faults self.new.faults) }
        ensures down { self.old.down ≡ true → IsErr result }
        ensures goes_down { OnErr result (self.new.down ≡ true) }
        ensures stays_up { OnOk result (self.new.down ≡ false) }
    {
        let done = self.sync_file_and_folder();
        self.down = done.is_err();
        counted(&mut self.faults, done)
    }
}
