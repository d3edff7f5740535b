// A file of the host as a source, read from its front.
ghost use Rattle.std.specs.Prelude.{◌≡◌, None, IfOk};
ghost use Rattle.esm_host.specs.Streams.{IsAboveStreams};

use crate::again::read_again;
use crate::ready::is_readable;
use crate::real::counted;
use crate::streams::above_streams;
use esm_io::{Failed, Source};
use esm_model::{OutOfMemory, Text};
use std::fs::File;
use std::marker::Model;
use std::os::fd::AsRawFd;
use std::rt::Files;
use std::{fs, io};

/// A file that is read from its front. The first call that may wait opens it; if the file is missing, the first read is a
/// fault. It never reads from the descriptor of a standard stream: an open that gave one is a fault.
#[derive(Drop)]
pub struct FileSource<R: Files<File = File> + Clone> {
    rt: R,
    path: Text,
    file: Option<File>,
    faults: u64,
}

impl<R: Files<File = File> + Clone> Model for FileSource<R> {
    ghost use Rattle.std.specs.Prelude.{IfSome};
    ghost use Rattle.esm_host.specs.Forms.{RealState};
    ghost use Rattle.esm_host.specs.Streams.{IsAboveStreams};

    ghost Value = { RealState };

    ghost view = { λ s. record { faults = s.faults } };

    ghost invariant = { λ s. IfSome s.file IsAboveStreams };
}

/// Opens the file.
fn open_above<R: Files<File = File>>(rt: &R, path: &str) -> io::Result<File>
    ensures above { IfOk result IsAboveStreams }
{
    above_streams(fs::open(rt, path)?)
}

/// Whether to open or to read what is at this path may wait for others, as for a FIFO or a device.
fn may_wait<R: Files<File = File>>(rt: &R, path: &str) -> bool {
    match fs::metadata(rt, path) {
        Ok(found) => !found.is_file(),
        Err(_) => false,
    }
}

impl<R: Files<File = File> + Clone> FileSource<R> {
    /// Makes a source of the bytes of the file at this path. It opens nothing yet. `OutOfMemory` if the runtime's handle
    /// cannot be copied.
    pub fn new(rt: &R, path: Text) -> Result<Self, OutOfMemory>
        ensures faultless { IfOk result (λ source. source.faults ≡ 0) }
    {
        Ok(FileSource {
            rt: rt.clone()?,
            path,
            file: None,
            faults: 0,
        })
    }
}

impl<R: Files<File = File> + Clone> Source for FileSource<R> {
    ghost faults = { λ s. s.faults };

    ghost left = { λ s. None };

    /// A file is always ready; a FIFO or a device may not be. With a `patience` above 0, in milliseconds, it opens the file,
    /// and a FIFO then waits for its first writer, however long. True also at the end of the file, or if it cannot be opened
    /// or polled; false if the time passed or a signal interrupted it.
    fn is_ready(&mut self, patience: u64) -> bool {
        if self.file.is_none() {
            if patience == 0 {
                return !may_wait(&self.rt, self.path.as_str());
            }
            self.file = open_above(&self.rt, self.path.as_str()).ok();
        }
        match &self.file {
            Some(file) => is_readable(file.as_raw_fd(), patience),
            None => true,
        }
    }

    fn read(&mut self, into: &mut [u8]) -> Result<usize, Failed> {
        let file = match self.file.take() {
            Some(file) => file,
            None => counted(&mut self.faults, open_above(&self.rt, self.path.as_str()))?,
        };
        let count = counted(&mut self.faults, read_again(&mut &file, into));
        self.file = Some(file);
        count
    }
}
