// Standard input as a source.
ghost use Rattle.std.specs.Prelude.{◌≡◌, None, IfOk};

use crate::again::read_again;
use crate::ready::is_readable;
use crate::real::counted;
use esm_io::{Failed, Source};
use esm_model::OutOfMemory;
use std::alloc::Global;
use std::marker::Model;

/// Standard input. The host's reader holds a buffer of some thousand bytes, and a source is passed by value, so the reader
/// is boxed.
#[derive(Drop)]
pub struct StdinSource<R: Input + Clone> {
    rt: R,
    reader: Box<Option<R::Reader>>,
    faults: u64,
}

impl<R: Input + Clone> Model for StdinSource<R> {
    ghost use Rattle.esm_host.specs.Forms.{RealState};

    ghost Value = { RealState };

    ghost view = { λ s. record { faults = s.faults } };
}

impl<R: Input + Clone> StdinSource<R> {
    /// Makes a source of standard input from where it is. It reads nothing yet. `OutOfMemory` if the runtime's handle cannot
    /// be copied, or there is no memory for the reader.
    pub fn new(rt: &R, alloc: Global) -> Result<Self, OutOfMemory>
        ensures faultless { IfOk result (λ source. source.faults ≡ 0) }
    {
        Ok(StdinSource {
            rt: rt.clone()?,
            reader: Box::new(alloc, None)?,
            faults: 0,
        })
    }
}

impl<R: Input + Clone> Source for StdinSource<R> {
    ghost faults = { λ s. s.faults };

    ghost left = { λ s. None };

    /// Polls the host's descriptor 0. True also at its end, or if it cannot be polled; false if the time passed or a signal
    /// interrupted it.
    fn is_ready(&mut self, patience: u64) -> bool {
        is_readable(libc::STDIN_FILENO, patience)
    }

    fn read(&mut self, into: &mut [u8]) -> Result<usize, Failed> {
        let mut reader = match self.reader.take() {
            Some(reader) => reader,
            None => self.rt.reader(),
        };
        let count = counted(&mut self.faults, read_again(&mut reader, into));
        *self.reader = Some(reader);
        count
    }
}
