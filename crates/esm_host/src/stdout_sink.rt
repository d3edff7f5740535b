// Standard output as a sink.
ghost use Rattle.std.specs.Prelude.{◌≡◌, None, IfOk};

use crate::again::write_again;
use crate::real::counted;
use crate::terminal::Shown;
use esm_io::{Failed, Sink};
use esm_model::OutOfMemory;
use std::io;
use std::io::{Eprint, Write};
use std::marker::Model;

/// Standard output.
#[derive(Drop)]
pub struct StdoutSink<R: Print + Eprint + Clone> {
    rt: R,
    faults: u64,
    /// Whether a line on the terminal shows how far a run has come; it is erased before a write.
    shown: Option<Shown>,
}

impl<R: Print + Eprint + Clone> Model for StdoutSink<R> {
    ghost use Rattle.esm_host.specs.Forms.{RealState};

    ghost Value = { RealState };

    ghost view = { λ s. record { faults = s.faults } };
}

impl<R: Print + Eprint + Clone> StdoutSink<R> {
    /// Makes a sink of standard output. `shown` is where a clock notes which lines it shows, if one does. It writes nothing
    /// yet. `OutOfMemory` if the runtime's handle cannot be copied.
    pub fn new(rt: &R, shown: Option<Shown>) -> Result<Self, OutOfMemory>
        ensures faultless { IfOk result (λ sink. sink.faults ≡ 0) }
    {
        Ok(StdoutSink {
            rt: rt.clone()?,
            faults: 0,
            shown,
        })
    }
}

impl<R: Print + Eprint + Clone> Sink for StdoutSink<R> {
    ghost faults = { λ s. s.faults };

    ghost written = { λ s. None };

    /// A write that takes nothing of a nonempty slice is a fault.
    fn write(&mut self, from: &[u8]) -> Result<usize, Failed> {
        if let Some(shown) = &self.shown {
            shown.erase(&self.rt);
        }
        let count = write_again(&mut Printer { rt: &self.rt }, from);
        counted(&mut self.faults, count)
    }
}

/// Standard output as a writer.
#[derive(Drop)]
struct Printer<'a, R: Print> {
    rt: &'a R,
}

impl<'a, R: Print> Write for Printer<'a, R> {
    fn write(&mut self, from: &[u8]) -> io::Result<usize> {
        self.rt.write_some(from)
    }

    fn flush(&mut self) -> io::Result<()> {
        Ok(())
    }
}
