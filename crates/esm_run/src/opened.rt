// The devices of a run whose files were opened, and the same with the files closed if no run begins.
ghost use Rattle.std.specs.Prelude.{◌≡◌, []};
ghost use Rattle.esm_io.specs.Meanings.{disk as meaning};
ghost use Rattle.esm_runner.specs.Files.{AreUnwritten};
ghost use Rattle.esm_run.specs.Answers.{AreGoodFiles};
ghost use Rattle.esm_run.specs.World.{disks};
ghost use Rattle.esm_run.specs.declared.left.Began.TheVariants as began;

use crate::left::{Ran, RunDevices, not_begun};
use esm_io::Disk;
use esm_model::OutOfMemory;
use esm_report::Ending;
use esm_runner::Files;
use std::alloc::Global;

/// The devices of a run whose files were opened.
pub struct Opened<S, D: Disk, F> {
    pub input: S,
    pub files: Files<D>,
    pub registry: D,
    pub callers: Vec<F>,
}

/// Closes the opened files, over which no run began.
pub fn closed<S, D: Disk, F>(
    alloc: Global,
    end: Result<Ending, OutOfMemory>,
    opened: Opened<S, D, F>,
) -> Ran<S, D, F>
    ensures end { result.end ≡ end }
    ensures nothing { result.began ≡ began.Nothing }
    ensures front { result.front.items ≡ [] }
    ensures no_trace { result.trace.items ≡ [] }
    ensures input { result.devices.input ≡ opened.input }
    ensures callers { result.devices.callers ≡ opened.callers }
    ensures registry { result.devices.registry ≡ opened.registry }
    // The files.
    ensures good { (registry : D) → AreGoodFiles (meaning D.Disk) (disks opened.files.journal opened.files.spare opened.files.failures registry) }
    ensures unwritten { AreUnwritten (meaning D.Disk) opened.files.journal opened.files.spare opened.files.failures
        result.devices.journal result.devices.spare result.devices.failures }
{
    let Opened {
        input,
        files,
        registry,
        callers,
    } = opened;
    files.keeps();
    let (journal, spare, failures) = files.close();
    let devices = RunDevices {
        input,
        journal,
        spare,
        failures,
        registry,
        callers,
    };
    not_begun(alloc, end, devices)
}
