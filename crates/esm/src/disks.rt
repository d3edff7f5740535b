// The disks and the input of a run, with or without a folder.
use esm_folder::{Disks, InitEnd, Initialized, init};
use esm_host::{FileDisk, FileSource, FleetingDisk};
use esm_model::{FileName, OutOfMemory, Text};
use std::alloc::Global;
use std::fs::File;
use std::rt::Files;

/// The name of the input's file in a folder.
const INPUT: &str = "input.jsonl";

/// Makes the disks of a world without a folder, as an `init` leaves them. They keep no journal. None of the calls of that
/// `init` is a fault of such a disk, so it can fail only if memory runs out.
pub fn fresh_disks(alloc: Global) -> Result<Disks<FleetingDisk>, OutOfMemory> {
    let disks = Disks {
        journal: FleetingDisk::new(),
        spare: FleetingDisk::new(),
        failures: FleetingDisk::new(),
        registry: FleetingDisk::new(),
    };
    match init(alloc, disks) {
        Initialized {
            end: Ok(InitEnd::Done),
            disks,
        } => Ok(disks),
        _ => Err(OutOfMemory),
    }
}

/// The path of a file of the folder.
fn path(alloc: Global, folder: &str, name: &str) -> Result<Text, OutOfMemory> {
    Ok(Text::from_vec(format!(in alloc; "{folder}/{name}")?))
}

/// Makes the input of the folder. It opens nothing yet.
pub fn input_in<R: Files<File = File> + Clone>(
    rt: &R,
    alloc: Global,
    folder: &str,
) -> Result<FileSource<R>, OutOfMemory> {
    FileSource::new(rt, path(alloc, folder, INPUT)?)
}

/// Makes the disk of one file of the folder. It opens nothing yet.
fn disk_in<R: Files<File = File> + Clone>(
    rt: &R,
    alloc: Global,
    folder: &str,
    name: FileName,
) -> Result<FileDisk<R>, OutOfMemory> {
    FileDisk::new(rt, path(alloc, folder, name.name())?)
}

/// Makes the four disks of the folder. It opens nothing yet.
pub fn disks_in<R: Files<File = File> + Clone>(
    rt: &R,
    alloc: Global,
    folder: &str,
) -> Result<Disks<FileDisk<R>>, OutOfMemory> {
    Ok(Disks {
        journal: disk_in(rt, alloc, folder, FileName::Journal)?,
        spare: disk_in(rt, alloc, folder, FileName::Spare)?,
        failures: disk_in(rt, alloc, folder, FileName::Failures)?,
        registry: disk_in(rt, alloc, folder, FileName::Registry)?,
    })
}
