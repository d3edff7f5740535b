// Tests of the devices in memory: a happy path for each, a call that fails in mid-stream, and crashes of each choice.
ghost use Rattle.std.specs.Prelude.{◌≡◌, false};

use esm_io::put_byte::put_byte;
use esm_io::{
    Clock, Dest, DestError, Disk, Door, Failed, Link, MemDest, MemDisk, MemDoor, MemLink, MemSink,
    MemSource, Sink, Source, StepClock,
};
use std::alloc::{AllocError, Global};
use std::test::Fail;

/// The count that was returned, or 9 for a call that failed.
fn counted(answer: Result<usize, Failed>) -> usize {
    match answer {
        Ok(count) => count,
        Err(_) => 9,
    }
}

/// What four reads return, the second of which fails, and what they read.
fn read_four(alloc: Global) -> Result<([usize; 4], [u8; 4]), AllocError> {
    let bytes = [1, 2, 3].to_vec(alloc)?;
    let fails = [1].to_vec(alloc)?;
    let mut source = MemSource::new(bytes, 2, fails);
    let mut into = [0; 4];
    let counts = [
        counted(source.read(&mut into)),
        counted(source.read(&mut into)),
        counted(source.read(&mut into)),
        counted(source.read(&mut into)),
    ];
    Ok((counts, into))
}

#[test]
fn source_fails_in_mid_stream(rt: HostRuntime) -> Result<(), Fail> {
    assert_eq!(rt; read_four(rt.alloc())?, ([2, 9, 1, 0], [3, 2, 0, 0]));
    Ok(())
}

/// What three writes return, the second of which fails, and whether 1, 2 and 3 were written.
fn write_three(alloc: Global) -> Result<([usize; 3], bool), AllocError> {
    let mut sink = MemSink::new(alloc, 2, [1].to_vec(alloc)?);
    let counts = [
        counted(sink.write(&[1, 2, 3])),
        counted(sink.write(&[3])),
        counted(sink.write(&[3])),
    ];
    Ok((counts, sink.written() == [1, 2, 3].as_slice()))
}

#[test]
fn sink_fails_in_mid_stream(rt: HostRuntime) -> Result<(), Fail> {
    assert_eq!(rt; write_three(rt.alloc())?, ([2, 9, 1], true));
    Ok(())
}

#[test]
fn clock_steps(rt: HostRuntime) {
    let clock = StepClock::new(5);
    let moments = [clock.now(), clock.pause(9), clock.pause(7), clock.now()];
    assert_eq!(rt; moments, [5, 9, 9, 9]);
}

/// Whether a crash leaves these bytes: 1 to 4 were synced, and then 7, 8 and 9 were written from the place of the last
/// one on.
fn is_left(alloc: Global, choice: u64, left: &[u8]) -> Result<bool, Fail> {
    let mut disk = MemDisk::new(alloc, [1, 2, 3, 4].to_vec(alloc)?, Vec::new(alloc));
    disk.write_at(3, &[7, 8, 9])?;
    Ok(disk.crash(alloc, choice)?.bytes() == left)
}

// 165 has the bits 0, 2, 5 and 7: of the places 3, 4 and 5, only the last one has arrived.
#[test]
fn crash_leaves_what_has_arrived(rt: HostRuntime) -> Result<(), Fail> {
    assert!(rt; is_left(rt.alloc(), 0, &[1, 2, 3, 4])?);
    assert!(rt; is_left(rt.alloc(), 1, &[1, 2, 3, 7, 8, 9])?);
    assert!(rt; is_left(rt.alloc(), 165, &[1, 2, 3, 4, 0, 9])?);
    Ok(())
}

/// Whether a byte is put into a disk of three, and how many calls that and asking for the length take.
fn put_one(alloc: Global) -> Result<(bool, u64), AllocError> {
    let mut disk = MemDisk::new(alloc, [1, 2, 3].to_vec(alloc)?, Vec::new(alloc));
    let is_put = put_byte(&mut disk, 1, 9).is_ok() && disk.len() == Ok(3);
    Ok((is_put && disk.bytes() == [1, 9, 3].as_slice(), disk.calls()))
}

#[test]
fn disk_puts_a_byte_and_counts_its_calls(rt: HostRuntime) -> Result<(), Fail> {
    assert_eq!(rt; put_one(rt.alloc())?, (true, 3));
    Ok(())
}

/// A door with one connection, which gives 1 and 2.
fn door_of_one(alloc: Global) -> Result<MemDoor, AllocError> {
    let link = MemLink::new(alloc, [1, 2].to_vec(alloc)?, 9, Vec::new(alloc));
    let mut links = Vec::new(alloc);
    links.push(link)?;
    Ok(MemDoor::new(alloc, links, Vec::new(alloc)))
}

/// Reads on the next connection, writes 3, and closes it. Returns what the two calls returned.
fn serve(door: &mut MemDoor, alloc: Global) -> Result<[usize; 2], Failed> {
    let mut link = door.accept()?;
    let counts = [counted(link.read(&mut [0; 4])), counted(link.write(&[3]))];
    match door.close(alloc, link) {
        Ok(()) => Ok(counts),
        Err(_) => Err(Failed),
    }
}

/// What serving two connections returns if the door has one, which the door then keeps.
fn serve_two(alloc: Global) -> Result<[Result<[usize; 2], Failed>; 2], AllocError> {
    let mut door = door_of_one(alloc)?;
    let first = serve(&mut door, alloc);
    let is_kept = door.closed().len() == 1;
    let second = serve(&mut door, alloc);
    Ok([if is_kept { first } else { Err(Failed) }, second])
}

#[test]
fn door_gives_a_link_and_keeps_it(rt: HostRuntime) -> Result<(), Fail> {
    assert!(rt; serve_two(rt.alloc())? == [Ok([2, 1]), Err(Failed)]);
    Ok(())
}

/// Delivers two lines, the first within reserved room.
fn deliver_two(dest: &mut MemDest, alloc: Global) -> Result<(), DestError>
    requires { dest.old.failed ≡ false }
{
    if dest.reserve(alloc, 3).is_err() {
        return Err(DestError::OutOfMemory);
    }
    dest.deliver(alloc, &[1, 2, 3])?;
    dest.deliver(alloc, &[4])
}

/// Whether the second of two deliveries fails, and how many lines there are then.
fn delivered(alloc: Global) -> Result<(bool, usize), AllocError> {
    let mut dest = MemDest::new(alloc, [1].to_vec(alloc)?);
    let has_failed = matches!(deliver_two(&mut dest, alloc), Err(DestError::Failed));
    Ok((has_failed, dest.lines().len()))
}

#[test]
fn dest_keeps_lines_until_it_fails(rt: HostRuntime) -> Result<(), Fail> {
    assert_eq!(rt; delivered(rt.alloc())?, (true, 1));
    Ok(())
}
