// Tests of the disk that has no file: which of the bytes written it keeps, and which it forgets.
use esm_host::FleetingDisk;
use esm_io::{Disk, Failed};

/// The two bytes at this place.
fn two_at(disk: &mut FleetingDisk, place: u64) -> Result<[u8; 2], Failed> {
    let mut into = [0; 2];
    disk.read(place, &mut into)?;
    Ok(into)
}

/// Whether a disk of twenty bytes gives the first eighteen, and reports a length of twenty.
fn keeps_the_first(disk: &mut FleetingDisk) -> bool {
    disk.write_at(0, &[7; 17]) == Ok(())
        && disk.write_at(17, &[1, 2, 3]) == Ok(())
        && disk.sync() == Ok(())
        && disk.len() == Ok(20)
        && two_at(disk, 16) == Ok([7, 1])
        && two_at(disk, 17) == Err(Failed)
}

#[test]
fn fleeting_disk_keeps_its_first_bytes(rt: HostRuntime) {
    let mut disk = FleetingDisk::new();
    assert!(rt; two_at(&mut disk, 0) == Err(Failed));
    assert!(rt; keeps_the_first(&mut disk));
    assert!(rt; disk.write_at(1, &[9]) == Ok(()) && two_at(&mut disk, 0) == Ok([7, 9]));
}

#[test]
fn fleeting_disk_takes_no_more_than_has_a_length(rt: HostRuntime) {
    let mut disk = FleetingDisk::new();
    assert!(rt; disk.write_at(u64::MAX, &[1]) == Err(Failed) && disk.len() == Ok(0));
}
