// Tests of what is left of a journal after a disk failed while it was written and a crash, and of payloads that are
// refused.
ghost use Rattle.std.specs.Prelude.{◌≡◌, false, IfOk};

use esm_fixtures::{NO_LINES, blank, disk};
use esm_io::MemDisk;
use esm_journal::*;
use esm_model::{Bytes, OutOfMemory};
use std::alloc::Global;
use std::test::Fail;

/// A journal's payload.
const PAYLOAD: [u8; 29] = *b"\x01\0\0\0\0\0\0\0\0\x01\0\0\0\0\0\0\0\0\0\0\0\0\x01\0\0\0\0\x011";

/// A fresh journal; the calls of its disk with these numbers, counted from 0, fail.
fn fresh(alloc: Global, fails: &[u64]) -> Result<Journal<MemDisk>, Fail> {
    let empty = disk(alloc, &[], fails)?;
    Ok(Journal::init(alloc, empty)?)
}

/// A journal without payloads.
fn opened(alloc: Global) -> Result<Journal<MemDisk>, Fail>
    ensures up { IfOk result (λ journal. journal.down ≡ false) }
{
    let file = disk(alloc, &NO_LINES, &[])?;
    Ok(Journal::open(alloc, file)?)
}

/// The disk of a journal after its call number `k` failed while a payload was added.
fn stopped(alloc: Global, k: u64) -> Result<MemDisk, Fail> {
    let mut journal = fresh(alloc, &[k])?;
    match journal.append(alloc, &PAYLOAD) {
        Err(AppendError::DiskFault) => Ok(journal.into_disk()),
        _ => Err(Fail::from("no fault")),
    }
}

/// How many payloads the journal has after a crash of this choice.
fn left_after(alloc: Global, k: u64, choice: u64) -> Result<usize, Fail> {
    let disk = stopped(alloc, k)?;
    let disk = disk.crash(alloc, choice)?;
    Ok(Journal::open(alloc, disk)?.payloads().len())
}

/// The same for the choices 0, 1 and 165.
fn all_left_after(alloc: Global, k: u64) -> Result<[usize; 3], Fail> {
    let none = left_after(alloc, k, 0)?;
    let first = left_after(alloc, k, 1)?;
    let some = left_after(alloc, k, 165)?;
    Ok([none, first, some])
}

/// `append` makes the disk's calls 6 to 9: a write, a sync, the gate's write, a sync.
#[test]
fn append_stopped(rt: HostRuntime) -> Result<(), Fail> {
    for k in 6..9 {
        assert_eq!(rt; all_left_after(rt.alloc(), k)?, [0, 0, 0], "{k}");
    }
    assert_eq!(rt; all_left_after(rt.alloc(), 9)?, [0, 1, 0]);
    Ok(())
}

/// The answer to a payload that is one byte too long.
fn long_added(alloc: Global) -> Result<Option<AppendError>, Fail> {
    let long = vec![in alloc; 0; 16_777_217]?;
    let mut journal = opened(alloc)?;
    Ok(journal.append(alloc, &long).err())
}

/// The error if a blank file is made of one that is already blank.
fn blank_again(alloc: Global) -> Result<Option<InitError>, Fail> {
    match Journal::blank(blank(alloc)?) {
        Ok(_) => Ok(None),
        Err(refused) => Ok(Some(refused.why)),
    }
}

#[test]
fn payload_bytes(rt: HostRuntime) -> Result<(), Fail> {
    assert_eq!(rt;
        long_added(rt.alloc())?,
        Some(AppendError::TooLong(16_777_217))
    );
    assert_eq!(rt; blank_again(rt.alloc())?, Some(InitError::NotEmpty(18)));
    Ok(())
}

/// A pair with one payload, in epoch 2; call number `k` of its spare disk fails.
fn used_pair(alloc: Global, k: u64) -> Result<Pair<MemDisk>, Fail>
    ensures { IfOk result (λ pair. pair.epoch ≡ 2) }
{
    let used = disk(
        alloc,
        b"ESMJ0002\0\0\0\0\0\0\0\x02\x01\x01\0\0\0\x01a\0",
        &[],
    )?;
    let spare = disk(alloc, b"ESMJ0002\0\0\0\0\0\0\0\x01\x01\0", &[k])?;
    let pair = Pair::open(alloc, used, spare)?;
    if pair.epoch() != 2 {
        return Err(Fail::from("not the second epoch"));
    }
    Ok(pair)
}

fn list_of_two(alloc: Global) -> Result<[Bytes; 2], OutOfMemory> {
    let first = Bytes::from_vec(b"bc".to_vec(alloc)?);
    let second = Bytes::from_vec(b"d".to_vec(alloc)?);
    Ok([first, second])
}

/// The disks of this pair after writing a list of two payloads failed.
fn list_stopped(alloc: Global, k: u64) -> Result<(MemDisk, MemDisk), Fail> {
    let list = list_of_two(alloc)?;
    let mut pair = used_pair(alloc, k)?;
    match pair.rewrite(alloc, &list) {
        Err(AppendError::DiskFault) => Ok(pair.into_disks()),
        _ => Err(Fail::from("no fault")),
    }
}

/// How many payloads the pair has after a crash of the spare disk.
fn left_of_list(alloc: Global, k: u64, choice: u64) -> Result<usize, Fail> {
    let (used, spare) = list_stopped(alloc, k)?;
    let spare = spare.crash(alloc, choice)?;
    Ok(Pair::open(alloc, used, spare)?.payloads().len())
}

/// The same for the choices 0, 1 and 165.
fn all_left_of_list(alloc: Global, k: u64) -> Result<[usize; 3], Fail> {
    let none = left_of_list(alloc, k, 0)?;
    let first = left_of_list(alloc, k, 1)?;
    let some = left_of_list(alloc, k, 165)?;
    Ok([none, first, some])
}

/// `rewrite` makes the spare disk's calls 3 to 9: the old seal, a sync, the head, the list, a sync, the new seal, a sync.
#[test]
fn rewrite_stopped(rt: HostRuntime) -> Result<(), Fail> {
    for k in 3..9 {
        assert_eq!(rt; all_left_of_list(rt.alloc(), k)?, [1, 1, 1], "{k}");
    }
    assert_eq!(rt; all_left_of_list(rt.alloc(), 9)?, [1, 2, 2]);
    Ok(())
}
