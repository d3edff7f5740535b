// Tests: the words of a command line, without the program's own name and with bytes that are no UTF-8; an empty folder; the
// time limit of a call that words spell.
use crate::opening::read_opening;
use crate::timeouts::timeout_of;
use crate::words::words;
use esm_cli::{WordsError, read};
use std::alloc::{AllocError, Global};
use std::env::FillError;
use std::rt::Env;
use std::test::Fail;

/// The arguments of a process.
#[derive(Drop)]
struct Arguments<'a>(&'a [&'a [u8]]);

impl Env for Arguments<'_> {
    fn arg(&self, i: usize, buf: &mut [u8]) -> Result<usize, FillError> {
        let Some(bytes) = self.0.get(i) else {
            return Err(FillError::NotPresent);
        };
        if bytes.len() > buf.len() {
            return Err(FillError::TooLong);
        }
        buf[..bytes.len()].copy_from_slice(bytes);
        Ok(bytes.len())
    }

    fn var(&self, _name: &str, _buf: &mut [u8]) -> Result<usize, FillError> {
        Err(FillError::NotPresent)
    }

    fn var_at(&self, _i: usize, _buf: &mut [u8]) -> Result<usize, FillError> {
        Err(FillError::NotPresent)
    }
}

#[test]
fn words_after_the_name(rt: HostRuntime) -> Result<(), Fail> {
    let given = [b"esm".as_slice(), b"-".as_slice(), b"ok".as_slice()];
    let words = words(&(Arguments(&given), rt.alloc()))?;
    assert_eq!(rt; words.len(), 2);
    assert_eq!(rt; words[0].as_str(), "-");
    assert_eq!(rt; words[1].as_str(), "ok");
    Ok(())
}

#[test]
fn words_that_are_no_text(rt: HostRuntime) -> Result<(), Fail> {
    let given = [
        b"esm".as_slice(),
        b"-".as_slice(),
        b"poison:\xff".as_slice(),
    ];
    let words = words(&(Arguments(&given), rt.alloc()))?;
    assert_eq!(rt; words.len(), 0);
    Ok(())
}

/// The words of a text, which spaces separate.
fn parted(alloc: Global, text: &str) -> Result<Vec<String>, AllocError> {
    let mut words = Vec::new(alloc);
    for word in text.split(' ') {
        words.push(String::from_str(alloc, word)?)?;
    }
    Ok(words)
}

/// Whether the text names a folder, functions and a door.
fn opens(alloc: Global, text: &str) -> Result<bool, AllocError> {
    let words = parted(alloc, text)?;
    Ok(read_opening(&words).is_some())
}

#[test]
fn an_empty_folder_is_refused(rt: HostRuntime) -> Result<(), Fail> {
    assert!(rt; opens(rt.alloc(), "orders ok 0 show")?);
    assert!(rt; opens(rt.alloc(), "- ok 0 show")?);
    assert!(rt; !opens(rt.alloc(), " ok 0 show")?);
    Ok(())
}

/// The time limit of a call under the command that the text spells.
fn timeout(alloc: Global, text: &str) -> Result<Option<u32>, AllocError> {
    match read(alloc, &parted(alloc, text)?) {
        Ok(command) => Ok(Some(timeout_of(&command))),
        Err(WordsError::BadWords) => Ok(None),
        Err(WordsError::OutOfMemory) => Err(AllocError),
    }
}

#[test]
fn timeouts(rt: HostRuntime) -> Result<(), Fail> {
    let rows = [
        ("run --config C", Some(900)),
        ("run --config C --timeout 1", Some(1)),
        ("run --timeout=900 --read-first --config C", Some(900)),
        ("run --config C --timeout 0", None),
        ("run --config C --timeout 901", None),
        ("run --config C --timeout 01", None),
        ("run --config C --timeout 2 --timeout 2", None),
        ("ddb --config C --timeout 3", Some(3)),
        ("redrive --max-receives 5 --timeout 4 --config C", Some(4)),
        ("replay --config C --calls 1", Some(900)),
        ("gen --records 1", Some(900)),
        ("gen --records 1 --timeout 1", None),
    ];
    for (text, expected) in rows {
        assert_eq!(rt; timeout(rt.alloc(), text)?, expected);
    }
    Ok(())
}
