//! Worked words, of an environment in memory.
use super::words;
use std::alloc::Global;
use std::env::{Env, FillError};
use std::process::Abort;
use std::test::Fail;

/// An environment of these arguments, the first of which is the program's name.
#[derive(Drop)]
struct Arguments<'a> {
    all: &'a [&'a [u8]],
}

impl Env for Arguments<'_> {
    fn arg(&self, place: usize, buffer: &mut [u8]) -> Result<usize, FillError> {
        let Some(bytes) = self.all.get(place) else {
            return Err(FillError::NotPresent);
        };
        let Some(filled) = buffer.get_mut(..bytes.len()) else {
            return Err(FillError::TooLong);
        };
        filled.copy_from_slice(bytes);
        Ok(bytes.len())
    }

    fn var(&self, _name: &str, _buffer: &mut [u8]) -> Result<usize, FillError> {
        Err(FillError::NotPresent)
    }

    fn var_at(&self, _place: usize, _buffer: &mut [u8]) -> Result<usize, FillError> {
        Err(FillError::NotPresent)
    }
}

/// Asserts which words are read of a program's name and these arguments.
fn check_words(rt: &impl Abort, alloc: Global, all: &[&[u8]], wanted: &[&str]) -> Result<(), Fail> {
    let found = words(&Arguments { all }, alloc)?;
    assert_eq!(rt; found.len(), wanted.len());
    for (word, text) in found.iter().zip(wanted) {
        assert_eq!(rt; word.as_str(), *text);
    }
    Ok(())
}

const NAME: &[u8] = b"ast_vectors";

/// Bytes that are no text: a byte that stands nowhere in UTF-8.
const NO_TEXT: &[u8] = &[b'1', 0xFF];

fn check_texts(rt: &impl Abort, alloc: Global) -> Result<(), Fail> {
    check_words(rt, alloc, &[], &[])?;
    check_words(rt, alloc, &[NAME], &[])?;
    check_words(rt, alloc, &[NAME, b"1"], &["1"])?;
    let three: [&[u8]; 4] = [NAME, b"", b"14", b"\xC3\xA9"];
    check_words(rt, alloc, &three, &["", "14", "é"])
}

fn check_no_texts(rt: &impl Abort, alloc: Global) -> Result<(), Fail> {
    check_words(rt, alloc, &[NAME, NO_TEXT], &[""])?;
    check_words(rt, alloc, &[NAME, b"1", NO_TEXT, b"2"], &["1", "", "2"])
}

/// What is no text is an empty word, and so is what is longer than 64 bytes.
#[test]
fn words_are_read_in_their_order(rt: HostRuntime) -> Result<(), Fail> {
    let alloc = rt.alloc();
    check_texts(&rt, alloc)?;
    check_no_texts(&rt, alloc)?;
    let text = "1".repeat(alloc, 64)?;
    check_words(&rt, alloc, &[NAME, &[b'1'; 64]], &[text.as_str()])?;
    let longer: [&[u8]; 4] = [NAME, b"1", &[b'1'; 65], b"2"];
    check_words(&rt, alloc, &longer, &["1", "", "2"])
}

/// Where memory is refused no words are answered; else all are. `rt try --test --fail-alloc N` refuses the Nth growth.
///
/// Allocations: 3.
#[test]
fn refused_memory_gives_no_words(rt: HostRuntime) {
    let all: [&[u8]; 3] = [NAME, b"1", b"14"];
    if let Ok(found) = words(&Arguments { all: &all }, rt.alloc()) {
        assert_eq!(rt; found.len(), 2);
    }
}
