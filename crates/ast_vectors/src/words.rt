//! The words after the program's name.
ghost use Rattle.std.specs.Prelude.{◌≡◌, [], Some, None, IfOk, IsErrOf, string_bytes};
ghost use Rattle.std.specs.Option.{option_map};
ghost use Rattle.ast_vectors.specs.Words.{word_text};

use std::alloc::{AllocError, Global};
use std::env::{Env, FillError};

/// The longest word that is read: more bytes than any vector's number has.
const LONGEST: usize = 64;

/// The words after the program's name, in their order. One that isn't UTF-8, or of more than `LONGEST` bytes, is the empty text, so
/// that it is no vector's number and yet counts as a word. `AllocError` where memory is refused.
pub fn words<R: Env>(env: &R, alloc: Global) -> Result<Vec<String>, AllocError> {
    let mut words = Vec::new(alloc);
    for place in 1..usize::MAX {
        match word(env, alloc, place)? {
            Some(word) => words.push(word)?,
            None => break,
        }
    }
    Ok(words)
}

/// The word at a place, if there is one: that of place 0 is the program's name. `AllocError` where memory is refused.
fn word<R: Env>(env: &R, alloc: Global, place: usize) -> Result<Option<String>, AllocError> {
    let mut buffer = [0; LONGEST];
    let answer = match env.arg(place, &mut buffer) {
        Ok(len) => Ok(&buffer[..len]),
        Err(error) => Err(error),
    };
    word_of(alloc, answer)
}

/// The text of a word's bytes: the empty text where they are not UTF-8.
fn text_of(bytes: &[u8]) -> &str
    ensures { result.now ≡ word_text bytes.now }
{
    match str::from_utf8(bytes) {
        Ok(text) => text,
        Err(_) => "",
    }
}

/// The word that the environment answers with: told its bytes, or why it gave none. `AllocError` where memory is refused.
fn word_of(alloc: Global, answer: Result<&[u8], FillError>) -> Result<Option<String>, AllocError>
    ensures given { IfOk answer.entry (λ bytes.
        IfOk result (λ word. option_map string_bytes word ≡ Some (word_text bytes.now))) }
    ensures too_long { IsErrOf answer.entry FillError.TooLong →
        IfOk result (λ word. option_map string_bytes word ≡ Some []) }
    ensures absent { IsErrOf answer.entry FillError.NotPresent → IfOk result (λ word. word ≡ None) }
{
    let text = match answer {
        Ok(bytes) => text_of(bytes),
        Err(FillError::TooLong) => "",
        Err(FillError::NotPresent) => return Ok(None),
    };
    Ok(Some(String::from_str(alloc, text)?))
}

#[cfg(test)]
mod tests;
