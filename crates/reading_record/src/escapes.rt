//! Texts of any bytes, as lines of a file.

use std::alloc::{AllocError, Global};

/// The number that a digit of base 16 is.
fn digit(character: u8) -> u8 {
    match character {
        b'0'..=b'9' => character.wrapping_sub(b'0'),
        _ => character.wrapping_sub(b'A').wrapping_add(10),
    }
}

/// The bytes that a line is of, in which `%` and two digits of base 16 stand for a byte.
pub fn bytes_of(alloc: Global, line: &str) -> Result<Vec<u8>, AllocError> {
    let mut bytes = Vec::new(alloc);
    let (mut byte, mut digits) = (0u8, 0u8);
    for character in line.as_bytes() {
        if digits > 0 {
            byte = byte.wrapping_mul(16).wrapping_add(digit(*character));
            digits = digits.wrapping_sub(1);
            if digits == 0 {
                bytes.push(byte)?;
            }
        } else if *character == b'%' {
            digits = 2;
        } else {
            bytes.push(*character)?;
        }
    }
    Ok(bytes)
}
