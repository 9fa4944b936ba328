//! The syntax of numbers, as tests of the bytes of a text.
ghost use Rattle.std.specs.Prelude.{◌≡◌, ◌≤◌, length};
ghost use Rattle.std.specs.Char.{is_ascii_digit};
ghost use Rattle.std.specs.List.{list_all, position_from, position_or_len};
ghost use Rattle.graphql_text.specs.lexical.Literals.{is_digits, is_exponent, is_float, is_float_part, is_fraction, is_int, is_natural, begins_float_part, is_exponent_indicator};

fn are_digits(bytes: &[u8]) -> bool
    ensures { result ≡ list_all is_ascii_digit bytes.now }
{
    bytes.iter().all(|byte| byte.is_ascii_digit())
}

/// One digit or more.
fn is_digits(bytes: &[u8]) -> bool
    ensures { result ≡ is_digits bytes.now }
{
    !bytes.is_empty() && are_digits(bytes)
}

/// `0`, or digits of which the first isn't `0`.
fn is_natural(bytes: &[u8]) -> bool
    ensures { result ≡ is_natural bytes.now }
{
    match bytes {
        [b'0'] => true,
        [b'1'..=b'9', digits @ ..] => are_digits(digits),
        _ => false,
    }
}

/// Whether the bytes are an `IntValue`.
pub fn is_int(bytes: &[u8]) -> bool
    ensures { result ≡ is_int bytes.now }
{
    match bytes {
        [b'-', natural @ ..] => is_natural(natural),
        _ => is_natural(bytes),
    }
}

/// A `FractionalPart`.
fn is_fraction(bytes: &[u8]) -> bool
    ensures { result ≡ is_fraction bytes.now }
{
    match bytes {
        [b'.', digits @ ..] => is_digits(digits),
        _ => false,
    }
}

/// An `ExponentPart`.
fn is_exponent(bytes: &[u8]) -> bool
    ensures { result ≡ is_exponent bytes.now }
{
    match bytes {
        [b'e' | b'E', b'+' | b'-', digits @ ..] => is_digits(digits),
        [b'e' | b'E', digits @ ..] => is_digits(digits),
        _ => false,
    }
}

fn is_exponent_indicator(byte: u8) -> bool
    ensures { result ≡ is_exponent_indicator byte }
{
    byte == b'e' || byte == b'E'
}

fn begins_float_part(byte: u8) -> bool
    ensures { result ≡ begins_float_part byte }
{
    byte == b'.' || is_exponent_indicator(byte)
}

fn first_exponent_indicator(bytes: &[u8]) -> Option<usize>
    ensures { result ≡ position_from is_exponent_indicator 0 bytes.now }
{
    bytes.iter().position(|byte| is_exponent_indicator(*byte))
}

/// The index of the first byte that begins an `ExponentPart`, or the length.
fn exponent_index(bytes: &[u8]) -> usize
    ensures index { result ≡ position_or_len is_exponent_indicator bytes.now }
    ensures within { result ≤ length bytes.now }
{
    first_exponent_indicator(bytes).unwrap_or(bytes.len())
}

fn first_float_mark(bytes: &[u8]) -> Option<usize>
    ensures { result ≡ position_from begins_float_part 0 bytes.now }
{
    bytes.iter().position(|byte| begins_float_part(*byte))
}

/// The index of the first byte that begins a `FractionalPart` or an `ExponentPart`, or the length.
fn float_part_index(bytes: &[u8]) -> usize
    ensures index { result ≡ position_or_len begins_float_part bytes.now }
    ensures within { result ≤ length bytes.now }
{
    first_float_mark(bytes).unwrap_or(bytes.len())
}

/// A `FractionalPart`, an `ExponentPart` or both.
fn is_float_part(bytes: &[u8]) -> bool
    ensures { result ≡ is_float_part bytes.now }
{
    let (fraction, exponent) = bytes.split_at(exponent_index(bytes));
    is_fraction(bytes) || is_exponent(bytes) || is_fraction(fraction) && is_exponent(exponent)
}

/// Whether the bytes are a `FloatValue`.
pub fn is_float(bytes: &[u8]) -> bool
    ensures { result ≡ is_float bytes.now }
{
    let (integer, part) = bytes.split_at(float_part_index(bytes));
    is_int(integer) && is_float_part(part)
}
