//! Numbers of JSON that is kept as it was parsed: texts.
ghost use Rattle.std.specs.Prelude.{◌≡◌, IfSome, Some, false, option_and_then, option_map, true};
ghost use Rattle.serde_json.specs.Data.{unsigned};
ghost use Rattle.fast_float.specs.Text.{scan};
ghost use Rattle.serde_json.specs.Find.{as_u64};
ghost use Rattle.serde_json.specs.Read.{number_from, number_of};
ghost use Rattle.serde_json.specs.View.{number_view};

use fast_float::Numeral;
use serde_json::Number;

/// How many digits write a number that 64 bits hold, whichever they are.
const DIGITS: usize = 19;

/// The number that so few digits write, if the text has nothing else: the form of most numbers, read in one pass.
fn few_digits(text: &[u8]) -> Option<u64>
    ensures { IfSome result (λ n. number_of text.now ≡ Some (unsigned n)) }
{
    if text.is_empty() || text.len() > DIGITS {
        return None;
    }
    let mut number = 0u64;
    for byte in text {
        if !byte.is_ascii_digit() {
            return None;
        }
        number = number * 10 + (*byte - b'0') as u64;
    }
    Some(number)
}

/// The number that these digits stand for behind a minus sign: an integer below 0 that 64 bits hold, or else the nearest
/// float, if that is finite.
fn number_below_zero(digits: &[u8]) -> Option<Number>
    ensures { option_map number_view result ≡ number_from true (scan digits.now) }
{
    let numeral = Numeral::scan(digits);
    match numeral.to_i64(true) {
        Some(integer) if integer < 0 => Some(Number::from(integer)),
        _ => Number::from_f64(numeral.to_float::<f64>(true)),
    }
}

/// The same of digits without a sign.
fn number_from_zero(digits: &[u8]) -> Option<Number>
    ensures { option_map number_view result ≡ number_from false (scan digits.now) }
{
    let numeral = Numeral::scan(digits);
    match numeral.to_u64() {
        Some(integer) => Some(Number::from(integer)),
        None => Number::from_f64(numeral.to_float::<f64>(false)),
    }
}

/// The number of a text that stands for one, or `None` where it is too large for a float.
#[tactic(auto, unfolding(serde_json::specs::Read::number_of))]
pub(crate) fn number_of(text: &str) -> Option<Number>
    ensures { option_map number_view result ≡ number_of text.now }
{
    if let Some(number) = few_digits(text.as_bytes()) {
        return Some(Number::from(number));
    }
    match text.as_bytes() {
        [b'-', digits @ ..] => number_below_zero(digits),
        digits => number_from_zero(digits),
    }
}

/// The same, if it is an integer from 0 on that 64 bits hold. No number is converted to a float for that.
#[tactic(auto, unfolding(serde_json::specs::Read::number_of))]
pub(crate) fn unsigned_number(text: &str) -> Option<u64>
    ensures { result ≡ option_and_then as_u64 (number_of text.now) }
{
    if let Some(number) = few_digits(text.as_bytes()) {
        return Some(number);
    }
    match text.as_bytes() {
        [b'-', ..] => None,
        digits => Numeral::scan(digits).to_u64(),
    }
}
