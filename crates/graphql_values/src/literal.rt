//! Numbers as they are written: IntValue and FloatValue of the GraphQL specification.
ghost use Rattle.std.specs.Prelude.{◌≡◌, ◌≤◌, ◌↔◌, false, FitsSigned, IfErr, IfOk, IfSome, IsOk, IsSome, IsTrue, OnOk, Some, length};
ghost use Rattle.std.specs.Fmt.{signed_decimal};
ghost use Rattle.std.specs.Int.{w32, w64};
ghost use Rattle.std.specs.Result.{OkIff};
ghost use Rattle.graphql_base.specs.ShortTexts.{short_bytes};
ghost use Rattle.graphql_text.specs.lexical.Literals.{is_float, is_int};

use crate::number_syntax::{is_float, is_int};
use crate::numeral::{Numeral, ROOM};
use graphql_base::short_text::ShortText;
use std::alloc::{AllocError, Global};
use std::fmt::{self, Debug, Display, Formatter, Write};
use std::num::ParseIntError;
use thiserror::Error;

/// Why a constructor of `IntValue` or `FloatValue` returned no number.
///
/// ```
/// if let Err(error) = IntValue::new(alloc, "012") {
///     println!(rt; "{error}")?; // `012` is not a valid GraphQL number
/// }
/// ```
#[derive(Clone, Debug, Drop, PartialEq, Eq, Error)]
pub enum LiteralError {
    /// The text, which isn't in the syntax of the literal.
    #[error("`{0}` is not a valid GraphQL number")]
    Invalid(String),
    /// Memory was refused, for the literal or for the text of an error.
    #[error("out of memory")]
    Memory,
}

impl LiteralError {
    ghost use Rattle.graphql_values.specs.code.LiteralErrors.{IsRefusalOf};

    /// The refusal of a text, which it holds where memory suffices.
    fn invalid(alloc: Global, text: &str) -> LiteralError
        ensures { IsRefusalOf false text.now result }
    {
        match String::from_str(alloc, text) {
            Ok(text) => LiteralError::Invalid(text),
            Err(_) => LiteralError::Memory,
        }
    }

    /// Whether memory was refused.
    ///
    /// ```
    /// LiteralError::Memory.is_memory() // true
    /// ```
    pub fn is_memory(&self) -> bool
        ensures { IsTrue result ↔ (self.now ≡ LiteralError.Memory) }
    {
        matches!(self, Self::Memory)
    }
}

/// The text of an integer (`IntValue`, section 2.9.1).
///
/// It may be too great for any integer type. Equality and hash are those of the text: `0` and `-0` differ. A text of at
/// most 30 bytes takes no memory.
///
/// ```
/// let int = IntValue::new(alloc, "-12")?;
/// int.try_to_i32() // Ok(-12)
/// Value::Int(int)  // the value -12
/// ```
#[derive_where(PartialEq, Eq, Hash)]
#[derive(Debug, Drop)]
pub struct IntValue {
    numeral: Numeral,
    pub ghost valid: { IsTrue (is_int numeral) },
}

impl IntValue {
    ghost use Rattle.graphql_values.specs.code.LiteralErrors.{IsRefusalOf};
    ghost use Rattle.graphql_values.specs.trees.Literals.{int_text, int_number};
    ghost use Rattle.graphql_values.specs.declared.literal.TheConstants.IntValue.{IN_PLACE};
    ghost use Rattle.graphql_values.specs.declared.numeral.TheConstants.{ROOM};

    /// The most bytes of a text that stands in the int itself.
    pub const IN_PLACE: usize = ROOM;

    /// Whether the text is an `IntValue`: `0` or digits that don't begin with `0`, after a `-` or not.
    pub fn valid_syntax(text: &str) -> bool
        ensures { result ≡ is_int text.now }
    {
        is_int(text.as_bytes())
    }

    /// The integer with this text. A text in the syntax of at most `IN_PLACE` bytes always gives an integer, and takes
    /// no memory.
    ///
    /// `LiteralError::Invalid` for a text outside the syntax, and for no other: it holds the text.
    /// `LiteralError::Memory` where memory is refused.
    ///
    /// ```
    /// IntValue::new(alloc, "-12") // an integer
    /// IntValue::new(alloc, "012") // LiteralError::Invalid
    /// ```
    pub fn new(alloc: Global, text: &str) -> Result<IntValue, LiteralError>
        ensures syntax { OnOk result (IsTrue (is_int text.now)) }
        ensures ok { IfOk result (λ int. int_text int ≡ text.now) }
        ensures err { IfErr result (IsRefusalOf (is_int text.now) text.now) }
        ensures short { length text.now ≤ IN_PLACE → IsTrue (is_int text.now) → IsOk result }
    {
        if !IntValue::valid_syntax(text) {
            return Err(LiteralError::invalid(alloc, text));
        }
        IntValue::new_parsed(alloc, text).map_err(|_| LiteralError::Memory)
    }

    /// The integer with this text. `AllocError` where memory is refused, which is only for a text of more than
    /// `IN_PLACE` bytes.
    ///
    /// Condition: the text is in the syntax of an `IntValue`.
    ///
    /// ```
    /// IntValue::new_parsed(alloc, "0")? // 0
    /// ```
    pub fn new_parsed(alloc: Global, text: &str) -> Result<IntValue, AllocError>
        requires { IsTrue (is_int text.now) }
        ensures text { IfOk result (λ int. int_text int ≡ text.now) }
        ensures short { length text.now ≤ IN_PLACE → IsOk result }
    {
        Ok(IntValue {
            numeral: Numeral::new(alloc, text)?,
        })
    }

    /// The integer of a number: its decimal digits, after a `-` where it is negative. It takes no memory, and is never
    /// an error.
    ///
    /// ```
    /// IntValue::from_i32(alloc, -7)?.as_str() // "-7"
    /// ```
    pub fn from_i32(alloc: Global, number: i32) -> Result<IntValue, AllocError>
        ensures text { IfOk result (λ int. int_text int ≡ signed_decimal number) }
        ensures number { IfOk result (λ int. int_number int ≡ number) }
        ensures ok { IsOk result }
    {
        IntValue::from_i64(alloc, number as i64)
    }

    /// The integer of a number of 64 bits: its decimal digits, after a `-` where it is negative. It takes no memory,
    /// and is never an error.
    ///
    /// ```
    /// IntValue::from_i64(alloc, -3000000000)?.as_str() // "-3000000000"
    /// ```
    pub fn from_i64(alloc: Global, number: i64) -> Result<IntValue, AllocError>
        ensures text { IfOk result (λ int. int_text int ≡ signed_decimal number) }
        ensures number { IfOk result (λ int. int_number int ≡ number) }
        ensures ok { IsOk result }
    {
        let mut buffer = itoa::Buffer::new();
        Ok(IntValue {
            numeral: Numeral::new(alloc, buffer.format(number))?,
        })
    }

    /// The number that the text writes in base ten, or an error exactly where that is outside `i32`.
    pub fn try_to_i32(&self) -> Result<i32, ParseIntError>
        ensures { OkIff result (FitsSigned w32 (int_number self.now)) (int_number self.now) }
    {
        self.as_str().parse::<i32>()
    }

    /// The number that the text writes in base ten, or an error exactly where that is outside `i64`.
    ///
    /// ```
    /// IntValue::new(alloc, "3000000000")?.try_to_i64() // Ok(3000000000)
    /// ```
    pub fn try_to_i64(&self) -> Result<i64, ParseIntError>
        ensures { OkIff result (FitsSigned w64 (int_number self.now)) (int_number self.now) }
    {
        self.as_str().parse::<i64>()
    }

    /// The text.
    pub fn as_str(&self) -> &str
        ensures text { result.now ≡ int_text self.now }
        ensures syntax { IsTrue (is_int result.now) }
    {
        self.numeral.as_str()
    }

    /// The text, exactly if it stands in the int itself: for the writer, which can copy it as it lies there.
    #[inline(always)]
    pub(crate) fn short_text(&self) -> Option<&ShortText<ROOM>>
        ensures some { IsSome result ↔ (length (int_text self.now) ≤ ROOM) }
        ensures text { IfSome result (λ text. short_bytes text.now ≡ int_text self.now) }
        ensures syntax { IfSome result (λ text. IsTrue (is_int (short_bytes text.now))) }
    {
        self.numeral.short_text()
    }
}

impl Clone for IntValue {
    ghost is_clone = { λ int copy. copy ≡ int };

    fn clone(&self) -> Result<IntValue, AllocError> {
        Ok(IntValue {
            numeral: self.numeral.clone()?,
        })
    }
}

impl Display for IntValue {
    ghost use Rattle.graphql_values.specs.trees.Literals.{int_text};

    ghost output = { λ int. Some (int_text int) };

    fn fmt<W: Write>(&self, f: &mut Formatter<W>) -> fmt::Result {
        f.pad(self.numeral.as_str())
    }
}

/// The text of a number with a fraction, an exponent or both (`FloatValue`, section 2.9.2).
///
/// Equality and hash are those of the text: `1.5` and `1.50` differ. A text of at most 30 bytes takes no memory.
///
/// ```
/// let float = FloatValue::new(alloc, "1.50")?;
/// float.as_str()      // "1.50"
/// Value::Float(float) // the value 1.50
/// ```
#[derive_where(PartialEq, Eq, Hash)]
#[derive(Debug, Drop)]
pub struct FloatValue {
    text: Numeral,
    pub ghost valid: { IsTrue (is_float text) },
}

impl FloatValue {
    ghost use Rattle.graphql_values.specs.code.LiteralErrors.{IsRefusalOf};
    ghost use Rattle.graphql_values.specs.trees.Literals.{float_text};
    ghost use Rattle.graphql_values.specs.declared.literal.TheConstants.FloatValue.{IN_PLACE};
    ghost use Rattle.graphql_values.specs.declared.numeral.TheConstants.{ROOM};

    /// The most bytes of a text that stands in the float itself.
    pub const IN_PLACE: usize = ROOM;

    /// Whether the text is a `FloatValue`: an integer part, and a fraction, an exponent or both.
    ///
    /// `1.5`, `1e5` and `-0.5E-3` are; `1`, `1.`, `1e` and `+1.5` aren't.
    pub fn valid_syntax(text: &str) -> bool
        ensures { result ≡ is_float text.now }
    {
        is_float(text.as_bytes())
    }

    /// The float with this text. A text in the syntax of at most `IN_PLACE` bytes always gives a float, and takes no
    /// memory.
    ///
    /// `LiteralError::Invalid` for a text outside the syntax, and for no other: it holds the text.
    /// `LiteralError::Memory` where memory is refused.
    ///
    /// ```
    /// FloatValue::new(alloc, "1.50") // a float
    /// FloatValue::new(alloc, "1")    // LiteralError::Invalid
    /// ```
    pub fn new(alloc: Global, text: &str) -> Result<FloatValue, LiteralError>
        ensures syntax { OnOk result (IsTrue (is_float text.now)) }
        ensures ok { IfOk result (λ float. float_text float ≡ text.now) }
        ensures err { IfErr result (IsRefusalOf (is_float text.now) text.now) }
        ensures short { length text.now ≤ IN_PLACE → IsTrue (is_float text.now) → IsOk result }
    {
        if !FloatValue::valid_syntax(text) {
            return Err(LiteralError::invalid(alloc, text));
        }
        FloatValue::new_parsed(alloc, text).map_err(|_| LiteralError::Memory)
    }

    /// The float with this text. `AllocError` where memory is refused, which is only for a text of more than
    /// `IN_PLACE` bytes.
    ///
    /// Condition: the text is in the syntax of a `FloatValue`.
    ///
    /// ```
    /// FloatValue::new_parsed(alloc, "1.5")? // 1.5
    /// ```
    pub fn new_parsed(alloc: Global, text: &str) -> Result<FloatValue, AllocError>
        requires { IsTrue (is_float text.now) }
        ensures text { IfOk result (λ float. float_text float ≡ text.now) }
        ensures short { length text.now ≤ IN_PLACE → IsOk result }
    {
        Ok(FloatValue {
            text: Numeral::new(alloc, text)?,
        })
    }

    /// The text.
    pub fn as_str(&self) -> &str
        ensures text { result.now ≡ float_text self.now }
        ensures syntax { IsTrue (is_float result.now) }
    {
        self.text.as_str()
    }

    /// The text, exactly if it stands in the float itself: for the writer, which can copy it as it lies there.
    #[inline(always)]
    pub(crate) fn short_text(&self) -> Option<&ShortText<ROOM>>
        ensures some { IsSome result ↔ (length (float_text self.now) ≤ ROOM) }
        ensures text { IfSome result (λ text. short_bytes text.now ≡ float_text self.now) }
        ensures syntax { IfSome result (λ text. IsTrue (is_float (short_bytes text.now))) }
    {
        self.text.short_text()
    }
}

impl Clone for FloatValue {
    ghost is_clone = { λ float copy. copy ≡ float };

    fn clone(&self) -> Result<FloatValue, AllocError> {
        Ok(FloatValue {
            text: self.text.clone()?,
        })
    }
}

impl Display for FloatValue {
    ghost use Rattle.graphql_values.specs.trees.Literals.{float_text};

    ghost output = { λ float. Some (float_text float) };

    fn fmt<W: Write>(&self, f: &mut Formatter<W>) -> fmt::Result {
        f.pad(self.text.as_str())
    }
}
