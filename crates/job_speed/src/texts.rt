//! Names and descriptions.

use crate::numbers::Numbers;
use std::alloc::{AllocError, Global};

/// The name of a field or an argument, as `first` or `orderStatus`.
fn push_field_name(text: &mut String, numbers: &mut Numbers) -> Result<(), AllocError> {
    text.push_str(numbers.word())?;
    if numbers.below(5) > 1 {
        text.push_str(numbers.capital_word())?;
    }
    if numbers.once_in(5) {
        text.push_str(numbers.capital_word())?;
    }
    Ok(())
}

/// The name of a type, as `Order` or `ProductReviewConnection`.
fn push_type_name(text: &mut String, numbers: &mut Numbers) -> Result<(), AllocError> {
    text.push_str(numbers.capital_word())?;
    if numbers.below(4) > 0 {
        text.push_str(numbers.capital_word())?;
    }
    if numbers.once_in(3) {
        text.push_str(numbers.capital_word())?;
    }
    Ok(())
}

/// The name of an enum value, as `NAME_STATUS`.
fn push_value_name(text: &mut String, numbers: &mut Numbers) -> Result<(), AllocError> {
    for character in numbers.word().chars() {
        text.push(character.to_ascii_uppercase())?;
    }
    text.push_str("_")?;
    for character in numbers.capital_word().chars() {
        text.push(character.to_ascii_uppercase())?;
    }
    Ok(())
}

/// What a name is of.
#[derive(Clone, Copy)]
pub enum NameOf {
    Field,
    Type,
    EnumValue,
}

fn push_name(text: &mut String, numbers: &mut Numbers, of: NameOf) -> Result<(), AllocError> {
    match of {
        NameOf::Field => push_field_name(text, numbers),
        NameOf::Type => push_type_name(text, numbers),
        NameOf::EnumValue => push_value_name(text, numbers),
    }
}

/// Texts to pick from, so that an input of a job takes little time to make.
#[derive(Drop)]
struct Pool {
    texts: Vec<String>,
}

impl Pool {
    fn pick(&self, numbers: &mut Numbers) -> &str {
        let index = numbers.below(self.texts.len());
        match self.texts.get(index) {
            Some(text) => text.as_str(),
            None => "id",
        }
    }
}

/// How many texts there are to pick from.
const COUNT: usize = 600;

fn names(alloc: Global, numbers: &mut Numbers, of: NameOf) -> Result<Pool, AllocError> {
    let mut texts = Vec::new(alloc);
    for _ in 0..COUNT {
        let mut text = String::new(alloc);
        push_name(&mut text, numbers, of)?;
        texts.push(text)?;
    }
    Ok(Pool { texts })
}

/// Descriptions, in which a quote and the end of a line are told so.
fn descriptions(
    alloc: Global,
    numbers: &mut Numbers,
    quote: &str,
    line: &str,
) -> Result<Pool, AllocError> {
    let mut texts = Vec::new(alloc);
    for _ in 0..COUNT {
        let mut text = String::new(alloc);
        let words = description_length(numbers);
        push_words(&mut text, numbers, words, quote, line)?;
        texts.push(text)?;
    }
    Ok(Pool { texts })
}

/// The names and descriptions of the inputs of a job.
#[derive(Drop)]
pub struct Texts {
    fields: Pool,
    types: Pool,
    enum_values: Pool,
    descriptions: Pool,
}

impl Texts {
    fn new(alloc: Global, seed: u64, quote: &str, line: &str) -> Result<Texts, AllocError> {
        let mut numbers = Numbers::new(seed);
        Ok(Texts {
            fields: names(alloc, &mut numbers, NameOf::Field)?,
            types: names(alloc, &mut numbers, NameOf::Type)?,
            enum_values: names(alloc, &mut numbers, NameOf::EnumValue)?,
            descriptions: descriptions(alloc, &mut numbers, quote, line)?,
        })
    }

    /// Those of trees.
    pub fn plain(alloc: Global, seed: u64) -> Result<Texts, AllocError> {
        Texts::new(alloc, seed, "\"", "\n")
    }

    /// Those that stand in JSON.
    pub fn escaped(alloc: Global, seed: u64) -> Result<Texts, AllocError> {
        Texts::new(alloc, seed, "\\\"", "\\n")
    }

    pub fn name(&self, numbers: &mut Numbers, of: NameOf) -> &str {
        match of {
            NameOf::Field => self.fields.pick(numbers),
            NameOf::Type => self.types.pick(numbers),
            NameOf::EnumValue => self.enum_values.pick(numbers),
        }
    }

    pub fn description(&self, numbers: &mut Numbers) -> &str {
        self.descriptions.pick(numbers)
    }
}

/// So many words. What stands before a word is a space, and once in a while a line break or something else, as `quote`
/// and `line` tell it.
fn push_words(
    text: &mut String,
    numbers: &mut Numbers,
    words: usize,
    quote: &str,
    line: &str,
) -> Result<(), AllocError> {
    text.push_str("The")?;
    for _ in 0..words {
        match numbers.below(40) {
            0 => text.push_str(", é ")?,
            1 => {
                text.push_str(" ")?;
                text.push_str(quote)?;
                text.push_str(numbers.word())?;
                text.push_str(quote)?;
                text.push_str(" ")?;
            }
            2 if words > 12 => text.push_str(line)?,
            _ => text.push_str(" ")?,
        }
        text.push_str(numbers.word())?;
    }
    text.push_str(".")
}

/// How many words a description has: a few as a rule, sometimes many.
fn description_length(numbers: &mut Numbers) -> usize {
    if numbers.once_in(5) {
        numbers.below(40).wrapping_add(12)
    } else {
        numbers.below(9).wrapping_add(3)
    }
}

/// A text of JSON of which every second character is escaped.
pub fn push_escapes(
    text: &mut String,
    numbers: &mut Numbers,
    count: usize,
) -> Result<(), AllocError> {
    for _ in 0..count {
        text.push_str(match numbers.below(4) {
            0 => "a\\\"",
            1 => "b\\u00e9",
            2 => "c\\n",
            _ => "d\\\\",
        })?;
    }
    Ok(())
}
