//! Numbers of JSON.
ghost use Rattle.std.specs.Prelude.{◌≡◌, decimal};

use graphql_text::writers::Target;

/// Writes a number in decimal.
pub fn write_number<O: Target>(out: &mut O, number: u32)
    ensures { O.wrote out.old (decimal number) out.new }
{
    let mut buffer = itoa::Buffer::new();
    out.text(buffer.format(number));
}
