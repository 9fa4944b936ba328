//! Commas of JSON.
ghost use Rattle.serde_json.specs.Written.{comma_if};

use graphql_text::writers::Target;

/// Writes a comma, if something stands before.
#[inline(always)]
pub fn write_comma<O: Target>(out: &mut O, is_behind: bool)
    ensures { O.wrote out.old (comma_if is_behind) out.new }
{
    if is_behind {
        out.text(",");
    }
}
