//! A buffer of the caller's that a print goes to.
ghost use Rattle.std.specs.Prelude.{◌≡◌, ◌↔◌, ◌<◌, ◌-◌, ◌^◌, IfOk, IsErrOf, OnErr, length};
ghost use Rattle.std.proofs.Common.{refl, ◌∙◌};
ghost use Rattle.graphql_text.specs.code.Place.{mode_of};
ghost use Rattle.graphql_text.specs.layout.Levels.{Overflows};
ghost use Rattle.graphql_ast_calls.specs.Answers.{layout_bytes};
ghost use Rattle.graphql_ast_calls.specs.Buffers.{WentTo};
ghost use Rattle.graphql_ast_calls.specs.lemmas.Buffers.{went_nothing, went_idle, went_more};

use graphql_text::engine::{PrintError, Syntax};
use graphql_text::writers::{Place, Start, Target};

/// A buffer that text is written into, and a count of its bytes, which goes on where the text doesn't fit.
#[derive(Drop)]
pub(crate) struct ToBuffer<'a> {
    pub out: &'a mut [u8],
    pub needed: usize,
    ghost room: { length out.now < 2 ^ 63 },
    ghost counted: { needed < 2 ^ 64 },
}

impl<'a> Target for ToBuffer<'a> {
    ghost wrote = { λ a bytes b. (b.out.ghost_name ≡ a.out.ghost_name)
        × WentTo a.out.now a.needed bytes b.out.now b.needed };

    ghost stopped = { λ a. a.needed ≡ 2 ^ 64 - 1 };

    ghost nothing = { λ a. (refl, went_nothing a.out.now a.needed a.counted) };

    ghost idle = { λ a bytes h. (refl, went_idle a.out.now a.needed bytes a.room h) };

    ghost more = { λ a b c x y h k. (
      k.0 ∙ h.0,
      went_more a.out.now b.out.now c.out.now a.needed b.needed c.needed x y h.1 k.1,
    ) };

    fn text(&mut self, text: &str) {
        let start = self.needed;
        self.needed = start.saturating_add(text.len());
        if self.needed <= self.out.len() {
            self.out[start..self.needed].copy_from_slice(text.as_bytes());
        }
    }

    fn is_stopped(&self) -> bool {
        self.needed == usize::MAX
    }
}

/// Prints a tree into a buffer, and counts the bytes.
pub(crate) fn print_tree<T: Syntax>(
    tree: &T,
    prefix: Option<&str>,
    level: usize,
    out: &mut [u8],
) -> Result<usize, PrintError>
    ensures went { IfOk result (λ count. WentTo out.old 0
        (layout_bytes T.kind (mode_of prefix.entry) level (T.tree tree.now)) out.new count) }
    ensures room { length out.old < 2 ^ 63 }
    ensures kept { OnErr result (out.new ≡ out.old) }
    ensures overflow { IsErrOf result PrintError.LevelOverflow
        ↔ Overflows level (T.kind.nesting (T.tree tree.now)) }
{
    let depths = match tree.find_depths() {
        Some(depths) if depths.nesting <= usize::MAX - level => depths,
        _ => return Err(PrintError::LevelOverflow),
    };
    let start = Start {
        place: Place::new(prefix, level),
        depths,
    };
    let mut target = ToBuffer { out, needed: 0 };
    if tree.write(&mut target, &start).is_err() {
        return Err(PrintError::Memory);
    }
    Ok(target.needed)
}
