//! Kinds of trees that are printed, and their prints.
ghost use Rattle.std.specs.Prelude.{◌≡◌, ℕ, ◌↔◌, [], true, false, List, Bool, Option, Some, None, codes, IfOk, OnOk, OnErr, IsOk, IsErrOf, IsTrue, MatchOption, string_bytes, encode_utf8_all, chars};
ghost use Rattle.graphql_text.specs.code.Buffer.{waiting_bytes};
ghost use Rattle.graphql_text.specs.code.IllFormed.{IsFirstFlaw};
ghost use Rattle.graphql_text.specs.grammar.Forms.{TokenClass};
ghost use Rattle.graphql_text.specs.kinds.Kinds.{Kind};
ghost use Rattle.graphql_text.specs.layout.Layout.{IsBlankMode};
ghost use Rattle.graphql_text.specs.layout.Levels.{AreDepths, HasDepths};
ghost use Rattle.graphql_text.specs.kinds.Reading.{Laws};
ghost use Rattle.graphql_text.specs.code.Sinks.{CanFault, SinkTook, SinkFaulted};
ghost use Rattle.graphql_text.specs.code.Writing.{WritesTree, bytes_from};

use crate::buffer::Buffer;
use crate::depths::Depths;
use crate::ill_formed::IllFormed;
use crate::place::{Place, Start};
use crate::sink::TextSink;
use crate::target::{Target, ToFormatter, ToSink, ToText, finish, into_text};
pub use crate::text::{WriteText, send_text, text_of};
use std::alloc::{AllocError, Global};
use std::fmt;
use std::hash::Hash;
use thiserror::Error;

/// A type whose values are trees of a kind (`specs/kinds/Kinds.antt`): what is known of them before they are printed.
///
/// ```
/// fn nesting<T: SyntaxTree>(tree: &T) -> Option<usize> {
///     Some(tree.find_depths()?.nesting) // 2 for [1, [2]]
/// }
/// ```
pub trait SyntaxTree {
    /// The kind: its grammar, side conditions, layout and nesting depth.
    ghost kind: { Kind };

    /// The tree without locations. Two values that are equal have the same one.
    ghost tree: { Self → kind.Tree };

    /// The proof that what the kind says fits together.
    ghost laws: { Laws kind };

    /// How many lists are around the name in the type that has most of them: 0 in a tree without types. The stack of
    /// types needs so much room.
    ghost list_depth: { kind.Tree → ℕ };

    /// Where the tree isn't well formed: the first of its flaws in the order of print. `None` exactly if it obeys the
    /// side conditions of its kind. It takes no memory.
    fn find_ill_formed(&self) -> Option<IllFormed<'_>>
        ensures { IsFirstFlaw (kind.flaws (tree self.now)) result };

    /// Whether the tree obeys the side conditions of its kind: then what is printed of it can be read. It takes no
    /// memory.
    fn is_well_formed(&self) -> bool
        ensures { result ≡ kind.obeys (tree self.now) }
    {
        self.find_ill_formed().is_none()
    }

    /// The nesting depth of the tree's groups, and the list depth of its types. `None` if the nesting depth is above
    /// `usize::MAX`.
    fn find_depths(&self) -> Option<Depths>
        ensures { AreDepths result (kind.nesting (tree self.now)) (list_depth (tree self.now)) };
}

/// A type whose trees are printed, and read back as themselves alone.
///
/// `Serialize` prints them.
///
/// ```
/// fn one_line<T: Syntax>(alloc: Global, tree: &T) -> Result<String, PrintError> {
///     Serialize::new(tree).no_indent().to_text(alloc)
/// }
/// ```
pub trait Syntax: SyntaxTree {
    /// Writes the whole layout of the tree. Memory for its stacks is asked for before the first byte: `AllocError`
    /// where it is refused, with nothing written.
    fn write<O: Target>(&self, out: &mut O, start: &Start<'_>) -> Result<(), AllocError>
    where
        Self: Sized,
        requires { HasDepths start.now.depths (Self.kind.nesting (Self.tree self.now))
            (Self.list_depth (Self.tree self.now)) }
        ensures ok { OnOk result
            (WritesTree O.wrote out.old out.new start.now.place Self.kind (Self.tree self.now)) }
        ensures err { OnErr result (out.new ≡ out.old) }
        ensures free { start.now.depths.nesting ≡ 0 →
            Self.list_depth (Self.tree self.now) ≡ 0 → IsOk result };
}

/// A type whose trees are printed, displayed, compared and hashed: each that has these traits.
///
/// ```
/// fn are_equal<T: Printed>(first: &T, second: &T) -> bool {
///     first == second // whatever their source locations are
/// }
/// ```
pub trait Printed: SyntaxTree + fmt::Display + PartialEq + Hash {
    /// All that `IsPrintedKind` says of the type: the kind, its trees and the lists around its types, what may not
    /// follow a tree among tokens, and what may not follow one that was printed.
    ghost has_kind: { (kind : Kind) → (Self → kind.Tree) → (kind.Tree → ℕ) →
        List TokenClass → List TokenClass → Type 0 };
}

impl<T: SyntaxTree + fmt::Display + PartialEq + Hash> Printed for T {
    ghost use Rattle.graphql_text.specs.kinds.PrintedKinds.{IsPrintedKind};

    ghost has_kind = { IsPrintedKind T.kind T.tree T.list_depth T.output T.eq T.hash_input };
}

/// Why a tree was not printed, or not to its end.
///
/// ```
/// let list = value!(in alloc; [1])?; // a nesting depth of 1
/// list.serialize().initial_indent_level(usize::MAX).to_text(alloc) // Err(PrintError::LevelOverflow)
/// ```
#[derive(Clone, Copy, Debug, PartialEq, Eq, Error)]
pub enum PrintError {
    /// The starting level and the nesting of the tree don't fit into a `usize` together. Nothing was written.
    #[error("indentation level overflow")]
    LevelOverflow,
    /// Memory was refused. Nothing was written.
    #[error("out of memory")]
    Memory,
    /// The sink faulted. It has taken a beginning of the bytes, and not all of them.
    #[error("the writer failed")]
    Sink,
}

impl PrintError {
    /// Whether memory was refused.
    pub fn is_memory(self) -> bool
        ensures { IsTrue result ↔ (self ≡ PrintError.Memory) }
    {
        matches!(self, Self::Memory)
    }
}

/// A tree, and the layout that it is printed in.
///
/// `Display` prints the same text. It returns `fmt::Error` where the level overflows or memory for a stack is refused,
/// with nothing written, and where the formatter fails.
///
/// ```
/// let list = value!(in alloc; [1, 2])?;
/// println!(rt; "{}", list.serialize().no_indent())?;   // [1, 2]
/// list.serialize().indent_prefix("\t").to_text(alloc)? // "[\n\t1,\n\t2,\n]"
/// ```
#[derive_where(Clone, Copy)]
pub struct Serialize<'a, T> {
    tree: &'a T,
    prefix: Option<&'a str>,
    level: usize,
}

impl<'a, T> Serialize<'a, T> {
    ghost use Rattle.graphql_text.specs.kinds.Printing.{IsDefaultPrint, print_tree, print_mode, print_level};

    /// The tree in the default layout: a prefix of two spaces, from level 0.
    ///
    /// ```
    /// Serialize::new(&list).to_text(alloc)? // "[\n  1,\n  2,\n]", as by list.serialize()
    /// ```
    pub fn new(tree: &'a T) -> Serialize<'a, T>
        ensures { IsDefaultPrint tree.now result }
    {
        Serialize {
            tree,
            prefix: Some("  "),
            level: 0,
        }
    }

    /// Over several lines. Each that isn't empty begins with the prefix as often as its level.
    pub fn indent_prefix(self, prefix: &'a str) -> Serialize<'a, T>
        ensures tree { print_tree result ≡ print_tree self.entry }
        ensures mode { print_mode result ≡ Some (chars prefix.now) }
        ensures level { print_level result ≡ print_level self.entry }
    {
        Serialize {
            prefix: Some(prefix),
            ..self
        }
    }

    /// On one line.
    pub fn no_indent(self) -> Serialize<'a, T>
        ensures tree { print_tree result ≡ print_tree self.entry }
        ensures mode { print_mode result ≡ None }
        ensures level { print_level result ≡ print_level self.entry }
    {
        Serialize {
            prefix: None,
            ..self
        }
    }

    /// From this level on: under a prefix the first line begins with the prefix so often.
    pub fn initial_indent_level(self, level: usize) -> Serialize<'a, T>
        ensures tree { print_tree result ≡ print_tree self.entry }
        ensures mode { print_mode result ≡ print_mode self.entry }
        ensures level { print_level result ≡ level }
    {
        Serialize { level, ..self }
    }
}

/// Sends the whole layout of a tree to a sink.
fn send_layout<T: Syntax, S: TextSink>(
    tree: &T,
    out: &mut ToSink<'_, S>,
    start: &Start<'_>,
) -> Result<(), AllocError>
    requires depths { HasDepths start.now.depths (T.kind.nesting (T.tree tree.now))
        (T.list_depth (T.tree tree.now)) }
    requires faults { CanFault (S.fault_count out.old.sink.now) }
    requires fresh { out.old.stopped ≡ false }
    requires empty { waiting_bytes out.old.buffer ≡ [] }
    ensures name { out.new.sink.ghost_name ≡ out.old.sink.ghost_name }
    ensures err { OnErr result (out.new.sink.now ≡ out.old.sink.now) }
    ensures free { start.now.depths.nesting ≡ 0 →
        T.list_depth (T.tree tree.now) ≡ 0 → IsOk result }
    ensures stopped { OnOk result (out.new.stopped ≡ true →
        SinkFaulted S.taken S.fault_count out.old.sink.now
        (bytes_from start.now.place T.kind (T.tree tree.now)) out.new.sink.now) }
    ensures printed { OnOk result (out.new.stopped ≡ false →
        SinkTook S.taken S.fault_count out.old.sink.now
        (bytes_from start.now.place T.kind (T.tree tree.now)) out.new.sink.now) }
{
    tree.write(out, start)?;
    finish(out);
    Ok(())
}

impl<'a, T: Syntax> Serialize<'a, T> {
    ghost use Rattle.graphql_text.specs.kinds.Printing.{IsStart, PrintOverflows, print_tree, print_mode, print_level, print_bytes};
    ghost use Rattle.graphql_text.specs.kinds.Reading.{ReadsAlone};

    /// Where the print begins. `None` if the starting level and the nesting depth don't fit into a `usize` together.
    fn start(&self) -> Option<Start<'a>>
        ensures { MatchOption result (PrintOverflows T.kind T.tree self.now)
            (IsStart T.kind T.tree T.list_depth self.now) }
    {
        match self.tree.find_depths() {
            Some(depths) if depths.nesting <= usize::MAX - self.level => Some(Start {
                place: Place::new(self.prefix, self.level),
                depths,
            }),
            _ => None,
        }
    }

    /// Prints into a sink.
    ///
    /// `Ok`: the sink has taken exactly the bytes of the layout. `LevelOverflow` comes exactly where the starting
    /// level and the nesting don't fit together, before memory is asked for; `Memory` where the memory of a stack was
    /// refused, before the first byte; `Sink` at the sink's first fault, after a beginning of the bytes.
    ///
    /// Condition: `sink.faults()` is below `u64::MAX`.
    pub fn print_to<S: TextSink>(&self, sink: &mut S) -> Result<(), PrintError>
        requires { CanFault (S.fault_count sink.old) }
        ensures printed { OnOk result
            (SinkTook S.taken S.fault_count sink.old
            (print_bytes T.kind T.tree self.now) sink.new) }

        ensures overflow { IsErrOf result PrintError.LevelOverflow
            ↔ PrintOverflows T.kind T.tree self.now }
        ensures untouched { IsErrOf result PrintError.LevelOverflow → sink.new ≡ sink.old }
        ensures memory { IsErrOf result PrintError.Memory → sink.new ≡ sink.old }
        ensures free { T.kind.nesting (T.tree (print_tree self.now)) ≡ 0 →
            T.list_depth (T.tree (print_tree self.now)) ≡ 0 → IsErrOf result PrintError.Memory → ⊥ }
        ensures stopped { IsErrOf result PrintError.Sink →
            SinkFaulted S.taken S.fault_count sink.old
            (print_bytes T.kind T.tree self.now) sink.new }

        // What was printed of a well-formed tree is read as that tree, and as no other.
        ensures read { OnOk result
            (IsTrue (T.kind.obeys (T.tree (print_tree self.now))) →
            IsBlankMode (print_mode self.now) →
            ReadsAlone T.kind (print_bytes T.kind T.tree self.now) (T.tree (print_tree self.now))) }
    {
        let Some(start) = self.start() else {
            // before memory is asked for, and before the first byte
            return Err(PrintError::LevelOverflow);
        };
        let mut out = ToSink {
            sink,
            stopped: false,
            buffer: Buffer::new(),
        };
        if send_layout(self.tree, &mut out, &start).is_err() {
            return Err(PrintError::Memory);
        }
        if out.stopped {
            Err(PrintError::Sink)
        } else {
            Ok(())
        }
    }

    /// The text of the layout. `LevelOverflow` and `Memory` come as in `print_to`, and `Memory` also where the text
    /// itself cannot grow; it never returns `Sink`.
    pub fn to_text(&self, alloc: Global) -> Result<String, PrintError>
        ensures printed { IfOk result
            (λ text. string_bytes text ≡ print_bytes T.kind T.tree self.now) }

        ensures overflow { IsErrOf result PrintError.LevelOverflow
            ↔ PrintOverflows T.kind T.tree self.now }
        ensures sink { IsErrOf result PrintError.Sink → ⊥ }

        // What was printed of a well-formed tree is read as that tree, and as no other.
        ensures read { IfOk result (λ text.
            IsTrue (T.kind.obeys (T.tree (print_tree self.now))) →
            IsBlankMode (print_mode self.now) →
            ReadsAlone T.kind (string_bytes text) (T.tree (print_tree self.now))) }
    {
        let Some(start) = self.start() else {
            return Err(PrintError::LevelOverflow);
        };
        let mut out = ToText {
            text: String::new(alloc),
            failed: false,
            buffer: Buffer::new(),
        };
        if self.tree.write(&mut out, &start).is_err() {
            return Err(PrintError::Memory);
        }
        into_text(out).ok_or(PrintError::Memory)
    }
}

impl<'a, T: Syntax> fmt::Display for Serialize<'a, T> {
    ghost use Rattle.graphql_text.specs.kinds.Printing.{print_bytes};

    ghost output = { λ s. Some (print_bytes T.kind T.tree s) };

    fn fmt<W: fmt::Write>(&self, f: &mut fmt::Formatter<W>) -> fmt::Result {
        let Some(start) = self.start() else {
            return Err(fmt::Error);
        };
        let mut out = ToFormatter {
            formatter: f,
            failed: false,
        };
        if self.tree.write(&mut out, &start).is_err() {
            return Err(fmt::Error);
        }
        if out.failed { Err(fmt::Error) } else { Ok(()) }
    }
}
