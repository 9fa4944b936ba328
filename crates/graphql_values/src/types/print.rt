//! Types are printed: the loops that write a type, and its `Display`.
ghost use Rattle.std.specs.Prelude.{◌≡◌, None, Some, IsNone, OnOk, OnErr, encode_utf8_all};
ghost use Rattle.graphql_text.specs.kinds.Kinds.{layout_of};
ghost use Rattle.graphql_text.specs.layout.Levels.{capped};
ghost use Rattle.graphql_text.specs.code.Stack.{stack_entries, IsReady, IsKept};
ghost use Rattle.graphql_text.specs.code.Writing.{WritesAnywhere};
ghost use Rattle.graphql_values.specs.kinds.TypeReferences.{list_depth, type_kind, type_shape};
ghost use Rattle.graphql_values.specs.trees.TypeTrees.{type_tree};
ghost use Rattle.graphql_values.specs.code.TypeEnds.{end_items, ends_items};

use crate::types::Type;
use graphql_text::writers::{Stack, Target, ToFormatter, write_name, write_name_then, write_words};
use std::alloc::{AllocError, Global};
use std::fmt;

/// What waits on the stack while a type is written: the end of a list that is open.
#[derive(Clone, Copy)]
pub enum TypeEntry {
    /// `]`.
    EndOfList,
    /// `]!`.
    EndOfNonNullList,
}

/// How many lists stand around the name of a type, which is how many entries its stack needs room for. `usize::MAX`
/// stands for that many and for more.
pub fn find_list_depth(ty: &Type) -> usize
    ensures { result ≡ capped (list_depth (type_tree ty.now)) }
{
    let mut depth: usize = 0;
    let mut inner = ty;
    loop {
        match inner {
            Type::Named(_) | Type::NonNullNamed(_) => return depth,
            Type::List(item) | Type::NonNullList(item) => {
                depth = depth.saturating_add(1);
                inner = item;
            }
        }
    }
}

/// The allocator of a list, for the stack that it is written with. A named type has none, and needs no stack.
pub(crate) fn type_allocator(ty: &Type) -> Option<Global>
    ensures { IsNone result → list_depth (type_tree ty.now) ≡ 0 }
{
    match ty {
        Type::Named(_) | Type::NonNullNamed(_) => None,
        Type::List(item) | Type::NonNullList(item) => Some(*Box::allocator(item)),
    }
}

/// Writes the end of a list.
fn write_end<O: Target>(out: &mut O, end: TypeEntry)
    ensures { WritesAnywhere O.wrote out.old out.new (end_items end) }
{
    match end {
        TypeEntry::EndOfList => write_words(out, "]"),
        TypeEntry::EndOfNonNullList => write_words(out, "]!"),
    }
}

/// Writes the ends of all lists that are open.
fn write_ends<O: Target>(out: &mut O, stack: &mut Stack<TypeEntry>)
    ensures kept { IsKept stack.old stack.new }
    ensures written { WritesAnywhere O.wrote out.old out.new
        (ends_items (stack_entries stack.old)) }
{
    while let Some(end) = stack.pop() {
        if out.is_stopped() {
            stack.clear();
            return;
        }
        write_end(out, end);
    }
}

/// Writes a type. The stack is empty before and after, and has room for the ends of its lists.
pub fn write_type<O: Target>(out: &mut O, stack: &mut Stack<TypeEntry>, ty: &Type)
    requires { IsReady stack.old (list_depth (type_tree ty.now)) }
    ensures kept { IsKept stack.old stack.new }
    ensures written { WritesAnywhere O.wrote out.old out.new (type_shape (type_tree ty.now)) }
{
    let mut inner = ty;
    loop {
        if out.is_stopped() {
            stack.clear();
            return;
        }
        match inner {
            Type::Named(name) => {
                write_name(out, name);
                break;
            }
            Type::NonNullNamed(name) => {
                write_name_then(out, name, "!");
                break;
            }
            Type::List(item) => {
                write_words(out, "[");
                stack.push(TypeEntry::EndOfList);
                inner = item;
            }
            Type::NonNullList(item) => {
                write_words(out, "[");
                stack.push(TypeEntry::EndOfNonNullList);
                inner = item;
            }
        }
    }
    write_ends(out, stack);
}

/// Writes a type by itself. Memory for the ends of its lists is asked for before the first byte.
fn write_type_alone<O: Target>(out: &mut O, ty: &Type) -> Result<(), AllocError>
    ensures ok { OnOk result
        (O.wrote out.old
        (encode_utf8_all (layout_of type_kind None 0 (type_tree ty.now))) out.new) }
    ensures err { OnErr result (out.new ≡ out.old) }
{
    let mut stack = Stack::reserve(type_allocator(ty), find_list_depth(ty))?;
    write_type(out, &mut stack, ty);
    Ok(())
}

impl fmt::Display for Type {
    ghost output = { λ ty. Some (encode_utf8_all (layout_of type_kind None 0 (type_tree ty))) };

    fn fmt<W: fmt::Write>(&self, f: &mut fmt::Formatter<W>) -> fmt::Result {
        let mut out = ToFormatter {
            formatter: f,
            failed: false,
        };
        if write_type_alone(&mut out, self).is_err() {
            return Err(fmt::Error);
        }
        if out.failed { Err(fmt::Error) } else { Ok(()) }
    }
}
