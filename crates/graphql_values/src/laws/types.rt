//! What holds of types: of how they are wrapped, of their nullability and of assignability.
ghost use Rattle.std.specs.Prelude.{◌≡◌, ◌<◌, Bool, length, not};
ghost use Rattle.graphql_text.specs.trees.Leaves.{name_tree};
ghost use Rattle.graphql_values.specs.kinds.TypeReferences.{TypeTree};
ghost use Rattle.graphql_values.specs.trees.TypeTrees.{type_tree, type_wrapping};
ghost use Rattle.graphql_values.specs.kinds.Wrappings.{IsAssignable, is_non_null, renamed, tree_nullability, tree_wrapping, with_nullability};

use crate::types::Type;

/// A type is a base name and a list of at least one nullability, the outermost first: these are the whole tree.
pub fn types_are_wrapped_names(ty: &Type)
    ensures name { tree_wrapping (type_tree ty.now) ≡ renamed name_tree (type_wrapping ty.now) }
    ensures some { (tree : TypeTree) → 0 < length (tree_nullability tree) }
    ensures whole { (tree other : TypeTree) →
        tree_wrapping tree ≡ tree_wrapping other → tree ≡ other }
{}

/// What `non_null` makes is non-null, and what `nullable` makes is not, whatever the type was before. Made again, it
/// stays the same. A nullable type is given back by `nullable` after `non_null`, and a non-null one by `non_null`
/// after `nullable`.
pub fn nullability_is_set(ty: &Type, made: &Type)
    ensures set { (non_null : Bool) →
        type_wrapping made.now ≡ with_nullability non_null (type_wrapping ty.now) →
        is_non_null (type_tree made.now) ≡ non_null }
    ensures idempotent { (non_null : Bool) →
        type_wrapping made.now ≡ with_nullability non_null (type_wrapping ty.now) →
        with_nullability non_null (type_wrapping made.now) ≡ type_wrapping made.now }
    ensures gives_back { (non_null : Bool) → is_non_null (type_tree ty.now) ≡ non_null →
        type_wrapping made.now ≡ with_nullability (not non_null) (type_wrapping ty.now) →
        with_nullability non_null (type_wrapping made.now) ≡ type_wrapping ty.now }
{}

/// Assignability is an order of types: each is assignable to itself, a first to a third that a second between them
/// joins, and two to each other only if they are the same.
pub fn assignability_is_an_order()
    ensures reflexive { (ty : TypeTree) → IsAssignable ty ty }
    ensures transitive { (a b c : TypeTree) → IsAssignable a b → IsAssignable b c →
        IsAssignable a c }
    ensures antisymmetric { (a b : TypeTree) → IsAssignable a b → IsAssignable b a → a ≡ b }
{}
