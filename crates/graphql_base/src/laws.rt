//! Laws of spans, names and nodes. Each function does nothing: its contract is the law.
ghost use Rattle.std.specs.Prelude.{◌≡◌, ◌↔◌, IsTrue};
ghost use Rattle.std.specs.Ordering.{nat_cmp};
ghost use Rattle.std.specs.Cmp.Lexicographic.{slice_cmp};
ghost use Rattle.std.specs.Hash as fed;
ghost use Rattle.std.specs.declared.cmp.Ordering.TheVariants.{Equal};
ghost use Rattle.graphql_base.specs.Names.{is_name};
ghost use Rattle.graphql_base.specs.Span.{file_number, span_file, span_start, span_end};
ghost use Rattle.graphql_base.specs.Name.{name_text};
ghost use Rattle.graphql_base.specs.NameErrors.{AreSameInvalid, AreSameErrors};
ghost use Rattle.graphql_base.specs.Node.{node_value, node_str_text};

use crate::name::{InvalidNameError, Name, NameError};
use crate::node::{Node, NodeStr};
use crate::span::{FileId, SourceSpan};
use std::hash::Hash;

/// Two file ids are equal exactly if their numbers are.
pub fn file_ids_compare_by_number(a: FileId, b: FileId)
    ensures { IsTrue (⟦<FileId as PartialEq>⟧.eq a b) ↔ (file_number a ≡ file_number b) }
{}

/// Two spans are equal exactly if their files, starts and ends are.
pub fn spans_compare_by_numbers(a: SourceSpan, b: SourceSpan)
    ensures { IsTrue (⟦<SourceSpan as PartialEq>⟧.eq a b)
        ↔ ((file_number (span_file a) ≡ file_number (span_file b))
        × (span_start a ≡ span_start b) × (span_end a ≡ span_end b)) }
{}

/// The text of each name is in name syntax.
pub fn names_are_valid(name: &Name)
    ensures { IsTrue (is_name (name_text name.now)) }
{}

/// Two names are equal exactly if their texts are, wherever they stand, and whether their texts are static,
/// shared or in place.
pub fn names_compare_by_text(a: &Name, b: &Name)
    ensures { IsTrue (⟦<Name as PartialEq>⟧.eq a.now b.now) ↔ (name_text a.now ≡ name_text b.now) }
{}

/// Names are in the order of the bytes of their texts.
pub fn names_are_in_byte_order(a: &Name, b: &Name)
    ensures { ⟦<Name as Ord>⟧.cmp a.now b.now
        ≡ slice_cmp nat_cmp (name_text a.now) (name_text b.now) }
{}

/// The order of names agrees with their equality.
pub fn name_order_agrees_with_equality(a: &Name, b: &Name)
    ensures { (⟦<Name as Ord>⟧.cmp a.now b.now ≡ Equal)
        ↔ IsTrue (⟦<Name as PartialEq>⟧.eq a.now b.now) }
{}

/// A name hashes as its text does, wherever it stands, and whether its text is static, shared or in place: so
/// equal names hash alike.
pub fn names_hash_by_text(a: &Name, b: &Name)
    ensures text { ⟦<Name as Hash>⟧.hash_input a.now ≡ fed.str (name_text a.now) }
    ensures alike { IsTrue (⟦<Name as PartialEq>⟧.eq a.now b.now)
        → ⟦<Name as Hash>⟧.hash_input a.now ≡ ⟦<Name as Hash>⟧.hash_input b.now }
{}

/// Two nodes are equal exactly if their values are, wherever they stand.
pub fn nodes_compare_by_value<T: PartialEq>(a: &Node<T>, b: &Node<T>)
    ensures { ⟦<Node<T> as PartialEq>⟧.eq a.now b.now ≡ T.eq (node_value a.now) (node_value b.now) }
{}

/// A node hashes as its value does, wherever it stands: so equal nodes hash alike.
pub fn nodes_hash_by_value<T: Hash>(a: &Node<T>, b: &Node<T>)
    ensures value { ⟦<Node<T> as Hash>⟧.hash_input a.now ≡ T.hash_input (node_value a.now) }
    ensures alike { IsTrue (⟦<Node<T> as PartialEq>⟧.eq a.now b.now)
        → ⟦<Node<T> as Hash>⟧.hash_input a.now ≡ ⟦<Node<T> as Hash>⟧.hash_input b.now }
{}

/// Two shared texts are equal exactly if their texts are, wherever they stand.
pub fn node_strs_compare_by_text(a: &NodeStr, b: &NodeStr)
    ensures { IsTrue (⟦<NodeStr as PartialEq>⟧.eq a.now b.now)
        ↔ (node_str_text a.now ≡ node_str_text b.now) }
{}

/// A shared text hashes as its text does, wherever it stands: so equal ones hash alike.
pub fn node_strs_hash_by_text(a: &NodeStr, b: &NodeStr)
    ensures text { ⟦<NodeStr as Hash>⟧.hash_input a.now ≡ fed.str (node_str_text a.now) }
    ensures alike { IsTrue (⟦<NodeStr as PartialEq>⟧.eq a.now b.now)
        → ⟦<NodeStr as Hash>⟧.hash_input a.now ≡ ⟦<NodeStr as Hash>⟧.hash_input b.now }
{}

/// Two errors about a text that is no name are equal exactly if the texts and the locations are.
pub fn invalid_name_errors_compare_by_fields(a: &InvalidNameError, b: &InvalidNameError)
    ensures { IsTrue (⟦<InvalidNameError as PartialEq>⟧.eq a.now b.now)
        ↔ AreSameInvalid a.now b.now }
{}

/// Two errors are equal exactly if the variants and the fields are.
pub fn name_errors_compare_by_fields(a: &NameError, b: &NameError)
    ensures { IsTrue (⟦<NameError as PartialEq>⟧.eq a.now b.now) ↔ AreSameErrors a.now b.now }
{}
