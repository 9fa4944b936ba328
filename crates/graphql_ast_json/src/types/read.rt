//! Type references from AST JSON.
ghost use Rattle.std.specs.Prelude.{◌≡◌, ◌≢◌, ◌<◌, [], ◌∷◌, IfOk, IfErr, OnOk, Some, codes};
ghost use Rattle.serde_json.specs.Data.{depth, string};
ghost use Rattle.graphql_text.specs.trees.Leaves.{name_tree};
ghost use Rattle.graphql_text.specs.lexical.Literals.{NameText};
ghost use Rattle.graphql_values.specs.kinds.TypeReferences.{TypeTree, list_type, non_null_list_type};
ghost use Rattle.graphql_values.specs.trees.TypeTrees.{type_tree};
ghost use Rattle.parsed_json.specs.AnyJson.{any_data};
ghost use Rattle.ast_json_nodes.specs.code.Errors.{IsMemory};
ghost use Rattle.ast_json_nodes.specs.code.JsonNodes.{node_data, IsFromNone, IsReadFrom};
ghost use Rattle.ast_json_nodes.specs.code.NodeReading.{TellsKind};
ghost use Rattle.graphql_ast_json.specs.code.TypeReading.{IsWithoutNull};
ghost use Rattle.graphql_ast_json.specs.kinds.TypeJson.{IsNamedType, IsTypeAround, IsTypeReference};
ghost use Rattle.ast_json_nodes.specs.nodes.Nodes.{IsLocated, IsNode, member_of};

use crate::members::member;
use ast_json_nodes::JsonNode;
use ast_json_nodes::error::AstJsonError;
use graphql_ast::ast::Type;
use graphql_ast::name::Name;
use parsed_json::AnyJson;
use std::alloc::Global;

/// The name that a named type is.
// It and what else leads to no other type have frames of their own, so that those of types in one another are small.
#[inline(never)]
pub(crate) fn read_named_type(node: JsonNode<'_, '_>) -> Result<Name, AstJsonError>
    requires { IsLocated node.unknown (node_data node) }
    ensures ok { IfOk result (λ name. IsReadFrom IsNamedType node.entry (name_tree name)) }
    ensures err { IfErr result (λ error. ¬ IsMemory error → IsFromNone IsNamedType node.entry) }
{
    node.check("NamedType", &["name"])?;
    member::<Name>(node, "name")
}

/// The type of this kind that is in no list type and no non-null type, if it is one.
#[inline(never)]
fn leaf(node: JsonNode<'_, '_>, kind: &str) -> Result<Type, AstJsonError>
    requires located { IsLocated node.unknown (node_data node) }
    requires kind { member_of (codes "kind") (node_data node) ≡ Some (string kind.now) }
    requires list { kind.now ≢ codes "ListType" }
    requires non_null { kind.now ≢ codes "NonNullType" }
    ensures ok { IfOk result (λ ty. IsReadFrom IsTypeReference node.entry (type_tree ty)) }
    ensures err { IfErr result (λ error. ¬ IsMemory error → IsFromNone IsTypeReference node.entry) }
{
    match kind {
        "NamedType" => Ok(Type::Named(read_named_type(node)?)),
        _ => Err(node.wrong_kind(kind, "a type")),
    }
}

/// The same within a non-null type.
#[inline(never)]
fn non_null_leaf(node: JsonNode<'_, '_>, kind: &str) -> Result<Type, AstJsonError>
    requires located { IsLocated node.unknown (node_data node) }
    requires kind { member_of (codes "kind") (node_data node) ≡ Some (string kind.now) }
    requires list { kind.now ≢ codes "ListType" }
    ensures ok { IfOk result (λ ty. IsReadFrom IsWithoutNull node.entry (type_tree ty)) }
    ensures err { IfErr result (λ error. ¬ IsMemory error → IsFromNone IsWithoutNull node.entry) }
{
    match kind {
        "NamedType" => Ok(Type::NonNullNamed(read_named_type(node)?)),
        _ => Err(node.wrong_kind(kind, "a named type or a list type")),
    }
}

/// The node of the type that stands in a node of this kind, and the kind of that type.
#[inline(never)]
fn type_within<'j, 't>(
    node: JsonNode<'j, 't>,
    kind: &str,
) -> Result<(AnyJson<'j, 't>, &'j str), AstJsonError>
    requires { IsLocated node.unknown (node_data node) }
    ensures node { OnOk result
        (IsNode node.entry.unknown kind.now (codes "type" ∷ []) (node_data node.entry)) }
    ensures json { IfOk result (λ inner.
        member_of (codes "type") (node_data node.entry) ≡ Some (any_data inner.0)) }
    ensures inside { IfOk result (λ inner.
        depth (any_data inner.0) < depth (node_data node.entry)) }
    ensures located { IfOk result (λ inner. IsLocated node.entry.unknown (any_data inner.0)) }
    ensures kind { IfOk result (λ inner.
        member_of (codes "kind") (any_data inner.0) ≡ Some (string inner.1.now)) }
    ensures err { IfErr result (λ error. ¬ IsMemory error
        → ¬ IsTypeAround node.entry.unknown kind.now (TellsKind node.entry.unknown)
        (node_data node.entry)) }
{
    node.check(kind, &["type"])?;
    let json = node.required("type")?;
    match (JsonNode { json, ..node }).located_kind() {
        Ok((_, kind)) => Ok((json, kind)),
        Err(error) => Err(node.within("type", error)),
    }
}

/// The list type of such items.
#[inline(never)]
fn list_of(alloc: Global, item: Type) -> Result<Type, AstJsonError>
    ensures ok { IfOk result (λ ty. type_tree ty ≡ list_type (type_tree item)) }
    ensures err { IfErr result IsMemory }
{
    Ok(Type::List(Box::new(alloc, item)?))
}

/// The non-null list type of such items.
#[inline(never)]
fn non_null_list_of(alloc: Global, item: Type) -> Result<Type, AstJsonError>
    ensures ok { IfOk result (λ ty. type_tree ty ≡ non_null_list_type (type_tree item)) }
    ensures err { IfErr result IsMemory }
{
    Ok(Type::NonNullList(Box::new(alloc, item)?))
}

/// The type reference that a node is of, whose location was read.
pub(crate) fn read_type(node: JsonNode<'_, '_>) -> Result<Type, AstJsonError>
    requires { IsLocated node.unknown (node_data node) }
    ensures ok { IfOk result (λ ty. IsReadFrom IsTypeReference node.entry (type_tree ty)) }
    ensures err { IfErr result (λ error. ¬ IsMemory error → IsFromNone IsTypeReference node.entry) }
{
    let kind = node.text("kind")?;
    type_of_kind(node, kind)
}

/// The type reference that a node of this kind is of.
#[cycle(types)]
fn type_of_kind(node: JsonNode<'_, '_>, kind: &str) -> Result<Type, AstJsonError>
    requires located { IsLocated node.unknown (node_data node) }
    requires kind { member_of (codes "kind") (node_data node) ≡ Some (string kind.now) }
    ensures ok { IfOk result (λ ty. IsReadFrom IsTypeReference node.entry (type_tree ty)) }
    ensures err { IfErr result (λ error. ¬ IsMemory error → IsFromNone IsTypeReference node.entry) }
{
    match kind {
        "ListType" => {
            let item = list_item(node)?;
            list_of(node.alloc, item)
        }
        "NonNullType" => non_null_type(node),
        _ => leaf(node, kind),
    }
}

/// The type of the items of a list type. Where that stands is tested and left out.
#[cycle(types)]
fn list_item(node: JsonNode<'_, '_>) -> Result<Type, AstJsonError>
    requires { IsLocated node.unknown (node_data node) }
    ensures ok { IfOk result (λ item. IsTypeAround node.entry.unknown (codes "ListType")
        (IsTypeReference node.entry.unknown (type_tree item)) (node_data node.entry)) }
    ensures err { IfErr result (λ error. ¬ IsMemory error
        → (item : TypeTree) → ¬ IsTypeAround node.entry.unknown (codes "ListType")
        (IsTypeReference node.entry.unknown item) (node_data node.entry)) }
{
    let (json, kind) = type_within(node, "ListType")?;
    node.told_within("type", type_of_kind(JsonNode { json, ..node }, kind))
}

#[cycle(types)]
#[inline(never)]
fn non_null_type(node: JsonNode<'_, '_>) -> Result<Type, AstJsonError>
    requires { IsLocated node.unknown (node_data node) }
    ensures ok { IfOk result (λ ty. IsTypeAround node.entry.unknown (codes "NonNullType")
        (IsWithoutNull node.entry.unknown (type_tree ty)) (node_data node.entry)) }
    ensures err { IfErr result (λ error. ¬ IsMemory error
        → (tree : TypeTree) → ¬ IsTypeAround node.entry.unknown (codes "NonNullType")
        (IsWithoutNull node.entry.unknown tree) (node_data node.entry)) }
{
    let (json, kind) = type_within(node, "NonNullType")?;
    node.told_within("type", without_null(JsonNode { json, ..node }, kind))
}

/// The non-null type around a type of this kind that is none itself. Where that stands is tested and left out.
#[cycle(types)]
fn without_null(node: JsonNode<'_, '_>, kind: &str) -> Result<Type, AstJsonError>
    requires located { IsLocated node.unknown (node_data node) }
    requires kind { member_of (codes "kind") (node_data node) ≡ Some (string kind.now) }
    ensures ok { IfOk result (λ ty. IsReadFrom IsWithoutNull node.entry (type_tree ty)) }
    ensures err { IfErr result (λ error. ¬ IsMemory error → IsFromNone IsWithoutNull node.entry) }
{
    match kind {
        "ListType" => {
            let item = list_item(node)?;
            non_null_list_of(node.alloc, item)
        }
        _ => non_null_leaf(node, kind),
    }
}
