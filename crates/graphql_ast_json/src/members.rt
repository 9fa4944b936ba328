//! Members of a node, read as the trees that they are of.
ghost use Rattle.std.specs.Prelude.{List, Option, IfOk, IfErr, IsSomeAnd, map, option_map};
ghost use Rattle.serde_json.specs.Find.{as_array};
ghost use Rattle.graphql_values.specs.kinds.Directives.{DirectiveTree};
ghost use Rattle.graphql_values.specs.trees.DirectiveTrees.{directive_trees};
ghost use Rattle.parsed_json.specs.AnyJson.{items_data};
ghost use Rattle.ast_json_nodes.specs.code.Errors.{IsMemory};
ghost use Rattle.ast_json_nodes.specs.code.JsonNodes.{node_data};
ghost use Rattle.ast_json_nodes.specs.code.ToldErrors.{IsOfNoTree, IsToldOfArray, IsToldOfItem, IsToldOfListBy, IsToldOfMemberBy, IsToldOfOptionalBy, IsToldOfOptionalListBy};
ghost use Rattle.ast_json_nodes.specs.nodes.Nodes.{Each, IsOptional, ListMember, Member, OptionalListMember, member_of};
ghost use Rattle.graphql_ast_json.specs.kinds.DirectiveJson.{HasDirectives};

use crate::form::Form;
use ast_json_nodes::error::{AstJsonError, JsonType};
use ast_json_nodes::{JsonNode, find_member};
use graphql_ast::ast::{Directive, DirectiveList};
use graphql_base::node::Node;
use parsed_json::AnyItems;

/// The trees that these items are of, one by one.
fn trees<'j, 't, F: Form>(
    node: JsonNode<'j, 't>,
    items: AnyItems<'j, 't>,
) -> Result<Vec<F::Value>, AstJsonError>
    ensures ok { IfOk result (λ values.
        Each (F.is_json_of node.entry.unknown) (map F.tree values.items)
        (items_data items.entry)) }
    ensures err { IfErr result (λ error. ¬ IsMemory error → (trees : List F.Tree)
        → ¬ Each (F.is_json_of node.entry.unknown) trees (items_data items.entry)) }
    ensures told { IfErr result (λ error. ¬ IsMemory error
        → IsToldOfItem (F.is_json_of node.entry.unknown) (items_data items.entry) error) }
{
    let mut values = Vec::with_capacity(node.alloc, items.len())?;
    for index in 0..items.len() {
        let json = items.at(index);
        match F::read(JsonNode { json, ..node }) {
            Ok(value) => values.push(value)?,
            Err(error) => return Err(error.in_item(node.alloc, index)),
        }
    }
    Ok(values)
}

/// The tree that the member of this name is of, which the node must have.
pub(crate) fn member<F: Form>(node: JsonNode<'_, '_>, name: &str) -> Result<F::Value, AstJsonError>
    ensures ok { IfOk result (λ value.
        Member name.now (node_data node.entry)
        (F.is_json_of node.entry.unknown (F.tree value))) }
    ensures err { IfErr result (λ error. ¬ IsMemory error → (tree : F.Tree)
        → ¬ Member name.now (node_data node.entry) (F.is_json_of node.entry.unknown tree)) }
    ensures told { IfErr result (λ error. ¬ IsMemory error
        → IsToldOfMemberBy (IsOfNoTree (F.is_json_of node.entry.unknown))
        node.entry name.now error) }
{
    let json = node.required(name)?;
    match F::read(JsonNode { json, ..node }) {
        Ok(value) => Ok(value),
        Err(error) => Err(node.within(name, error)),
    }
}

/// The tree that the member of this name is of, if the node has one.
pub(crate) fn optional<F: Form>(
    node: JsonNode<'_, '_>,
    name: &str,
) -> Result<Option<F::Value>, AstJsonError>
    ensures ok { IfOk result (λ value. IsOptional (F.is_json_of node.entry.unknown)
        (option_map F.tree value) (member_of name.now (node_data node.entry))) }
    ensures err { IfErr result (λ error. ¬ IsMemory error → (tree : Option F.Tree)
        → ¬ IsOptional (F.is_json_of node.entry.unknown) tree
        (member_of name.now (node_data node.entry))) }
    ensures told { IfErr result (λ error. ¬ IsMemory error
        → IsToldOfOptionalBy (IsOfNoTree (F.is_json_of node.entry.unknown))
        node.entry name.now error) }
{
    match find_member(node.json, name) {
        None => Ok(None),
        Some(json) => match F::read(JsonNode { json, ..node }) {
            Ok(value) => Ok(Some(value)),
            Err(error) => Err(node.within(name, error)),
        },
    }
}

/// The trees that the items of the array are of that the member of this name is.
pub(crate) fn required_list<F: Form>(
    node: JsonNode<'_, '_>,
    name: &str,
) -> Result<Vec<F::Value>, AstJsonError>
    ensures ok { IfOk result (λ values. ListMember name.now (node_data node.entry)
        (Each (F.is_json_of node.entry.unknown) (map F.tree values.items))) }
    ensures err { IfErr result (λ error. ¬ IsMemory error → (trees : List F.Tree)
        → ¬ ListMember name.now (node_data node.entry)
        (Each (F.is_json_of node.entry.unknown) trees)) }
    ensures told { IfErr result (λ error. ¬ IsMemory error
        → IsToldOfListBy (IsToldOfItem (F.is_json_of node.entry.unknown))
        node.entry name.now error) }
{
    let items = node.items(name)?;
    match trees::<F>(node, items) {
        Ok(values) => Ok(values),
        Err(error) => Err(node.within(name, error)),
    }
}

/// The same, and none where the member is not there.
pub(crate) fn list<F: Form>(
    node: JsonNode<'_, '_>,
    name: &str,
) -> Result<Vec<F::Value>, AstJsonError>
    ensures ok { IfOk result (λ values. OptionalListMember name.now (node_data node.entry)
        (Each (F.is_json_of node.entry.unknown) (map F.tree values.items))) }
    ensures err { IfErr result (λ error. ¬ IsMemory error → (trees : List F.Tree)
        → ¬ OptionalListMember name.now (node_data node.entry)
        (Each (F.is_json_of node.entry.unknown) trees)) }
    ensures told { IfErr result (λ error. ¬ IsMemory error
        → IsToldOfOptionalListBy (IsToldOfItem (F.is_json_of node.entry.unknown))
        node.entry name.now error) }
{
    let items = node.optional_items(name)?;
    match trees::<F>(node, items) {
        Ok(values) => Ok(values),
        Err(error) => Err(node.within(name, error)),
    }
}

/// The directives of the node, which has none where it has no member `directives`.
pub(crate) fn directives(node: JsonNode<'_, '_>) -> Result<DirectiveList, AstJsonError>
    ensures ok { IfOk result (λ list.
        HasDirectives node.entry.unknown (directive_trees list) (node_data node.entry)) }
    ensures err { IfErr result (λ error. ¬ IsMemory error → (trees : List DirectiveTree)
        → ¬ HasDirectives node.entry.unknown trees (node_data node.entry)) }
{
    Ok(DirectiveList(list::<Node<Directive>>(node, "directives")?))
}

/// The trees that the items of the array are of that the JSON is.
pub(crate) fn array<F: Form>(node: JsonNode<'_, '_>) -> Result<Vec<F::Value>, AstJsonError>
    ensures ok { IfOk result (λ values. IsSomeAnd (as_array (node_data node.entry))
        (Each (F.is_json_of node.entry.unknown) (map F.tree values.items))) }
    ensures err { IfErr result (λ error. ¬ IsMemory error → (trees : List F.Tree)
        → ¬ IsSomeAnd (as_array (node_data node.entry))
        (Each (F.is_json_of node.entry.unknown) trees)) }
    ensures told { IfErr result (λ error. ¬ IsMemory error
        → IsToldOfArray (F.is_json_of node.entry.unknown) node.entry error) }
{
    match node.json.as_items() {
        Some(items) => trees::<F>(node, items),
        None => Err(node.wrong_type(node.json, JsonType::Array)),
    }
}
