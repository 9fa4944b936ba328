//! Where in the JSON of a tree the first flaw is: one walk in the order of print.
ghost use Rattle.std.specs.Prelude.{◌≡◌};
ghost use Rattle.parsed_json.specs.AnyJson.{any_data};
ghost use Rattle.ast_json_nodes.specs.code.JsonNodes.{has_text_of, lacks};
ghost use Rattle.ast_json_nodes.specs.code.NodeReading.{texts_of};

use ast_json_nodes::error::JsonPath;
use ast_json_nodes::{JsonNode, find_member, is_one_of};
use graphql_base::span::SourceSpan;
use graphql_text::ill_formed::SideCondition::{
    self, AddsSomething, HasDefinition, HasLocation, HasRootOperation, HasSelection, IsConstant,
    IsNotOn, IsNotReserved,
};
use parsed_json::AnyJson;
use std::alloc::{AllocError, Global};

/// The words that no enum value may be.
const RESERVED: [&str; 3] = ["true", "false", "null"];

/// A path within JSON, and where the innermost node stands that has it and tells its location.
#[derive(Drop)]
pub(crate) struct FoundPath {
    pub path: JsonPath,
    pub location: Option<SourceSpan>,
}

impl FoundPath {
    /// The node itself.
    fn of(node: JsonNode<'_, '_>) -> FoundPath {
        FoundPath {
            path: JsonPath::root(node.alloc),
            location: node.told_location(),
        }
    }

    /// The same path, told from the node that has it in this member.
    fn in_member(self, node: JsonNode<'_, '_>, name: &str) -> Result<FoundPath, AllocError> {
        Ok(FoundPath {
            path: self.path.in_member(node.alloc, name)?,
            location: self.location.or(node.told_location()),
        })
    }

    /// The same path, told from the array that has it in this item.
    fn in_item(self, alloc: Global, index: usize) -> Result<FoundPath, AllocError> {
        Ok(FoundPath {
            path: self.path.in_item(alloc, index)?,
            location: self.location,
        })
    }
}

/// The members in which a node of this kind has flaws, and in which an extension adds something, in the order of print.
/// An extension has the same ones as the definition of what it extends.
fn parts_of(kind: &str) -> &'static [&'static str] {
    match kind {
        "Document" => &["definitions"],
        "OperationDefinition" => &["variableDefinitions", "directives", "selectionSet"],
        "FragmentDefinition" | "InlineFragment" => &["directives", "selectionSet"],
        "SelectionSet" => &["selections"],
        "Field" => &["arguments", "directives", "selectionSet"],
        "VariableDefinition" | "InputValueDefinition" => &["defaultValue", "directives"],
        "Directive" | "DirectiveDefinition" => &["arguments"],
        "Argument" | "ObjectField" => &["value"],
        "ListValue" => &["values"],
        "ObjectValue" => &["fields"],
        "FieldDefinition" => &["arguments", "directives"],
        "FragmentSpread" | "EnumValueDefinition" => &["directives"],
        _ => match kind
            .strip_suffix("Definition")
            .or(kind.strip_suffix("Extension"))
        {
            Some("Schema") => &["directives", "operationTypes"],
            Some("ObjectType" | "InterfaceType") => &["interfaces", "directives", "fields"],
            Some("UnionType") => &["directives", "types"],
            Some("EnumType") => &["directives", "values"],
            Some("InputObjectType") => &["directives", "fields"],
            Some("ScalarType") => &["directives"],
            _ => &[],
        },
    }
}

/// Whether there is nothing in the list that the member of this name is.
fn lacks(json: AnyJson<'_, '_>, name: &str) -> bool
    ensures { result ≡ lacks name.now (any_data json.entry) }
{
    match find_member(json, name) {
        Some(found) => match found.as_items() {
            Some(items) => items.is_empty(),
            None => true,
        },
        None => true,
    }
}

/// Whether the text of the node is one of these.
fn is_any_of(texts: &[&str], json: AnyJson<'_, '_>) -> bool
    ensures { result ≡ has_text_of (texts_of texts.now) (any_data json.entry) }
{
    match find_member(json, "value") {
        Some(found) => match found.as_str() {
            Some(text) => is_one_of(texts, text),
            None => false,
        },
        None => false,
    }
}

/// What is looked for: the first node that breaks this condition.
#[derive(Clone, Copy)]
struct Search<'j, 't> {
    /// The whole tree, whose parts are read by the same rules.
    root: JsonNode<'j, 't>,
    condition: SideCondition,
}

/// Whether only constants may stand in a node of this kind, which may stand where only they do.
fn is_constant_in(kind: &str, is_constant: bool) -> bool {
    match kind {
        "OperationDefinition" | "FragmentDefinition" => false,
        _ => is_constant || kind.ends_with("Definition") || kind.ends_with("Extension"),
    }
}

// What is done in a node without its parts has frames of its own, so that those of nodes in one another are small.
impl<'j, 't> Search<'j, 't> {
    /// A part of the tree.
    fn node(&self, json: AnyJson<'j, 't>) -> JsonNode<'j, 't> {
        JsonNode { json, ..self.root }
    }

    /// What breaks the condition in a node of this kind, if something does: its name within the node, and the innermost
    /// node that it is or stands in.
    fn broken_part(
        &self,
        json: AnyJson<'j, 't>,
        kind: &str,
        is_constant: bool,
    ) -> Option<(&'static str, AnyJson<'j, 't>)> {
        let (is_broken, part) = match (self.condition, kind) {
            (HasDefinition, "Document") => (lacks(json, "definitions"), ("", json)),
            (HasSelection, "OperationDefinition" | "FragmentDefinition" | "InlineFragment") => {
                let set = find_member(json, "selectionSet")?;
                (lacks(set, "selections"), ("selectionSet", set))
            }
            (IsNotOn, "FragmentDefinition" | "FragmentSpread") => {
                let name = find_member(json, "name")?;
                (is_any_of(&["on"], name), ("name.value", name))
            }
            (IsNotReserved, "EnumValueDefinition") => {
                let name = find_member(json, "name")?;
                (is_any_of(&RESERVED, name), ("name.value", name))
            }
            (IsNotReserved, "EnumValue") => (is_any_of(&RESERVED, json), ("value", json)),
            (IsConstant, "Variable") => (is_constant, ("", json)),
            (HasLocation, "DirectiveDefinition") => (lacks(json, "locations"), ("", json)),
            (HasRootOperation, "SchemaDefinition") => (lacks(json, "operationTypes"), ("", json)),
            (AddsSomething, _) if kind.ends_with("Extension") => {
                let adds_nothing = parts_of(kind).iter().all(|name| lacks(json, name));
                (adds_nothing, ("", json))
            }
            _ => return None,
        };
        if is_broken { Some(part) } else { None }
    }

    /// The path to what breaks the condition in a node of this kind, without its parts.
    #[inline(never)]
    fn at_node(
        &self,
        json: AnyJson<'j, 't>,
        kind: &str,
        is_constant: bool,
    ) -> Result<Option<FoundPath>, AllocError> {
        match self.broken_part(json, kind, is_constant) {
            Some((name, part)) => self.in_member(FoundPath::of(self.node(part)), json, name),
            None => Ok(None),
        }
    }

    /// The same path, told from the node that has it in this member.
    #[inline(never)]
    fn in_member(
        &self,
        found: FoundPath,
        json: AnyJson<'j, 't>,
        name: &str,
    ) -> Result<Option<FoundPath>, AllocError> {
        Ok(Some(found.in_member(self.node(json), name)?))
    }

    /// The same path, told from the array that has it in this item.
    #[inline(never)]
    fn in_item(&self, found: FoundPath, index: usize) -> Result<Option<FoundPath>, AllocError> {
        Ok(Some(found.in_item(self.root.alloc, index)?))
    }

    /// The path in this node.
    #[cycle(search)]
    fn in_node(
        &self,
        json: AnyJson<'j, 't>,
        is_constant: bool,
    ) -> Result<Option<FoundPath>, AllocError> {
        let kind = self.node(json).kind();
        if let Some(found) = self.at_node(json, kind, is_constant)? {
            return Ok(Some(found));
        }
        let is_constant = is_constant_in(kind, is_constant);
        for name in parts_of(kind) {
            if let Some(part) = find_member(json, name) {
                if let Some(found) = self.find(part, is_constant)? {
                    return self.in_member(found, json, name);
                }
            }
        }
        Ok(None)
    }

    /// The path in this node, or in the nodes of this array.
    #[cycle(search)]
    fn find(
        &self,
        json: AnyJson<'j, 't>,
        is_constant: bool,
    ) -> Result<Option<FoundPath>, AllocError> {
        let Some(items) = json.as_items() else {
            return self.in_node(json, is_constant);
        };
        for index in 0..items.len() {
            if let Some(found) = self.in_node(items.at(index), is_constant)? {
                return self.in_item(found, index);
            }
        }
        Ok(None)
    }
}

/// The path to the first flaw of the tree that a node is of, which breaks this condition.
pub(crate) fn path_of(
    node: JsonNode<'_, '_>,
    condition: SideCondition,
) -> Result<FoundPath, AllocError> {
    let search = Search {
        root: node,
        condition,
    };
    match search.find(node.json, false)? {
        Some(found) => Ok(found),
        None => Ok(FoundPath::of(node)),
    }
}
