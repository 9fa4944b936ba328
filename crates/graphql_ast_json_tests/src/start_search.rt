//! The search for a flaw as it was when AST JSON was read from values of `serde_json` alone, kept as it was, with what it
//! needs of the reader: where the search of the library finds a flaw is compared with it.
ghost use Rattle.std.specs.Prelude.{◌<◌, IfSome};
ghost use Rattle.serde_json.specs.Data.{depth};
ghost use Rattle.serde_json.specs.View.{view};

use graphql_ast::ill_formed::SideCondition::{
    self, AddsSomething, HasDefinition, HasLocation, HasRootOperation, HasSelection, IsConstant,
    IsNotOn, IsNotReserved,
};
use graphql_base::span::{FileId, SourceSpan};
use serde_json::Value as Json;
use std::alloc::{AllocError, Global};

/// The greatest offset of a location.
const MAX_OFFSET: u64 = 4294967295;

/// JSON that is read, as a rule a node of a syntax tree, with what its reading needs.
#[derive(Clone, Copy)]
pub(crate) struct NodeReader<'j> {
    pub alloc: Global,
    pub json: &'j Json,
    /// The file that the locations of nodes are in.
    pub source: FileId,
}

/// The member of this name. One that is null is the same as none.
fn member<'j>(json: &'j Json, name: &str) -> Option<&'j Json>
    ensures inside { IfSome result (λ v. depth (view v.now) < depth (view json.now)) }
{
    match json.get(name) {
        Some(member) => { if member.is_null() { None } else { Some(member) } }
        None => None,
    }
}

impl<'j> NodeReader<'j> {
    /// Where the node tells that it stands, for an error.
    fn told_location(self) -> Option<SourceSpan> {
        let location = self.json.get("loc")?;
        let start = location.get("start")?.as_u64()?;
        let end = location.get("end")?.as_u64()?;
        if start <= MAX_OFFSET && end <= MAX_OFFSET {
            SourceSpan::new(self.source, start as u32, end as u32)
        } else {
            None
        }
    }

    /// The kind that the node tells, for an error.
    fn kind(self) -> &'j str {
        match self.json.get("kind") {
            Some(Json::String(kind)) => kind.as_str(),
            _ => "node",
        }
    }
}

/// A position within JSON, as `fields[0].value`. The root is the empty path.
#[derive(Debug, Drop)]
pub(crate) struct JsonPath {
    text: String,
}

impl JsonPath {
    fn root(alloc: Global) -> JsonPath {
        JsonPath {
            text: String::new(alloc),
        }
    }

    /// The path, which is empty at the root.
    pub(crate) fn as_str(&self) -> &str {
        self.text.as_str()
    }

    /// Whether a `.` comes before the path, where a member does: it begins with the name of another.
    fn begins_with_name(&self) -> bool {
        match self.text.as_bytes().first() {
            None | Some(b'[') => false,
            Some(_) => true,
        }
    }

    /// The same position, told from the object that has it in this member.
    fn in_member(&self, alloc: Global, name: &str) -> Result<JsonPath, AllocError> {
        if self.begins_with_name() {
            let text = format!(in alloc; "{name}.{}", self.as_str())?;
            Ok(JsonPath { text })
        } else {
            let text = format!(in alloc; "{name}{}", self.as_str())?;
            Ok(JsonPath { text })
        }
    }

    /// The same position, told from the array that has it in this item.
    fn in_item(&self, alloc: Global, index: usize) -> Result<JsonPath, AllocError> {
        let item = format!(in alloc; "[{index}]")?;
        self.in_member(alloc, item.as_str())
    }
}

/// The words that no enum value may be.
const RESERVED: [&str; 3] = ["true", "false", "null"];

/// A position within JSON, and where the innermost node stands that has it and tells its location.
#[derive(Drop)]
pub(crate) struct Position {
    pub path: JsonPath,
    pub location: Option<SourceSpan>,
}

impl Position {
    /// The node itself.
    fn of(node: NodeReader<'_>) -> Position {
        Position {
            path: JsonPath::root(node.alloc),
            location: node.told_location(),
        }
    }

    /// The same position, told from the node that has it in this member.
    fn in_member(self, node: NodeReader<'_>, name: &str) -> Result<Position, AllocError> {
        Ok(Position {
            path: self.path.in_member(node.alloc, name)?,
            location: self.location.or(node.told_location()),
        })
    }

    /// The same position, told from the array that has it in this item.
    fn in_item(self, array: NodeReader<'_>, index: usize) -> Result<Position, AllocError> {
        Ok(Position {
            path: self.path.in_item(array.alloc, index)?,
            location: self.location,
        })
    }
}

/// The members in which a node of this kind has flaws, and in which an extension adds something, in the order of print.
fn parts_of(kind: &str) -> &'static [&'static str] {
    match kind {
        "Document" => &["definitions"],
        "OperationDefinition" => &["variableDefinitions", "directives", "selectionSet"],
        "FragmentDefinition" | "InlineFragment" => &["directives", "selectionSet"],
        "SelectionSet" => &["selections"],
        "Field" => &["arguments", "directives", "selectionSet"],
        "VariableDefinition" | "InputValueDefinition" => &["defaultValue", "directives"],
        "Directive" | "DirectiveDefinition" => &["arguments"],
        "Argument" | "ObjectField" => &["value"],
        "ListValue" => &["values"],
        "ObjectValue" => &["fields"],
        "FieldDefinition" => &["arguments", "directives"],
        "SchemaDefinition" | "SchemaExtension" => &["directives", "operationTypes"],
        "ObjectTypeDefinition"
        | "ObjectTypeExtension"
        | "InterfaceTypeDefinition"
        | "InterfaceTypeExtension" => &["interfaces", "directives", "fields"],
        "UnionTypeDefinition" | "UnionTypeExtension" => &["directives", "types"],
        "EnumTypeDefinition" | "EnumTypeExtension" => &["directives", "values"],
        "InputObjectTypeDefinition" | "InputObjectTypeExtension" => &["directives", "fields"],
        "ScalarTypeDefinition" | "ScalarTypeExtension" => &["directives"],
        "FragmentSpread" | "EnumValueDefinition" => &["directives"],
        _ => &[],
    }
}

/// Whether there is nothing in the list that the member of this name is.
fn lacks(json: &Json, name: &str) -> bool {
    match member(json, name) {
        Some(Json::Array(items)) => items.is_empty(),
        _ => true,
    }
}

/// Whether the text of the node is one of these.
fn is_any_of(texts: &[&str], json: &Json) -> bool {
    match member(json, "value") {
        Some(Json::String(text)) => texts.contains(&text.as_str()),
        _ => false,
    }
}

/// What is looked for: the first node that breaks this condition.
#[derive(Clone, Copy)]
struct Search<'j> {
    node: NodeReader<'j>,
    condition: SideCondition,
    /// Whether only constants may stand here.
    is_constant: bool,
}

impl<'j> Search<'j> {
    /// What breaks the condition in this node, if something does: its name within the node, and the innermost node that
    /// it is or stands in.
    fn broken_part(self, kind: &str) -> Option<(&'static str, &'j Json)> {
        let json = self.node.json;
        let (is_broken, part) = match (self.condition, kind) {
            (HasDefinition, "Document") => (lacks(json, "definitions"), ("", json)),
            (HasSelection, "OperationDefinition" | "FragmentDefinition" | "InlineFragment") => {
                let set = member(json, "selectionSet")?;
                (lacks(set, "selections"), ("selectionSet", set))
            }
            (IsNotOn, "FragmentDefinition" | "FragmentSpread") => {
                let name = member(json, "name")?;
                (is_any_of(&["on"], name), ("name.value", name))
            }
            (IsNotReserved, "EnumValueDefinition") => {
                let name = member(json, "name")?;
                (is_any_of(&RESERVED, name), ("name.value", name))
            }
            (IsNotReserved, "EnumValue") => (is_any_of(&RESERVED, json), ("value", json)),
            (IsConstant, "Variable") => (self.is_constant, ("", json)),
            (HasLocation, "DirectiveDefinition") => (lacks(json, "locations"), ("", json)),
            (HasRootOperation, "SchemaDefinition") => (lacks(json, "operationTypes"), ("", json)),
            (AddsSomething, _) if kind.ends_with("Extension") => {
                let adds_nothing = parts_of(kind).iter().all(|name| lacks(json, name));
                (adds_nothing, ("", json))
            }
            _ => return None,
        };
        if is_broken { Some(part) } else { None }
    }

    /// Whether only constants may stand in this node.
    fn is_constant_in(self, kind: &str) -> bool {
        match kind {
            "OperationDefinition" | "FragmentDefinition" => false,
            _ => self.is_constant || kind.ends_with("Definition") || kind.ends_with("Extension"),
        }
    }

    /// The position in this node.
    #[cycle(search)]
    fn in_node(self) -> Result<Option<Position>, AllocError> {
        let kind = self.node.kind();
        if let Some((name, json)) = self.broken_part(kind) {
            let part = Position::of(NodeReader { json, ..self.node });
            return Ok(Some(part.in_member(self.node, name)?));
        }
        let is_constant = self.is_constant_in(kind);
        for name in parts_of(kind) {
            if let Some(json) = member(self.node.json, name) {
                let node = NodeReader { json, ..self.node };
                let part = Search {
                    node,
                    is_constant,
                    ..self
                };
                if let Some(position) = part.find()? {
                    return Ok(Some(position.in_member(self.node, name)?));
                }
            }
        }
        Ok(None)
    }

    /// The position in this node, or in the nodes of this array.
    #[cycle(search)]
    fn find(self) -> Result<Option<Position>, AllocError> {
        let Json::Array(items) = self.node.json else {
            return self.in_node();
        };
        for (index, json) in items.iter().enumerate() {
            let node = NodeReader { json, ..self.node };
            let item = Search { node, ..self };
            if let Some(position) = item.in_node()? {
                return Ok(Some(position.in_item(self.node, index)?));
            }
        }
        Ok(None)
    }
}

/// The position of the first flaw of the tree that a node is of, which breaks this condition.
pub(crate) fn position_of(
    node: NodeReader<'_>,
    condition: SideCondition,
) -> Result<Position, AllocError> {
    let search = Search {
        node,
        condition,
        is_constant: false,
    };
    match search.find()? {
        Some(position) => Ok(position),
        None => Ok(Position::of(node)),
    }
}
